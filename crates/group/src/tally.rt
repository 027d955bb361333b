// Counting the monomials of a record's list: each counts in its row, or waits until those without a row are put in among the rows.
ghost use Rattle.std.specs.Prelude.{◌≡◌, [], ◌∷◌, ◌+◌, ◌*◌, ◌≤◌, ◌<◌, length};
ghost use Rattle.std.proofs.lemmas.List.Edits.{sets};
ghost use Rattle.group.specs.Grouped.{tally_all, tallied_total, RowsAre, non_zero, list_of, InPool};
ghost use Rattle.group.specs.Waiting.{PlaceInside, pool_vars, Batch, batched};
ghost use Rattle.group.specs.Groups.{tallies, Counted, Awaits, counting, Nexts, Takes};

use crate::Groups;
use crate::kept::Kept;
use crate::waits::{Waiting, Waits};

// The four words of a row.
fn put_row(headers: &mut [u32], at: usize, place: u32, count: u32)
    requires { at + 4 ≤ length headers.old }
    ensures { headers.new ≡ sets headers.old at (place ∷ 0 ∷ count ∷ 1 ∷ []) }
{
    headers[at..at + 4].copy_from_slice(&[place, 0, count, 1]);
}

// Puts the monomials that wait in among the n rows, from the last to the first.
#[tactic(auto, using(crate::proofs::Inserts::insert_next))]
fn insert_rows(headers: &mut [u32], n: usize, pool: &[u32], waits: &Waits)
    requires { Batch n waits.now.count headers.old pool.now waits.now.places × (4 * n + 4 * waits.now.count ≤ length headers.old) }
    ensures { RowsAre (n + waits.now.count) headers.new pool.now (batched n waits.now.count headers.old pool.now waits.now.places) }
{
    let mut end = n;
    for j in (0..waits.count).rev() {
        let Waiting { place, front } = waits.places[j];
        headers.copy_within(4 * front..4 * end, 4 * front + 4 * j + 4);
        put_row(headers, 4 * front + 4 * j, place as u32, pool[place]);
        end = front;
    }
}

impl<'a> Groups<'a> {
    // Puts the monomials that wait in among the rows; None: they have no room.
    fn insert(&mut self, waits: &Waits) -> Option<()>
        requires { Awaits self.old waits.now }
        ensures { Counted self.old self.new (counting self.old waits.now) result }
    {
        if self.headers.len() - 4 * self.n < 4 * waits.count {
            return None;
        }
        insert_rows(self.headers, self.n, self.pool, waits);
        self.n += waits.count;
        Some(())
    }

    // Counts the monomial that stands at `at`, or has it wait, and hands back near which row the next one is looked for. None: those that wait come first.
    #[tactic(auto, using(crate::proofs::Headers::tallied_length))]
    fn tally_near(&mut self, at: usize, near: usize, waits: &mut Waits) -> Option<usize>
        requires { Awaits self.old waits.old × PlaceInside self.old.pool.now at × (tallied_total (counting self.old waits.old) < 4294967295) }
        ensures { Nexts self.old waits.old (pool_vars self.old.pool.now at ∷ []) self.new waits.new result }
    {
        match self.find_near(at, near) {
            Ok(k) => {
                self.headers[4 * k + 3] += 1;
                Some(k)
            }
            Err(k) => {
                if waits.may_follow(self.pool, at) {
                    waits.push(at, k);
                    return Some(k.checked_sub(1).unwrap_or(self.n));
                }
                None
            }
        }
    }

    // The same, but that those that wait are put in where they come first. None: they have no room.
    fn tally(&mut self, at: usize, near: usize, waits: &mut Waits) -> Option<usize>
        requires { Awaits self.old waits.old × PlaceInside self.old.pool.now at × (tallied_total (counting self.old waits.old) < 4294967295) }
        ensures { Takes self.old waits.old (pool_vars self.old.pool.now at ∷ []) self.new waits.new result }
    {
        if let Some(k) = self.tally_near(at, near, waits) {
            return Some(k);
        }
        self.insert(waits)?;
        waits.clear();
        let n = self.n;
        self.tally_near(at, n, waits)
    }

    // Counts the monomials of a record's list; None: the slice is too short for their rows.
    pub fn tally_root(&mut self, node: usize) -> Option<()>
        requires { InPool self.old.pool.now node
            × (tallied_total (tallies self.old) + length (list_of self.old.pool.now node) ≤ 4294967295) }
        ensures { Counted self.old self.new (tally_all (non_zero (list_of self.old.pool.now node)) (tallies self.old)) result }
    {
        if self.pool[2 * node + 1] == 0 {
            return Some(());
        }
        let mut waits = Waits::new();
        let mut near = self.n;
        for at in Kept::of(self.pool, node) {
            near = self.tally(at, near, &mut waits)?;
        }
        self.insert(&waits)
    }
}
