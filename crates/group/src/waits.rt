// Monomials that have no row yet: they wait, in ascending order, until they are put in among the rows together.
ghost use Rattle.std.specs.Prelude.{◌≡◌, ◌+◌, ◌≤◌, ◌<◌, length, set};
ghost use Rattle.group.specs.Waiting.{PlaceInside, AllInside, MayFollow};

use crate::search;
use monomial::vars;
use std::cmp::Ordering;

// A monomial that waits: where it stands in the pool, and the row that it goes in front of.
#[derive(Clone, Copy, Debug, Default, PartialEq, Eq)]
pub struct Waiting {
    pub place: usize,
    pub front: usize,
}

// The first `count` wait.
#[derive(Clone, Copy)]
pub struct Waits {
    pub places: [Waiting; 32],
    pub count: usize,
}

impl Waits {
    #[inline(always)]
    pub fn new() -> Self
        ensures { (0 < length result.places) × (result.count ≡ 0) }
    {
        Waits {
            places: [Waiting::default(); 32],
            count: 0,
        }
    }

    // Whether the monomial that stands at `at` may wait behind the others: there is room, and it comes after the last of them.
    pub fn may_follow(&self, pool: &[u32], at: usize) -> bool
        requires { (self.now.count ≤ length self.now.places) × (0 < length self.now.places)
            × AllInside self.now.count self.now.places pool.now × PlaceInside pool.now at }
        ensures { MayFollow self.now.count self.now.places pool.now at result }
    {
        if self.count == 0 {
            return true;
        }
        if self.places.len() <= self.count {
            return false;
        }
        let last = self.places[self.count - 1].place;
        let order = vars::compare(search::vars_at(pool, at), search::vars_at(pool, last));
        matches!(order, Ordering::Greater)
    }

    // The monomial that stands at `place` waits too, in front of row `front`.
    pub fn push(&mut self, place: usize, front: usize)
        requires { self.old.count < length self.old.places }
        ensures { self.new ≡ record {
          places = set self.old.places self.old.count (record { place = place; front = front });
          count = self.old.count + 1;
        } }
    {
        self.places[self.count] = Waiting { place, front };
        self.count += 1;
    }

    // None waits.
    pub fn clear(&mut self)
        ensures { self.new ≡ record { places = self.old.places; count = 0 } }
    {
        self.count = 0;
    }
}
