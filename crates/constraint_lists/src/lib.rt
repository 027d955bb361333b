// The lists of a checked sheet's constraints: its records are expanded, then grouped. What the interactions' lists take too stands here.
#![tactic(auto)]

ghost use Rattle.std.specs.Prelude.{ℕ, ◌≡◌, ◌++◌, ◌*◌, ◌≤◌, length, drop};
ghost use Rattle.semantics.specs.Call.{zeros, constraints_of};
ghost use Rattle.semantics.specs.Check.{read_sheet};
ghost use Rattle.semantics.specs.Walk.{order};
ghost use Rattle.records.specs.Access.{records_of};
ghost use Rattle.group.specs.Grouped.{term_of};
ghost use Rattle.expand.specs.Walking.{Expands};
ghost use Rattle.grouping.specs.Families.{Grouping, roots_of, form_of, groups_of};
ghost use Rattle.constraint_lists.specs.Lists.{Grouped, Cleared, SameScratch, scratch_lengths, ScratchFits, ScratchCleared, ConstraintsAre, on_read};

use answers::{Reason, Refusal};
use expand::Walk;
use grouping::{Family, Lengths};
use records::CheckedSheet;

// The three outputs of a family's lists.
#[derive(Drop)]
pub struct Outputs<'a> {
    pub headers: &'a mut [u32],
    pub variables: &'a mut [u32],
    pub terms: &'a mut [u32],
}

impl Outputs<'_> {
    // Groups a family of a checked sheet's records; in a refusal the slices are counted from `first`.
    pub fn group(
        &mut self,
        sheet: CheckedSheet,
        pool: &[u32],
        family: Family,
        first: usize,
    ) -> Result<Lengths, Refusal>
        requires { Grouping sheet.words.now pool.now (roots_of family (read_sheet sheet.words.now)) × (first ≤ 3) }
        ensures { Grouped first (term_of (form_of family)) (groups_of sheet.entry.words.now (roots_of family (read_sheet sheet.entry.words.now)))
            self result }
    {
        let grouped = grouping::group_family(
            sheet,
            pool,
            family,
            self.headers,
            self.variables,
            self.terms,
        );
        let Ok(lengths) = grouped else {
            let short = grouped.unwrap_err();
            return Err(Refusal {
                reason: Reason::SliceTooShort,
                place: first + short.number(),
            });
        };
        Ok(lengths)
    }

    // Zeros behind the words of each output.
    pub fn clear_behind(&mut self, kept: Lengths)
        ensures { Cleared kept self }
    {
        slices::fill_from(self.headers, kept.headers, 0);
        slices::fill_from(self.variables, kept.variables, 0);
        slices::fill_from(self.terms, kept.terms, 0);
    }
}

// The scratch of an expansion: the work list, and the pool of finished lists.
#[derive(Drop)]
pub struct Scratch<'a> {
    pub work: &'a mut [u32],
    pub pool: &'a mut [u32],
}

impl Scratch<'_> {
    // Whether work and pool are long enough to expand a checked sheet.
    pub fn check(&self, sheet: CheckedSheet) -> Result<(), Refusal>
        ensures { ScratchFits (length self.now.work.now) (length self.now.pool.now) (length (records_of sheet.entry.words.now)) result }
    {
        if self.work.len() < 4096 {
            return Err(Refusal {
                reason: Reason::ScratchTooShort,
                place: 4096,
            });
        }
        let heads = 2 * sheet.num_records();
        if self.pool.len() < heads {
            return Err(Refusal {
                reason: Reason::ScratchTooShort,
                place: heads,
            });
        }
        Ok(())
    }

    // Zeros, all of both.
    pub fn clear(&mut self)
        ensures { ScratchCleared self }
    {
        self.work.fill(0);
        self.pool.fill(0);
    }
}

// Clears the two words of each record, in front of the pool: no record is expanded.
pub fn clear_heads(pool: &mut [u32], records: usize)
    requires { 2 * records ≤ length pool.old }
    ensures { pool.new ≡ zeros (2 * records) ++ drop (2 * records) pool.old }
{
    let heads = 2 * records;
    pool[..heads].fill(0);
}

// Expands the constraints of a checked sheet.
fn walk_constraints(sheet: CheckedSheet, work: &mut [u32], pool: &mut [u32]) -> Result<(), Refusal>
    requires { (4096 ≤ length work.old) × (2 * length (records_of sheet.words.now) ≤ length pool.old) }
    ensures { (used : ℕ) × Expands sheet.entry.words.now pool.new used result
        (order (records_of sheet.entry.words.now) (read_sheet sheet.entry.words.now).constraints) }
{
    let records = sheet.num_records();
    let heads = 2 * records;
    clear_heads(pool, records);
    let names = sheet.constraints();
    let mut walk = Walk::new(sheet, work, pool, heads);
    walk.expand_references(names)
}

// The lists of a checked sheet's constraints.
pub fn expand_checked(
    sheet: CheckedSheet,
    scratch: &mut Scratch,
    outputs: &mut Outputs,
) -> Result<Lengths, Refusal>
    ensures same { SameScratch scratch.old scratch.new }
    ensures lists { ConstraintsAre (scratch_lengths scratch.old) outputs result (on_read sheet.entry.words.now constraints_of) }
{
    let checked = scratch.check(sheet);
    let Ok(_) = checked else {
        return Err(checked.unwrap_err());
    };
    let walked = walk_constraints(sheet, scratch.work, scratch.pool);
    let Ok(()) = walked else {
        return Err(walked.unwrap_err());
    };
    outputs.group(sheet, scratch.pool, Family::Constraints, 0)
}
