// The lists of a checked sheet's interactions, and the two numbers.
#![tactic(auto)]

ghost use Rattle.std.specs.Prelude.{ℕ, ◌≡◌, [], ◌*◌, ◌≤◌, length};
ghost use Rattle.semantics.specs.Check.{read_sheet};
ghost use Rattle.semantics.specs.Walk.{order};
ghost use Rattle.semantics.specs.Group.{count_roots, field_roots};
ghost use Rattle.semantics.specs.Call.{max_fields_len_of, interactions_of};
ghost use Rattle.records.specs.Access.{records_of};
ghost use Rattle.expand.specs.Walking.{Expands};
ghost use Rattle.grouping.specs.Families.{Grouping};
ghost use Rattle.constraint_lists.specs.Lists.{SameScratch, scratch_lengths, on_read};
ghost use Rattle.interaction_lists.specs.Lists.{InteractionsAre, interactions_fitted, counts_then_fields};

use answers::Refusal;
use constraint_lists::{Outputs, Scratch};
use expand::Walk;
use grouping::{Family, Lengths};
use records::CheckedSheet;
use records::interactions::Part;

// How many words each list of the interactions takes, and the two numbers.
#[derive(Clone, Copy, Debug, Default, PartialEq, Eq)]
pub struct InteractionLengths {
    pub numerators: Lengths,
    pub denominators: Lengths,
    pub num_interactions: usize,
    pub max_fields_len: usize,
}

// Expands the counts of all interactions of a checked sheet, then all fields.
fn walk_interactions(sheet: CheckedSheet, work: &mut [u32], pool: &mut [u32]) -> Result<(), Refusal>
    requires { (4096 ≤ length work.old) × (2 * length (records_of sheet.words.now) ≤ length pool.old) }
    ensures { (used : ℕ) × Expands sheet.entry.words.now pool.new used result
        (order (records_of sheet.entry.words.now) (counts_then_fields (read_sheet sheet.entry.words.now).interactions)) }
{
    let records = sheet.num_records();
    let heads = 2 * records;
    constraint_lists::clear_heads(pool, records);
    let mut walk = Walk::new(sheet, work, pool, heads);
    let counted = walk.expand_each(Part::Count, sheet.interactions());
    let Ok(()) = counted else {
        return counted;
    };
    walk.expand_each(Part::Fields, sheet.interactions())
}

// The largest message length of the interactions.
fn max_fields_len(sheet: CheckedSheet) -> usize
    ensures { result ≡ max_fields_len_of (read_sheet sheet.entry.words.now) }
{
    let mut most: usize = 0;
    for x in sheet.interactions() {
        most = most.max(x.message_length());
    }
    most
}

// Groups the counts and the fields of a checked sheet's interactions.
fn group_interactions(
    sheet: CheckedSheet,
    pool: &[u32],
    numerators: &mut Outputs,
    denominators: &mut Outputs,
) -> Result<InteractionLengths, Refusal>
    requires { Grouping sheet.words.now pool.now (count_roots (read_sheet sheet.words.now))
        × Grouping sheet.words.now pool.now (field_roots (read_sheet sheet.words.now)) }
    ensures { InteractionsAre [] numerators denominators result (on_read sheet.entry.words.now interactions_fitted) }
{
    let counted = numerators.group(sheet, pool, Family::Counts, 0);
    let Ok(counts) = counted else {
        return Err(counted.unwrap_err());
    };
    let listed = denominators.group(sheet, pool, Family::Fields, 3);
    let Ok(fields) = listed else {
        return Err(listed.unwrap_err());
    };
    let interactions = sheet.num_interactions();
    let longest = max_fields_len(sheet);
    Ok(InteractionLengths {
        numerators: counts,
        denominators: fields,
        num_interactions: interactions,
        max_fields_len: longest,
    })
}

// The lists of a checked sheet's interactions: counts in the numerators, fields in the denominators.
pub fn expand_checked(
    sheet: CheckedSheet,
    scratch: &mut Scratch,
    numerators: &mut Outputs,
    denominators: &mut Outputs,
) -> Result<InteractionLengths, Refusal>
    ensures same { SameScratch scratch.old scratch.new }
    ensures lists { InteractionsAre (scratch_lengths scratch.old) numerators denominators result
        (on_read sheet.entry.words.now interactions_of) }
{
    let checked = scratch.check(sheet);
    let Ok(_) = checked else {
        return Err(checked.unwrap_err());
    };
    let walked = walk_interactions(sheet, scratch.work, scratch.pool);
    let Ok(()) = walked else {
        return Err(walked.unwrap_err());
    };
    group_interactions(sheet, scratch.pool, numerators, denominators)
}
