// Sheets: the check, with which every call on a sheet begins.
#![tactic(auto)]

ghost use Rattle.std.specs.Prelude.{◌≡◌};
ghost use Rattle.semantics.specs.Check.{prime_of};
ghost use Rattle.semantics.specs.Call.{check_call};
ghost use Rattle.sheet.specs.Replies.{checked_outcome};

mod scan;

use answers::Refusal;
use scan::Cursor;

// What the check hands on of a sheet: the counts, where the interactions start, and the words without spare ones.
#[derive(Clone, Copy, Debug, PartialEq, Eq)]
pub struct Head {
    pub records: usize,
    pub constraints: usize,
    pub interactions: usize,
    pub start: usize,
    pub words: usize,
}

// The sheet check: words are read from the front and the first that fails decides.
pub fn check_sheet(s: &[u32]) -> Result<Head, Refusal>
    ensures { checked_outcome result ≡ check_call (prime_of s.now) s.now }
{
    let mut cursor = Cursor::new(s);
    let head = cursor.head();
    let Ok((records, constraints, interactions)) = head else {
        return Err(head.unwrap_err());
    };
    let all_records = cursor.records(records);
    let Ok(()) = all_records else {
        return Err(all_records.unwrap_err());
    };
    let all_constraints = cursor.references(constraints, records);
    let Ok(()) = all_constraints else {
        return Err(all_constraints.unwrap_err());
    };
    let start = cursor.position();
    let all_interactions = cursor.interactions(interactions, records);
    let Ok(()) = all_interactions else {
        return Err(all_interactions.unwrap_err());
    };
    let words = cursor.position();
    let spare = cursor.spare();
    let Ok(()) = spare else {
        return Err(spare.unwrap_err());
    };
    Ok(Head {
        records,
        constraints,
        interactions,
        start,
        words,
    })
}
