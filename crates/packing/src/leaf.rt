// The leaf that a record encodes: a variable or a row mark.
ghost use Rattle.std.specs.Prelude.{◌≡◌};
ghost use Rattle.semantics.specs.Sheet.{record_of};
ghost use Rattle.records.specs.Access.{five_words};
ghost use Rattle.packing.specs.Leaves.{leaf_answer, leaf_checked, wrong_at, leaf_of_variable, IsMark};

use answers::{Reason, Refusal};
use records::Record;
use symbolic_variable::{Entry, SymbolicVariable};

#[derive(Clone, Copy, Debug, PartialEq, Eq)]
pub enum Leaf {
    Variable(SymbolicVariable),
    IsFirstRow,
    IsLastRow,
    IsTransition,
}

// The word at a place is wrong.
fn wrong(place: usize) -> Result<Leaf, Refusal>
    ensures { result ≡ wrong_at place }
{
    Err(Refusal {
        reason: Reason::WrongRecord,
        place,
    })
}

fn variable_of(entry: Entry, column: u32) -> Result<Leaf, Refusal>
    ensures { result ≡ leaf_of_variable entry column }
{
    Ok(Leaf::Variable(SymbolicVariable {
        entry,
        index: column as usize,
    }))
}

// A variable's words: 0 preprocessed, 1 main, 2 challenge, 3 public; a part only for 1, an offset only for 0 and 1.
fn variable(q: Record) -> Result<Leaf, Refusal>
    ensures { leaf_answer result ≡ leaf_checked (record_of 1 q.a q.b q.c q.d) }
{
    if 3 < q.a {
        return wrong(1);
    }
    if q.a == 1 {
        return variable_of(
            Entry::Main {
                part_index: q.b as usize,
                offset: q.c as usize,
            },
            q.d,
        );
    }
    if q.b != 0 {
        return wrong(2);
    }
    if q.a == 0 {
        return variable_of(
            Entry::Preprocessed {
                offset: q.c as usize,
            },
            q.d,
        );
    }
    if q.c != 0 {
        return wrong(3);
    }
    if q.a == 2 {
        return variable_of(Entry::Challenge, q.d);
    }
    variable_of(Entry::Public, q.d)
}

// A row mark, which uses no word.
fn mark(q: Record, leaf: Leaf) -> Result<Leaf, Refusal>
    requires { IsMark q.kind leaf }
    ensures { leaf_answer result ≡ leaf_checked (five_words q) }
{
    if q.a != 0 {
        return wrong(1);
    }
    if q.b != 0 {
        return wrong(2);
    }
    if q.c != 0 {
        return wrong(3);
    }
    if q.d != 0 {
        return wrong(4);
    }
    Ok(leaf)
}

pub fn leaf_of(q: Record) -> Result<Leaf, Refusal>
    ensures { leaf_answer result ≡ leaf_checked (five_words q) }
{
    match q.kind {
        1 => variable(q),
        2 => mark(q, Leaf::IsFirstRow),
        3 => mark(q, Leaf::IsLastRow),
        4 => mark(q, Leaf::IsTransition),
        _ => wrong(0),
    }
}
