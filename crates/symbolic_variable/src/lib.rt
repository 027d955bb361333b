// Entries and variables, as in symbolic_variable.rs.
#![tactic(auto)]

ghost use Rattle.std.specs.Prelude.{◌≡◌};
ghost use Rattle.symbolic_variable.specs.Variable.{entry_words, offset_moved, entry_rotated, variable_of, degree_multiple};
ghost use Rattle.symbolic_variable.specs.Replies.{offset_outcome, offset_call, rotated_outcome, rotate_call, rotated_variable_outcome, rotate_variable_call};
ghost use Rattle.answers.specs.Replies.{answer_of};

use answers::{Reason, Refusal};
use std::fmt;

#[derive(Clone, Copy, Debug, PartialEq, Eq)]
pub enum Entry {
    Preprocessed { offset: usize },
    Main { part_index: usize, offset: usize },
    Public,
    Challenge,
}

// A variable within the evaluation window.
#[derive(Clone, Copy, Debug, PartialEq, Eq)]
pub struct SymbolicVariable {
    pub entry: Entry,
    pub index: usize,
}

// An offset moved on, or 11 where no usize holds it.
fn moved(offset: usize, by: usize) -> Result<usize, Refusal>
    ensures { answer_of result ≡ offset_moved offset by }
{
    offset.checked_add(by).ok_or(Refusal {
        reason: Reason::OffsetTooLarge,
        place: 0,
    })
}

impl Entry {
    #[tactic(auto, unfolding(crate::specs::Replies::offset_call, semantics::specs::Call::outcome, semantics::specs::Call::result, semantics::specs::Call::padded_all))]
    pub fn offset(self) -> Option<usize>
        ensures { offset_outcome result ≡ offset_call self }
    {
        match self {
            Entry::Preprocessed { offset } | Entry::Main { offset, .. } => Some(offset),
            Entry::Public | Entry::Challenge => None,
        }
    }

    // Three numbers: 0 preprocessed, 1 main, 2 challenge, 3 public; part; offset. 0 stands where there is no such number.
    fn words(self) -> [usize; 3]
        ensures { result ≡ entry_words self }
    {
        match self {
            Entry::Preprocessed { offset } => [0, 0, offset],
            Entry::Main { part_index, offset } => [1, part_index, offset],
            Entry::Challenge => [2, 0, 0],
            Entry::Public => [3, 0, 0],
        }
    }

    // The entry with its offset moved on, where it has one.
    fn rotated(self, offset: usize) -> Result<Self, Refusal>
        ensures { answer_of result ≡ entry_rotated self offset }
    {
        match self {
            Entry::Preprocessed { offset: old_offset } => {
                let sum = moved(old_offset, offset);
                let Ok(offset) = sum else {
                    return Err(sum.unwrap_err());
                };
                Ok(Entry::Preprocessed { offset })
            }
            Entry::Main {
                part_index,
                offset: old_offset,
            } => {
                let sum = moved(old_offset, offset);
                let Ok(offset) = sum else {
                    return Err(sum.unwrap_err());
                };
                Ok(Entry::Main { part_index, offset })
            }
            Entry::Public | Entry::Challenge => Ok(self),
        }
    }

    // Advance the offset of the entry by the given `offset`.
    pub fn rotate(self, offset: usize) -> Result<Self, Refusal>
        ensures { rotated_outcome result ≡ rotate_call self offset }
    {
        self.rotated(offset)
    }

    pub fn next(self) -> Result<Self, Refusal>
        ensures { rotated_outcome result ≡ rotate_call self 1 }
    {
        self.rotate(1)
    }
}

impl SymbolicVariable {
    pub fn new(entry: Entry, index: usize) -> Self
        ensures { result ≡ variable_of entry index }
    {
        SymbolicVariable { entry, index }
    }

    pub fn degree_multiple(self) -> usize
        ensures { result ≡ degree_multiple self.entry }
    {
        match self.entry {
            Entry::Preprocessed { .. } | Entry::Main { .. } => 1,
            Entry::Public | Entry::Challenge => 0,
        }
    }

    pub fn rotate(self, offset: usize) -> Result<Self, Refusal>
        ensures { rotated_variable_outcome result ≡ rotate_variable_call self offset }
    {
        let rotated = self.entry.rotated(offset);
        let Ok(entry) = rotated else {
            return Err(rotated.unwrap_err());
        };
        Ok(SymbolicVariable {
            entry,
            index: self.index,
        })
    }

    pub fn next(self) -> Result<Self, Refusal>
        ensures { rotated_variable_outcome result ≡ rotate_variable_call self 1 }
    {
        self.rotate(1)
    }
}

// The entry's three numbers.
impl fmt::Display for Entry {
    ghost use Rattle.std.specs.Prelude.{Some};
    ghost use Rattle.answers.specs.Replies.{numbers_text};
    ghost use Rattle.symbolic_variable.specs.Variable.{entry_words};

    ghost output = { λ e. Some (numbers_text (entry_words e)) };

    fn fmt<W: fmt::Write>(&self, f: &mut fmt::Formatter<W>) -> fmt::Result {
        let [entry, part, offset] = self.words();
        write!(f, "{entry} {part} {offset}")
    }
}

// The entry, then the column.
impl fmt::Display for SymbolicVariable {
    ghost use Rattle.std.specs.Prelude.{Some};
    ghost use Rattle.answers.specs.Replies.{numbers_text};
    ghost use Rattle.symbolic_variable.specs.Variable.{variable_words};

    ghost output = { λ v. Some (numbers_text (variable_words v)) };

    fn fmt<W: fmt::Write>(&self, f: &mut fmt::Formatter<W>) -> fmt::Result {
        write!(f, "{} {}", self.entry, self.index)
    }
}
