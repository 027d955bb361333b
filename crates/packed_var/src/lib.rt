// Packed variables, as PackedVar in monomial.rs.
#![tactic(auto)]

ghost use Rattle.std.specs.Prelude.{◌≡◌, ◌+◌, ◌*◌, ◌<◌};
ghost use Rattle.semantics.specs.Call.{variable_call};
ghost use Rattle.packed_var.specs.Packed.{variable_record, refused_for, packed_outcome};

use answers::{Reason, Refusal};
use std::fmt;
use symbolic_variable::{Entry, SymbolicVariable};

// A number with its own type: bits 0 to 3 type, 4 to 11 part, 12 to 15 offset, 16 to 31 column. The order is the number's.
#[derive(Clone, Copy, Debug, PartialEq, Eq, PartialOrd, Ord)]
pub struct PackedVar(pub u32);

fn refused(reason: Reason) -> Result<PackedVar, Refusal>
    ensures { result ≡ refused_for reason }
{
    Err(Refusal { reason, place: 0 })
}

impl PackedVar {
    fn new(entry_type: u8, part_index: u8, offset: u8, col_index: u16) -> Self
        requires { (entry_type < 16) × (offset < 16) }
        ensures { result.0 ≡ entry_type + 16 * part_index + 4096 * offset + 65536 * col_index }
    {
        PackedVar(
            entry_type as u32
                + 16 * part_index as u32
                + 4096 * offset as u32
                + 65536 * col_index as u32,
        )
    }

    // 8 to 11 for a column, a challenge, a part or an offset that no packed number holds.
    pub fn from_symbolic_var(var: SymbolicVariable) -> Result<Self, Refusal>
        ensures { packed_outcome result ≡ variable_call (variable_record var) }
    {
        if 65535 < var.index {
            return refused(Reason::ColumnTooLarge);
        }
        let column = var.index as u16;
        match var.entry {
            Entry::Main { part_index, offset } => {
                if 255 < part_index {
                    return refused(Reason::PartTooLarge);
                }
                if 15 < offset {
                    return refused(Reason::OffsetTooLarge);
                }
                Ok(PackedVar::new(1, part_index as u8, offset as u8, column))
            }
            Entry::Preprocessed { offset } => {
                if 15 < offset {
                    return refused(Reason::OffsetTooLarge);
                }
                Ok(PackedVar::new(0, 0, offset as u8, column))
            }
            Entry::Public => Ok(PackedVar::new(3, 0, 0, column)),
            Entry::Challenge => refused(Reason::ChallengeRefused),
        }
    }

    pub fn is_first() -> Self
        ensures { result.0 ≡ 8 }
    {
        PackedVar::new(8, 0, 0, 0)
    }

    pub fn is_last() -> Self
        ensures { result.0 ≡ 9 }
    {
        PackedVar::new(9, 0, 0, 0)
    }

    pub fn is_transition() -> Self
        ensures { result.0 ≡ 10 }
    {
        PackedVar::new(10, 0, 0, 0)
    }
}

impl fmt::Display for PackedVar {
    ghost use Rattle.std.specs.Prelude.{Some};
    ghost use Rattle.std.specs.Fmt.{decimal};

    ghost output = { λ v. Some (decimal v.0) };

    fn fmt<W: fmt::Write>(&self, f: &mut fmt::Formatter<W>) -> fmt::Result {
        write!(f, "{}", self.0)
    }
}
