// What the answers of all calls share: a call hands back its answer, or why it refuses and where.
#![tactic(auto)]

ghost use Rattle.std.specs.Prelude.{◌≡◌, ◌++◌, ◌-◌, length, take, replicate};
ghost use Rattle.answers.specs.Replies.{number_of, count_of};

use std::fmt;

// Why a call refuses, in the order of the numbers that C is told.
#[derive(Clone, Copy, Debug, PartialEq, Eq)]
pub enum Reason {
    WrongLength = 1,
    WrongCheck,
    WrongHead,
    PastEnd,
    WrongRecord,
    WrongName,
    WrongSpare,
    ColumnTooLarge,
    ChallengeRefused,
    PartTooLarge,
    OffsetTooLarge,
    ListTooLong,
    ProductTooLong,
    ScratchTooShort,
    OutputTooShort,
    PoolTooShort,
    SliceTooShort,
}

impl Reason {
    pub fn number(self) -> u32
        ensures { result ≡ number_of self }
    {
        self as u32
    }
}

// A refusal: its reason, with its place.
#[derive(Clone, Copy, Debug, PartialEq, Eq)]
pub struct Refusal {
    pub reason: Reason,
    pub place: usize,
}

// Zeros behind the elements that a call wrote, in all of the slice after a refusal; the answer is handed on.
pub fn zero_rest<T: Copy>(
    written: Result<usize, Refusal>,
    out: &mut [T],
    zero: T,
) -> Result<usize, Refusal>
    ensures { (result ≡ written)
        × (out.new ≡ take (count_of written) out.old ++ replicate (length out.old - count_of written) zero) }
{
    slices::fill_from(out, written.unwrap_or(0), zero);
    written
}

impl fmt::Display for Refusal {
    ghost use Rattle.std.specs.Prelude.{Some};
    ghost use Rattle.answers.specs.Replies.{refusal_text};

    ghost output = { λ r. Some (refusal_text r) };

    fn fmt<W: fmt::Write>(&self, f: &mut fmt::Formatter<W>) -> fmt::Result {
        let number = self.reason.number();
        write!(f, "refused {number} {}", self.place)
    }
}
