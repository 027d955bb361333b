// Answers calls on entries and variables, one line for each case on standard input. oracle/README.md has the form of both.
#![tactic(auto)]

use answers::Refusal;
use number_input::next_usize;
use packed_var::PackedVar;
use std::io::Read;
use std::{fmt, io};
use symbolic_variable::{Entry, SymbolicVariable};

// The calls, in the order of their numbers from 1.
#[derive(Clone, Copy, Debug, PartialEq, Eq)]
enum Call {
    EntryOffset,
    EntryRotate,
    EntryNext,
    VariableNew,
    DegreeMultiple,
    VariableRotate,
    VariableNext,
    FromSymbolicVar,
    IsFirst,
    IsLast,
    IsTransition,
}

// A number that is no call's.
#[derive(Clone, Copy, Debug, PartialEq, Eq)]
struct NoCall;

impl TryFrom<usize> for Call {
    type Error = NoCall;

    fn try_from(number: usize) -> Result<Self, NoCall> {
        match number {
            1 => Ok(Call::EntryOffset),
            2 => Ok(Call::EntryRotate),
            3 => Ok(Call::EntryNext),
            4 => Ok(Call::VariableNew),
            5 => Ok(Call::DegreeMultiple),
            6 => Ok(Call::VariableRotate),
            7 => Ok(Call::VariableNext),
            8 => Ok(Call::FromSymbolicVar),
            9 => Ok(Call::IsFirst),
            10 => Ok(Call::IsLast),
            11 => Ok(Call::IsTransition),
            _ => Err(NoCall),
        }
    }
}

impl fmt::Display for NoCall {
    ghost use Rattle.std.specs.Prelude.{Some, codes};

    ghost output = { λ _. Some (codes "no call") };

    fn fmt<W: fmt::Write>(&self, f: &mut fmt::Formatter<W>) -> fmt::Result {
        write!(f, "no call")
    }
}

// The next three numbers: 0 preprocessed, 1 main, 2 challenge, 3 public; part; offset.
fn next_entry(input: &mut impl Read) -> io::Result<Entry> {
    let entry = next_usize(input)?;
    let part_index = next_usize(input)?;
    let offset = next_usize(input)?;
    Ok(match entry {
        0 => Entry::Preprocessed { offset },
        1 => Entry::Main { part_index, offset },
        2 => Entry::Challenge,
        _ => Entry::Public,
    })
}

// The line of a call that may refuse.
fn print_answer<T: fmt::Display + Drop>(
    rt: &impl Print,
    answer: Result<T, Refusal>,
) -> io::Result<()> {
    match answer {
        Ok(x) => rt.println(x),
        Err(refusal) => rt.println(refusal),
    }
}

// A case: the number of a call, the entry, the column, and by how much it is rotated.
#[derive(Clone, Copy, Debug, PartialEq, Eq)]
struct Case {
    number: usize,
    entry: Entry,
    column: usize,
    by: usize,
}

impl Case {
    fn read(input: &mut impl Read) -> io::Result<Case> {
        let number = next_usize(input)?;
        let entry = next_entry(input)?;
        let column = next_usize(input)?;
        let by = next_usize(input)?;
        Ok(Case {
            number,
            entry,
            column,
            by,
        })
    }

    // The line of the call on the entry, on a variable of that entry, or on none of both.
    fn answer(self, rt: &impl Print) -> io::Result<()> {
        let var = SymbolicVariable::new(self.entry, self.column);
        match Call::try_from(self.number) {
            Err(no_call) => rt.println(no_call),
            Ok(Call::EntryOffset) => match self.entry.offset() {
                Some(offset) => rt.println(offset),
                None => rt.println("none"),
            },
            Ok(Call::EntryRotate) => print_answer(rt, self.entry.rotate(self.by)),
            Ok(Call::EntryNext) => print_answer(rt, self.entry.next()),
            Ok(Call::VariableNew) => rt.println(var),
            Ok(Call::DegreeMultiple) => rt.println(var.degree_multiple()),
            Ok(Call::VariableRotate) => print_answer(rt, var.rotate(self.by)),
            Ok(Call::VariableNext) => print_answer(rt, var.next()),
            Ok(Call::FromSymbolicVar) => print_answer(rt, PackedVar::from_symbolic_var(var)),
            Ok(Call::IsFirst) => rt.println(PackedVar::is_first()),
            Ok(Call::IsLast) => rt.println(PackedVar::is_last()),
            Ok(Call::IsTransition) => rt.println(PackedVar::is_transition()),
        }
    }
}

fn main(rt: HostRuntime) -> io::Result<()> {
    let mut input = rt.stdin();
    let count = next_usize(&mut input)?;
    for _ in 0..count {
        Case::read(&mut input)?.answer(&rt)?;
    }
    Ok(())
}
