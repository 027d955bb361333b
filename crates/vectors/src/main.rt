// Replays stored answers: for each sheet on standard input the calls must answer as written behind it. oracle/README.md has the form of the input.
#![tactic(auto)]

ghost use Rattle.std.specs.Prelude.{◌≤◌, IfOk};

use answers::Refusal;
use grouping::Lengths;
use listing::headers::Lists;
use number_input::next_u32;
use std::io;
use std::io::Read;

// A call whose answers are stored.
#[derive(Clone, Copy, Debug, PartialEq, Eq)]
enum Call {
    Build,
    ExpandConstraints,
    ExpandInteractions,
}

// What stands in the input: a sheet, or a call on the sheet before it.
#[derive(Clone, Copy, Debug, PartialEq, Eq)]
enum Item {
    Sheet,
    Call(Call),
}

// A number that is no item's.
#[derive(Clone, Copy, Debug, PartialEq, Eq)]
struct NoItem;

impl TryFrom<u32> for Item {
    type Error = NoItem;

    fn try_from(number: u32) -> Result<Self, NoItem> {
        match number {
            0 => Ok(Item::Sheet),
            1 => Ok(Item::Call(Call::Build)),
            2 => Ok(Item::Call(Call::ExpandConstraints)),
            3 => Ok(Item::Call(Call::ExpandInteractions)),
            _ => Err(NoItem),
        }
    }
}

// The next number, or the most that it may be.
fn next_length(input: &mut impl Read, most: usize) -> io::Result<usize>
    ensures { IfOk result (λ n. n ≤ most) }
{
    let n = next_u32(input)? as usize;
    Ok(n.min(most))
}

// A sheet, in front of room for the longest.
#[derive(Drop)]
struct Sheet {
    buffer: [u32; 4096],
    num_words: usize,
    ghost within: { num_words ≤ 4096 },
}

impl Sheet {
    // The words of the sheet.
    fn words(&self) -> &[u32] {
        &self.buffer[..self.num_words]
    }

    // Reads how many words a sheet has, and the words, in place of those before: one by one, since a part of a field cannot be lent
    // to be written where the type has a ghost field.
    fn read(&mut self, input: &mut impl Read) -> io::Result<()> {
        let n = next_length(input, self.buffer.len())?;
        self.num_words = n;
        for i in 0..n {
            self.buffer[i] = next_u32(input)?;
        }
        Ok(())
    }
}

// A replay: its input, and the sheet that was read last, on which calls are made.
#[derive(Drop)]
struct Replay<R> {
    input: R,
    sheet: Sheet,
}

impl<R: Read> Replay<R> {
    // The front of a buffer, as long as the next number says.
    fn lent<'a>(&mut self, buffer: &'a mut [u32]) -> io::Result<&'a mut [u32]> {
        let n = next_length(&mut self.input, buffer.len())?;
        Ok(&mut buffer[..n])
    }

    // Whether this is the next number.
    fn same_number(&mut self, n: usize) -> io::Result<bool> {
        Ok(next_u32(&mut self.input)? as usize == n)
    }

    // Whether the next list is the first n of these words: how many, then each.
    fn same_list(&mut self, words: &[u32], n: usize) -> io::Result<bool> {
        let Some(front) = words.get(..n) else {
            return Ok(false);
        };
        let mut same = self.same_number(n)?;
        for &word in front {
            same &= self.same_number(word as usize)?;
        }
        Ok(same)
    }

    // Whether the next three lists are these, as far as they are written.
    fn same_lists(&mut self, lists: Lists, n: Lengths) -> io::Result<bool> {
        Ok(
            self.same_list(lists.headers, n.headers)?
                & self.same_list(lists.variables, n.variables)?
                & self.same_list(lists.terms, n.terms)?,
        )
    }

    // Whether the next two numbers are the answer's number and place: 0 and 0 where the call accepts.
    fn same_reply<T: Copy>(&mut self, answer: Result<T, Refusal>) -> io::Result<bool> {
        let (number, place) = match answer {
            Ok(_) => (0, 0),
            Err(refusal) => (refusal.reason.number(), refusal.place),
        };
        Ok(self.same_number(number as usize)? & self.same_number(place)?)
    }

    // A call of the builder: the words lent of scratch and output, then number and place; where it accepts, the graph.
    fn build(&mut self) -> io::Result<bool> {
        let mut scratch = [0u32; 4096];
        let mut out = [0u32; 4096];
        let scratch = self.lent(&mut scratch)?;
        let out = self.lent(&mut out)?;
        let built = dag::build(self.sheet.words(), scratch, out);
        let same = self.same_reply(built)?;
        let Ok(n) = built else {
            return Ok(same);
        };
        Ok(same & self.same_list(out, n)?)
    }

    // A call of the constraint expansion: the words lent, number and place; where it accepts, the three lists.
    fn expand_constraints(&mut self) -> io::Result<bool> {
        let mut work = [0u32; 4096];
        let mut pool = [0u32; 8192];
        let mut headers = [0u32; 1024];
        let mut variables = [0u32; 1024];
        let mut terms = [0u32; 1024];
        let work = self.lent(&mut work)?;
        let pool = self.lent(&mut pool)?;
        let headers = self.lent(&mut headers)?;
        let variables = self.lent(&mut variables)?;
        let terms = self.lent(&mut terms)?;
        let sheet = self.sheet.words();
        let written = expansion::expand_constraints(sheet, work, pool, headers, variables, terms);
        let same = self.same_reply(written)?;
        let Ok(n) = written else {
            return Ok(same);
        };
        let lists = Lists {
            headers,
            variables,
            terms,
        };
        Ok(same & self.same_lists(lists, n)?)
    }

    // A call of the interaction expansion: the same with six lists, and the two numbers at the end.
    fn expand_interactions(&mut self) -> io::Result<bool> {
        let mut work = [0u32; 4096];
        let mut pool = [0u32; 8192];
        let mut headers = [0u32; 1024];
        let mut variables = [0u32; 1024];
        let mut terms = [0u32; 1024];
        let mut denom_headers = [0u32; 1024];
        let mut denom_variables = [0u32; 1024];
        let mut denom_terms = [0u32; 1024];
        let work = self.lent(&mut work)?;
        let pool = self.lent(&mut pool)?;
        let headers = self.lent(&mut headers)?;
        let variables = self.lent(&mut variables)?;
        let terms = self.lent(&mut terms)?;
        let denom_headers = self.lent(&mut denom_headers)?;
        let denom_variables = self.lent(&mut denom_variables)?;
        let denom_terms = self.lent(&mut denom_terms)?;
        let written = expansion::expand_interactions(
            self.sheet.words(),
            work,
            pool,
            headers,
            variables,
            terms,
            denom_headers,
            denom_variables,
            denom_terms,
        );
        let same = self.same_reply(written)?;
        let Ok(n) = written else {
            return Ok(same);
        };
        let numerators = Lists {
            headers,
            variables,
            terms,
        };
        let denominators = Lists {
            headers: denom_headers,
            variables: denom_variables,
            terms: denom_terms,
        };
        Ok(
            same & self.same_lists(numerators, n.numerators)?
                & self.same_lists(denominators, n.denominators)?
                & self.same_number(n.num_interactions)?
                & self.same_number(n.max_fields_len)?,
        )
    }

    // Whether a call on the sheet answers as written.
    fn same_answer(&mut self, call: Call) -> io::Result<bool> {
        match call {
            Call::Build => self.build(),
            Call::ExpandConstraints => self.expand_constraints(),
            Call::ExpandInteractions => self.expand_interactions(),
        }
    }

    // Replays the next item; whether it is as written.
    fn same_item(&mut self) -> io::Result<bool> {
        let number = next_u32(&mut self.input)?;
        match Item::try_from(number) {
            Ok(Item::Sheet) => {
                self.sheet.read(&mut self.input)?;
                Ok(true)
            }
            Ok(Item::Call(call)) => self.same_answer(call),
            Err(_) => Ok(false),
        }
    }

    // Replays so many items, counted from 0, says which differ, and hands back how many.
    fn items(&mut self, rt: &impl Print, count: usize) -> io::Result<usize> {
        let mut differ = 0;
        for i in 0..count {
            if !self.same_item()? {
                println!(rt; "item {i} differs")?;
                differ += 1;
            }
        }
        Ok(differ)
    }
}

fn main(rt: HostRuntime) -> io::Result<()> {
    let mut input = rt.stdin();
    let count = next_length(&mut input, 100000)?;
    let sheet = Sheet {
        buffer: [0; 4096],
        num_words: 0,
    };
    let mut replay = Replay { input, sheet };
    let differ = replay.items(&rt, count)?;
    println!(rt; "{count} items, {differ} differ")
}
