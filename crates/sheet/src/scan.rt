// The check from the front: the first word that fails decides.
ghost use Rattle.std.specs.Prelude.{◌≡◌, Bool, List, ℕ, [], ◌∷◌, map, true, leb, replicate};
ghost use Rattle.semantics.specs.Arithmetic.{prime};
ghost use Rattle.semantics.specs.Sheet.{fits, row, record_tests, interaction_tests, head_tests, refers};
ghost use Rattle.semantics.specs.Check.{scan_words, scan_part, scan_parts, scan_spare};
ghost use Rattle.answers.specs.Replies.{number_of};
ghost use Rattle.sheet.specs.Readings.{from};
ghost use Rattle.sheet.specs.Scans.{scan_of, Read, Counts, Decides, Judges, use_of};

use answers::{Reason, Refusal};
use std::marker::Model;

const PRIME: u32 = 2013265921;

// What a word of a record is.
#[derive(Clone, Copy, Debug, PartialEq, Eq)]
pub enum Use {
    Unused,
    Entry,
    Part,
    Offset,
    Any,
    Constant,
    Child,
}

// How each kind uses its words a to d.
const USES: [[Use; 4]; 9] = [
    [Use::Entry, Use::Part, Use::Offset, Use::Any],
    [Use::Unused, Use::Unused, Use::Unused, Use::Unused],
    [Use::Unused, Use::Unused, Use::Unused, Use::Unused],
    [Use::Unused, Use::Unused, Use::Unused, Use::Unused],
    [Use::Constant, Use::Unused, Use::Unused, Use::Unused],
    [Use::Child, Use::Child, Use::Any, Use::Unused],
    [Use::Child, Use::Child, Use::Any, Use::Unused],
    [Use::Child, Use::Unused, Use::Any, Use::Unused],
    [Use::Child, Use::Child, Use::Any, Use::Unused],
];

// A word of record `own`, whose word a is given, used as `how` says.
fn word_fits(how: Use, own: usize, a: u32, w: u32) -> bool
    ensures { result ≡ fits prime own a (use_of how) w }
{
    match how {
        Use::Unused => w == 0,
        Use::Entry => w <= 3,
        Use::Part => a == 1 || w == 0,
        Use::Offset => a <= 1 || w == 0,
        Use::Any => true,
        Use::Constant => w < PRIME,
        Use::Child => (w as usize) < own,
    }
}

// Where the reading of a sheet stands: the words that are left, and the index of the first of them.
#[derive(Drop)]
pub struct Cursor<'a> {
    rest: &'a [u32],
    at: usize,
}

impl<'a> Model for Cursor<'a> {
    ghost use Rattle.std.specs.Prelude.{◌+◌, ◌<◌, ◌^◌, length};
    ghost use Rattle.sheet.specs.Readings.{Reading};

    ghost Value = { Reading };

    ghost view = { λ c. record { at = c.at; words = c.rest.now } };

    ghost invariant = { λ c. c.at + length c.rest.now < 2 ^ 64 };
}

impl<'a> Cursor<'a> {
    // At the first word of a sheet.
    pub fn new(s: &'a [u32]) -> Self
        ensures { result ≡ record { at = 0; words = s.now } }
    {
        Cursor { rest: s, at: 0 }
    }

    pub fn position(&self) -> usize
        ensures { result ≡ self.now.at }
    {
        self.at
    }

    // One word, judged by a test.
    fn word<F: FnOnce(u32) -> bool>(&mut self, reason: Reason, test: F) -> Result<u32, Refusal>
        requires { F.IsAlwaysCallable test }
        ensures scan { (t : ℕ → Bool) → Decides (F.post test) t
            → scan_of result self.new ≡ scan_words (number_of reason) (t ∷ []) (from self.old) }
        ensures word { Read result self.old self.new }
    {
        let Some((word, rest)) = self.rest.split_first() else {
            return Err(Refusal {
                reason: Reason::PastEnd,
                place: self.at,
            });
        };
        let word = *word;
        if !test(word) {
            return Err(Refusal {
                reason,
                place: self.at,
            });
        }
        self.rest = rest;
        self.at += 1;
        Ok(word)
    }

    // A word that is at most a limit.
    fn at_most(&mut self, reason: Reason, limit: u32) -> Result<u32, Refusal>
        ensures scan { scan_of result self.new ≡ scan_words (number_of reason) ((λ w. leb w limit) ∷ []) (from self.old) }
        ensures word { Read result self.old self.new }
    {
        self.word(reason, |w| w <= limit)
    }

    // A word that names one of `records` records.
    fn name(&mut self, records: usize) -> Result<u32, Refusal>
        ensures scan { scan_of result self.new ≡ scan_words 6 (refers records ∷ []) (from self.old) }
        ensures word { Read result self.old self.new }
    {
        self.word(Reason::WrongName, |w| (w as usize) < records)
    }

    // The head: form, records, constraints, interactions; of these the three counts.
    pub fn head(&mut self) -> Result<(usize, usize, usize), Refusal>
        ensures scan { scan_of result self.new ≡ scan_words 3 head_tests (from self.old) }
        ensures counts { Counts result self.old self.new }
    {
        let form = self.word(Reason::WrongHead, |w| w == 1);
        let Ok(_form) = form else {
            return Err(form.unwrap_err());
        };
        let records = self.at_most(Reason::WrongHead, 4096);
        let Ok(e) = records else {
            return Err(records.unwrap_err());
        };
        let constraints = self.at_most(Reason::WrongHead, 1024);
        let Ok(c) = constraints else {
            return Err(constraints.unwrap_err());
        };
        let interactions = self.at_most(Reason::WrongHead, 1024);
        let Ok(i) = interactions else {
            return Err(interactions.unwrap_err());
        };
        Ok((e as usize, c as usize, i as usize))
    }

    // The words a to d of a record, used as the row of its kind says.
    fn row(&mut self, row: [Use; 4], own: usize, a: u32) -> Result<(), Refusal>
        ensures { scan_of result self.new ≡ scan_words 5 (map (fits prime own a) (map use_of row)) (from self.old) }
    {
        for how in row {
            let word = self.word(Reason::WrongRecord, |w| word_fits(how, own, a, w));
            let Ok(_word) = word else {
                return Err(word.unwrap_err());
            };
        }
        Ok(())
    }

    // A record: its kind, then its words a to d by the row of that kind. Where no word a is left, the row refuses.
    fn record(&mut self, own: usize) -> Result<(), Refusal>
        ensures { scan_of result self.new ≡ scan_part 5 (record_tests prime own) (from self.old) }
    {
        let kind = self.word(Reason::WrongRecord, |w| 1 <= w && w <= 9);
        let Ok(k) = kind else {
            return Err(kind.unwrap_err());
        };
        let a = self.rest.first().copied().unwrap_or(0);
        self.row(USES[k as usize - 1], own, a)
    }

    // Parts, one behind the other, each judged by its number.
    fn parts<F: Fn(&mut Cursor, usize) -> Result<(), Refusal>>(
        &mut self,
        count: usize,
        check: F,
    ) -> Result<(), Refusal>
        requires { F.IsAlwaysCallable check }
        ensures { (n : ℕ) (tests : ℕ → List ℕ → List (ℕ → Bool)) → Judges n tests count (F.post check)
            → scan_of result self.new ≡ scan_parts n tests count 0 (from self.old) }
    {
        for own in 0..count {
            let part = check(self, own);
            let Ok(()) = part else {
                return part;
            };
        }
        Ok(())
    }

    // The records, from the front.
    pub fn records(&mut self, count: usize) -> Result<(), Refusal>
        ensures { scan_of result self.new ≡ scan_parts 5 (record_tests prime) count 0 (from self.old) }
    {
        self.parts(count, |cursor, own| cursor.record(own))
    }

    // Words that name records, of which there are `records`.
    pub fn references(&mut self, count: usize, records: usize) -> Result<(), Refusal>
        ensures { scan_of result self.new ≡ scan_words 6 (replicate count (refers records)) (from self.old) }
    {
        for _k in 0..count {
            let name = self.name(records);
            let Ok(_name) = name else {
                return Err(name.unwrap_err());
            };
        }
        Ok(())
    }

    // An interaction: bus, weight, count, message length, then as many references as that says.
    fn interaction(&mut self, records: usize) -> Result<(), Refusal>
        ensures { scan_of result self.new ≡ scan_part 6 (interaction_tests records) (from self.old) }
    {
        let bus = self.at_most(Reason::WrongName, 65535);
        let Ok(_bus) = bus else {
            return Err(bus.unwrap_err());
        };
        let weight = self.word(Reason::WrongName, |_| true);
        let Ok(_weight) = weight else {
            return Err(weight.unwrap_err());
        };
        let count = self.name(records);
        let Ok(_count) = count else {
            return Err(count.unwrap_err());
        };
        let length = self.at_most(Reason::WrongName, 63);
        let Ok(n) = length else {
            return Err(length.unwrap_err());
        };
        self.references(n as usize, records)
    }

    // The interactions, from the front.
    pub fn interactions(&mut self, count: usize, records: usize) -> Result<(), Refusal>
        ensures { scan_of result self.new ≡ scan_parts 6 (λ own. interaction_tests records) count 0 (from self.old) }
    {
        self.parts(count, |cursor, _| cursor.interaction(records))
    }

    // The spare words: at most 126, all zero.
    pub fn spare(&mut self) -> Result<(), Refusal>
        ensures { scan_of result self.new ≡ scan_spare 126 (from self.old) }
    {
        for k in 0..self.rest.len() {
            let word = self.word(Reason::WrongSpare, |w| k < 126 && w == 0);
            let Ok(_word) = word else {
                return Err(word.unwrap_err());
            };
        }
        Ok(())
    }
}
