// Interactions that stand one behind the other in words, as those of a checked sheet do.
ghost use Rattle.std.specs.Prelude.{◌≡◌, [], ◌∷◌, ◌+◌, ◌≤◌, MatchOption, length, get_or, drop};
ghost use Rattle.std.specs.Iterator.{item_count};
ghost use Rattle.semantics.specs.Check.{read_interaction, read_interactions, read_sheet};
ghost use Rattle.records.specs.Access.{InteractionsStand, front_words};
ghost use Rattle.records.specs.Named.{part_of};
ghost use Rattle.slices.specs.Putting.{Puts};

use crate::CheckedSheet;
use std::marker::Model;

// What is taken of an interaction: the record of its count, or those of its message's fields.
#[derive(Clone, Copy, Debug, PartialEq, Eq)]
pub enum Part {
    Count,
    Fields,
}

// An interaction as words: the bus, the count's weight, the count, the length of the message, and the fields of the message.
#[derive(Clone, Copy)]
pub struct Interaction<'a> {
    pub words: &'a [u32],
    ghost whole: { length words.now ≡ 4 + get_or words.now 3 0 },
}

// The interaction that stands at a place in the words.
pub fn interaction_at(words: &[u32], at: usize) -> Interaction<'_>
    requires { at + (4 + get_or words.now (at + 3) 0) ≤ length words.now }
    ensures { read_interaction result.words.now ≡ read_interaction (drop at words.now) }
{
    let length = 4 + words[at + 3] as usize;
    Interaction {
        words: &words[at..at + length],
    }
}

impl<'a> Interaction<'a> {
    // How many words it takes.
    pub fn word_count(&self) -> usize
        ensures { result ≡ 4 + length (read_interaction self.now.words.now).message }
    {
        self.words.len()
    }

    // The bus.
    #[tactic(auto, unfolding(semantics::specs::Check::read_interaction))]
    pub fn bus(&self) -> u32
        ensures { result ≡ (read_interaction self.now.words.now).bus }
    {
        self.words[0]
    }

    // The count's weight.
    #[tactic(auto, unfolding(semantics::specs::Check::read_interaction))]
    pub fn weight(&self) -> u32
        ensures { result ≡ (read_interaction self.now.words.now).weight }
    {
        self.words[1]
    }

    // The record of the count.
    #[tactic(auto, unfolding(semantics::specs::Check::read_interaction))]
    pub fn count(&self) -> u32
        ensures { result ≡ (read_interaction self.now.words.now).count }
    {
        self.words[2]
    }

    // How many fields the message has.
    pub fn message_length(&self) -> usize
        ensures { result ≡ length (read_interaction self.now.words.now).message }
    {
        self.words[3] as usize
    }

    // The records of the message's fields.
    pub fn fields(&self) -> &'a [u32]
        ensures { result.now ≡ (read_interaction self.now.words.now).message }
    {
        &self.words[4..]
    }

    // Writes the four words in front of its fields, with another count, and hands back where the fields go.
    pub fn write_front(&self, count: u32, out: &mut [u32], to: usize) -> usize
        requires { to + 4 ≤ length out.old }
        ensures { Puts out.old to (front_words (read_interaction self.now.words.now) count) out.new result }
    {
        out[to] = self.bus();
        out[to + 1] = self.weight();
        out[to + 2] = count;
        out[to + 3] = self.words[3];
        to + 4
    }

    // The records that a part of it names.
    pub fn part(&self, part: Part) -> &'a [u32]
        ensures { result.now ≡ part_of part (read_interaction self.now.words.now) }
    {
        match part {
            Part::Count => &self.words[2..3],
            Part::Fields => self.fields(),
        }
    }
}

// Interactions that are left, one behind the other in front of the words.
#[derive(Drop)]
pub struct Interactions<'a> {
    words: &'a [u32],
    count: usize,
}

impl<'a> Model for Interactions<'a> {
    ghost use Rattle.std.specs.Prelude.{List};
    ghost use Rattle.semantics.specs.Sheet.{Interaction};
    ghost use Rattle.semantics.specs.Check.{read_interactions};
    ghost use Rattle.records.specs.Access.{InteractionsStand};

    ghost Value = { List Interaction };

    ghost view = { λ s. read_interactions s.count s.words.now };

    ghost invariant = { λ s. InteractionsStand s.count s.words.now };
}

impl<'a> Interactions<'a> {
    // So many of those that stand in front of the words.
    pub fn new(words: &'a [u32], count: usize) -> Interactions<'a>
        requires { InteractionsStand count words.now }
        ensures { result ≡ read_interactions count words.now }
    {
        Interactions { words, count }
    }
}

impl<'a> CheckedSheet<'a> {
    // The interactions.
    pub fn interactions(self) -> Interactions<'a>
        ensures { result ≡ (read_sheet self.entry.words.now).interactions }
    {
        Interactions::new(
            &self.words[self.interactions_at()..],
            self.num_interactions(),
        )
    }
}

impl<'a> Iterator for Interactions<'a> {
    type Item = Interaction<'a>;

    ghost next_gives = { λ s r t. MatchOption r ((s ≡ []) × (t ≡ [])) (λ x. s ≡ read_interaction x.words.now ∷ t) };

    ghost remaining = { item_count (λ s. s) };

    fn next(&mut self) -> Option<Interaction<'a>> {
        if self.count == 0 {
            return None;
        }
        let x = interaction_at(self.words, 0);
        self.words = &self.words[x.word_count()..];
        self.count -= 1;
        Some(x)
    }
}
