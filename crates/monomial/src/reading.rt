// A list of monomials that stands in the words of the pool, read from the first to the last.
ghost use Rattle.std.specs.Prelude.{◌≡◌, List, [], ◌∷◌, ◌+◌, ◌*◌, ◌≤◌, MatchOption, length, drop};
ghost use Rattle.std.specs.Iterator.{item_count};
ghost use Rattle.semantics.specs.Monomial as semantics;
ghost use Rattle.semantics.specs.Lists.{All};
ghost use Rattle.monomial.specs.Words.{monomial_of, read_monomial, list_in, longest_of, Fits, ListFits, Stored};

use crate::Monomial;
use packed_var::PackedVar;
use std::marker::Model;

// How many variables of the monomial that stands at `at` are inside the words.
fn vars_in(words: &[u32], at: usize) -> usize
    requires { at + 2 ≤ length words.now }
    ensures { result ≡ length (read_monomial (drop at words.now)).vars }
{
    (words[at] as usize).min(words.len() - (at + 2))
}

// The monomial that stands at `at`; the words may end within its variables.
fn monomial_in(words: &[u32], at: usize) -> Monomial
    requires { (at + 2 ≤ length words.now) × (length (read_monomial (drop at words.now)).vars ≤ 14) }
    ensures { (monomial_of result ≡ read_monomial (drop at words.now))
        × (result.count ≡ length (read_monomial (drop at words.now)).vars) }
{
    let count = vars_in(words, at);
    let mut vars = [PackedVar(0); 14];
    for (i, word) in words[at + 2..at + 2 + count].iter().enumerate() {
        vars[i] = PackedVar(*word);
    }
    Monomial {
        vars,
        count,
        coef: words[at + 1],
    }
}

// The monomials of a list that are left.
#[derive(Drop)]
pub struct Monomials<'a> {
    words: &'a [u32],
    at: usize,
    count: usize,
}

impl<'a> Model for Monomials<'a> {
    ghost use Rattle.std.specs.Prelude.{List};
    ghost use Rattle.semantics.specs.Monomial.{Monomial};
    ghost use Rattle.monomial.specs.Words.{list_in, ListFits};

    ghost Value = { List Monomial };

    ghost view = { λ s. list_in s.words.now s.at s.count };

    ghost invariant = { λ s. ListFits s.words.now s.at s.count };
}

impl<'a> Monomials<'a> {
    // The `count` monomials that stand in the words from `at` on.
    pub fn new(words: &'a [u32], at: usize, count: usize) -> Self
        requires { ListFits words.now at count }
        ensures { result ≡ list_in words.now at count }
    {
        Monomials { words, at, count }
    }

    // The list of record r: its two words in the pool say where the list stands and how many monomials it has.
    pub fn of_record(pool: &'a [u32], r: u32) -> Self
        requires { (l : List semantics.Monomial) × Stored pool.now r l }
        ensures { (l : List semantics.Monomial) → Stored pool.now r l → result ≡ l }
    {
        let at = 2 * r as usize;
        Monomials::new(pool, pool[at] as usize, pool[at + 1] as usize)
    }

    // The same list, to be read once more.
    pub fn again(&self) -> Self
        ensures { result ≡ self.now }
    {
        Monomials {
            words: self.words,
            at: self.at,
            count: self.count,
        }
    }

    // How many monomials are left.
    pub fn len(&self) -> usize
        ensures { (result ≡ length self.now) × (2 * result ≤ 18446744073709551615) × All Fits self.now }
    {
        self.count
    }

    // The most variables that one of them has.
    pub fn longest(&self) -> usize
        ensures { result ≡ longest_of self.now }
    {
        let mut most: usize = 0;
        let mut at = self.at;
        for _ in 0..self.count {
            let count = vars_in(self.words, at);
            most = most.max(count);
            at += 2 + count;
        }
        most
    }
}

impl<'a> Iterator for Monomials<'a> {
    type Item = Monomial;

    ghost next_gives = { λ s r t. MatchOption r ((s ≡ []) × (t ≡ [])) (λ m. (s ≡ monomial_of m ∷ t) × Fits (monomial_of m)) };

    ghost remaining = { item_count (λ s. s) };

    fn next(&mut self) -> Option<Monomial> {
        if self.count == 0 {
            return None;
        }
        let m = monomial_in(self.words, self.at);
        self.at += 2 + m.count;
        self.count -= 1;
        Some(m)
    }
}
