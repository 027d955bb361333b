// Totals over the rows of the headers.
ghost use Rattle.std.specs.Prelude.{◌≡◌, ◌+◌, ◌*◌, ◌≤◌, ◌<◌, length, drop};
ghost use Rattle.slices.specs.Rows.{rows};
ghost use Rattle.group.specs.Grouped.{column, sum, totalled};
ghost use Rattle.group.specs.Groups.{Cursors};

use crate::Groups;
use header_offsets::words;

// The words of a row that hold how many variables and how many terms it has.
pub const VARIABLES: usize = 2;

pub const TERMS: usize = 3;

impl<'a> Groups<'a> {
    // The total of one word over the rows.
    pub fn column_total(&self, word: usize) -> usize
        requires { (word < 4) × (self.now.n ≤ 4294967295) }
        ensures { result ≡ sum (column word self.now.n self.now.headers.now) }
    {
        column_total(self.headers, self.n, word)
    }

    // The cursor of each row is set to where its first term goes.
    pub fn start_terms(&mut self)
        requires { sum (column 3 self.old.n self.old.headers.now) ≤ 4294967295 }
        ensures { Cursors self.old self.new }
    {
        start_terms(self.headers, self.n);
    }
}

// The total of one word over the n rows.
fn column_total(headers: &[u32], n: usize, word: usize) -> usize
    requires { (word < 4) × (4 * n ≤ length headers.now) × (n ≤ 4294967295) }
    ensures { result ≡ sum (column word n headers.now) }
{
    let mut total: usize = 0;
    for i in 0..n {
        total += headers[4 * i + word] as usize;
    }
    total
}

// How many variables the rows have in all.
pub fn total_variables(headers: &[u32], n: usize) -> usize
    requires { (4 * n ≤ length headers.now) × (n ≤ 4294967295) }
    ensures { result ≡ sum (column 2 n headers.now) }
{
    column_total(headers, n, VARIABLES)
}

// How many terms the rows have in all.
pub fn total_terms(headers: &[u32], n: usize) -> usize
    requires { (4 * n ≤ length headers.now) × (n ≤ 4294967295) }
    ensures { result ≡ sum (column 3 n headers.now) }
{
    column_total(headers, n, TERMS)
}

// The cursor of each row is set to where its first term goes: the total of the terms before it.
pub fn start_terms(headers: &mut [u32], n: usize)
    requires { (4 * n ≤ length headers.old) × (sum (column 3 n headers.old) ≤ 4294967295) }
    ensures { (rows 4 n headers.new ≡ totalled 1 3 0 (rows 4 n headers.old))
        × (drop (4 * n) headers.new ≡ drop (4 * n) headers.old) }
{
    let mut total: u32 = 0;
    for i in 0..n {
        let row = 4 * i;
        let terms = headers[row + 3];
        headers[row + 1] = total;
        total += terms;
    }
}

// Both offsets of each row are set to the totals over the rows before it, in one pass over headers.
pub fn fill_offsets(headers: &mut [u32], n: usize)
    requires { (4 * n ≤ length headers.old) × (sum (column 2 n headers.old) ≤ 4294967295) × (sum (column 3 n headers.old) ≤ 4294967295) }
    ensures { (rows 4 n headers.new ≡ totalled 1 3 0 (totalled 0 2 0 (rows 4 n headers.old)))
        × (drop (4 * n) headers.new ≡ drop (4 * n) headers.old) }
{
    words::fill_words(headers, n)
}
