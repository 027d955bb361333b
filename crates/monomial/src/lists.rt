// Lists in the words of the work, sixteen for each monomial: put there, measured, and written to the pool.
ghost use Rattle.std.specs.Prelude.{◌≡◌, [], ◌∷◌, ◌++◌, ◌+◌, ◌*◌, ◌≤◌, min, length, get_or, take, drop};
ghost use Rattle.semantics.specs.Expand.{list_size};
ghost use Rattle.semantics.specs.Lists.{All};
ghost use Rattle.monomial.specs.Words.{monomial_of, nums, held, list_words, Fits};

use crate::{Monomial, vars};

// The variables of row k: no more than its fourteen places.
#[inline(always)]
pub(crate) fn row_vars(work: &[u32], k: usize) -> &[u32]
    requires { 16 * k + 16 ≤ length work.now }
    ensures { (result.now ≡ take (min (get_or work.now (16 * k) 0) 14) (drop (16 * k + 2) work.now)) × (length result.now ≤ 14) }
{
    let at = 16 * k + 2;
    let count = (work[16 * k] as usize).min(14);
    &work[at..at + count]
}

// Writes the sixteen words of row k: how many variables there are, the coefficient, and fourteen places.
pub(crate) fn put_row(work: &mut [u32], k: usize, m: &Monomial)
    requires { 16 * k + 16 ≤ length work.old }
    ensures { work.new ≡ take (16 * k) work.old
        ++ ((length (monomial_of m.now).vars ∷ m.now.coef ∷ nums m.now.vars) ++ drop (16 * k + 16) work.old) }
{
    let at = 16 * k;
    work[at] = m.len() as u32;
    work[at + 1] = m.coef;
    work[at + 2..at + 16].copy_from_slice(&vars::numbers(m.vars));
}

// A monomial goes behind the first k of the work.
pub fn put_monomial(work: &mut [u32], k: usize, m: &Monomial)
    requires { 16 * k + 16 ≤ length work.old }
    ensures { held (k + 1) work.new ≡ held k work.old ++ (monomial_of m.now ∷ []) }
{
    put_row(work, k, m)
}

// How many words the first `count` monomials of the work take in the pool.
pub fn list_size(work: &[u32], count: usize) -> usize
    requires { (count ≤ 256) × (16 * count ≤ length work.now) × All Fits (held count work.now) }
    ensures { result ≡ list_size (held count work.now) }
{
    let mut total = 0;
    for k in 0..count {
        total += 2 + row_vars(work, k).len();
    }
    total
}

// Writes the words of a monomial to a place.
fn write_monomial(coef: u32, vars: &[u32], out: &mut [u32], at: usize)
    requires { (length vars.now ≤ 14) × (at + 2 + length vars.now ≤ length out.old) }
    ensures { out.new
        ≡ take at out.old ++ ((length vars.now ∷ coef ∷ vars.now) ++ drop (at + 2 + length vars.now) out.old) }
{
    let n = vars.len();
    out[at] = n as u32;
    out[at + 1] = coef;
    slices::copy_front(vars, &mut out[at + 2..at + 2 + n]);
}

// Writes the first `count` monomials of the work to the front of what is lent.
pub fn write_list(work: &[u32], count: usize, out: &mut [u32])
    requires { (count ≤ 256) × (16 * count ≤ length work.now) × All Fits (held count work.now)
        × (list_size (held count work.now) ≤ length out.old) }
    ensures { out.new
        ≡ list_words (held count work.now) ++ drop (list_size (held count work.now)) out.old }
{
    let mut at = 0;
    for k in 0..count {
        let vars = row_vars(work, k);
        write_monomial(work[16 * k + 1], vars, out, at);
        at += 2 + vars.len();
    }
}
