// The list that is made of a record, in the words of the work: sixteen for each monomial.
ghost use Rattle.std.specs.Prelude.{◌≡◌, [], ◌∷◌, ◌++◌, map, ◌+◌, ◌*◌, ◌≤◌, ◌<◌, length, get_or, take, drop};
ghost use Rattle.semantics.specs.Arithmetic.{prime};
ghost use Rattle.semantics.specs.Monomial.{Asc, above, keep, plus, neg_monomial, mul_monomial, products, insert_monomial};
ghost use Rattle.semantics.specs.Expand.{list_size};
ghost use Rattle.semantics.specs.Lists.{Sorted};
ghost use Rattle.monomial.specs.Words.{monomial_of, list_words, longest_of, insert_all, Fits, FitsList};
ghost use Rattle.monomial.specs.Places.{one, vars_at, Stands};
ghost use Rattle.monomial.specs.Signs.{signed};

use crate::reading::Monomials;
use crate::{Monomial, Sign, lists, vars};
use slices::shift;
use std::cmp::Ordering;
use std::marker::Model;

// While monomials are summed the list ascends.
#[derive(Drop)]
pub struct WorkList<'a> {
    work: &'a mut [u32],
    count: usize,
}

impl<'a> Model for WorkList<'a> {
    ghost use Rattle.std.specs.Prelude.{List, ◌≤◌, length};
    ghost use Rattle.semantics.specs.Monomial.{Monomial};
    ghost use Rattle.semantics.specs.Lists.{All};
    ghost use Rattle.monomial.specs.Words.{held, Fits};

    ghost Value = { List Monomial };

    ghost view = { λ s. held s.count s.work.now };

    ghost invariant = { λ s. (s.count ≤ 256) × (4096 ≤ length s.work.now) × All Fits (held s.count s.work.now) };
}

impl<'a> WorkList<'a> {
    // A list with no monomial.
    pub fn new(work: &'a mut [u32]) -> Self
        requires { 4096 ≤ length work.old }
        ensures { result ≡ [] }
    {
        WorkList {
            work: &mut work[..4096],
            count: 0,
        }
    }

    // How many monomials it has.
    pub fn len(&self) -> usize
        ensures { (result ≡ length self.now) × FitsList self.now }
    {
        self.count
    }

    // The variables of monomial k.
    #[tactic(auto, using(crate::proofs::Rows::held_length))]
    fn vars_of(&self, k: usize) -> &[u32]
        requires { k < length self.now }
        ensures { (result.now ≡ vars_at self.now k) × (length result.now ≤ 14) }
    {
        lists::row_vars(self.work, k)
    }

    // Its coefficient.
    #[tactic(auto, using(crate::proofs::Rows::held_length))]
    fn coef_of(&self, k: usize) -> u32
        requires { k < length self.now }
        ensures { result ≡ (get_or self.now k one).coef }
    {
        let work = &*self.work;
        work[16 * k + 1]
    }

    // Puts m in front of monomial k.
    #[tactic(auto, using(crate::proofs::Rows::held_length))]
    #[inline(always)]
    fn put_at(&mut self, k: usize, m: &Monomial)
        requires { (k ≤ length self.old) × (length self.old < 256) × Fits (monomial_of m.now) }
        ensures { self.new ≡ take k self.old ++ monomial_of m.now ∷ drop k self.old }
    {
        shift::shift_up(self.work, 16 * k, 16 * self.count, 16);
        lists::put_row(self.work, k, m);
        self.count += 1;
    }

    // Puts m behind all, as it stands.
    #[tactic(auto, using(crate::proofs::Rows::held_length))]
    pub fn put(&mut self, m: &Monomial)
        requires { (length self.old < 256) × Fits (monomial_of m.now) }
        ensures { self.new ≡ self.old ++ monomial_of m.now ∷ [] }
    {
        let k = self.count;
        lists::put_monomial(self.work, k, m);
        self.count = k + 1;
    }

    // Searches for the variables of m: where they stand, or where they are to be put.
    fn find(&self, m: &Monomial) -> Result<usize, usize>
        requires { Asc self.now }
        ensures { Stands (monomial_of m.now) self.now result }
    {
        let numbers = vars::numbers(m.vars);
        let mine = &numbers[..m.len()];
        let mut low = 0;
        let mut high = self.count;
        while low < high {
            let k = (low + high) / 2;
            match vars::compare(mine, self.vars_of(k)) {
                Ordering::Equal => return Ok(k),
                Ordering::Greater => low = k + 1,
                Ordering::Less => high = k,
            }
        }
        Err(low)
    }

    // Sums m into monomial k, and takes that out where the sum is 0.
    #[tactic(auto, using(crate::proofs::Rows::held_length))]
    fn sum_at(&mut self, k: usize, m: &Monomial)
        requires { (k < length self.old) × Fits (monomial_of m.now) }
        ensures { self.new
            ≡ take k self.old ++ keep (plus prime (monomial_of m.now) (get_or self.old k one)) (drop (k + 1) self.old) }
    {
        let end = 16 * self.count;
        let sum = field::add(m.coef, self.coef_of(k));
        if sum == 0 {
            shift::shift_down(self.work, 16 * k, end, 16);
            self.count -= 1;
        } else {
            self.work[16 * k + 1] = sum;
        }
    }

    // Sums a monomial into the list.
    #[inline(always)]
    pub fn sum(&mut self, m: &Monomial)
        requires { (length self.old < 256) × Asc self.old × Fits (monomial_of m.now) }
        ensures { self.new ≡ insert_monomial prime (monomial_of m.now) self.old }
    {
        match self.find(m) {
            Ok(k) => self.sum_at(k, m),
            Err(k) if m.coef != 0 => self.put_at(k, m),
            Err(_) => {}
        }
    }

    // Puts the negatives of a list behind all, as they stand.
    pub fn put_negatives(&mut self, list: Monomials)
        requires { length self.old + length list ≤ 256 }
        ensures { self.new ≡ self.old ++ map (neg_monomial prime) list.entry }
    {
        for m in list {
            self.put(&m.negative());
        }
    }

    // Sums a list with a sign.
    pub fn sum_all(&mut self, list: Monomials, sign: Sign)
        requires { (length self.old + length list ≤ 256) × Asc self.old }
        ensures { self.new ≡ insert_all (signed sign list.entry) self.old }
    {
        for m in list {
            self.sum(&sign.apply(m));
        }
    }

    // Sums the products of a monomial and each of a list.
    fn sum_row(&mut self, left: &Monomial, list: Monomials)
        requires { (length self.old + length list ≤ 256) × Asc self.old × Sorted above (monomial_of left.now).vars
            × (length (monomial_of left.now).vars + longest_of list ≤ 14) }
        ensures { self.new ≡ insert_all (map (mul_monomial prime (monomial_of left.now)) list.entry) self.old }
    {
        for right in list {
            self.sum(&left.multiply(&right));
        }
    }

    // Sums every product of a left and a right monomial.
    pub fn sum_products(&mut self, left: Monomials, right: Monomials)
        requires { (length self.old + length left * length right ≤ 256) × Asc self.old
            × (longest_of left + longest_of right ≤ 14) }
        ensures { self.new ≡ insert_all (products prime left.entry right.entry) self.old }
    {
        for l in left {
            self.sum_row(&l, right.again());
        }
    }

    // How many words it takes in the pool.
    pub fn list_size(&self) -> usize
        ensures { (result ≡ list_size self.now) × FitsList self.now }
    {
        lists::list_size(self.work, self.count)
    }

    // Writes it to the front of what is lent.
    pub fn write_to(&self, out: &mut [u32])
        requires { list_size self.now ≤ length out.old }
        ensures { out.new ≡ list_words self.now ++ drop (list_size self.now) out.old }
    {
        lists::write_list(self.work, self.count, out)
    }
}
