// The list of a record, made in the work from its children's lists, by the record's kind.
ghost use Rattle.std.specs.Prelude.{◌≡◌, [], ◌∷◌, ◌++◌, map, ℕ, ◌≤◌, ◌<◌, length};
ghost use Rattle.semantics.specs.Arithmetic.{prime};
ghost use Rattle.semantics.specs.Sheet.{GoodRecord};
ghost use Rattle.semantics.specs.Packing.{packed, pack_fault};
ghost use Rattle.semantics.specs.Monomial.{neg_monomial, products};
ghost use Rattle.records.specs.Access.{five_words};
ghost use Rattle.monomial.specs.Words.{constant, single};
ghost use Rattle.monomial.specs.Signs.{signed};
ghost use Rattle.expand.specs.Making.{Makes, MakesCombined};

use answers::Reason;
use monomial::reading::Monomials;
use monomial::work_list::WorkList;
use monomial::{Monomial, Sign};
use records::Record;

// A variable or row mark: one monomial.
pub fn expand_leaf<'a>(work: &'a mut [u32], q: Record) -> Result<WorkList<'a>, Reason>
    requires { (4096 ≤ length work.old) × (q.kind ≤ 4) × ((own : ℕ) × GoodRecord prime own (five_words q)) }
    ensures { Makes result (pack_fault (five_words q)) (single (packed (five_words q)) ∷ []) }
{
    let packed = packing::pack(q);
    let Ok(v) = packed else {
        return Err(packed.unwrap_err().reason);
    };
    let mut list = WorkList::new(work);
    list.put(&Monomial::single(v));
    Ok(list)
}

// A constant: one monomial, of 0 too.
pub fn expand_constant<'a>(work: &'a mut [u32], value: u32) -> WorkList<'a>
    requires { (4096 ≤ length work.old) × (value < prime) }
    ensures { result ≡ constant value ∷ [] }
{
    let mut list = WorkList::new(work);
    list.put(&Monomial::constant(value));
    list
}

// Neg: the child's list negated.
pub fn expand_neg<'a>(work: &'a mut [u32], x: Monomials) -> WorkList<'a>
    requires { (4096 ≤ length work.old) × (length x ≤ 256) }
    ensures { result ≡ map (neg_monomial prime) x.entry }
{
    let mut list = WorkList::new(work);
    list.put_negatives(x);
    list
}

// Add and Sub: both children's lists summed, the right one with a sign.
pub fn expand_sum<'a>(
    work: &'a mut [u32],
    l: Monomials,
    r: Monomials,
    sign: Sign,
) -> Result<WorkList<'a>, Reason>
    requires { 4096 ≤ length work.old }
    ensures { MakesCombined result (l.entry ++ signed sign r.entry) }
{
    if 256 < l.len() + r.len() {
        return Err(Reason::ListTooLong);
    }
    let mut list = WorkList::new(work);
    list.sum_all(l, Sign::Plus);
    list.sum_all(r, sign);
    Ok(list)
}

// Mul: every left monomial times every right one, summed.
pub fn expand_product<'a>(
    work: &'a mut [u32],
    l: Monomials,
    r: Monomials,
) -> Result<WorkList<'a>, Reason>
    requires { (4096 ≤ length work.old) × (length l ≤ 256) × (length r ≤ 256) }
    ensures { MakesCombined result (products prime l.entry r.entry) }
{
    if 256 < l.len() * r.len() {
        return Err(Reason::ListTooLong);
    }
    if 14 < l.longest() + r.longest() {
        return Err(Reason::ProductTooLong);
    }
    let mut list = WorkList::new(work);
    list.sum_products(l, r);
    Ok(list)
}
