// The variables of monomials: fourteen places by value.
ghost use Rattle.std.specs.Prelude.{◌≡◌, ◌++◌, ◌+◌, ◌≤◌, length, take};
ghost use Rattle.std.specs.Cmp.Lexicographic.{slice_cmp};
ghost use Rattle.std.specs.Ordering.{nat_cmp};
ghost use Rattle.semantics.specs.Monomial.{sort, above};
ghost use Rattle.semantics.specs.Lists.{Sorted};
ghost use Rattle.monomial.specs.Words.{nums};
ghost use Rattle.monomial.specs.Orders.{order_of};

use packed_var::PackedVar;
use std::cmp::Ordering;

// How two lists of equal length compare, variable by variable. The library's comparison of slices is called for each search; this is not.
#[inline(always)]
fn compare_each(left: &[u32], right: &[u32]) -> Ordering
    requires { length left.now ≡ length right.now }
    ensures { result ≡ slice_cmp nat_cmp left.now right.now }
{
    for i in 0..left.len() {
        if left[i] != right[i] {
            return left[i].cmp(&right[i]);
        }
    }
    Ordering::Equal
}

// How two lists of variables compare: by length, then variable by variable.
#[inline(always)]
pub fn compare(left: &[u32], right: &[u32]) -> Ordering
    ensures { result ≡ order_of left.now right.now }
{
    match left.len().cmp(&right.len()) {
        Ordering::Equal => compare_each(left, right),
        unequal => unequal,
    }
}

// The numbers of variables in hand.
pub fn numbers(vars: [PackedVar; 14]) -> [u32; 14]
    ensures { result ≡ nums vars }
{
    let mut numbers = [0; 14];
    for (i, v) in vars.iter().enumerate() {
        numbers[i] = v.0;
    }
    numbers
}

// The sorted variables of two monomials, sorted together.
pub fn merge_vars(a: [PackedVar; 14], n: usize, b: [PackedVar; 14], m: usize) -> [PackedVar; 14]
    requires { (n + m ≤ 14) × Sorted above (take n (nums a)) × Sorted above (take m (nums b)) }
    ensures { take (n + m) (nums result) ≡ sort above (take n (nums a) ++ take m (nums b)) }
{
    let mut r = [PackedVar(0); 14];
    let mut i = 0;
    for k in 0..n + m {
        let j = k - i;
        if j < m && (n <= i || b[j] < a[i]) {
            r[k] = b[j];
        } else {
            r[k] = a[i];
            i += 1;
        }
    }
    r
}
