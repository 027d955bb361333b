// Monomials: products of packed variables with a coefficient, and their lists.
#![tactic(auto)]

ghost use Rattle.std.specs.Prelude.{◌≡◌, ◌+◌, ◌≤◌, length};
ghost use Rattle.semantics.specs.Arithmetic.{prime};
ghost use Rattle.semantics.specs.Monomial.{above, mul_monomial, neg_monomial};
ghost use Rattle.semantics.specs.Lists.{Sorted};
ghost use Rattle.monomial.specs.Words.{monomial_of, constant, single};
ghost use Rattle.monomial.specs.Signs.{with_sign};

use packed_var::PackedVar;

pub mod lists;
pub mod reading;
pub mod vars;
pub mod work_list;

// A monomial by value: fourteen places for variables, of which the first `count` are used.
#[derive(Clone, Copy)]
pub struct Monomial {
    pub vars: [PackedVar; 14],
    pub count: usize,
    pub coef: u32,
}

impl Monomial {
    pub fn constant(value: u32) -> Self
        ensures { (monomial_of result ≡ constant value) × (result.count ≡ 0) }
    {
        Monomial {
            vars: [PackedVar(0); 14],
            count: 0,
            coef: value,
        }
    }

    // A variable or row mark.
    pub fn single(v: PackedVar) -> Self
        ensures { (monomial_of result ≡ single v.0) × (result.count ≡ 1) }
    {
        let mut vars = [PackedVar(0); 14];
        vars[0] = v;
        Monomial {
            vars,
            count: 1,
            coef: 1,
        }
    }

    // How many variables it has.
    pub fn len(&self) -> usize
        ensures { (result ≡ length (monomial_of self.now).vars) × (result ≤ 14) }
    {
        self.count.min(14)
    }

    // The product of two monomials: their sorted variables are merged.
    pub fn multiply(&self, other: &Self) -> Self
        requires { (length (monomial_of self.now).vars + length (monomial_of other.now).vars ≤ 14)
            × Sorted above (monomial_of self.now).vars × Sorted above (monomial_of other.now).vars }
        ensures { (monomial_of result ≡ mul_monomial prime (monomial_of self.now) (monomial_of other.now))
            × (result.count ≡ length (monomial_of self.now).vars + length (monomial_of other.now).vars) }
    {
        let n = self.len();
        let m = other.len();
        Monomial {
            vars: vars::merge_vars(self.vars, n, other.vars, m),
            count: n + m,
            coef: field::mul(self.coef, other.coef),
        }
    }

    pub fn negative(self) -> Self
        ensures { (monomial_of result ≡ neg_monomial prime (monomial_of self)) × (result.count ≡ self.count) }
    {
        Monomial {
            coef: field::neg(self.coef),
            ..self
        }
    }
}

// The sign with which a list is summed.
#[derive(Clone, Copy, Debug, PartialEq, Eq)]
pub enum Sign {
    Plus,
    Minus,
}

impl Sign {
    fn apply(self, m: Monomial) -> Monomial
        ensures { monomial_of result ≡ with_sign self (monomial_of m) }
    {
        match self {
            Sign::Plus => m,
            Sign::Minus => m.negative(),
        }
    }
}
