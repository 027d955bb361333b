// Arithmetic modulo p, of any words. Nothing here divides but by a power of 2, and there is no loop.
ghost use Rattle.std.specs.Prelude.{◌≡◌, ◌*◌, ◌%◌, ◌<◌};
ghost use Rattle.semantics.specs.Arithmetic.{add_m, sub_m, mul_m, neg_m, signed_of, SignedRange};
ghost use Rattle.field.specs.Modulus.{Modulus, Reciprocal};

// The residues modulo p: words are taken as values below p.
#[derive(Clone, Copy, Debug, PartialEq, Eq)]
pub struct Residues {
    p: u32,
    ghost modulus: { Modulus p },
}

// A modulus p and m, which is 2^63 / p rounded down: Barrett's reduction has them in place of a division.
#[derive(Clone, Copy, Debug, PartialEq, Eq)]
pub struct Barrett {
    residues: Residues,
    m: u64,
    ghost reciprocal: { Reciprocal residues.p m },
}

pub const BABY_BEAR: Residues = Residues { p: 2013265921 };

pub const BABY_BEAR_PRODUCTS: Barrett = Barrett {
    residues: BABY_BEAR,
    m: 4581298446,
};

impl Residues {
    // A word as a value; a word is below 3p.
    pub fn reduced(self, x: u32) -> u32
        ensures { result ≡ x % self.p }
    {
        if x < self.p {
            return x;
        }
        let less = x - self.p;
        if less < self.p { less } else { less - self.p }
    }

    pub fn add(self, a: u32, b: u32) -> u32
        ensures { result ≡ add_m self.p a b }
    {
        let sum = self.reduced(a) + self.reduced(b);
        if sum < self.p { sum } else { sum - self.p }
    }

    pub fn sub(self, a: u32, b: u32) -> u32
        ensures { result ≡ sub_m self.p a b }
    {
        let left = self.reduced(a);
        let right = self.reduced(b);
        if right <= left {
            left - right
        } else {
            left + (self.p - right)
        }
    }

    pub fn neg(self, a: u32) -> u32
        ensures { result ≡ neg_m self.p a }
    {
        let less = self.reduced(a);
        if less == 0 { 0 } else { self.p - less }
    }

    // A value up to half of p is itself, and above that less p.
    pub fn signed(self, a: u32) -> i64
        ensures { (result ≡ signed_of self.p a) × SignedRange self.p result }
    {
        let value = self.reduced(a);
        if value <= self.p / 2 {
            value as i64
        } else {
            value as i64 - self.p as i64
        }
    }
}

impl Barrett {
    // The remainder of x by p; x / 2^30 * m / 2^33 is the quotient or one less.
    fn remainder(self, x: u64) -> u32
        requires { x < self.residues.p * self.residues.p }
        ensures { result ≡ x % self.residues.p }
    {
        let modulus = self.residues.p as u64;
        let quotient = x / 1073741824 * self.m / 8589934592;
        let rest = x - quotient * modulus;
        if rest < modulus {
            rest as u32
        } else {
            (rest - modulus) as u32
        }
    }

    pub fn mul(self, a: u32, b: u32) -> u32
        ensures { result ≡ mul_m self.residues.p a b }
    {
        let product = self.residues.reduced(a) as u64 * self.residues.reduced(b) as u64;
        self.remainder(product)
    }
}
