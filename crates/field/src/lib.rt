// Values modulo the prime 2013265921, each kept below it; any word is taken.
#![tactic(auto)]

ghost use Rattle.std.specs.Prelude.{◌≡◌};
ghost use Rattle.semantics.specs.Arithmetic.{prime, add_m, sub_m, mul_m, neg_m, signed_of, SignedRange};

mod modular;

pub fn add(a: u32, b: u32) -> u32
    ensures { result ≡ add_m prime a b }
{
    modular::BABY_BEAR.add(a, b)
}

pub fn sub(a: u32, b: u32) -> u32
    ensures { result ≡ sub_m prime a b }
{
    modular::BABY_BEAR.sub(a, b)
}

pub fn neg(a: u32) -> u32
    ensures { result ≡ neg_m prime a }
{
    modular::BABY_BEAR.neg(a)
}

pub fn mul(a: u32, b: u32) -> u32
    ensures { result ≡ mul_m prime a b }
{
    modular::BABY_BEAR_PRODUCTS.mul(a, b)
}

pub fn signed(a: u32) -> i64
    ensures { (result ≡ signed_of prime a) × SignedRange prime result }
{
    modular::BABY_BEAR.signed(a)
}
