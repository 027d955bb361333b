// Numbers that a program reads: digits, then one byte that ends them. A number takes at most so many bytes, and none is refused.
#![tactic(auto)]

ghost use Rattle.std.specs.Prelude.{◌≡◌, ℕ, ◌%◌, ◌^◌, Some, IfOk, OnOk, IfSome, drop, slice_index};
ghost use Rattle.number_input.specs.Numbers.{with_digit, front_number, behind_number};

use std::io;
use std::io::Read;

// The next byte, 0 at the end of the input.
fn next_byte<R: Read>(input: &mut R) -> io::Result<u8>
    ensures byte { IfOk result (λ b. IfSome (R.remaining input.old) (λ bytes. b ≡ slice_index bytes 0)) }
    ensures rest { OnOk result (IfSome (R.remaining input.old) (λ bytes. R.remaining input.new ≡ Some (drop 1 bytes))) }
{
    let mut byte = [0u8; 1];
    if input.read(&mut byte)? == 0 {
        return Ok(0);
    }
    Ok(byte[0])
}

// How the numbers of a type are read.
trait Number {
    ghost BYTES: { ℕ };

    // The most bytes of a number.
    const BYTES: usize;

    ghost CUT: { ℕ };

    // The value with one more digit: the remainder by CUT comes first, so that what follows stays small.
    fn with_digit(value: u64, byte: u8) -> u64
        ensures { result ≡ with_digit CUT value byte };
}

impl Number for u32 {
    ghost BYTES = { 11 };

    const BYTES: usize = 11;

    ghost CUT = { 429496730 };

    fn with_digit(value: u64, byte: u8) -> u64 {
        (value % 429496730 * 10).wrapping_add(u64::from(byte % 16))
    }
}

impl Number for usize {
    ghost BYTES = { 21 };

    const BYTES: usize = 21;

    ghost CUT = { 1844674407370955162 };

    fn with_digit(value: u64, byte: u8) -> u64 {
        (value % 1844674407370955162 * 10).wrapping_add(u64::from(byte % 16))
    }
}

// The next number, as those of the type are read.
fn next_number<N: Number, R: Read>(input: &mut R) -> io::Result<u64>
    ensures number { IfOk result (λ n. IfSome (R.remaining input.old) (λ bytes. n ≡ front_number N.BYTES N.CUT bytes)) }
    ensures rest { OnOk result (IfSome (R.remaining input.old) (λ bytes. R.remaining input.new ≡ Some (behind_number N.BYTES bytes))) }
{
    let mut value = 0;
    for _ in 0..N::BYTES {
        let byte = next_byte(input)?;
        if byte < 48 {
            return Ok(value);
        }
        value = N::with_digit(value, byte);
    }
    Ok(value)
}

// The next number, of at most 11 bytes: its remainder by 2^32.
pub fn next_u32<R: Read>(input: &mut R) -> io::Result<u32>
    ensures number { IfOk result (λ n. IfSome (R.remaining input.old) (λ bytes. n ≡ front_number 11 429496730 bytes % 2 ^ 32)) }
    ensures rest { OnOk result (IfSome (R.remaining input.old) (λ bytes. R.remaining input.new ≡ Some (behind_number 11 bytes))) }
{
    Ok((next_number::<u32, R>(input)? % 4294967296) as u32)
}

// The next number, of at most 21 bytes.
pub fn next_usize<R: Read>(input: &mut R) -> io::Result<usize>
    ensures number { IfOk result (λ n. IfSome (R.remaining input.old) (λ bytes. n ≡ front_number 21 1844674407370955162 bytes)) }
    ensures rest { OnOk result (IfSome (R.remaining input.old) (λ bytes. R.remaining input.new ≡ Some (behind_number 21 bytes))) }
{
    Ok(next_number::<usize, R>(input)? as usize)
}
