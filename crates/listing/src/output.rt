// A slice of bytes that is written from its front on: bytes, texts, and numbers as text.
ghost use Rattle.std.specs.Prelude.{◌≡◌, [], ◌∷◌, ◌<◌};
ghost use Rattle.semantics.specs.Arithmetic.{prime};
ghost use Rattle.semantics.specs.Sheetlist.{digits, decimal, hex_digit, hex_digits, signed};
ghost use Rattle.listing.specs.Putting.{Room, Writes, spaced};

use packed_var::PackedVar;

// The slice, and the place where the next byte goes.
#[derive(Drop)]
pub struct Out<'a> {
    bytes: &'a mut [u8],
    at: usize,
}

impl<'a> Out<'a> {
    pub fn new(bytes: &'a mut [u8]) -> Out<'a>
        ensures same { result.bytes.ghost_name ≡ bytes.entry.ghost_name }
        ensures bytes { result.bytes.now ≡ bytes.old }
        ensures front { result.at ≡ 0 }
    {
        Out { bytes, at: 0 }
    }

    // How many bytes are written.
    pub fn count(&self) -> usize
        ensures { result ≡ self.now.at }
    {
        self.at
    }

    pub(crate) fn put_byte(&mut self, byte: u8)
        requires { Room self.old (byte ∷ []) }
        ensures { Writes self.old (byte ∷ []) self.new }
    {
        self.bytes[self.at] = byte;
        self.at += 1;
    }

    pub(crate) fn put_text(&mut self, text: &[u8])
        requires { Room self.old text.now }
        ensures { Writes self.old text.now self.new }
    {
        let end = self.at + text.len();
        self.bytes[self.at..end].copy_from_slice(text);
        self.at = end;
    }

    // A number in decimal. The digits are written here: `write!` promises its text only where it hands back no error, and this always.
    fn put_decimal(&mut self, n: usize)
        requires { Room self.old (decimal n) }
        ensures { Writes self.old (decimal n) self.new }
    {
        self.put_digits(10, n)
    }

    // The low digits of a number in decimal, at most as many as said.
    fn put_digits(&mut self, most: usize, n: usize)
        requires { Room self.old (digits most n) }
        ensures { Writes self.old (digits most n) self.new }
    {
        if most == 0 {
            return;
        }
        if 10 <= n {
            self.put_digits(most - 1, n / 10);
        }
        self.put_byte(b'0' + (n % 10) as u8)
    }

    // A coefficient as a signed number in decimal.
    pub(crate) fn put_signed(&mut self, coefficient: u32)
        requires { Room self.old (signed prime coefficient) }
        ensures { Writes self.old (signed prime coefficient) self.new }
    {
        let value = field::signed(coefficient);
        if value < 0 {
            self.put_byte(b'-');
        }
        self.put_decimal(value.unsigned_abs() as usize)
    }

    // A space and a number, for each of them.
    pub(crate) fn put_numbers(&mut self, numbers: &[usize])
        requires { Room self.old (spaced decimal numbers.now) }
        ensures { Writes self.old (spaced decimal numbers.now) self.new }
    {
        for n in numbers {
            self.put_byte(b' ');
            self.put_decimal(*n);
        }
    }

    // A variable in hex, eight digits.
    fn put_hex(&mut self, var: PackedVar)
        requires { Room self.old (hex_digits 8 var.0) }
        ensures { Writes self.old (hex_digits 8 var.0) self.new }
    {
        self.put_hex_digits(8, var.0)
    }

    // The low digits of a word in hex, as many as said.
    fn put_hex_digits(&mut self, count: usize, word: u32)
        requires { Room self.old (hex_digits count word) }
        ensures { Writes self.old (hex_digits count word) self.new }
    {
        if count == 0 {
            return;
        }
        self.put_hex_digits(count - 1, word / 16);
        self.put_byte(hex_digit(word % 16))
    }

    // A space and a variable in hex, for each of them.
    pub(crate) fn put_variables(&mut self, variables: &[u32])
        requires { Room self.old (spaced (hex_digits 8) variables.now) }
        ensures { Writes self.old (spaced (hex_digits 8) variables.now) self.new }
    {
        for v in variables {
            self.put_byte(b' ');
            self.put_hex(PackedVar(*v));
        }
    }
}

fn hex_digit(d: u32) -> u8
    requires { d < 16 }
    ensures { result ≡ hex_digit d }
{
    if d < 10 {
        return b'0' + d as u8;
    }
    b'a' + (d - 10) as u8
}
