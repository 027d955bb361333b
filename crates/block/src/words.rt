// Words and their four bytes, least first, and the check of the block that a slice begins with.
ghost use Rattle.std.specs.Prelude.{◌≡◌, ◌+◌, ◌*◌, ◌≤◌, length, drop};
ghost use Rattle.semantics.specs.Block.{word_at, word_bytes, words_of, check_word, block_good};

// The word whose first byte stands at `at`.
pub fn word_at(bytes: &[u8], at: usize) -> u32
    requires { at + 4 ≤ length bytes.now }
    ensures { result ≡ word_at (drop at bytes.now) }
{
    u32::from_le_bytes([bytes[at], bytes[at + 1], bytes[at + 2], bytes[at + 3]])
}

pub fn word_bytes(w: u32) -> [u8; 4]
    ensures { result ≡ word_bytes w }
{
    w.to_le_bytes()
}

// Every fourth word: the sum of those so far, and the sum of all these sums, in which a word counts once for each row from its own on.
#[derive(Clone, Copy, Debug, PartialEq, Eq)]
struct Column {
    sum: u64,
    sums: u64,
}

impl Column {
    fn with_word(self, word: u32) -> Column
        requires { (self.sum ≤ 4294967295 * 31) × (self.sums ≤ 4294967295 * 961) }
        ensures { (result.sum ≡ self.sum + word) × (result.sums ≡ self.sums + result.sum) }
    {
        let sum = self.sum + word as u64;
        Column {
            sum,
            sums: self.sums + sum,
        }
    }
}

// The check word of the 127 words at the front and the block's number. The words stand in four columns, 31 rows and three words more. Word i has the weight
// 2 * i + 1, 8 less than the word below it; so a column's sum is taken with the weight of its place in the row of those three, which are in no sum of sums,
// less 8 times the sum of its sums.
pub fn check_word(block: &[u8], number: u32) -> u32
    requires { 508 ≤ length block.now }
    ensures { result ≡ check_word number (words_of 127 block.now) }
{
    let mut a = Column { sum: 0, sums: 0 };
    let mut b = Column { sum: 0, sums: 0 };
    let mut c = Column { sum: 0, sums: 0 };
    let mut d = Column { sum: 0, sums: 0 };
    for row in 0..31 {
        let first = 16 * row;
        a = a.with_word(word_at(block, first));
        b = b.with_word(word_at(block, first + 4));
        c = c.with_word(word_at(block, first + 8));
        d = d.with_word(word_at(block, first + 12));
    }
    let sums = a.sums + b.sums + c.sums + d.sums;
    let x = a.sum + word_at(block, 496) as u64;
    let y = b.sum + word_at(block, 500) as u64;
    let z = c.sum + word_at(block, 504) as u64;
    let sum = number as u64 + 249 * x + 251 * y + 253 * z + 255 * d.sum - 8 * sums;
    (sum % 4294967296) as u32
}

// Whether the block at the front ends with its check word.
pub fn block_good(block: &[u8], number: u32) -> bool
    requires { 512 ≤ length block.now }
    ensures { result ≡ block_good number block.now }
{
    word_at(block, 508) == check_word(block, number)
}
