// The block writer: the words of a sheet as blocks.
#![tactic(auto)]

ghost use Rattle.std.specs.Prelude.{◌≡◌, ◌+◌, ◌*◌, ◌≤◌, ◌<◌, length, take};
ghost use mathlib.Core.List.{◌++◌, flat_map, [], ◌∷◌};
ghost use Rattle.slices.specs.Lent.{lengths};
ghost use Rattle.semantics.specs.Check.{prime_of};
ghost use Rattle.semantics.specs.Block.{words_of, word_bytes, first_words, block_bytes, write_blocks};
ghost use Rattle.semantics.specs.Call.{writer_call, Gives};
ghost use Rattle.answers.specs.Replies.{rest_zeroed, written_reply};

use answers::{Reason, Refusal};
use block::words;

// A word goes as four bytes to the output at `at`.
fn put_word(w: u32, out: &mut [u8], at: usize)
    requires { at + 4 ≤ length out.old }
    ensures { take (at + 4) out.new ≡ take at out.old ++ word_bytes w }
{
    out[at..at + 4].copy_from_slice(&words::word_bytes(w));
}

// The first 127 words, zeros past the end, go as bytes to the front of a block, and can be read there.
fn put_words(s: &[u32], block: &mut [u8])
    requires { 508 ≤ length block.old }
    ensures { (take 508 block.new ≡ flat_map word_bytes (first_words 127 s.now))
        × (words_of 127 block.new ≡ first_words 127 s.now) }
{
    let n = s.len().min(127);
    for i in 0..n {
        put_word(s[i], block, 4 * i);
    }
    block[4 * n..508].fill(0);
}

// The block of the first 127 words, with its check word.
fn write_block(s: &[u32], number: u32, block: &mut [u8])
    requires { length block.old ≡ 512 }
    ensures { block.new ≡ block_bytes number (first_words 127 s.now) }
{
    put_words(s, block);
    let check = words::check_word(block, number);
    put_word(check, block, 508);
}

fn write_each(s: &[u32], blocks: usize, out: &mut [u8])
    requires { (blocks ≤ 710) × (127 * blocks ≤ length s.now + 126) × (512 * blocks ≤ length out.old) }
    ensures { take (512 * blocks) out.new ≡ write_blocks blocks 0 s.now }
{
    for k in 0..blocks {
        let block = &mut out[512 * k..512 * k + 512];
        write_block(&s[127 * k..], k as u32 + 1, block);
    }
}

// The blocks of a sheet go to the front of the output.
fn write_all(s: &[u32], out: &mut [u8]) -> Result<usize, Refusal>
    ensures { rest_zeroed result out.new ≡ writer_call (prime_of s.now) s.now (lengths (out ∷ [])) }
{
    let checked = sheet::check_sheet(s);
    let Ok(head) = checked else {
        return Err(checked.unwrap_err());
    };
    let words = head.words;
    let blocks = (words + 126) / 127;
    let needed = 512 * blocks;
    if out.len() < needed {
        return Err(Refusal {
            reason: Reason::OutputTooShort,
            place: needed,
        });
    }
    write_each(&s[..words], blocks, out);
    Ok(needed)
}

// The sheet in blocks: its words, zero fill and the check words.
pub fn write_blocks(s: &[u32], out: &mut [u8]) -> Result<usize, Refusal>
    ensures { Gives written_reply result (out ∷ []) (writer_call (prime_of s.now) s.now) }
{
    let written = write_all(s, out);
    answers::zero_rest(written, out, 0)
}
