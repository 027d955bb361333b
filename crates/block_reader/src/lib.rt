// The block reader: blocks as words.
#![tactic(auto)]

ghost use Rattle.std.specs.Prelude.{◌≡◌, [], ◌∷◌, ◌*◌, ◌≤◌, length};
ghost use Rattle.slices.specs.Lent.{lengths};
ghost use Rattle.semantics.specs.Block.{words_of, bad_length, read_blocks};
ghost use Rattle.semantics.specs.Call.{reader_call, Gives};
ghost use Rattle.answers.specs.Replies.{rest_zeroed, written_reply};
ghost use Rattle.block_reader.specs.Replies.{words_outcome};

use answers::{Reason, Refusal};
use block::words;

fn bad_length(n: usize) -> bool
    ensures { result ≡ bad_length n }
{
    n == 0 || n % 512 != 0 || 363520 < n
}

// The 127 words of the block at the front.
fn read_block(block: &[u8], out: &mut [u32])
    requires { (508 ≤ length block.now) × (length out.old ≡ 127) }
    ensures { out.new ≡ words_of 127 block.now }
{
    for (i, word) in out.iter_mut().enumerate() {
        *word = words::word_at(block, 4 * i);
    }
}

// The words of the blocks, as long as each has its check word.
fn read_each(bytes: &[u8], blocks: usize, out: &mut [u32]) -> Result<usize, Refusal>
    requires { (blocks ≤ 710) × (512 * blocks ≤ length bytes.now) × (127 * blocks ≤ length out.old) }
    ensures { rest_zeroed result out.new ≡ words_outcome (length out.old) (read_blocks blocks 0 bytes.now) }
{
    for k in 0..blocks {
        let block = &bytes[512 * k..];
        if !words::block_good(block, k as u32 + 1) {
            return Err(Refusal {
                reason: Reason::WrongCheck,
                place: k,
            });
        }
        read_block(block, &mut out[127 * k..127 * k + 127]);
    }
    Ok(127 * blocks)
}

// The words of the blocks go to the front of the output.
fn read_all(bytes: &[u8], out: &mut [u32]) -> Result<usize, Refusal>
    ensures { rest_zeroed result out.new ≡ reader_call bytes.now (lengths (out ∷ [])) }
{
    if bad_length(bytes.len()) {
        return Err(Refusal {
            reason: Reason::WrongLength,
            place: 0,
        });
    }
    let blocks = bytes.len() / 512;
    let needed = 127 * blocks;
    if out.len() < needed {
        return Err(Refusal {
            reason: Reason::OutputTooShort,
            place: needed,
        });
    }
    read_each(bytes, blocks, out)
}

// The words of blocks.
pub fn read_blocks(bytes: &[u8], out: &mut [u32]) -> Result<usize, Refusal>
    ensures { Gives written_reply result (out ∷ []) (reader_call bytes.now) }
{
    let read = read_all(bytes, out);
    answers::zero_rest(read, out, 0)
}
