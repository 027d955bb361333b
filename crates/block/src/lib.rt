// Blocks of 512 bytes: 127 words and a check word.
#![tactic(auto)]

ghost use Rattle.std.specs.Prelude.{◌≡◌};
ghost use Rattle.semantics.specs.Call.{block_check_call};
ghost use Rattle.block.specs.Checked.{block_outcome};

use answers::{Reason, Refusal};

pub mod words;

// Whether a block has the check word of its words and its number, counted from 1.
pub fn block_check(bytes: &[u8], number: u32) -> Result<bool, Refusal>
    ensures { block_outcome result ≡ block_check_call bytes.now number }
{
    if bytes.len() != 512 {
        return Err(Refusal {
            reason: Reason::WrongLength,
            place: 0,
        });
    }
    Ok(words::block_good(bytes, number))
}
