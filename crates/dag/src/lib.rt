// The builder: port of dag.rs over a sheet, scratch and an output that are lent.
#![tactic(auto)]

ghost use Rattle.std.specs.Prelude.{◌≡◌, length, [], ◌∷◌};
ghost use Rattle.answers.specs.Replies.{written_reply};
ghost use Rattle.slices.specs.Lent.{lengths};
ghost use Rattle.semantics.specs.Check.{prime_of};
ghost use Rattle.semantics.specs.Call.{builder_call, zeros, Gives};
ghost use Rattle.dag.specs.Calls.{built_outcome, Clear};

mod graph;

use answers::{Reason, Refusal};
use records::CheckedSheet;

// The graph of a checked sheet that has so many words without spare ones, where scratch and output are long enough.
fn build_checked(
    sheet: CheckedSheet,
    words: usize,
    scratch: &mut [u32],
    out: &mut [u32],
) -> Result<usize, Refusal>
    requires { Clear sheet.words.now words scratch.old out.old }
    ensures { built_outcome result (zeros (length scratch.old)) out.new
        ≡ builder_call (prime_of sheet.entry.words.now) sheet.entry.words.now (lengths (scratch ∷ out ∷ [])) }
{
    let records = sheet.num_records();
    if scratch.len() < records {
        return Err(Refusal {
            reason: Reason::ScratchTooShort,
            place: records,
        });
    }
    if out.len() < words {
        return Err(Refusal {
            reason: Reason::OutputTooShort,
            place: words,
        });
    }
    let written = graph::build_graph(sheet, &mut scratch[..records], out);
    Ok(written)
}

// The graph of a sheet, in an output of zeros.
fn build_clear(s: &[u32], scratch: &mut [u32], out: &mut [u32]) -> Result<usize, Refusal>
    requires { (scratch.old ≡ zeros (length scratch.old)) × (out.old ≡ zeros (length out.old)) }
    ensures { built_outcome result (zeros (length scratch.old)) out.new
        ≡ builder_call (prime_of s.now) s.now (lengths (scratch ∷ out ∷ [])) }
{
    let checked = sheet::check_sheet(s);
    let Ok(head) = checked else {
        return Err(checked.unwrap_err());
    };
    let sheet = CheckedSheet { words: s };
    build_checked(sheet, head.words, scratch, out)
}

// The builder: checks the sheet and writes its graph; scratch ends all zero.
pub fn build(s: &[u32], scratch: &mut [u32], out: &mut [u32]) -> Result<usize, Refusal>
    ensures { Gives written_reply result (scratch ∷ out ∷ []) (builder_call (prime_of s.now) s.now) }
{
    scratch.fill(0);
    out.fill(0);
    let written = build_clear(s, scratch, out);
    scratch.fill(0);
    written
}
