// The calls that only read or copy a sheet.
#![tactic(auto)]

ghost use Rattle.std.specs.Prelude.{◌≡◌, [], ◌∷◌};
ghost use Rattle.slices.specs.Lent.{lengths};
ghost use Rattle.semantics.specs.Check.{prime_of};
ghost use Rattle.semantics.specs.Call.{max_rotation_call, num_constraints_call, conversion_call, Gives};
ghost use Rattle.answers.specs.Replies.{rest_zeroed, counted_outcome, written_reply};

use answers::{Reason, Refusal};

mod rotation;

// The largest offset over all variables, used or unused.
pub fn max_rotation(s: &[u32]) -> Result<usize, Refusal>
    ensures { counted_outcome result ≡ max_rotation_call (prime_of s.now) s.now }
{
    let checked = sheet::check_sheet(s);
    let Ok(head) = checked else {
        return Err(checked.unwrap_err());
    };
    Ok(rotation::largest_offset(s, head.records))
}

// How many constraints the sheet has.
pub fn num_constraints(s: &[u32]) -> Result<usize, Refusal>
    ensures { counted_outcome result ≡ num_constraints_call (prime_of s.now) s.now }
{
    let checked = sheet::check_sheet(s);
    let Ok(head) = checked else {
        return Err(checked.unwrap_err());
    };
    Ok(head.constraints)
}

// The words of a sheet go to the front of the output.
fn copy_sheet(s: &[u32], out: &mut [u32]) -> Result<usize, Refusal>
    ensures { rest_zeroed result out.new ≡ conversion_call (prime_of s.now) s.now (lengths (out ∷ [])) }
{
    let checked = sheet::check_sheet(s);
    let Ok(head) = checked else {
        return Err(checked.unwrap_err());
    };
    let words = head.words;
    if out.len() < words {
        return Err(Refusal {
            reason: Reason::OutputTooShort,
            place: words,
        });
    }
    slices::copy_front(&s[..words], out);
    Ok(words)
}

// The words of the sheet, without the spare ones.
pub fn convert(s: &[u32], out: &mut [u32]) -> Result<usize, Refusal>
    ensures { Gives written_reply result (out ∷ []) (conversion_call (prime_of s.now) s.now) }
{
    let copied = copy_sheet(s, out);
    answers::zero_rest(copied, out, 0)
}
