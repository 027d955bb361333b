// The expansions as calls: each checks its sheet, has its lists made, and zeroes what is not written.
#![tactic(auto)]

ghost use Rattle.std.specs.Prelude.{[], ◌∷◌};
ghost use Rattle.semantics.specs.Check.{prime_of};
ghost use Rattle.semantics.specs.Call.{constraint_call, interaction_call, Gives, constraints_of, interactions_of};
ghost use Rattle.constraint_lists.specs.Lists.{SameScratch, scratch_lengths, ConstraintsAre, on_words};
ghost use Rattle.interaction_lists.specs.Lists.{InteractionsAre};
ghost use Rattle.expansion.specs.Answers.{constraint_reply, interaction_reply};

use answers::Refusal;
use constraint_lists::{Outputs, Scratch};
use grouping::Lengths;
use interaction_lists::InteractionLengths;
use records::CheckedSheet;

// The lists of a sheet's constraints; what is not written is not zeroed yet.
fn expand_sheet(s: &[u32], scratch: &mut Scratch, outputs: &mut Outputs) -> Result<Lengths, Refusal>
    ensures same { SameScratch scratch.old scratch.new }
    ensures lists { ConstraintsAre (scratch_lengths scratch.old) outputs result (on_words s.now constraints_of) }
{
    let checked = sheet::check_sheet(s);
    let Ok(_) = checked else {
        return Err(checked.unwrap_err());
    };
    let sheet = CheckedSheet { words: s };
    constraint_lists::expand_checked(sheet, scratch, outputs)
}

// The constraint call: headers, variables and terms of the sheet's constraints; work and pool end all zero.
pub fn expand_constraints(
    s: &[u32],
    work: &mut [u32],
    pool: &mut [u32],
    headers: &mut [u32],
    variables: &mut [u32],
    terms: &mut [u32],
) -> Result<Lengths, Refusal>
    ensures { Gives constraint_reply result (work ∷ pool ∷ headers ∷ variables ∷ terms ∷ [])
        (constraint_call (prime_of s.now) s.now) }
{
    let mut scratch = Scratch { work, pool };
    let mut outputs = Outputs {
        headers,
        variables,
        terms,
    };
    let lists = expand_sheet(s, &mut scratch, &mut outputs);
    let kept = lists.unwrap_or_default();
    scratch.clear();
    outputs.clear_behind(kept);
    lists
}

// The lists of a sheet's interactions; what is not written is not zeroed yet.
fn expand_sheet_interactions(
    s: &[u32],
    scratch: &mut Scratch,
    numerators: &mut Outputs,
    denominators: &mut Outputs,
) -> Result<InteractionLengths, Refusal>
    ensures same { SameScratch scratch.old scratch.new }
    ensures lists { InteractionsAre (scratch_lengths scratch.old) numerators denominators result (on_words s.now interactions_of) }
{
    let checked = sheet::check_sheet(s);
    let Ok(_) = checked else {
        return Err(checked.unwrap_err());
    };
    let sheet = CheckedSheet { words: s };
    interaction_lists::expand_checked(sheet, scratch, numerators, denominators)
}

// The interaction call: numerators, then denominators; work and pool end all zero.
pub fn expand_interactions(
    s: &[u32],
    work: &mut [u32],
    pool: &mut [u32],
    headers: &mut [u32],
    variables: &mut [u32],
    terms: &mut [u32],
    denom_headers: &mut [u32],
    denom_variables: &mut [u32],
    denom_terms: &mut [u32],
) -> Result<InteractionLengths, Refusal>
    ensures { Gives interaction_reply result
        (work ∷ pool ∷ headers ∷ variables ∷ terms ∷ denom_headers ∷ denom_variables ∷ denom_terms ∷ [])
        (interaction_call (prime_of s.now) s.now) }
{
    let mut scratch = Scratch { work, pool };
    let mut numerators = Outputs {
        headers,
        variables,
        terms,
    };
    let mut denominators = Outputs {
        headers: denom_headers,
        variables: denom_variables,
        terms: denom_terms,
    };
    let lists = expand_sheet_interactions(s, &mut scratch, &mut numerators, &mut denominators);
    let kept = lists.unwrap_or_default();
    scratch.clear();
    numerators.clear_behind(kept.numerators);
    denominators.clear_behind(kept.denominators);
    lists
}
