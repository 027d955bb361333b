// Demand 3 as a caller has it: the builder and the expansions, each with its own contract and with the promise that the demand makes of it.
#![tactic(auto)]

ghost use Rattle.std.specs.Prelude.{[], ◌∷◌};
ghost use Rattle.answers.specs.Replies.{written_reply};
ghost use Rattle.semantics.specs.Check.{prime_of};
ghost use Rattle.semantics.specs.Call.{builder_call, constraint_call, interaction_call, Gives, outcome_of};
ghost use Rattle.expansion.specs.Answers.{constraint_reply, interaction_reply};
ghost use Rattle.demands.specs.Demand.{GraphBuilt, ConstraintsExpanded, InteractionsExpanded};

use answers::Refusal;
use grouping::Lengths;
use interaction_lists::InteractionLengths;

pub fn build(s: &[u32], scratch: &mut [u32], out: &mut [u32]) -> Result<usize, Refusal>
    ensures outcome { Gives written_reply result (scratch ∷ out ∷ []) (builder_call (prime_of s.now) s.now) }
    ensures demand { GraphBuilt s.now result out.new }
{
    let built = dag::build(s, scratch, out);
    built
}

pub fn expand_constraints(
    s: &[u32],
    work: &mut [u32],
    pool: &mut [u32],
    headers: &mut [u32],
    variables: &mut [u32],
    terms: &mut [u32],
) -> Result<Lengths, Refusal>
    ensures outcome { Gives constraint_reply result (work ∷ pool ∷ headers ∷ variables ∷ terms ∷ [])
        (constraint_call (prime_of s.now) s.now) }
    ensures demand { ConstraintsExpanded s.now
        (outcome_of constraint_reply result (work ∷ pool ∷ headers ∷ variables ∷ terms ∷ [])) }
{
    let lists = expansion::expand_constraints(s, work, pool, headers, variables, terms);
    lists
}

pub fn expand_interactions(
    s: &[u32],
    work: &mut [u32],
    pool: &mut [u32],
    headers: &mut [u32],
    variables: &mut [u32],
    terms: &mut [u32],
    denom_headers: &mut [u32],
    denom_variables: &mut [u32],
    denom_terms: &mut [u32],
) -> Result<InteractionLengths, Refusal>
    ensures outcome { Gives interaction_reply result
        (work ∷ pool ∷ headers ∷ variables ∷ terms ∷ denom_headers ∷ denom_variables ∷ denom_terms ∷ [])
        (interaction_call (prime_of s.now) s.now) }
    ensures demand { InteractionsExpanded s.now (outcome_of interaction_reply result
        (work ∷ pool ∷ headers ∷ variables ∷ terms ∷ denom_headers ∷ denom_variables ∷ denom_terms ∷ [])) }
{
    let lists = expansion::expand_interactions(
        s,
        work,
        pool,
        headers,
        variables,
        terms,
        denom_headers,
        denom_variables,
        denom_terms,
    );
    lists
}
