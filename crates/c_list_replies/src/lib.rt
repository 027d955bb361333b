// The replies of the expansions for C: number, place, the words written to each output; 0 where there is none.
#![tactic(auto)]

ghost use Rattle.std.specs.Prelude.{◌≡◌};

use answers::Refusal;
use grouping::Lengths;
use interaction_lists::InteractionLengths;

#[repr(C)]
#[derive(Clone, Copy, Default)]
pub struct SuhkelvaLists {
    pub number: u32,
    pub place: u64,
    pub headers: u64,
    pub variables: u64,
    pub terms: u64,
}

#[repr(C)]
#[derive(Clone, Copy, Default)]
pub struct SuhkelvaInteractionLists {
    pub number: u32,
    pub place: u64,
    pub headers: u64,
    pub variables: u64,
    pub terms: u64,
    pub denom_headers: u64,
    pub denom_variables: u64,
    pub denom_terms: u64,
    pub num_interactions: u64,
    pub max_fields_len: u64,
}

impl From<Result<Lengths, Refusal>> for SuhkelvaLists {
    ghost use Rattle.expansion.specs.Answers.{constraint_reply};
    ghost use Rattle.c_list_replies.specs.Fields.{list_fields};

    ghost from_gives = { λ written lists. lists ≡ list_fields (constraint_reply written) };

    #[tactic(auto, unfolding(crate::specs::Fields::list_fields))]
    fn from(written: Result<Lengths, Refusal>) -> SuhkelvaLists {
        match written {
            Ok(n) => SuhkelvaLists {
                headers: n.headers as u64,
                variables: n.variables as u64,
                terms: n.terms as u64,
                ..Default::default()
            },
            Err(r) => SuhkelvaLists {
                number: r.reason.number(),
                place: r.place as u64,
                ..Default::default()
            },
        }
    }
}

impl From<Result<InteractionLengths, Refusal>> for SuhkelvaInteractionLists {
    ghost use Rattle.expansion.specs.Answers.{interaction_reply};
    ghost use Rattle.c_list_replies.specs.Fields.{interaction_list_fields};

    ghost from_gives = { λ written lists. lists ≡ interaction_list_fields (interaction_reply written) };

    #[tactic(auto, unfolding(crate::specs::Fields::interaction_list_fields))]
    fn from(written: Result<InteractionLengths, Refusal>) -> SuhkelvaInteractionLists {
        match written {
            Ok(n) => SuhkelvaInteractionLists {
                headers: n.numerators.headers as u64,
                variables: n.numerators.variables as u64,
                terms: n.numerators.terms as u64,
                denom_headers: n.denominators.headers as u64,
                denom_variables: n.denominators.variables as u64,
                denom_terms: n.denominators.terms as u64,
                num_interactions: n.num_interactions as u64,
                max_fields_len: n.max_fields_len as u64,
                ..Default::default()
            },
            Err(r) => SuhkelvaInteractionLists {
                number: r.reason.number(),
                place: r.place as u64,
                ..Default::default()
            },
        }
    }
}
