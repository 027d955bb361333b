// The offsets of monomial headers.
#![tactic(auto)]

ghost use Rattle.std.specs.Prelude.{◌≡◌, ◌+◌, ◌≤◌};
ghost use Rattle.header_offsets.specs.Headers.{num_vars_of, num_terms_of, column_total, with_offsets};

pub mod words;

// One monomial of a list: where its variables and its terms start, and how many it has of each. The two numbers are words, as in the
// lists that the calls write.
#[derive(Clone, Copy, Debug, Default, PartialEq, Eq)]
pub struct MonomialHeader {
    pub var_offset: u32,
    pub term_offset: u32,
    pub num_vars: u32,
    pub num_terms: u32,
}

// Both offsets of each header become the totals over the headers before it, counted on from those given.
pub fn fill_offsets(headers: &mut [MonomialHeader], var_offset: u32, term_offset: u32)
    requires { (var_offset + column_total num_vars_of headers.old ≤ 4294967295)
        × (term_offset + column_total num_terms_of headers.old ≤ 4294967295) }
    ensures { headers.new ≡ with_offsets var_offset term_offset headers.old }
{
    let mut vars = var_offset;
    let mut terms = term_offset;
    for h in headers.iter_mut() {
        h.var_offset = vars;
        h.term_offset = terms;
        vars += h.num_vars;
        terms += h.num_terms;
    }
}
