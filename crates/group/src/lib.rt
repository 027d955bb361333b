// Grouping the monomials of roots by their variables: each variable list is counted, then the terms are placed.
#![tactic(auto)]

ghost use Rattle.std.specs.Prelude.{◌≡◌};
ghost use Rattle.group.specs.Grouped.{Rows};
ghost use Rattle.group.specs.OneProof.{rows_props};

pub mod kept;
pub mod place;
mod search;
mod tally;
pub mod totals;
mod waits;

// The groups: n rows of the headers, one for each list of variables. While monomials are counted and placed the four words of a row are where one
// with these variables stands in the pool, where the next term goes, the number of variables and the number of terms.
#[derive(Drop)]
pub struct Groups<'a> {
    headers: &'a mut [u32],
    n: usize,
    pool: &'a [u32],
    ghost rows: { Rows n headers.now pool.now } by { Prim.hlevel rows_props },
}

impl<'a> Groups<'a> {
    ghost use Rattle.group.specs.Groups.{tallies, Starts, Holds};

    // No groups; the headers are cleared.
    pub fn new(headers: &'a mut [u32], pool: &'a [u32]) -> Groups<'a>
        ensures same { result.headers.ghost_name ≡ headers.entry.ghost_name }
        ensures none { Starts headers.old pool.now result }
    {
        headers.fill(0);
        Groups {
            headers,
            n: 0,
            pool,
        }
    }

    // The n groups whose rows stand in the headers.
    pub fn from_rows(headers: &'a mut [u32], n: usize, pool: &'a [u32]) -> Groups<'a>
        requires { Rows n headers.old pool.now }
        ensures same { result.headers.ghost_name ≡ headers.entry.ghost_name }
        ensures rows { Holds n headers.old pool.now result }
    {
        Groups { headers, n, pool }
    }

    // How many there are.
    pub fn count(&self) -> usize
        ensures { result ≡ self.now.n }
    {
        self.n
    }
}
