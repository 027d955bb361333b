// Where the variables of a monomial in the pool stand among the rows.
ghost use Rattle.std.specs.Prelude.{◌≡◌, ◌+◌, ◌*◌, ◌≤◌, ◌<◌, length};
ghost use Rattle.monomial.specs.Orders.{order_of};
ghost use Rattle.group.specs.Grouped.{row_place, row_size, row_vars, Spot, Between, MonomialInside};
ghost use Rattle.group.specs.Groups.{tallies};
ghost use Rattle.group.specs.Waiting.{pool_vars};

use crate::Groups;
use monomial::vars;
use std::cmp::Ordering;

// The variables of the monomial that stands at `at`.
#[tactic(auto, using(crate::proofs::Counting::read_vars))]
pub fn vars_at(pool: &[u32], at: usize) -> &[u32]
    requires { MonomialInside pool.now at }
    ensures { result.now ≡ pool_vars pool.now at }
{
    let from = at + 2;
    &pool[from..from + pool[at] as usize]
}

// The variables of row i.
pub fn row_vars<'p>(headers: &[u32], i: usize, pool: &'p [u32]) -> &'p [u32]
    requires { (4 * i + 4 ≤ length headers.now) × (row_place headers.now i + 2 + row_size headers.now i ≤ length pool.now) }
    ensures { result.now ≡ row_vars headers.now pool.now i }
{
    let row = 4 * i;
    let from = headers[row] as usize + 2;
    &pool[from..from + headers[row + 2] as usize]
}

impl<'a> Groups<'a> {
    // Where the monomial that stands at `at` is in the order, seen from row i.
    #[tactic(auto, using(crate::proofs::Headers::inside_at))]
    fn order_of_row(&self, i: usize, at: usize) -> Ordering
        requires { (i < self.now.n) × MonomialInside self.now.pool.now at }
        ensures { result ≡ order_of (pool_vars self.now.pool.now at) (row_vars self.now.headers.now self.now.pool.now i) }
    {
        vars::compare(vars_at(self.pool, at), row_vars(self.headers, i, self.pool))
    }

    // Searches the rows between two: those below `from` stand before the monomial's variables, those from `to` on behind them. Ok: the row that has them,
    // Err: the row that they belong in front of.
    #[tactic(auto, using(crate::proofs::Headers::tallied_length))]
    fn search_rows(&self, from: usize, to: usize, at: usize) -> Result<usize, usize>
        requires { MonomialInside self.now.pool.now at × Between (pool_vars self.now.pool.now at) (tallies self.now) from to }
        ensures { Spot (pool_vars self.now.pool.now at) (tallies self.now) result }
    {
        let mut low = from;
        let mut high = to;
        while low < high {
            let mid = low + (high - low) / 2;
            let order = self.order_of_row(mid, at);
            match order {
                Ordering::Equal => return Ok(mid),
                Ordering::Less => high = mid,
                Ordering::Greater => low = mid + 1,
            }
        }
        Err(low)
    }

    // Searches the rows from `from` on, in steps that double: those below stand before the monomial's variables.
    #[tactic(auto, using(crate::proofs::Headers::tallied_length))]
    fn search_on(&self, from: usize, at: usize) -> Result<usize, usize>
        requires { MonomialInside self.now.pool.now at × Between (pool_vars self.now.pool.now at) (tallies self.now) from self.now.n }
        ensures { Spot (pool_vars self.now.pool.now at) (tallies self.now) result }
    {
        let mut low = from;
        let mut step: usize = 1;
        while step < self.n - low {
            let k = low + step;
            let order = self.order_of_row(k, at);
            match order {
                Ordering::Equal => return Ok(k),
                Ordering::Less => return self.search_rows(low, k, at),
                Ordering::Greater => {
                    low = k + 1;
                    step = 2 * step;
                }
            }
        }
        self.search_rows(low, self.n, at)
    }

    // Searches the rows for the variables of the monomial that stands at `at`: near row `near` first, where there is one.
    #[tactic(auto, using(crate::proofs::Headers::tallied_length))]
    pub(crate) fn find_near(&self, at: usize, near: usize) -> Result<usize, usize>
        requires { MonomialInside self.now.pool.now at }
        ensures { Spot (pool_vars self.now.pool.now at) (tallies self.now) result }
    {
        if self.n <= near {
            return self.search_rows(0, self.n, at);
        }
        let order = self.order_of_row(near, at);
        match order {
            Ordering::Equal => Ok(near),
            Ordering::Less => self.search_rows(0, near, at),
            Ordering::Greater => self.search_on(near + 1, at),
        }
    }
}
