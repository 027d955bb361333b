// The monomials of a list in the pool whose coefficient is not 0: each is where it stands.
ghost use Rattle.std.specs.Prelude.{◌≡◌};
ghost use Rattle.std.specs.Iterator.{YieldsFirst, item_count};
ghost use Rattle.group.specs.Grouped.{Standing, InPool, kept_places, kept_of};

use std::marker::Model;

// The `count` monomials that stand from `at` on are left.
#[derive(Drop)]
pub struct Kept<'a> {
    pool: &'a [u32],
    at: usize,
    count: usize,
}

impl<'a> Model for Kept<'a> {
    ghost use Rattle.std.specs.Prelude.{List, ℕ};
    ghost use Rattle.group.specs.Grouped.{kept_places, Standing};

    ghost Value = { List ℕ };

    ghost view = { λ s. kept_places s.pool.now s.at s.count };

    ghost invariant = { λ s. Standing s.count s.pool.now s.at };
}

impl<'a> Kept<'a> {
    // Those of the `count` monomials that stand from `at` on.
    #[inline(always)]
    pub fn new(pool: &'a [u32], at: usize, count: usize) -> Self
        requires { Standing count pool.now at }
        ensures { result ≡ kept_places pool.now at count }
    {
        Kept { pool, at, count }
    }

    // Those of record `node`.
    #[inline(always)]
    pub fn of(pool: &'a [u32], node: usize) -> Self
        requires { InPool pool.now node }
        ensures { result ≡ kept_of pool.now node }
    {
        Kept::new(pool, pool[2 * node] as usize, pool[2 * node + 1] as usize)
    }
}

impl<'a> Iterator for Kept<'a> {
    type Item = usize;

    ghost next_gives = { YieldsFirst (λ s. s) };

    ghost remaining = { item_count (λ s. s) };

    #[inline(always)]
    fn next(&mut self) -> Option<usize> {
        while 0 < self.count {
            let at = self.at;
            self.at = at + 2 + self.pool[at] as usize;
            self.count -= 1;
            if self.pool[at + 1] != 0 {
                return Some(at);
            }
        }
        None
    }
}
