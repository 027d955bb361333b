// The walk of an expansion: each reached record is expanded once, after its children, and its list is kept in the pool.
#![tactic(auto)]

ghost use Rattle.std.specs.Prelude.{◌≡◌, ◌≤◌, length};
ghost use Rattle.std.specs.Coded.{le_prop};
ghost use Rattle.semantics.specs.Check.{prime_of};
ghost use Rattle.semantics.specs.Monomial.{list_at};
ghost use Rattle.semantics.specs.Expand.{record_fault};
ghost use Rattle.records.specs.Access.{records_of};
ghost use Rattle.expand.specs.Making.{Makes};
ghost use Rattle.expand.specs.Walking.{ChildrenStored, Storing, Stores};

mod kinds;

use answers::{Reason, Refusal};
use monomial::Sign;
use monomial::reading::Monomials;
use monomial::work_list::WorkList;
use records::interactions::{Interactions, Part};
use records::{CheckedSheet, Node};

// A walk over a checked sheet: the pool holds the lists of the records that are expanded, in its first `used` words, and each list is made in the work.
// A refusal ends it. Each slice has a lifetime of its own: with a common one a caller of `new` would not know what the walk leaves in them.
#[derive(Drop)]
pub struct Walk<'a, 'b, 'c> {
    sheet: CheckedSheet<'a>,
    work: &'b mut [u32],
    pool: &'c mut [u32],
    used: usize,
    ghost room: { 4096 ≤ length work.now } by { le_prop },
}

// Makes the list of a record whose children are expanded.
#[tactic(auto, using(records::proofs::Visits::record_inside))]
fn make_list<'a>(
    sheet: CheckedSheet,
    work: &'a mut [u32],
    pool: &[u32],
    r: usize,
) -> Result<WorkList<'a>, Reason>
    requires { (4096 ≤ length work.old) × ChildrenStored sheet.words.now r pool.now }
    ensures { Makes result (record_fault (prime_of sheet.entry.words.now) (records_of sheet.entry.words.now) r)
        (list_at (prime_of sheet.entry.words.now) (records_of sheet.entry.words.now) r) }
{
    match records::record_at(sheet.words, r).node() {
        Node::Leaf(q) => kinds::expand_leaf(work, q),
        Node::Constant(value) => Ok(kinds::expand_constant(work, value)),
        Node::Add(x, y) => kinds::expand_sum(
            work,
            Monomials::of_record(pool, x),
            Monomials::of_record(pool, y),
            Sign::Plus,
        ),
        Node::Sub(x, y) => kinds::expand_sum(
            work,
            Monomials::of_record(pool, x),
            Monomials::of_record(pool, y),
            Sign::Minus,
        ),
        Node::Neg(x) => Ok(kinds::expand_neg(work, Monomials::of_record(pool, x))),
        Node::Mul(x, y) => kinds::expand_product(
            work,
            Monomials::of_record(pool, x),
            Monomials::of_record(pool, y),
        ),
    }
}

// Writes a list behind the words of the pool that are taken, and its place into the record's two words; hands back how many words are taken then.
fn store_list(list: &WorkList, pool: &mut [u32], r: usize, used: usize) -> Result<usize, Refusal>
    requires { Storing pool.old r used }
    ensures { Stores pool.old pool.new r used list.now result }
{
    let size = list.list_size();
    if pool.len() - used < size {
        return Err(Refusal {
            reason: Reason::PoolTooShort,
            place: r,
        });
    }
    list.write_to(&mut pool[used..]);
    pool[2 * r] = used as u32;
    pool[2 * r + 1] = list.len() as u32;
    Ok(used + size)
}

impl<'a, 'b, 'c> Walk<'a, 'b, 'c> {
    ghost use Rattle.semantics.specs.Check.{read_sheet};
    ghost use Rattle.semantics.specs.Walk.{Below};
    ghost use Rattle.records.specs.Named.{parts_of};
    ghost use Rattle.expand.specs.Walks.{Starts, ExpandWalking, ExpandReady, Finishing, Finished, Visited, Walked};

    // It goes on from a pool whose first `used` words are taken.
    pub fn new(
        sheet: CheckedSheet<'a>,
        work: &'b mut [u32],
        pool: &'c mut [u32],
        used: usize,
    ) -> Walk<'a, 'b, 'c>
        requires { 4096 ≤ length work.old }
        ensures work { result.work.ghost_name ≡ work.entry.ghost_name }
        ensures pool { result.pool.ghost_name ≡ pool.entry.ghost_name }
        ensures starts { Starts sheet.entry.words.now pool.old used result }
    {
        Walk {
            sheet,
            work,
            pool,
            used,
        }
    }

    // How many words of the pool are taken.
    pub fn used(&self) -> usize
        ensures { result ≡ self.now.used }
    {
        self.used
    }

    // Makes the list of a record whose children are expanded, and stores it. The list lies in the work, so the pool is lent beside it.
    #[inline(never)]
    fn finish_record(&mut self, r: usize) -> Result<(), Refusal>
        requires { Finishing self.old r }
        ensures { Finished self.old r self.new result }
    {
        let work = &mut *self.work;
        let pool = &mut *self.pool;
        let made = make_list(self.sheet, work, pool, r);
        let Ok(list) = made else {
            return Err(Refusal {
                reason: made.unwrap_err(),
                place: r,
            });
        };
        let stored = store_list(&list, pool, r, self.used);
        let Ok(used) = stored else {
            return Err(stored.unwrap_err());
        };
        self.used = used;
        Ok(())
    }

    // Expands record r with all that it reaches: its children, left before right, then itself; a refusal ends it. It recurses as deep as the
    // longest chain of children, so a level keeps one answer and no record: a child's number is read when it is needed.
    #[tactic(auto, using(records::proofs::Visits::record_inside))]
    fn expand_node(&mut self, r: usize) -> Result<(), Refusal>
        requires { ExpandReady self.old r }
        ensures { Visited self.old r self.new result }
    {
        let mut answer = Ok(());
        if self.pool[2 * r] != 0 {
            return answer;
        }
        for i in 0..2 {
            let Some(child) = records::child_at(self.sheet.words, r, i) else {
                continue;
            };
            answer = self.expand_node(child);
            let Ok(()) = answer else {
                return answer;
            };
        }
        answer = self.finish_record(r);
        answer
    }

    // Expands the records that are named, one after the other; a refusal ends it.
    pub fn expand_references(&mut self, names: &[u32]) -> Result<(), Refusal>
        requires { ExpandWalking self.old × Below (length (records_of self.old.sheet.words.now)) names.now }
        ensures { Walked self.old names.now self.new result }
    {
        for r in names {
            let answer = self.expand_node(*r as usize);
            let Ok(()) = answer else {
                return answer;
            };
        }
        Ok(())
    }

    // Expands a part of each of these interactions: the counts, or the fields.
    pub fn expand_each(&mut self, part: Part, interactions: Interactions) -> Result<(), Refusal>
        requires { ExpandWalking self.old × Below (length (records_of self.old.sheet.words.now)) (parts_of part interactions) }
        ensures { Walked self.old (parts_of part interactions.entry) self.new result }
    {
        for x in interactions {
            let answer = self.expand_references(x.part(part));
            let Ok(()) = answer else {
                return answer;
            };
        }
        Ok(())
    }

    // Expands a part of every interaction of the sheet.
    pub fn expand_part(&mut self, part: Part) -> Result<(), Refusal>
        requires { ExpandWalking self.old }
        ensures { Walked self.old (parts_of part (read_sheet self.old.sheet.words.now).interactions) self.new result }
    {
        self.expand_each(part, self.sheet.interactions())
    }
}
