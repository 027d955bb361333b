// The nodes in the output, which are the records of the graph.
#![tactic(auto)]

ghost use Rattle.std.specs.Prelude.{◌≡◌, ◌+◌, ◌≤◌, ◌<◌, length, MatchOption};
ghost use Rattle.semantics.specs.Sheet.{place};
ghost use Rattle.semantics.specs.Value.{node_of};
ghost use Rattle.semantics.specs.Walk.{children};
ghost use Rattle.records.specs.Access.{five_words, node_in};
ghost use Rattle.records.specs.Nodes.{shown_node, as_record, CarriesLeaf};
ghost use Rattle.nodes.specs.Nodes.{FirstEqual, above_all, Interns};

pub mod rules;

use crate::rules::Child;
use records::{Node, Record};

// Where a node is, and how many nodes there are then.
#[derive(Clone, Copy)]
pub struct Interned {
    pub index: usize,
    pub count: usize,
}

// A node of the output, as the rules look at it.
pub fn child(out: &[u32], number: u32) -> Child
    requires { place 5 number + 5 ≤ length out.now }
    ensures { (result.number ≡ number) × (shown_node result.node ≡ node_of (node_in out.now number))
        × CarriesLeaf result.node (as_record (node_in out.now number)) }
{
    Child {
        number,
        node: records::record_at(out, number as usize).node(),
    }
}

// Where the search for a node begins: above its children.
#[tactic(auto, unfolding(semantics::specs::Walk::children, crate::specs::Nodes::above_all))]
pub fn search_from(r: Record) -> usize
    ensures { result ≡ above_all (children (node_of (five_words r))) }
{
    match r.node() {
        Node::Leaf(_) | Node::Constant(_) => 0,
        Node::Neg(x) => x as usize + 1,
        Node::Add(x, y) | Node::Sub(x, y) | Node::Mul(x, y) => x.max(y) as usize + 1,
    }
}

// The first node from `from` on that is equal.
fn find_node(out: &[u32], n: usize, from: usize, r: Record) -> Option<usize>
    requires { (from ≤ n) × (place 5 n ≤ length out.now) }
    ensures { MatchOption result (FirstEqual out.now n from (five_words r) n)
        (λ x. (x < n) × FirstEqual out.now n from (five_words r) x) }
{
    for i in from..n {
        if records::same_record(out, i, r) {
            return Some(i);
        }
    }
    None
}

// The node equal to r, which no node below `from` is; appended where there is none.
pub fn intern_node(out: &mut [u32], n: usize, from: usize, r: Record) -> Interned
    requires { (from ≤ n) × (place 5 (n + 1) ≤ length out.old) }
    ensures { Interns out.old n from (five_words r) result out.new }
{
    if let Some(index) = find_node(out, n, from, r) {
        return Interned { index, count: n };
    }
    records::put_record(out, n, r);
    Interned {
        index: n,
        count: n + 1,
    }
}
