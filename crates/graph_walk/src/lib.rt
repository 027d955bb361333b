// The walk: each reached record is added once, after its children.
#![tactic(auto)]

ghost use Rattle.std.specs.Prelude.{◌≡◌, ◌≤◌, length};
ghost use Rattle.std.specs.Coded.{le_prop};
ghost use Rattle.semantics.specs.Sheet.{place};
ghost use Rattle.records.specs.Access.{records_of};

use nodes::rules;
use nodes::rules::{Child, Pick};
use records::interactions::Interactions;
use records::{CheckedSheet, Node};

// A walk over a checked sheet: the output holds n nodes so far, and scratch the number of each record's node, counted from 1. There is room for as
// many nodes as records. Each slice has a lifetime of its own: with a common one a caller of `new` would not know what the walk leaves in them.
#[derive(Drop)]
pub struct Walk<'a, 'b, 'c> {
    sheet: CheckedSheet<'a>,
    scratch: &'b mut [u32],
    out: &'c mut [u32],
    n: usize,
    ghost room: { place 5 (length (records_of sheet.words.now)) ≤ length out.now } by { le_prop },
}

impl<'a, 'b, 'c> Walk<'a, 'b, 'c> {
    ghost use Rattle.std.specs.Prelude.{ℕ, ◌+◌, ◌-◌, ◌<◌, get_or};
    ghost use Rattle.semantics.specs.Check.{read_sheet};
    ghost use Rattle.semantics.specs.Walk.{Below};
    ghost use Rattle.records.specs.Named.{references};
    ghost use Rattle.nodes.specs.Picks.{pick_of};
    ghost use Rattle.graph_walk.specs.Walking.{Starts, AddWalking, Adding, Reads, Picks, Same, Visited, Finished, Walks};

    // It goes on from an output that holds n nodes: none where no record is added yet.
    pub fn new(
        sheet: CheckedSheet<'a>,
        scratch: &'b mut [u32],
        out: &'c mut [u32],
        n: usize,
    ) -> Walk<'a, 'b, 'c>
        requires { place 5 (length (records_of sheet.words.now)) ≤ length out.old }
        ensures scratch { result.scratch.ghost_name ≡ scratch.entry.ghost_name }
        ensures out { result.out.ghost_name ≡ out.entry.ghost_name }
        ensures starts { Starts sheet.entry.words.now scratch.old out.old n result }
    {
        Walk {
            sheet,
            scratch,
            out,
            n,
        }
    }

    // How many nodes the output holds.
    pub fn count(&self) -> usize
        ensures { result ≡ self.now.n }
    {
        self.n
    }

    // What the rules look at: the number and the node of a record that is added.
    fn built_child(&self, c: u32) -> Child
        requires { (c < length self.now.scratch.now) × (0 < get_or self.now.scratch.now c 0)
            × (place 5 (get_or self.now.scratch.now c 0 - 1) + 5 ≤ length self.now.out.now) }
        ensures { Reads self.now c result }
    {
        nodes::child(self.out, self.scratch[c as usize] - 1)
    }

    // The node of a record whose children are added.
    fn pick_node(&self, r: usize) -> Pick
        requires { Adding self.now r }
        ensures { Picks self.now r (pick_of result) }
    {
        let q = records::record_at(self.sheet.words, r);
        match q.node() {
            Node::Leaf(_) | Node::Constant(_) => Pick::Make(q),
            Node::Add(x, y) => rules::add_rule(self.built_child(x), self.built_child(y), q.c),
            Node::Sub(x, y) => rules::sub_rule(self.built_child(x), self.built_child(y), q.c),
            Node::Neg(x) => rules::neg_rule(self.built_child(x), q.c),
            Node::Mul(x, y) => rules::mul_rule(self.built_child(x), self.built_child(y), q.c),
        }
    }

    // Adds a record whose children are added.
    #[inline(never)]
    fn add_record(&mut self, r: usize)
        requires { Adding self.old r }
        ensures { Finished self.old r self.new }
    {
        match self.pick_node(r) {
            Pick::Present(k) => self.scratch[r] = k + 1,
            Pick::Make(q) => {
                let from = nodes::search_from(q);
                let node = nodes::intern_node(self.out, self.n, from, q);
                self.scratch[r] = node.index as u32 + 1;
                self.n = node.count;
            }
        }
    }

    // Adds record r with all that it reaches, children first, left before right.
    // The call for a child stands once, in a loop: a second one would have room of its own in the stack of each level.
    fn add_expr(&mut self, r: usize)
        requires { AddWalking self.old × (r < length (records_of self.old.sheet.words.now)) }
        ensures { Visited self.old r self.new }
    {
        if self.scratch[r] != 0 {
            return;
        }
        for i in 0..2 {
            if let Some(child) = records::child_at(self.sheet.words, r, i) {
                self.add_expr(child);
            }
        }
        self.add_record(r)
    }

    // Adds the records that are named.
    pub fn add_references(&mut self, names: &[u32])
        requires { AddWalking self.old × Below (length (records_of self.old.sheet.words.now)) names.now }
        ensures { Walks self.old names.now self.new }
    {
        for r in names {
            self.add_expr(*r as usize);
        }
    }

    // Adds what these interactions name: of each its fields, then its count.
    pub fn add_each(&mut self, interactions: Interactions)
        requires { AddWalking self.old × Below (length (records_of self.old.sheet.words.now)) (references interactions) }
        ensures { Walks self.old (references interactions.entry) self.new }
    {
        for x in interactions {
            self.add_references(x.fields());
            self.add_expr(x.count() as usize);
        }
    }

    // Adds what all interactions of the sheet name.
    pub fn add_interactions(&mut self)
        requires { AddWalking self.old }
        ensures { Walks self.old (references (read_sheet self.old.sheet.words.now).interactions) self.new }
    {
        self.add_each(self.sheet.interactions())
    }
}
