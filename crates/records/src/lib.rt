// Record access: the one place that knows what a record's words mean, and where records, constraints and interactions stand in a sheet.
#![tactic(auto)]

ghost use Rattle.std.specs.Prelude.{◌≡◌, [], ◌∷◌, ◌+◌, ◌^◌, ◌≤◌, ◌<◌, length, slice_get};
ghost use Rattle.std.proofs.lemmas.List.Edits.{sets};
ghost use Rattle.semantics.specs.Sheet.{record_words, place};
ghost use Rattle.semantics.specs.Check.{read_sheet};
ghost use Rattle.semantics.specs.Value.{node_of};
ghost use Rattle.semantics.specs.Walk.{children};
ghost use Rattle.semantics.specs.Graph.{equal_records};
ghost use Rattle.records.specs.Access.{IsSheet, five_words, node_in, records_of, constraints_at, interactions_at};
ghost use Rattle.records.specs.Nodes.{shown_node, record_with, CarriesLeaf};

pub mod interactions;

pub use interactions::{Interaction, interaction_at};

// A record as five words.
#[derive(Clone, Copy, Debug, PartialEq, Eq)]
pub struct Record {
    pub kind: u32,
    pub a: u32,
    pub b: u32,
    pub c: u32,
    pub d: u32,
}

// What a record is: a leaf, with its record; a constant, with its value; or what is made of its children.
#[derive(Clone, Copy, Debug, PartialEq, Eq)]
pub enum Node {
    Leaf(Record),
    Constant(u32),
    Add(u32, u32),
    Sub(u32, u32),
    Neg(u32),
    Mul(u32, u32),
}

impl Record {
    // What the record is, by its kind.
    #[tactic(auto, unfolding(semantics::specs::Value::node_of))]
    pub fn node(self) -> Node
        ensures { (shown_node result ≡ node_of (five_words self)) × CarriesLeaf result self }
    {
        match self.kind {
            5 => Node::Constant(self.a),
            6 => Node::Add(self.a, self.b),
            7 => Node::Sub(self.a, self.b),
            8 => Node::Neg(self.a),
            9 => Node::Mul(self.a, self.b),
            _ => Node::Leaf(self),
        }
    }
}

impl Node {
    // The record that is this node, with that degree where it has children.
    pub fn record(self, degree: u32) -> Record
        ensures { five_words result ≡ record_with self degree }
    {
        let (kind, a, b, c) = match self {
            Node::Leaf(r) => return r,
            Node::Constant(k) => (5, k, 0, 0),
            Node::Add(l, r) => (6, l, r, degree),
            Node::Sub(l, r) => (7, l, r, degree),
            Node::Neg(x) => (8, x, 0, degree),
            Node::Mul(l, r) => (9, l, r, degree),
        };
        Record {
            kind,
            a,
            b,
            c,
            d: 0,
        }
    }

    // Its i-th child: the left one, then the right one; a Neg has one.
    #[tactic(auto, unfolding(semantics::specs::Walk::children))]
    pub fn child(self, i: usize) -> Option<u32>
        ensures { result ≡ slice_get (children (shown_node self)) i }
    {
        match (self, i) {
            (Node::Add(x, _) | Node::Sub(x, _) | Node::Neg(x) | Node::Mul(x, _), 0) => Some(x),
            (Node::Add(_, y) | Node::Sub(_, y) | Node::Mul(_, y), 1) => Some(y),
            _ => None,
        }
    }
}

// Where the first n records end, and record n starts.
#[tactic(auto, unfolding(semantics::specs::Sheet::place))]
pub fn records_end(n: usize) -> usize
    requires { place 5 n < 2 ^ 63 }
    ensures { result ≡ place 5 n }
{
    4 + 5 * n
}

// The five words of record r.
#[tactic(auto, unfolding(semantics::specs::Sheet::place))]
pub fn record_at(sheet: &[u32], r: usize) -> Record
    requires { place 5 r + 5 ≤ length sheet.now }
    ensures { five_words result ≡ node_in sheet.now r }
{
    let at = 4 + 5 * r;
    Record {
        kind: sheet[at],
        a: sheet[at + 1],
        b: sheet[at + 2],
        c: sheet[at + 3],
        d: sheet[at + 4],
    }
}

// The i-th child of record r.
pub fn child_at(sheet: &[u32], r: usize, i: usize) -> Option<usize>
    requires { place 5 r + 5 ≤ length sheet.now }
    ensures { result ≡ slice_get (children (node_of (node_in sheet.now r))) i }
{
    let child = record_at(sheet, r).node().child(i)?;
    Some(child as usize)
}

// Whether record r is equal to q in all five words.
#[tactic(auto, using(crate::proofs::Writing::equal_words))]
pub fn same_record(out: &[u32], r: usize, q: Record) -> bool
    requires { place 5 r + 5 ≤ length out.now }
    ensures { result ≡ equal_records (five_words q) (node_in out.now r) }
{
    q == record_at(out, r)
}

// Writes q as record r.
pub fn put_record(out: &mut [u32], r: usize, q: Record)
    requires { place 5 r + 5 ≤ length out.old }
    ensures { out.new ≡ sets out.old (place 5 r) (record_words (five_words q)) }
{
    let at = records_end(r);
    out[at] = q.kind;
    out[at + 1] = q.a;
    out[at + 2] = q.b;
    out[at + 3] = q.c;
    out[at + 4] = q.d;
}

// Writes the head of a sheet with so many records, constraints and interactions.
pub fn put_head(out: &mut [u32], records: usize, constraints: usize, interactions: usize)
    requires { (4 ≤ length out.old) × (records < 2 ^ 32) × (constraints < 2 ^ 32) × (interactions < 2 ^ 32) }
    ensures { out.new ≡ sets out.old 0 (1 ∷ records ∷ constraints ∷ interactions ∷ []) }
{
    out[0] = 1;
    out[1] = records as u32;
    out[2] = constraints as u32;
    out[3] = interactions as u32;
}

// The words of a sheet that passes the check.
#[derive(Clone, Copy)]
pub struct CheckedSheet<'a> {
    pub words: &'a [u32],
    ghost checked: { IsSheet words.now },
}

impl<'a> CheckedSheet<'a> {
    // How many records it has.
    pub fn num_records(self) -> usize
        ensures { result ≡ length (records_of self.entry.words.now) }
    {
        self.words[1] as usize
    }

    // How many constraints.
    pub fn num_constraints(self) -> usize
        ensures { result ≡ length (read_sheet self.entry.words.now).constraints }
    {
        self.words[2] as usize
    }

    // How many interactions.
    pub fn num_interactions(self) -> usize
        ensures { result ≡ length (read_sheet self.entry.words.now).interactions }
    {
        self.words[3] as usize
    }

    // Where the constraints start.
    pub fn constraints_at(self) -> usize
        ensures { result ≡ constraints_at self.entry.words.now }
    {
        records_end(self.num_records())
    }

    // Where the interactions start.
    pub fn interactions_at(self) -> usize
        ensures { result ≡ interactions_at self.entry.words.now }
    {
        self.constraints_at() + self.num_constraints()
    }

    // The constraints, each the name of a record.
    pub fn constraints(self) -> &'a [u32]
        ensures { result.now ≡ (read_sheet self.entry.words.now).constraints }
    {
        &self.words[self.constraints_at()..self.interactions_at()]
    }
}
