// The rules of `add_expr` on built children, in the order of the Rust.
ghost use Rattle.std.specs.Prelude.{◌≡◌};
ghost use Rattle.semantics.specs.Arithmetic.{prime};
ghost use Rattle.semantics.specs.Graph.{make, add_rule, sub_rule, neg_rule, mul_rule};
ghost use Rattle.records.specs.Nodes.{shown_node, record_with};
ghost use Rattle.nodes.specs.Picks.{pick_of};

use records::{Node, Record};

// A built child: its number, and its node.
#[derive(Clone, Copy)]
pub struct Child {
    pub number: u32,
    pub node: Node,
}

// A node that is there, or one to look for or append.
#[derive(Clone, Copy)]
pub enum Pick {
    Present(u32),
    Make(Record),
}

// A node to look for or append.
fn make_node(node: Node, degree: u32) -> Pick
    ensures { pick_of result ≡ make (record_with node degree) }
{
    Pick::Make(node.record(degree))
}

#[tactic(auto, unfolding(semantics::specs::Graph::add_rule, semantics::specs::Graph::if_constants, semantics::specs::Graph::is_const, semantics::specs::Graph::if_neg))]
pub fn add_rule(l: Child, r: Child, g: u32) -> Pick
    ensures { pick_of result ≡ add_rule prime l.number r.number (shown_node l.node) (shown_node r.node) g }
{
    match (l.node, r.node) {
        (Node::Constant(a), Node::Constant(b)) => make_node(Node::Constant(field::add(a, b)), 0),
        (Node::Constant(0), _) => Pick::Present(r.number),
        (_, Node::Constant(0)) => Pick::Present(l.number),
        (_, Node::Neg(y)) => make_node(Node::Sub(l.number, y), g),
        _ => make_node(Node::Add(l.number, r.number), g),
    }
}

#[tactic(auto, unfolding(semantics::specs::Graph::sub_rule, semantics::specs::Graph::if_constants, semantics::specs::Graph::is_const, semantics::specs::Graph::if_neg))]
pub fn sub_rule(l: Child, r: Child, g: u32) -> Pick
    ensures { pick_of result ≡ sub_rule prime l.number r.number (shown_node l.node) (shown_node r.node) g }
{
    match (l.node, r.node) {
        (Node::Constant(a), Node::Constant(b)) => make_node(Node::Constant(field::sub(a, b)), 0),
        (_, Node::Constant(0)) => Pick::Present(l.number),
        (_, Node::Neg(y)) => make_node(Node::Add(l.number, y), g),
        _ => make_node(Node::Sub(l.number, r.number), g),
    }
}

#[tactic(auto, unfolding(semantics::specs::Graph::neg_rule, semantics::specs::Graph::if_constants))]
pub fn neg_rule(x: Child, g: u32) -> Pick
    ensures { pick_of result ≡ neg_rule prime x.number (shown_node x.node) g }
{
    match x.node {
        Node::Constant(a) => make_node(Node::Constant(field::neg(a)), 0),
        _ => make_node(Node::Neg(x.number), g),
    }
}

#[tactic(auto, unfolding(semantics::specs::Graph::mul_rule, semantics::specs::Graph::if_constants, semantics::specs::Graph::is_const))]
pub fn mul_rule(l: Child, r: Child, g: u32) -> Pick
    ensures { pick_of result ≡ mul_rule prime l.number r.number (shown_node l.node) (shown_node r.node) g }
{
    match (l.node, r.node) {
        (Node::Constant(a), Node::Constant(b)) => make_node(Node::Constant(field::mul(a, b)), 0),
        (Node::Constant(0), _) | (_, Node::Constant(1)) => Pick::Present(l.number),
        (_, Node::Constant(0)) | (Node::Constant(1), _) => Pick::Present(r.number),
        _ => make_node(Node::Mul(l.number, r.number), g),
    }
}
