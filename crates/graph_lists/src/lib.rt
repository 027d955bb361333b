// The lists of the finished graph, behind its nodes.
#![tactic(auto)]

ghost use Rattle.std.specs.Prelude.{◌≡◌, pred, ◌+◌, ◌%◌, ◌≤◌, ◌<◌, length, get_or, set};
ghost use Rattle.semantics.specs.Check.{read_interaction, read_sheet};
ghost use Rattle.records.specs.Named.{references_of, references};
ghost use Rattle.nodes.specs.Memory.{tabulate};
ghost use Rattle.slices.specs.Putting.{put, Puts};
ghost use Rattle.graph_lists.specs.Lists.{flag_word, plain_below, flagged, flagged_among, node_numbers, marks_of, NodesNamed};
ghost use Rattle.graph_lists.specs.Lists.{renamed_words, renamed_all, ToWriteLists, graph_out, graph_length};

use records::{CheckedSheet, Interaction};

// Above every mark: a mark is a node's number counted from 1.
const FLAG: u32 = 65536;

// The node of a record, flagged or not.
fn node_number(scratch: &[u32], r: usize) -> usize
    requires { (r < length scratch.now) × (0 < get_or scratch.now r 0 % 65536) }
    ensures { result ≡ pred (get_or scratch.now r 0 % 65536) }
{
    (scratch[r] % FLAG - 1) as usize
}

// Flags a node that has no flag.
#[tactic(auto, using(crate::proofs::Flags::flag_new, crate::proofs::Flags::flag_kept))]
fn flag_node(scratch: &mut [u32], node: usize)
    requires { node < length scratch.old }
    ensures { scratch.new ≡ set scratch.old node (flag_word (get_or scratch.old node 0)) }
{
    if scratch[node] < FLAG {
        scratch[node] += FLAG;
    }
}

// Flags the nodes of the records that are named.
fn flag_nodes(names: &[u32], scratch: &mut [u32])
    requires { NodesNamed names.now scratch.old }
    ensures { scratch.new ≡ tabulate 0 (length scratch.old)
        (flagged (marks_of scratch.old) (node_numbers (marks_of scratch.old) names.now)) }
{
    for r in names {
        let node = node_number(scratch, *r as usize);
        flag_node(scratch, node);
    }
}

// Writes the flagged nodes in ascending order from `at` on, takes their flags off, and hands back where the output goes on.
fn write_flagged(scratch: &mut [u32], nodes: usize, out: &mut [u32], at: usize) -> usize
    requires { (nodes ≤ length scratch.old) × (nodes < 4294967296) × (at + length (flagged_among 0 nodes scratch.old) ≤ length out.old) }
    ensures { (scratch.new ≡ tabulate 0 (length scratch.old) (plain_below nodes scratch.old))
        × Puts out.old at (flagged_among 0 nodes scratch.old) out.new result }
{
    let mut next = at;
    for node in 0..nodes {
        if scratch[node] >= FLAG {
            scratch[node] -= FLAG;
            out[next] = node as u32;
            next += 1;
        }
    }
    next
}

// Writes from `to` on the nodes of the records that are named.
fn write_references(names: &[u32], scratch: &[u32], out: &mut [u32], to: usize)
    requires { NodesNamed names.now scratch.now × (to + length names.now ≤ length out.old) }
    ensures { out.new ≡ put out.old to (node_numbers (marks_of scratch.now) names.now) }
{
    for (j, r) in names.iter().enumerate() {
        out[to + j] = node_number(scratch, *r as usize) as u32;
    }
}

// Writes an interaction with its references turned into nodes, and hands back where the output goes on.
fn write_interaction(x: &Interaction, scratch: &[u32], out: &mut [u32], to: usize) -> usize
    requires { NodesNamed (references_of (read_interaction x.now.words.now)) scratch.now
        × (to + (4 + length (read_interaction x.now.words.now).message) ≤ length out.old) }
    ensures { Puts out.old to (renamed_words scratch.now (read_interaction x.now.words.now)) out.new result }
{
    let count = node_number(scratch, x.count() as usize) as u32;
    let fields = x.write_front(count, out, to);
    write_references(x.fields(), scratch, out, fields);
    to + x.word_count()
}

// Writes all interactions of the sheet, and hands back where the output goes on.
fn write_interactions(sheet: CheckedSheet, scratch: &[u32], out: &mut [u32], to: usize) -> usize
    requires { NodesNamed (references (read_sheet sheet.words.now).interactions) scratch.now
        × (to + length (renamed_all scratch.now (read_sheet sheet.words.now).interactions) ≤ length out.old) }
    ensures { Puts out.old to (renamed_all scratch.now (read_sheet sheet.entry.words.now).interactions)
        out.new result }
{
    let mut next = to;
    for x in sheet.interactions() {
        next = write_interaction(&x, scratch, out, next);
    }
    next
}

// Writes the constraints and interactions behind the nodes, and the head; hands back how many words the graph has.
pub fn write_graph(sheet: CheckedSheet, scratch: &mut [u32], out: &mut [u32], n: usize) -> usize
    requires { ToWriteLists sheet.words.now scratch.old out.old n }
    ensures { (out.new ≡ graph_out (length out.old) sheet.entry.words.now) × (result ≡ graph_length sheet.entry.words.now) }
{
    flag_nodes(sheet.constraints(), scratch);
    let to = records::records_end(n);
    let next = write_flagged(scratch, n, out, to);
    let interactions = sheet.num_interactions();
    let end = write_interactions(sheet, scratch, out, next);
    records::put_head(out, n, next - to, interactions);
    end
}
