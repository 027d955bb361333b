// The graph of a checked sheet.
ghost use Rattle.std.specs.Prelude.{◌≡◌, length};
ghost use Rattle.graph_lists.specs.Lists.{graph_out, graph_length};
ghost use Rattle.dag.specs.Calls.{Starting};

use graph_walk::Walk;
use records::CheckedSheet;

// Adds what the constraints name, then what the interactions name, and writes the lists; hands back how many words the graph has.
pub fn build_graph(sheet: CheckedSheet, scratch: &mut [u32], out: &mut [u32]) -> usize
    requires { Starting sheet.words.now scratch.old out.old }
    ensures { (out.new ≡ graph_out (length out.old) sheet.entry.words.now) × (result ≡ graph_length sheet.entry.words.now) }
{
    let mut walk = Walk::new(sheet, scratch, out, 0);
    walk.add_references(sheet.constraints());
    walk.add_each(sheet.interactions());
    let n = walk.count();
    graph_lists::write_graph(sheet, scratch, out, n)
}
