// What `sheetlist` prints, step by step; a refusal ends the output.
#![tactic(auto)]

ghost use Rattle.std.specs.Prelude.{◌≡◌, List, ℕ, ◌<◌, length, IfOk, IfSome, OnOk};
ghost use Rattle.std.specs.Io.KnownBytes.{Appends};
ghost use Rattle.semantics.specs.Arithmetic.{prime};
ghost use Rattle.semantics.specs.Call.{padded};
ghost use Rattle.semantics.specs.Sheetlist.{interaction_step, constraint_step, graph_lines, sheet_lines, sheetlist};
ghost use Rattle.semantics.specs.Check.{prime_of};
ghost use Rattle.listing.specs.Putting.{Room, Writes};
ghost use Rattle.sheet_listing.specs.Fronts.{front_lines, Fronts};
ghost use Rattle.sheet_listing.specs.Inputs.{ReadOf};

use answers::{Reason, Refusal};
use grouping::{Family, Lengths};
use listing::headers::Lists;
use listing::output::Out;
use std::io;
use std::io::{Read, Write};

// What a family's lists print, as far as they are written.
fn put_lists(out: &mut Out, family: Family, n: Lengths, lists: Lists)
    requires { Fronts family n lists.headers.now lists.variables.now lists.terms.now
        × Room out.old (front_lines family n lists.headers.now lists.variables.now lists.terms.now) }
    ensures { Writes out.old
        (front_lines family n lists.entry.headers.now lists.entry.variables.now lists.entry.terms.now) out.new }
{
    let written = Lists {
        headers: &lists.headers[..n.headers],
        variables: &lists.variables[..n.variables],
        terms: &lists.terms[..n.terms],
    };
    out.put_headers(family, written)
}

// What the graph's interactions print.
fn put_interactions(out: &mut Out, graph: &[u32])
    requires { Room out.old (interaction_step (prime_of graph.now) graph.now) }
    ensures { Writes out.old (interaction_step (prime_of graph.now) graph.now) out.new }
{
    let mut work = [0u32; 4096];
    let mut pool = [0u32; 4096];
    let mut headers = [0u32; 512];
    let mut variables = [0u32; 512];
    let mut terms = [0u32; 512];
    let mut denom_headers = [0u32; 512];
    let mut denom_variables = [0u32; 512];
    let mut denom_terms = [0u32; 512];
    let lists = expansion::expand_interactions(
        graph,
        &mut work,
        &mut pool,
        &mut headers,
        &mut variables,
        &mut terms,
        &mut denom_headers,
        &mut denom_variables,
        &mut denom_terms,
    );
    let Ok(n) = lists else {
        return out.put_refused(b"inter", lists.unwrap_err());
    };
    let numerators = Lists {
        headers: &headers,
        variables: &variables,
        terms: &terms,
    };
    let denominators = Lists {
        headers: &denom_headers,
        variables: &denom_variables,
        terms: &denom_terms,
    };
    put_lists(out, Family::Counts, n.numerators, numerators);
    put_lists(out, Family::Fields, n.denominators, denominators);
    out.put_end()
}

// What the graph's constraints print, and what comes after them.
fn put_constraints(out: &mut Out, graph: &[u32])
    requires { Room out.old (constraint_step (prime_of graph.now) graph.now) }
    ensures { Writes out.old (constraint_step (prime_of graph.now) graph.now) out.new }
{
    let mut work = [0u32; 4096];
    let mut pool = [0u32; 4096];
    let mut headers = [0u32; 1024];
    let mut variables = [0u32; 1024];
    let mut terms = [0u32; 1024];
    let lists = expansion::expand_constraints(
        graph,
        &mut work,
        &mut pool,
        &mut headers,
        &mut variables,
        &mut terms,
    );
    let Ok(n) = lists else {
        return out.put_refused(b"cons", lists.unwrap_err());
    };
    let constraints = Lists {
        headers: &headers,
        variables: &variables,
        terms: &terms,
    };
    put_lists(out, Family::Constraints, n, constraints);
    put_interactions(out, graph)
}

// What a graph prints: its numbers, then its lists.
fn put_graph(out: &mut Out, graph: &[u32])
    requires { (2 < length graph.now) × Room out.old (graph_lines (prime_of graph.now) graph.now) }
    ensures { Writes out.old (graph_lines (prime_of graph.now) graph.now) out.new }
{
    let rotated = sheet_calls::max_rotation(graph);
    let Ok(rotation) = rotated else {
        return out.put_refused(b"dag", rotated.unwrap_err());
    };
    out.put_dag_line(graph[1], graph[2], rotation);
    put_constraints(out, graph)
}

// What a sheet prints: its graph.
fn put_sheet(out: &mut Out, sheet: &[u32])
    requires { Room out.old (sheet_lines (prime_of sheet.now) sheet.now) }
    ensures { Writes out.old (sheet_lines (prime_of sheet.now) sheet.now) out.new }
{
    let mut scratch = [0u32; 1016];
    let mut graph = [0u32; 1016];
    let built = dag::build(sheet, &mut scratch, &mut graph);
    let Ok(n) = built else {
        return out.put_refused(b"dag", built.unwrap_err());
    };
    put_graph(out, &graph[..n])
}

// The refusal of more bytes than are taken.
const TOO_MANY_BYTES: Refusal = Refusal {
    reason: Reason::WrongLength,
    place: 0,
};

// What bytes print: the sheet that is read from them.
fn put_bytes(out: &mut Out, bytes: &[u8])
    requires { Room out.old (sheetlist prime bytes.now) }
    ensures { Writes out.old (sheetlist prime bytes.now) out.new }
{
    if 4096 < bytes.len() {
        return out.put_refused(b"read", TOO_MANY_BYTES);
    }
    let mut sheet = [0u32; 1016];
    let read = block_reader::read_blocks(bytes, &mut sheet);
    let Ok(n) = read else {
        return out.put_refused(b"read", read.unwrap_err());
    };
    put_sheet(out, &sheet[..n])
}

// The bytes that `sheetlist` prints for an input go to the front of `out`, with zeros behind them; their number is handed back.
pub fn list_sheet(bytes: &[u8], out: &mut [u8; 65536]) -> usize
    ensures { (out.new ≡ padded (sheetlist prime bytes.now) 65536) × (result ≡ length (sheetlist prime bytes.now)) }
{
    let mut text = Out::new(out);
    put_bytes(&mut text, bytes);
    let printed = text.count();
    slices::fill_from(out, printed, 0);
    printed
}

// The same for an input of which n bytes were read: all of it, or as much as the buffer takes.
pub fn list_read(buffer: &[u8; 4097], n: usize, out: &mut [u8; 65536]) -> usize
    ensures { (input : List ℕ) → ReadOf buffer.now n input
        → (out.new ≡ padded (sheetlist prime input) 65536) × (result ≡ length (sheetlist prime input)) }
{
    list_sheet(&buffer[..n.min(buffer.len())], out)
}

// Reads until the buffer is full or the input ends, and hands back how many bytes went to the buffer's front.
fn read_front<R: Read>(input: &mut R, buffer: &mut [u8]) -> io::Result<usize>
    ensures { IfOk result (λ n. IfSome (R.remaining input.old) (λ bytes. ReadOf buffer.new n bytes)) }
{
    let mut n: usize = 0;
    while n < buffer.len() {
        let more = input.read(&mut buffer[n..])?;
        if more == 0 {
            return Ok(n);
        }
        n += more;
    }
    Ok(n)
}

// Lists an input to an output: where the bytes of the input are known, all of what `sheetlist` prints for them is written.
pub fn list_input<R: Read, W: Write>(input: &mut R, output: &mut W) -> io::Result<()>
    ensures { OnOk result (IfSome (R.remaining input.old) (λ bytes.
        Appends (W.contents output.old) (W.contents output.new) (sheetlist prime bytes))) }
{
    let mut buffer = [0u8; 4097];
    let n = read_front(input, &mut buffer)?;
    let mut out = [0u8; 65536];
    let printed = list_read(&buffer, n, &mut out);
    output.write_all(&out[..printed])
}
