// The largest offset.
ghost use Rattle.std.specs.Prelude.{◌≡◌, cond, ◌≤◌, eqb, length, drop};
ghost use Rattle.semantics.specs.Sheet.{place};
ghost use Rattle.semantics.specs.Check.{read_records};
ghost use Rattle.sheet_calls.specs.Replies.{largest};

// The offset of a record: only a variable has one.
fn offset_of(kind: u32, c: u32) -> usize
    ensures { result ≡ cond (eqb kind 1) c 0 }
{
    if kind == 1 { c as usize } else { 0 }
}

// The largest offset of the records behind the head.
pub fn largest_offset(s: &[u32], records: usize) -> usize
    requires { place 5 records ≤ length s.now }
    ensures { result ≡ largest (read_records records (drop 4 s.now)) }
{
    let mut most = 0;
    for i in 0..records {
        let q = records::record_at(s, i);
        most = most.max(offset_of(q.kind, q.c));
    }
    most
}
