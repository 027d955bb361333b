// A reply for C: its number, its place, and its counts or numbers, 0 where it has none.
#![tactic(auto)]

ghost use Rattle.std.specs.Prelude.{◌≡◌, ◌≤◌};
ghost use Rattle.packed_var.specs.Packed.{packed_reply};
ghost use Rattle.packing.specs.Leaves.{unpacked_reply};
ghost use Rattle.block.specs.Checked.{block_reply};
ghost use Rattle.c_replies.specs.Fields.{packed_fields, record_fields, block_fields};

use answers::Refusal;
use packed_var::PackedVar;
use records::Record;
use sheet::Head;

#[repr(C)]
#[derive(Clone, Copy, Default)]
pub struct SuhkelvaPacked {
    pub number: u32,
    pub place: u32,
    pub packed: u32,
}

#[repr(C)]
#[derive(Clone, Copy, Default)]
pub struct SuhkelvaRecord {
    pub number: u32,
    pub place: u32,
    pub kind: u32,
    pub a: u32,
    pub b: u32,
    pub c: u32,
    pub d: u32,
}

#[repr(C)]
#[derive(Clone, Copy, Default)]
pub struct SuhkelvaBlock {
    pub number: u32,
    pub place: u32,
    pub good: u32,
}

#[repr(C)]
#[derive(Clone, Copy, Default)]
pub struct SuhkelvaSheet {
    pub number: u32,
    pub place: u64,
    pub records: u64,
    pub constraints: u64,
    pub interactions: u64,
    pub words: u64,
    pub start: u64,
}

#[repr(C)]
#[derive(Clone, Copy, Default)]
pub struct SuhkelvaNumber {
    pub number: u32,
    pub place: u64,
    pub value: u64,
}

#[repr(C)]
#[derive(Clone, Copy, Default)]
pub struct SuhkelvaWritten {
    pub number: u32,
    pub place: u64,
    pub count: u64,
}

// Three replies have a place of 32 bits. The caller shows that it fits, which a `From` cannot ask.
#[tactic(auto, unfolding(crate::specs::Fields::packed_fields))]
pub fn packed_fields(packed: Result<PackedVar, Refusal>) -> SuhkelvaPacked
    requires { (packed_reply packed).place ≤ 4294967295 }
    ensures { result ≡ packed_fields (packed_reply packed) }
{
    match packed {
        Ok(v) => SuhkelvaPacked {
            packed: v.0,
            ..Default::default()
        },
        Err(r) => SuhkelvaPacked {
            number: r.reason.number(),
            place: r.place as u32,
            ..Default::default()
        },
    }
}

#[tactic(auto, unfolding(crate::specs::Fields::record_fields))]
pub fn record_fields(unpacked: Result<Record, Refusal>) -> SuhkelvaRecord
    requires { (unpacked_reply unpacked).place ≤ 4294967295 }
    ensures { result ≡ record_fields (unpacked_reply unpacked) }
{
    match unpacked {
        Ok(w) => SuhkelvaRecord {
            kind: w.kind,
            a: w.a,
            b: w.b,
            c: w.c,
            d: w.d,
            ..Default::default()
        },
        Err(r) => SuhkelvaRecord {
            number: r.reason.number(),
            place: r.place as u32,
            ..Default::default()
        },
    }
}

#[tactic(auto, unfolding(crate::specs::Fields::block_fields))]
pub fn block_fields(checked: Result<bool, Refusal>) -> SuhkelvaBlock
    requires { (block_reply checked).place ≤ 4294967295 }
    ensures { result ≡ block_fields (block_reply checked) }
{
    match checked {
        Ok(good) => SuhkelvaBlock {
            good: good as u32,
            ..Default::default()
        },
        Err(r) => SuhkelvaBlock {
            number: r.reason.number(),
            place: r.place as u32,
            ..Default::default()
        },
    }
}

impl From<Result<Head, Refusal>> for SuhkelvaSheet {
    ghost use Rattle.sheet.specs.Replies.{checked_reply};
    ghost use Rattle.c_replies.specs.Fields.{sheet_fields};

    ghost from_gives = { λ checked sheet. sheet ≡ sheet_fields (checked_reply checked) };

    #[tactic(auto, unfolding(crate::specs::Fields::sheet_fields))]
    fn from(checked: Result<Head, Refusal>) -> SuhkelvaSheet {
        match checked {
            Ok(h) => SuhkelvaSheet {
                records: h.records as u64,
                constraints: h.constraints as u64,
                interactions: h.interactions as u64,
                words: h.words as u64,
                start: h.start as u64,
                ..Default::default()
            },
            Err(r) => SuhkelvaSheet {
                number: r.reason.number(),
                place: r.place as u64,
                ..Default::default()
            },
        }
    }
}

impl From<Result<usize, Refusal>> for SuhkelvaNumber {
    ghost use Rattle.answers.specs.Replies.{counted_reply};
    ghost use Rattle.c_replies.specs.Fields.{number_fields};

    ghost from_gives = { λ counted number. number ≡ number_fields (counted_reply counted) };

    #[tactic(auto, unfolding(crate::specs::Fields::number_fields))]
    fn from(counted: Result<usize, Refusal>) -> SuhkelvaNumber {
        match counted {
            Ok(n) => SuhkelvaNumber {
                value: n as u64,
                ..Default::default()
            },
            Err(r) => SuhkelvaNumber {
                number: r.reason.number(),
                place: r.place as u64,
                ..Default::default()
            },
        }
    }
}

impl From<Result<usize, Refusal>> for SuhkelvaWritten {
    ghost use Rattle.answers.specs.Replies.{written_reply};
    ghost use Rattle.c_replies.specs.Fields.{written_fields};

    ghost from_gives = { λ written count. count ≡ written_fields (written_reply written) };

    #[tactic(auto, unfolding(crate::specs::Fields::written_fields))]
    fn from(written: Result<usize, Refusal>) -> SuhkelvaWritten {
        match written {
            Ok(n) => SuhkelvaWritten {
                count: n as u64,
                ..Default::default()
            },
            Err(r) => SuhkelvaWritten {
                number: r.reason.number(),
                place: r.place as u64,
                ..Default::default()
            },
        }
    }
}
