// Packing and unpacking: from a record to a packed variable, and back.
#![tactic(auto)]

ghost use Rattle.std.specs.Prelude.{◌≡◌};
ghost use Rattle.semantics.specs.Packing.{unpacked};
ghost use Rattle.semantics.specs.Call.{pack_call, unpack_call};
ghost use Rattle.packed_var.specs.Packed.{packed_outcome};
ghost use Rattle.records.specs.Access.{five_words};
ghost use Rattle.packing.specs.Leaves.{unpacked_outcome};

use answers::{Reason, Refusal};
use leaf::Leaf;
use packed_var::PackedVar;
use records::Record;

mod leaf;

// The packed number of the variable or row mark that a record encodes.
pub fn pack(q: Record) -> Result<PackedVar, Refusal>
    ensures { packed_outcome result ≡ pack_call (five_words q) }
{
    let read = leaf::leaf_of(q);
    let Ok(leaf) = read else {
        return Err(read.unwrap_err());
    };
    match leaf {
        Leaf::Variable(var) => PackedVar::from_symbolic_var(var),
        Leaf::IsFirstRow => Ok(PackedVar::is_first()),
        Leaf::IsLastRow => Ok(PackedVar::is_last()),
        Leaf::IsTransition => Ok(PackedVar::is_transition()),
    }
}

// The record whose words the bits of a packed variable are.
fn words_of(v: PackedVar) -> Record
    ensures { five_words result ≡ unpacked v.0 }
{
    let n = v.0;
    if 8 <= n % 16 {
        return Record {
            kind: n % 16 - 6,
            a: 0,
            b: 0,
            c: 0,
            d: 0,
        };
    }
    Record {
        kind: 1,
        a: n % 16,
        b: n / 16 % 256,
        c: n / 4096 % 16,
        d: n / 65536,
    }
}

// The refusal of a number that no record packs to.
const NOT_PACKED: Refusal = Refusal {
    reason: Reason::WrongRecord,
    place: 0,
};

// The record that packs to a number, where there is one.
pub fn unpack(v: PackedVar) -> Result<Record, Refusal>
    ensures { unpacked_outcome result ≡ unpack_call v.0 }
{
    let words = words_of(v);
    let Ok(again) = pack(words) else {
        return Err(NOT_PACKED);
    };
    if again == v {
        return Ok(words);
    }
    Err(NOT_PACKED)
}
