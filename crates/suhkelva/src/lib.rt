// Every entry point of the C library. include/suhkelva.h tells C of them.
#![tactic(auto)]

ghost use Rattle.std.specs.Prelude.{[], ◌∷◌};
ghost use Rattle.semantics.specs.Sheet.{record_of};
ghost use Rattle.semantics.specs.Check.{prime_of};
ghost use Rattle.semantics.specs.Call.{Handed, block_check_call, pack_call, unpack_call, check_call, max_rotation_call, num_constraints_call, conversion_call, Returns};
ghost use Rattle.semantics.specs.Call.{reader_call, writer_call, builder_call, constraint_call, interaction_call};
ghost use Rattle.c_replies.specs.Fields.{packed_fields, record_fields, block_fields, sheet_fields, number_fields, written_fields};
ghost use Rattle.c_list_replies.specs.Fields.{list_fields, interaction_list_fields};

use c_list_replies::{SuhkelvaInteractionLists, SuhkelvaLists};
use c_replies::{
    SuhkelvaBlock, SuhkelvaNumber, SuhkelvaPacked, SuhkelvaRecord, SuhkelvaSheet, SuhkelvaWritten,
};
use packed_var::PackedVar;
use records::Record;

#[unsafe(no_mangle)]
pub extern "C" fn suhkelva_pack(kind: u32, a: u32, b: u32, c: u32, d: u32) -> SuhkelvaPacked
    ensures { Handed packed_fields result [] (pack_call (record_of kind a b c d)) }
{
    c_replies::packed_fields(packing::pack(Record { kind, a, b, c, d }))
}

#[unsafe(no_mangle)]
pub extern "C" fn suhkelva_unpack(packed: u32) -> SuhkelvaRecord
    ensures { Handed record_fields result [] (unpack_call packed) }
{
    c_replies::record_fields(packing::unpack(PackedVar(packed)))
}

#[unsafe(no_mangle)]
pub extern "C" fn suhkelva_block_check(bytes: &[u8], number: u32) -> SuhkelvaBlock
    ensures { Handed block_fields result [] (block_check_call bytes.now number) }
{
    c_replies::block_fields(block::block_check(bytes, number))
}

#[unsafe(no_mangle)]
pub extern "C" fn suhkelva_check_sheet(s: &[u32]) -> SuhkelvaSheet
    ensures { Handed sheet_fields result [] (check_call (prime_of s.now) s.now) }
{
    sheet::check_sheet(s).into()
}

#[unsafe(no_mangle)]
pub extern "C" fn suhkelva_max_rotation(s: &[u32]) -> SuhkelvaNumber
    ensures { Handed number_fields result [] (max_rotation_call (prime_of s.now) s.now) }
{
    sheet_calls::max_rotation(s).into()
}

#[unsafe(no_mangle)]
pub extern "C" fn suhkelva_num_constraints(s: &[u32]) -> SuhkelvaNumber
    ensures { Handed number_fields result [] (num_constraints_call (prime_of s.now) s.now) }
{
    sheet_calls::num_constraints(s).into()
}

#[unsafe(no_mangle)]
pub extern "C" fn suhkelva_convert(s: &[u32], out: &mut [u32]) -> SuhkelvaWritten
    ensures { Returns written_fields result (out ∷ []) (conversion_call (prime_of s.now) s.now) }
{
    sheet_calls::convert(s, out).into()
}

#[unsafe(no_mangle)]
pub extern "C" fn suhkelva_read_blocks(bytes: &[u8], out: &mut [u32]) -> SuhkelvaWritten
    ensures { Returns written_fields result (out ∷ []) (reader_call bytes.now) }
{
    block_reader::read_blocks(bytes, out).into()
}

#[unsafe(no_mangle)]
pub extern "C" fn suhkelva_write_blocks(s: &[u32], out: &mut [u8]) -> SuhkelvaWritten
    ensures { Returns written_fields result (out ∷ []) (writer_call (prime_of s.now) s.now) }
{
    block_writer::write_blocks(s, out).into()
}

#[unsafe(no_mangle)]
pub extern "C" fn suhkelva_build(s: &[u32], scratch: &mut [u32], out: &mut [u32]) -> SuhkelvaWritten
    ensures { Returns written_fields result (scratch ∷ out ∷ []) (builder_call (prime_of s.now) s.now) }
{
    dag::build(s, scratch, out).into()
}

#[unsafe(no_mangle)]
pub extern "C" fn suhkelva_expand_constraints(
    s: &[u32],
    work: &mut [u32],
    pool: &mut [u32],
    headers: &mut [u32],
    variables: &mut [u32],
    terms: &mut [u32],
) -> SuhkelvaLists
    ensures { Returns list_fields result (work ∷ pool ∷ headers ∷ variables ∷ terms ∷ [])
        (constraint_call (prime_of s.now) s.now) }
{
    expansion::expand_constraints(s, work, pool, headers, variables, terms).into()
}

#[unsafe(no_mangle)]
pub extern "C" fn suhkelva_expand_interactions(
    s: &[u32],
    work: &mut [u32],
    pool: &mut [u32],
    headers: &mut [u32],
    variables: &mut [u32],
    terms: &mut [u32],
    denom_headers: &mut [u32],
    denom_variables: &mut [u32],
    denom_terms: &mut [u32],
) -> SuhkelvaInteractionLists
    ensures { Returns interaction_list_fields result
        (work ∷ pool ∷ headers ∷ variables ∷ terms ∷ denom_headers ∷ denom_variables ∷ denom_terms ∷ [])
        (interaction_call (prime_of s.now) s.now) }
{
    let lists = expansion::expand_interactions(
        s,
        work,
        pool,
        headers,
        variables,
        terms,
        denom_headers,
        denom_variables,
        denom_terms,
    );
    lists.into()
}
