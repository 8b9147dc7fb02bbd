//! The instructions of a module, each with its map, read and written
//! (docs/architecture.md, "Modules").

ghost use Rattle.std.specs.Prelude.{◌≡◌, ◌++◌, OnOk, IfOk};
ghost use Rattle.rg_spell.specs.Spelling.{four, counted, row_bytes};
ghost use Rattle.rg_spell.specs.Reading.{Gives, row_at, many_at, counted_at};
ghost use Rattle.rg_module.specs.Spelling.{IsSpelt};
ghost use Rattle.rg_module.specs.Spelling as spelling;
ghost use Rattle.rg_module.specs.Inner.Rows.{rows_of, IsBare};

use crate::parts::Module;
use rg_base::{ByteList, Memory};
use rg_code::CodeList;
use rg_spell::{Refusal, Tys, take_row, take_u32, write_row, write_u32};
use std::alloc::Global;

/// Instructions, each with its map.
#[derive(Drop)]
pub(crate) struct Read {
    pub code: CodeList,
    pub maps: Vec<Tys>,
}

// So many instructions.
fn take_many_rows(alloc: Global, count: u32, bytes: &[u8]) -> Result<(Read, &[u8]), Refusal>
    ensures read { Gives (λ x. (rows_of x.0.code x.0.maps.items, x.1.now)) result
        (many_at row_at count bytes.now) }
    ensures bare { IfOk result (λ x. IsBare x.0.code x.0.maps.items) }
{
    let mut code = CodeList::new(alloc);
    let mut maps = Vec::new(alloc);
    let mut rest = bytes;
    for _ in 0..count {
        let (op, map, after) = match take_row(alloc, rest) {
            Ok(row) => row,
            Err(e) => return Err(e),
        };
        let Ok(()) = code.push(op) else {
            return Err(Refusal::Memory);
        };
        let Ok(()) = maps.push(map) else {
            return Err(Refusal::Memory);
        };
        rest = after;
    }
    Ok((Read { code, maps }, rest))
}

/// A count of instructions, and the instructions.
#[tactic(auto, unfolding(rg_spell::specs::Reading::counted_at))]
pub(crate) fn take_rows(alloc: Global, bytes: &[u8]) -> Result<(Read, &[u8]), Refusal>
    ensures read { Gives (λ x. (rows_of x.0.code x.0.maps.items, x.1.now)) result
        (counted_at row_at bytes.now) }
    ensures bare { IfOk result (λ x. IsBare x.0.code x.0.maps.items) }
{
    let Some((count, rest)) = take_u32(bytes) else {
        return Err(Refusal::NotSpelt);
    };
    take_many_rows(alloc, count, rest)
}

/// Appends a count of a module's instructions, and the instructions, each with its map.
pub(crate) fn write_rows(module: &Module, out: &mut ByteList) -> Result<(), Memory>
    requires { IsSpelt «module».now }
    ensures { OnOk result (out.new ≡ out.old ++ counted row_bytes (spelling.rows_of «module».now)) }
{
    let count = module.op_count();
    write_u32(count as u32, out)?;
    for at in 0..count {
        write_row(module.op_at(at), module.map_at(at), out)?;
    }
    Ok(())
}
