//! Statements without blocks, raised from their code (docs/architecture.md, "Modules").

ghost use Rattle.std.specs.Prelude.{◌≡◌, ◌+◌, ◌<◌, ◌^◌, ℕ, List, length, Some, true};
ghost use Rattle.rg_base.specs.declared.ty.Ty.{Ty as Types};
ghost use Rattle.rg_tree.specs.Adds.{Extends};
ghost use Rattle.rg_verify_expressions.specs.Raised.{Raised, named, Front as OneFront};
ghost use Rattle.rg_verify_expressions.specs.Rows.{IsTree};
ghost use Rattle.rg_verify_expressions.specs.Signs.{target_of, behind_of};
ghost use Rattle.rg_verify_expressions.specs.Statements as statements;
ghost use Rattle.rg_verify_expressions.specs.Statements.{assign};
ghost use Rattle.rg_verify_expressions.specs.Blocks as blocks;
ghost use Rattle.rg_verify_expressions.specs.Blocks.{sign, stored, values_in};
ghost use Rattle.rg_raise.specs.Fronts.{AreFrontRows, AreLeft};
ghost use Rattle.rg_raise.specs.Telling.{given, IsPathTo, MakesAs, MakesOne};
ghost use Rattle.rg_raise.specs.Telling.{IsCallSaid, IsRightSaid, IsKindSaid};

use crate::ends::{behind_dropped, behind_pace};
use crate::fronts::expressions;
use crate::rights::{called, right_behind};
use crate::row_parts::{longer_path, type_row};
use crate::said::{After, CallSaid, Fronts, KindSaid, RightSaid};
use crate::signs::{behind_at, put_at, put_element_at, target_at};
use crate::source::Source;
use crate::types::{slot_type, type_at};
use crate::uses::is_iso;
use rg_base::Ty;
use rg_tree::{Path, Program, Right, StmtKind};
use rg_verify_expressions::{Behind, Body, Refusal, Target, add_name, path_row};

// A value goes into the next slot, whose type the map behind has.
fn declared(
    source: &Source<'_>,
    program: &mut Program,
    slot: u32,
    right: RightSaid,
    end: usize,
) -> Result<KindSaid, Refusal>
    ensures told { (types : List Types) (r : statements.Right) →
        IsRightSaid source.now.body.in_method program.old right r → slot ≡ length types →
        MakesOne (IsKindSaid source.now.body.in_method (length types)) program.old program.new
        (stored (given source.now) types r end slot true) result }
    ensures grows { Extends program.old program.new }
{
    let Some(ty) = slot_type(source.parts, end, slot) else {
        return Err(Refusal::NotRaised);
    };
    let Ok(name) = add_name(source.body.alloc, program, b'v', slot) else {
        return Err(Refusal::Memory);
    };
    let Ok(written) = type_row(source.body, program, ty) else {
        return Err(Refusal::Memory);
    };
    let row = StmtKind::Let {
        name,
        ty: written,
        right: right.row,
    };
    let after = After::More { ty };
    Ok(KindSaid { row, after })
}

// A value goes into a slot that is there.
fn assigned(
    body: Body,
    program: &mut Program,
    slot: u32,
    right: RightSaid,
) -> Result<KindSaid, Refusal>
    ensures told { (n : ℕ) (r : statements.Right) → IsRightSaid body.in_method program.old right r →
        MakesOne (IsKindSaid body.in_method n) program.old program.new (Some (assign slot r))
        result }
    ensures grows { Extends program.old program.new }
{
    let Ok(path) = path_row(body, program, slot, &[]) else {
        return Err(Refusal::Memory);
    };
    let row = StmtKind::Set {
        path,
        right: right.row,
    };
    Ok(KindSaid {
        row,
        after: After::Same,
    })
}

// A value goes into a slot, behind which the statement ends.
fn taken_by(
    source: &Source<'_>,
    program: &mut Program,
    types: &Vec<Ty>,
    right: RightSaid,
    end: usize,
    target: Target,
) -> Result<KindSaid, Refusal>
    ensures told { (r : statements.Right) →
        IsRightSaid source.now.body.in_method program.old right r →
        MakesOne (IsKindSaid source.now.body.in_method (length types.now.items)) program.old
        program.new
        (blocks.taken_by (given source.now) types.now.items r end target) result }
    ensures grows { Extends program.old program.new }
{
    match target {
        Target::Store { slot } => {
            if slot as usize == types.len() {
                return declared(source, program, slot, right, end);
            }
            if is_iso(type_at(types, slot)) {
                return Err(Refusal::NotRaised);
            }
            assigned(source.body, program, slot, right)
        }
        Target::Own { slot } => {
            if is_iso(type_at(types, slot)) {
                return assigned(source.body, program, slot, right);
            }
            Err(Refusal::NotRaised)
        }
    }
}

/// A value goes into a slot.
pub fn taken(
    source: &Source<'_>,
    program: &mut Program,
    types: &Vec<Ty>,
    right: RightSaid,
    at: usize,
) -> Result<(KindSaid, usize), Refusal>
    ensures told { (r : statements.Right) →
        IsRightSaid source.now.body.in_method program.old right r →
        MakesAs (IsKindSaid source.now.body.in_method (length types.now.items)) program.old
        program.new
        (blocks.taken (given source.now) types.now.items r at) result }
    ensures grows { Extends program.old program.new }
{
    let Some(target) = target_at(source.parts.code(), at) else {
        return Err(Refusal::NotRaised);
    };
    let Some(end) = behind_pace(source.parts.code(), right.paces, at + 1) else {
        return Err(Refusal::NotRaised);
    };
    let kind = taken_by(source, program, types, right, end, target)?;
    Ok((kind, end))
}

// A call whose result goes into a slot, or is dropped.
fn call_by(
    source: &Source<'_>,
    program: &mut Program,
    types: &Vec<Ty>,
    call: CallSaid,
    at: usize,
) -> Result<(KindSaid, usize), Refusal>
    ensures told { (c : statements.Call) →
        IsCallSaid source.now.body.in_method program.old call c →
        MakesAs (IsKindSaid source.now.body.in_method (length types.now.items)) program.old
        program.new
        (blocks.call_by (given source.now) types.now.items c at
        (sign target_of source.now.parts.now.code.ops at)) result }
    ensures grows { Extends program.old program.new }
{
    match target_at(source.parts.code(), at) {
        Some(_) => {
            let right = RightSaid {
                row: Right::Call(call.row),
                paces: false,
            };
            taken(source, program, types, right, at)
        }
        None => {
            let Some(end) = behind_dropped(source.parts.code(), call.result, at) else {
                return Err(Refusal::NotRaised);
            };
            let row = StmtKind::Call(call.row);
            let after = After::Same;
            Ok((KindSaid { row, after }, end))
        }
    }
}

// A field is written.
fn written_to(
    source: &Source<'_>,
    program: &mut Program,
    types: &Vec<Ty>,
    path: Path,
    fronts: Fronts,
) -> Result<(KindSaid, usize), Refusal>
    requires path { (s : ℕ) × (ks : List ℕ)
        × IsPathTo program.old source.now.body.in_method path s ks }
    requires left { (fs : List OneFront) ×
        AreLeft program.old source.now.body.in_method source.now.parts.now.code.ops fronts fs }
    ensures told { (s : ℕ) (ks : List ℕ) (fs : List OneFront) →
        IsPathTo program.old source.now.body.in_method path s ks →
        AreLeft program.old source.now.body.in_method source.now.parts.now.code.ops fronts fs →
        MakesAs (IsKindSaid source.now.body.in_method (length types.now.items)) program.old
        program.new
        (blocks.written_to (given source.now) types.now.items s ks fs fronts.code.end)
        result }
    ensures grows { Extends program.old program.new }
{
    let (right, behind) = right_behind(source, program, types, fronts)?;
    let Some(field) = put_at(source.parts.code(), behind) else {
        return Err(Refusal::NotRaised);
    };
    let Some(end) = behind_pace(source.parts.code(), right.paces, behind + 1) else {
        return Err(Refusal::NotRaised);
    };
    let Ok(path) = longer_path(source.body, program, path, field) else {
        return Err(Refusal::Memory);
    };
    let row = StmtKind::Set {
        path,
        right: right.row,
    };
    let after = After::Same;
    Ok((KindSaid { row, after }, end))
}

/// An element is written.
pub fn element_written(
    source: &Source<'_>,
    program: &mut Program,
    types: &Vec<Ty>,
    path: Path,
    index: u32,
    fronts: Fronts,
) -> Result<(KindSaid, usize), Refusal>
    ensures told { (s : ℕ) (ks : List ℕ) (e : Raised) (fs : List OneFront) →
        IsPathTo program.old source.now.body.in_method path s ks →
        IsTree program.old index (named source.now.body.in_method e) →
        AreLeft program.old source.now.body.in_method source.now.parts.now.code.ops fronts fs →
        MakesAs (IsKindSaid source.now.body.in_method (length types.now.items)) program.old
        program.new
        (blocks.element_written (given source.now) types.now.items s ks e fs
        fronts.code.end) result }
    ensures grows { Extends program.old program.new }
{
    let (right, behind) = right_behind(source, program, types, fronts)?;
    let Some(()) = put_element_at(source.parts.code(), behind) else {
        return Err(Refusal::NotRaised);
    };
    let Some(end) = behind_pace(source.parts.code(), right.paces, behind + 1) else {
        return Err(Refusal::NotRaised);
    };
    let row = StmtKind::SetAt {
        path,
        index,
        right: right.row,
    };
    let after = After::Same;
    Ok((KindSaid { row, after }, end))
}

// A field and a variable change places, behind nothing but the object.
fn swap_by(
    body: Body,
    program: &mut Program,
    path: Path,
    fronts: &Fronts,
    slot: u32,
    index: u32,
) -> Result<(KindSaid, usize), Refusal>
    requires path { (s : ℕ) × (ks : List ℕ) × IsPathTo program.old body.in_method path s ks }
    requires next { fronts.now.code.end + 1 < 2 ^ 64 }
    ensures told { (n : ℕ) (s : ℕ) (ks : List ℕ) (fs : List OneFront) →
        IsPathTo program.old body.in_method path s ks →
        AreFrontRows program.old body.in_method fronts.now.rows.items fs →
        MakesAs (IsKindSaid body.in_method n) program.old program.new
        (blocks.swap_by s ks fs slot index fronts.now.code.end) result }
    ensures grows { Extends program.old program.new }
{
    if fronts.rows.len() != 0 {
        return Err(Refusal::NotRaised);
    }
    let Ok(name) = add_name(body.alloc, program, b'v', slot) else {
        return Err(Refusal::Memory);
    };
    let Ok(path) = longer_path(body, program, path, index) else {
        return Err(Refusal::Memory);
    };
    let row = StmtKind::Swap { name, path };
    let after = After::Same;
    Ok((KindSaid { row, after }, fronts.code.end + 1))
}

// Behind `room`: a call on an object, or a field of it is written.
fn room_by(
    source: &Source<'_>,
    program: &mut Program,
    types: &Vec<Ty>,
    path: Path,
    fronts: Fronts,
) -> Result<(KindSaid, usize), Refusal>
    requires path { (s : ℕ) × (ks : List ℕ)
        × IsPathTo program.old source.now.body.in_method path s ks }
    requires left { (fs : List OneFront) ×
        AreLeft program.old source.now.body.in_method source.now.parts.now.code.ops fronts fs }
    requires next { fronts.code.end + 1 < 2 ^ 64 }
    ensures told { (s : ℕ) (ks : List ℕ) (fs : List OneFront) →
        IsPathTo program.old source.now.body.in_method path s ks →
        AreLeft program.old source.now.body.in_method source.now.parts.now.code.ops fronts fs →
        MakesAs (IsKindSaid source.now.body.in_method (length types.now.items)) program.old
        program.new
        (blocks.room_by (given source.now) types.now.items s ks fs (values_in fs)
        fronts.code.end) result }
    ensures grows { Extends program.old program.new }
{
    match expressions(source.body, &fronts) {
        Ok(args) => {
            let at = fronts.code.end + 1;
            let (call, end) = called(source, program, types, path, &args, at)?;
            call_by(source, program, types, call, end)
        }
        Err(Refusal::NotRaised) => { written_to(source, program, types, path, fronts) }
        Err(Refusal::Memory) => Err(Refusal::Memory),
    }
}

/// A statement that begins with an object and then with more, by what stands behind that.
pub fn object_by(
    source: &Source<'_>,
    program: &mut Program,
    types: &Vec<Ty>,
    path: Path,
    fronts: Fronts,
) -> Result<(KindSaid, usize), Refusal>
    requires path { (s : ℕ) × (ks : List ℕ)
        × IsPathTo program.old source.now.body.in_method path s ks }
    requires left { (fs : List OneFront) ×
        AreLeft program.old source.now.body.in_method source.now.parts.now.code.ops fronts fs }
    ensures told { (s : ℕ) (ks : List ℕ) (fs : List OneFront) →
        IsPathTo program.old source.now.body.in_method path s ks →
        AreLeft program.old source.now.body.in_method source.now.parts.now.code.ops fronts fs →
        MakesAs (IsKindSaid source.now.body.in_method (length types.now.items)) program.old
        program.new
        (blocks.object_by (given source.now) types.now.items s ks fs fronts.code.end
        (sign behind_of source.now.parts.now.code.ops fronts.code.end)) result }
    ensures grows { Extends program.old program.new }
{
    match behind_at(source.parts.code(), fronts.code.end) {
        Some(Behind::Room) => room_by(source, program, types, path, fronts),
        Some(Behind::Swap { slot, index }) => swap_by(
            source.body,
            program,
            path,
            &fronts,
            slot,
            index,
        ),
        None => written_to(source, program, types, path, fronts),
    }
}
