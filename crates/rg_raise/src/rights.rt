//! Right sides, raised from their code (docs/architecture.md, "Modules").

ghost use Rattle.std.specs.Prelude.{◌≡◌, ◌+◌, ◌<◌, ◌^◌, ℕ, List, [], ◌∷◌, slice_get, IfSome, None};
ghost use Rattle.rg_base.specs.declared.ty.Ty.{Ty as Types};
ghost use Rattle.rg_tree.specs.Adds.{Extends};
ghost use Rattle.rg_verify_expressions.specs.Naming.{class_name};
ghost use Rattle.rg_verify_expressions.specs.Raised.{Raised, named, Front as OneFront, expression};
ghost use Rattle.rg_verify_expressions.specs.Rows.{IsTree};
ghost use Rattle.rg_verify_expressions.specs.Signs.{walk_of};
ghost use Rattle.rg_verify_expressions.specs.Blocks.{sign, paces, values_in};
ghost use Rattle.rg_verify_expressions.specs.Blocks as blocks;
ghost use Rattle.rg_raise.specs.Fronts.{Spans, AreLeft, AreExprs};
ghost use Rattle.rg_raise.specs.Telling.{given, roomed, IsPathTo, array_of};
ghost use Rattle.rg_raise.specs.Telling.{MakesAs, MakesOne, AddsName, IsCallSaid, IsRightSaid};

use crate::fronts::{expressions, take_front};
use crate::row_parts::{call_row, making_row};
use crate::said::{CallSaid, Exprs, Fronts, RightSaid, Stretch};
use crate::signs::{behind_at, call_at, making_at, walk_at};
use crate::source::Source;
use crate::uses::behind_uses;
use rg_base::Ty;
use rg_code::CodeList;
use rg_tree::{Path, Program, Right};
use rg_verify_expressions::{Behind, Body, Callee, FrontRow, Making, Refusal, Walk, add_name};

// The method of a number.
fn callee_of(methods: &[Callee], number: u32) -> Option<Callee>
    ensures { result ≡ slice_get methods.now number }
{
    methods.get(number as usize).copied()
}

/// A call on an object, behind its arguments and `room`.
pub(crate) fn called(
    source: &Source<'_>,
    program: &mut Program,
    types: &Vec<Ty>,
    path: Path,
    args: &Exprs,
    at: usize,
) -> Result<(CallSaid, usize), Refusal>
    ensures told { (s : ℕ) (ks : List ℕ) (rs : List Raised) →
        IsPathTo program.old source.now.body.in_method path s ks →
        AreExprs program.old source.now.body.in_method source.now.parts.now.code.ops args.now rs →
        MakesAs (IsCallSaid source.now.body.in_method) program.old program.new
        (blocks.called (given source.now) types.now.items s ks rs at) result }
    ensures grows { Extends program.old program.new }
{
    let Some(behind) = behind_uses(source.parts.code(), types, args.code, at) else {
        return Err(Refusal::NotRaised);
    };
    let Some(method) = call_at(source.parts.code(), behind) else {
        return Err(Refusal::NotRaised);
    };
    let Some(callee) = callee_of(source.methods, method) else {
        return Err(Refusal::NotRaised);
    };
    let Ok(row) = call_row(
        source.body,
        program,
        path,
        callee.place,
        args.rows.as_slice(),
    ) else {
        return Err(Refusal::Memory);
    };
    let result = callee.result;
    Ok((CallSaid { row, result }, behind + 1))
}

// Where `room` stands at an address: the expressions in front of it are arguments.
fn room_at(code: &CodeList, at: usize) -> Option<()>
    ensures told { result ≡ roomed code.now.ops at }
    ensures next { IfSome result (λ x. at + 1 < 2 ^ 64) }
{
    match behind_at(code, at)? {
        Behind::Room => Some(()),
        Behind::Swap { .. } => None,
    }
}

// The result of a call on an object, behind the arguments.
fn result_by(
    source: &Source<'_>,
    program: &mut Program,
    types: &Vec<Ty>,
    path: Path,
    fronts: &Fronts,
) -> Result<(RightSaid, usize), Refusal>
    ensures told { (s : ℕ) (ks : List ℕ) (fs : List OneFront) →
        IsPathTo program.old source.now.body.in_method path s ks →
        AreLeft program.old source.now.body.in_method source.now.parts.now.code.ops fronts.now fs →
        MakesAs (IsRightSaid source.now.body.in_method) program.old program.new
        (blocks.result_by (given source.now) types.now.items s ks (values_in fs)
        fronts.now.code.end) result }
    ensures grows { Extends program.old program.new }
{
    let args = expressions(source.body, fronts)?;
    let Some(()) = room_at(source.parts.code(), fronts.code.end) else {
        return Err(Refusal::NotRaised);
    };
    let behind = fronts.code.end + 1;
    let (call, end) = called(source, program, types, path, &args, behind)?;
    let right = RightSaid {
        row: Right::Call(call.row),
        paces: false,
    };
    Ok((right, end))
}

// Adds the name of a class.
fn class_row(body: Body, program: &mut Program, class: u32) -> Result<u32, Refusal>
    ensures adds { AddsName program.old program.new (class_name class) result }
    ensures grows { Extends program.old program.new }
{
    let Ok(name) = add_name(body.alloc, program, b'c', class) else {
        return Err(Refusal::Memory);
    };
    Ok(name)
}

/// A new array, by what stands behind the number of its elements.
pub fn array_row(
    body: Body,
    program: &mut Program,
    walk: Walk,
    size: u32,
) -> Result<RightSaid, Refusal>
    ensures told { (e : Raised) → IsTree program.old size (named body.in_method e) →
        MakesOne (IsRightSaid body.in_method) program.old program.new (array_of walk e) result }
    ensures grows { Extends program.old program.new }
{
    let size = Some(size);
    match walk {
        Walk::New { class } => {
            let name = class_row(body, program, class)?;
            let row = Right::New { name, size };
            Ok(RightSaid { row, paces: true })
        }
        Walk::NewTmp { class } => {
            let name = class_row(body, program, class)?;
            let row = Right::NewTmp { name, size };
            Ok(RightSaid { row, paces: false })
        }
        Walk::NewIso { class, manager } => {
            let name = class_row(body, program, class)?;
            let row = Right::NewIso {
                name,
                size,
                manager,
            };
            Ok(RightSaid { row, paces: false })
        }
        Walk::Enter { .. } => Err(Refusal::NotRaised),
    }
}

// A value, behind which the slots that it uses up are cleared.
fn value_at(
    source: &Source<'_>,
    program: &Program,
    types: &Vec<Ty>,
    row: u32,
    code: Stretch,
) -> Result<(RightSaid, usize), Refusal>
    ensures { (e : Raised) →
        IsTree program.now row (named source.now.body.in_method e) →
        Spans source.now.parts.now.code.ops code (expression e ∷ []) →
        MakesAs (IsRightSaid source.now.body.in_method) program.now program.now
        (blocks.right_by (given source.now) types.now.items e code.end None) result }
{
    let Some(end) = behind_uses(source.parts.code(), types, code, code.end) else {
        return Err(Refusal::NotRaised);
    };
    let row = Right::Expr(row);
    Ok((RightSaid { row, paces: false }, end))
}

// A right side that begins with an expression alone, by what stands behind that.
fn right_by(
    source: &Source<'_>,
    program: &mut Program,
    types: &Vec<Ty>,
    row: u32,
    code: Stretch,
) -> Result<(RightSaid, usize), Refusal>
    ensures told { (e : Raised) →
        IsTree program.old row (named source.now.body.in_method e) →
        Spans source.now.parts.now.code.ops code (expression e ∷ []) →
        MakesAs (IsRightSaid source.now.body.in_method) program.old program.new
        (blocks.right_by (given source.now) types.now.items e code.end
        (sign walk_of source.now.parts.now.code.ops code.end)) result }
    ensures grows { Extends program.old program.new }
{
    match walk_at(source.parts.code(), code.end) {
        None => value_at(source, program, types, row, code),
        Some(walk) => {
            let right = array_row(source.body, program, walk, row)?;
            Ok((right, code.end + 1))
        }
    }
}

// Whether a pacer is asked behind a right side of one instruction.
fn is_paced(making: Making) -> bool
    ensures { result ≡ paces (blocks.right_of making) }
{
    match making {
        Making::New { .. } => true,
        Making::NewTmp { .. } | Making::NewIso { .. } => false,
        Making::Freeze { .. } | Making::Merge { .. } | Making::Read | Making::More => false,
    }
}

/// A right side of one instruction.
pub fn made_behind(
    source: &Source<'_>,
    program: &mut Program,
    at: usize,
) -> Result<(RightSaid, usize), Refusal>
    ensures told { (types : List Types) →
        MakesAs (IsRightSaid source.now.body.in_method) program.old program.new
        (blocks.right_behind (given source.now) types [] at) result }
    ensures grows { Extends program.old program.new }
{
    let Some(making) = making_at(source.parts.code(), at) else {
        return Err(Refusal::NotRaised);
    };
    let paces = is_paced(making);
    let Ok(row) = making_row(source.body, program, making) else {
        return Err(Refusal::Memory);
    };
    Ok((RightSaid { row, paces }, at + 1))
}

/// A right side, behind what it begins with.
pub(crate) fn right_behind(
    source: &Source<'_>,
    program: &mut Program,
    types: &Vec<Ty>,
    fronts: Fronts,
) -> Result<(RightSaid, usize), Refusal>
    ensures told { (fs : List OneFront) →
        AreLeft program.old source.now.body.in_method source.now.parts.now.code.ops fronts fs →
        MakesAs (IsRightSaid source.now.body.in_method) program.old program.new
        (blocks.right_behind (given source.now) types.now.items fs fronts.code.end)
        result }
    ensures grows { Extends program.old program.new }
{
    let mut rest = fronts;
    match take_front(&mut rest.rows) {
        None => made_behind(source, program, rest.code.end),
        Some(FrontRow::Expression { row }) => {
            if rest.rows.len() != 0 {
                return Err(Refusal::NotRaised);
            }
            right_by(source, program, types, row, rest.code)
        }
        Some(FrontRow::Object { path }) => { result_by(source, program, types, path, &rest) }
        Some(FrontRow::Place { path: _, index: _ }) => Err(Refusal::NotRaised),
    }
}
