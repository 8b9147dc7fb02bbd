//! Fields, parameters and methods of a raised program, as rows (docs/architecture.md, "Modules").

ghost use Rattle.std.specs.Prelude.{◌≡◌, ◌+◌, ◌<◌, ◌^◌, ℕ, List, ◌++◌, length, IfOk, OnOk};
ghost use Rattle.std.specs.Prelude.{option_map};
ghost use Rattle.rg_tree.specs.Tree as tree;
ghost use Rattle.rg_tree.specs.Rows.RowTrees.{type_of, param_at, member_at, member_of};
ghost use Rattle.rg_tree.specs.Rows.RowsExist.{IsTypeIn, IsParamNumber, IsMemberNumber, IsMemberIn};
ghost use Rattle.rg_tree.specs.Adds.{Extends, Adds, Means};
ghost use Rattle.rg_verify_expressions.specs.Naming.{written};
ghost use Rattle.rg_classes.specs.Written.{Bodied, numbered, field_written, param_written};
ghost use Rattle.rg_classes.specs.Written.{method_written};
ghost use Rattle.rg_classes.specs.Rows.{result_of, IsResultIn, params_in, AreParamsIn, AreMembers};
ghost use Rattle.rg_classes.specs.Rows.{body_of, IsBodyIn};

use crate::body_row::BodyRow;
use rg_base::{Memory, Ty};
use rg_spell::Head;
use rg_tree::{MemberRow, ParamRow, Program, Span, TypeRow};
use rg_verify_expressions::add_name;
use std::alloc::Global;

/// Adds what a type needs.
pub(crate) fn type_row(alloc: Global, program: &mut Program, ty: Ty) -> Result<TypeRow, Memory>
    ensures adds { IfOk result (λ r. Adds type_of IsTypeIn program.old program.new r (written ty)) }
    ensures grows { Extends program.old program.new }
{
    match ty {
        Ty::Int => Ok(TypeRow::Int),
        Ty::Bool => Ok(TypeRow::Bool),
        Ty::Ref { cap, class } => {
            let name = add_name(alloc, program, b'c', class)?;
            Ok(TypeRow::Ref { cap, name })
        }
    }
}

/// Adds what a type needs that may be missing.
pub(crate) fn result_row(
    alloc: Global,
    program: &mut Program,
    ty: Option<Ty>,
) -> Result<Option<TypeRow>, Memory>
    ensures adds { IfOk result (λ o.
        Adds result_of IsResultIn program.old program.new o (option_map written ty)) }
    ensures grows { Extends program.old program.new }
{
    let Some(ty) = ty else {
        return Ok(None);
    };
    let row = type_row(alloc, program, ty)?;
    Ok(Some(row))
}

// Adds a member, whose parts are there.
fn put_member(program: &mut Program, row: MemberRow) -> Result<u32, Memory>
    requires { IsMemberIn program.old row }
    ensures adds { IfOk result (λ n.
        Adds member_at IsMemberNumber program.old program.new n (member_of program.old row)) }
    ensures grows { Extends program.old program.new }
{
    let number = program.add_member(row)?;
    Ok(number)
}

// Adds the field of a number.
fn add_field(alloc: Global, program: &mut Program, k: u32, ty: Ty) -> Result<u32, Memory>
    ensures adds { IfOk result (λ n.
        Adds member_at IsMemberNumber program.old program.new n (field_written k ty)) }
    ensures grows { Extends program.old program.new }
{
    let name = add_name(alloc, program, b'f', k)?;
    let ty = type_row(alloc, program, ty)?;
    let number = put_member(program, MemberRow::Field { name, ty, line: 0 })?;
    Ok(number)
}

/// Adds fields in order, behind no others, and their numbers to those of members.
pub(crate) fn add_fields(
    alloc: Global,
    program: &mut Program,
    types: &[Ty],
    members: &mut Vec<u32>,
) -> Result<(), Memory>
    requires { length types.now < 2 ^ 32 }
    ensures adds { (ms : List tree.Member) → AreMembers program.old members.old.items ms →
        OnOk result (AreMembers program.new members.new.items
        (ms ++ numbered field_written 0 types.now)) }
    ensures grows { Extends program.old program.new }
{
    let mut k = 0;
    for ty in types {
        let number = add_field(alloc, program, k, *ty)?;
        let Ok(()) = members.push(number) else {
            return Err(Memory);
        };
        k += 1;
    }
    Ok(())
}

// Adds the parameter in a slot.
fn add_param(alloc: Global, program: &mut Program, slot: u32, ty: Ty) -> Result<u32, Memory>
    ensures adds { IfOk result (λ n.
        Adds param_at IsParamNumber program.old program.new n (param_written slot ty)) }
    ensures grows { Extends program.old program.new }
{
    let name = add_name(alloc, program, b'v', slot)?;
    let ty = type_row(alloc, program, ty)?;
    let number = program.add_param(ParamRow { name, ty })?;
    Ok(number)
}

// Adds the parameters of a method.
fn add_params(alloc: Global, program: &mut Program, types: &[Ty]) -> Result<Span, Memory>
    requires { length types.now + 1 < 2 ^ 32 }
    ensures adds { IfOk result (λ s. Adds params_in AreParamsIn program.old program.new s
        (numbered param_written 1 types.now)) }
    ensures grows { Extends program.old program.new }
{
    let mut numbers = Vec::new(alloc);
    let mut slot = 1;
    for ty in types {
        let number = add_param(alloc, program, slot, *ty)?;
        let Ok(()) = numbers.push(number) else {
            return Err(Memory);
        };
        slot += 1;
    }
    let span = program.add_order(numbers.as_slice())?;
    Ok(span)
}

/// Adds the method of a number in its class, whose body is there.
pub(crate) fn add_method(
    alloc: Global,
    program: &mut Program,
    k: u32,
    head: &Head,
    body: BodyRow,
) -> Result<u32, Memory>
    requires few { length head.now.params + 1 < 2 ^ 32 }
    requires body { IsBodyIn program.old body }
    ensures adds { (b : Bodied) → Means body_of IsBodyIn program.old body b →
        IfOk result (λ n. Adds member_at IsMemberNumber program.old program.new n
        (tree.method (method_written k head.now b))) }
    ensures grows { Extends program.old program.new }
{
    let name = add_name(alloc, program, b'm', k)?;
    let params = add_params(alloc, program, head.params.items())?;
    let result = result_row(alloc, program, head.result)?;
    let method = MemberRow::Method {
        cap: head.cap,
        name,
        params,
        result,
        body: body.block,
        line: body.line,
    };
    let number = put_member(program, method)?;
    Ok(number)
}
