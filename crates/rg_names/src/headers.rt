//! The types that stand with members, judged: each fault gets the line of its member
//! (docs/language.md, "Headers").

ghost use Rattle.std.specs.Prelude.{◌≡◌, ◌<◌, [], All, map, length, option_map, IfErr, IfOk};
ghost use Rattle.std.specs.Prelude.{IfSome};
ghost use Rattle.rg_base.specs.declared.fault.Code.TheVariants.{BadType};
ghost use Rattle.rg_tree.specs.Rows.RowTrees.{param_at, type_of, program_of};
ghost use Rattle.rg_tree.specs.Rows.RowsExist.{IsTypeIn, IsSpanBelow};
ghost use Rattle.rg_tree.specs.Rows.Tables.{numbers_in};
ghost use Rattle.rg_rules.specs.Answers.{test, at_line};
ghost use Rattle.rg_rules.specs.Headers.{suits_receiver, param_headers};
ghost use Rattle.rg_names.specs.Table.{judge_type};
ghost use Rattle.rg_names.specs.TableOf.{ty_of};
ghost use Rattle.rg_names.specs.Judged.{JudgedAs, GivenAs, IsFault};
ghost use Rattle.rg_names.specs.Inner.Headings.{IsHeadsOf, suits_row, judge_field, judge_result};
ghost use Rattle.rg_names.specs.Inner.Headings.{judge_element, is_iso_row, signature_header};

use crate::by_name::ByName;
use crate::suits::{is_field_of, is_receiver_of, names_class};
use rg_base::{Cap, Code, Fault, Stop, Ty};
use rg_tree::{MethodRow, Program, TypeRow};
use std::alloc::Global;

/// The type that is written so, or E20 or E22.
pub fn type_named(heads: &ByName<bool>, row: TypeRow) -> Result<Ty, Code>
    ensures { result ≡ judge_type heads.now row }
{
    match row {
        TypeRow::Int => Ok(Ty::Int),
        TypeRow::Bool => Ok(Ty::Bool),
        TypeRow::Ref { cap, name } => match heads.find(name) {
            None => Err(Code::Unknown),
            Some((class, is_tmp)) => {
                if names_class(cap, is_tmp) {
                    Ok(Ty::Ref { cap, class })
                } else {
                    Err(Code::BadType)
                }
            },
        },
    }
}

/// The type of a parameter.
pub fn param_type(heads: &ByName<bool>, row: TypeRow, line: u64) -> Result<Ty, Stop>
    ensures judged { GivenAs (at_line line (judge_type heads.now row)) result }
    ensures only_fault { IfErr result IsFault }
{
    match type_named(heads, row) {
        Ok(ty) => Ok(ty),
        Err(code) => Err(Stop::Fault(Fault { code, line })),
    }
}

/// The type of a field.
pub fn field_type(heads: &ByName<bool>, is_tmp: bool, row: TypeRow, line: u64) -> Result<Ty, Stop>
    ensures judged { GivenAs (at_line line (judge_field heads.now is_tmp row)) result }
    ensures only_fault { IfErr result IsFault }
{
    let ty = param_type(heads, row, line)?;
    if suits(row, is_tmp) {
        Ok(ty)
    } else {
        Err(Stop::Fault(Fault {
            code: Code::BadType,
            line,
        }))
    }
}

/// The type of the elements of an array class.
pub fn element_type(heads: &ByName<bool>, is_tmp: bool, row: TypeRow, line: u64) -> Result<Ty, Stop>
    ensures judged { GivenAs (at_line line (judge_element heads.now is_tmp row)) result }
    ensures only_fault { IfErr result IsFault }
{
    let ty = field_type(heads, is_tmp, row, line)?;
    if is_owner(row) {
        Err(Stop::Fault(Fault {
            code: Code::BadType,
            line,
        }))
    } else {
        Ok(ty)
    }
}

// Whether a type is written `iso`.
fn is_owner(row: TypeRow) -> bool
    ensures { result ≡ is_iso_row row }
{
    match row {
        TypeRow::Int => false,
        TypeRow::Bool => false,
        TypeRow::Ref { cap, .. } => match cap {
            Cap::Mut | Cap::Tmp | Cap::Paused | Cap::Imm => false,
            Cap::Iso => true,
        },
    }
}

// Whether a field of a type may stand in a class.
fn suits(row: TypeRow, is_tmp: bool) -> bool
    ensures { result ≡ suits_row row is_tmp }
{
    match row {
        TypeRow::Int => true,
        TypeRow::Bool => true,
        TypeRow::Ref { cap, .. } => is_field_of(cap, is_tmp),
    }
}

/// The type of a result, if there is one.
pub fn result_type(
    heads: &ByName<bool>,
    row: Option<TypeRow>,
    line: u64,
) -> Result<Option<Ty>, Stop>
    ensures judged { GivenAs (at_line line (judge_result heads.now row)) result }
    ensures only_fault { IfErr result IsFault }
{
    match row {
        None => Ok(None),
        Some(row) => {
            let ty = param_type(heads, row, line)?;
            Ok(Some(ty))
        },
    }
}

// The receiver of a method.
fn receiver(cap: Cap, is_tmp: bool, line: u64) -> Result<(), Stop>
    ensures judged { JudgedAs (at_line line (test (suits_receiver cap is_tmp) BadType)) result }
    ensures only_fault { IfErr result IsFault }
{
    if is_receiver_of(cap, is_tmp) {
        Ok(())
    } else {
        Err(Stop::Fault(Fault {
            code: Code::BadType,
            line,
        }))
    }
}

// The parameters of a method in order.
fn params(
    alloc: Global,
    program: &Program,
    heads: &ByName<bool>,
    these: &[u32],
    line: u64,
) -> Result<(), Stop>
    requires heads { IsHeadsOf program.now heads.now }
    requires these { All (λ k. k < length program.now.params) these.now }
    ensures { JudgedAs (at_line line (param_headers (program_of program.now).classes []
        (map (param_at program.now) these.now))) result }
{
    let mut earlier = ByName::new(alloc);
    for k in these {
        let param = program.param(*k);
        earlier.fresh(param.name, line)?;
        let ty = param_type(heads, param.ty, line)?;
        earlier.push(param.name, ty)?;
    }
    Ok(())
}

/// A method's receiver, its parameters and its result, whose type it gives.
pub fn signature(
    alloc: Global,
    program: &Program,
    heads: &ByName<bool>,
    is_tmp: bool,
    method: MethodRow,
) -> Result<Option<Ty>, Stop>
    requires heads { IsHeadsOf program.now heads.now }
    requires params { IsSpanBelow program.now (length program.now.params) method.params }
    requires result { IfSome method.result (IsTypeIn program.now) }
    ensures judged { JudgedAs (at_line method.line
        (signature_header (program_of program.now).classes is_tmp method.cap
        (map (param_at program.now) (numbers_in program.now method.params))
        (option_map (type_of program.now) method.result))) result }
    ensures ty { IfOk result (λ y. y ≡ option_map (ty_of program.now) method.result) }
{
    receiver(method.cap, is_tmp, method.line)?;
    params(
        alloc,
        program,
        heads,
        program.order(method.params),
        method.line,
    )?;
    let ty = result_type(heads, method.result, method.line)?;
    Ok(ty)
}
