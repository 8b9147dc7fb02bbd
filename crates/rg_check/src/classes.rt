//! The methods of all classes in source order (docs/language.md, "Acceptance").

ghost use Rattle.std.specs.Prelude.{◌<◌, All, length, map};
ghost use Rattle.rg_tree.specs.Rows.RowTrees.{classes_of, member_at, member_of, program_of};
ghost use Rattle.rg_tree.specs.Rows.RowsExist.{IsMemberIn};
ghost use Rattle.rg_rules.specs.Names.{FewNames};
ghost use Rattle.rg_rules.specs.Bodies as rules;
ghost use Rattle.rg_names.specs.TableOf.{IsTableOf};
ghost use Rattle.rg_names.specs.Judged.{JudgedAs};
ghost use Rattle.rg_check.specs.Inner.Methods as methods;

use crate::method::judge_method;
use rg_base::Stop;
use rg_names::Classes;
use rg_tree::{MemberRow, MethodRow, Program};
use std::alloc::Global;

/// The methods of each class in order.
pub fn judge_methods(alloc: Global, program: &Program, classes: &Classes) -> Result<(), Stop>
    requires table { IsTableOf program.now classes.now }
    requires names { FewNames (program_of program.now) }
    ensures { let all = classes_of program.now in
        JudgedAs (rules.judge_methods all 0 all) result }
{
    for class in 0..program.class_count() {
        let members = program.members_of(program.class(class));
        judge_members(alloc, program, classes, class, members)?;
    }
    Ok(())
}

// The methods among the members of a class in order.
fn judge_members(
    alloc: Global,
    program: &Program,
    classes: &Classes,
    class: u32,
    these: &[u32],
) -> Result<(), Stop>
    requires table { IsTableOf program.now classes.now }
    requires class { class < length (classes_of program.now) }
    requires these { All (λ k. k < length program.now.members) these.now }
    requires each { All (methods.MemberMayBeJudged (classes_of program.now))
        (map (member_at program.now) these.now) }
    ensures { JudgedAs (rules.judge_members (classes_of program.now) class
        (map (member_at program.now) these.now)) result }
{
    for k in these {
        judge_member(alloc, program, classes, class, program.member(*k))?;
    }
    Ok(())
}

// A member, of which only a method has a body.
fn judge_member(
    alloc: Global,
    program: &Program,
    classes: &Classes,
    class: u32,
    row: MemberRow,
) -> Result<(), Stop>
    requires table { IsTableOf program.now classes.now }
    requires class { class < length (classes_of program.now) }
    requires row { IsMemberIn program.now row }
    requires member { let t = program.now in
        methods.MemberMayBeJudged (classes_of t) (member_of t row) }
    ensures { let t = program.now in
        JudgedAs (methods.judge_member (classes_of t) class (member_of t row)) result }
{
    match row {
        MemberRow::Field { .. } => Ok(()),
        MemberRow::Method {
            cap,
            name,
            params,
            result,
            body,
            line,
        } => {
            let method = MethodRow {
                cap,
                name,
                params,
                result,
                body,
                line,
            };
            judge_method(alloc, program, classes, class, method)
        }
    }
}
