//! Whether the bodies of methods and of main have few names, few brackets and fine statements
//! (docs/language.md, "Limits").

ghost use Rattle.std.specs.Prelude.{◌≤◌, ◌<◌, ◌+◌, suc, length};
ghost use Rattle.std.specs.List.{AllByRecursion};
ghost use Rattle.rg_base.specs.declared.limits.TheConstants.{BODY_NAMES, BRACKETS};
ghost use Rattle.rg_tree.specs.Rows.RowTrees.{block_of, class_of, classes_of, member_at};
ghost use Rattle.rg_tree.specs.Rows.RowsExist.{IsBlockIn, IsClassIn};
ghost use Rattle.rg_rules.specs.Names.{block_names};
ghost use Rattle.rg_limits.specs.Each.{HoldsInBlock};
ghost use Rattle.rg_limits.specs.Opens.{block_opens};
ghost use Rattle.rg_limits.specs.Telling.{Tells};
ghost use Rattle.rg_limits.specs.Inner.Fine.{IsClassFine, IsFine, IsMemberFine};

use crate::blocks::left_in_braces;
use rg_base::{BODY_NAMES, BRACKETS};
use rg_tree::{ClassRow, MemberRow, Program, Span};

// Whether a body has few names, so many of which stand in front of it, few brackets and fine
// statements.
fn is_body_fine(program: &Program, front: usize, body: Span, room: usize) -> bool
    requires { IsBlockIn program.now body }
    ensures { let b = block_of program.now body in
        Tells result ((front + block_names b ≤ BODY_NAMES) × HoldsInBlock IsFine b ×
        (suc (block_opens b) ≤ room)) }
{
    if front > BODY_NAMES {
        return false;
    }
    left_in_braces(program, body, room, BODY_NAMES - front).is_some()
}

/// Whether main is such a body.
pub fn is_main_fine(program: &Program) -> bool
    ensures { let b = block_of program.now program.now.body in
        Tells result ((block_names b ≤ BODY_NAMES) × HoldsInBlock IsFine b ×
        (suc (block_opens b) ≤ BRACKETS)) }
{
    is_body_fine(program, 0, program.main_body(), BRACKETS)
}

// Whether a member is a field or has such a body, in the brackets of its class.
fn is_member_fine(program: &Program, member: u32) -> bool
    requires { member < length program.now.members }
    ensures { Tells result (IsMemberFine (member_at program.now member)) }
{
    match program.member(member) {
        MemberRow::Field { .. } => true,
        MemberRow::Method { params, body, .. } => {
            is_body_fine(program, program.order(params).len() + 1, body, BRACKETS - 1)
        }
    }
}

// Whether all members of a class are.
fn is_class_fine(program: &Program, class: ClassRow) -> bool
    requires { IsClassIn program.now class }
    ensures { Tells result (IsClassFine (class_of program.now class)) }
{
    for member in program.members_of(class) {
        if !is_member_fine(program, *member) {
            return false;
        }
    }
    true
}

/// Whether the members of all classes are.
pub fn are_classes_fine(program: &Program) -> bool
    ensures { Tells result (AllByRecursion IsClassFine (classes_of program.now)) }
{
    for i in 0..program.class_count() {
        if !is_class_fine(program, program.class(i)) {
            return false;
        }
    }
    true
}
