//! `let`, which declares a variable (docs/language.md, "Judgements").

ghost use Rattle.std.specs.Prelude.{◌≡◌, ◌<◌, ◌≤◌, length, true, Some, OnErr, OnOk, IfOk};
ghost use Rattle.rg_base.specs.declared.limits.TheConstants.{BODY_NAMES};
ghost use Rattle.rg_tree.specs.Rows.Tables.{Tables, name_at};
ghost use Rattle.rg_tree.specs.Rows.RowTrees.{program_of, right_of, type_of};
ghost use Rattle.rg_tree.specs.Rows.RowsExist.{IsNameIn, IsRightIn, IsTypeIn};
ghost use Rattle.rg_rules.specs.Answers.{at_line};
ghost use Rattle.rg_rules.specs.Environment.{with_variable};
ghost use Rattle.rg_rules.specs.Statements as rules;
ghost use Rattle.rg_names.specs.TreeAnswers.{IsKnown};
ghost use Rattle.rg_flow.specs.Scope.{env_of, pushed};
ghost use Rattle.rg_flow.specs.States.{IsReadable};
ghost use Rattle.rg_type.specs.Inner.Changing.{DeclaredAs, LeavesAs};

use crate::rights::right_side;
use rg_base::{Code, Memory, Stop, Ty};
use rg_expressions::fault;
use rg_flow::Env;
use rg_names::Book;
use rg_tree::{Right, TypeRow};

/// `let x: T = r;`
pub fn declare(
    env: &mut Env,
    book: &Book,
    name: u32,
    ty: TypeRow,
    right: Right,
    line: u64,
) -> Result<(), Stop>
    requires name { IsNameIn book.now.program name }
    requires ty { IsTypeIn book.now.program ty }
    requires right { IsRightIn book.now.program right }
    requires scope { IsReadable book.now.program env.old }
    requires room { length env.old.slots < BODY_NAMES }
    ensures judged { let t = book.now.program in
        LeavesAs (at_line line (rules.judge_declare (program_of t).classes (env_of t env.old)
        (name_at t name) (type_of t ty) (right_of t right))) (env_of t env.new) result }
    ensures scope { OnOk result (IsReadable book.now.program env.new) }
{
    match declared(env, book, name, ty, right) {
        Ok(ty) => add(env, name, ty),
        Err(code) => Err(fault(code, line)),
    }
}

// The type of a variable that may be added.
fn declared(env: &mut Env, book: &Book, name: u32, ty: TypeRow, right: Right) -> Result<Ty, Code>
    requires name { IsNameIn book.now.program name }
    requires ty { IsTypeIn book.now.program ty }
    requires right { IsRightIn book.now.program right }
    requires scope { IsReadable book.now.program env.old }
    ensures judged { let t = book.now.program in
        DeclaredAs (rules.judge_declare (program_of t).classes (env_of t env.old)
        (name_at t name) (type_of t ty) (right_of t right))
        (name_at t name) (env_of t env.new) result }
    ensures scope { OnOk result (IsReadable book.now.program env.new) }
    ensures known { IfOk result (IsKnown (program_of book.now.program).classes) }
    ensures room { OnOk result (length env.new.slots ≤ length env.old.slots) }
{
    if env.find(Some(name)).is_ok() {
        return Err(Code::Duplicate);
    }
    let ty = book.ty(ty)?;
    right_side(env, book, right, ty)?;
    Ok(ty)
}

// Adds a variable, which may be assigned, at the current depth.
fn add(env: &mut Env, name: u32, ty: Ty) -> Result<(), Stop>
    requires { length env.old.slots < BODY_NAMES }
    ensures memory { OnErr result (result ≡ Err Stop.Memory) }
    ensures scope { OnOk result (env.new ≡ pushed env.old (Some name) ty true) }
    ensures tree { (t : Tables) → OnOk result (env_of t env.new
        ≡ with_variable (env_of t env.old) (Some (name_at t name)) ty true) }
{
    match env.add(Some(name), ty, true) {
        Ok(()) => Ok(()),
        Err(Memory) => Err(Stop::Memory),
    }
}
