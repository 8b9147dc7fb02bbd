//! Paths as values, and their tests for nil (docs/language.md, "Judgements").

ghost use Rattle.std.specs.Prelude.{◌≡◌, ◌||◌, not as negated, [], IfOk, IfSome, OnOk};
ghost use Rattle.rg_tree.specs.Rows.RowTrees.{path_of, program_of, variable_of};
ghost use Rattle.rg_tree.specs.Rows.RowsExist.{IsNameIn, IsPathIn};
ghost use Rattle.rg_rules.specs.Capabilities as tables;
ghost use Rattle.rg_base.specs.declared.fault.Code.TheVariants.{Mismatch};
ghost use Rattle.rg_rules.specs.Answers.{test};
ghost use Rattle.rg_rules.specs.Environment as states;
ghost use Rattle.rg_rules.specs.Expressions as rules;
ghost use Rattle.rg_names.specs.TreeAnswers.{IsKnown};
ghost use Rattle.rg_flow.specs.Scope.{env_of};
ghost use Rattle.rg_flow.specs.States.{readiness_of, IsReadable};
ghost use Rattle.rg_expressions.specs.Judging.{HasField, TypedAs};

use crate::paths::{seen, walk};
use crate::types::is_iso;
use rg_base::{Code, Ty};
use rg_flow::{Env, Found, State};
use rg_names::Book;
use rg_tree::Path;

/// `x`, which uses an `iso` variable up, and `x.f`.
pub fn path(env: &mut Env, book: &Book, path: Path) -> Result<Ty, Code>
    requires path { IsPathIn book.now.program path }
    requires scope { IsReadable book.now.program env.old }
    ensures judged { let t = book.now.program in let p = path_of t path in
        TypedAs (rules.judge_path (program_of t).classes (env_of t env.old) p.base p.fields)
        (env_of t env.new) result }
    ensures scope { OnOk result (IsReadable book.now.program env.new) }
    ensures known { IfOk result (IsKnown (program_of book.now.program).classes) }
{
    if book.order(path.fields).is_empty() {
        variable(env, book, path.base)
    } else {
        field(env, book, path)
    }
}

// `x`
fn variable(env: &mut Env, book: &Book, name: Option<u32>) -> Result<Ty, Code>
    requires name { IfSome name (IsNameIn book.now.program) }
    requires scope { IsReadable book.now.program env.old }
    ensures judged { let t = book.now.program in
        TypedAs (rules.judge_path (program_of t).classes (env_of t env.old) (variable_of t name) [])
        (env_of t env.new) result }
    ensures scope { OnOk result (IsReadable book.now.program env.new) }
    ensures known { IfOk result (IsKnown (program_of book.now.program).classes) }
{
    let found = env.find(name)?;
    if !is_available(&found) {
        return Err(Code::Unavailable);
    }
    let ty = seen(env, &found);
    if is_iso(found.ty) {
        env.mark(name, State::Gone);
    }
    Ok(ty)
}

// `x.f`, which can't be an `iso` field.
fn field(env: &Env, book: &Book, path: Path) -> Result<Ty, Code>
    requires path { IsPathIn book.now.program path }
    requires field { HasField book.now.program path }
    requires scope { IsReadable book.now.program env.now }
    ensures judged { let t = book.now.program in let p = path_of t path in
        TypedAs (rules.judge_path (program_of t).classes (env_of t env.now) p.base p.fields)
        (env_of t env.now) result }
    ensures known { IfOk result (IsKnown (program_of book.now.program).classes) }
{
    let ty = walk(env, book, path)?;
    if is_iso(ty) {
        return Err(Code::IsoField);
    }
    Ok(ty)
}

/// `x is nil`, which an `iso` variable survives, and `x.f is nil`.
pub fn is_nil(env: &Env, book: &Book, path: Path) -> Result<(), Code>
    requires path { IsPathIn book.now.program path }
    requires scope { IsReadable book.now.program env.now }
    ensures { let t = book.now.program in let p = path_of t path in
        result ≡ rules.judge_is_nil (program_of t).classes (env_of t env.now) p.base p.fields }
{
    if book.order(path.fields).is_empty() {
        is_variable_nil(env, book, path.base)
    } else {
        is_field_nil(env, book, path)
    }
}

// `x is nil`
fn is_variable_nil(env: &Env, book: &Book, name: Option<u32>) -> Result<(), Code>
    requires name { IfSome name (IsNameIn book.now.program) }
    requires scope { IsReadable book.now.program env.now }
    ensures { let t = book.now.program in result
        ≡ rules.judge_is_nil (program_of t).classes (env_of t env.now) (variable_of t name) [] }
{
    let found = env.find(name)?;
    if !is_available(&found) {
        return Err(Code::Unavailable);
    }
    reference(seen(env, &found))
}

// `x.f is nil`
fn is_field_nil(env: &Env, book: &Book, path: Path) -> Result<(), Code>
    requires path { IsPathIn book.now.program path }
    requires field { HasField book.now.program path }
    requires scope { IsReadable book.now.program env.now }
    ensures { let t = book.now.program in let p = path_of t path in
        result ≡ rules.judge_is_nil (program_of t).classes (env_of t env.now) p.base p.fields }
{
    let ty = walk(env, book, path)?;
    reference(ty)
}

// Only a reference may be nil.
fn reference(ty: Ty) -> Result<(), Code>
    ensures { result ≡ test (tables.is_reference ty) Mismatch }
{
    match ty {
        Ty::Int | Ty::Bool => Err(Code::Mismatch),
        Ty::Ref { .. } => Ok(()),
    }
}

// Whether a variable may be used: an `iso` one must be ready.
fn is_available(found: &Found) -> bool
    ensures { result ≡ (negated (tables.is_iso found.now.ty)
        || states.is_ready (readiness_of found.now.state)) }
{
    !is_iso(found.ty) || found.state.is_ready()
}
