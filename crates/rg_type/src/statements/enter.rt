//! `enter`, in front of its block and behind it (docs/language.md, "Judgements").

ghost use Rattle.std.specs.Prelude.{◌≡◌, ◌<◌, length, [], true, option_map, Some, OnErr, OnOk};
ghost use Rattle.std.specs.Prelude.{IfOk, IfSome};
ghost use Rattle.rg_base.specs.declared.limits.TheConstants.{BODY_NAMES};
ghost use Rattle.rg_tree.specs.Rows.Tables.{Tables, name_at};
ghost use Rattle.rg_tree.specs.Rows.RowTrees.{path_of, program_of, variable_of};
ghost use Rattle.rg_tree.specs.Rows.RowsExist.{IsNameIn, IsPathIn};
ghost use Rattle.rg_rules.specs.Answers.{at_line};
ghost use Rattle.rg_rules.specs.Environment.{deeper, with_variable};
ghost use Rattle.rg_rules.specs.Statements as rules;
ghost use Rattle.rg_names.specs.Judged.{JudgedAs};
ghost use Rattle.rg_flow.specs.Scope.{entered, env_of};
ghost use Rattle.rg_flow.specs.States.{IsReadable};
ghost use Rattle.rg_expressions.specs.Judging.{HasField};
ghost use Rattle.rg_type.specs.Inner.Changing.{EnteredAs, LeavesAs};

use rg_base::{Cap, Code, Memory, Stop, Ty};
use rg_expressions::{fault, is_same_type, iso_class, seen, target};
use rg_flow::{Env, State};
use rg_names::Book;
use rg_tree::Path;

/// What an `enter` says round its block: `q`, the name of the bridge and that of `giving`.
#[derive(Clone, Copy)]
pub struct Entrance {
    pub path: Path,
    pub name: u32,
    pub giving: Option<u32>,
}

/// What stands in front of the block of `enter x as z` and of `enter q.f as z`.
pub fn enter(env: &mut Env, book: &Book, path: Path, name: u32, line: u64) -> Result<(), Stop>
    requires path { IsPathIn book.now.program path }
    requires name { IsNameIn book.now.program name }
    requires scope { IsReadable book.now.program env.old }
    requires room { length env.old.slots < BODY_NAMES }
    ensures judged { let t = book.now.program in let p = path_of t path in
        LeavesAs (at_line line (rules.judge_enter (program_of t).classes (env_of t env.old)
        p.base p.fields (name_at t name))) (env_of t env.new) result }
    ensures scope { OnOk result (IsReadable book.now.program env.new) }
{
    match entered(env, book, path, name) {
        Ok(class) => {
            let ty = Ty::Ref {
                cap: Cap::Mut,
                class,
            };
            add_within(env, name, ty)
        }
        Err(code) => Err(fault(code, line)),
    }
}

// The class of what may be entered. A variable is lent then.
fn entered(env: &mut Env, book: &Book, path: Path, name: u32) -> Result<u32, Code>
    requires path { IsPathIn book.now.program path }
    requires name { IsNameIn book.now.program name }
    requires scope { IsReadable book.now.program env.old }
    ensures judged { let t = book.now.program in let p = path_of t path in
        EnteredAs (rules.judge_enter (program_of t).classes (env_of t env.old)
        p.base p.fields (name_at t name)) (name_at t name) (env_of t env.new) result }
    ensures scope { OnOk result (IsReadable book.now.program env.new) }
    ensures known { IfOk result (λ c. c < length (program_of book.now.program).classes) }
    ensures room { length env.new.slots ≡ length env.old.slots }
{
    if book.order(path.fields).is_empty() {
        entered_variable(env, book, path.base, name)
    } else {
        entered_field(env, book, path, name)
    }
}

// The class of `x` in `enter x as z`, which is lent then.
fn entered_variable(
    env: &mut Env,
    book: &Book,
    entered: Option<u32>,
    name: u32,
) -> Result<u32, Code>
    requires entered { IfSome entered (IsNameIn book.now.program) }
    requires name { IsNameIn book.now.program name }
    requires scope { IsReadable book.now.program env.old }
    ensures judged { let t = book.now.program in
        EnteredAs (rules.judge_enter (program_of t).classes (env_of t env.old)
        (variable_of t entered) [] (name_at t name))
        (name_at t name) (env_of t env.new) result }
    ensures scope { OnOk result (IsReadable book.now.program env.new) }
    ensures known { IfOk result (λ c. c < length (program_of book.now.program).classes) }
    ensures room { length env.new.slots ≡ length env.old.slots }
{
    let variable = env.find(entered)?;
    let Some(class) = iso_class(variable.ty) else {
        return Err(Code::Mismatch);
    };
    if !variable.state.is_ready() {
        return Err(Code::Unavailable);
    }
    if env.find(Some(name)).is_ok() {
        return Err(Code::Duplicate);
    }
    env.mark(entered, State::Lent);
    Ok(class)
}

// The class of `q.f` in `enter q.f as z`.
fn entered_field(env: &Env, book: &Book, path: Path, name: u32) -> Result<u32, Code>
    requires path { IsPathIn book.now.program path }
    requires field { HasField book.now.program path }
    requires name { IsNameIn book.now.program name }
    requires scope { IsReadable book.now.program env.now }
    ensures judged { let t = book.now.program in let p = path_of t path in
        EnteredAs (rules.judge_enter (program_of t).classes (env_of t env.now)
        p.base p.fields (name_at t name)) (name_at t name) (env_of t env.now) result }
    ensures known { IfOk result (λ c. c < length (program_of book.now.program).classes) }
{
    let ty = target(env, book, path)?;
    let Some(class) = iso_class(ty) else {
        return Err(Code::Mismatch);
    };
    if env.find(Some(name)).is_ok() {
        return Err(Code::Duplicate);
    }
    Ok(class)
}

/// At the end of the block: what `giving w` leaves there has the type of the bridge.
pub fn given(env: &Env, book: &Book, entrance: Entrance, line: u64) -> Result<(), Stop>
    requires name { IsNameIn book.now.program entrance.name }
    requires giving { IfSome entrance.giving (IsNameIn book.now.program) }
    requires scope { IsReadable book.now.program env.now }
    ensures { let t = book.now.program in
        JudgedAs (at_line line (rules.judge_giving (env_of t env.now) (name_at t entrance.name)
        (option_map (name_at t) entrance.giving))) result }
{
    match entrance.giving {
        None => Ok(()),
        Some(name) => match is_bridge(env, book, name, entrance.name) {
            Ok(()) => Ok(()),
            Err(code) => Err(fault(code, line)),
        },
    }
}

// Whether a variable is seen with the type of the bridge.
fn is_bridge(env: &Env, book: &Book, name: u32, bridge: u32) -> Result<(), Code>
    requires name { IsNameIn book.now.program name }
    requires bridge { IsNameIn book.now.program bridge }
    requires scope { IsReadable book.now.program env.now }
    ensures { let t = book.now.program in result ≡ rules.judge_giving (env_of t env.now)
        (name_at t bridge) (Some (name_at t name)) }
{
    let variable = env.find(Some(name))?;
    let bridge = env.find(Some(bridge))?;
    if !is_same_type(seen(env, &variable), bridge.ty) {
        return Err(Code::Mismatch);
    }
    Ok(())
}

/// Behind the block: a variable that was entered is ready again.
pub fn leave(env: &mut Env, book: &Book, path: Path)
    requires path { IsPathIn book.now.program path }
    requires scope { IsReadable book.now.program env.old }
    ensures left { let t = book.now.program in let p = path_of t path in
        env_of t env.new ≡ rules.left p.base p.fields (env_of t env.old) }
    ensures scope { IsReadable book.now.program env.new }
{
    if book.order(path.fields).is_empty() {
        env.mark(path.base, State::Ready);
    }
}

// Adds a variable, which may be assigned, one depth deeper.
fn add_within(env: &mut Env, name: u32, ty: Ty) -> Result<(), Stop>
    requires { length env.old.slots < BODY_NAMES }
    ensures memory { OnErr result (result ≡ Err Stop.Memory) }
    ensures scope { OnOk result (env.new ≡ entered env.old (Some name) ty) }
    ensures tree { (t : Tables) → OnOk result (env_of t env.new
        ≡ with_variable (deeper (env_of t env.old)) (Some (name_at t name)) ty true) }
{
    match env.enter(Some(name), ty) {
        Ok(()) => Ok(()),
        Err(Memory) => Err(Stop::Memory),
    }
}
