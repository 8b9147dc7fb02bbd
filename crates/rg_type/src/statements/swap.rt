//! `swap` (docs/language.md, "Judgements").

ghost use Rattle.rg_tree.specs.Rows.Tables.{name_at};
ghost use Rattle.rg_tree.specs.Rows.RowTrees.{path_of, program_of};
ghost use Rattle.rg_tree.specs.Rows.RowsExist.{IsNameIn, IsPathIn};
ghost use Rattle.rg_rules.specs.Statements as rules;
ghost use Rattle.rg_flow.specs.Scope.{env_of};
ghost use Rattle.rg_flow.specs.States.{IsReadable};
ghost use Rattle.rg_type.specs.Inner.Changing.{DoneAs};

use rg_base::Code;
use rg_expressions::{is_iso, is_same_type, target};
use rg_flow::Env;
use rg_names::Book;
use rg_tree::Path;

/// `swap y, q.f;`
pub fn swap(env: &Env, book: &Book, name: u32, path: Path) -> Result<(), Code>
    requires name { IsNameIn book.now.program name }
    requires path { IsPathIn book.now.program path }
    requires scope { IsReadable book.now.program env.now }
    ensures { let t = book.now.program in
        DoneAs (rules.judge_swap (program_of t).classes (env_of t env.now) (name_at t name)
        (path_of t path)) (env_of t env.now) result }
{
    let variable = env.find(Some(name))?;
    if !is_iso(variable.ty) {
        return Err(Code::Mismatch);
    }
    if !variable.state.is_ready() {
        return Err(Code::Unavailable);
    }
    let ty = target(env, book, path)?;
    if !is_same_type(ty, variable.ty) {
        return Err(Code::Mismatch);
    }
    Ok(())
}
