//! Reads what stands right of `=` (docs/language.md, "Grammar").

ghost use Rattle.std.specs.Prelude.{◌≡◌, ◌≢◌, ◌<◌, ◌≤◌, [], ◌∷◌, length, Some, IfOk, IfErr, OnOk};
ghost use Rattle.rg_tree.specs.Phrases.{the};
ghost use Rattle.rg_tree.specs.Phrases as p;
ghost use Rattle.rg_tree.specs.Table.{next};
ghost use Rattle.rg_reader.specs.Steps.{Halts};
ghost use Rattle.rg_parse.specs.Inner.Starts.{right_start, new_start};
ghost use Rattle.rg_parse.specs.Inner.Readings.{FoundRight, FoundNew};

use crate::starts::{NewStart, RightStart, new_start, right_start};
use rg_base::{Code, Keyword, Kind};
use rg_reader::{Halt, Reader};
use rg_tree::Right;

/// What stands right of `=`.
pub(crate) fn right(reader: &mut Reader<'_>) -> Result<Right, Halt>
    ensures ok { IfOk result (λ r. FoundRight reader.old r reader.new) }
    ensures shorter { OnOk result (length reader.new.rest < length reader.old.rest) }
    ensures fault { IfErr result (λ e. Halts (the p.Right ∷ []) reader.old e reader.new) }
{
    match right_start(reader.next()) {
        RightStart::New => new_object(reader),
        RightStart::Freeze => freeze(reader),
        RightStart::Merge => merge(reader),
        RightStart::Read => read(reader),
        RightStart::More => more(reader),
        RightStart::Call => call_right(reader),
        RightStart::Value => value(reader),
    }
}

/// `new C`, `new tmp C` or `new iso C in trace`, and the same with `[e]` behind the class
fn new_object(reader: &mut Reader<'_>) -> Result<Right, Halt>
    requires { right_start (next reader.old.rest) ≡ RightStart.New }
    ensures ok { IfOk result (λ r. FoundRight reader.old r reader.new) }
    ensures shorter { OnOk result (length reader.new.rest < length reader.old.rest) }
    ensures fault { IfErr result (λ e. Halts (the p.Right ∷ []) reader.old e reader.new) }
{
    reader.take(Kind::Word(Keyword::New))?;
    let right = behind_new(reader)?;
    Ok(right)
}

/// `freeze y`
fn freeze(reader: &mut Reader<'_>) -> Result<Right, Halt>
    requires { right_start (next reader.old.rest) ≡ RightStart.Freeze }
    ensures ok { IfOk result (λ r. FoundRight reader.old r reader.new) }
    ensures shorter { OnOk result (length reader.new.rest < length reader.old.rest) }
    ensures fault { IfErr result (λ e. Halts (the p.Right ∷ []) reader.old e reader.new) }
{
    reader.take(Kind::Word(Keyword::Freeze))?;
    let name = reader.name()?;
    Ok(Right::Freeze(name))
}

/// `merge y`
fn merge(reader: &mut Reader<'_>) -> Result<Right, Halt>
    requires { right_start (next reader.old.rest) ≡ RightStart.Merge }
    ensures ok { IfOk result (λ r. FoundRight reader.old r reader.new) }
    ensures shorter { OnOk result (length reader.new.rest < length reader.old.rest) }
    ensures fault { IfErr result (λ e. Halts (the p.Right ∷ []) reader.old e reader.new) }
{
    reader.take(Kind::Word(Keyword::Merge))?;
    let name = reader.name()?;
    Ok(Right::Merge(name))
}

/// `read`
fn read(reader: &mut Reader<'_>) -> Result<Right, Halt>
    requires { right_start (next reader.old.rest) ≡ RightStart.Read }
    ensures ok { IfOk result (λ r. FoundRight reader.old r reader.new) }
    ensures shorter { OnOk result (length reader.new.rest < length reader.old.rest) }
    ensures fault { IfErr result (λ e. Halts (the p.Right ∷ []) reader.old e reader.new) }
{
    reader.take(Kind::Word(Keyword::Read))?;
    Ok(Right::Read)
}

/// `more`
fn more(reader: &mut Reader<'_>) -> Result<Right, Halt>
    requires { right_start (next reader.old.rest) ≡ RightStart.More }
    ensures ok { IfOk result (λ r. FoundRight reader.old r reader.new) }
    ensures shorter { OnOk result (length reader.new.rest < length reader.old.rest) }
    ensures fault { IfErr result (λ e. Halts (the p.Right ∷ []) reader.old e reader.new) }
{
    reader.take(Kind::Word(Keyword::More))?;
    Ok(Right::More)
}

/// `call q.m(a, b)`
fn call_right(reader: &mut Reader<'_>) -> Result<Right, Halt>
    requires { right_start (next reader.old.rest) ≡ RightStart.Call }
    ensures ok { IfOk result (λ r. FoundRight reader.old r reader.new) }
    ensures shorter { OnOk result (length reader.new.rest < length reader.old.rest) }
    ensures fault { IfErr result (λ e. Halts (the p.Right ∷ []) reader.old e reader.new) }
{
    let call = reader.call()?;
    Ok(Right::Call(call))
}

/// `e`
fn value(reader: &mut Reader<'_>) -> Result<Right, Halt>
    requires { right_start (next reader.old.rest) ≡ RightStart.Value }
    ensures ok { IfOk result (λ r. FoundRight reader.old r reader.new) }
    ensures shorter { OnOk result (length reader.new.rest < length reader.old.rest) }
    ensures fault { IfErr result (λ e. Halts (the p.Right ∷ []) reader.old e reader.new) }
{
    let expr = reader.expr()?;
    Ok(Right::Expr(expr))
}

/// `C`, `tmp C` or `iso C in trace`, and the same with `[e]` behind the class
fn behind_new(reader: &mut Reader<'_>) -> Result<Right, Halt>
    ensures ok { IfOk result (λ r. FoundNew reader.old r reader.new) }
    ensures shorter { OnOk result (length reader.new.rest < length reader.old.rest) }
    ensures fault { IfErr result (λ e. Halts (the p.New ∷ []) reader.old e reader.new) }
{
    match new_start(reader.next()) {
        NewStart::Plain => new_plain(reader),
        NewStart::Tmp => new_tmp(reader),
        NewStart::Iso => new_iso(reader),
        NewStart::Nothing => Err(Halt::At(Code::Syntax)),
    }
}

/// `C` or `C [e]`
fn new_plain(reader: &mut Reader<'_>) -> Result<Right, Halt>
    requires { new_start (next reader.old.rest) ≡ NewStart.Plain }
    ensures ok { IfOk result (λ r. FoundNew reader.old r reader.new) }
    ensures shorter { OnOk result (length reader.new.rest < length reader.old.rest) }
    ensures fault { IfErr result (λ e. Halts (the p.New ∷ []) reader.old e reader.new) }
{
    let name = reader.name()?;
    let size = reader.index()?;
    Ok(Right::New { name, size })
}

/// `tmp C` or `tmp C [e]`
fn new_tmp(reader: &mut Reader<'_>) -> Result<Right, Halt>
    requires { new_start (next reader.old.rest) ≡ NewStart.Tmp }
    ensures ok { IfOk result (λ r. FoundNew reader.old r reader.new) }
    ensures shorter { OnOk result (length reader.new.rest < length reader.old.rest) }
    ensures fault { IfErr result (λ e. Halts (the p.New ∷ []) reader.old e reader.new) }
{
    reader.take(Kind::Word(Keyword::Tmp))?;
    let name = reader.name()?;
    let size = reader.index()?;
    Ok(Right::NewTmp { name, size })
}

/// `iso C in trace` or `iso C [e] in trace`
fn new_iso(reader: &mut Reader<'_>) -> Result<Right, Halt>
    requires { new_start (next reader.old.rest) ≡ NewStart.Iso }
    ensures ok { IfOk result (λ r. FoundNew reader.old r reader.new) }
    ensures shorter { OnOk result (length reader.new.rest < length reader.old.rest) }
    ensures fault { IfErr result (λ e. Halts (the p.New ∷ []) reader.old e reader.new) }
{
    reader.take(Kind::Word(Keyword::Iso))?;
    let name = reader.name()?;
    let size = reader.index()?;
    reader.take(Kind::Word(Keyword::In))?;
    let manager = reader.manager()?;
    Ok(Right::NewIso {
        name,
        size,
        manager,
    })
}
