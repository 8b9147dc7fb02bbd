//! Reads classes and their members (docs/language.md, "Grammar").

ghost use Rattle.std.specs.Prelude.{◌≡◌, ◌≢◌, ◌<◌, ◌≤◌, [], ◌∷◌, length, Some, IfOk, IfErr, OnOk};
ghost use Rattle.rg_tree.specs.Phrases.{the};
ghost use Rattle.rg_tree.specs.Phrases as p;
ghost use Rattle.rg_tree.specs.Table.{next};
ghost use Rattle.rg_reader.specs.Steps.{Halts};
ghost use Rattle.rg_parse.specs.Inner.Readings.{FoundParams, FoundMembers, FoundMember, FoundParam};
ghost use Rattle.rg_parse.specs.Inner.Readings.{FoundClass, FoundClassRest, param_symbols};

use crate::rules::blocks::block;
use rg_base::{Code, Keyword, Kind, Sign};
use rg_reader::{Halt, Reader, Role, keep};
use rg_tree::{ClassRow, MemberRow, ParamRow, Span, TypeRow};

/// `class C { .. }` or `class C [T];`
pub(crate) fn class_row(reader: &mut Reader<'_>) -> Result<ClassRow, Halt>
    requires { next reader.old.rest ≡ Some (Kind.Word Keyword.Class) }
    ensures ok { IfOk result (λ r. FoundClass reader.old r reader.new) }
    ensures shorter { OnOk result (length reader.new.rest < length reader.old.rest) }
    ensures fault { IfErr result (λ e. Halts (the p.Class ∷ []) reader.old e reader.new) }
{
    let line = reader.line(0);
    reader.take(Kind::Word(Keyword::Class))?;
    let name = reader.declare(Role::Class)?;
    let rest = class_rest(reader)?;
    Ok(ClassRow {
        name,
        is_tmp: false,
        element: rest.0,
        members: rest.1,
        line,
    })
}

/// `tmp class C { .. }` or `tmp class C [T];`
pub(crate) fn tmp_class_row(reader: &mut Reader<'_>) -> Result<ClassRow, Halt>
    requires { next reader.old.rest ≡ Some (Kind.Word Keyword.Tmp) }
    ensures ok { IfOk result (λ r. FoundClass reader.old r reader.new) }
    ensures shorter { OnOk result (length reader.new.rest < length reader.old.rest) }
    ensures fault { IfErr result (λ e. Halts (the p.Class ∷ []) reader.old e reader.new) }
{
    let line = reader.line(0);
    reader.take(Kind::Word(Keyword::Tmp))?;
    reader.take(Kind::Word(Keyword::Class))?;
    let name = reader.declare(Role::Class)?;
    let rest = class_rest(reader)?;
    Ok(ClassRow {
        name,
        is_tmp: true,
        element: rest.0,
        members: rest.1,
        line,
    })
}

/// `{ .. }` or `[T];`
fn class_rest(reader: &mut Reader<'_>) -> Result<(Option<TypeRow>, Span), Halt>
    ensures ok { IfOk result (λ r. FoundClassRest reader.old r reader.new) }
    ensures shorter { OnOk result (length reader.new.rest < length reader.old.rest) }
    ensures fault { IfErr result (λ e. Halts (the p.ClassRest ∷ []) reader.old e reader.new) }
{
    if reader.is_next(Kind::Mark(Sign::OpenBrace)) {
        members_row(reader)
    } else if reader.is_next(Kind::Mark(Sign::OpenBracket)) {
        element_row(reader)
    } else {
        Err(Halt::At(Code::Syntax))
    }
}

/// `{ .. }`
fn members_row(reader: &mut Reader<'_>) -> Result<(Option<TypeRow>, Span), Halt>
    requires { next reader.old.rest ≡ Some (Kind.Mark Sign.OpenBrace) }
    ensures ok { IfOk result (λ r. FoundClassRest reader.old r reader.new) }
    ensures shorter { OnOk result (length reader.new.rest < length reader.old.rest) }
    ensures fault { IfErr result (λ e. Halts (the p.ClassRest ∷ []) reader.old e reader.new) }
{
    reader.take(Kind::Mark(Sign::OpenBrace))?;
    let members = members(reader)?;
    reader.take(Kind::Mark(Sign::CloseBrace))?;
    Ok((None, members))
}

/// `[T];`
fn element_row(reader: &mut Reader<'_>) -> Result<(Option<TypeRow>, Span), Halt>
    requires { next reader.old.rest ≡ Some (Kind.Mark Sign.OpenBracket) }
    ensures ok { IfOk result (λ r. FoundClassRest reader.old r reader.new) }
    ensures shorter { OnOk result (length reader.new.rest < length reader.old.rest) }
    ensures fault { IfErr result (λ e. Halts (the p.ClassRest ∷ []) reader.old e reader.new) }
{
    reader.take(Kind::Mark(Sign::OpenBracket))?;
    let ty = reader.ty()?;
    reader.take(Kind::Mark(Sign::CloseBracket))?;
    reader.take(Kind::Mark(Sign::Semicolon))?;
    Ok((Some(ty), Span { from: 0, to: 0 }))
}

/// Members up to the end of a class.
fn members(reader: &mut Reader<'_>) -> Result<Span, Halt>
    ensures ok { IfOk result (λ s. FoundMembers reader.old s reader.new) }
    ensures shorter { OnOk result (length reader.new.rest ≤ length reader.old.rest) }
    ensures fault { IfErr result (λ e. Halts (the p.Members ∷ []) reader.old e reader.new) }
{
    let mut numbers = Vec::new(reader.alloc());
    while !reader.is_next(Kind::Mark(Sign::CloseBrace)) {
        let member = member(reader)?;
        let number = reader.add_member(member)?;
        keep(&mut numbers, number)?;
    }
    let span = reader.add_order(&numbers)?;
    Ok(span)
}

/// A member.
fn member(reader: &mut Reader<'_>) -> Result<MemberRow, Halt>
    requires { next reader.old.rest ≢ Some (Kind.Mark Sign.CloseBrace) }
    ensures ok { IfOk result (λ m. FoundMember reader.old m reader.new) }
    ensures shorter { OnOk result (length reader.new.rest < length reader.old.rest) }
    ensures fault { IfErr result (λ e. Halts (the p.Members ∷ []) reader.old e reader.new) }
{
    if reader.is_next(Kind::Name) {
        field_row(reader)
    } else if reader.is_next(Kind::Word(Keyword::Def)) {
        method_row(reader)
    } else {
        Err(Halt::At(Code::Syntax))
    }
}

/// `x: T;`
fn field_row(reader: &mut Reader<'_>) -> Result<MemberRow, Halt>
    requires { next reader.old.rest ≡ Some Kind.Name }
    ensures ok { IfOk result (λ m. FoundMember reader.old m reader.new) }
    ensures shorter { OnOk result (length reader.new.rest < length reader.old.rest) }
    ensures fault { IfErr result (λ e. Halts (the p.Members ∷ []) reader.old e reader.new) }
{
    let line = reader.line(0);
    let name = reader.declare(Role::Field)?;
    reader.take(Kind::Mark(Sign::Colon))?;
    let ty = reader.ty()?;
    reader.take(Kind::Mark(Sign::Semicolon))?;
    Ok(MemberRow::Field { name, ty, line })
}

/// `def mut m(a: T): R { .. }`
fn method_row(reader: &mut Reader<'_>) -> Result<MemberRow, Halt>
    requires { next reader.old.rest ≡ Some (Kind.Word Keyword.Def) }
    ensures ok { IfOk result (λ m. FoundMember reader.old m reader.new) }
    ensures shorter { OnOk result (length reader.new.rest < length reader.old.rest) }
    ensures fault { IfErr result (λ e. Halts (the p.Members ∷ []) reader.old e reader.new) }
{
    let line = reader.line(0);
    reader.take(Kind::Word(Keyword::Def))?;
    let cap = reader.cap()?;
    let name = reader.declare(Role::Method)?;
    reader.take(Kind::Mark(Sign::OpenParen))?;
    let params = params(reader)?;
    reader.take(Kind::Mark(Sign::CloseParen))?;
    let result = reader.result()?;
    let body = block(reader)?;
    Ok(MemberRow::Method {
        cap,
        name,
        params,
        result,
        body,
        line,
    })
}

/// `a: T, b: U`
fn params(reader: &mut Reader<'_>) -> Result<Span, Halt>
    ensures ok { IfOk result (λ s. FoundParams reader.old s reader.new) }
    ensures shorter { OnOk result (length reader.new.rest ≤ length reader.old.rest) }
    ensures fault { IfErr result (λ e. Halts (the p.Params ∷ []) reader.old e reader.new) }
{
    if reader.is_next(Kind::Mark(Sign::CloseParen)) {
        no_params(reader)
    } else if reader.is_next(Kind::Name) {
        some_params(reader)
    } else {
        Err(Halt::At(Code::Syntax))
    }
}

/// Nothing.
fn no_params(reader: &mut Reader<'_>) -> Result<Span, Halt>
    requires { next reader.old.rest ≡ Some (Kind.Mark Sign.CloseParen) }
    ensures ok { IfOk result (λ s. FoundParams reader.old s reader.new) }
    ensures shorter { OnOk result (length reader.new.rest ≤ length reader.old.rest) }
    ensures fault { IfErr result (λ e. Halts (the p.Params ∷ []) reader.old e reader.new) }
{
    let span = reader.add_order(&[])?;
    Ok(span)
}

/// `a: T, b: U`, at least one
fn some_params(reader: &mut Reader<'_>) -> Result<Span, Halt>
    requires { next reader.old.rest ≡ Some Kind.Name }
    ensures ok { IfOk result (λ s. FoundParams reader.old s reader.new) }
    ensures shorter { OnOk result (length reader.new.rest ≤ length reader.old.rest) }
    ensures fault { IfErr result (λ e. Halts (the p.Params ∷ []) reader.old e reader.new) }
{
    let mut numbers = Vec::new(reader.alloc());
    let first = param(reader)?;
    keep(&mut numbers, first)?;
    while reader.is_next(Kind::Mark(Sign::Comma)) {
        reader.take(Kind::Mark(Sign::Comma))?;
        let param = param(reader)?;
        keep(&mut numbers, param)?;
    }
    reader.closes()?;
    let span = reader.add_order(&numbers)?;
    Ok(span)
}

/// `a: T`
fn param(reader: &mut Reader<'_>) -> Result<u32, Halt>
    ensures ok { IfOk result (λ n. FoundParam reader.old n reader.new) }
    ensures shorter { OnOk result (length reader.new.rest < length reader.old.rest) }
    ensures fault { IfErr result (λ e. Halts param_symbols reader.old e reader.new) }
{
    let name = reader.declare(Role::Param)?;
    reader.take(Kind::Mark(Sign::Colon))?;
    let ty = reader.ty()?;
    let number = reader.add_param(ParamRow { name, ty })?;
    Ok(number)
}
