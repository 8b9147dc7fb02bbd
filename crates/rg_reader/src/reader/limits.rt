//! The limits: what is counted behind a token (docs/language.md, "Limits").

ghost use Rattle.std.specs.Prelude.{◌≡◌, ◌<◌, ◌≤◌, ◌+◌, ◌^◌, ◌-◌};
ghost use Rattle.rg_tree.specs.Counts.{behind, opened, one_sign, counted};
ghost use Rattle.rg_reader.specs.Roles.{symbol_of};

use rg_base::{
    BODY_NAMES, BRACKETS, CLASS_FIELDS, CLASS_METHODS, CLASSES, Code, Keyword, Kind, PARAMETERS,
    STATEMENT_SIGNS, Sign,
};
use rg_tree::Counts;

/// What a name is declared as.
#[derive(Clone, Copy, Debug, PartialEq, Eq)]
pub enum Role {
    Class,
    Field,
    Method,
    Param,
    /// by a `let` or an `enter`
    Local,
}

/// The counts behind a token that is expected as itself.
pub(crate) fn behind(kind: Kind, mut counts: Counts) -> Result<Counts, Code>
    ensures { result ≡ behind kind counts }
{
    match kind {
        Kind::Mark(sign) => return behind_sign(sign, counts),
        Kind::Word(word) => match word {
            Keyword::Def => {
                counts.params = 0;
                counts.names = 1;
            }
            Keyword::Main => counts.names = 0,
            _ => {}
        },
        Kind::Name | Kind::Number(_) => {}
    }
    Ok(counts)
}

/// The counts behind a sign that is expected as itself.
fn behind_sign(sign: Sign, mut counts: Counts) -> Result<Counts, Code>
    ensures { result ≡ behind (Kind.Mark sign) counts }
{
    match sign {
        Sign::OpenBrace | Sign::OpenParen | Sign::OpenBracket => return opened(counts),
        Sign::CloseBrace | Sign::CloseParen | Sign::CloseBracket => {
            counts.brackets = counts.brackets.saturating_sub(1);
        }
        _ => {}
    }
    Ok(counts)
}

/// One bracket more is open.
fn opened(mut counts: Counts) -> Result<Counts, Code>
    ensures { result ≡ opened counts }
{
    if counts.brackets >= BRACKETS as u64 {
        return Err(Code::Nesting);
    }
    counts.brackets += 1;
    Ok(counts)
}

/// One sign more of the statement.
pub(crate) fn one_sign(mut counts: Counts) -> Result<Counts, Code>
    ensures { result ≡ one_sign counts }
{
    if counts.signs >= STATEMENT_SIGNS as u64 {
        return Err(Code::Limit);
    }
    counts.signs += 1;
    Ok(counts)
}

/// The counts behind a name that is declared.
pub(crate) fn counted(role: Role, mut counts: Counts) -> Result<Counts, Code>
    requires { counts.names < 2 ^ 64 - 1 }
    ensures { result ≡ counted (symbol_of role) counts }
{
    let (so_far, most) = match role {
        Role::Class => (counts.classes, CLASSES),
        Role::Field => (counts.fields, CLASS_FIELDS),
        Role::Method => (counts.methods, CLASS_METHODS),
        Role::Param => (counts.params, PARAMETERS),
        Role::Local => (counts.names, BODY_NAMES),
    };
    if so_far >= most as u64 {
        return Err(Code::Limit);
    }
    match role {
        Role::Class => {
            counts.classes += 1;
            counts.fields = 0;
            counts.methods = 0;
        }
        Role::Field => counts.fields += 1,
        Role::Method => counts.methods += 1,
        Role::Param => {
            counts.params += 1;
            counts.names += 1;
        }
        Role::Local => counts.names += 1,
    }
    Ok(counts)
}
