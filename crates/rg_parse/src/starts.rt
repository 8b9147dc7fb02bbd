//! By which row a reading goes on, from the token that stands next (docs/language.md, "Grammar").

ghost use Rattle.std.specs.Prelude.{◌≡◌};
ghost use Rattle.rg_parse.specs.Inner.Starts.{stmt_start, right_start, new_start};

use rg_base::{Keyword, Kind};

/// How a statement begins.
#[derive(Clone, Copy)]
pub(crate) enum StmtStart {
    Let,
    Assign,
    Call,
    Swap,
    If,
    While,
    Enter,
    Print,
    Collect,
    Return,
    Nothing,
}

/// How a statement begins, from the next token.
pub(crate) fn stmt_start(next: Option<Kind>) -> StmtStart
    ensures { result ≡ stmt_start next }
{
    let word = match next {
        Some(Kind::Name) => return StmtStart::Assign,
        Some(Kind::Word(word)) => word,
        _ => return StmtStart::Nothing,
    };
    match word {
        Keyword::Let => StmtStart::Let,
        Keyword::SelfWord => StmtStart::Assign,
        Keyword::Call => StmtStart::Call,
        Keyword::Swap => StmtStart::Swap,
        Keyword::If => StmtStart::If,
        Keyword::While => StmtStart::While,
        Keyword::Enter => StmtStart::Enter,
        Keyword::Print => StmtStart::Print,
        Keyword::Collect => StmtStart::Collect,
        Keyword::Return => StmtStart::Return,
        _ => StmtStart::Nothing,
    }
}

/// How a right side begins.
#[derive(Clone, Copy)]
pub(crate) enum RightStart {
    New,
    Freeze,
    Merge,
    Read,
    More,
    Call,
    Value,
}

/// How a right side begins, from the next token.
pub(crate) fn right_start(next: Option<Kind>) -> RightStart
    ensures { result ≡ right_start next }
{
    let Some(Kind::Word(word)) = next else {
        return RightStart::Value;
    };
    match word {
        Keyword::New => RightStart::New,
        Keyword::Freeze => RightStart::Freeze,
        Keyword::Merge => RightStart::Merge,
        Keyword::Read => RightStart::Read,
        Keyword::More => RightStart::More,
        Keyword::Call => RightStart::Call,
        _ => RightStart::Value,
    }
}

/// What stands behind `new`.
#[derive(Clone, Copy)]
pub(crate) enum NewStart {
    Plain,
    Tmp,
    Iso,
    Nothing,
}

/// What stands behind `new`, from the next token.
pub(crate) fn new_start(next: Option<Kind>) -> NewStart
    ensures { result ≡ new_start next }
{
    match next {
        Some(Kind::Name) => NewStart::Plain,
        Some(Kind::Word(Keyword::Tmp)) => NewStart::Tmp,
        Some(Kind::Word(Keyword::Iso)) => NewStart::Iso,
        _ => NewStart::Nothing,
    }
}
