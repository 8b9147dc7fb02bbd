//! By which row a reading goes on, from the token that stands next (docs/language.md, "Grammar").

ghost use Rattle.std.specs.Prelude.{◌≡◌};
ghost use Rattle.rg_reader.specs.Inner.Starts.{type_start, primary_start, base_start};

use rg_base::{Keyword, Kind, Sign};

/// How a type begins.
#[derive(Clone, Copy)]
pub(crate) enum TypeStart {
    Int,
    Bool,
    Ref,
    Nothing,
}

/// How a type begins, from the next token.
pub(crate) fn type_start(next: Option<Kind>) -> TypeStart
    ensures { result ≡ type_start next }
{
    let Some(Kind::Word(word)) = next else {
        return TypeStart::Nothing;
    };
    match word {
        Keyword::Int => TypeStart::Int,
        Keyword::Bool => TypeStart::Bool,
        Keyword::Mut | Keyword::Tmp | Keyword::Paused | Keyword::Imm | Keyword::Iso => {
            TypeStart::Ref
        }
        _ => TypeStart::Nothing,
    }
}

/// How a path begins.
#[derive(Clone, Copy)]
pub(crate) enum BaseStart {
    Name,
    SelfWord,
    Nothing,
}

/// How a path begins, from the next token.
pub(crate) fn base_start(next: Option<Kind>) -> BaseStart
    ensures { result ≡ base_start next }
{
    match next {
        Some(Kind::Name) => BaseStart::Name,
        Some(Kind::Word(Keyword::SelfWord)) => BaseStart::SelfWord,
        _ => BaseStart::Nothing,
    }
}

/// How a primary begins.
#[derive(Clone, Copy)]
pub(crate) enum PrimaryStart {
    Number(i64),
    True,
    False,
    Nil,
    Paren,
    Size,
    Path,
    Nothing,
}

/// How a primary begins, from the next token.
pub(crate) fn primary_start(next: Option<Kind>) -> PrimaryStart
    ensures { result ≡ primary_start next }
{
    let word = match next {
        Some(Kind::Number(value)) => return PrimaryStart::Number(value),
        Some(Kind::Name) => return PrimaryStart::Path,
        Some(Kind::Mark(Sign::OpenParen)) => return PrimaryStart::Paren,
        Some(Kind::Word(word)) => word,
        _ => return PrimaryStart::Nothing,
    };
    match word {
        Keyword::True => PrimaryStart::True,
        Keyword::False => PrimaryStart::False,
        Keyword::Nil => PrimaryStart::Nil,
        Keyword::Size => PrimaryStart::Size,
        Keyword::SelfWord => PrimaryStart::Path,
        _ => PrimaryStart::Nothing,
    }
}
