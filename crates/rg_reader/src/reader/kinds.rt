//! Which tokens are which words, values and operators (docs/language.md, "Grammar").

ghost use Rattle.std.specs.Prelude.{◌≡◌, ◌≢◌, MatchOption, MatchBool, Some};
ghost use Rattle.rg_reader.specs.Inner.Levels.{IsNext, NoneNext, operator_at};
ghost use Rattle.rg_tree.specs.Operators.{cap_of, plain_type_of, manager_of, comparison_of, sum_of};
ghost use Rattle.rg_tree.specs.Operators.{product_of};

use rg_base::{Cap, Keyword, Kind, Manager, Sign};
use rg_tree::BinOp;

/// The levels at which operands are joined from the left, the loosest first.
#[derive(Clone, Copy)]
pub(crate) enum Level {
    /// `a or b`
    Or,
    /// `a and b`
    And,
    /// `a + b`
    Sum,
    /// `a * b`
    Product,
}

/// Whether two kinds are the same.
pub(crate) fn is_same(a: Kind, b: Kind) -> bool
    ensures { MatchBool result (a ≡ b) (a ≢ b) }
{
    if a == b { true } else { false }
}

/// The capability that a word is.
fn cap_of(kind: Kind) -> Option<Cap>
    ensures { result ≡ cap_of kind }
{
    let Kind::Word(word) = kind else {
        return None;
    };
    match word {
        Keyword::Mut => Some(Cap::Mut),
        Keyword::Tmp => Some(Cap::Tmp),
        Keyword::Paused => Some(Cap::Paused),
        Keyword::Imm => Some(Cap::Imm),
        Keyword::Iso => Some(Cap::Iso),
        _ => None,
    }
}

/// The manager that a word is.
fn manager_of(kind: Kind) -> Option<Manager>
    ensures { result ≡ manager_of kind }
{
    let Kind::Word(word) = kind else {
        return None;
    };
    match word {
        Keyword::Arena => Some(Manager::Arena),
        Keyword::Count => Some(Manager::Count),
        Keyword::Trace => Some(Manager::Trace),
        _ => None,
    }
}

/// The operator that a sign of two sums is.
fn comparison_of(kind: Kind) -> Option<BinOp>
    ensures { result ≡ comparison_of kind }
{
    let Kind::Mark(sign) = kind else {
        return None;
    };
    match sign {
        Sign::Equal => Some(BinOp::Eq),
        Sign::NotEqual => Some(BinOp::Ne),
        Sign::Less => Some(BinOp::Lt),
        Sign::AtMost => Some(BinOp::Le),
        Sign::Greater => Some(BinOp::Gt),
        Sign::AtLeast => Some(BinOp::Ge),
        _ => None,
    }
}

/// The operator that a sign of two products is.
fn sum_of(kind: Kind) -> Option<BinOp>
    ensures { result ≡ sum_of kind }
{
    let Kind::Mark(sign) = kind else {
        return None;
    };
    match sign {
        Sign::Plus => Some(BinOp::Add),
        Sign::Minus => Some(BinOp::Sub),
        _ => None,
    }
}

/// The operator that a sign of two factors is.
fn product_of(kind: Kind) -> Option<BinOp>
    ensures { result ≡ product_of kind }
{
    let Kind::Mark(sign) = kind else {
        return None;
    };
    match sign {
        Sign::Star => Some(BinOp::Mul),
        Sign::Slash => Some(BinOp::Div),
        Sign::Percent => Some(BinOp::Rem),
        _ => None,
    }
}

/// The capability that stands next, and its kind.
pub(crate) fn next_cap(next: Option<Kind>) -> Option<(Kind, Cap)>
    ensures { MatchOption result (NoneNext cap_of next) (λ r. IsNext cap_of next r.0 r.1) }
{
    let kind = next?;
    let cap = cap_of(kind)?;
    Some((kind, cap))
}

/// The manager that stands next, and its kind.
pub(crate) fn next_manager(next: Option<Kind>) -> Option<(Kind, Manager)>
    ensures { MatchOption result (NoneNext manager_of next) (λ r. IsNext manager_of next r.0 r.1) }
{
    let kind = next?;
    let manager = manager_of(kind)?;
    Some((kind, manager))
}

/// The operator of two sums that stands next, and its kind.
pub(crate) fn next_comparison(next: Option<Kind>) -> Option<(Kind, BinOp)>
    ensures { MatchOption result
        (NoneNext comparison_of next) (λ r. IsNext comparison_of next r.0 r.1) }
{
    let kind = next?;
    let comparison = comparison_of(kind)?;
    Some((kind, comparison))
}

/// The operator of a level that a token is.
fn operator_at(level: Level, kind: Kind) -> Option<BinOp>
    ensures { result ≡ operator_at level kind }
{
    match level {
        Level::Or => {
            if kind == Kind::Word(Keyword::Or) {
                Some(BinOp::Or)
            } else {
                None
            }
        }
        Level::And => {
            if kind == Kind::Word(Keyword::And) {
                Some(BinOp::And)
            } else {
                None
            }
        }
        Level::Sum => sum_of(kind),
        Level::Product => product_of(kind),
    }
}

/// The operator of a level that stands next, and its kind.
pub(crate) fn next_operator(level: Level, next: Option<Kind>) -> Option<(Kind, BinOp)>
    ensures { MatchOption result
        (NoneNext (operator_at level) next) (λ r. IsNext (operator_at level) next r.0 r.1) }
{
    let kind = next?;
    let operator = operator_at(level, kind)?;
    Some((kind, operator))
}
