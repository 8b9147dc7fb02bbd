//! The operators of two operands, by their rules (docs/language.md, "Judgements").

ghost use Rattle.std.specs.Prelude.{◌≡◌, not as negated, IfSome, List};
ghost use Rattle.rg_tree.specs.Tree.{Class};
ghost use Rattle.rg_rules.specs.Capabilities as tables;
ghost use Rattle.rg_rules.specs.Expressions as rules;
ghost use Rattle.rg_names.specs.TreeAnswers.{IsKnown};
ghost use Rattle.rg_expressions.specs.Inner.Operations.{operators_of};

use rg_base::{Cap, Ty};
use rg_tree::BinOp;

/// The operators that have one rule.
#[derive(Clone, Copy)]
pub enum Operators {
    /// `+ - * / %`
    Arithmetic,
    /// `< <= > >=`
    Order,
    /// `== !=`
    Equality,
    /// `and or`
    Logic,
}

impl Operators {
    /// Those to which an operator belongs.
    pub fn among(op: BinOp) -> Operators
        ensures { operators_of result ≡ rules.among op }
    {
        match op {
            BinOp::Or | BinOp::And => Operators::Logic,
            BinOp::Eq | BinOp::Ne => Operators::Equality,
            BinOp::Lt | BinOp::Le | BinOp::Gt | BinOp::Ge => Operators::Order,
            BinOp::Add | BinOp::Sub | BinOp::Mul | BinOp::Div | BinOp::Rem => Operators::Arithmetic,
        }
    }

    /// The type that is expected of both operands.
    pub fn operand_type(self) -> Option<Ty>
        ensures ty { result ≡ rules.operand_type (operators_of self) }
        ensures known { (classes : List Class) → IfSome result (IsKnown classes) }
    {
        match self {
            Operators::Arithmetic | Operators::Order => Some(Ty::Int),
            Operators::Equality => None,
            Operators::Logic => Some(Ty::Bool),
        }
    }

    /// Whether operands of two types may stand together.
    pub fn agree(self, left: Ty, right: Ty) -> bool
        ensures { result ≡ rules.agree (operators_of self) left right }
    {
        match self {
            Operators::Arithmetic | Operators::Order | Operators::Logic => true,
            Operators::Equality => is_comparable(left, right),
        }
    }

    /// The type of the result.
    pub fn result_type(self) -> Ty
        ensures ty { result ≡ rules.result_type (operators_of self) }
        ensures known { (classes : List Class) → IsKnown classes result }
    {
        match self {
            Operators::Arithmetic => Ty::Int,
            Operators::Order | Operators::Equality | Operators::Logic => Ty::Bool,
        }
    }
}

// Whether values of two types may be compared by `==`.
fn is_comparable(left: Ty, right: Ty) -> bool
    ensures { result ≡ tables.comparable left right }
{
    match (left, right) {
        (Ty::Int, Ty::Int) | (Ty::Bool, Ty::Bool) => true,
        (
            Ty::Ref { cap, class },
            Ty::Ref {
                cap: other_cap,
                class: other,
            },
        ) => class == other && is_shared(cap) && is_shared(other_cap),
        (Ty::Int, Ty::Bool | Ty::Ref { .. })
        | (Ty::Bool, Ty::Int | Ty::Ref { .. })
        | (Ty::Ref { .. }, Ty::Int | Ty::Bool) => false,
    }
}

// Whether a capability isn't `iso`.
fn is_shared(cap: Cap) -> bool
    ensures { result ≡ negated (tables.is_iso_cap cap) }
{
    cap != Cap::Iso
}
