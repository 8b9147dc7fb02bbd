//! The texts of operators, capabilities and managers, and how tight operators bind
//! (docs/language.md, "Canonical text").

ghost use Rattle.std.specs.Prelude.{◌≡◌};
ghost use Rattle.rg_tree.specs.Canonical.{op_text, cap_text, class_word, manager_text, op_level};
ghost use Rattle.rg_tree.specs.Canonical.{left_level, right_level};

use rg_base::{Cap, Manager};
use rg_tree::BinOp;

/// An operator, with one blank on each side.
pub fn op_bytes(op: BinOp) -> &'static [u8]
    ensures { result.now ≡ op_text op }
{
    match op {
        BinOp::Or => b" or ",
        BinOp::And => b" and ",
        BinOp::Eq => b" == ",
        BinOp::Ne => b" != ",
        BinOp::Lt => b" < ",
        BinOp::Le => b" <= ",
        BinOp::Gt => b" > ",
        BinOp::Ge => b" >= ",
        BinOp::Add => b" + ",
        BinOp::Sub => b" - ",
        BinOp::Mul => b" * ",
        BinOp::Div => b" / ",
        BinOp::Rem => b" % ",
    }
}

/// The level of an expression with this operator.
pub fn own_level(op: BinOp) -> u8
    ensures { result ≡ op_level op }
{
    match op {
        BinOp::Or => 0,
        BinOp::And => 1,
        BinOp::Eq | BinOp::Ne | BinOp::Lt | BinOp::Le | BinOp::Gt | BinOp::Ge => 3,
        BinOp::Add | BinOp::Sub => 4,
        BinOp::Mul | BinOp::Div | BinOp::Rem => 5,
    }
}

/// The least level that stands bare on the left.
pub fn least_left(op: BinOp) -> u8
    ensures { result ≡ left_level op }
{
    match op {
        BinOp::Or => 0,
        BinOp::And => 1,
        BinOp::Eq | BinOp::Ne | BinOp::Lt | BinOp::Le | BinOp::Gt | BinOp::Ge => 4,
        BinOp::Add | BinOp::Sub => 4,
        BinOp::Mul | BinOp::Div | BinOp::Rem => 5,
    }
}

/// The least level that stands bare on the right.
pub fn least_right(op: BinOp) -> u8
    ensures { result ≡ right_level op }
{
    match op {
        BinOp::Or => 1,
        BinOp::And => 2,
        BinOp::Eq | BinOp::Ne | BinOp::Lt | BinOp::Le | BinOp::Gt | BinOp::Ge => 4,
        BinOp::Add | BinOp::Sub => 5,
        BinOp::Mul | BinOp::Div | BinOp::Rem => 6,
    }
}

/// A capability.
pub fn cap_bytes(cap: Cap) -> &'static [u8]
    ensures { result.now ≡ cap_text cap }
{
    match cap {
        Cap::Mut => b"mut",
        Cap::Tmp => b"tmp",
        Cap::Paused => b"paused",
        Cap::Imm => b"imm",
        Cap::Iso => b"iso",
    }
}

/// A manager.
pub fn manager_bytes(manager: Manager) -> &'static [u8]
    ensures { result.now ≡ manager_text manager }
{
    match manager {
        Manager::Arena => b"arena",
        Manager::Count => b"count",
        Manager::Trace => b"trace",
    }
}

/// What stands in front of the name of a class.
pub fn class_bytes(is_tmp: bool) -> &'static [u8]
    ensures { result.now ≡ class_word is_tmp }
{
    if is_tmp { b"tmp class " } else { b"class " }
}
