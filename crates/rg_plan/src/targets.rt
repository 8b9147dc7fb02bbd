//! Which method a behaviour runs (docs/architecture.md, "Plans").

ghost use Rattle.std.specs.Prelude.{◌≡◌, ◌<◌, length, IfSome};
ghost use Rattle.rg_tree.specs.Rows.RowTrees.{classes_of};
ghost use Rattle.rg_tree.specs.Rows.RowsExist.{IsSpanBelow};
ghost use Rattle.rg_plan.specs.Lines as rules;
ghost use Rattle.rg_plan.specs.Inner.Found as inner;

use crate::classes::{find_name, ordinary_class};
use crate::pieces::{Pieces, pair};
use rg_base::Cap;
use rg_names::{Book, Sig};

/// A method of a class: both go by their numbers.
#[derive(Clone, Copy)]
pub struct Target {
    pub class: u32,
    pub method: u32,
}

/// The method that `C.m` names.
pub fn target_of(book: &Book<'_>, text: &[u8]) -> Option<Target>
    ensures is { result ≡ rules.target (classes_of book.now.program) text.now }
    ensures within { IfSome result (λ t. t.class < length (classes_of book.now.program)) }
{
    let Some((class, method)) = pair(Pieces::of(text, b'.')) else {
        return None;
    };
    let Some(found) = ordinary_class(book, class) else {
        return None;
    };
    let Some(name) = find_name(book, found.class, method) else {
        return None;
    };
    let Some(sig) = book.method(found.class, name) else {
        return None;
    };
    if !is_plain(book, sig) {
        return None;
    }
    Some(Target {
        class: found.class,
        method: sig.number,
    })
}

// Whether a method is `def mut m() { .. }`.
fn is_plain(book: &Book<'_>, sig: Sig) -> bool
    requires { IsSpanBelow book.now.program (length book.now.program.params) sig.params }
    ensures { result ≡ inner.is_plain_sig book.now.program sig }
{
    if !is_mut(sig.cap) {
        return false;
    }
    if !no_numbers(book.order(sig.params)) {
        return false;
    }
    match sig.result {
        None => true,
        Some(_) => false,
    }
}

/// Whether there are no numbers.
pub fn no_numbers(numbers: &[u32]) -> bool
    ensures { result ≡ inner.no_numbers numbers.now }
{
    match numbers {
        [] => true,
        [_, ..] => false,
    }
}

// Whether a receiver is `mut`.
fn is_mut(cap: Cap) -> bool
    ensures { result ≡ rules.is_mut cap }
{
    match cap {
        Cap::Mut => true,
        Cap::Tmp | Cap::Paused | Cap::Imm | Cap::Iso => false,
    }
}
