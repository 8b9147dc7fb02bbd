//! The `iso` fields of a class against cowns (docs/architecture.md, "Plans").

ghost use Rattle.std.specs.Prelude.{◌≡◌, ◌<◌, All, bytes_eq, length, option_map, slice_get, Some};
ghost use Rattle.std.specs.Prelude.{IfSome};
ghost use Rattle.rg_tree.specs.Rows.RowTrees.{classes_of, member_at, type_of};
ghost use Rattle.rg_tree.specs.Rows.RowsExist.{IsTypeIn, IsNameIn};
ghost use Rattle.rg_tree.specs.Rows.Tables.{name_at};
ghost use Rattle.rg_rules.specs.Types as types;
ghost use Rattle.rg_plan.specs.Lines as rules;
ghost use Rattle.rg_plan.specs.Inner.Owned as inner;

use crate::cown::Cown;
use crate::targets::no_numbers;
use rg_base::Cap;
use rg_names::Book;
use rg_tree::{MemberRow, TypeRow};

/// Whether the `iso` fields of a class and these cowns have the same classes in the same order.
pub fn owns(book: &Book<'_>, class: u32, cowns: &[Cown], numbers: &[u32]) -> bool
    requires class { class < length (classes_of book.now.program) }
    requires numbers { All (λ n. n < length cowns.now) numbers.now }
    ensures { result ≡ bytes_eq (rules.owned_classes (classes_of book.now.program) class)
        (rules.cown_classes cowns.now numbers.now) }
{
    let mut rest = numbers;
    let members = book.members_of(book.class(class));
    for k in members {
        let Some(behind) = behind_member(book, *k, cowns, rest) else {
            return false;
        };
        rest = behind;
    }
    no_numbers(rest)
}

// The cowns behind the one that a member owns, if it owns one and that one has its class.
fn behind_member<'a>(
    book: &Book<'_>,
    k: u32,
    cowns: &[Cown],
    numbers: &'a [u32],
) -> Option<&'a [u32]>
    requires member { k < length book.now.program.members }
    requires numbers { All (λ n. n < length cowns.now) numbers.now }
    ensures matched { inner.Matches (classes_of book.now.program) (member_at book.now.program k)
        cowns.now numbers.now (option_map (λ r. r.now) result) }
    ensures below { IfSome result (λ r. All (λ n. n < length cowns.now) r.now) }
{
    match owned_by(book, k) {
        None => Some(numbers),
        Some(class) => behind_first(cowns, numbers, class),
    }
}

// The cowns behind the first one, if that one has this class.
fn behind_first<'a>(cowns: &[Cown], numbers: &'a [u32], class: u32) -> Option<&'a [u32]>
    requires { All (λ n. n < length cowns.now) numbers.now }
    ensures matched { inner.BeginsWith class cowns.now numbers.now (option_map (λ r. r.now) result) }
    ensures below { IfSome result (λ r. All (λ n. n < length cowns.now) r.now) }
{
    let [first, others @ ..] = numbers else {
        return None;
    };
    if class_at(cowns, *first) == class {
        Some(others)
    } else {
        None
    }
}

// The class of the cown of a number.
fn class_at(cowns: &[Cown], n: u32) -> u32
    requires { n < length cowns.now }
    ensures { option_map (λ c. c.class) (slice_get cowns.now n) ≡ Some result }
{
    cowns[n as usize].class
}

// The class of a member that is an `iso` field.
fn owned_by(book: &Book<'_>, k: u32) -> Option<u32>
    requires { k < length book.now.program.members }
    ensures { let t = book.now.program in
        result ≡ rules.owned_by (classes_of t) (member_at t k) }
{
    match book.member(k) {
        MemberRow::Field { ty, .. } => owned_type(book, ty),
        MemberRow::Method { .. } => None,
    }
}

// The class of a type, if it is `iso`.
fn owned_type(book: &Book<'_>, ty: TypeRow) -> Option<u32>
    requires { IsTypeIn book.now.program ty }
    ensures { let t = book.now.program in
        result ≡ rules.owned_type (types.type_of (classes_of t) (type_of t ty)) }
{
    match ty {
        TypeRow::Int => None,
        TypeRow::Bool => None,
        TypeRow::Ref { cap, name } => match cap {
            Cap::Mut | Cap::Tmp | Cap::Paused | Cap::Imm => None,
            Cap::Iso => Some(class_number(book, name)),
        },
    }
}

// The number of the class of a name; the number of classes where there is none.
fn class_number(book: &Book<'_>, name: u32) -> u32
    requires { IsNameIn book.now.program name }
    ensures { let t = book.now.program in
        result ≡ types.class_number (classes_of t) (name_at t name) }
{
    match book.class_of(name) {
        Some(class) => class,
        None => book.class_count(),
    }
}
