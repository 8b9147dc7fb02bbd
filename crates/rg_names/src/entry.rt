//! What a class table says of a member (docs/language.md, "Headers").

use rg_base::{Cap, Ty};
use rg_tree::Span;

/// A field: its number among the fields of its class, from 0, and its type.
#[derive(Clone, Copy, Debug, PartialEq, Eq)]
pub struct FieldAt {
    pub index: u32,
    pub ty: Ty,
}

/// A method: its number among all methods of the program in source order, from 0, its receiver, its
/// parameters' numbers, and the type of its result if it has one.
#[derive(Clone, Copy)]
pub struct Sig {
    pub number: u32,
    pub cap: Cap,
    pub params: Span,
    pub result: Option<Ty>,
}

/// A member of a class.
#[derive(Clone, Copy)]
pub enum Entry {
    /// `x: T;`
    Field(FieldAt),
    /// `def mut m(a: T): R { .. }`
    Method(Sig),
}
