//! Objects as they are shown, and where owner references stand (docs/language.md, "Steps").

use crate::value::Vals;

/// To what an object belongs.
#[derive(Clone, Copy, Debug, PartialEq, Eq)]
pub enum Label {
    /// a region, by its number: region 0 is main's, and each that is made has the next number
    Region(u64),
    /// a temporary of a window, by its number: window 0 is main's, and each `enter` opens the next
    Temp(u64),
    /// a frozen object: to no region any more
    Frozen,
}

/// Where the reference stands that owns a region.
#[derive(Clone, Copy, Debug, PartialEq, Eq)]
pub enum Place {
    /// a variable: a frame, main's being 0, and a place among its variables, counted from 0
    Var { frame: u64, slot: u32 },
    /// a field: an object's serial, and a place among its class's fields, counted from 0
    Field { serial: u64, index: u32 },
}

/// An object. A class goes by its number; the fields are those of the class, in source order.
#[derive(Debug, Drop)]
pub struct Seen {
    pub class: u32,
    pub fields: Vals,
    pub label: Label,
}
