//! What the machine keeps: variables, frames, windows and things to do, with names, statements and
//! classes by their numbers (docs/language.md, "Steps").

use rg_base::{Place, Ty, Val};
use rg_tree::Span;

/// A variable of a frame: the number of its name, which `self` has not, its declared type and its
/// value.
#[derive(Clone, Copy)]
pub struct LocalRow {
    pub name: Option<u32>,
    pub ty: Ty,
    pub value: Val,
}

/// What takes the result of a call.
#[derive(Clone, Copy)]
pub enum TargetRow {
    /// a new variable of a type
    Declares { name: u32, ty: Ty },
    /// a variable that is there
    Assigns(Option<u32>),
    /// nothing
    Drops,
}

/// The variables of a body that runs, the oldest first, and the target of its call.
#[derive(Drop)]
pub struct FrameRow {
    pub locals: Vec<LocalRow>,
    pub target: TargetRow,
}

/// An open region, with the place of its owner, and where the variables begin that came after it.
#[derive(Clone, Copy)]
pub struct WindowRow {
    pub number: u64,
    pub region: u64,
    pub owner: Option<Place>,
    pub base_frame: usize,
    pub base_place: usize,
}

/// What is still to do.
#[derive(Clone, Copy)]
pub enum ItemRow {
    /// statements of a block, which are some
    Rest(Span),
    /// the end of a block: so many variables stay
    EndAt(usize),
    /// the end of the block of an `enter`: so many variables stay, and its window goes
    LeaveAt(usize),
    /// the same, and what owned its region then leads to the object of a variable; the line is that
    /// of the `enter`
    LeaveGiving { line: u64, kept: usize, name: u32 },
    /// the end of a method without a result
    Back,
}
