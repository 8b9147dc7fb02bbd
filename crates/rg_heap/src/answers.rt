//! What calls of the heap answer (docs/architecture.md, "The heap").

use rg_base::{Label, Manager};

/// Why a call was refused: nil was followed, or no memory was found.
#[derive(Clone, Copy)]
pub enum Refusal {
    Nil,
    Memory,
}

/// The active region: its number, its manager, and how many cells it has.
#[derive(Clone, Copy)]
pub struct Active {
    pub region: u64,
    pub manager: Manager,
    pub held: u64,
}

/// A collection: the region's number, its manager, how many cells it had before and after, and how
/// many regions went with those that were freed.
#[derive(Clone, Copy)]
pub struct Collected {
    pub region: u64,
    pub manager: Manager,
    pub held: u64,
    pub kept: u64,
    pub released: u64,
}

/// A held cell without its fields: its serial, its class, to what it belongs, and how many fields it
/// has.
#[derive(Clone, Copy)]
pub struct Held {
    pub serial: u64,
    pub class: u32,
    pub label: Label,
    pub fields: u32,
}
