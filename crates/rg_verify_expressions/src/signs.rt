//! What an instruction is behind the expressions of a statement
//! (docs/architecture.md, "Modules").

use rg_base::Manager;

/// A right side of one instruction.
#[derive(Clone, Copy)]
pub enum Making {
    /// `new c0`
    New { class: u32 },
    /// `new tmp c0`
    NewTmp { class: u32 },
    /// `new iso c0 in trace`
    NewIso { class: u32, manager: Manager },
    /// `freeze v0`
    Freeze { slot: u32 },
    /// `merge v0`
    Merge { slot: u32 },
    /// `read`
    Read,
    /// `more`
    More,
}

/// How a value goes into a slot.
#[derive(Clone, Copy)]
pub enum Target {
    /// nothing is released
    Store { slot: u32 },
    /// what the slot owns is released
    Own { slot: u32 },
}

/// What ends a statement behind a whole expression, or opens its block.
#[derive(Clone, Copy)]
pub enum Close {
    /// `print e`
    Print,
    /// `return e`
    Return,
    /// `if e` or `while e`: the code goes on there where the test fails
    Test { to: usize },
}

/// What a statement without expressions begins with.
#[derive(Clone, Copy)]
pub enum Open {
    /// `collect`
    Collect,
    /// `enter v0 as v3`
    Enter { slot: u32, bridge: u32 },
}

/// What stands behind an expression that isn't a value as a whole.
#[derive(Clone, Copy)]
pub enum Walk {
    /// `enter v0.f1 as v3`
    Enter { index: u32, bridge: u32 },
    /// `new c0 [e]`
    New { class: u32 },
    /// `new tmp c0 [e]`
    NewTmp { class: u32 },
    /// `new iso c0 [e] in trace`
    NewIso { class: u32, manager: Manager },
}

/// What stands behind an object that was tested, and further expressions.
#[derive(Clone, Copy)]
pub enum Behind {
    /// they are the arguments of a call
    Room,
    /// `swap v3, v0.f1`
    Swap { slot: u32, index: u32 },
}

/// How a window is left: from which slot on slots end, and the slot that gives the bridge.
#[derive(Clone, Copy)]
pub struct Leave {
    pub slot: u32,
    pub given: Option<u32>,
}
