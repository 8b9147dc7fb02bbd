//! Deferred reference counting (docs/architecture.md, "Counting"). `collect` frees of a region the
//! cells to which only spent cells lead, and chains the regions that lost their owner. It takes no
//! memory.
#![tactic(auto)]

mod down;
mod roots;
mod sweeping;
mod whole;

pub use rg_regions::{Kept, added, removed};
pub use whole::collect;
