//! The heap (docs/architecture.md, "The heap"). `Heap` owns cells and regions, and keeps the
//! forest (`Grove`) as an invariant: making, reading and writing objects, and opening, leaving and
//! dropping regions, each exact on cells, regions and windows.
#![tactic(auto)]

mod answers;
mod collecting;
mod ending;
mod giving;
mod heap;
mod making;
mod reading;
mod sliding;
mod writing;

pub use answers::{Active, Collected, Held, Refusal};
pub use heap::Heap;
