//! Release of regions (docs/architecture.md, "Release"). `release` frees the cells of some closed
//! regions and of all regions beneath them, and removes their records. It takes no memory.
#![tactic(auto)]

mod freeing;
mod whole;

pub use whole::release;
