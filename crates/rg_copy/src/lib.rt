//! Mark, slide and sweep (docs/architecture.md, "A manager that moves its cells"). `collect` keeps
//! of a region what its roots reach, moves that to the lowest slots that the region had, rewrites
//! what leads there, and chains the regions that lost their owner. It takes no memory.
#![tactic(auto)]

mod forward;
mod plan;
mod shift;
mod whole;

pub use rg_regions::Kept;
pub use whole::collect;
