//! Mark and sweep (docs/architecture.md, "Mark and sweep"). `collect` keeps of a region what its
//! roots reach, and chains the regions that lost their owner. It takes no memory.
#![tactic(auto)]

mod mark;
mod orphans;
mod sweeping;
mod whole;

pub use mark::mark_region;
pub use orphans::chain_orphans;
pub use rg_regions::Kept;
pub use sweeping::sweep;
pub use whole::collect;
