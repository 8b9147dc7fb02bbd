//! Regions that are frozen or merged (docs/architecture.md, "Freeze and merge"). `freeze` labels
//! the cells of a closed region and of all regions beneath it as frozen and removes their
//! records; it takes no memory. `merge` moves the cells of a closed region into another one.
#![tactic(auto)]

mod counting;
mod freezing;
mod labels;
mod merging;

pub use counting::count_members;
pub use freezing::freeze;
pub use merging::merge;
