//! The table of regions (docs/architecture.md, "Regions"). `Regions` is a finite map from keys to
//! records: number, manager, members, bridge and room, with a link beside each for the managers.
//! `add` gives the next number, and each other call changes what its name says at one key.
//! `add` and `reserve` alone take memory. `specs/{Reach,Spent,Grove}` say what collectors keep.
#![tactic(auto)]

mod chains;
mod counts;
mod hints;
mod owned;
mod places;
mod region;
mod regions;

pub use chains::{chain_word, slot_in};
pub use counts::{added, removed};
pub use owned::chain_owned;
pub use region::Kept;
pub use regions::Regions;
