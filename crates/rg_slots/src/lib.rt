//! What cowns have while behaviours run (docs/architecture.md, "Worlds"). A `Slot` is what one cown
//! has (a `Content`, where it is looked at), and `Slots` what all of them have: `Slots::open` is that with which a plan begins, `take`
//! what a behaviour takes as it begins, and `put` what it leaves as it ends. `given_fields` says
//! with what the fields of its object begin.
#![tactic(auto)]

mod fields;
mod given;
mod opening;
mod slot;
mod slots;

pub use fields::is_iso;
pub use given::given_fields;
pub use slot::{Content, Slot};
pub use slots::Slots;
