//! What an `iso` field of an object owns, read off the machine (docs/architecture.md, "How a
//! behaviour begins"). `content` answers None at nil, and else what the region holds to whose
//! bridge the field leads: the cargo that `cargo_of` of `rg_cown` reads off each plain state that
//! the machine shows. So what a behaviour gives back is a fact of its plain state.
#![tactic(auto)]

mod reading;

pub use reading::content;
