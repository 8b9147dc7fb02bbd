//! The state in which a behaviour begins (docs/architecture.md, "How a behaviour begins"). `Given`
//! is what a field of its object begins with, `opening_of` of `specs/Opening` is the state, and
//! `MayBegin` of `specs/Beginning` says with which methods and fields a behaviour may begin. The
//! law `behaviour_opening_fits`: that state fits the program. The law `content_goes_back`: of each
//! state that fits, what an `iso` field leads to is a content that such a field may own.
#![tactic(auto)]

mod given;
mod laws;

pub use given::Given;
pub use laws::{behaviour_opening_fits, content_goes_back};
