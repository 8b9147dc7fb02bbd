//! Frames, windows and temporaries (docs/architecture.md, "Frames"). `Frames` is three stacks: the
//! slots of all frames, windows from window 0 on, and each window's temporaries. `room` is asked
//! before `push_frame`, which can't fail; each call changes what its name says, on top.
//! `specs/Stack` has a word for each change, `specs/Layers` the frames as lists of slots.
#![tactic(auto)]

mod frames;
mod rows;

pub use frames::Frames;
pub use rows::{Frame, FrameRefusal, Window};
