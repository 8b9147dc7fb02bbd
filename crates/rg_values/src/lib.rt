//! What the machine that never frees keeps, with names, statements and classes by their numbers
//! (`state`), and what expressions and paths stand for on it (`values`); what a step is refused
//! for, where the value of a right side goes, and the frames of calls (docs/language.md, "Steps").
#![tactic(auto)]

mod frames;
mod owners;
mod refusal;
mod state;
mod targets;
mod values;

pub use frames::{Callee, new_frame};
pub use owners::put_owner;
pub use refusal::{Refusal, ended, outcome, printed};
pub use state::items::{At, advance, first, open, open_body, pop_row, put_block};
pub use state::locals::{keep, place, set, variable};
pub use state::parts::Parts;
pub use state::rows::{FrameRow, ItemRow, LocalRow, TargetRow, WindowRow};
pub use targets::{Aim, Assignment, Left, aim_of, make_room, put};
pub use values::arguments::{arguments, use_up_all};
pub use values::expressions::value;
pub use values::methods::method_of;
pub use values::paths::{Receiver, Spot, find_receiver, spot_of};
pub use values::uses::{spend, use_up};
