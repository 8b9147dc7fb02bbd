//! Schedules on an input (docs/architecture.md, "Worlds"). `run` makes the events of a whole
//! schedule, which is the numbers on an input (`schedule_of` of `specs/Schedules`), and answers the
//! world behind it, or why there is none.
#![tactic(auto)]

mod limits;
mod running;
mod stop;

pub use limits::SCHEDULE;
pub use rg_plan::{Plan, plan};
pub use rg_sched_atomic::Phase;
pub use rg_world::{Content, World};
pub use rg_world_text::world_text;
pub use running::{Behind, run, run_counted};
pub use stop::SchedStop;
