//! Worlds over machines (docs/architecture.md, "Worlds"). A `World` holds the behaviours of a plan,
//! each running one on a machine of its own, and what the cowns have. `World::begin` begins one, and
//! `event` makes the event of a number: behind it the world shows (`IsBehind` of `specs/Worlds`)
//! what `world_after` of `rg_sched_atomic` says of the numbers so far, so all that holds of schedules holds
//! of it.
#![tactic(auto)]

mod advance;
mod back;
mod begun;
mod empty_input;
mod progress;
mod world;

pub use progress::{Progress, Standing};
pub use rg_slots::Content;
pub use world::World;
