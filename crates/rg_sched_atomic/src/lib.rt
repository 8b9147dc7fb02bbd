//! Behaviours over cowns under every schedule (docs/architecture.md, "Schedules"). `World` and
//! `event` of `specs` say what a schedule does, `atomic` what it is to do one behaviour after the
//! other, and `WorldOf` what the one has to do with the other. The functions are laws: behind every
//! schedule of a plan the world is a `WorldOf` (`every_schedule_is_one_by_one`), each content is at
//! rest or in one running behaviour, and all schedules behind which each behaviour has ended give
//! the same, that of the plan's order. Whether a behaviour may begin is told by those that stand
//! right in front of it (`fronts_are_enough`).
#![tactic(auto)]

mod laws;
mod phase;

pub use laws::{
    contents_are_separate, ended_alike, ended_as_in_plan_order, every_schedule_is_one_by_one,
    fronts_are_enough, one_goes_on, plans_are_settings,
};
pub use phase::Phase;
