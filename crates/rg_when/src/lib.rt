//! What a plan with a schedule answers (docs/promises.md, "The headline"). `run_planned` makes the
//! events of the schedule on the input, and gives the text of the world behind it to the output, or
//! the image of what a cown has there. What that is, by the plan, the contents of its images and the
//! input's bytes, is `schedule_answer` of `specs/Scheduled`.
#![tactic(auto)]

mod stops;
mod telling;
mod when;

pub use when::run_planned;
