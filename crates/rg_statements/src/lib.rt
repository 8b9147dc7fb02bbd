//! The steps of the machine that never frees, a file a form: each computes first, then takes the
//! room that it needs, and then changes what can't fail any more (docs/language.md, "Steps"). Which
//! of them comes next, and those that read the input, are in `rg_plain`.
#![tactic(auto)]

mod assign;
mod branch;
mod call;
mod enter;
mod leave;
mod move_;
mod new;
mod print;
mod return_;
mod swap;

pub use assign::right_step;
pub use branch::{branch_step, end_step, while_step};
pub use call::call_step;
pub use enter::{Entrance, enter_step};
pub use leave::{leave_giving_step, leave_step};
pub use print::print_step;
pub use return_::{back_step, return_step};
pub use swap::swap_step;
