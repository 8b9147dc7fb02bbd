//! The machine that runs instructions over a heap (docs/architecture.md, "The machine"). `Machine`
//! has cells and regions, frames, the words on the stack and an address. `act` makes an instruction
//! that is given what it needs (`Given`): it does what the machine that frees does (`free_act`, in
//! the clause `effect`), or finds no memory. `begin` gives the opening machine, `collect` collects
//! the active region (`Gathers`), and `is_owned` says that each closed region has one owner, where
//! a state that fits a program is shown (`IsOwned`).
#![tactic(auto)]

mod elements;
mod instructions;
mod jumps;
mod machine;
mod next;
mod scalars;
mod values;
mod variables;

pub use instructions::act;
pub use machine::Machine;
pub use machine::over::{
    copy_among, element_among, end_among, get_among, give_words, int_among, put_among,
    put_int_among, store_among, take_words, word_among,
};
pub use next::Next;
pub use rg_beside::Words;
pub use scalars::{leads_nowhere, truth};
