//! How a step goes on behind an instruction (docs/architecture.md, "The machine").

use rg_base::Trap;

/// How a walk along the code goes on behind an instruction.
#[derive(Clone, Copy)]
pub enum Next {
    /// at the next instruction
    On,
    /// at an address further on, and at the next instruction where it isn't
    To(usize),
    /// with the next number of the input on the stack
    Read,
    /// with whether anything is left of the input on the stack
    More,
    /// at the next instruction, where one more frame may come, with room for it
    Room,
    /// nowhere: the step comes to an address
    Stop(usize),
    /// nowhere: the frame has ended, and its call stands in front of this address
    Return(usize),
    /// nowhere: it traps
    Trap(Trap),
    /// nowhere: no memory was found
    Memory,
    /// nowhere: no code leads here
    Lost,
}
