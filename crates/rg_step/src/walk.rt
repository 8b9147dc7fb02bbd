//! The loop over the instructions of a step (docs/architecture.md, "The stepper").

ghost use Rattle.rg_machine.specs.Cores.{core_of};
ghost use Rattle.rg_compute.specs.Walks.{Unstuck, walk_from};
ghost use Rattle.rg_step.specs.Inner.Walks.{WalkEnds};

use crate::room::make_room;
use crate::stopped::Stopped;
use rg_code::CodeList;
use rg_machine::{Machine, Next, act};

/// Where a walk along the code pauses.
#[derive(Clone, Copy)]
pub(crate) enum Pause {
    /// the step comes to an address
    Stop(usize),
    /// a frame has ended, and its call stands in front of this address
    Return(usize),
    /// the instruction at this address asks for the next number
    Read(usize),
    /// the instruction at this address asks whether anything is left
    More(usize),
}

/// Walks along the code from an address on, up to the step's end or an instruction that asks the
/// input.
pub(crate) fn walk(p: &mut Machine, code: &CodeList, from: usize) -> Result<Pause, Stopped>
    requires { Unstuck (walk_from code.now from (core_of p.old)) }
    ensures { WalkEnds code.now from p.old p.new result }
{
    let mut at = from;
    while at < code.len() {
        match act(p, code, at, code.get(at)) {
            Next::On => at += 1,
            Next::To(to) => {
                if to > at {
                    at = to;
                } else {
                    at += 1;
                }
            }
            Next::Read => return Ok(Pause::Read(at)),
            Next::More => return Ok(Pause::More(at)),
            Next::Room => match make_room(p, code, at + 1)? {
                None => at += 1,
                Some(to) => return Ok(Pause::Stop(to)),
            },
            Next::Stop(to) => return Ok(Pause::Stop(to)),
            Next::Return(back) => return Ok(Pause::Return(back)),
            Next::Trap(kind) => return Err(Stopped::Trap(kind)),
            Next::Memory => return Err(Stopped::Memory),
            Next::Lost => unreachable!(),
        }
    }
    unreachable!()
}
