//! A walk along the code with what it asks of the input (docs/architecture.md, "The stepper").

ghost use Rattle.std.specs.Prelude.{◌≡◌, ◌≢◌, ◌≤◌, Bool, Err, false};
ghost use Rattle.rg_io.specs.Content.{Rose};
ghost use Rattle.rg_input.specs.Numbers.{AsksFor, Follows, OnInput, Pending};
ghost use Rattle.rg_stack.specs.Machine.{Machine as StackMachine};
ghost use Rattle.rg_machine.specs.Parts.{machine_in};
ghost use Rattle.rg_machine.specs.Cores.{core_of};
ghost use Rattle.rg_compute.specs.Walks.{walk_from};
ghost use Rattle.rg_step.specs.Inner.Refusals.{Stands, at_fault};
ghost use Rattle.rg_step.specs.Inner.Walks.{ComesTo, Lands, UnstuckOn};

use crate::stopped::Stopped;
use crate::walk::{Pause, walk};
use rg_base::Word;
use rg_code::CodeList;
use rg_input::Numbers;
use rg_io::Source;
use rg_machine::Machine;

/// Where a walk along the code lands, once the input has answered.
#[derive(Clone, Copy)]
pub(crate) enum Landing {
    /// the step comes to an address
    Stop(usize),
    /// a frame has ended, and its call stands in front of this address
    Return(usize),
}

/// Walks along the code from an address on, up to the step's end.
#[inline(always)]
pub(crate) fn walk_asking<S: Source>(
    p: &mut Machine,
    code: &CodeList,
    from: usize,
    input: &mut Numbers,
    source: &mut S,
) -> Result<Landing, Stopped>
    requires follows { Follows input.old (S.left source.old) }
    requires given { UnstuckOn input.old (S.left source.old)
        (walk_from code.now from (core_of p.old)) }
    ensures comes { OnInput input.old input.new (S.left source.old) (S.left source.new)
        (ComesTo code.now from (core_of p.old) (core_of p.new) result) }
    ensures lands { Lands code.now from p.old p.new result }
    ensures unasked { (start : StackMachine) → Stands code.now.ops start false from
        (machine_in p.old) → (input.new ≡ input.old) × (source.new ≡ source.old) }
    ensures asks { (start : StackMachine) (asks : Bool) → Stands code.now.ops start asks from
        (machine_in p.old) →
        (n : Pending) × AsksFor S.replies (at_fault result) input.old n source.old source.new }
    ensures follows { Follows input.new (S.left source.new) }
    ensures fault { result ≡ Err Stopped.InputFault →
        Rose (S.faults source.old) (S.faults source.new) }
    ensures no_fault { result ≢ Err Stopped.InputFault →
        S.faults source.new ≡ S.faults source.old }
    ensures never_falls { S.faults source.old ≤ S.faults source.new }
{
    let mut at = from;
    while at <= code.len() {
        let pause = walk(p, code, at)?;
        match pause {
            Pause::Read(place) => {
                let z = input.next(source)?;
                p.set_top(Word::Int(z));
                at = place + 1;
            }
            Pause::More(place) => {
                let b = input.more(source)?;
                p.set_top(Word::Bool(b));
                at = place + 1;
            }
            Pause::Stop(to) => return Ok(Landing::Stop(to)),
            Pause::Return(back) => return Ok(Landing::Return(back)),
        }
    }
    unreachable!()
}
