//! How a behaviour begins (docs/architecture.md, "Worlds").

ghost use Rattle.std.specs.Prelude.{◌≡◌, ◌<◌, All, IfOk, OnOk, length, map};
ghost use Rattle.rg_tree.specs.Rows.RowTrees.{classes_of, program_of};
ghost use Rattle.rg_rules.specs.Acceptance.{Accepted as accepts};
ghost use Rattle.rg_rules.specs.Types.{fields_of};
ghost use Rattle.rg_code.specs.Lowering.{Lowers};
ghost use Rattle.rg_contents.specs.Rest.{IsReady};
ghost use Rattle.rg_sched_atomic.specs.Behaviours.{run_of};
ghost use Rattle.rg_sched_atomic.specs.Contents.{Away, contents_at, givens, put};
ghost use Rattle.rg_sched_atomic.specs.Numbers.{Distinct};
ghost use Rattle.rg_world.specs.Standing.{RunsAs};

use rg_base::Memory;
use rg_code::CodeList;
use rg_names::Book;
use rg_plan::Behaviour;
use rg_slots::{Slots, given_fields};
use rg_step::Stepper;
use std::alloc::Global;

/// The machine of a behaviour that begins, which takes what its cowns have.
pub(crate) fn begun(
    alloc: Global,
    book: &Book<'_>,
    code: &CodeList,
    turn: &Behaviour,
    slots: &mut Slots,
) -> Result<Stepper, Memory>
    requires accepted { accepts (program_of book.now.program) }
    requires lowers { Lowers (program_of book.now.program) code.now }
    requires class { turn.now.class < length (classes_of book.now.program) }
    requires below { All (λ n. n < length slots.old) turn.now.cowns }
    requires distinct { Distinct turn.now.cowns }
    requires ready { let t = program_of book.now.program in IsReady t turn.now
        (givens (fields_of t.classes turn.now.class) (contents_at slots.old turn.now.cowns)) }
    ensures runs { let t = program_of book.now.program in
        IfOk result (RunsAs t code.now
        (run_of t.classes turn.now (contents_at slots.old turn.now.cowns) 0)) }
    ensures slots { OnOk result (slots.new
        ≡ put turn.now.cowns (map (λ n. Away) turn.now.cowns) slots.old) }
{
    let contents = slots.take(alloc, turn.cowns())?;
    let given = given_fields(alloc, book, turn.class(), contents)?;
    let mut stepper = Stepper::new(alloc);
    stepper.begin_behaviour(alloc, code, turn.class(), turn.method(), given.as_slice())?;
    Ok(stepper)
}
