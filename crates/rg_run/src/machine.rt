//! The machine that makes the steps of a run (docs/language.md, "Steps").

ghost use Rattle.std.specs.Prelude.{ℕ, List, ◌≡◌, ◌≢◌, ◌↔◌, IsTrue, IfOk, true, false};
ghost use Rattle.rg_tree.specs.Rows.Tables.{Tables};
ghost use Rattle.rg_tree.specs.Rows.RowTrees.{program_of};
ghost use Rattle.rg_code.specs.Lowering.{Lowers};
ghost use Rattle.rg_input.specs.Numbers.{Follows, OnInput};
ghost use Rattle.rg_machine.specs.Owned.{IsOwned};
ghost use Rattle.rg_step.specs.Asking.{YesesTold};
ghost use Rattle.rg_step.specs.Pacers.{SameTuned, both};
ghost use Rattle.rg_run.specs.Machine.{IsFresh, IsShown, numbers_of};
ghost use Rattle.rg_run.specs.Reports.{Reports};
ghost use Rattle.rg_run.specs.Runs.{Caused};
ghost use Rattle.rg_run.specs.Sound.{Stands};
ghost use Rattle.rg_run.specs.Whole.{WholeRun};

use crate::inside::Inside;
use crate::task::{Sinks, Task};
use rg_base::{EndNumbers, Ended, Event, Memory, Seen};
use rg_check::Accepted;
use rg_code::CodeList;
use rg_input::Numbers;
use rg_io::{Sink, Source};
use rg_pace::Pacer;
use rg_step::Stepper;
use std::alloc::Global;
use std::marker::Model;

/// A machine for one run. As long as none has begun, it holds nothing and has made no step.
#[derive(Drop)]
pub struct Machine {
    inside: Inside,
}

impl Model for Machine {
    ghost use Rattle.std.specs.Prelude.{◌≡◌, false};
    ghost use Rattle.rg_step.specs.Stepping.{IsFresh as IsAtStart};
    ghost use Rattle.rg_run.specs.Machine.{Kept};

    ghost Value = { Kept };

    ghost view = { λ m. record {
      begun = m.inside.begun;
      stepper = m.inside.stepper;
      steps = m.inside.steps;
    } };

    ghost invariant = { λ m. m.inside.begun ≡ false →
        IsAtStart m.inside.stepper × (m.inside.steps ≡ 0) };
}

impl Machine {
    /// A machine on which no run has begun.
    pub fn new(alloc: Global) -> Machine
        ensures fresh { IsFresh result }
        ensures slides { result.stepper.slides ≡ false }
    {
        Machine {
            inside: Inside {
                begun: false,
                stepper: Stepper::new(alloc),
                steps: 0,
            },
        }
    }

    /// Chooses, before a run begins, that a collection of a traced region moves what it keeps.
    pub fn slide(&mut self)
        requires { IsFresh self.old }
        ensures fresh { IsFresh self.new }
        ensures slides { self.new.stepper.slides ≡ true }
    {
        self.inside.stepper.slide();
    }

    /// Whether a collection of a traced region moves what it keeps.
    pub fn slides(&self) -> bool
        ensures { result ≡ self.now.stepper.slides }
    {
        self.inside.stepper.slides()
    }

    /// Whether no run has begun. Such a machine has made no step and holds nothing.
    pub fn is_fresh(&self) -> bool
        ensures { IsTrue result ↔ IsFresh self.now }
    {
        !self.inside.begun
    }

    /// The numbers of the run so far: its steps, and what the machine made, holds and ever held.
    pub fn numbers(&self) -> EndNumbers
        ensures { result ≡ numbers_of self.now }
    {
        EndNumbers {
            steps: self.inside.steps,
            ..self.inside.stepper.numbers()
        }
    }

    /// The collections of the run so far, in order.
    pub fn events(&self) -> &[Event]
        ensures { result.now ≡ self.now.stepper.events }
    {
        self.inside.stepper.events()
    }

    /// The object of a serial; None where the machine holds none.
    pub fn shown(&self, alloc: Global, serial: u64) -> Result<Option<Seen>, Memory>
        ensures { IfOk result (IsShown self.now serial) }
    {
        self.inside.stepper.object(alloc, serial)
    }

    /// Where a run stands on it, each closed region of its own heap has one owner.
    pub fn is_owned(&self)
        ensures { (t : Tables) (input : List ℕ) (n : ℕ) → Stands t input n self.now
            → IsOwned self.now.stepper.parts }
    {
        self.inside.stepper.is_owned();
    }

    /// Makes at most `n` steps of an accepted program by its code. Each printed line is given to
    /// `out` in its own step and, where `report` is true, the line of each collection to `notes` in
    /// its own. What the pacers answer decides nothing of what is written to `out`, nor of the
    /// state that the machine shows. A pacer is asked once for each step made that makes an object
    /// by `new C` in a region of its manager, and each of its yeses is a collection, behind which
    /// the asks that it is told of are counted anew. The states between the steps are those that
    /// `Stepper::step` leaves, one after the other.
    pub fn run<I: Source, O: Sink, R: Sink>(
        &mut self,
        alloc: Global,
        accepted: &Accepted,
        code: &CodeList,
        n: u64,
        report: bool,
        input: &mut Numbers,
        source: &mut I,
        out: &mut O,
        notes: &mut R,
        count: &mut dyn Pacer,
        trace: &mut dyn Pacer,
    ) -> Ended
        requires fresh { IsFresh self.old }
        requires lowers { Lowers (program_of accepted.now.program) code.now }
        requires follows { Follows input.old (I.left source.old) }

        ensures run { OnInput input.old input.new (I.left source.old) (I.left source.new)
            (WholeRun accepted.now.program code.now n (O.taken out.old) (O.taken out.new)
            self.new result ((input.new ≡ input.old) × (source.new ≡ source.old))
            (both (tally count.old) (tally trace.old)) (both (tally count.new) (tally trace.new))) }
        ensures begun { result ≢ Ended.Memory → self.new.begun ≡ true }
        ensures slides { self.new.stepper.slides ≡ self.old.stepper.slides }
        ensures notes { Reports report result self.new.stepper.events
            (R.taken notes.old) (R.taken notes.new) }
        ensures tuned { SameTuned
            (both (tally count.old) (tally trace.old)) (both (tally count.new) (tally trace.new)) }
        ensures yeses { YesesTold self.new.stepper.events
            (both (tally count.old) (tally trace.old)) (both (tally count.new) (tally trace.new)) }
        ensures follows { Follows input.new (I.left source.new) }
        ensures caused { Caused result (I.faults source.old) (I.faults source.new)
            (O.faults out.old) (O.faults out.new) (R.faults notes.old) (R.faults notes.new) }
    {
        let task = Task::new(alloc, accepted, code, n, report);
        let mut sinks = Sinks { out, notes };
        self.inside
            .run(&task, input, source, &mut sinks, count, trace)
    }
}
