//! The stepper (docs/architecture.md, "The stepper").

ghost use Rattle.std.specs.Prelude.{◌≡◌, ◌≢◌, ◌≤◌, ℕ, List, None, IfOk, IfSome, OnErr, OnOk};
ghost use Rattle.std.specs.Prelude.{length, true};
ghost use Rattle.rg_io.specs.Content.{Rose};
ghost use Rattle.rg_input.specs.Numbers.{AsksFor, Follows, OnInput, Pending};
ghost use Rattle.rg_input.specs.Numbers.{is_input_fault};
ghost use Rattle.rg_tree.specs.Tree.{Tree};
ghost use Rattle.rg_rules.specs.State.{State};
ghost use Rattle.rg_sound.specs.Fit.{Fit};
ghost use Rattle.rg_code.specs.Code.{Code};
ghost use Rattle.rg_held.specs.Shown.{Finds, ShowsHeld};
ghost use Rattle.rg_machine.specs.Active.{IsActive};
ghost use Rattle.rg_machine.specs.Owned.{IsOwned};
ghost use Rattle.rg_machine.specs.Parts.{Parts, machine_in};
ghost use Rattle.rg_step.specs.Pacers.{Asks, SameTuned, both};
ghost use Rattle.rg_step.specs.States.{Chain, OneStep, Opens, standing};
ghost use Rattle.rg_step.specs.Steps.{AsksFirst, IsRunning, Leapt, UnlessAsking};
ghost use Rattle.rg_step.specs.Stepping.{IsFresh};
ghost use Rattle.rg_step.specs.Steps.{counted_by};
ghost use Rattle.rg_step.specs.Stepping.{fresh, nothing, numbers_of};

mod behaviour;
mod content;

use crate::collecting::{follow, is_made};
use crate::kept::{Kept, Since};
use crate::leap::leap;
use crate::making::make_paced;
use crate::outcome::outcome;
use rg_base::{EndNumbers, Event, Manager, Memory, Outcome, Seen};
use rg_code::{CodeList, Shape};
use rg_compute::Stack;
use rg_frames::Frames;
use rg_heap::{Active, Heap};
use rg_input::Numbers;
use rg_io::Source;
use rg_machine::{Machine, Words};
use rg_pace::Pacer;
use std::alloc::Global;
use std::marker::Model;

/// The machine that runs the code of a program, step by step; there is none before a program
/// begins. Between two steps nothing is on its stack, and nothing is printed.
#[derive(Drop)]
pub struct Stepper {
    machine: Option<Machine>,
    kept: Kept,
    // lent to known steps that compute, so that it is made once
    stack: Stack,
    // lent to local steps, so that it is made once
    words: Words,
}

impl Model for Stepper {
    ghost use Rattle.rg_step.specs.Inner.Held.{parts_of, stepping};
    ghost use Rattle.rg_machine.specs.Over.{IsBlank};
    ghost use Rattle.rg_step.specs.Steps.{IsResting};
    ghost use Rattle.rg_step.specs.Stepping.{Stepping};

    ghost Value = { Stepping };

    ghost view = { λ s. stepping (parts_of s.machine) s.kept };

    ghost invariant = { λ s. IsResting (parts_of s.machine) × IsBlank s.words };
}

impl Stepper {
    /// A machine on which no program has begun.
    pub fn new(alloc: Global) -> Stepper
        ensures { result ≡ fresh }
    {
        Stepper {
            machine: None,
            kept: Kept {
                steps: 0,
                since: Since { count: 0, trace: 0 },
                slides: false,
                events: Vec::new(alloc),
            },
            stack: Stack::new(),
            words: Words::new(),
        }
    }

    /// Chooses, before a program begins, that a collection of a traced region moves what it keeps.
    pub fn slide(&mut self)
        requires { IsFresh self.old }
        ensures { self.new ≡ record fresh { slides = true } }
    {
        self.kept.slides = true;
    }

    /// Whether a collection of a traced region moves what it keeps.
    pub fn slides(&self) -> bool
        ensures { result ≡ self.now.slides }
    {
        self.kept.slides
    }

    /// Begins a program whose main has this manager, without a step.
    pub fn begin(&mut self, alloc: Global, code: &CodeList, manager: Manager) -> Result<(), Memory>
        requires { IsFresh self.old }
        ensures begun { OnOk result ((p : Parts) × Opens code.now manager p
            × (self.new ≡ record self.old { parts = p })) }
        ensures kept { OnErr result (self.new ≡ self.old) }
    {
        let machine = Machine::begin(alloc, code.main_slots(), manager)?;
        machine.is_sound();
        self.machine = Some(machine);
        Ok(())
    }

    /// The cells and regions, once a program has begun.
    pub fn heap(&self) -> Option<&Heap>
        ensures none { result ≡ None → self.now.parts ≡ nothing }
        ensures some { IfSome result (λ heap. heap.now ≡ self.now.parts.heap) }
    {
        match &self.machine {
            Some(p) => Some(p.heap()),
            None => None,
        }
    }

    /// The frames, windows and temporaries, once a program has begun.
    pub fn frames(&self) -> Option<&Frames>
        ensures none { result ≡ None → self.now.parts ≡ nothing }
        ensures some { IfSome result (λ frames. frames.now ≡ self.now.parts.frames) }
    {
        match &self.machine {
            Some(p) => Some(p.frames()),
            None => None,
        }
    }

    /// The address of the mark at which the next step begins; 0 before a program begins.
    pub fn at(&self) -> usize
        ensures { result ≡ self.now.parts.at }
    {
        match &self.machine {
            Some(p) => p.at(),
            None => 0,
        }
    }

    /// The active region, with its manager and how many cells it has, once a program has begun.
    pub fn active(&self) -> Option<Active>
        ensures none { result ≡ None → self.now.parts ≡ nothing }
        ensures some { IfSome result (IsActive self.now.parts) }
    {
        match &self.machine {
            Some(p) => Some(p.active()),
            None => None,
        }
    }

    /// The collections so far, in order.
    pub fn events(&self) -> &[Event]
        ensures { result.now ≡ self.now.events }
    {
        self.kept.events.as_slice()
    }

    /// The numbers of the run so far.
    pub fn numbers(&self) -> EndNumbers
        ensures { result ≡ numbers_of self.now }
    {
        let collections = self.kept.events.len() as u64;
        match &self.machine {
            Some(p) => {
                let heap = p.numbers();
                EndNumbers {
                    steps: self.kept.steps,
                    collections,
                    ..heap
                }
            }
            None => EndNumbers {
                steps: self.kept.steps,
                made: 0,
                held: 0,
                frozen: 0,
                regions: 0,
                collections,
                high: 0,
            },
        }
    }

    /// The object of a serial; None where none that is held has it.
    pub fn object(&self, alloc: Global, serial: u64) -> Result<Option<Seen>, Memory>
        ensures { IfOk result (Finds (machine_in self.now.parts).store serial) }
    {
        match &self.machine {
            Some(p) => p.object(alloc, serial),
            None => Ok(None),
        }
    }

    /// Where a state that fits a program is shown, each closed region of the machine has one owner.
    pub fn is_owned(&self)
        ensures { (t : Tree) (code : Code) (p : State) → Fit t p
            → ShowsHeld t.classes code (machine_in self.now.parts) p → IsOwned self.now.parts }
    {
        if let Some(p) = &self.machine {
            p.is_owned();
        }
    }

    /// Makes as many steps as can be made at once, at most so many, and answers how many. None of
    /// them is the last one, prints, asks for the input, or may collect.
    pub fn leap(&mut self, code: &CodeList, most: u64) -> u64
        requires { IsRunning code.now (machine_in self.old.parts) }
        ensures leaps { Leapt code.now result
            (machine_in self.old.parts) (machine_in self.new.parts) }
        ensures chain { (pacers : Asks) (input : List ℕ) → Chain code.now result
            (record { stepper = self.old; pacers = pacers })
            (record { stepper = self.new; pacers = pacers }) input input }
        ensures most { result ≤ most }
        ensures counts { self.new.steps ≡ counted_by result self.old.steps }
        ensures since { self.new.since ≡ self.old.since }
        ensures slides { self.new.slides ≡ self.old.slides }
        ensures events { self.new.events ≡ self.old.events }
    {
        let Some(p) = &mut self.machine else {
            unreachable!();
        };
        let made = leap(p, &mut self.stack, &mut self.words, code, most);
        self.kept.steps = more(self.kept.steps, made);
        made
    }

    /// Makes one step. One that was refused leaves what is shown, the input and the count; the
    /// input is asked at most where the first thing to do asks. Behind a `collect` the active
    /// region is collected, and behind an object made by `new C` where the pacer of the region's
    /// manager says so; the pacers decide nothing else.
    pub fn step<S: Source>(
        &mut self,
        code: &CodeList,
        input: &mut Numbers,
        source: &mut S,
        count: &mut dyn Pacer,
        trace: &mut dyn Pacer,
    ) -> Outcome
        requires runs { IsRunning code.now (machine_in self.old.parts) }
        requires follows { Follows input.old (S.left source.old) }
        ensures step { OnInput input.old input.new (S.left source.old) (S.left source.new)
            (OneStep code.now (standing self.old (tally count.old) (tally trace.old))
            (standing self.new (tally count.new) (tally trace.new)) result) }
        ensures tuned { SameTuned (both (tally count.old) (tally trace.old))
            (both (tally count.new) (tally trace.new)) }
        ensures reads_nothing { UnlessAsking code.now (machine_in self.old.parts)
            ((input.new ≡ input.old) × (source.new ≡ source.old)) }
        ensures asks { (n : Pending) ×
            AsksFor S.replies (is_input_fault result) input.old n source.old source.new }
        ensures input_fault { result ≡ Outcome.InputFault →
            AsksFirst code.now (machine_in self.old.parts) }
        ensures follows { Follows input.new (S.left source.new) }
        ensures fault { result ≡ Outcome.InputFault →
            Rose (S.faults source.old) (S.faults source.new) }
        ensures no_fault { result ≢ Outcome.InputFault →
            S.faults source.new ≡ S.faults source.old }
        ensures never_falls { S.faults source.old ≤ S.faults source.new }
    {
        let Some(p) = &mut self.machine else {
            unreachable!();
        };
        let at = p.at();
        if let Shape::New { s, class } = code.shape(at) {
            return make_paced(p, code, s, class, &mut self.kept, count, trace);
        }
        let due = code.due_at(at);
        p.is_sound();
        let outcome = outcome(p, code, due, &mut self.kept.events, input, source);
        p.is_sound();
        if !is_made(outcome) {
            return outcome;
        }
        follow(p, due, &mut self.kept, count, trace);
        p.is_sound();
        outcome
    }
}

/// So many steps more, as far as 64 bits count.
fn more(steps: u64, made: u64) -> u64
    ensures { result ≡ counted_by made steps }
{
    if steps <= u64::MAX - made {
        steps + made
    } else {
        u64::MAX
    }
}
