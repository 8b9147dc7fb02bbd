//! Worlds over machines (docs/architecture.md, "Worlds").

ghost use Rattle.std.specs.Prelude.{◌≡◌, ◌<◌, ◌++◌, ◌∷◌, [], ℕ, List, Some, length, slice_get};
ghost use Rattle.std.specs.Prelude.{IfOk, OnOk, option_map, replicate, true};
ghost use Rattle.rg_tree.specs.Rows.RowTrees.{program_of};
ghost use Rattle.rg_code.specs.Code.{Code};
ghost use Rattle.rg_code.specs.Lowering.{Lowers};
ghost use Rattle.rg_cown.specs.Cargo.{CargoList};
ghost use Rattle.rg_plan.specs.Plans.{Turn, in_front_of};
ghost use Rattle.rg_slots.specs.Slots.{content_seen};
ghost use Rattle.rg_step.specs.Pacers.{SameTuned, both};
ghost use Rattle.rg_world.specs.Asking.{EventAsks};
ghost use Rattle.rg_world.specs.Standing.{phase_in, stepper_in};
ghost use Rattle.rg_contents.specs.Read.{IsReadFor};
ghost use Rattle.rg_world.specs.Worlds.{IsBehind};
ghost use Rattle.rg_world.specs.Inner.Steps.{all_ended_in, is_ended, is_waiting, is_running};
ghost use Rattle.rg_world.specs.Inner.Steps.{waiting};

use crate::advance::advance;
use crate::begun::begun;
use crate::empty_input::EmptyInput;
use crate::progress::{Progress, Standing};
use rg_base::{Memory, Vals};
use rg_check::Accepted;
use rg_code::CodeList;
use rg_contents::{beginning_is_allowed, runs_are_of_behaviours};
use rg_cown::Cargo;
use rg_pace::Pacer;
use rg_plan::{Plan, plans_are_good};
use rg_sched_atomic::{Phase, contents_are_separate, fronts_are_enough, plans_are_settings};
use rg_slots::{Content, Slots};
use rg_step::Stepper;
use std::alloc::Global;
use std::marker::Model;

/// The behaviours of a plan, each running one on a machine of its own, and what the cowns have.
pub struct World {
    progress: Vec<Progress>,
    slots: Slots,
    began: Vec<u32>,
    input: EmptyInput,
}

impl Model for World {
    ghost use Rattle.rg_world.specs.Worlds.{WorldIn};

    ghost Value = { WorldIn };

    ghost view = { λ w. record {
      progress = w.progress.items;
      contents = w.slots;
      began = w.began.items;
    } };
}

/// Written out, so that no crate above proves how each behaviour is dropped.
impl Drop for World {
    fn drop(self) {
        let World {
            progress: _,
            slots: _,
            began: _,
            input: _,
        } = self;
    }
}

impl World {
    /// The world of a plan before any event. For each cown there is a content in `images`, of which
    /// only those count whose line names an image.
    pub fn begin(
        alloc: Global,
        accepted: &Accepted,
        plan: &Plan,
        images: Vec<Cargo>,
    ) -> Result<World, Memory>
        requires { IsReadFor (program_of accepted.now.program) plan.now images.items }
        ensures { (code : Code) → Lowers (program_of accepted.now.program) code →
            IfOk result (λ w. IsBehind (program_of accepted.now.program) code plan.now images.items
            [] w) }
    {
        plans_are_good();
        accepted.program();
        let slots = Slots::open(alloc, &accepted.book(), plan, images)?;
        let progress = all_waiting(alloc, plan.behaviours() as usize)?;
        Ok(World {
            progress,
            slots,
            began: Vec::new(alloc),
            input: EmptyInput::new(),
        })
    }

    /// Makes the event of a number: a behaviour that hasn't begun begins where each lower-numbered
    /// one that shares a cown has ended, a running one makes a step, and one that has ended does
    /// nothing. On a refusal the world is gone.
    pub fn event(
        self,
        alloc: Global,
        accepted: &Accepted,
        code: &CodeList,
        plan: &Plan,
        i: u32,
        count: &mut dyn Pacer,
        trace: &mut dyn Pacer,
    ) -> Result<World, Memory>
        requires number { i < length plan.now.behaviours }
        requires behind { (images : List CargoList) × (schedule : List ℕ)
            × IsBehind (program_of accepted.now.program) code.now plan.now images schedule self }
        ensures shows { (images : List CargoList) (schedule : List ℕ) →
            IsBehind (program_of accepted.now.program) code.now plan.now images schedule self →
            IfOk result (IsBehind (program_of accepted.now.program) code.now plan.now images
            (schedule ++ i ∷ [])) }
        ensures asks { (images : List CargoList) (schedule : List ℕ) →
            IsBehind (program_of accepted.now.program) code.now plan.now images schedule self →
            OnOk result (EventAsks (program_of accepted.now.program) plan.now images schedule i
            (both (tally count.old) (tally trace.old)) (both (tally count.new) (tally trace.new))) }
        ensures tuned { SameTuned (both (tally count.old) (tally trace.old))
            (both (tally count.new) (tally trace.new)) }
    {
        let mut world = self;
        world.make_event(alloc, accepted, code, plan, i, count, trace)?;
        Ok(world)
    }

    // The event of a number, of which nothing is said where it is refused.
    fn make_event(
        &mut self,
        alloc: Global,
        accepted: &Accepted,
        code: &CodeList,
        plan: &Plan,
        i: u32,
        count: &mut dyn Pacer,
        trace: &mut dyn Pacer,
    ) -> Result<(), Memory>
        requires number { i < length plan.now.behaviours }
        requires behind { (images : List CargoList) × (schedule : List ℕ)
            × IsBehind (program_of accepted.now.program) code.now plan.now images schedule self.old }
        ensures shows { (images : List CargoList) (schedule : List ℕ) →
            IsBehind (program_of accepted.now.program) code.now plan.now images schedule self.old →
            OnOk result (IsBehind (program_of accepted.now.program) code.now plan.now images
            (schedule ++ i ∷ []) self.new) }
        ensures asks { (images : List CargoList) (schedule : List ℕ) →
            IsBehind (program_of accepted.now.program) code.now plan.now images schedule self.old →
            OnOk result (EventAsks (program_of accepted.now.program) plan.now images schedule i
            (both (tally count.old) (tally trace.old)) (both (tally count.new) (tally trace.new))) }
        ensures tuned { SameTuned (both (tally count.old) (tally trace.old))
            (both (tally count.new) (tally trace.new)) }
    {
        match self.state(i) {
            Phase::Waiting => self.start(alloc, accepted, code, plan, i),
            Phase::Running => self.step(alloc, accepted, code, plan, i, count, trace),
            Phase::Done => Ok(()),
            Phase::Trap { .. } => Ok(()),
        }
    }

    // The event of a behaviour that hasn't begun.
    fn start(
        &mut self,
        alloc: Global,
        accepted: &Accepted,
        code: &CodeList,
        plan: &Plan,
        i: u32,
    ) -> Result<(), Memory>
        requires number { i < length plan.now.behaviours }
        requires waits { is_waiting (slice_get self.old.progress i) ≡ true }
        requires behind { (images : List CargoList) × (schedule : List ℕ)
            × IsBehind (program_of accepted.now.program) code.now plan.now images schedule self.old }
        ensures { (images : List CargoList) (schedule : List ℕ) →
            IsBehind (program_of accepted.now.program) code.now plan.now images schedule self.old →
            OnOk result (IsBehind (program_of accepted.now.program) code.now plan.now images
            (schedule ++ i ∷ []) self.new) }
    {
        plans_are_good();
        plans_are_settings();
        beginning_is_allowed();
        fronts_are_enough();
        if !self.may_begin(plan, i) {
            return Ok(());
        }
        let stepper = begun(
            alloc,
            &accepted.book(),
            code,
            plan.behaviour(i),
            &mut self.slots,
        )?;
        let Ok(()) = self.began.push(i) else {
            return Err(Memory);
        };
        self.progress[i as usize].standing = Standing::Running(stepper);
        Ok(())
    }

    // The event of a running behaviour.
    fn step(
        &mut self,
        alloc: Global,
        accepted: &Accepted,
        code: &CodeList,
        plan: &Plan,
        i: u32,
        count: &mut dyn Pacer,
        trace: &mut dyn Pacer,
    ) -> Result<(), Memory>
        requires number { i < length plan.now.behaviours }
        requires runs { is_running (slice_get self.old.progress i) ≡ true }
        requires behind { (images : List CargoList) × (schedule : List ℕ)
            × IsBehind (program_of accepted.now.program) code.now plan.now images schedule self.old }
        ensures shows { (images : List CargoList) (schedule : List ℕ) →
            IsBehind (program_of accepted.now.program) code.now plan.now images schedule self.old →
            OnOk result (IsBehind (program_of accepted.now.program) code.now plan.now images
            (schedule ++ i ∷ []) self.new) }
        ensures asks { (images : List CargoList) (schedule : List ℕ) →
            IsBehind (program_of accepted.now.program) code.now plan.now images schedule self.old →
            OnOk result (EventAsks (program_of accepted.now.program) plan.now images schedule i
            (both (tally count.old) (tally trace.old)) (both (tally count.new) (tally trace.new))) }
        ensures tuned { SameTuned (both (tally count.old) (tally trace.old))
            (both (tally count.new) (tally trace.new)) }
    {
        plans_are_good();
        plans_are_settings();
        contents_are_separate();
        runs_are_of_behaviours();
        let turn = plan.behaviour(i);
        let left = advance(
            &mut self.progress[i as usize],
            alloc,
            &accepted.book(),
            turn.class(),
            code,
            &mut self.input,
            count,
            trace,
        )?;
        let Some(contents) = left else {
            return Ok(());
        };
        self.slots.put(turn.cowns(), contents);
        Ok(())
    }

    // Whether those have ended that stand right in front of a behaviour in the queues of its cowns.
    fn may_begin(&self, plan: &Plan, i: u32) -> bool
        requires number { i < length plan.now.behaviours }
        requires many { length self.now.progress ≡ length plan.now.behaviours }
        ensures { (b : Turn) → slice_get plan.now.behaviours i ≡ Some b →
            result ≡ all_ended_in self.now.progress (in_front_of plan.now.behaviours i b) }
    {
        let front = plan.in_front(i);
        for k in front {
            if !self.has_ended(*k) {
                return false;
            }
        }
        true
    }

    // Whether a behaviour has ended.
    fn has_ended(&self, i: u32) -> bool
        requires { i < length self.now.progress }
        ensures { option_map (λ p. is_ended p.standing) (slice_get self.now.progress i)
            ≡ Some result }
    {
        match &self.progress[i as usize].standing {
            Standing::Waiting | Standing::Running(_) => false,
            Standing::Done | Standing::Trap { .. } => true,
        }
    }

    /// How a behaviour stands.
    pub fn state(&self, i: u32) -> Phase
        requires { i < length self.now.progress }
        ensures { option_map (λ p. phase_in p.standing) (slice_get self.now.progress i)
            ≡ Some result }
    {
        match &self.progress[i as usize].standing {
            Standing::Waiting => Phase::Waiting,
            Standing::Running(_) => Phase::Running,
            Standing::Done => Phase::Done,
            Standing::Trap { kind, line } => Phase::Trap {
                kind: *kind,
                line: *line,
            },
        }
    }

    /// The values that a behaviour printed.
    pub fn printed(&self, i: u32) -> &Vals
        requires { i < length self.now.progress }
        ensures { option_map (λ p. p.printed) (slice_get self.now.progress i) ≡ Some result.now }
    {
        &self.progress[i as usize].printed
    }

    /// How many steps of a behaviour were tried.
    pub fn turns(&self, i: u32) -> u64
        requires { i < length self.now.progress }
        ensures { option_map (λ p. p.turns) (slice_get self.now.progress i) ≡ Some result }
    {
        self.progress[i as usize].turns
    }

    /// The machine of a behaviour; None where it isn't running.
    pub fn stepper(&self, i: u32) -> Option<&Stepper>
        requires { i < length self.now.progress }
        ensures { option_map (λ p. stepper_in p.standing) (slice_get self.now.progress i)
            ≡ Some (option_map (λ s. s.now) result) }
    {
        match &self.progress[i as usize].standing {
            Standing::Running(stepper) => Some(stepper),
            Standing::Waiting | Standing::Done | Standing::Trap { .. } => None,
        }
    }

    /// The behaviours that began, in order.
    pub fn began(&self) -> &[u32]
        ensures { result.now ≡ self.now.began }
    {
        self.began.as_slice()
    }

    /// What a cown has.
    pub fn content(&self, cown: u32) -> Content<'_>
        requires { cown < length self.now.contents }
        ensures { slice_get self.now.contents cown ≡ Some (content_seen result) }
    {
        self.slots.get(cown)
    }
}

// So many behaviours that haven't begun.
fn all_waiting(alloc: Global, many: usize) -> Result<Vec<Progress>, Memory>
    ensures { IfOk result (λ all. all.items ≡ replicate many waiting) }
{
    let mut all = Vec::new(alloc);
    while all.len() < many {
        let waiting = Progress {
            standing: Standing::Waiting,
            printed: Vals::new(alloc),
            turns: 0,
        };
        let Ok(()) = all.push(waiting) else {
            return Err(Memory);
        };
    }
    Ok(all)
}
