//! The machine that never frees (docs/language.md, "Steps").

ghost use Rattle.std.specs.Prelude.{◌≡◌, ◌≢◌, ◌≤◌, [], IfOk, OnErr, OnOk, false, length, slice_get};
ghost use Rattle.std.specs.Prelude.{true, ℕ};
ghost use Rattle.rg_tree.specs.Rows.RowTrees.{program_of};
ghost use Rattle.rg_rules.specs.Acceptance.{Accepted};
ghost use Rattle.rg_rules.specs.Outside.Inputs.{first_asks};
ghost use Rattle.rg_io.specs.Content.{Rose};
ghost use Rattle.rg_input.specs.Numbers.{AsksFor, Follows, OnInput, Pending, is_input_fault};
ghost use Rattle.rg_names.specs.TableOf.{IsTableOf};
ghost use Rattle.rg_values.specs.Kept.{kept_of, shown};
ghost use Rattle.rg_plain.specs.Machine.{Begins, BegunWith, Fits, KeepsFit, StepsOn, fresh};
ghost use Rattle.rg_plain.specs.Machine.{state_of};
ghost use Rattle.rg_plain.specs.Outcomes.{LeavesRows};
ghost use Rattle.rg_plain.specs.Runs.{NoneAsks, RunIs, begun};

use crate::counting::count;
use crate::steps::whole_step;
use rg_base::{Ended, Memory, Outcome, Seen, Stop, Val, Vals};
use rg_input::Numbers;
use rg_io::{Sink, Source};
use rg_names::{Book, Classes};
use rg_tree::Program;
use rg_values::{FrameRow, Parts, TargetRow, WindowRow, open};
use std::alloc::Global;
use std::marker::Model;

/// A machine for one program. What it keeps goes by the numbers of that program's rows.
#[derive(Drop)]
pub struct PlainMachine {
    classes: Option<Classes>,
    parts: Parts,
}

impl Model for PlainMachine {
    ghost use Rattle.rg_values.specs.Kept.{kept_of};
    ghost use Rattle.rg_plain.specs.Machine.{Machine};

    ghost Value = { Machine };

    ghost view = { λ m. record { classes = m.classes; kept = kept_of m.parts } };
}

/// How a run ended, and how far it came.
#[derive(Clone, Copy, Debug, PartialEq, Eq)]
pub struct CountedRun {
    /// how it ended
    pub ended: Ended,
    /// whole steps of this run; one that changed nothing isn't counted, one whose line the sink
    /// refused is
    pub steps: u64,
}

/// The class table of an accepted program.
fn table(alloc: Global, program: &Program) -> Result<Classes, Memory>
    requires { Accepted (program_of program.now) }
    ensures { IfOk result (IsTableOf program.now) }
{
    match Classes::of(alloc, program) {
        Ok(classes) => Ok(classes),
        Err(Stop::Memory) => Err(Memory),
        Err(Stop::Fault(_)) => unreachable!(),
    }
}

/// The parts of a machine on which no program has begun.
fn fresh_parts(alloc: Global) -> Parts
    ensures { kept_of result ≡ fresh.kept }
{
    Parts {
        store: Vec::new(alloc),
        frame: FrameRow {
            locals: Vec::new(alloc),
            target: TargetRow::Drops,
        },
        below: Vec::new(alloc),
        window: WindowRow {
            number: 0,
            region: 0,
            owner: None,
            base_frame: 0,
            base_place: 0,
        },
        outer: Vec::new(alloc),
        managers: Vec::new(alloc),
        windows_made: 1,
        items: Vec::new(alloc),
        output: Vals::new(alloc),
    }
}

/// Puts main's block in front, and its manager to region 0.
fn begin_parts(book: &Book, m: &mut Parts) -> Result<(), Memory>
    requires fresh { kept_of m.old ≡ fresh.kept }
    ensures begun { OnOk result (BegunWith book.now.program (kept_of m.new)) }
    ensures kept { OnErr result (kept_of m.new ≡ kept_of m.old) }
{
    let Ok(()) = m.items.reserve(2) else {
        return Err(Memory);
    };
    let Ok(()) = m.managers.push(book.main_manager()) else {
        return Err(Memory);
    };
    open(book, &mut m.items, 0, book.main_body());
    Ok(())
}

/// The same values as a list.
fn vals_of(alloc: Global, fields: &[Val]) -> Result<Vals, Memory>
    ensures { IfOk result (λ vs. vs ≡ fields.now) }
{
    let mut values = Vals::new(alloc);
    for v in fields {
        values.push(*v)?;
    }
    Ok(values)
}

impl PlainMachine {
    /// A machine on which no program has begun.
    pub fn new(alloc: Global) -> PlainMachine
        ensures { result ≡ fresh }
    {
        PlainMachine {
            classes: None,
            parts: fresh_parts(alloc),
        }
    }

    /// Begins a program, without a step.
    pub fn begin(&mut self, alloc: Global, program: &Program) -> Result<(), Memory>
        requires fresh { self.old ≡ fresh }
        requires accepted { Accepted (program_of program.now) }
        ensures begins { OnOk result (Begins program.now self.new) }
        ensures kept { OnErr result (self.new ≡ self.old) }
    {
        let classes = table(alloc, program)?;
        begin_parts(&Book::new(program, &classes), &mut self.parts)?;
        self.classes = Some(classes);
        Ok(())
    }

    /// Makes one step. A step that reads no input asks the source for nothing.
    pub fn step<S: Source>(
        &mut self,
        alloc: Global,
        program: &Program,
        input: &mut Numbers,
        source: &mut S,
    ) -> Outcome
        requires left { self.old.kept.items ≢ [] }
        requires fits { Fits program.now self.old }
        requires follows { Follows input.old (S.left source.old) }

        ensures step { OnInput input.old input.new (S.left source.old) (S.left source.new)
            (StepsOn program.now self.old self.new result) }
        ensures keeps { OnInput input.old input.new (S.left source.old) (S.left source.new)
            (KeepsFit program.now self.old self.new) }
        ensures reads_nothing { first_asks (shown program.now self.old.kept.items) ≡ false →
            (input.new ≡ input.old) × (source.new ≡ source.old) }
        ensures fits { Fits program.now self.new }
        ensures left { LeavesRows self.new.kept.items result }
        ensures follows { Follows input.new (S.left source.new) }

        ensures input_fault { result ≡ Outcome.InputFault →
            first_asks (shown program.now self.old.kept.items) ≡ true }
        ensures asks { (n : Pending) ×
            AsksFor S.replies (is_input_fault result) input.old n source.old source.new }
        ensures fault { result ≡ Outcome.InputFault →
            Rose (S.faults source.old) (S.faults source.new) }
        ensures no_fault { result ≢ Outcome.InputFault →
            S.faults source.new ≡ S.faults source.old }
        ensures never_falls { S.faults source.old ≤ S.faults source.new }
    {
        match &self.classes {
            Some(classes) => {
                let book = Book::new(program, classes);
                whole_step(alloc, &book, &mut self.parts, input, source)
            }
            None => unreachable!(),
        }
    }

    /// Makes at most `n` steps. Each printed line is given to `out` in its own step. Where no step
    /// asks, nothing is read.
    pub fn run<S: Source, O: Sink>(
        &mut self,
        alloc: Global,
        program: &Program,
        n: u64,
        input: &mut Numbers,
        source: &mut S,
        out: &mut O,
    ) -> Ended
        requires left { self.old.kept.items ≢ [] }
        requires fits { Fits program.now self.old }
        requires follows { Follows input.old (S.left source.old) }

        ensures run { OnInput input.old input.new (S.left source.old) (S.left source.new)
            (λ before after. (k : ℕ) × RunIs program.now (state_of program.now self.old before) n k
            self.new after (O.taken out.old) (O.taken out.new) result) }
        ensures reads_nothing { OnInput input.old input.new (S.left source.old) (S.left source.new)
            (λ before after. let start = state_of program.now self.old before in (k : ℕ) × (RunIs
            program.now start n k self.new after (O.taken out.old) (O.taken out.new) result ×
            (NoneAsks program.now start (begun result k) → (input.new ≡ input.old) × (source.new ≡
            source.old)))) }
        ensures fits { Fits program.now self.new }
        ensures follows { Follows input.new (S.left source.new) }

        ensures input_fault { result ≡ Ended.InputFault →
            Rose (S.faults source.old) (S.faults source.new) }
        ensures source_quiet { result ≢ Ended.InputFault →
            S.faults source.new ≡ S.faults source.old }
        ensures output_fault { result ≡ Ended.OutputFault →
            Rose (O.faults out.old) (O.faults out.new) }
        ensures source_never_falls { S.faults source.old ≤ S.faults source.new }
        ensures sink_never_falls { O.faults out.old ≤ O.faults out.new }
    {
        self.run_counting(alloc, program, n, input, source, out)
            .ended
    }

    /// Makes at most `n` steps, as `run` does, and counts the whole ones.
    pub fn run_counting<S: Source, O: Sink>(
        &mut self,
        alloc: Global,
        program: &Program,
        n: u64,
        input: &mut Numbers,
        source: &mut S,
        out: &mut O,
    ) -> CountedRun
        requires left { self.old.kept.items ≢ [] }
        requires fits { Fits program.now self.old }
        requires follows { Follows input.old (S.left source.old) }
        ensures run { OnInput input.old input.new (S.left source.old) (S.left source.new)
            (λ before after. RunIs program.now (state_of program.now self.old before) n result.steps
            self.new after (O.taken out.old) (O.taken out.new) result.ended) }
        ensures within { begun result.ended result.steps ≤ n }
        ensures reads_nothing { OnInput input.old input.new (S.left source.old) (S.left source.new)
            (λ before after. let start = state_of program.now self.old before in RunIs program.now
            start n result.steps self.new after (O.taken out.old) (O.taken out.new) result.ended ×
            (NoneAsks program.now start (begun result.ended result.steps) → (input.new ≡ input.old)
            × (source.new ≡ source.old))) }
        ensures fits { Fits program.now self.new }
        ensures follows { Follows input.new (S.left source.new) }

        ensures input_fault { result.ended ≡ Ended.InputFault →
            Rose (S.faults source.old) (S.faults source.new) }
        ensures source_quiet { result.ended ≢ Ended.InputFault →
            S.faults source.new ≡ S.faults source.old }
        ensures output_fault { result.ended ≡ Ended.OutputFault →
            Rose (O.faults out.old) (O.faults out.new) }
        ensures source_never_falls { S.faults source.old ≤ S.faults source.new }
        ensures sink_never_falls { O.faults out.old ≤ O.faults out.new }
    {
        let mut steps = 0;
        while steps < n {
            if let Some(ended) = count(self.step(alloc, program, input, source), &mut steps, out) {
                return CountedRun { ended, steps };
            }
        }
        let ended = Ended::Spent;
        CountedRun { ended, steps }
    }

    /// How many objects were made.
    pub fn made(&self) -> u64
        ensures { result ≡ length self.now.kept.store }
    {
        self.parts.store.len() as u64
    }

    /// The values that were printed, the oldest first.
    pub fn output(&self) -> &Vals
        ensures { result.now ≡ self.now.kept.output }
    {
        &self.parts.output
    }

    /// The object of a serial; None past the last one that was made.
    pub fn object(&self, alloc: Global, serial: u64) -> Result<Option<Seen>, Memory>
        ensures { IfOk result (λ o. o ≡ slice_get self.now.kept.store serial) }
    {
        match self.parts.store.get(serial as usize) {
            Some(object) => {
                let fields = vals_of(alloc, &object.fields)?;
                Ok(Some(Seen {
                    class: object.class,
                    fields,
                    label: object.label,
                }))
            }
            None => Ok(None),
        }
    }
}
