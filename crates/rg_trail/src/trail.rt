//! What is told of each step (docs/embedding.md, "A trail").

use crate::cells::{Extent, Table};
use crate::following::{Followed, bridge_given, line_at, manager_made};
use crate::frames::Shadow;
use crate::json::{Items, manager, number};
use crate::outcome::{goes_on, is_made, tell_outcome};
use rg_base::{ByteList, Cause, EndNumbers, Event, Manager, Memory, Outcome};
use rg_code::{CodeList, Op};
use rg_step::Stepper;
use std::alloc::Global;

/// Which steps are told whole, how often others are told by their numbers (0: never), what the pacers
/// are tuned to, and whether a collection of a traced region moves what it keeps.
#[derive(Clone, Copy)]
pub struct Wanted {
    pub from: u64,
    pub steps: u64,
    pub every: u64,
    pub tune: u64,
    pub slides: bool,
}

/// What stood in front of a step: its address, the numbers of the heap, the bridge that it gives the
/// top window's region, and the manager of the region that it makes.
#[derive(Clone, Copy)]
pub struct Before {
    at: usize,
    numbers: EndNumbers,
    given: Option<u64>,
    manager: Option<Manager>,
}

/// A run as it was told so far.
#[derive(Drop)]
pub struct Trail {
    wanted: Wanted,
    followed: Followed,
    shadow: Shadow,
    table: Table,
    // how many collections were told
    events: usize,
    is_begun: bool,
}

/// Whether the step at an address may write a field, or give a region another bridge.
fn may_write(code: &CodeList, at: usize) -> bool {
    for k in at..code.len() {
        match code.get(k) {
            Op::Put { .. } | Op::PutElement | Op::Swap { .. } | Op::LeaveGiving { .. } => {
                return true;
            }
            Op::Mark { .. } => {
                if k > at {
                    return false;
                }
            }
            _ => {}
        }
    }
    false
}

/// What a step may have changed of the cells, by the numbers in front of it and behind it; None where
/// nothing.
fn extent_of(a: EndNumbers, b: EndNumbers, writes: bool) -> Option<Extent> {
    if a.frozen != b.frozen || a.collections != b.collections || b.regions < a.regions {
        return Some(Extent::All);
    }
    let (grown, made) = (b.held.saturating_sub(a.held), b.made.saturating_sub(a.made));
    if b.held < a.held || grown != made {
        return Some(Extent::All);
    }
    if made > 0 {
        return Some(Extent::Grown);
    }
    if writes { Some(Extent::Fields) } else { None }
}

/// Tells a collection: the region, its manager, the cause, the cells before and behind, the regions
/// that went with them, and the cells of the whole heap at that time.
fn tell_event(told: &mut Items, event: &Event, heap: u64) -> Result<(), Memory> {
    let text = told.next()?;
    text.push(b'[')?;
    number(text, event.region)?;
    text.push(b',')?;
    manager(text, event.manager)?;
    text.extend(match event.cause {
        Cause::Asked => b",\"asked\"",
        Cause::Paced => b",\"paced\"",
    })?;
    for n in [event.held, event.kept, event.released, heap] {
        text.push(b',')?;
        number(text, n)?;
    }
    text.push(b']')
}

/// Begins a line: the steps so far, the line of a step, and the objects held and frozen, the regions,
/// and the objects made.
fn begin_line(out: &mut ByteList, n: EndNumbers, line: u64) -> Result<(), Memory> {
    out.extend(b"{\"s\":")?;
    number(out, n.steps)?;
    out.extend(b",\"line\":")?;
    number(out, line)?;
    out.extend(b",\"now\":[")?;
    number(out, n.held)?;
    for it in [n.frozen, n.regions, n.made] {
        out.push(b',')?;
        number(out, it)?;
    }
    out.push(b']')
}

/// What stands in front of the next step.
pub fn in_front(stepper: &Stepper, code: &CodeList) -> Before {
    let at = stepper.at();
    Before {
        at,
        numbers: stepper.numbers(),
        given: bridge_given(stepper, code, at),
        manager: manager_made(code, at),
    }
}

impl Trail {
    /// Nothing was told yet.
    pub fn new(alloc: Global, wanted: Wanted) -> Trail {
        Trail {
            wanted,
            followed: Followed::new(alloc),
            shadow: Shadow::new(alloc),
            table: Table::new(alloc),
            events: 0,
            is_begun: false,
        }
    }

    /// A program has begun.
    pub fn begin(
        &mut self,
        alloc: Global,
        stepper: &Stepper,
        code: &CodeList,
    ) -> Result<(), Memory> {
        self.shadow
            .follow(alloc, stepper, code, 0, &mut ByteList::new(alloc))?;
        self.followed.follow(stepper, None, 0)
    }

    // What changed of the cells.
    fn tell_cells(
        &mut self,
        alloc: Global,
        stepper: &Stepper,
        extent: Extent,
        out: &mut ByteList,
    ) -> Result<(), Memory> {
        let (Some(heap), Some(active)) = (stepper.heap(), stepper.active()) else {
            return Ok(());
        };
        let changes = self.table.compare(alloc, heap, active.region, extent)?;
        changes.tell(out)
    }

    // All that is there.
    fn tell_all(
        &mut self,
        alloc: Global,
        stepper: &Stepper,
        code: &CodeList,
        out: &mut ByteList,
    ) -> Result<(), Memory> {
        self.is_begun = true;
        begin_line(out, stepper.numbers(), line_at(code, stepper.at()))?;
        out.extend(b",\"next\":")?;
        number(out, stepper.at() as u64)?;
        self.shadow.tell_all(alloc, out)?;
        self.followed.tell(alloc, out)?;
        self.tell_cells(alloc, stepper, Extent::All, out)?;
        out.extend(b"}\n")
    }

    /// The line of all that is there, in front of the first step that is told whole; nothing in front
    /// of another one.
    pub fn start(
        &mut self,
        alloc: Global,
        stepper: &Stepper,
        code: &CodeList,
    ) -> Result<ByteList, Memory> {
        let mut out = ByteList::new(alloc);
        if stepper.numbers().steps == self.wanted.from && !self.is_begun {
            self.tell_all(alloc, stepper, code, &mut out)?;
        }
        Ok(out)
    }

    /// The line of all that is there, where the run ended in front of the first step that is told
    /// whole.
    pub fn finish(
        &mut self,
        alloc: Global,
        stepper: &Stepper,
        code: &CodeList,
    ) -> Result<ByteList, Memory> {
        let mut out = ByteList::new(alloc);
        if !self.is_begun {
            self.tell_all(alloc, stepper, code, &mut out)?;
        }
        Ok(out)
    }

    // Appends the collections that weren't told yet, on a heap of so many cells.
    fn tell_events(
        &mut self,
        alloc: Global,
        stepper: &Stepper,
        heap: u64,
        out: &mut ByteList,
    ) -> Result<(), Memory> {
        let (events, mut told) = (stepper.events(), Items::new(alloc));
        for k in self.events..events.len() {
            if let Some(event) = events.get(k) {
                tell_event(&mut told, event, heap)?;
            }
        }
        self.events = events.len();
        told.tell_some(b"col", out)
    }

    // Appends what the step changed, of which the frames are told already.
    fn tell_changes(
        &mut self,
        alloc: Global,
        stepper: &Stepper,
        code: &CodeList,
        before: Before,
        frames: &ByteList,
        out: &mut ByteList,
    ) -> Result<(), Memory> {
        out.extend(frames.bytes())?;
        self.followed.tell(alloc, out)?;
        if let Some(bridge) = before.given {
            out.extend(b",\"given\":")?;
            number(out, bridge)?;
        }
        let writes = may_write(code, before.at);
        match extent_of(before.numbers, stepper.numbers(), writes) {
            Some(extent) => self.tell_cells(alloc, stepper, extent, out),
            None => Ok(()),
        }
    }

    // Whether of a step behind which the numbers are these nothing is told.
    fn is_passed_over(&self, n: EndNumbers, outcome: Outcome) -> bool {
        let every = self.wanted.every;
        let is_sampled = every > 0 && n.steps % every == 0;
        !is_sampled && outcome == Outcome::Running && n.collections == self.events as u64
    }

    // Whether the step behind so many is told whole, and whether it or a later one is.
    fn is_whole(&self, steps: u64) -> bool {
        self.is_begun && self.is_followed(steps)
    }

    fn is_followed(&self, steps: u64) -> bool {
        steps < self.wanted.from.saturating_add(self.wanted.steps)
    }

    /// The line of a step; nothing where nothing of it is told.
    pub fn step(
        &mut self,
        alloc: Global,
        stepper: &Stepper,
        code: &CodeList,
        before: Before,
        outcome: Outcome,
    ) -> Result<ByteList, Memory> {
        let (mut out, mut frames) = (ByteList::new(alloc), ByteList::new(alloc));
        let (n, steps) = (stepper.numbers(), before.numbers.steps);
        if is_made(outcome) && self.is_followed(steps) {
            self.shadow
                .follow(alloc, stepper, code, before.at, &mut frames)?;
            self.followed.give(before.given);
            self.followed
                .follow(stepper, before.manager, before.numbers.made)?;
        }
        if !self.is_whole(steps) && self.is_passed_over(n, outcome) {
            return Ok(out);
        }
        begin_line(&mut out, n, line_at(code, before.at))?;
        tell_outcome(&mut out, outcome)?;
        let grown = n.made.saturating_sub(before.numbers.made);
        let held = before.numbers.held.saturating_add(before.numbers.frozen);
        self.tell_events(alloc, stepper, held.saturating_add(grown), &mut out)?;
        if self.is_whole(steps) {
            out.extend(b",\"at\":")?;
            number(&mut out, before.at as u64)?;
            out.extend(b",\"next\":")?;
            number(&mut out, stepper.at() as u64)?;
            if is_made(outcome) {
                self.tell_changes(alloc, stepper, code, before, &frames, &mut out)?;
            }
        }
        out.extend(b"}\n")?;
        Ok(out)
    }
}
