//! What the slots of all frames hold (docs/embedding.md, "A trail"). Only the top frame is written
//! and can be read whole, so the others are kept as they were.

use crate::cells::shown;
use crate::json::{Items, number, value};
use rg_base::{ByteList, Memory, Val};
use rg_code::{CodeList, Op};
use rg_step::Stepper;
use std::alloc::Global;

/// A frame: its first slot among all, the address at which its code begins, that of the step that
/// called it, and how many windows were open then.
#[derive(Clone, Copy)]
struct Row {
    first: usize,
    entry: usize,
    caller: usize,
    windows: usize,
}

/// The values in the slots of all frames, main's first.
#[derive(Drop)]
pub struct Shadow {
    vals: Vec<Val>,
    rows: Vec<Row>,
}

/// Tells a value: its frame, its slot, and it.
fn tell(told: &mut Items, frame: usize, slot: usize, v: Val) -> Result<(), Memory> {
    let text = told.next()?;
    text.push(b'[')?;
    number(text, frame as u64)?;
    text.push(b',')?;
    number(text, slot as u64)?;
    text.push(b',')?;
    value(text, v)?;
    text.push(b']')
}

impl Shadow {
    /// No frame yet.
    pub fn new(alloc: Global) -> Shadow {
        Shadow {
            vals: Vec::new(alloc),
            rows: Vec::new(alloc),
        }
    }

    // A slot holds this value; it is told where it held another one.
    fn set(
        &mut self,
        frame: usize,
        first: usize,
        slot: usize,
        v: Val,
        told: &mut Items,
    ) -> Result<(), Memory> {
        let place = first.saturating_add(slot);
        if place >= self.vals.len() {
            if self.vals.push(Val::Nil).is_err() {
                return Err(Memory);
            }
        }
        let Some(was) = self.vals.get_mut(place) else {
            return Ok(());
        };
        if *was == v {
            return Ok(());
        }
        *was = v;
        tell(told, frame, slot, v)
    }

    // The step at this address called: slots of its frame that it used up are nil.
    fn use_up(&mut self, code: &CodeList, at: usize, told: &mut Items) -> Result<(), Memory> {
        let Some(row) = self.rows.last().copied() else {
            return Ok(());
        };
        let frame = self.rows.len().saturating_sub(1);
        for k in at..code.len() {
            match code.get(k) {
                Op::Call { .. } => return Ok(()),
                Op::Clear { slot } => self.set(frame, row.first, slot as usize, Val::Nil, told)?,
                _ => {}
            }
        }
        Ok(())
    }

    // The slots of the top frame.
    fn read_top(&mut self, stepper: &Stepper, told: &mut Items) -> Result<(), Memory> {
        let (Some(heap), Some(frames)) = (stepper.heap(), stepper.frames()) else {
            return Ok(());
        };
        let frame = self.rows.len().saturating_sub(1);
        for slot in 0..frames.size() {
            let Ok(short) = u32::try_from(slot) else {
                return Ok(());
            };
            let v = shown(heap, frames.word(short));
            self.set(frame, frames.first(), slot, v, told)?;
        }
        Ok(())
    }

    // A frame came, if there are more than before, or some went.
    fn follow_frames(
        &mut self,
        stepper: &Stepper,
        code: &CodeList,
        at: usize,
        told: &mut Items,
        out: &mut ByteList,
    ) -> Result<(), Memory> {
        let Some(frames) = stepper.frames() else {
            return Ok(());
        };
        let (before, count) = (self.rows.len(), frames.count());
        if count > before {
            out.extend(b",\"push\":")?;
            number(out, stepper.at() as u64)?;
            self.use_up(code, at, told)?;
            let row = Row {
                first: frames.first(),
                entry: stepper.at(),
                caller: at,
                windows: frames.open_count(),
            };
            if self.rows.push(row).is_err() {
                return Err(Memory);
            }
        }
        if count < before {
            out.extend(b",\"pop\":")?;
            number(out, before.saturating_sub(count) as u64)?;
            self.rows.truncate(count);
            self.vals
                .truncate(frames.first().saturating_add(frames.size()));
        }
        Ok(())
    }

    /// Follows the step at an address, and appends what changed: a frame that came, those that went,
    /// and the slots that hold other values.
    pub fn follow(
        &mut self,
        alloc: Global,
        stepper: &Stepper,
        code: &CodeList,
        at: usize,
        out: &mut ByteList,
    ) -> Result<(), Memory> {
        let mut told = Items::new(alloc);
        self.follow_frames(stepper, code, at, &mut told, out)?;
        self.read_top(stepper, &mut told)?;
        told.tell_some(b"v", out)
    }

    // The end of the slots of a frame among all.
    fn end_of(&self, frame: usize) -> usize {
        match self.rows.get(frame.saturating_add(1)) {
            Some(next) => next.first,
            None => self.vals.len(),
        }
    }

    /// Appends all frames, and all values but nil.
    pub fn tell_all(&self, alloc: Global, out: &mut ByteList) -> Result<(), Memory> {
        let (mut entries, mut told) = (Items::new(alloc), Items::new(alloc));
        for frame in 0..self.rows.len() {
            if let Some(row) = self.rows.get(frame) {
                let text = entries.next()?;
                text.push(b'[')?;
                number(text, row.entry as u64)?;
                text.push(b',')?;
                number(text, row.caller as u64)?;
                text.push(b',')?;
                number(text, row.windows as u64)?;
                text.push(b']')?;
                for place in row.first..self.end_of(frame) {
                    let v = self.vals.get(place).copied().unwrap_or(Val::Nil);
                    if v != Val::Nil {
                        tell(&mut told, frame, place.saturating_sub(row.first), v)?;
                    }
                }
            }
        }
        entries.tell(b"frames", out)?;
        told.tell_some(b"v", out)
    }
}
