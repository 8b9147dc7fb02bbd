//! What a run has made of regions and windows, step by step (docs/embedding.md, "A trail").

use crate::cells::shown;
use crate::json::{Items, manager, number};
use rg_base::{ByteList, Manager, Memory, Val};
use rg_code::{CodeList, Op};
use rg_step::Stepper;
use std::alloc::Global;

/// A region that was made: its manager, and the serial of its bridge.
#[derive(Clone, Copy)]
struct Made {
    manager: Manager,
    bridge: u64,
}

/// A window that is open: its number, and its region.
#[derive(Clone, Copy)]
struct Open {
    number: u64,
    region: u64,
}

/// The regions that were made by `new iso C` or `new iso C [e]`, region 1 first, and the windows
/// that are open, from the bottom; and what of both was told last.
#[derive(Drop)]
pub struct Followed {
    made: Vec<Made>,
    open: Vec<Open>,
    told: usize,
    told_open: usize,
    told_top: u64,
}

/// The line of the step that begins at an address; 0 where none does.
pub fn line_at(code: &CodeList, at: usize) -> u64 {
    if at < code.len() {
        if let Op::Mark { line } = code.get(at) {
            return line;
        }
    }
    0
}

/// The manager of the region that an instruction makes, if it makes one.
fn manager_of(op: Op) -> Option<Manager> {
    match op {
        Op::NewIso { manager, .. } => Some(manager),
        Op::NewIsoArray { manager, .. } => Some(manager),
        _ => None,
    }
}

/// The manager of the region that the step at an address makes, if it makes one.
pub fn manager_made(code: &CodeList, at: usize) -> Option<Manager> {
    for k in at..code.len() {
        let op = code.get(k);
        if let Some(manager) = manager_of(op) {
            return Some(manager);
        }
        if let Op::Mark { .. } = op {
            if k > at {
                return None;
            }
        }
    }
    None
}

/// The slot whose object becomes the bridge of the region that the step at an address leaves, if it
/// ends a window with `giving`.
fn slot_given(code: &CodeList, at: usize) -> Option<u32> {
    let behind = at.saturating_add(1);
    if behind < code.len() {
        if let Op::LeaveGiving { given, .. } = code.get(behind) {
            return Some(given);
        }
    }
    None
}

/// The serial of the object that becomes the bridge of the region that the step at an address
/// leaves, if it ends a window with `giving`.
pub fn bridge_given(stepper: &Stepper, code: &CodeList, at: usize) -> Option<u64> {
    let slot = slot_given(code, at)?;
    let heap = stepper.heap()?;
    let frames = stepper.frames()?;
    match shown(heap, frames.word(slot)) {
        Val::Obj(serial) => Some(serial),
        Val::Nil | Val::Int(_) | Val::Bool(_) => None,
    }
}

impl Followed {
    /// A program has begun.
    pub fn new(alloc: Global) -> Followed {
        Followed {
            made: Vec::new(alloc),
            open: Vec::new(alloc),
            told: 0,
            told_open: 0,
            told_top: 0,
        }
    }

    /// The region of the topmost window gets another bridge, if there is one.
    pub fn give(&mut self, bridge: Option<u64>) {
        let Some(bridge) = bridge else {
            return;
        };
        let Some(top) = self.open.last() else {
            return;
        };
        let region = top.region;
        if region > 0 {
            if let Some(made) = self.made.get_mut((region - 1) as usize) {
                made.bridge = bridge;
            }
        }
    }

    /// Follows a step, which may have made a region of this manager, with that bridge.
    pub fn follow(
        &mut self,
        stepper: &Stepper,
        manager: Option<Manager>,
        bridge: u64,
    ) -> Result<(), Memory> {
        if let Some(manager) = manager {
            if stepper.numbers().made > bridge {
                if self.made.push(Made { manager, bridge }).is_err() {
                    return Err(Memory);
                }
            }
        }
        let Some(frames) = stepper.frames() else {
            return Ok(());
        };
        let Some(active) = stepper.active() else {
            return Ok(());
        };
        let Some(top) = frames.top_window() else {
            return Ok(());
        };
        self.open.truncate(frames.open_count());
        if self.open.len() < frames.open_count() {
            let open = Open {
                number: top.number,
                region: active.region,
            };
            if self.open.push(open).is_err() {
                return Err(Memory);
            }
        }
        Ok(())
    }

    // Appends the regions that weren't told yet.
    fn tell_regions(&mut self, alloc: Global, out: &mut ByteList) -> Result<(), Memory> {
        let mut regions = Items::new(alloc);
        for k in self.told..self.made.len() {
            if let Some(made) = self.made.get(k) {
                let text = regions.next()?;
                text.push(b'[')?;
                number(text, (k as u64).saturating_add(1))?;
                text.push(b',')?;
                manager(text, made.manager)?;
                text.push(b',')?;
                number(text, made.bridge)?;
                text.push(b']')?;
            }
        }
        self.told = self.made.len();
        regions.tell_some(b"regions", out)
    }

    // Appends the windows that are open, where others were told last.
    fn tell_windows(&mut self, alloc: Global, out: &mut ByteList) -> Result<(), Memory> {
        let Some(top) = self.open.last().copied() else {
            return Ok(());
        };
        if self.open.len() == self.told_open && top.number == self.told_top {
            return Ok(());
        }
        self.told_open = self.open.len();
        self.told_top = top.number;
        let mut windows = Items::new(alloc);
        for open in self.open.iter() {
            let text = windows.next()?;
            text.push(b'[')?;
            number(text, open.number)?;
            text.push(b',')?;
            number(text, open.region)?;
            text.push(b']')?;
        }
        windows.tell(b"windows", out)
    }

    /// Appends the regions that weren't told yet, and the windows that are open, where others were
    /// told last.
    pub fn tell(&mut self, alloc: Global, out: &mut ByteList) -> Result<(), Memory> {
        self.tell_regions(alloc, out)?;
        self.tell_windows(alloc, out)
    }
}
