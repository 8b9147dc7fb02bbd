//! Closed regions as lists, made and read (docs/architecture.md, "The heap" and "Cargo").

ghost use Rattle.std.specs.Prelude.{◌≡◌, ◌≢◌, ℕ, IfNone, IfOk, IfSome, OnOk, OnErr, length};
ghost use Rattle.rg_cells.specs.Table.{HasSerial, LacksSerial, high_of};
ghost use Rattle.rg_regions.specs.Table.{IsBridge};
ghost use Rattle.rg_cown.specs.Cargo.{SoundCargo};
ghost use Rattle.rg_cown.specs.Contents.{cargo_at};
ghost use Rattle.rg_cown.specs.Loads.{Loaded, HighUpTo, high_with};
ghost use Rattle.rg_cown.specs.Loads.{SameCells, SameRecords};

use crate::heap::Heap;
use rg_base::Memory;
use rg_cown::{Cargo, load, unload};
use std::alloc::Global;

impl Heap {
    /// Makes a closed region of a cargo, with those beneath it and with the frozen objects;
    /// answers its bridge. The cells get the next serials and the regions the next numbers, both
    /// in the cargo's order. Where there is no memory, all is as before, but slots more may have
    /// been held.
    pub fn load(&mut self, alloc: Global, cargo: &Cargo) -> Result<usize, Memory>
        requires { SoundCargo cargo.now }
        ensures loaded { IfOk result (λ slot. Loaded cargo.now slot
            self.old.cells self.old.regions self.new.cells self.new.regions) }
        ensures bridge { IfOk result (λ slot.
            IsBridge self.new.regions self.old.regions.next slot) }
        ensures high { OnOk result (high_of self.new.cells.heap
            ≡ high_with self.old.cells.heap (length cargo.now.cells)) }
        // what a refusal leaves
        ensures cells { OnErr result (SameCells self.old.cells self.new.cells) }
        ensures slots { OnErr result (HighUpTo self.old.cells.heap self.new.cells.heap
            (length cargo.now.cells)) }
        ensures regions { OnErr result (SameRecords self.old.regions self.new.regions) }
    {
        let Ok(slot) = load(alloc, &mut self.cells, &mut self.regions, cargo) else {
            return Err(Memory);
        };
        Ok(slot)
    }

    /// What the region of a bridge holds, as a cargo that `load` takes. A window may have the
    /// region open.
    pub fn unload(&self, alloc: Global, bridge: usize) -> Result<Cargo, Memory>
        requires { (r : ℕ) × (r ≢ 0) × IsBridge self.now.regions r bridge }
        ensures cargo { IfOk result (λ c. c
            ≡ cargo_at self.now.cells.heap self.now.regions bridge) }
        ensures sound { IfOk result (λ c. SoundCargo c) }
    {
        unload(alloc, &self.cells, &self.regions, bridge)
    }

    /// The slot of the held cell with a serial, if one has it. It is looked for among all slots.
    pub fn find(&self, serial: u64) -> Option<usize>
        ensures some { IfSome result (λ slot. HasSerial self.now.cells.heap slot serial) }
        ensures none { IfNone result (LacksSerial self.now.cells.heap serial) }
    {
        self.cells.find(serial)
    }
}
