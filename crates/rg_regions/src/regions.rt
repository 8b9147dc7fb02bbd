//! The table of regions (docs/architecture.md, "Regions").

ghost use Rattle.std.specs.Prelude.{◌≡◌, ◌<◌, ◌-◌, ◌^◌, ℕ, [], Some, None, IfSome, IfOk};
ghost use Rattle.std.specs.Prelude.{true, false};
ghost use Rattle.std.specs.Prelude.{OnOk, OnErr, length, option_map, slice_index_or, slice_set};
ghost use Rattle.std.specs.Prelude.{count_by, is_some};
ghost use Rattle.rg_regions.specs.Table.{Record, record_at, link_at, IsKey, HasNumber};
ghost use Rattle.rg_regions.specs.Table.{HasPlace, HasRoom, IsNewest};
ghost use Rattle.rg_regions.specs.Table.{changed, removed, cancelled, Added, Roomier};
ghost use Rattle.rg_regions.specs.Table.{with_bridge, with_member, without_member, fresh};
ghost use Rattle.rg_regions.specs.Ordered.{Orders};
ghost use Rattle.rg_regions.specs.Collection.{OfRegion};
ghost use Rattle.rg_regions.specs.Inner.Layout.{record_of};

use crate::hints::{hint, keep_hint};
use crate::places;
use crate::region::{Kept, Region};
use indexmap::IndexMap;
use rg_base::{Manager, Memory};
use slab::Slab;
use smallvec::SmallVec;
use std::alloc::Global;
use std::marker::Model;

/// Regions by their keys.
pub struct Regions {
    alloc: Global,
    records: Slab<Region>,
    // the key of each number
    keys: IndexMap<u64, usize>,
    // keys that numbers may have: whoever takes one tests it
    hints: Vec<usize>,
    next: u64,
}

impl Model for Regions {
    ghost use Rattle.rg_regions.specs.Table.{RegionTable};
    ghost use Rattle.rg_regions.specs.Inner.Layout.{table_of, IsIndexed};

    ghost Value = { RegionTable };

    ghost view = { λ s. table_of s.records.slots s.next };

    ghost invariant = { λ s. IsIndexed s.keys.entries (table_of s.records.slots s.next) };
}

/// Written out, so that no crate above proves how each region is dropped.
impl Drop for Regions {
    fn drop(self) {
        let Regions {
            alloc: _,
            records: _,
            keys: _,
            hints: _,
            next: _,
        } = self;
    }
}

impl Regions {
    /// No region yet.
    pub fn new(alloc: Global) -> Regions
        ensures records { result.records ≡ [] }
        ensures links { result.links ≡ [] }
        ensures next { result.next ≡ 0 }
    {
        Regions {
            alloc,
            records: Slab::new(alloc),
            keys: IndexMap::new(alloc),
            hints: Vec::new(alloc),
            next: 0,
        }
    }

    /// The region of a key.
    fn region(&self, key: usize) -> &Region
        requires { IsKey self.now key }
        ensures is { record_at self.now key ≡ Some (record_of result.now) }
        ensures link { link_at self.now key ≡ result.now.link }
    {
        match self.records.get(key) {
            Some(region) => region,
            None => unreachable!(),
        }
    }

    /// The number of regions.
    pub fn count(&self) -> usize
        ensures { result ≡ count_by is_some self.now.records }
    {
        self.records.len()
    }

    /// The key of a number, where it is in the table.
    #[inline]
    pub fn key(&self, number: u64) -> Option<usize>
        ensures some { IfSome result (λ key. HasNumber self.now key number) }
        ensures only { (key : ℕ) → HasNumber self.now key number → result ≡ Some key }
    {
        if let Some(key) = hint(&self.hints, number) {
            if self.has_number(key, number) {
                return Some(key);
            }
        }
        self.key_by_map(number)
    }

    /// The key of a number, where the hints tell it.
    #[inline(always)]
    pub fn hinted_key(&self, number: u64) -> Option<usize>
        ensures { IfSome result (λ key. HasNumber self.now key number) }
    {
        let Some(key) = hint(&self.hints, number) else {
            return None;
        };
        if !self.has_number(key, number) {
            return None;
        }
        Some(key)
    }

    // The same, with no look at the hints.
    #[inline(never)]
    fn key_by_map(&self, number: u64) -> Option<usize>
        ensures some { IfSome result (λ key. HasNumber self.now key number) }
        ensures only { (key : ℕ) → HasNumber self.now key number → result ≡ Some key }
    {
        self.keys.get(&number).copied()
    }

    /// The number of a region.
    pub fn number(&self, key: usize) -> u64
        requires { IsKey self.now key }
        ensures { HasNumber self.now key result }
    {
        self.region(key).number
    }

    /// Whether the region of a key, if there is one, has a number; nothing is looked up by the
    /// number.
    #[inline]
    pub fn has_number(&self, key: usize, number: u64) -> bool
        ensures yes { result ≡ true → HasNumber self.now key number }
        ensures no { result ≡ false → HasNumber self.now key number → ⊥ }
    {
        match self.records.get(key) {
            Some(region) => region.number == number,
            None => false,
        }
    }

    /// The manager of a region.
    pub fn manager(&self, key: usize) -> Manager
        requires { IsKey self.now key }
        ensures { option_map (λ (r : Record). r.manager) (record_at self.now key) ≡ Some result }
    {
        self.region(key).manager
    }

    /// The bridge of a region, where it has one.
    pub fn bridge(&self, key: usize) -> Option<usize>
        requires { IsKey self.now key }
        ensures { option_map (λ (r : Record). r.bridge) (record_at self.now key) ≡ Some result }
    {
        self.region(key).bridge
    }

    /// The slots of a region's cells.
    pub fn members(&self, key: usize) -> &[usize]
        requires { IsKey self.now key }
        ensures { option_map (λ (r : Record). r.members) (record_at self.now key)
            ≡ Some result.now }
    {
        self.region(key).members.as_slice()
    }

    /// What a collection kept of a region, with the chain of the regions that it left without an
    /// owner.
    pub fn left(&self, key: usize, orphans: Option<usize>) -> Kept
        requires { IsKey self.now key }
        ensures kept { OfRegion self.now key (λ r. result.kept ≡ length r.members) }
        ensures orphans { result.orphans ≡ orphans }
    {
        Kept {
            kept: self.members(key).len() as u64,
            orphans,
        }
    }

    /// The link of a region.
    pub fn link(&self, key: usize) -> Option<usize>
        requires { IsKey self.now key }
        ensures { result ≡ link_at self.now key }
    {
        self.region(key).link
    }

    /// Sets the link of a region.
    pub fn set_link(&mut self, key: usize, next: Option<usize>)
        requires { IsKey self.old key }
        ensures set { self.new ≡ record self.old { links = slice_set self.old.links key next } }
        ensures within { key < length self.old.links }
    {
        places::put_link(&mut self.records, key, next);
    }

    /// Gives a region its bridge.
    pub fn set_bridge(&mut self, key: usize, slot: usize)
        requires { IsKey self.old key }
        ensures { self.new ≡ changed self.old key (with_bridge slot) }
    {
        places::put_bridge(&mut self.records, key, slot);
    }

    /// Makes room for more members.
    pub fn reserve(&mut self, key: usize, more: usize) -> Result<(), Memory>
        requires { IsKey self.old key }
        ensures ok { OnOk result (Roomier self.old self.new key more) }
        ensures err { OnErr result (self.new ≡ self.old) }
    {
        places::put_room(&mut self.records, key, more)
    }

    /// Adds a member, for which there is room.
    pub fn push_member(&mut self, key: usize, slot: usize)
        requires { HasRoom self.old key }
        ensures { self.new ≡ changed self.old key (with_member slot) }
    {
        places::put_member(&mut self.records, key, slot);
    }

    /// A member goes, and the last one takes its place.
    pub fn drop_member(&mut self, key: usize, place: usize)
        requires { HasPlace self.old key place }
        ensures { self.new ≡ changed self.old key (without_member place) }
    {
        places::take_member(&mut self.records, key, place);
    }

    /// The members of a region come into rising order.
    pub fn order_members(&mut self, key: usize)
        requires { IsKey self.old key }
        ensures { Orders self.old self.new key }
    {
        places::order_members(&mut self.records, key);
    }

    /// Adds a region without members, with the next number.
    pub fn add(&mut self, manager: Manager) -> Result<usize, Memory>
        ensures added { IfOk result (λ key. Added self.old self.new key (fresh self.old manager)) }
        ensures numbers { OnOk result (self.new.next < 2 ^ 64 - 1) }
        ensures fresh { (key : ℕ) → HasNumber self.old key self.old.next → ⊥ }
        ensures err { OnErr result (self.new ≡ self.old) }
    {
        if self.next >= u64::MAX - 1 {
            return Err(Memory);
        }
        let Ok(()) = self.records.reserve(1) else {
            return Err(Memory);
        };
        let Ok(_) = self.keys.insert(self.next, self.records.vacant_key()) else {
            return Err(Memory);
        };
        let key = self.records.insert_reserved(Region {
            number: self.next,
            manager,
            members: SmallVec::new(self.alloc),
            bridge: None,
            link: None,
        });
        keep_hint(&mut self.hints, self.next, key);
        self.next += 1;
        Ok(key)
    }

    /// A region leaves the table; no other has its number.
    pub fn remove(&mut self, key: usize)
        requires { IsKey self.old key }
        ensures gone { self.new ≡ removed self.old key }
        ensures only { (k n : ℕ) → HasNumber self.old key n → HasNumber self.new k n → ⊥ }
    {
        let number = self.region(key).number;
        self.keys.swap_remove(&number);
        self.records.try_remove(key);
    }

    /// Takes back the region that was added last; its number is the next one again.
    pub fn cancel(&mut self, key: usize)
        requires { IsNewest self.old key }
        ensures { self.new ≡ cancelled self.old key }
    {
        self.remove(key);
        self.next -= 1;
    }
}
