//! What is written into the records of regions (docs/architecture.md, "Regions").

ghost use Rattle.std.specs.Prelude.{◌≡◌, ◌<◌, ◌≤◌, Some, OnOk, OnErr, length};
ghost use Rattle.rg_regions.specs.Table.{with_member, without_member, with_room};
ghost use Rattle.rg_regions.specs.Inner.Layout.{record_of, HasRegion, HasPlaceAt, HasRoomAt};
ghost use Rattle.rg_regions.specs.Inner.Layout.{Writes, Rewrites, Widens, Sorts};
ghost use Rattle.rg_regions.specs.Ordered.{with_members};
ghost use Rattle.std.specs.List.Sorted.{IsPermutation, IsNonDecreasing};

use crate::region::Region;
use rg_base::Memory;
use slab::Slab;

fn link_region(region: &mut Region, next: Option<usize>)
    ensures { region.new ≡ record region.old { link = next } }
{
    region.link = next;
}

fn bridge_region(region: &mut Region, slot: usize)
    ensures { region.new ≡ record region.old { bridge = Some slot } }
{
    region.bridge = Some(slot);
}

// A member goes, and the last one takes its place.
fn shorten(region: &mut Region, place: usize)
    requires { place < length region.old.members.items }
    ensures link { region.new.link ≡ region.old.link }
    ensures shows { record_of region.new ≡ without_member place (record_of region.old) }
{
    let count = region.members.len();
    prove!(place < count);
    region.members.swap_remove(place);
}

// A member comes, for which there is room.
fn lengthen(region: &mut Region, slot: usize)
    requires { length region.old.members.items < region.old.members.capacity }
    ensures link { region.new.link ≡ region.old.link }
    ensures shows { record_of region.new ≡ with_member slot (record_of region.old) }
{
    region.members.push_reserved(slot);
}

// The members come into rising order.
fn sort(region: &mut Region)
    ensures link { region.new.link ≡ region.old.link }
    ensures shows { record_of region.new
        ≡ with_members region.new.members.items (record_of region.old) }
    ensures rise { IsNonDecreasing region.new.members.items }
    ensures same { IsPermutation region.old.members.items region.new.members.items }
{
    let members = region.members.as_mut_slice();
    members.sort_unstable();
}

// The record stays, but for the room.
fn widen(region: &mut Region, more: usize) -> Result<(), Memory>
    ensures link { region.new.link ≡ region.old.link }
    ensures shows { record_of region.new
        ≡ with_room (record_of region.new).room (record_of region.old) }
    ensures ok { OnOk result (more ≤ (record_of region.new).room) }
    ensures err { OnErr result (record_of region.new ≡ record_of region.old) }
{
    if more <= region.members.capacity() - region.members.len() {
        return Ok(());
    }
    widen_otherwise(region, more)
}

// The same, where there may be too little room.
#[inline(never)]
fn widen_otherwise(region: &mut Region, more: usize) -> Result<(), Memory>
    ensures link { region.new.link ≡ region.old.link }
    ensures shows { record_of region.new
        ≡ with_room (record_of region.new).room (record_of region.old) }
    ensures ok { OnOk result (more ≤ (record_of region.new).room) }
    ensures err { OnErr result (record_of region.new ≡ record_of region.old) }
{
    let Ok(()) = region.members.reserve(more) else {
        return Err(Memory);
    };
    Ok(())
}

/// Writes a link.
pub fn put_link(records: &mut Slab<Region>, key: usize, next: Option<usize>)
    requires { HasRegion records.old key }
    ensures { Writes records.old records.new key (λ r. record r { link = next }) }
{
    match records.get_mut(key) {
        Some(region) => link_region(region, next),
        None => unreachable!(),
    }
}

/// Writes a bridge.
pub fn put_bridge(records: &mut Slab<Region>, key: usize, slot: usize)
    requires { HasRegion records.old key }
    ensures { Writes records.old records.new key (λ r. record r { bridge = Some slot }) }
{
    match records.get_mut(key) {
        Some(region) => bridge_region(region, slot),
        None => unreachable!(),
    }
}

/// Takes a member away.
pub fn take_member(records: &mut Slab<Region>, key: usize, place: usize)
    requires { HasPlaceAt records.old key place }
    ensures { Rewrites records.old records.new key (without_member place) }
{
    match records.get_mut(key) {
        Some(region) => shorten(region, place),
        None => unreachable!(),
    }
}

/// Adds a member.
pub fn put_member(records: &mut Slab<Region>, key: usize, slot: usize)
    requires { HasRoomAt records.old key }
    ensures { Rewrites records.old records.new key (with_member slot) }
{
    match records.get_mut(key) {
        Some(region) => lengthen(region, slot),
        None => unreachable!(),
    }
}

/// Makes room for more members.
pub fn put_room(records: &mut Slab<Region>, key: usize, more: usize) -> Result<(), Memory>
    requires { HasRegion records.old key }
    ensures { Widens records.old records.new key more result }
{
    match records.get_mut(key) {
        Some(region) => widen(region, more),
        None => unreachable!(),
    }
}

/// Puts members in rising order.
pub fn order_members(records: &mut Slab<Region>, key: usize)
    requires { HasRegion records.old key }
    ensures { Sorts records.old records.new key }
{
    match records.get_mut(key) {
        Some(region) => sort(region),
        None => unreachable!(),
    }
}
