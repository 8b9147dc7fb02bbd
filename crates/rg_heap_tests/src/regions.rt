//! That ample memory is enough, and what a use of the table looks like (docs/architecture.md,
//! "Tests").

use rg_base::{Manager, Memory};
use rg_regions::Regions;

// Of two regions one goes, and a third one is taken back.
fn come_and_go(regions: &mut Regions) -> Result<bool, Memory> {
    let first = regions.add(Manager::Trace)?;
    let second = regions.add(Manager::Arena)?;
    regions.remove(first);
    let is_one = regions.key(0).is_none() && regions.key(1) == Some(second);
    let is_alone = regions.count() == 1;
    let third = regions.add(Manager::Count)?;
    let is_third = regions.number(third) == 2 && regions.key(2) == Some(third);
    regions.cancel(third);
    Ok(is_one && is_alone && is_third)
}

// A region comes without a bridge or members, and then has two, in order.
fn is_ordered(regions: &mut Regions) -> Result<bool, Memory> {
    let again = regions.add(Manager::Count)?;
    let is_again = regions.number(again) == 2 && regions.count() == 2;
    let is_new = regions.bridge(again).is_none() && regions.link(again).is_none();
    let is_empty = regions.members(again).is_empty();
    regions.reserve(again, 2)?;
    regions.push_member(again, 9);
    regions.push_member(again, 4);
    regions.order_members(again);
    let is_put = regions.members(again) == [4, 9].as_slice();
    Ok(is_again && is_new && is_empty && is_put)
}

// Three regions: one goes, and one is taken back and comes again, without a bridge or members.
#[test]
fn numbers_are_given_once(rt: HostRuntime) {
    let mut regions = Regions::new(rt.alloc());
    assert!(rt; matches!(come_and_go(&mut regions), Ok(true)));
    assert!(rt; matches!(is_ordered(&mut regions), Ok(true)));
}
