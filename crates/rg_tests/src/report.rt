//! The lines of a report, with ample memory (docs/language.md, "Report").

use rg_base::{Cause, EndNumbers, Event, Manager};
use rg_report::{bulk_line, end_line, line};
use std::test::*;

const NUMBERS: EndNumbers = EndNumbers {
    steps: 33532,
    made: 2001,
    held: 1,
    frozen: 2,
    regions: 3,
    collections: 1,
    high: 1501,
};

#[test]
fn a_collection_has_a_line(rt: HostRuntime) -> Result<(), Fail> {
    let event = Event {
        step: 8997,
        region: 1,
        manager: Manager::Trace,
        cause: Cause::Paced,
        held: 1001,
        kept: u64::MAX,
        released: 0,
    };
    let text = line(rt.alloc(), &event)?;
    let wanted = b"paced step 8997 region 1 trace held 1001 kept 18446744073709551615 released 0\n";
    assert!(rt; text.bytes() == wanted.as_slice());
    Ok(())
}

#[test]
fn the_end_of_a_run_has_a_line(rt: HostRuntime) -> Result<(), Fail> {
    let text = end_line(rt.alloc(), &NUMBERS)?;
    let wanted = b"end steps 33532 made 2001 held 1 frozen 2 regions 3 collections 1\n";
    assert!(rt; text.bytes() == wanted.as_slice());
    Ok(())
}

#[test]
fn the_end_of_bulk_has_a_line(rt: HostRuntime) -> Result<(), Fail> {
    let text = bulk_line(rt.alloc(), 1000, &NUMBERS)?;
    let wanted = b"bulk 1000 steps 33532 made 2001 high 1501 collections 1\n";
    assert!(rt; text.bytes() == wanted.as_slice());
    Ok(())
}
