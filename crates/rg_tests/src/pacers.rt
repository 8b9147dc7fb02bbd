//! What pacers answer, row by row, and pacers in boxes (docs/architecture.md, "Pacers").

use rg_base::Census;
use rg_pace::{Doubling, EveryN, Never, Pacer, Pacers};
use std::test::*;

/// What is told of a region that holds so many cells.
fn holds(held: u64) -> Census {
    Census { held, since: 1 }
}

/// What is told where a pacer is asked for the so manyth time since it said yes.
fn asked(since: u64) -> Census {
    Census { held: 1, since }
}

#[test]
fn yes_comes_at_the_limit_and_at_twice_the_cells(rt: HostRuntime) {
    let mut pacer = Doubling::new();
    for (held, yes) in [(63, false), (64, true), (127, false), (128, true)] {
        assert!(rt; pacer.ask(holds(held)) == yes, "{held}");
    }
}

#[test]
fn yes_never_comes(rt: HostRuntime) {
    let mut pacer = Never::new();
    for held in [63, 64, 127, 128] {
        assert!(rt; !pacer.ask(holds(held)), "{held}");
    }
}

#[test]
fn pacers_in_boxes_are_tuned_and_asked(rt: HostRuntime) -> Result<(), Fail> {
    let mut pacers = Pacers {
        count: Box::new(rt.alloc(), EveryN::new())?,
        trace: Box::new(rt.alloc(), EveryN::new())?,
    };
    pacers.trace.tune(3);
    assert!(rt; !pacers.count.ask(asked(9)) && !pacers.trace.ask(asked(2)));
    assert!(rt; pacers.trace.ask(asked(3)) && pacers.trace.ask(asked(4)));
    Ok(())
}
