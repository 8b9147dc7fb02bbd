//! The tables of the capabilities, as docs/language.md has them ("Capabilities").

ghost use Rattle.std.specs.Prelude.{◌<◌};

use rg_base::Cap::{Imm, Iso, Mut, Paused, Tmp};
use rg_base::{Cap, Ty};
use rg_rules::{adapt, below, pause};
use std::test::*;

const CAPS: [Cap; 5] = [Mut, Tmp, Paused, Imm, Iso];

/// A row for each receiver, a column for each field, both in the order of `CAPS`.
const ADAPTED: [[Option<Cap>; 5]; 5] = [
    [Some(Mut), None, None, Some(Imm), Some(Iso)],
    [Some(Mut), Some(Tmp), Some(Paused), Some(Imm), Some(Iso)],
    [Some(Paused), Some(Paused), Some(Paused), Some(Imm), None],
    [Some(Imm), None, None, Some(Imm), Some(Imm)],
    [None, None, None, None, None],
];

/// A row for each lower capability, a column for each upper one.
const BELOW: [[bool; 5]; 5] = [
    [true, false, true, false, false],
    [false, true, true, false, false],
    [false, false, true, false, false],
    [false, false, true, true, false],
    [false, false, false, false, true],
];

const PAUSED: [Cap; 5] = [Paused, Paused, Paused, Imm, Iso];

/// Whether a cell of the first two tables is as written.
fn is_as_written(low: usize, high: usize) -> bool
    requires low { low < 5 }
    requires high { high < 5 }
{
    let lower = Ty::Ref {
        cap: CAPS[low],
        class: 3,
    };
    let upper = Ty::Ref {
        cap: CAPS[high],
        class: 3,
    };
    let other = Ty::Ref {
        cap: CAPS[high],
        class: 4,
    };
    adapt(CAPS[low], CAPS[high]) == ADAPTED[low][high]
        && below(lower, upper) == BELOW[low][high]
        && !below(lower, other)
}

/// Whether a capability is paused as written, and apart from a type without capabilities.
fn is_apart(low: usize, plain: Ty) -> bool
    requires { low < 5 }
{
    let lower = Ty::Ref {
        cap: CAPS[low],
        class: 3,
    };
    let paused = Ty::Ref {
        cap: PAUSED[low],
        class: 3,
    };
    pause(lower) == paused && !below(lower, plain) && !below(plain, lower)
}

/// Whether a type without capabilities stays when it is paused, and is below itself alone.
fn stays(plain: Ty) -> bool {
    pause(plain) == plain
        && below(plain, Ty::Int) == (plain == Ty::Int)
        && below(plain, Ty::Bool) == (plain == Ty::Bool)
}

#[test]
fn each_cell_is_that_of_the_tables(rt: HostRuntime) {
    for low in 0..5 {
        for high in 0..5 {
            assert!(rt; is_as_written(low, high), "{low} {high}");
        }
        assert!(rt; is_apart(low, Ty::Int) && is_apart(low, Ty::Bool), "{low}");
    }
    assert!(rt; stays(Ty::Int) && stays(Ty::Bool));
}
