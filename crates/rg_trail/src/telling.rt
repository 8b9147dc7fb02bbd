//! The loop of the steps (docs/embedding.md, "A trail").

ghost use Rattle.rg_tree.specs.Rows.RowTrees.{program_of};
ghost use Rattle.rg_code.specs.Lowering.{Lowers};
ghost use Rattle.rg_input.specs.Numbers.{Follows};
ghost use Rattle.rg_step.specs.Stepping.{IsFresh};

use crate::json::manager;
use crate::outcome::goes_on;
use crate::trail::{Trail, Wanted, in_front};
use rg_base::{ByteList, Memory};
use rg_check::Accepted;
use rg_code::{CodeList, listing};
use rg_input::Numbers;
use rg_io::Source;
use rg_pace::{EveryN, Pacer};
use rg_step::Stepper;
use std::alloc::Global;
use std::io;

/// How many steps are made at most.
const MOST: u64 = 10_000_000;

/// The line of the manager of main's region and of the listing, each of its lines a text.
fn head(alloc: Global, accepted: &Accepted, code: &CodeList) -> Result<ByteList, Memory> {
    let listed = listing(alloc, accepted.program(), code)?;
    let mut out = ByteList::new(alloc);
    out.extend(b"{\"main\":")?;
    manager(&mut out, accepted.program().main_manager())?;
    out.extend(b",\"code\":[\"")?;
    let bytes = listed.bytes();
    for k in 0..bytes.len() {
        match bytes.get(k).copied() {
            Some(b'\n') => {
                if k.saturating_add(1) < bytes.len() {
                    out.extend(b"\",\"")?;
                }
            }
            Some(byte) => out.push(byte)?,
            None => {}
        }
    }
    out.extend(b"\"]}\n")?;
    Ok(out)
}

/// Prints text.
fn print(rt: &impl Print, text: &ByteList) -> io::Result<()> {
    let Ok(text) = str::from_utf8(text.bytes()) else {
        return Ok(());
    };
    print!(rt; "{text}")
}

/// A stepper on which no program has begun.
fn stepper_for(alloc: Global, wanted: Wanted) -> Stepper
    ensures { IsFresh result }
{
    let mut stepper = Stepper::new(alloc);
    if wanted.slides {
        stepper.slide();
    }
    stepper
}

/// A pacer as `reggio` has two.
fn tuned(wanted: Wanted) -> EveryN {
    let mut pacer = EveryN::new();
    pacer.tune(wanted.tune);
    pacer
}

/// Makes the steps of an accepted program, and tells them.
pub fn tell_run<S: Source>(
    rt: &(impl Print + AllocGlobal),
    accepted: &Accepted,
    code: &CodeList,
    wanted: Wanted,
    input: &mut Numbers,
    source: &mut S,
) -> io::Result<()>
    requires lowers { Lowers (program_of accepted.now.program) code.now }
    requires follows { Follows input.old (S.left source.old) }
{
    let (alloc, manager) = (rt.alloc(), accepted.program().main_manager());
    let (mut count, mut trace) = (tuned(wanted), tuned(wanted));
    let mut trail = Trail::new(alloc, wanted);
    let Ok(text) = head(alloc, accepted, code) else {
        return println!(rt; "out of memory");
    };
    print(rt, &text)?;
    let mut stepper = stepper_for(alloc, wanted);
    let Ok(()) = stepper.begin(alloc, code, manager) else {
        return println!(rt; "out of memory");
    };
    let Ok(()) = trail.begin(alloc, &stepper, code) else {
        return println!(rt; "out of memory");
    };
    'steps: for _ in 0..MOST {
        let Ok(text) = trail.start(alloc, &stepper, code) else {
            return println!(rt; "out of memory");
        };
        print(rt, &text)?;
        let front = in_front(&stepper, code);
        let outcome = stepper.step(code, input, source, &mut count, &mut trace);
        let Ok(text) = trail.step(alloc, &stepper, code, front, outcome) else {
            return println!(rt; "out of memory");
        };
        print(rt, &text)?;
        let on = goes_on(outcome);
        if !on {
            break 'steps;
        }
    }
    let Ok(text) = trail.finish(alloc, &stepper, code) else {
        return println!(rt; "out of memory");
    };
    print(rt, &text)
}
