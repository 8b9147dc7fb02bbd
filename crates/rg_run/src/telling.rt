//! The line of a collection, given in its own step (docs/language.md, "Report").

ghost use Rattle.std.specs.Prelude.{◌≡◌, ◌≤◌, ◌+◌, ℕ, List, Option, Err, OnOk, IfErr, length, take};
ghost use Rattle.rg_base.specs.Report.{event_line};
ghost use Rattle.rg_io.specs.Content.{Appends, Rose};
ghost use Rattle.rg_run.specs.Inner.{CutsLine, IsUntold, ended_by};
ghost use Rattle.rg_run.specs.Reports.{Reports};

use crate::task::Task;
use rg_base::{Ended, Event};
use rg_io::{Failed, Sink, put_all};
use rg_report::line;
use std::alloc::Global;

/// Gives the line of a collection.
fn tell_one<R: Sink>(alloc: Global, event: &Event, notes: &mut R) -> Result<(), Ended>
    ensures told { OnOk result
        (Appends (R.taken notes.old) (R.taken notes.new) (event_line event.now)) }
    ensures cut { IfErr result (λ ended.
        CutsLine ended (R.taken notes.old) (R.taken notes.new) (event_line event.now)) }
    ensures failed { result ≡ Err Ended.OutputFault →
        Rose (R.faults notes.old) (R.faults notes.new) }
    ensures never_falls { R.faults notes.old ≤ R.faults notes.new }
{
    let Ok(text) = line(alloc, event) else {
        return Err(Ended::Memory);
    };
    match put_all(notes, text.bytes()) {
        Ok(()) => Ok(()),
        Err(Failed) => Err(Ended::OutputFault),
    }
}

/// Gives the line of the collection behind the first ones, so many, if there is one and a report is
/// asked for. An `Err` is the end of the run.
pub(crate) fn tell<R: Sink>(
    task: &Task<'_>,
    events: &[Event],
    told: usize,
    notes: &mut R,
) -> Result<(), Ended>
    requires few { length events.now ≤ told + 1 }
    ensures reports { (first : Option (List ℕ)) →
        Reports task.now.report Ended.Spent (take told events.now) first (R.taken notes.old) →
        Reports task.now.report (ended_by result) events.now first (R.taken notes.new) }
    ensures untold { IfErr result IsUntold }
    ensures failed { result ≡ Err Ended.OutputFault →
        Rose (R.faults notes.old) (R.faults notes.new) }
    ensures never_falls { R.faults notes.old ≤ R.faults notes.new }
{
    if !task.report {
        return Ok(());
    }
    let Some(event) = events.get(told) else {
        return Ok(());
    };
    match tell_one(task.alloc, event, notes) {
        Ok(()) => Ok(()),
        Err(ended) => Err(ended),
    }
}
