//! The laws of the object of a behaviour, as contracts of functions that do nothing
//! (docs/architecture.md, "How a behaviour begins").

ghost use Rattle.rg_first.specs.Laws.{FirstStays, RunsGoOn, FirstOfRuns};

use rg_opening::behaviour_opening_fits;

/// A step of an accepted program leaves an object of region 0 that is the first one there, with its
/// class and as many values.
pub fn first_stays()
    ensures { FirstStays }
{}

/// A state that fits and has such an object leads to such states alone.
pub fn runs_go_on()
    ensures { RunsGoOn }
{}

/// Each state of each run of a behaviour fits, and has the behaviour's object there.
pub fn first_of_runs()
    ensures { FirstOfRuns }
{
    behaviour_opening_fits();
}
