//! What holds of contents behind every schedule, as contracts of functions that do nothing
//! (docs/architecture.md, "Schedules").

ghost use Rattle.rg_contents.specs.Laws.{ContentsMayBeOwned, BeginningIsAllowed};
ghost use Rattle.rg_contents.specs.Laws.{RunsAreOfBehaviours};

use rg_opening::{behaviour_opening_fits, content_goes_back};
use rg_plan::plans_are_good;

/// Behind every schedule, what a cown has at rest is a content that a field of its class may own.
pub fn contents_may_be_owned()
    ensures { ContentsMayBeOwned }
{
    plans_are_good();
    behaviour_opening_fits();
    content_goes_back();
}

/// So each behaviour may begin on what its cowns have then, with the method of its number.
pub fn beginning_is_allowed()
    ensures { BeginningIsAllowed }
{
    plans_are_good();
    behaviour_opening_fits();
    content_goes_back();
}

/// Behind every schedule the state of each run fits the program, and has the behaviour's object as
/// its first one.
pub fn runs_are_of_behaviours()
    ensures { RunsAreOfBehaviours }
{
    plans_are_good();
    behaviour_opening_fits();
    content_goes_back();
}
