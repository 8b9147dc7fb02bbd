//! What holds behind every schedule, as contracts of functions that do nothing
//! (docs/architecture.md, "Schedules").

ghost use Rattle.rg_sched_atomic.specs.Laws.{PlansAreSettings, OneByOne, InPlanOrder, AllAlike};
ghost use Rattle.rg_sched_atomic.specs.Laws.{AllSeparate, FrontsAreEnough, OneGoesOn};

use rg_plan::plans_are_good;

/// The other laws hold of each plan that is read.
pub fn plans_are_settings()
    ensures { PlansAreSettings }
{
    plans_are_good();
}

/// Behind every schedule, what each behaviour printed, how it stands, and what each cown has, is
/// what it would be had the behaviours been done one after the other.
pub fn every_schedule_is_one_by_one()
    ensures { OneByOne }
{}

/// Once each behaviour has ended, that is what it would be had they been done in the order of the
/// plan.
pub fn ended_as_in_plan_order()
    ensures { InPlanOrder }
{}

/// So all schedules behind which each behaviour has ended give the same.
pub fn ended_alike()
    ensures { AllAlike }
{}

/// Behind every schedule a behaviour may begin exactly where those have ended that stand right in
/// front of it in the queues of its cowns.
pub fn fronts_are_enough()
    ensures { FrontsAreEnough }
{}

/// At each moment the content of each cown is at rest or in one running behaviour.
pub fn contents_are_separate()
    ensures { AllSeparate }
{}

/// While a behaviour hasn't ended, the one of them with the least number can begin or make a step.
pub fn one_goes_on()
    ensures { OneGoesOn }
{}
