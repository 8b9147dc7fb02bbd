//! How a call ends whose schedule wasn't run to its end (docs/promises.md, "The headline").

ghost use Rattle.std.specs.Prelude.{◌≡◌};
ghost use Rattle.rg_when.specs.Inner.Stops.{status_of};

use rg_base::{Code, Fault};
use rg_sched::SchedStop;
use rg_words::Status;

/// The status of a call whose schedule wasn't run to its end.
pub(crate) fn status_of(stop: SchedStop) -> Status
    ensures { result ≡ status_of stop }
{
    match stop {
        SchedStop::Bad { item } => Status::Refused(Fault {
            code: Code::Schedule,
            line: item,
        }),
        SchedStop::Spent => Status::Spent,
        SchedStop::InputFault => Status::InputFault,
        SchedStop::Memory => Status::Memory,
    }
}
