//! How a run has ended, as a status (docs/language.md, "Statuses").

ghost use Rattle.std.specs.Prelude.{◌≡◌};
ghost use Rattle.rg_commands.specs.Settled.{status_of_ended};

use rg_base::Ended;
use rg_words::Status;

/// The status of a run.
pub(crate) fn status_of(ended: Ended) -> Status
    ensures is { result ≡ status_of_ended ended }
{
    match ended {
        Ended::Done => Status::Done,
        Ended::Spent => Status::Spent,
        Ended::Trap { kind, line } => Status::Trap { kind, line },
        Ended::InputFault => Status::InputFault,
        Ended::OutputFault => Status::OutputFault,
        Ended::Memory => Status::Memory,
    }
}
