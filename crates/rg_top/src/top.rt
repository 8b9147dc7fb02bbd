//! The top call: from words, files and input to the output, the notes and the status
//! (docs/promises.md).

ghost use Rattle.std.specs.Prelude.{◌≡◌, ◌≢◌, ◌⊎◌, ℕ, List, true, false, Some, None};
ghost use Rattle.std.specs.Bool.{OnTrue, OnFalse};
ghost use Rattle.rg_tree.specs.Rows.Tables.{Tables};
ghost use Rattle.rg_io.specs.Content.{Rose};
ghost use Rattle.rg_io.specs.Files.{BegunAre};
ghost use Rattle.rg_machine.specs.Owned.{IsOwned};
ghost use Rattle.rg_run.specs.Asked.{both};
ghost use Rattle.rg_run.specs.Sound.{Stands};
ghost use Rattle.rg_run.specs.Machine.{IsFresh};
ghost use Rattle.rg_words.specs.Commands.{command, texts, steps_of, may_open};
ghost use Rattle.rg_words.specs.Commands.{may_read, reports, may_report, may_schedule};
ghost use Rattle.rg_words.specs.Requests.{command_for};
ghost use Rattle.rg_words.specs.Statuses.{is_answer, is_refusal, is_cut_off};
ghost use Rattle.rg_commands.specs.Expected.{ExpectsStatus};
ghost use Rattle.rg_commands.specs.CutOff.{Untouched, CutOffAt, CutAtInput};
ghost use Rattle.rg_top.specs.Headline.{ForSource, Exactly, ExactlyWhere, Answers, TookNotes};
ghost use Rattle.rg_top.specs.Headline.{ToldFault, MayTell, steps_asked, UnlessSchedule, OpensBy};
ghost use Rattle.rg_top.specs.Headline.{IsEarly, Chosen, FaultsRose};
ghost use Rattle.rg_top.specs.Each.{Beside};
ghost use Rattle.rg_commands.specs.Asked.{Unasked, SayYes};

use crate::laws::{each_runs, packed_runs_as};
use crate::notes::{tell, tell_behind};
use rg_base::MOST_STEPS;
use rg_commands::{Setting, answers_are_one};
use rg_io::{Files, Sink, Source};
use rg_pace::Pacer;
use rg_run::Machine;
use rg_words::{MOST_NUMBERS, Request, Status, Task, command};
use std::alloc::Global;

/// The number of steps that are asked for.
fn steps_of(task: Task<'_>) -> u64
    ensures { result ≡ steps_of (command_for task.entry) }
{
    match task {
        Task::OfModule { options, .. } => options.steps,
        Task::OfPlan { .. } => MOST_NUMBERS,
        Task::OfProgram(Request::Run { options, .. }) => options.steps,
        Task::OfProgram(Request::Plain { steps, .. }) => steps,
        Task::OfProgram(Request::Format { .. } | Request::Check { .. }) => 0,
        Task::OfProgram(Request::Code { .. } | Request::Pack { .. }) => 0,
        Task::OfProgram(Request::Bulk { .. }) => MOST_STEPS,
    }
}

/// Whether a report is asked for.
fn reports(task: Task<'_>) -> bool
    ensures { result ≡ reports (command_for task.entry) }
{
    match task {
        Task::OfModule { options, .. } => options.report,
        Task::OfPlan { .. } => false,
        Task::OfProgram(Request::Run { options, .. }) => options.report,
        Task::OfProgram(Request::Plain { .. } | Request::Format { .. }) => false,
        Task::OfProgram(Request::Check { .. } | Request::Code { .. }) => false,
        Task::OfProgram(Request::Pack { .. } | Request::Bulk { .. }) => false,
    }
}

/// Does what the words say: reads the file that they name, a source or a module, or generates the
/// program of the size that they say, runs it for as many steps as they say, a file's on the
/// input, gives the output to `out` and the text of the status to `notes`, with a report where the
/// words ask for it, and answers the status. With `when` it reads a plan for the source and the
/// files of the plan's images too, runs the plan's behaviours by the schedule on the input, each on
/// a machine of its own, and gives the text of the world behind it to `out`, or, with `--keep`, the
/// image of what that cown has there. The pacers say when an active region is collected, and decide
/// nothing else; with `slide`, what a collection of a traced region keeps moves, which decides
/// nothing else.
pub fn reggio<F: Files, I: Source, O: Sink, R: Sink>(
    alloc: Global,
    words: &[&str],
    files: &mut F,
    input: &mut I,
    out: &mut O,
    notes: &mut R,
    count: &mut dyn Pacer,
    trace: &mut dyn Pacer,
    machine: &mut Machine,
) -> Status
    requires fresh { IsFresh machine.old }
    requires stays { machine.old.stepper.slides ≡ false }

    // What the call writes and leaves.
    ensures answered { OnTrue (is_answer result)
        (ForSource (F.told files.old) (I.left input.old) (texts words.now)
        (λ c source bytes.
        Answers c source bytes result (O.taken out.old) (O.taken out.new) machine.new
        (input.new ≡ input.old) × Beside c source bytes (steps_of c) machine.new result
        (both (tally count.old) (tally trace.old)) (both (tally count.new) (tally trace.new)))) }
    ensures untouched { OnTrue (is_refusal result)
        (Untouched machine.new (O.taken out.old) (O.taken out.new)
        (UnlessSchedule (command (texts words.now)) result (input.new ≡ input.old))) }
    ensures cut_off { OnTrue (is_cut_off result)
        (Untouched machine.new (O.taken out.old) (O.taken out.new) (input.new ≡ input.old)
        ⊎ ForSource (F.told files.old) (I.left input.old) (texts words.now)
        (λ c source bytes.
        CutOffAt c source bytes machine.new (O.taken out.old) (O.taken out.new)
        (input.new ≡ input.old) × Beside c source bytes machine.new.steps machine.new result
        (both (tally count.old) (tally trace.old)) (both (tally count.new) (tally trace.new)))) }
    ensures cut_at_input { result ≡ Status.InputFault →
        ForSource (F.told files.old) (I.left input.old) (texts words.now) (λ c source bytes.
        CutAtInput c source bytes machine.new (O.taken out.old) (O.taken out.new)
        × Beside c source bytes machine.new.steps machine.new result
        (both (tally count.old) (tally trace.old)) (both (tally count.new) (tally trace.new))) }
    ensures notes { TookNotes (MayTell (F.told files.old) (I.left input.old) (texts words.now)
        (Rose (F.faults files.old) (F.faults files.new))
        (Rose (I.faults input.old) (I.faults input.new)))
        (may_report (command (texts words.now))) (steps_asked (command (texts words.now)))
        machine.new result (R.taken notes.old) (R.taken notes.new) }
    ensures output_fault_told { result ≡ Status.OutputFault →
        ¬ Rose (R.faults notes.old) (R.faults notes.new) →
        ToldFault (may_report (command (texts words.now))) machine.new.stepper.events
        (R.taken notes.old) (R.taken notes.new) }

    // What it does with the machine and the pacers.
    ensures chosen { Chosen (command (texts words.now)) machine.new
        (both (tally count.old) (tally trace.old)) (both (tally count.new) (tally trace.new)) }
    ensures unasked { may_schedule (command (texts words.now)) ≡ false → IsFresh machine.new →
        Unasked machine.new
        (both (tally count.old) (tally trace.old)) (both (tally count.new) (tally trace.new)) }
    ensures yeses { may_schedule (command (texts words.now)) ≡ false → SayYes machine.new
        (tally count.old).yeses (tally count.new).yeses
        (tally trace.old).yeses (tally trace.new).yeses }
    ensures owned { (t : Tables) (bytes : List ℕ) (n : ℕ) → Stands t bytes n machine.new →
        IsOwned machine.new.stepper.parts }

    // What it opens and reads.
    ensures opened { BegunAre (OpensBy (F.told files.old) (command (texts words.now)))
        (F.begun files.old) (F.begun files.new) }
    ensures unread { OnFalse (may_open (command (texts words.now))) (files.new ≡ files.old)
        × OnFalse (may_read (command (texts words.now))) (input.new ≡ input.old) }

    // From which cause each status comes.
    ensures expected { (s : Status) → is_answer s ≡ true →
        ExactlyWhere (F.told files.old) (I.left input.old) (texts words.now) result s }
    ensures whatever_input { (s : Status) (bytes : List ℕ) → IsEarly (command (texts words.now)) s →
        ExactlyWhere (F.told files.old) (Some bytes) (texts words.now) result s }
    ensures usage { Exactly result Status.Usage (command (texts words.now) ≡ None) }
    ensures faults { FaultsRose result (F.faults files.old) (F.faults files.new)
        (I.faults input.old) (I.faults input.new) (O.faults out.old) (O.faults out.new)
        (R.faults notes.old) (R.faults notes.new) }

    // A command is answered, unless a count of faults rose or no memory was found.
    ensures complete { command (texts words.now) ≢ None →
        ¬ Rose (F.faults files.old) (F.faults files.new) →
        ¬ Rose (I.faults input.old) (I.faults input.new) →
        ¬ Rose (O.faults out.old) (O.faults out.new) →
        ¬ Rose (R.faults notes.old) (R.faults notes.new) →
        ForSource (F.told files.old) (I.left input.old) (texts words.now)
        (λ c source bytes. ExpectsStatus c source bytes result) ⊎ (result ≡ Status.Memory) }
{
    answers_are_one();
    each_runs();
    packed_runs_as();
    match command(words) {
        None => {
            machine.is_owned();
            tell(notes, Status::Usage, 0)
        }
        Some(task) => {
            let mut setting = Setting {
                alloc,
                out: &mut *out,
                notes: &mut *notes,
                machine: &mut *machine,
            };
            let status = setting.answer(task, files, input, count, trace);
            let told = tell_behind(&mut setting, status, steps_of(task), reports(task));
            machine.is_owned();
            told
        }
    }
}
