//! Which command is asked for, and its answer (docs/promises.md, "The headline").

ghost use Rattle.std.specs.Prelude.{◌≡◌, ◌≤◌, ℕ, List, false};
ghost use Rattle.rg_tree.specs.Rows.RowTrees.{program_of};
ghost use Rattle.rg_io.specs.Content.{Rose};
ghost use Rattle.rg_io.specs.Files.{BegunAre};
ghost use Rattle.rg_run.specs.Asked.{SameTuned, both};
ghost use Rattle.rg_words.specs.Commands.{origin_of, opens_file, reads_input, is_slide};
ghost use Rattle.rg_words.specs.Commands.{runs_on, is_scheduled};
ghost use Rattle.rg_words.specs.Requests.{command_of, command_for, AsksWithin, TaskWithin};
ghost use Rattle.rg_words.specs.Answers.{ForInput};
ghost use Rattle.rg_sources.specs.Sources.{Sources, spelt, MeansFrom};
ghost use Rattle.rg_sources.specs.Brings.{Serves};
ghost use Rattle.rg_sources.specs.Opens.{Opens};
ghost use Rattle.rg_commands.specs.Settled.{Tunes, Chooses};
ghost use Rattle.rg_commands.specs.Setting.{IsUnused, IsLent, SlidesTo, DoesIn};
ghost use Rattle.rg_commands.specs.Setting.{DoesCommandIn, CausedIn, ReportedOf};
ghost use Rattle.rg_commands.specs.Tallies.{SayYesOf};

use crate::check::check_program;
use crate::code::list_program;
use crate::format::format_program;
use crate::pack::pack_program;
use crate::plain::plain_program;
use crate::setting::Setting;
use rg_io::{Files, Sink, Source};
use rg_pace::Pacer;
use rg_sources::program_from;
use rg_tree::Program;
use rg_words::{Request, Status, Task};

impl<O: Sink, R: Sink> Setting<'_, O, R> {
    /// Does what is asked for with its program.
    fn answer_program<I: Source>(
        &mut self,
        request: Request<'_>,
        program: Program,
        input: &mut I,
        count: &mut dyn Pacer,
        trace: &mut dyn Pacer,
    ) -> Status
        requires unused { IsUnused self.old }
        requires program { Serves (command_of request) (program_of program) }
        ensures settles { (source : Sources) →
            MeansFrom (origin_of (command_of request.entry)) source (spelt (program_of program)) →
            ForInput (I.left input.old) (λ bytes.
            DoesIn O.taken (command_of request.entry) source bytes result
            self.old self.new (input.new ≡ input.old)
            (tally count.old) (tally count.new) (tally trace.old) (tally trace.new)) }
        ensures reads_nothing { reads_input (command_of request.entry) ≡ false →
            input.new ≡ input.old }
        ensures notes { ReportedOf R.taken (command_of request.entry) result self.old self.new }
        ensures tuned { Tunes (command_of request.entry) self.new.machine.now
            (tally count.new).tuned (tally trace.new).tuned }
        ensures untuned { runs_on (command_of request.entry) ≡ false →
            SameTuned (both (tally count.old) (tally trace.old))
            (both (tally count.new) (tally trace.new)) }
        ensures yeses { SayYesOf self.new.machine.now
            (tally count.old) (tally count.new) (tally trace.old) (tally trace.new) }
        ensures caused { CausedIn O.faults R.faults result (I.faults input.old) (I.faults input.new)
            self.old self.new }
        ensures kept { IsLent self.old self.new
            × SlidesTo (is_slide (command_of request.entry)) self.new }
    {
        let alloc = self.alloc;
        match request {
            Request::Run { options, .. } => self.run_program(program, options, input, count, trace),
            Request::Plain { steps, .. } => plain_program(alloc, program, steps, input, self.out),
            Request::Format { .. } => format_program(alloc, &program, self.out),
            Request::Check { .. } => check_program(alloc, program, self.out),
            Request::Code { .. } => list_program(alloc, program, self.out),
            Request::Pack { .. } => pack_program(alloc, program, self.out),
            Request::Bulk { size } => self.bulk_program(program, size, count, trace),
        }
    }

    /// Reads a program or generates it, and does what is asked for with it.
    fn answer_request<F: Files, I: Source>(
        &mut self,
        request: Request<'_>,
        files: &mut F,
        input: &mut I,
        count: &mut dyn Pacer,
        trace: &mut dyn Pacer,
    ) -> Status
        requires unused { IsUnused self.old }
        requires within { AsksWithin request }
        ensures settles { DoesCommandIn O.taken (F.told files.old) (command_of request.entry)
            (I.left input.old) result self.old self.new (input.new ≡ input.old)
            (tally count.old) (tally count.new) (tally trace.old) (tally trace.new) }
        ensures opened { BegunAre (Opens (F.told files.old)
            (origin_of (command_of request.entry))) (F.begun files.old) (F.begun files.new) }
        ensures files_unread { opens_file (command_of request.entry) ≡ false →
            files.new ≡ files.old }
        ensures reads_nothing { reads_input (command_of request.entry) ≡ false →
            input.new ≡ input.old }
        ensures notes { ReportedOf R.taken (command_of request.entry) result self.old self.new }
        ensures tuned { Tunes (command_of request.entry) self.new.machine.now
            (tally count.new).tuned (tally trace.new).tuned }
        ensures untuned { runs_on (command_of request.entry) ≡ false →
            SameTuned (both (tally count.old) (tally trace.old))
            (both (tally count.new) (tally trace.new)) }
        ensures slides { Chooses (command_of request.entry) self.new.machine.now }
        ensures yeses { SayYesOf self.new.machine.now
            (tally count.old) (tally count.new) (tally trace.old) (tally trace.new) }
        ensures source_fault { result ≡ Status.SourceFault →
            Rose (F.faults files.old) (F.faults files.new) }
        ensures files_never_fall { F.faults files.old ≤ F.faults files.new }
        ensures caused { CausedIn O.faults R.faults result (I.faults input.old) (I.faults input.new)
            self.old self.new }
        ensures lent { IsLent self.old self.new }
    {
        match program_from(self.alloc, request, files) {
            Err(status) => status,
            Ok(program) => self.answer_program(request, program, input, count, trace),
        }
    }

    /// Does what the words ask for.
    pub fn answer<F: Files, I: Source>(
        &mut self,
        task: Task<'_>,
        files: &mut F,
        input: &mut I,
        count: &mut dyn Pacer,
        trace: &mut dyn Pacer,
    ) -> Status
        requires unused { IsUnused self.old }
        requires within { TaskWithin task }
        ensures settles { DoesCommandIn O.taken (F.told files.old) (command_for task.entry)
            (I.left input.old) result self.old self.new (input.new ≡ input.old)
            (tally count.old) (tally count.new) (tally trace.old) (tally trace.new) }
        ensures opened { BegunAre (Opens (F.told files.old) (origin_of (command_for task.entry)))
            (F.begun files.old) (F.begun files.new) }
        ensures files_unread { opens_file (command_for task.entry) ≡ false →
            files.new ≡ files.old }
        ensures reads_nothing { reads_input (command_for task.entry) ≡ false →
            input.new ≡ input.old }
        ensures notes { ReportedOf R.taken (command_for task.entry) result self.old self.new }
        ensures tuned { Tunes (command_for task.entry) self.new.machine.now
            (tally count.new).tuned (tally trace.new).tuned }
        ensures untuned { runs_on (command_for task.entry) ≡ false →
            SameTuned (both (tally count.old) (tally trace.old))
            (both (tally count.new) (tally trace.new)) }
        ensures slides { Chooses (command_for task.entry) self.new.machine.now }
        ensures yeses { is_scheduled (command_for task.entry) ≡ false →
            SayYesOf self.new.machine.now
            (tally count.old) (tally count.new) (tally trace.old) (tally trace.new) }
        ensures source_fault { result ≡ Status.SourceFault →
            Rose (F.faults files.old) (F.faults files.new) }
        ensures files_never_fall { F.faults files.old ≤ F.faults files.new }
        ensures caused { CausedIn O.faults R.faults result (I.faults input.old) (I.faults input.new)
            self.old self.new }
        ensures lent { IsLent self.old self.new }
    {
        match task {
            Task::OfProgram(request) => self.answer_request(request, files, input, count, trace),
            Task::OfModule { file, options } => {
                self.answer_module(file, options, files, input, count, trace)
            }
            Task::OfPlan { file, plan, keep } => {
                self.answer_plan(file, plan, keep, files, input, count, trace)
            }
        }
    }
}
