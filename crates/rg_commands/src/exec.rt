//! `exec FILE [--steps N] [--every N] [--report]`: runs a module that programs raise.

ghost use Rattle.std.specs.Prelude.{◌≡◌, ◌≤◌, ◌++◌, ◌∷◌, [], false};
ghost use Rattle.rg_io.specs.Content.{Rose};
ghost use Rattle.rg_run.specs.Machine.{IsFresh};
ghost use Rattle.rg_words.specs.Commands.{exec};
ghost use Rattle.rg_commands.specs.Setting.{IsUnused, IsLent, SlidesTo, DoesCommandIn};
ghost use Rattle.rg_commands.specs.Setting.{ReportedIn, CausedIn};
ghost use Rattle.rg_commands.specs.Tallies.{TunedTo, SayYesOf};

use crate::setting::Setting;
use rg_io::{Files, Sink, Source};
use rg_pace::Pacer;
use rg_sources::module_in;
use rg_words::{RunOptions, Status};

impl<O: Sink, R: Sink> Setting<'_, O, R> {
    /// Reads a module, and runs it where a program raises it.
    pub(crate) fn answer_module<F: Files, I: Source>(
        &mut self,
        file: &str,
        options: RunOptions,
        files: &mut F,
        input: &mut I,
        count: &mut dyn Pacer,
        trace: &mut dyn Pacer,
    ) -> Status
        requires { IsUnused self.old }
        ensures settles { DoesCommandIn O.taken (F.told files.old)
            (exec file.now options.steps options.every options.report)
            (I.left input.old) result self.old self.new (input.new ≡ input.old)
            (tally count.old) (tally count.new) (tally trace.old) (tally trace.new) }
        ensures begun { F.begun files.new ≡ F.begun files.old ++ file.now ∷ [] }
        ensures notes { ReportedIn R.taken options.report result self.old self.new }
        ensures tuned { ¬ IsFresh self.new.machine.now →
            TunedTo options.every (tally count.new) (tally trace.new) }
        ensures yeses { SayYesOf self.new.machine.now
            (tally count.old) (tally count.new) (tally trace.old) (tally trace.new) }
        ensures source_fault { result ≡ Status.SourceFault →
            Rose (F.faults files.old) (F.faults files.new) }
        ensures files_never_fall { F.faults files.old ≤ F.faults files.new }
        ensures caused { CausedIn O.faults R.faults result (I.faults input.old) (I.faults input.new)
            self.old self.new }
        ensures kept { IsLent self.old self.new × SlidesTo false self.new }
    {
        match module_in(self.alloc, file, files) {
            Err(status) => status,
            Ok(accepted) => self.run_accepted(&accepted, options, input, count, trace),
        }
    }
}
