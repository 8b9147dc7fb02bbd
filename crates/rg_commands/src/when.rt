//! `when FILE PLAN --keep K`: runs the behaviours of a plan by the schedule on the input.

ghost use Rattle.std.specs.Prelude.{◌≡◌, ◌≤◌};
ghost use Rattle.rg_io.specs.Content.{Rose};
ghost use Rattle.rg_io.specs.Files.{BegunAre};
ghost use Rattle.rg_run.specs.Asked.{SameTuned, both};
ghost use Rattle.rg_words.specs.Commands.{when, with_plan};
ghost use Rattle.rg_sources.specs.Opens.{Opens};
ghost use Rattle.rg_commands.specs.Setting.{IsUnused, IsLent, DoesCommandIn, CausedIn};

use crate::setting::Setting;
use rg_io::{Files, Sink, Source};
use rg_pace::Pacer;
use rg_sources::{Planned, planned_in};
use rg_when::run_planned;
use rg_words::Status;

impl<O: Sink, R: Sink> Setting<'_, O, R> {
    /// Reads a program and a plan for it with its images, and runs its behaviours by the schedule on
    /// the input.
    pub(crate) fn answer_plan<F: Files, I: Source>(
        &mut self,
        file: &str,
        plan: &str,
        keep: Option<u32>,
        files: &mut F,
        input: &mut I,
        count: &mut dyn Pacer,
        trace: &mut dyn Pacer,
    ) -> Status
        requires { IsUnused self.old }
        ensures settles { DoesCommandIn O.taken (F.told files.old) (when file.now plan.now keep)
            (I.left input.old) result self.old self.new (input.new ≡ input.old)
            (tally count.old) (tally count.new) (tally trace.old) (tally trace.new) }
        ensures opened { BegunAre (Opens (F.told files.old) (with_plan file.now plan.now keep))
            (F.begun files.old) (F.begun files.new) }
        ensures notes { R.taken self.new.notes.now ≡ R.taken self.old.notes.now }
        ensures machine { self.new.machine.now ≡ self.old.machine.now }
        ensures tuned { SameTuned (both (tally count.old) (tally trace.old))
            (both (tally count.new) (tally trace.new)) }
        ensures source_fault { result ≡ Status.SourceFault →
            Rose (F.faults files.old) (F.faults files.new) }
        ensures files_never_fall { F.faults files.old ≤ F.faults files.new }
        ensures caused { CausedIn O.faults R.faults result (I.faults input.old) (I.faults input.new)
            self.old self.new }
        ensures lent { IsLent self.old self.new }
    {
        match planned_in(self.alloc, file, plan, keep, files) {
            Err(status) => status,
            Ok(planned) => {
                let Planned {
                    accepted,
                    plan,
                    images,
                } = planned;
                run_planned(
                    self.alloc, &accepted, &plan, images, keep, input, self.out, count, trace,
                )
            }
        }
    }
}
