//! A program with a plan (docs/promises.md, "The headline").

ghost use Rattle.std.specs.Prelude.{◌≡◌, ◌≤◌, ◌++◌, ◌∷◌, [], Err, IfOk};
ghost use Rattle.rg_tree.specs.Rows.RowTrees.{program_of};
ghost use Rattle.rg_io.specs.Content.{Rose};
ghost use Rattle.rg_io.specs.Files.{SameFiles, BegunAre};
ghost use Rattle.rg_contents.specs.Read.{IsReadFor};
ghost use Rattle.rg_words.specs.Commands.{with_plan};
ghost use Rattle.rg_sources.specs.Sources.{has_kept};
ghost use Rattle.rg_sources.specs.Brings.{BringsPlan, BringsKeeping, BringsPlanned};
ghost use Rattle.rg_sources.specs.Opens.{Opens};

use crate::source::accepted_in;
use rg_base::{Code, Fault, SOURCE_BYTES, Stop};
use rg_check::Accepted;
use rg_cown::Cargo;
use rg_io::{Files, Taken, take_all};
use rg_loading::images_in;
use rg_plan::{Plan, plan};
use rg_words::Status;
use std::alloc::Global;

/// The plan of a file for a program, or the status of the call without one.
fn plan_in<F: Files>(
    alloc: Global,
    name: &str,
    files: &mut F,
    accepted: &Accepted,
) -> Result<Plan, Status>
    ensures brings { BringsPlan (F.told files.old) name.now
        (program_of accepted.now.program) result }
    ensures source_fault { result ≡ Err Status.SourceFault →
        Rose (F.faults files.old) (F.faults files.new) }
    ensures same_files { SameFiles (F.told files.old) (F.told files.new) }
    ensures begun { F.begun files.new ≡ F.begun files.old ++ name.now ∷ [] }
    ensures never_fall { F.faults files.old ≤ F.faults files.new }
{
    let bytes = match take_all(alloc, files, name, SOURCE_BYTES) {
        Err(Taken::SourceFault) => return Err(Status::SourceFault),
        Err(Taken::Long) => return Err(Status::Long),
        Err(Taken::Memory) => return Err(Status::Memory),
        Ok(bytes) => bytes,
    };
    match plan(alloc, bytes.bytes(), accepted) {
        Err(Stop::Fault(fault)) => Err(Status::Refused(fault)),
        Err(Stop::Memory) => Err(Status::Memory),
        Ok(plan) => Ok(plan),
    }
}

/// An accepted program with a plan, and a content for each of its cowns, of which those count whose
/// line names an image.
#[derive(Drop)]
pub struct Planned {
    pub accepted: Accepted,
    pub plan: Plan,
    pub images: Vec<Cargo>,
}

/// Whether a plan has the cown that is to be kept, if there is one.
fn has_kept(keep: Option<u32>, plan: &Plan) -> bool
    ensures { result ≡ has_kept keep plan.now }
{
    match keep {
        None => true,
        Some(cown) => cown < plan.cowns(),
    }
}

/// The plan of a file for a program, which has the cown that is to be kept, or the status of the
/// call without one.
fn keeping_plan_in<F: Files>(
    alloc: Global,
    name: &str,
    keep: Option<u32>,
    files: &mut F,
    accepted: &Accepted,
) -> Result<Plan, Status>
    ensures brings { BringsKeeping (F.told files.old) name.now keep
        (program_of accepted.now.program) result }
    ensures source_fault { result ≡ Err Status.SourceFault →
        Rose (F.faults files.old) (F.faults files.new) }
    ensures same_files { SameFiles (F.told files.old) (F.told files.new) }
    ensures begun { F.begun files.new ≡ F.begun files.old ++ name.now ∷ [] }
    ensures never_fall { F.faults files.old ≤ F.faults files.new }
{
    let plan = match plan_in(alloc, name, files, accepted) {
        Err(status) => return Err(status),
        Ok(plan) => plan,
    };
    if has_kept(keep, &plan) {
        Ok(plan)
    } else {
        Err(Status::Refused(Fault {
            code: Code::Plan,
            line: 0,
        }))
    }
}

/// The program of a file with the plan of another one and the contents of its images, or the
/// status of the call without them. The plan's file is opened where the program is accepted, and
/// those of images, in the order of their lines, where the plan has no fault and has the cown
/// `keep`, if that names one.
pub fn planned_in<F: Files>(
    alloc: Global,
    file: &str,
    plan: &str,
    keep: Option<u32>,
    files: &mut F,
) -> Result<Planned, Status>
    ensures brings { BringsPlanned (F.told files.old) file.now plan.now keep result }
    ensures ready { IfOk result (λ w.
        IsReadFor (program_of w.accepted.program) w.plan w.images.items) }
    ensures source_fault { result ≡ Err Status.SourceFault →
        Rose (F.faults files.old) (F.faults files.new) }
    ensures same_files { SameFiles (F.told files.old) (F.told files.new) }
    ensures opened { BegunAre (Opens (F.told files.old) (with_plan file.now plan.now keep))
        (F.begun files.old) (F.begun files.new) }
    ensures never_fall { F.faults files.old ≤ F.faults files.new }
{
    let accepted = match accepted_in(alloc, file, files) {
        Err(status) => return Err(status),
        Ok(accepted) => accepted,
    };
    let plan = match keeping_plan_in(alloc, plan, keep, files, &accepted) {
        Err(status) => return Err(status),
        Ok(plan) => plan,
    };
    match images_in(alloc, files, &plan, &accepted) {
        Err(status) => Err(status),
        Ok(images) => Ok(Planned {
            accepted,
            plan,
            images,
        }),
    }
}
