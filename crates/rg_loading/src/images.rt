//! The contents with which a plan begins (docs/architecture.md, "Images").

ghost use Rattle.std.specs.Prelude.{◌≡◌, ◌≤◌, ℕ, List, Ok, Err, IfOk};
ghost use Rattle.rg_tree.specs.Rows.RowTrees.{program_of};
ghost use Rattle.rg_io.specs.Content.{Rose};
ghost use Rattle.rg_io.specs.Files.{SameFiles, BegunAre};
ghost use Rattle.rg_plan.specs.Rules.{plan_of};
ghost use Rattle.rg_contents.specs.Read.{IsReadFor};
ghost use Rattle.rg_loading.specs.Files.{CownsCome, OpensFor, Brings};

use crate::content::content_in;
use rg_check::Accepted;
use rg_cown::Cargo;
use rg_io::Files;
use rg_plan::Plan;
use rg_words::Status;
use std::alloc::Global;

/// For each cown a content, that of its image where its line names one. Else the status of the call
/// without them: `E95` at the first line whose file is no image of what its cown may have, or
/// `Long` where a file has more bytes than `IMAGE_BYTES`. Files are read in the order of their
/// lines; behind one that brings no content, none is begun.
pub fn images_in<F: Files>(
    alloc: Global,
    files: &mut F,
    plan: &Plan,
    accepted: &Accepted,
) -> Result<Vec<Cargo>, Status>
    ensures brings { Brings (λ images. images.items) (CownsCome (F.told files.old)
        (program_of accepted.now.program) plan.now.cowns) result }
    ensures read { (bytes : List ℕ) →
        plan_of (program_of accepted.now.program) bytes ≡ Ok plan.now →
        IfOk result (λ images.
        IsReadFor (program_of accepted.now.program) plan.now images.items) }
    ensures source_fault { result ≡ Err Status.SourceFault →
        Rose (F.faults files.old) (F.faults files.new) }
    ensures same_files { SameFiles (F.told files.old) (F.told files.new) }
    ensures begun { BegunAre (OpensFor (F.told files.old) (program_of accepted.now.program)
        plan.now.cowns) (F.begun files.old) (F.begun files.new) }
    ensures never_fall { F.faults files.old ≤ F.faults files.new }
{
    let mut images = Vec::new(alloc);
    for i in 0..plan.cowns() {
        let content = match content_in(alloc, files, plan.cown(i), accepted) {
            Err(status) => return Err(status),
            Ok(content) => content,
        };
        let Ok(()) = images.push(content) else {
            return Err(Status::Memory);
        };
    }
    Ok(images)
}
