//! The content with which a cown begins (docs/architecture.md, "Images").

ghost use Rattle.std.specs.Prelude.{◌≡◌, ◌≢◌, ◌≤◌, ◌++◌, ◌∷◌, [], length, Some, Err};
ghost use Rattle.std.specs.Bool.{OnTrue, OnFalse};
ghost use Rattle.rg_tree.specs.Rows.RowTrees.{program_of};
ghost use Rattle.rg_io.specs.Content.{Rose};
ghost use Rattle.rg_io.specs.Files.{SameFiles, HasFile};
ghost use Rattle.rg_opening.specs.Beginning.{bridge_class};
ghost use Rattle.rg_loading.specs.Loading.{FileComes, with_name};
ghost use Rattle.rg_loading.specs.Files.{StartComes, Brings};

use crate::limits::IMAGE_BYTES;
use rg_base::{Code, Fault, Stop};
use rg_check::Accepted;
use rg_cown::Cargo;
use rg_image::decode;
use rg_io::{Files, Taken, take_all};
use rg_plan::{Cown, Start};
use rg_words::Status;
use std::alloc::Global;

// Whether the bridge of a content, which is its first object, is of a class.
fn has_bridge(content: &Cargo, class: u32) -> bool
    ensures yes { OnTrue result (bridge_class content.now ≡ Some class) }
    ensures no { OnFalse result (bridge_class content.now ≢ Some class) }
{
    match content.cells().first() {
        Some(bridge) => bridge.class == class,
        None => false,
    }
}

// The refusal of a file that is no image of what its cown may have.
fn no_image(cown: &Cown) -> Status
    ensures { result ≡ Status.Refused (record { code = Code.Image; line = cown.now.line }) }
{
    Status::Refused(Fault {
        code: Code::Image,
        line: cown.line,
    })
}

// The content whose image the bytes are, if the cown of a `load` line may have it.
fn image_of(alloc: Global, bytes: &[u8], cown: &Cown, accepted: &Accepted) -> Result<Cargo, Status>
    requires { length bytes.now ≤ IMAGE_BYTES }
    ensures brings { Brings (λ x. x)
        (FileComes (program_of accepted.now.program) cown.now bytes.now) result }
    ensures read { result ≢ Err Status.SourceFault }
{
    match decode(alloc, bytes, accepted.program(), accepted.classes()) {
        Err(Stop::Memory) => Err(Status::Memory),
        Err(Stop::Fault(_)) => Err(no_image(cown)),
        Ok(None) => Err(no_image(cown)),
        Ok(Some(content)) => {
            if has_bridge(&content, cown.class) {
                Ok(content)
            } else {
                Err(no_image(cown))
            }
        }
    }
}

/// The content of the image in the file of that name, if the cown of a `load` line may have it, or
/// the status of the call without it.
fn image_in<F: Files>(
    alloc: Global,
    files: &mut F,
    name: &str,
    cown: &Cown,
    accepted: &Accepted,
) -> Result<Cargo, Status>
    ensures brings { Brings (λ x. x) (StartComes (F.told files.old)
        (program_of accepted.now.program) cown.now (Start.Image name.now)) result }
    ensures source_fault { result ≡ Err Status.SourceFault →
        Rose (F.faults files.old) (F.faults files.new) }
    ensures same_files { SameFiles (F.told files.old) (F.told files.new) }
    ensures begun { F.begun files.new ≡ F.begun files.old ++ name.now ∷ [] }
    ensures never_fall { F.faults files.old ≤ F.faults files.new }
{
    match take_all(alloc, files, name, IMAGE_BYTES) {
        Err(Taken::SourceFault) => Err(Status::SourceFault),
        Err(Taken::Long) => Err(Status::Long),
        Err(Taken::Memory) => Err(Status::Memory),
        Ok(bytes) => image_of(alloc, bytes.bytes(), cown, accepted),
    }
}

/// The content with which a cown begins, or the status of the call without it: that of the image
/// that its line names, or none, where it begins with a new object and no file is opened.
pub(crate) fn content_in<F: Files>(
    alloc: Global,
    files: &mut F,
    cown: &Cown,
    accepted: &Accepted,
) -> Result<Cargo, Status>
    ensures brings { Brings (λ x. x) (StartComes (F.told files.old)
        (program_of accepted.now.program) cown.now cown.now.start) result }
    ensures source_fault { result ≡ Err Status.SourceFault →
        Rose (F.faults files.old) (F.faults files.new) }
    ensures same_files { SameFiles (F.told files.old) (F.told files.new) }
    ensures begun { F.begun files.new ≡ F.begun files.old ++ with_name cown.now.start [] }
    ensures never_fall { F.faults files.old ≤ F.faults files.new }
{
    match &cown.start {
        Start::New(_) => Ok(Cargo::new(alloc)),
        Start::Image(name) => image_in(alloc, files, name.text(), cown, accepted),
    }
}
