//! The program that is asked for (docs/promises.md, "The headline").

ghost use Rattle.std.specs.Prelude.{◌≡◌, ◌≢◌, ◌≤◌, false, Option, Err};
ghost use Rattle.rg_io.specs.Content.{Rose};
ghost use Rattle.rg_io.specs.Files.{Told, BegunAre};
ghost use Rattle.rg_make.specs.declared.whole.TheConstants.{MOST_SIZE};
ghost use Rattle.rg_words.specs.Commands.{generated, origin_of, opens_file};
ghost use Rattle.rg_words.specs.Requests.{command_of, AsksWithin};
ghost use Rattle.rg_sources.specs.Brings.{Brings};
ghost use Rattle.rg_sources.specs.Opens.{Opens};

use crate::source::program_in;
use rg_io::Files;
use rg_make::program_of;
use rg_tree::Program;
use rg_words::{Request, Status};
use std::alloc::Global;

/// The generated program of a size, with the seed 1.
fn program_of_size(alloc: Global, size: u32) -> Result<Program, Status>
    requires { size ≤ MOST_SIZE }
    ensures brings { (told : Option Told) → Brings told (generated size) result }
    ensures no_file { result ≢ Err Status.SourceFault }
{
    match program_of(alloc, 1, size) {
        Err(_) => Err(Status::Memory),
        Ok(program) => Ok(program),
    }
}

/// The program that is asked for: that of a file, or a generated one.
pub fn program_from<F: Files>(
    alloc: Global,
    request: Request<'_>,
    files: &mut F,
) -> Result<Program, Status>
    requires { AsksWithin request }
    ensures brings { Brings (F.told files.old) (origin_of (command_of request.entry)) result }
    ensures opened { BegunAre (Opens (F.told files.old) (origin_of (command_of request.entry)))
        (F.begun files.old) (F.begun files.new) }
    ensures unread { opens_file (command_of request.entry) ≡ false → files.new ≡ files.old }
    ensures source_fault { result ≡ Err Status.SourceFault →
        Rose (F.faults files.old) (F.faults files.new) }
    ensures never_fall { F.faults files.old ≤ F.faults files.new }
{
    match request {
        Request::Run { file, .. } | Request::Plain { file, .. } => program_in(alloc, file, files),
        Request::Format { file } | Request::Check { file } => program_in(alloc, file, files),
        Request::Code { file } | Request::Pack { file } => program_in(alloc, file, files),
        Request::Bulk { size } => program_of_size(alloc, size),
    }
}
