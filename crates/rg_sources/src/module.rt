//! The program of a module (docs/promises.md, "The headline").

ghost use Rattle.std.specs.Prelude.{◌≡◌, ◌≤◌, ◌++◌, ◌∷◌, [], length, Err, IfOk};
ghost use Rattle.rg_base.specs.declared.fault.Fault.{Fault};
ghost use Rattle.rg_words.specs.declared.limits.TheConstants.{MODULE_BYTES};
ghost use Rattle.rg_tree.specs.Rows.RowTrees.{program_of};
ghost use Rattle.rg_io.specs.Content.{Rose};
ghost use Rattle.rg_io.specs.Files.{SameFiles};
ghost use Rattle.rg_rules.specs.Acceptance.{Accepted as IsAccepted};
ghost use Rattle.rg_sources.specs.Sources.{spelt, MeansModule, faulty};
ghost use Rattle.rg_sources.specs.Brings.{BringsRaised};

use rg_base::Stop;
use rg_check::Accepted;
use rg_io::{Files, Taken, take_all};
use rg_module::decode;
use rg_verify::verify;
use rg_words::{MODULE_BYTES, Status};
use std::alloc::Global;

/// The program that a module was raised from, of which it is one.
fn raised(alloc: Global, bytes: &[u8]) -> Result<Accepted, Stop>
    requires { length bytes.now ≤ MODULE_BYTES }
    ensures ok { IfOk result (λ a. MeansModule bytes.now (spelt (program_of a.program))) }
    ensures accepted { IfOk result (λ a. IsAccepted (program_of a.program)) }
    ensures fault { (f : Fault) → result ≡ Err (Stop.Fault f) → MeansModule bytes.now (faulty f) }
{
    let module = match decode(alloc, bytes) {
        Ok(module) => module,
        Err(stop) => return Err(stop),
    };
    verify(alloc, &module)
}

/// The program that was raised from the module of a file, or the status of the call without one.
pub fn module_in<F: Files>(alloc: Global, name: &str, files: &mut F) -> Result<Accepted, Status>
    ensures brings { BringsRaised (F.told files.old) name.now result }
    ensures source_fault { result ≡ Err Status.SourceFault →
        Rose (F.faults files.old) (F.faults files.new) }
    ensures same_files { SameFiles (F.told files.old) (F.told files.new) }
    ensures begun { F.begun files.new ≡ F.begun files.old ++ name.now ∷ [] }
    ensures never_fall { F.faults files.old ≤ F.faults files.new }
{
    let bytes = match take_all(alloc, files, name, MODULE_BYTES) {
        Err(Taken::SourceFault) => return Err(Status::SourceFault),
        Err(Taken::Long) => return Err(Status::Long),
        Err(Taken::Memory) => return Err(Status::Memory),
        Ok(bytes) => bytes,
    };
    match raised(alloc, bytes.bytes()) {
        Err(Stop::Fault(fault)) => Err(Status::Refused(fault)),
        Err(Stop::Memory) => Err(Status::Memory),
        Ok(accepted) => Ok(accepted),
    }
}
