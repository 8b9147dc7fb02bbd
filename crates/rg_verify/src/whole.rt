//! The verifier of modules (docs/architecture.md, "Modules").

ghost use Rattle.std.specs.Prelude.{◌≡◌, IfOk};
ghost use Rattle.rg_base.specs.declared.fault.Fault.{Fault};
ghost use Rattle.rg_tree.specs.Rows.RowTrees.{program_of};
ghost use Rattle.rg_compare.specs.Telling.{TellsSame};
ghost use Rattle.rg_build.specs.ModuleOf.{module_of};
ghost use Rattle.rg_limits.specs.Parts.{HasFewParts};
ghost use Rattle.rg_raised.specs.Raises.{Raises};
ghost use Rattle.rg_verify.specs.Verdict.{IsUnverified};
ghost use Rattle.rg_verify.specs.Inner.Verdicts.{AllowsAs, RaisesAs};

use crate::laws::told_raises_if_any;
use rg_base::{Code, Fault, Memory, Stop};
use rg_build::build;
use rg_check::{Accepted, check};
use rg_compare::same;
use rg_limits::is_within_limits;
use rg_lower::lower;
use rg_module::Module;
use rg_raised::raise_module;
use rg_told::{told_are_bounded, told_are_numbered};
use rg_tree::Program;
use rg_verify_expressions::Refusal;
use std::alloc::Global;

// The program as an accepted one, if it is one and passes no limit.
fn allowed(alloc: Global, program: Program) -> Result<Accepted, Refusal>
    requires { HasFewParts (program_of program) }
    ensures { AllowsAs program result }
{
    if !is_within_limits(&program) {
        return Err(Refusal::NotRaised);
    }
    match check(alloc, program) {
        Ok(accepted) => Ok(accepted),
        Err(Stop::Fault(_)) => Err(Refusal::NotRaised),
        Err(Stop::Memory) => Err(Refusal::Memory),
    }
}

// Whether a module is that of an accepted program.
fn is_its_module(alloc: Global, accepted: &Accepted, module: &Module) -> Result<bool, Memory>
    ensures { IfOk result (λ answer. TellsSame answer
        (module_of (program_of accepted.now.program)) «module».now) }
{
    let code = lower(alloc, accepted)?;
    let own = build(alloc, accepted, &code)?;
    Ok(same(&own, module))
}

// A program that raises a module, if any does.
fn raised(alloc: Global, module: &Module) -> Result<Accepted, Refusal>
    ensures { RaisesAs «module».now result }
{
    told_raises_if_any();
    told_are_numbered();
    told_are_bounded();
    let program = raise_module(alloc, module)?;
    let accepted = allowed(alloc, program)?;
    let Ok(is_its_own) = is_its_module(alloc, &accepted, module) else {
        return Err(Refusal::Memory);
    };
    if !is_its_own {
        return Err(Refusal::NotRaised);
    }
    Ok(accepted)
}

/// A program that raises a module; `E92` at line 0 where there is none. Nothing is searched for:
/// the one program that the module tells is raised, and passes if it is within the limits and
/// accepted, and its own module is this one.
pub fn verify(alloc: Global, module: &Module) -> Result<Accepted, Stop>
    ensures ok { IfOk result (λ a. Raises «module».now (program_of a.program)) }
    ensures fault { (f : Fault) → result ≡ Err (Stop.Fault f) → IsUnverified «module».now f }
{
    match raised(alloc, module) {
        Ok(accepted) => Ok(accepted),
        Err(Refusal::NotRaised) => {
            let code = Code::Unverified;
            Err(Stop::Fault(Fault { code, line: 0 }))
        }
        Err(Refusal::Memory) => Err(Stop::Memory),
    }
}
