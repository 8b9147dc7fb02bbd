//! A whole program: its headers, the bodies of its methods in source order, and main's body
//! (docs/language.md, "Acceptance").

ghost use Rattle.std.specs.Prelude.{◌≡◌, IfOk};
ghost use Rattle.rg_tree.specs.Rows.RowTrees.{program_of};
ghost use Rattle.rg_rules.specs.Names.{FewNames};
ghost use Rattle.rg_rules.specs.Acceptance.{judge_program};
ghost use Rattle.rg_names.specs.Judged.{JudgedAs};

use crate::accepted::Accepted;
use crate::classes::judge_methods;
use crate::statements::judge_block;
use rg_base::Stop;
use rg_flow::Env;
use rg_names::Classes;
use rg_tree::Program;
use std::alloc::Global;

/// The program as an accepted one, or its first fault.
pub fn check(alloc: Global, program: Program) -> Result<Accepted, Stop>
    requires { FewNames (program_of program) }
    ensures judged { JudgedAs (judge_program (program_of program)) result }
    ensures program { IfOk result (λ accepted. accepted.program ≡ program) }
{
    let classes = Classes::of(alloc, &program)?;
    judge_methods(alloc, &program, &classes)?;
    let env = Env::new(alloc);
    let main = program.order(program.main_body());
    judge_block(env, &program, &classes, None, main)?;
    Ok(Accepted::new(program, classes))
}
