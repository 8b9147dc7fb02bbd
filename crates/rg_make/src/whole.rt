//! A generated program of a seed and a size (docs/language.md, "The generated program").

ghost use Rattle.std.specs.Prelude.{◌≡◌, ◌≤◌, IfOk};
ghost use Rattle.rg_tree.specs.Rows.RowTrees.{program_of as tree_of};
ghost use Rattle.rg_rules.specs.Acceptance.{Accepted};
ghost use Rattle.rg_make.specs.declared.whole.TheConstants.{MOST_SIZE};
ghost use Rattle.rg_make.specs.Generated.{generated};

use crate::classes::{add_list_class, add_node_class};
use crate::main_block::{Numbers, add_main};
use rg_base::Memory;
use rg_tree::Program;
use std::alloc::Global;

/// The greatest size of a generated program.
pub const MOST_SIZE: u32 = 100_000;

/// The generated program of a seed and a size. It is accepted.
pub fn program_of(alloc: Global, seed: u64, size: u32) -> Result<Program, Memory>
    requires { size ≤ MOST_SIZE }
    ensures tree { IfOk result (λ p. tree_of p ≡ generated seed size) }
    ensures accepted { IfOk result (λ p. Accepted (tree_of p)) }
{
    let step = (seed % 1000) as u32;
    let numbers = Numbers {
        size,
        step,
        start: size % 1000 * (step / 500),
    };
    let mut program = Program::new(alloc);
    add_node_class(&mut program)?;
    add_list_class(&mut program)?;
    add_main(&mut program, numbers)?;
    Ok(program)
}
