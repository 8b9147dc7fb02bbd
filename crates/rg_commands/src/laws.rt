//! The law of what a command answers, as the contract of a function that does nothing
//! (docs/promises.md, "The headline").

ghost use Rattle.rg_commands.specs.Laws.{OneAnswer};

use rg_lines::same_runs;
use rg_loading::loads_come_to_one;
use rg_module::at_most_one_module;
use rg_verify::raised_alike;

/// A command answers the same to its bytes, whichever of the programs that raise a module is meant.
pub fn answers_are_one()
    ensures { OneAnswer }
{
    same_runs();
    at_most_one_module();
    raised_alike();
    loads_come_to_one();
}
