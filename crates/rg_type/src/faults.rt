//! Faults with the line of their statement (docs/language.md, "Diagnostics").

ghost use Rattle.std.specs.Prelude.{◌≡◌, OnOk};
ghost use Rattle.rg_rules.specs.Answers as rules;
ghost use Rattle.rg_rules.specs.Environment.{Env};
ghost use Rattle.rg_type.specs.Inner.Changing.{DoneAs, LeavesAs};

use rg_base::{Code, Stop};
use rg_expressions::fault;

/// The same answer, with the line.
pub fn at_line(line: u64, done: Result<(), Code>) -> Result<(), Stop>
    ensures judged { (rule : rules.Answer Env) (new : Env) → DoneAs rule new done
        → LeavesAs (rules.at_line line rule) new result }
    ensures ok { OnOk result (done ≡ Ok tt) }
{
    match done {
        Ok(()) => Ok(()),
        Err(code) => Err(fault(code, line)),
    }
}
