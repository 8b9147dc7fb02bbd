//! The program `reggio`: it makes the call that the words of the command line ask for
//! (docs/language.md, "The command line").
#![tactic(auto)]

use rg_top::run_process;
use std::process::ExitCode;

fn main(rt: HostRuntime) -> ExitCode {
    run_process(&rt)
}
