//! The process on a run that has made all its steps: words with options, input, output and status
//! are stored beside it (docs/language.md, "Statuses").
#![tactic(auto)]

use rg_top::run_process;
use std::process::ExitCode;

fn main(rt: HostRuntime) -> ExitCode {
    run_process(&rt)
}
