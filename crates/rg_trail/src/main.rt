//! Tells a run step by step, each step as a line of JSON (docs/embedding.md, "A trail"). The words
//! are the file, behind how many steps it begins to tell them whole, how many it tells so, how often
//! one of the others is told by its numbers (0: never), and what the pacers are tuned to; `slide`
//! behind them says that a collection of a traced region moves what it keeps.
#![tactic(auto)]

mod cells;
mod following;
mod frames;
mod json;
mod outcome;
mod reading;
mod telling;
mod trail;

use crate::reading::accepted_of;
use crate::telling::tell_run;
use crate::trail::Wanted;
use rg_base::{SOURCE_BYTES, Stop};
use rg_check::diagnostic_text;
use rg_input::Numbers;
use rg_io::{StdFiles, StdSource, take_all};
use rg_lower::lower;
use std::{env, io};

/// Says why there is no program.
fn refuse(rt: &HostRuntime, stop: Stop) -> io::Result<()> {
    if let Stop::Fault(fault) = stop {
        if let Ok(text) = diagnostic_text(rt.alloc(), fault) {
            if let Ok(text) = str::from_utf8(text.bytes()) {
                return print!(rt; "{text}");
            }
        }
    }
    println!(rt; "out of memory")
}

/// Tells the run of the program of a file.
fn tell_file(rt: &HostRuntime, name: &str, wanted: Wanted) -> io::Result<()> {
    let Ok(taken) = take_all(rt.alloc(), &mut StdFiles::new(rt), name, SOURCE_BYTES) else {
        return println!(rt; "no source");
    };
    let accepted = match accepted_of(rt.alloc(), taken.bytes()) {
        Ok(accepted) => accepted,
        Err(stop) => return refuse(rt, stop),
    };
    let Ok(code) = lower(rt.alloc(), &accepted) else {
        return println!(rt; "out of memory");
    };
    tell_run(
        rt,
        &accepted,
        &code,
        wanted,
        &mut Numbers::new(),
        &mut StdSource::new(rt.stdin()),
    )
}

/// A word as a number.
fn number(word: Option<String>) -> Option<u64> {
    word?.parse().ok()
}

fn main(rt: HostRuntime) -> io::Result<()> {
    let mut words = env::args(&rt)?;
    let _ = words.next();
    let Some(name) = words.next() else {
        return println!(rt; "usage: FILE FROM STEPS EVERY TUNE [slide]");
    };
    let (from, steps) = (number(words.next()), number(words.next()));
    let (every, tune) = (number(words.next()), number(words.next()));
    let (Some(from), Some(steps), Some(every), Some(tune)) = (from, steps, every, tune) else {
        return println!(rt; "usage: FILE FROM STEPS EVERY TUNE [slide]");
    };
    let slides = words.next().is_some();
    let wanted = Wanted {
        from,
        steps,
        every,
        tune,
        slides,
    };
    tell_file(&rt, name.as_str(), wanted)
}
