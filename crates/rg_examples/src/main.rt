//! Checks, runs and formats each program of examples/ by the top call, calls it for each row of
//! examples/rows.txt and each change of examples/changes.txt, and says whether they write what is
//! expected, and whether the machine shows what a run made (docs/architecture.md, "Tests").
#![tactic(auto)]

mod calls;
mod cells;
mod changes;
mod cuts;
mod pacers;
mod programs;
mod rows;
mod shown;

use crate::changes::judge_change;
use crate::cuts::cut_anywhere;
use crate::pacers::{by_a_list, never};
use crate::programs::{KEPT, PLANNED, PROGRAMS, REPORTED, reports, settles, writes};
use crate::rows::{Verdict, judge};
use crate::shown::shows;
use rg_io::{StdFiles, take_all};
use std::io;
use std::rt::Files;

/// The most bytes of a file.
const MOST: usize = 1_048_576;

/// Whether something is as expected, in words.
fn told(verdict: Option<bool>) -> &'static str {
    match verdict {
        Some(true) => "as expected",
        Some(false) => "NOT as expected",
        None => "not tried, for want of memory or of its input",
    }
}

/// Says of a program whether it is accepted, whether it runs as expected, and whether it is settled
/// once it is formatted.
fn example(
    rt: &(impl Files + Print + AllocGlobal),
    program: &str,
    input: Option<&str>,
    output: &str,
) -> io::Result<()> {
    let accepted = told(writes(rt, &["check", program], None, "accepted.out"));
    println!(rt; "check {program}: {accepted}")?;
    let run = told(writes(rt, &["run", program], input, output));
    println!(rt; "run {program}: {run}")?;
    let slide = told(writes(rt, &["slide", program], input, output));
    println!(rt; "slide {program}: {slide}")?;
    let plain = told(writes(rt, &["plain", program], input, output));
    println!(rt; "plain {program}: {plain}")?;
    let settled = told(settles(rt, program));
    println!(rt; "fmt of the fmt of {program}: {settled}")
}

/// Says of a program whether its run reports the collections and numbers that are expected.
fn reported(
    rt: &(impl Files + Print + AllocGlobal),
    program: &str,
    every: &str,
    input: Option<&str>,
    report: &str,
) -> io::Result<()> {
    let words = ["run", program, "--report", "--every", every];
    let run = told(reports(rt, &words, input, report));
    println!(rt; "run {program} --report --every {every}: {run}")
}

/// Says of a program with a plan whether it runs as expected by a schedule.
fn planned(
    rt: &(impl Files + Print + AllocGlobal),
    program: &str,
    plan: &str,
    schedule: &str,
    output: &str,
) -> io::Result<()> {
    let when = told(writes(rt, &["when", program, plan], Some(schedule), output));
    println!(rt; "when {program} {plan}: {when}")
}

/// Says of a program with a plan whether it keeps what is expected.
fn kept(rt: &(impl Files + Print + AllocGlobal)) -> io::Result<()> {
    let (program, plan, schedule, cown, image) = KEPT;
    let words = ["when", program, plan, "--keep", cown];
    let when = told(writes(rt, &words, Some(schedule), image));
    println!(rt; "when {program} {plan} --keep {cown}: {when}")
}

/// Says of each example whether it writes what is expected.
fn examples(rt: &(impl Files + Print + AllocGlobal)) -> io::Result<()> {
    for (program, input, output) in PROGRAMS {
        example(rt, program, input, output)?;
    }
    for (program, every, input, report) in REPORTED {
        reported(rt, program, every, input, report)?;
    }
    for (program, plan, schedule, output) in PLANNED {
        planned(rt, program, plan, schedule, output)?;
    }
    kept(rt)?;
    let text = told(writes(rt, &["fmt", "every_form.rg"], None, "every_form.fmt"));
    println!(rt; "fmt every_form.rg: {text}")?;
    let module = told(writes(rt, &["pack", "seven.rg"], None, "seven.rgm"));
    println!(rt; "pack seven.rg: {module}")?;
    let run = told(writes(rt, &["exec", "seven.rgm"], None, "seven.out"));
    println!(rt; "exec seven.rgm: {run}")
}

/// A table of rows.
#[derive(Clone, Copy)]
enum Table {
    Rows,
    Changes,
}

/// What is to be said of a line of a table.
fn judge_line(rt: &(impl Files + AllocGlobal), table: Table, line: &str) -> Verdict {
    match table {
        Table::Rows => judge(rt.alloc(), line),
        Table::Changes => judge_change(rt, line),
    }
}

/// Says of a table how many of its rows give what they say, and which ones don't.
fn told_of(rt: &(impl Files + Print + AllocGlobal), table: Table, name: &str) -> io::Result<()> {
    let Ok(bytes) = take_all(rt.alloc(), &mut StdFiles::new(rt), name, MOST) else {
        return println!(rt; "{name} can't be read");
    };
    let Ok(text) = str::from_utf8(bytes.bytes()) else {
        return println!(rt; "{name} isn't text");
    };
    let mut count: u64 = 0;
    for line in text.lines() {
        match judge_line(rt, table, line) {
            Verdict::NoRow => {}
            Verdict::AsExpected => count = count.saturating_add(1),
            Verdict::Other => println!(rt; "NOT as expected: {line}")?,
            Verdict::NotTried => println!(rt; "not tried: {line}")?,
        }
    }
    println!(rt; "{name}: {count} rows as expected")
}

fn main(rt: HostRuntime) -> io::Result<()> {
    examples(&rt)?;
    let shown = told(shows(rt.alloc()));
    println!(rt; "what the machine shows of a run: {shown}")?;
    let by_a_list = told(by_a_list(&rt));
    println!(rt; "every_second.rg where a pacer says yes and no by turns: {by_a_list}")?;
    let never = told(never(&rt));
    println!(rt; "every_second.rg where no pacer says yes: {never}")?;
    let cut = told(cut_anywhere(&rt));
    println!(rt; "every_second.rg cut off before its last brace: {cut}")?;
    told_of(&rt, Table::Changes, "changes.txt")?;
    told_of(&rt, Table::Rows, "rows.txt")
}
