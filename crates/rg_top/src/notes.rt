//! The texts of the statuses, given to the notes (docs/language.md, "Statuses"). Nothing here takes
//! memory.

ghost use Rattle.std.specs.Prelude.{◌≡◌, ◌+◌, ◌≤◌, ◌⊎◌, [], ◌∷◌, ◌++◌, length, decimal, OnOk};
ghost use Rattle.std.specs.Prelude.{OnErr, List, ℕ, Option, false};
ghost use Rattle.arrayvec.specs.ArrayVec.{array_vec_len};
ghost use Rattle.rg_io.specs.Content.{Rose, Appends, AppendsPart};
ghost use Rattle.rg_run.specs.Machine.{Kept, numbers_of};
ghost use Rattle.rg_top.specs.Headline.{TookNotes, ToldFault};
ghost use Rattle.rg_commands.specs.Settled.{Reported};
ghost use Rattle.rg_top.specs.Inner.Told.{Gave, Becomes};
ghost use Rattle.rg_commands.specs.Setting.{IsLent};
ghost use Rattle.rg_base.specs.Report as report;
ghost use Rattle.rg_words.specs.Statuses.{status_text, ends_run};

use arrayvec::ArrayVec;
use rg_check::code_text;
use rg_commands::Setting;
use rg_io::{Failed, Sink, put_all};
use rg_report::end_line;
use rg_run::Machine;
use rg_words::{Status, trap_words};
use std::alloc::Global;

/// How the program is called.
pub(crate) const USAGE: &[u8] =
    b"usage: reggio run FILE [--steps N] [--every N] [--report]; check FILE; fmt FILE; \
    code FILE; plain FILE [--steps N]; bulk N; \
    slide FILE [--steps N] [--every N] [--report]; pack FILE; \
    exec FILE [--steps N] [--every N] [--report]; when FILE PLAN [--keep K]\n";

/// Appends bytes that there is room for.
fn extend(line: &mut ArrayVec<u8, 96>, more: &[u8])
    requires { array_vec_len line.old + length more.now ≤ 96 }
    ensures items { line.new.items ≡ line.old.items ++ more.now }
    ensures len { array_vec_len line.new ≡ array_vec_len line.old + length more.now }
{
    match line.try_extend_from_slice(more) {
        Ok(()) => {}
        Err(_) => unreachable!(),
    }
}

/// Words, a number and the end of a line.
fn numbered_line(front: &[u8], middle: &[u8], number: u64) -> ArrayVec<u8, 96>
    requires { length front.now + length middle.now ≤ 40 }
    ensures { result.items ≡ front.now ++ middle.now ++ decimal number ++ 10 ∷ [] }
{
    let mut digits = itoa::Buffer::new();
    let mut line = ArrayVec::new();
    extend(&mut line, front);
    extend(&mut line, middle);
    extend(&mut line, digits.format(number).as_bytes());
    line.push(b'\n');
    line
}

/// Gives the text of a status to the notes.
fn put_text<R: Sink>(notes: &mut R, status: Status, steps: u64) -> Result<(), Failed>
    ensures ok { OnOk result
        (Appends (R.taken notes.old) (R.taken notes.new) (status_text steps status)) }
    ensures failed { OnErr result (Rose (R.faults notes.old) (R.faults notes.new)) }
    ensures part { OnErr result
        (AppendsPart (R.taken notes.old) (R.taken notes.new) (status_text steps status)) }
    ensures never_falls { R.faults notes.old ≤ R.faults notes.new }
{
    match status {
        Status::Done => put_all(notes, b""),
        Status::Refused(fault) => {
            let line = numbered_line(code_text(fault.code), b" at line ", fault.line);
            put_all(notes, line.as_slice())
        }
        Status::Usage => put_all(notes, USAGE),
        Status::Trap { kind, line } => {
            let line = numbered_line(trap_words(kind), b" at line ", line);
            put_all(notes, line.as_slice())
        }
        Status::Spent => {
            let line = numbered_line(b"spent", b" at step ", steps);
            put_all(notes, line.as_slice())
        }
        Status::Away { taken } => {
            let line = numbered_line(b"spent", b" at step ", taken);
            put_all(notes, line.as_slice())
        }
        Status::SourceFault => put_all(notes, b"source fault\n"),
        Status::InputFault => put_all(notes, b"input fault\n"),
        Status::OutputFault => put_all(notes, b"output fault\n"),
        Status::Memory => put_all(notes, b"out of memory\n"),
        Status::Long => put_all(notes, b"source too long\n"),
    }
}

/// Gives the text of an output fault to the notes; a fault of the notes is passed over.
fn tell_output_fault<R: Sink>(notes: &mut R) -> Status
    ensures is { result ≡ Status.OutputFault }
    ensures part { AppendsPart (R.taken notes.old) (R.taken notes.new)
        (status_text 0 Status.OutputFault) }
    ensures whole { ¬ Rose (R.faults notes.old) (R.faults notes.new) →
        Appends (R.taken notes.old) (R.taken notes.new) (status_text 0 Status.OutputFault) }
    ensures never_falls { R.faults notes.old ≤ R.faults notes.new }
{
    match put_text(notes, Status::OutputFault, 0) {
        Ok(()) => Status::OutputFault,
        Err(_) => Status::OutputFault,
    }
}

/// Gives the text of a status to the notes and answers it; where that fails, the answer is
/// OutputFault.
fn give<R: Sink>(notes: &mut R, status: Status, steps: u64) -> Status
    ensures gave { Gave (status_text steps status) status result
        (R.taken notes.old) (R.taken notes.new) }
    ensures failed { result ≡ Status.OutputFault →
        (status ≡ Status.OutputFault) ⊎ Rose (R.faults notes.old) (R.faults notes.new) }
    ensures never_falls { R.faults notes.old ≤ R.faults notes.new }
{
    match put_text(notes, status, steps) {
        Ok(()) => status,
        Err(_) => tell_output_fault(notes),
    }
}

/// Gives the text of a status to the notes and answers it; where that fails, the answer is
/// OutputFault. `steps` is the number of steps that were asked for.
pub fn tell<R: Sink>(notes: &mut R, status: Status, steps: u64) -> Status
    ensures told { (result ≡ status) ⊎ (result ≡ Status.OutputFault) }
    ensures failed { result ≡ Status.OutputFault →
        (status ≡ Status.OutputFault) ⊎ Rose (R.faults notes.old) (R.faults notes.new) }
    ensures took { (m : Kept) → TookNotes (λ s. s ≡ status) false steps m result
        (R.taken notes.old) (R.taken notes.new) }
    ensures output_fault_told { result ≡ Status.OutputFault →
        ¬ Rose (R.faults notes.old) (R.faults notes.new) →
        Appends (R.taken notes.old) (R.taken notes.new) (status_text 0 Status.OutputFault) }
    ensures never_falls { R.faults notes.old ≤ R.faults notes.new }
{
    if let Status::OutputFault = status {
        return tell_output_fault(notes);
    }
    give(notes, status, steps)
}

/// Whether a run came to its end.
fn ends_run(status: Status) -> bool
    ensures { result ≡ ends_run status }
{
    match status {
        Status::Done | Status::Trap { .. } | Status::Spent => true,
        Status::Refused(_) | Status::Usage | Status::SourceFault | Status::InputFault => false,
        Status::Away { .. } => false,
        Status::OutputFault | Status::Memory | Status::Long => false,
    }
}

/// Gives the text of a status to the notes, and the line of a run's end. The line is made first, so
/// want of memory is told in place of both.
fn give_end<R: Sink>(
    alloc: Global,
    notes: &mut R,
    status: Status,
    steps: u64,
    machine: &Machine,
) -> Status
    ensures gave { Gave (status_text steps status ++ report.end_line (numbers_of machine.now))
        status result (R.taken notes.old) (R.taken notes.new)
        ⊎ Gave (status_text steps Status.Memory) Status.Memory result
        (R.taken notes.old) (R.taken notes.new) }
    ensures failed { result ≡ Status.OutputFault →
        (status ≡ Status.OutputFault) ⊎ Rose (R.faults notes.old) (R.faults notes.new) }
    ensures never_falls { R.faults notes.old ≤ R.faults notes.new }
{
    let Ok(line) = end_line(alloc, &machine.numbers()) else {
        return give(notes, Status::Memory, steps);
    };
    let Ok(()) = put_text(notes, status, steps) else {
        return tell_output_fault(notes);
    };
    match put_all(notes, line.bytes()) {
        Ok(()) => status,
        Err(_) => tell_output_fault(notes),
    }
}

/// Gives to the notes what stands behind the lines of a run's collections: the text of the status
/// and, with a report, the line of the run's end.
pub(crate) fn tell_behind<O: Sink, R: Sink>(
    setting: &mut Setting<'_, O, R>,
    status: Status,
    steps: u64,
    report: bool,
) -> Status
    ensures told { Becomes status result }
    ensures failed { result ≡ Status.OutputFault → (status ≡ Status.OutputFault)
        ⊎ Rose (R.faults setting.old.notes.now) (R.faults setting.new.notes.now) }
    ensures took { (old : Option (List ℕ)) →
        Reported report status setting.old.machine.now.stepper.events old
        (R.taken setting.old.notes.now) →
        TookNotes (λ s. (s ≡ status) ⊎ (s ≡ Status.Memory)) report steps
        setting.old.machine.now result old (R.taken setting.new.notes.now) }
    ensures output_fault_told { (old : Option (List ℕ)) →
        Reported report status setting.old.machine.now.stepper.events old
        (R.taken setting.old.notes.now) →
        result ≡ Status.OutputFault →
        ¬ Rose (R.faults setting.old.notes.now) (R.faults setting.new.notes.now) →
        ToldFault report setting.old.machine.now.stepper.events old
        (R.taken setting.new.notes.now) }
    ensures never_falls { R.faults setting.old.notes.now ≤ R.faults setting.new.notes.now }
    ensures out { setting.new.out.now ≡ setting.old.out.now }
    ensures machine { setting.new.machine.now ≡ setting.old.machine.now }
    ensures lent { IsLent setting.old setting.new }
{
    if let Status::OutputFault = status {
        return tell_output_fault(setting.notes);
    }
    if !report {
        return give(setting.notes, status, steps);
    }
    if !ends_run(status) {
        return give(setting.notes, status, steps);
    }
    give_end(setting.alloc, setting.notes, status, steps, setting.machine)
}
