//! A whole process: the words of the command line, the files of the system and the standard streams
//! are handed to the top call (docs/language.md, "The command line").

ghost use Rattle.std.specs.Prelude.{◌≡◌, ◌⊎◌, false, None, map, drop, IfOk};
ghost use Rattle.std.specs.Bool.{OnTrue};
ghost use Rattle.std.specs.Process.{exit_status};
ghost use Rattle.std.specs.String.{string_bytes};
ghost use Rattle.std.specs.Vec.Iter.{into_iter_items};
ghost use Rattle.rg_run.specs.Machine.{Kept};
ghost use Rattle.rg_words.specs.Commands.{command, texts, may_report};
ghost use Rattle.rg_top.specs.Headline.{Exactly, IsExpected, IsMachineOf, MayTell, TookNotes};
ghost use Rattle.rg_top.specs.Headline.{steps_asked};
ghost use Rattle.rg_top.specs.Inner.Words.{status_without};
ghost use Rattle.rg_words.specs.Statuses.{number_of, is_answer};

use crate::notes::tell;
use crate::top::reggio;
use rg_io::{Sink, StdFiles, StdSink, StdSource};
use rg_pace::EveryN;
use rg_run::Machine;
use rg_words::Status;
use std::alloc::{AllocError, Global};
use std::env::{self, Args};
use std::io::ErrorKind;
use std::process::ExitCode;
use std::rt::Env;

/// Why the words of the command line can't be had.
enum NoWords {
    /// a word isn't UTF-8
    NotText,
    /// no memory was found
    Memory,
}

/// All words, in order.
fn all_of(alloc: Global, args: Args) -> Result<Vec<String>, AllocError>
    ensures { IfOk result (λ words. words.items ≡ into_iter_items args) }
{
    args.collect(alloc)
}

/// The words of the command line, the program's name first.
fn arguments(rt: &(impl Env + AllocGlobal)) -> Result<Vec<String>, NoWords> {
    match env::args(rt) {
        Ok(args) => match all_of(rt.alloc(), args) {
            Ok(words) => Ok(words),
            Err(_) => Err(NoWords::Memory),
        },
        Err(error) => match error.kind() {
            ErrorKind::OutOfMemory => Err(NoWords::Memory),
            _ => Err(NoWords::NotText),
        },
    }
}

/// The words behind the program's name.
fn behind_name(words: &[String]) -> &[String]
    ensures { result.now ≡ drop 1 words.now }
{
    match words {
        [] => words,
        [_, rest @ ..] => rest,
    }
}

/// The same words as texts.
fn as_texts(alloc: Global, words: &[String]) -> Result<Vec<&str>, AllocError>
    ensures { IfOk result (λ all. texts all.items ≡ map string_bytes words.now) }
{
    words.iter().map(|word| word.as_str()).collect(alloc)
}

/// Says why there are no words.
fn tell_no_words<R: Sink>(notes: &mut R, why: NoWords) -> Status
    ensures told { (result ≡ status_without why) ⊎ (result ≡ Status.OutputFault) }
    ensures took { (m : Kept) → TookNotes (λ s. s ≡ status_without why) false 0 m result
        (R.taken notes.old) (R.taken notes.new) }
{
    match why {
        NoWords::NotText => tell(notes, Status::Usage, 0),
        NoWords::Memory => tell(notes, Status::Memory, 0),
    }
}

/// Calls `reggio` with standard input, standard output and, for the notes, standard error, and with
/// pacers of its own, which end with the call.
fn paced<R: Sink>(rt: &HostRuntime, words: &[&str], notes: &mut R) -> Status
    ensures usage { Exactly result Status.Usage (command (texts words.now) ≡ None) }
    ensures expected { OnTrue (is_answer result) (IsExpected None None (texts words.now) result) }
    ensures notes { (m : Kept) × OnTrue (is_answer result) (IsMachineOf (texts words.now) result m)
        × TookNotes (MayTell None None (texts words.now) (Unit {0}) (Unit {0}))
        (may_report (command (texts words.now))) (steps_asked (command (texts words.now))) m
        result (R.taken notes.old) (R.taken notes.new) }
{
    let alloc = rt.alloc();
    let mut machine = Machine::new(alloc);
    let Ok(mut count) = Box::new(alloc, EveryN::new()) else {
        return tell_no_words(notes, NoWords::Memory);
    };
    let Ok(mut trace) = Box::new(alloc, EveryN::new()) else {
        return tell_no_words(notes, NoWords::Memory);
    };
    reggio(
        alloc,
        words,
        &mut StdFiles::new(rt),
        &mut StdSource::new(rt.stdin()),
        &mut StdSink::new(rt.stdout()),
        notes,
        &mut *count,
        &mut *trace,
        &mut machine,
    )
}

/// Makes the call that the words of the command line ask for.
fn called(rt: &HostRuntime) -> Status {
    let alloc = rt.alloc();
    let mut notes = StdSink::new(rt.stderr());
    let words = match arguments(rt) {
        Err(why) => return tell_no_words(&mut notes, why),
        Ok(words) => words,
    };
    match as_texts(alloc, behind_name(words.as_slice())) {
        Err(_) => tell_no_words(&mut notes, NoWords::Memory),
        Ok(texts) => paced(rt, texts.as_slice(), &mut notes),
    }
}

/// What a process ends with.
fn exit_code(status: Status) -> ExitCode
    ensures { exit_status result ≡ number_of status }
{
    ExitCode::from(status.number())
}

/// The whole program: makes the call that the words of the command line ask for, and gives the
/// number of its status. Runs of small programs show that the words and streams are the process's.
pub fn run_process(rt: &HostRuntime) -> ExitCode
    ensures { (s : Status) × (exit_status result ≡ number_of s) }
{
    exit_code(called(rt))
}
