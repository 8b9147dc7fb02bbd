//! Reads the words of the command line by hand; it takes no memory (docs/language.md, "The command
//! line").

ghost use Rattle.std.specs.Prelude.{◌≡◌, ◌<◌, ◌≤◌, ◌^◌, Some, None, true, MatchOption, IfSome};
ghost use Rattle.std.specs.Prelude.{is_some, option_map};
ghost use Rattle.std.specs.List.{list_all};
ghost use Rattle.rg_base.specs.Pieces.{is_digit};
ghost use Rattle.rg_make.specs.declared.whole.TheConstants.{MOST_SIZE};
ghost use Rattle.rg_words.specs.Commands.{command, texts, is_file, is_number, value_up_to};
ghost use Rattle.rg_words.specs.Commands.{number_in, no_options, with_report, with_steps};
ghost use Rattle.rg_words.specs.Commands.{with_every, with_number, options_in, running, executing};
ghost use Rattle.rg_words.specs.Commands.{steps_in, cown_in, keeping, named, scheduling};
ghost use Rattle.rg_words.specs.Commands.{on_file, sized};
ghost use Rattle.rg_words.specs.Requests.{command_of, command_for, run_options, AsksWithin};
ghost use Rattle.rg_words.specs.Requests.{TaskWithin};

use crate::limits::{MOST_COWN, MOST_EVERY, USUAL_EVERY};
use rg_base::{MOST_STEPS, USUAL_STEPS};
use rg_make::MOST_SIZE;

/// How `run`, `slide` or `exec` runs a program: `slides` is whether what a collection keeps moves,
/// which `exec` has false.
#[derive(Clone, Copy)]
pub struct RunOptions {
    pub slides: bool,
    pub steps: u64,
    pub every: u64,
    pub report: bool,
}

/// What the words ask for of a program, with the file that has its source or the size of a
/// generated one.
#[derive(Clone, Copy)]
pub enum Request<'a> {
    /// `run FILE --steps N --every N --report`, or `slide` with the same words
    Run { file: &'a str, options: RunOptions },
    /// `plain FILE --steps N`
    Plain { file: &'a str, steps: u64 },
    /// `fmt FILE`
    Format { file: &'a str },
    /// `check FILE`
    Check { file: &'a str },
    /// `code FILE`
    Code { file: &'a str },
    /// `pack FILE`
    Pack { file: &'a str },
    /// `bulk N`
    Bulk { size: u32 },
}

/// What the words ask for: something of a program, a run of a module, or of a schedule.
#[derive(Clone, Copy)]
pub enum Task<'a> {
    /// a command on a program
    OfProgram(Request<'a>),
    /// `exec FILE --steps N --every N --report`
    OfModule {
        file: &'a str,
        options: RunOptions,
    },
    /// `when FILE PLAN --keep K`
    OfPlan {
        file: &'a str,
        plan: &'a str,
        /// the number of the cown whose content is kept, from 0
        keep: Option<u32>,
    },
}

/// What the words behind the file of `run`, `slide` or `exec` have given so far.
#[derive(Clone, Copy)]
struct Options {
    steps: Option<u64>,
    every: Option<u64>,
    report: bool,
}

/// Whether a word can name a file.
fn can_name_file(word: &str) -> bool
    ensures { result ≡ is_file word.now }
{
    match word.as_bytes() {
        [] => false,
        [first, ..] => *first != b'-',
    }
}

/// Whether all bytes are digits.
fn are_digits(word: &[u8]) -> bool
    ensures { result ≡ list_all is_digit word.now }
{
    word.iter().all(|b| b.is_ascii_digit())
}

/// Whether a word writes a number.
fn writes_number(word: &[u8]) -> bool
    ensures { result ≡ is_number word.now }
{
    if word.is_empty() {
        return false;
    }
    if word.len() > 10 {
        return false;
    }
    are_digits(word)
}

/// The value of digits, where it is within a limit.
fn value_within(digits: &[u8], most: u64) -> Option<u64>
    requires small { most < 2 ^ 32 }
    requires digits { list_all is_digit digits.now ≡ true }
    ensures is { result ≡ value_up_to digits.now most }
    ensures within { IfSome result (λ value. value ≤ most) }
{
    let mut value: u64 = 0;
    for b in digits {
        value = value * 10 + u64::from(*b - b'0');
        if value > most {
            return None;
        }
    }
    Some(value)
}

/// The number that a word writes, up to a limit.
fn number(word: &str, most: u64) -> Option<u64>
    requires { most < 2 ^ 32 }
    ensures is { result ≡ number_in word.now most }
    ensures within { IfSome result (λ value. value ≤ most) }
{
    let bytes = word.as_bytes();
    if !writes_number(bytes) {
        return None;
    }
    value_within(bytes, most)
}

impl Options {
    /// The options with `--report` too, where it isn't given yet.
    fn with_report(self) -> Option<Options>
        ensures { result ≡ with_report self }
    {
        if self.report {
            return None;
        }
        Some(Options {
            report: true,
            ..self
        })
    }

    /// The options with `--steps` and its number too, where it isn't given yet.
    fn with_steps(self, word: &str) -> Option<Options>
        ensures { result ≡ with_steps self word.now }
    {
        if self.steps.is_some() {
            return None;
        }
        let steps = number(word, MOST_STEPS)?;
        Some(Options {
            steps: Some(steps),
            ..self
        })
    }

    /// The options with `--every` and its number too, where it isn't given yet.
    fn with_every(self, word: &str) -> Option<Options>
        ensures { result ≡ with_every self word.now }
    {
        if self.every.is_some() {
            return None;
        }
        let every = number(word, MOST_EVERY)?;
        Some(Options {
            every: Some(every),
            ..self
        })
    }

    /// The options with one more and the number in the next word.
    fn with_number(self, option: &str, word: &str) -> Option<Options>
        ensures { result ≡ with_number self option.now word.now }
    {
        if option == "--steps" {
            return self.with_steps(word);
        }
        if option == "--every" {
            return self.with_every(word);
        }
        None
    }

    /// How a program is run with these options, and as usual where one isn't given.
    fn run_options(self, slides: bool) -> RunOptions
        ensures { result ≡ run_options slides self }
    {
        RunOptions {
            slides,
            steps: self.steps.unwrap_or(USUAL_STEPS),
            every: self.every.unwrap_or(USUAL_EVERY),
            report: self.report,
        }
    }
}

/// The options that words give.
fn options_in(words: &[&str]) -> Option<Options>
    ensures { result ≡ options_in (texts words.now) no_options }
{
    let mut so_far = Options {
        steps: None,
        every: None,
        report: false,
    };
    let mut left = words;
    while let [option, behind @ ..] = left {
        if *option == "--report" {
            so_far = so_far.with_report()?;
            left = behind;
        } else {
            let [word, rest @ ..] = behind else {
                return None;
            };
            so_far = so_far.with_number(option, word)?;
            left = rest;
        }
    }
    Some(so_far)
}

/// `run` or `slide` on a file with the options that words give.
fn run<'a>(slides: bool, file: &'a str, words: &[&str]) -> Option<Request<'a>>
    ensures is { option_map command_of result
        ≡ option_map (running slides file.now) (options_in (texts words.now) no_options) }
    ensures within { IfSome result AsksWithin }
{
    let options = options_in(words)?.run_options(slides);
    Some(Request::Run { file, options })
}

/// The number of steps that the words behind the file of `plain` ask for.
fn steps(options: &[&str]) -> Option<u64>
    ensures { result ≡ steps_in (texts options.now) }
{
    match options {
        [] => Some(USUAL_STEPS),
        [option, value] if *option == "--steps" => number(value, MOST_STEPS),
        _ => None,
    }
}

/// Whether the words give a command. They don't include the program's name.
pub fn shape(words: &[&str]) -> bool
    ensures { result ≡ is_some (command (texts words.now)) }
{
    command(words).is_some()
}

/// The size of a generated program that a word writes.
fn size(word: &str) -> Option<u32>
    ensures is { result ≡ number_in word.now MOST_SIZE }
    ensures within { IfSome result (λ size. size ≤ MOST_SIZE) }
{
    let size = number(word, u64::from(MOST_SIZE))?;
    Some(size as u32)
}

/// The command on a file that a name and the words behind the file give.
fn named<'a>(name: &str, file: &'a str, options: &[&str]) -> Option<Request<'a>>
    ensures is { MatchOption result (named name.now file.now (texts options.now) ≡ None)
        (λ r. named name.now file.now (texts options.now) ≡ Some (command_of r)) }
    ensures within { IfSome result AsksWithin }
{
    if name == "run" {
        return run(false, file, options);
    }
    if name == "slide" {
        return run(true, file, options);
    }
    if name == "plain" {
        let steps = steps(options)?;
        return Some(Request::Plain { file, steps });
    }
    let [] = options else {
        return None;
    };
    if name == "fmt" {
        return Some(Request::Format { file });
    }
    if name == "check" {
        return Some(Request::Check { file });
    }
    if name == "code" {
        return Some(Request::Code { file });
    }
    if name == "pack" {
        return Some(Request::Pack { file });
    }
    None
}

/// `exec` on a file with the options that words give.
fn exec<'a>(file: &'a str, words: &[&str]) -> Option<Task<'a>>
    ensures is { option_map command_for result
        ≡ option_map (executing file.now) (options_in (texts words.now) no_options) }
    ensures within { IfSome result TaskWithin }
{
    let options = options_in(words)?.run_options(false);
    Some(Task::OfModule { file, options })
}

/// The cown whose number a word writes.
fn cown(word: &str) -> Option<u32>
    ensures { result ≡ cown_in word.now }
{
    if word.len() > 4 {
        return None;
    }
    let cown = number(word, MOST_COWN)?;
    Some(cown as u32)
}

/// The cown that `--keep` names, with nothing behind it.
fn keeping(words: &[&str]) -> Option<u32>
    ensures { result ≡ keeping (texts words.now) }
{
    match words {
        [option, number] if *option == "--keep" => cown(number),
        _ => None,
    }
}

/// `when` on a file with the words behind it.
fn when<'a>(file: &'a str, words: &[&'a str]) -> Option<Task<'a>>
    ensures is { option_map command_for result ≡ scheduling file.now (texts words.now) }
    ensures within { IfSome result TaskWithin }
{
    let [plan, behind @ ..] = words else {
        return None;
    };
    if !can_name_file(plan) {
        return None;
    }
    if behind.is_empty() {
        return Some(Task::OfPlan {
            file,
            plan,
            keep: None,
        });
    }
    let cown = keeping(behind)?;
    Some(Task::OfPlan {
        file,
        plan,
        keep: Some(cown),
    })
}

/// What a name and the words behind a file ask for of the file.
fn on_file<'a>(name: &str, file: &'a str, options: &[&'a str]) -> Option<Task<'a>>
    ensures is { MatchOption result (on_file name.now file.now (texts options.now) ≡ None)
        (λ t. on_file name.now file.now (texts options.now) ≡ Some (command_for t)) }
    ensures within { IfSome result TaskWithin }
{
    if name == "exec" {
        return exec(file, options);
    }
    if name == "when" {
        return when(file, options);
    }
    let request = named(name, file, options)?;
    Some(Task::OfProgram(request))
}

/// `bulk` with a size and the words behind it.
fn sized<'a>(number: &str, more: &[&str]) -> Option<Request<'a>>
    ensures is { MatchOption result (sized number.now (texts more.now) ≡ None)
        (λ r. sized number.now (texts more.now) ≡ Some (command_of r)) }
    ensures within { IfSome result AsksWithin }
{
    let [] = more else {
        return None;
    };
    let size = size(number)?;
    Some(Request::Bulk { size })
}

/// What the words ask for, if they give a command. They don't include the program's name.
pub fn command<'a>(words: &[&'a str]) -> Option<Task<'a>>
    ensures is { MatchOption result (command (texts words.now) ≡ None)
        (λ t. command (texts words.now) ≡ Some (command_for t)) }
    ensures within { IfSome result TaskWithin }
{
    let [name, word, more @ ..] = words else {
        return None;
    };
    if *name == "bulk" {
        let request = sized(word, more)?;
        return Some(Task::OfProgram(request));
    }
    if !can_name_file(word) {
        return None;
    }
    on_file(name, word, more)
}
