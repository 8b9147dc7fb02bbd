//! The steps of `read` and `more` (docs/language.md, "Steps").

ghost use Rattle.std.specs.Prelude.{◌≡◌, ◌≢◌, ◌≤◌, Err};
ghost use Rattle.rg_io.specs.Content.{Rose};
ghost use Rattle.rg_input.specs.Numbers.{AsksFor, Follows, OnInput, Pending};
ghost use Rattle.rg_input.specs.Numbers.{is_fault, is_input_fault};
ghost use Rattle.rg_values.specs.Fits.{PartsFit};
ghost use Rattle.rg_plain.specs.Inner.Inputs.{Gave, StepOn, refused_by, right_for};
ghost use Rattle.rg_values.specs.Spots.{LeftFits, statement_of};
ghost use Rattle.rg_values.specs.Steps.{Stands};
ghost use Rattle.rg_values.specs.Kept.{kept_of};

use rg_base::{Outcome, Trap, Val};
use rg_input::{InputFault, NumberRefusal, Numbers};
use rg_io::Source;
use rg_names::Book;
use rg_values::{Assignment, Parts, Refusal, advance, aim_of, ended, make_room, put};

/// What is asked of the input.
#[derive(Clone, Copy)]
pub enum Wanted {
    /// `read`: the next number, which is taken
    Number,
    /// `more`: whether anything but blanks is left
    More,
}

/// How a step ends that has no number.
fn refused(refusal: NumberRefusal, line: u64) -> Outcome
    ensures { result ≡ refused_by refusal line }
{
    match refusal {
        NumberRefusal::End => Outcome::Trap {
            kind: Trap::End,
            line,
        },
        NumberRefusal::Input => Outcome::Trap {
            kind: Trap::Input,
            line,
        },
        NumberRefusal::InputFault => Outcome::InputFault,
    }
}

/// Asks the input for a value. A refusal takes nothing.
fn fetch<S: Source>(
    wanted: Wanted,
    numbers: &mut Numbers,
    source: &mut S,
) -> Result<Val, NumberRefusal>
    requires { Follows numbers.old (S.left source.old) }
    ensures gave { OnInput numbers.old numbers.new (S.left source.old) (S.left source.new)
        (Gave wanted result) }
    ensures follows { Follows numbers.new (S.left source.new) }
    ensures asks { (n : Pending) ×
        AsksFor S.replies (is_fault result) numbers.old n source.old source.new }
    ensures fault { result ≡ Err NumberRefusal.InputFault →
        Rose (S.faults source.old) (S.faults source.new) }
    ensures no_fault { result ≢ Err NumberRefusal.InputFault →
        S.faults source.new ≡ S.faults source.old }
    ensures never_falls { S.faults source.old ≤ S.faults source.new }
{
    match wanted {
        Wanted::Number => match numbers.next(source) {
            Ok(z) => Ok(Val::Int(z)),
            Err(refusal) => Err(refusal),
        },
        Wanted::More => match numbers.more(source) {
            Ok(b) => Ok(Val::Bool(b)),
            Err(InputFault) => Err(NumberRefusal::InputFault),
        },
    }
}

/// Takes what is asked of the input.
pub(crate) fn input_step<S: Source>(
    book: &Book,
    m: &mut Parts,
    to: Assignment,
    wanted: Wanted,
    numbers: &mut Numbers,
    source: &mut S,
) -> Outcome
    requires stands { Stands book.now.program m.old to.at (statement_of book.now.program to.left
        (right_for wanted)) }
    requires left { LeftFits book.now.program to.left }
    requires follows { Follows numbers.old (S.left source.old) }

    ensures step { OnInput numbers.old numbers.new (S.left source.old) (S.left source.new)
        (StepOn book.now.program (kept_of m.old) (kept_of m.new) result) }
    ensures fit { PartsFit book.now.program m.new }

    ensures follows { Follows numbers.new (S.left source.new) }
    ensures asks { (n : Pending) ×
        AsksFor S.replies (is_input_fault result) numbers.old n source.old source.new }
    ensures fault { result ≡ Outcome.InputFault → Rose (S.faults source.old) (S.faults source.new) }
    ensures no_fault { result ≢ Outcome.InputFault → S.faults source.new ≡ S.faults source.old }
    ensures never_falls { S.faults source.old ≤ S.faults source.new }
{
    let aim = match aim_of(book, m, to.left) {
        Ok(aim) => aim,
        Err(kind) => return ended(Refusal::Trap(kind), to.at.line),
    };
    let Ok(()) = make_room(book, m, aim) else {
        return Outcome::Memory;
    };
    let value = match fetch(wanted, numbers, source) {
        Ok(value) => value,
        Err(refusal) => return refused(refusal, to.at.line),
    };
    advance(book, &mut m.items, to.at.span, to.at.number);
    put(book, m, aim, value);
    Outcome::Running
}
