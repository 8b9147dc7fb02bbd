//! The bytes that were looked at and not taken (docs/language.md, "Input numbers").

ghost use Rattle.std.specs.Prelude.{◌≡◌, ◌<◌, ◌≤◌, true, false, [], ◌++◌, length, take};
ghost use Rattle.std.specs.Prelude.{slice_index, IfOk, OnOk, OnErr, IsOk};
ghost use Rattle.std.specs.Result.{is_err};
ghost use Rattle.std.specs.Option.{option_to_list};
ghost use Rattle.rg_base.specs.Pieces.{is_blank};
ghost use Rattle.rg_io.specs.Content.{Rose};
ghost use Rattle.rg_input.specs.Read.{IsRead};
ghost use Rattle.rg_input.specs.declared.held.Verdict.{Verdict as Saying};
ghost use Rattle.rg_input.specs.Numbers.{Follows, IsSure, AsksFor, Refuses, is_input};

use crate::ahead::Ahead;
use crate::bytes::Bytes;
use crate::number::token_number;
use crate::refusal::{InputFault, NumberRefusal};
use crate::runs::{blank_run, first, is_blank_byte, token_run};
use rg_base::{INPUT_BLANKS, INPUT_TOKEN};
use rg_io::Source;

/// As many blanks as are skipped, and one more.
const MOST_BLANKS: usize = 4_097;

/// As many bytes as a token has, and one more.
const MOST_TOKEN: usize = 21;

/// What comes next.
#[derive(Clone, Copy)]
pub(crate) enum Verdict {
    Number(i64),
    Malformed,
    End,
}

/// The bytes that were looked at and not taken: blanks, the bytes of a token, and the blank behind
/// it.
#[derive(Drop)]
pub(crate) struct Held {
    blanks: Bytes<MOST_BLANKS>,
    token: Bytes<MOST_TOKEN>,
    behind: Option<u8>,
    ghost read: { IsRead blanks token behind },
}

impl Held {
    ghost use Rattle.rg_input.specs.Inner.Held.{looked_at, pending, has_enough, Reads, IsWhole};
    ghost use Rattle.rg_input.specs.Inner.Held.{Says, Settled, says_more, verdict_of};

    /// Nothing was looked at.
    pub(crate) fn new() -> Held
        ensures { looked_at result ≡ [] }
    {
        Held {
            blanks: Bytes::new(),
            token: Bytes::new(),
            behind: None,
        }
    }

    /// Whether no more has to be looked at.
    fn has_enough(&self) -> bool
        ensures { result ≡ has_enough self.now }
    {
        self.behind.is_some() || self.blanks.len() > INPUT_BLANKS || self.token.len() > INPUT_TOKEN
    }

    /// Adds the blanks at the front, and answers how many.
    fn push_blanks(&mut self, bytes: &[u8]) -> usize
        requires short { has_enough self.old ≡ false }
        requires some { 0 < length bytes.now }
        requires no_token { self.old.token ≡ [] }
        requires first { is_blank (slice_index bytes.now 0) ≡ true }
        ensures within { result ≤ length bytes.now }
        ensures looked { looked_at self.new ≡ looked_at self.old ++ take result bytes.now }
        ensures moves { 0 < result }
    {
        let front = first(bytes, MOST_BLANKS - self.blanks.len());
        let n = blank_run(front);
        self.blanks.append(&front[..n]);
        n
    }

    /// Adds the bytes of a token at the front, with the blank behind it, and answers how many.
    fn push_token(&mut self, bytes: &[u8]) -> usize
        requires short { has_enough self.old ≡ false }
        requires some { 0 < length bytes.now }
        requires inside { self.old.token ≡ [] → is_blank (slice_index bytes.now 0) ≡ false }
        ensures within { result ≤ length bytes.now }
        ensures looked { looked_at self.new ≡ looked_at self.old ++ take result bytes.now }
        ensures moves { 0 < result }
    {
        let front = first(bytes, MOST_TOKEN - self.token.len());
        let n = token_run(front);
        self.token.append(&front[..n]);
        if n == front.len() {
            return n;
        }
        self.behind = Some(front[n]);
        n + 1
    }

    /// Adds the bytes at the front that are of one kind, and answers how many.
    fn push(&mut self, bytes: &[u8]) -> usize
        requires short { has_enough self.old ≡ false }
        requires some { 0 < length bytes.now }
        ensures within { result ≤ length bytes.now }
        ensures looked { looked_at self.new ≡ looked_at self.old ++ take result bytes.now }
        ensures moves { 0 < result }
    {
        if self.token.is_empty() && is_blank_byte(bytes[0]) {
            return self.push_blanks(bytes);
        }
        self.push_token(bytes)
    }

    /// Looks at the bytes of one kind that lie ahead.
    fn take_run(&mut self, ahead: &mut Ahead)
        requires short { has_enough self.old ≡ false }
        requires some { 0 < length ahead.old.held }
        ensures kept { pending self.new ahead.new ≡ pending self.old ahead.old }
        ensures nearer { length (looked_at self.old) < length (looked_at self.new) }
    {
        let n = self.push(ahead.bytes());
        ahead.skip(n);
    }

    /// Looks on until there is enough or the input ends.
    fn fill<S: Source>(&mut self, ahead: &mut Ahead, source: &mut S) -> Result<(), InputFault>
        requires { Follows ahead.old (S.left source.old) }
        ensures follows { Follows ahead.new (S.left source.new) }
        ensures reads { Reads (S.left source.old) (S.left source.new)
            (pending self.old ahead.old) (pending self.new ahead.new) }
        ensures whole { OnOk result (IsWhole self.new ahead.new) }
        ensures idle { IsSure (pending self.old ahead.old) →
            IsOk result × (pending self.new ahead.new ≡ pending self.old ahead.old) }
        ensures unasked { IsSure (pending self.old ahead.old) → source.new ≡ source.old }
        ensures asks { AsksFor S.replies (is_err result)
            (pending self.old ahead.old) (pending self.new ahead.new) source.old source.new }
        ensures quiet { OnOk result (S.faults source.new ≡ S.faults source.old) }
        ensures fault { OnErr result (Rose (S.faults source.old) (S.faults source.new)) }
        ensures never_falls { S.faults source.old ≤ S.faults source.new }
    {
        while !self.has_enough() {
            ahead.refill(source)?;
            if ahead.bytes().is_empty() {
                return Ok(());
            }
            self.take_run(ahead);
        }
        Ok(())
    }

    /// What the bytes say.
    fn verdict(&self) -> Verdict
        ensures says { Says self.now result }
        ensures end { result ≡ Verdict.End → has_enough self.now ≡ false }
    {
        if self.blanks.len() > INPUT_BLANKS {
            return Verdict::Malformed;
        }
        if self.token.is_empty() {
            return Verdict::End;
        }
        match token_number(self.token.as_slice()) {
            Some(z) => Verdict::Number(z),
            None => Verdict::Malformed,
        }
    }

    /// Looks on as far as it takes, and says what comes next.
    pub(crate) fn look<S: Source>(
        &mut self,
        ahead: &mut Ahead,
        source: &mut S,
    ) -> Result<Verdict, InputFault>
        requires { Follows ahead.old (S.left source.old) }
        ensures follows { Follows ahead.new (S.left source.new) }

        ensures reads { Reads (S.left source.old) (S.left source.new)
            (pending self.old ahead.old) (pending self.new ahead.new) }
        ensures whole { OnOk result (IsWhole self.new ahead.new) }
        ensures says { IfOk result (Says self.new) }
        ensures settled { IfOk result (λ verdict. Settled verdict (pending self.new ahead.new)) }
        ensures refused { (why : NumberRefusal) → Refuses (pending self.old ahead.old) why →
            (result ≡ Ok (verdict_of why))
            × (pending self.new ahead.new ≡ pending self.old ahead.old) }
        ensures unasked { IsSure (pending self.old ahead.old) → source.new ≡ source.old }
        ensures asks { AsksFor S.replies (is_err result)
            (pending self.old ahead.old) (pending self.new ahead.new) source.old source.new }
        ensures quiet { OnOk result (S.faults source.new ≡ S.faults source.old) }

        ensures fault { OnErr result (Rose (S.faults source.old) (S.faults source.new)) }
        ensures never_falls { S.faults source.old ≤ S.faults source.new }
    {
        if self.has_enough() {
            return Ok(self.verdict());
        }
        self.fill(ahead, source)?;
        Ok(self.verdict())
    }

    /// Whether the bytes are a number, or what is none.
    fn has_more(&self) -> bool
        ensures { (v : Saying) × Says self.now v × (says_more v ≡ result) }
    {
        if self.blanks.len() > INPUT_BLANKS {
            return true;
        }
        if self.token.is_empty() {
            return false;
        }
        true
    }

    /// Looks on as far as it takes, and says whether a number comes next, or what is none.
    pub(crate) fn look_more<S: Source>(
        &mut self,
        ahead: &mut Ahead,
        source: &mut S,
    ) -> Result<bool, InputFault>
        requires { Follows ahead.old (S.left source.old) }
        ensures follows { Follows ahead.new (S.left source.new) }

        ensures reads { Reads (S.left source.old) (S.left source.new)
            (pending self.old ahead.old) (pending self.new ahead.new) }
        ensures whole { OnOk result (IsWhole self.new ahead.new) }
        ensures says { IfOk result (λ b. (v : Saying) × Says self.new v × (says_more v ≡ b)) }
        ensures refused { (why : NumberRefusal) → Refuses (pending self.old ahead.old) why →
            (result ≡ Ok (is_input why))
            × (pending self.new ahead.new ≡ pending self.old ahead.old) }
        ensures unasked { IsSure (pending self.old ahead.old) → source.new ≡ source.old }
        ensures asks { AsksFor S.replies (is_err result)
            (pending self.old ahead.old) (pending self.new ahead.new) source.old source.new }
        ensures quiet { OnOk result (S.faults source.new ≡ S.faults source.old) }

        ensures fault { OnErr result (Rose (S.faults source.old) (S.faults source.new)) }
        ensures never_falls { S.faults source.old ≤ S.faults source.new }
    {
        self.fill(ahead, source)?;
        Ok(self.has_more())
    }

    /// Takes the token with the blanks in front of it.
    pub(crate) fn take_token(&mut self)
        ensures { looked_at self.new ≡ option_to_list self.old.behind }
    {
        self.blanks.clear();
        self.token.clear();
        if let Some(byte) = self.behind {
            self.blanks.push(byte);
            self.behind = None;
        }
    }
}
