//! Reads paths and calls (docs/language.md, "Grammar").

ghost use Rattle.std.specs.Prelude.{◌≡◌, ◌≢◌, ◌<◌, ◌≤◌, [], ◌∷◌, length, Some, IfOk, IfErr, OnOk};
ghost use Rattle.rg_tree.specs.Phrases.{the};
ghost use Rattle.rg_tree.specs.Phrases as p;
ghost use Rattle.rg_tree.specs.Table.{next};
ghost use Rattle.rg_reader.specs.Steps.{Halts};
ghost use Rattle.rg_reader.specs.Inner.Starts.{base_start};
ghost use Rattle.rg_reader.specs.Readings.{FoundPath, FoundCall};
ghost use Rattle.rg_reader.specs.Inner.Parts.{FoundFields, FoundCallRest};
ghost use Rattle.rg_reader.specs.Inner.Parts.{FoundBase, FoundArgs, FoundCallArgs};
ghost use Rattle.std.specs.Prelude.{IfSome, option_map};
ghost use Rattle.rg_tree.specs.Rows.Tables.{name_at};
ghost use Rattle.rg_tree.specs.Rows.RowsExist.{IsNameIn};

use crate::reader::Reader;
use crate::reader::builder::keep;
use crate::reader::halt::Halt;
use crate::reader::starts::{BaseStart, base_start};
use rg_base::{Code, Keyword, Kind, Sign};
use rg_tree::{CallRow, Path, Span};

impl<'a> Reader<'a> {
    /// `x.f.g` or `self.f.g`
    pub fn path(&mut self) -> Result<Path, Halt>
        ensures ok { IfOk result (λ q. FoundPath self.old q self.new) }
        ensures shorter { OnOk result (length self.new.rest < length self.old.rest) }
        ensures fault { IfErr result (λ e. Halts (the p.Path ∷ []) self.old e self.new) }
    {
        match base_start(self.next()) {
            BaseStart::Name => self.name_path(),
            BaseStart::SelfWord => self.self_path(),
            BaseStart::Nothing => Err(Halt::At(Code::Syntax)),
        }
    }

    /// `x.f.g`
    fn name_path(&mut self) -> Result<Path, Halt>
        requires { base_start (next self.old.rest) ≡ BaseStart.Name }
        ensures ok { IfOk result (λ q. FoundPath self.old q self.new) }
        ensures shorter { OnOk result (length self.new.rest < length self.old.rest) }
        ensures fault { IfErr result (λ e. Halts (the p.Path ∷ []) self.old e self.new) }
    {
        let name = self.name()?;
        let fields = self.fields()?;
        Ok(Path {
            base: Some(name),
            fields,
        })
    }

    /// `self.f.g`
    fn self_path(&mut self) -> Result<Path, Halt>
        requires { base_start (next self.old.rest) ≡ BaseStart.SelfWord }
        ensures ok { IfOk result (λ q. FoundPath self.old q self.new) }
        ensures shorter { OnOk result (length self.new.rest < length self.old.rest) }
        ensures fault { IfErr result (λ e. Halts (the p.Path ∷ []) self.old e self.new) }
    {
        self.take(Kind::Word(Keyword::SelfWord))?;
        let fields = self.fields()?;
        Ok(Path { base: None, fields })
    }

    /// `.f.g`
    fn fields(&mut self) -> Result<Span, Halt>
        ensures ok { IfOk result (λ s. FoundFields self.old s self.new) }
        ensures shorter { OnOk result (length self.new.rest ≤ length self.old.rest) }
        ensures fault { IfErr result (λ e. Halts (the p.Fields ∷ []) self.old e self.new) }
    {
        let mut names = Vec::new(self.alloc());
        while self.is_next(Kind::Mark(Sign::Dot)) {
            self.take(Kind::Mark(Sign::Dot))?;
            let name = self.name()?;
            keep(&mut names, name)?;
        }
        let span = self.add_order(&names)?;
        Ok(span)
    }

    /// `call q.m(a, b)`
    pub fn call(&mut self) -> Result<CallRow, Halt>
        requires { next self.old.rest ≡ Some (Kind.Word Keyword.Call) }
        ensures ok { IfOk result (λ a. FoundCall self.old a self.new) }
        ensures shorter { OnOk result (length self.new.rest < length self.old.rest) }
        ensures fault { IfErr result (λ e. Halts (the p.Call ∷ []) self.old e self.new) }
    {
        self.take(Kind::Word(Keyword::Call))?;
        let base = self.base()?;
        self.take(Kind::Mark(Sign::Dot))?;
        let name = self.name()?;
        let call = self.call_rest(base, name)?;
        Ok(call)
    }

    /// `.g.m(a, b)` or `(a, b)` behind the first name of a call.
    fn call_rest(&mut self, base: Option<u32>, first: u32) -> Result<CallRow, Halt>
        requires base { IfSome base (IsNameIn self.old.tables) }
        requires first { IsNameIn self.old.tables first }
        ensures ok { IfOk result (λ a. FoundCallRest
            (option_map (name_at self.old.tables) base) (name_at self.old.tables first)
            self.old a self.new) }
        ensures shorter { OnOk result (length self.new.rest < length self.old.rest) }
        ensures fault { IfErr result (λ e. Halts (the p.CallRest ∷ []) self.old e self.new) }
    {
        let mut names = Vec::new(self.alloc());
        let mut method = first;
        while self.is_next(Kind::Mark(Sign::Dot)) {
            keep(&mut names, method)?;
            self.take(Kind::Mark(Sign::Dot))?;
            method = self.name()?;
        }
        let fields = self.add_order(&names)?;
        let args = self.call_args()?;
        let path = Path { base, fields };
        Ok(CallRow { path, method, args })
    }

    /// `(a, b)`
    fn call_args(&mut self) -> Result<Span, Halt>
        requires { next self.old.rest ≢ Some (Kind.Mark Sign.Dot) }
        ensures ok { IfOk result (λ s. FoundCallArgs self.old s self.new) }
        ensures shorter { OnOk result (length self.new.rest < length self.old.rest) }
        ensures fault { IfErr result (λ e. Halts (the p.CallRest ∷ []) self.old e self.new) }
    {
        if self.is_next(Kind::Mark(Sign::OpenParen)) {
            self.enclosed_args()
        } else {
            Err(Halt::At(Code::Syntax))
        }
    }

    /// `(a, b)`
    fn enclosed_args(&mut self) -> Result<Span, Halt>
        requires { next self.old.rest ≡ Some (Kind.Mark Sign.OpenParen) }
        ensures ok { IfOk result (λ s. FoundCallArgs self.old s self.new) }
        ensures shorter { OnOk result (length self.new.rest < length self.old.rest) }
        ensures fault { IfErr result (λ e. Halts (the p.CallRest ∷ []) self.old e self.new) }
    {
        self.take(Kind::Mark(Sign::OpenParen))?;
        let args = self.args()?;
        self.take(Kind::Mark(Sign::CloseParen))?;
        Ok(args)
    }

    /// `x` or `self`
    fn base(&mut self) -> Result<Option<u32>, Halt>
        ensures ok { IfOk result (λ b. FoundBase self.old b self.new) }
        ensures shorter { OnOk result (length self.new.rest < length self.old.rest) }
        ensures fault { IfErr result (λ e. Halts (the p.CallBase ∷ []) self.old e self.new) }
    {
        match base_start(self.next()) {
            BaseStart::Name => self.name_base(),
            BaseStart::SelfWord => self.self_base(),
            BaseStart::Nothing => Err(Halt::At(Code::Syntax)),
        }
    }

    /// `x`
    fn name_base(&mut self) -> Result<Option<u32>, Halt>
        requires { base_start (next self.old.rest) ≡ BaseStart.Name }
        ensures ok { IfOk result (λ b. FoundBase self.old b self.new) }
        ensures shorter { OnOk result (length self.new.rest < length self.old.rest) }
        ensures fault { IfErr result (λ e. Halts (the p.CallBase ∷ []) self.old e self.new) }
    {
        let name = self.name()?;
        Ok(Some(name))
    }

    /// `self`
    fn self_base(&mut self) -> Result<Option<u32>, Halt>
        requires { base_start (next self.old.rest) ≡ BaseStart.SelfWord }
        ensures ok { IfOk result (λ b. FoundBase self.old b self.new) }
        ensures shorter { OnOk result (length self.new.rest < length self.old.rest) }
        ensures fault { IfErr result (λ e. Halts (the p.CallBase ∷ []) self.old e self.new) }
    {
        self.take(Kind::Word(Keyword::SelfWord))?;
        Ok(None)
    }

    /// `a, b`
    fn args(&mut self) -> Result<Span, Halt>
        ensures ok { IfOk result (λ s. FoundArgs self.old s self.new) }
        ensures shorter { OnOk result (length self.new.rest ≤ length self.old.rest) }
        ensures fault { IfErr result (λ e. Halts (the p.Args ∷ []) self.old e self.new) }
    {
        if self.is_next(Kind::Mark(Sign::CloseParen)) {
            self.no_args()
        } else {
            self.some_args()
        }
    }

    /// Nothing.
    fn no_args(&mut self) -> Result<Span, Halt>
        requires { next self.old.rest ≡ Some (Kind.Mark Sign.CloseParen) }
        ensures ok { IfOk result (λ s. FoundArgs self.old s self.new) }
        ensures shorter { OnOk result (length self.new.rest ≤ length self.old.rest) }
        ensures fault { IfErr result (λ e. Halts (the p.Args ∷ []) self.old e self.new) }
    {
        let span = self.add_order(&[])?;
        Ok(span)
    }

    /// `a, b`, at least one
    fn some_args(&mut self) -> Result<Span, Halt>
        requires { next self.old.rest ≢ Some (Kind.Mark Sign.CloseParen) }
        ensures ok { IfOk result (λ s. FoundArgs self.old s self.new) }
        ensures shorter { OnOk result (length self.new.rest ≤ length self.old.rest) }
        ensures fault { IfErr result (λ e. Halts (the p.Args ∷ []) self.old e self.new) }
    {
        let mut numbers = Vec::new(self.alloc());
        let first = self.expr()?;
        keep(&mut numbers, first)?;
        while self.is_next(Kind::Mark(Sign::Comma)) {
            self.take(Kind::Mark(Sign::Comma))?;
            let arg = self.expr()?;
            keep(&mut numbers, arg)?;
        }
        self.closes()?;
        let span = self.add_order(&numbers)?;
        Ok(span)
    }
}
