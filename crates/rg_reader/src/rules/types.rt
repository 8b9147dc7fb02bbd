//! Reads types (docs/language.md, "Grammar").

ghost use Rattle.std.specs.Prelude.{◌≡◌, ◌<◌, ◌≤◌, [], ◌∷◌, length, Some, IfOk, IfErr, OnOk};
ghost use Rattle.rg_tree.specs.Phrases.{the};
ghost use Rattle.rg_tree.specs.Phrases as p;
ghost use Rattle.rg_tree.specs.Table.{next};
ghost use Rattle.rg_reader.specs.Steps.{Halts};
ghost use Rattle.rg_reader.specs.Inner.Starts.{type_start};
ghost use Rattle.rg_reader.specs.Readings.{FoundCap, FoundManager, FoundType, FoundResult};

use crate::reader::Reader;
use crate::reader::halt::Halt;
use crate::reader::kinds::{next_cap, next_manager};
use crate::reader::starts::{TypeStart, type_start};
use rg_base::{Cap, Code, Keyword, Kind, Manager, Sign};
use rg_tree::TypeRow;

impl<'a> Reader<'a> {
    /// `mut`, `tmp`, `paused`, `imm` or `iso`
    pub fn cap(&mut self) -> Result<Cap, Halt>
        ensures ok { IfOk result (λ a. FoundCap self.old a self.new) }
        ensures shorter { OnOk result (length self.new.rest < length self.old.rest) }
        ensures fault { IfErr result (λ e. Halts (the p.Cap ∷ []) self.old e self.new) }
    {
        let Some((kind, cap)) = next_cap(self.next()) else {
            return Err(Halt::At(Code::Syntax));
        };
        self.take(kind)?;
        Ok(cap)
    }

    /// `arena`, `count` or `trace`
    pub fn manager(&mut self) -> Result<Manager, Halt>
        ensures ok { IfOk result (λ m. FoundManager self.old m self.new) }
        ensures shorter { OnOk result (length self.new.rest < length self.old.rest) }
        ensures fault { IfErr result (λ e. Halts (the p.Manager ∷ []) self.old e self.new) }
    {
        let Some((kind, manager)) = next_manager(self.next()) else {
            return Err(Halt::At(Code::Syntax));
        };
        self.take(kind)?;
        Ok(manager)
    }

    /// `int`, `bool`, or a capability and a class
    pub fn ty(&mut self) -> Result<TypeRow, Halt>
        ensures ok { IfOk result (λ y. FoundType self.old y self.new) }
        ensures shorter { OnOk result (length self.new.rest < length self.old.rest) }
        ensures fault { IfErr result (λ e. Halts (the p.Type' ∷ []) self.old e self.new) }
    {
        match type_start(self.next()) {
            TypeStart::Int => self.int_type(),
            TypeStart::Bool => self.bool_type(),
            TypeStart::Ref => self.ref_type(),
            TypeStart::Nothing => Err(Halt::At(Code::Syntax)),
        }
    }

    /// `int`
    fn int_type(&mut self) -> Result<TypeRow, Halt>
        requires { next self.old.rest ≡ Some (Kind.Word Keyword.Int) }
        ensures ok { IfOk result (λ y. FoundType self.old y self.new) }
        ensures shorter { OnOk result (length self.new.rest < length self.old.rest) }
        ensures fault { IfErr result (λ e. Halts (the p.Type' ∷ []) self.old e self.new) }
    {
        self.take(Kind::Word(Keyword::Int))?;
        Ok(TypeRow::Int)
    }

    /// `bool`
    fn bool_type(&mut self) -> Result<TypeRow, Halt>
        requires { next self.old.rest ≡ Some (Kind.Word Keyword.Bool) }
        ensures ok { IfOk result (λ y. FoundType self.old y self.new) }
        ensures shorter { OnOk result (length self.new.rest < length self.old.rest) }
        ensures fault { IfErr result (λ e. Halts (the p.Type' ∷ []) self.old e self.new) }
    {
        self.take(Kind::Word(Keyword::Bool))?;
        Ok(TypeRow::Bool)
    }

    /// `mut C`
    fn ref_type(&mut self) -> Result<TypeRow, Halt>
        requires { type_start (next self.old.rest) ≡ TypeStart.Ref }
        ensures ok { IfOk result (λ y. FoundType self.old y self.new) }
        ensures shorter { OnOk result (length self.new.rest < length self.old.rest) }
        ensures fault { IfErr result (λ e. Halts (the p.Type' ∷ []) self.old e self.new) }
    {
        let cap = self.cap()?;
        let name = self.name()?;
        Ok(TypeRow::Ref { cap, name })
    }

    /// `: T`, or nothing in front of `{`
    pub fn result(&mut self) -> Result<Option<TypeRow>, Halt>
        ensures ok { IfOk result (λ o. FoundResult self.old o self.new) }
        ensures shorter { OnOk result (length self.new.rest ≤ length self.old.rest) }
        ensures fault { IfErr result (λ e. Halts (the p.Result ∷ []) self.old e self.new) }
    {
        if self.is_next(Kind::Mark(Sign::Colon)) {
            self.some_result()
        } else if self.is_next(Kind::Mark(Sign::OpenBrace)) {
            Ok(None)
        } else {
            Err(Halt::At(Code::Syntax))
        }
    }

    /// `: T`
    fn some_result(&mut self) -> Result<Option<TypeRow>, Halt>
        requires { next self.old.rest ≡ Some (Kind.Mark Sign.Colon) }
        ensures ok { IfOk result (λ o. FoundResult self.old o self.new) }
        ensures shorter { OnOk result (length self.new.rest ≤ length self.old.rest) }
        ensures fault { IfErr result (λ e. Halts (the p.Result ∷ []) self.old e self.new) }
    {
        self.take(Kind::Mark(Sign::Colon))?;
        let ty = self.ty()?;
        Ok(Some(ty))
    }
}
