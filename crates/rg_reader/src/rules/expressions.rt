//! Reads expressions: operands are joined by levels, from the left (docs/language.md, "Grammar").

ghost use Rattle.std.specs.Prelude.{◌≡◌, ◌≢◌, ◌<◌, ◌≤◌, [], ◌∷◌, length, Some, IfOk, IfErr, OnOk};
ghost use Rattle.rg_tree.specs.Phrases.{the};
ghost use Rattle.rg_tree.specs.Phrases as p;
ghost use Rattle.rg_tree.specs.Table.{next};
ghost use Rattle.rg_reader.specs.Steps.{Halts};
ghost use Rattle.std.specs.Prelude.{ℕ};
ghost use Rattle.rg_tree.specs.Operators.{literal_of};
ghost use Rattle.rg_tree.specs.Rows.Tables.{Tables};
ghost use Rattle.rg_tree.specs.Rows.RowTrees.{expr_of, path_of};
ghost use Rattle.rg_tree.specs.Rows.RowsExist.{IsExprIn, IsPathIn};
ghost use Rattle.rg_reader.specs.Inner.Starts.{primary_start};
ghost use Rattle.rg_reader.specs.Inner.Levels.{chain_at, operand_at};
ghost use Rattle.rg_reader.specs.Inner.Parts.{FoundChain, FoundOperand, FoundNot};
ghost use Rattle.rg_reader.specs.Readings.{FoundExpr};
ghost use Rattle.rg_reader.specs.Inner.Parts.{FoundCmp, FoundUnary, FoundPrimary, FoundIs};
ghost use Rattle.rg_reader.specs.Readings.{FoundIndex};
ghost use Rattle.rg_reader.specs.Inner.Parts.{FoundSomeIndex, index_symbols};

use crate::reader::Reader;
use crate::reader::halt::Halt;
use crate::reader::kinds::{Level, next_comparison, next_operator};
use crate::reader::starts::{PrimaryStart, primary_start};
use rg_base::{Code, Keyword, Kind, Sign};
use rg_tree::{ExprRow, Path};

impl<'a> Reader<'a> {
    /// An expression.
    pub fn expr(&mut self) -> Result<u32, Halt>
        ensures ok { IfOk result (λ e. FoundExpr self.old e self.new) }
        ensures shorter { OnOk result (length self.new.rest < length self.old.rest) }
        ensures fault { IfErr result (λ e. Halts (the p.Expr ∷ []) self.old e self.new) }
    {
        self.chain(Level::Or)
    }

    /// Operands of a level, joined from the left.
    #[cycle(expr)]
    fn chain(&mut self, level: Level) -> Result<u32, Halt>
        ensures ok { IfOk result (λ e. FoundChain level self.old e self.new) }
        ensures shorter { OnOk result (length self.new.rest < length self.old.rest) }
        ensures fault { IfErr result (λ e. Halts (the (chain_at level) ∷ []) self.old e self.new) }
    {
        let mut left = self.operand(level)?;
        while let Some((kind, op)) = next_operator(level, self.next()) {
            self.sign(kind)?;
            let right = self.operand(level)?;
            left = self.add_expr(ExprRow::Binary { op, left, right })?;
        }
        Ok(left)
    }

    /// An operand of a level.
    #[cycle(expr)]
    fn operand(&mut self, level: Level) -> Result<u32, Halt>
        ensures ok { IfOk result (λ e. FoundOperand level self.old e self.new) }
        ensures shorter { OnOk result (length self.new.rest < length self.old.rest) }
        ensures fault { IfErr result
            (λ e. Halts (the (operand_at level) ∷ []) self.old e self.new) }
    {
        match level {
            Level::Or => self.chain(Level::And),
            Level::And => self.negation(),
            Level::Sum => self.chain(Level::Product),
            Level::Product => self.unary(),
        }
    }

    /// `not a`, or a comparison
    #[cycle(expr)]
    fn negation(&mut self) -> Result<u32, Halt>
        ensures ok { IfOk result (λ e. FoundNot self.old e self.new) }
        ensures shorter { OnOk result (length self.new.rest < length self.old.rest) }
        ensures fault { IfErr result (λ e. Halts (the p.Not ∷ []) self.old e self.new) }
    {
        if self.is_next(Kind::Word(Keyword::Not)) {
            self.not_row()
        } else {
            self.comparison()
        }
    }

    /// `not a`
    #[cycle(expr)]
    fn not_row(&mut self) -> Result<u32, Halt>
        requires { next self.old.rest ≡ Some (Kind.Word Keyword.Not) }
        ensures ok { IfOk result (λ e. FoundNot self.old e self.new) }
        ensures shorter { OnOk result (length self.new.rest < length self.old.rest) }
        ensures fault { IfErr result (λ e. Halts (the p.Not ∷ []) self.old e self.new) }
    {
        self.take(Kind::Word(Keyword::Not))?;
        let inner = self.comparison()?;
        let number = self.add_expr(ExprRow::Not(inner))?;
        Ok(number)
    }

    /// `a < b`, or a sum
    #[cycle(expr)]
    fn comparison(&mut self) -> Result<u32, Halt>
        ensures ok { IfOk result (λ e. FoundCmp self.old e self.new) }
        ensures shorter { OnOk result (length self.new.rest < length self.old.rest) }
        ensures fault { IfErr result (λ e. Halts (the p.Cmp ∷ []) self.old e self.new) }
    {
        let left = self.chain(Level::Sum)?;
        let Some((kind, op)) = next_comparison(self.next()) else {
            return Ok(left);
        };
        self.sign(kind)?;
        let right = self.chain(Level::Sum)?;
        let number = self.add_expr(ExprRow::Binary { op, left, right })?;
        Ok(number)
    }

    /// `-a`, or a primary
    #[cycle(expr)]
    fn unary(&mut self) -> Result<u32, Halt>
        ensures ok { IfOk result (λ e. FoundUnary self.old e self.new) }
        ensures shorter { OnOk result (length self.new.rest < length self.old.rest) }
        ensures fault { IfErr result (λ e. Halts (the p.Unary ∷ []) self.old e self.new) }
    {
        if self.is_next(Kind::Mark(Sign::Minus)) {
            self.minus_row()
        } else {
            self.primary()
        }
    }

    /// `-a`
    #[cycle(expr)]
    fn minus_row(&mut self) -> Result<u32, Halt>
        requires { next self.old.rest ≡ Some (Kind.Mark Sign.Minus) }
        ensures ok { IfOk result (λ e. FoundUnary self.old e self.new) }
        ensures shorter { OnOk result (length self.new.rest < length self.old.rest) }
        ensures fault { IfErr result (λ e. Halts (the p.Unary ∷ []) self.old e self.new) }
    {
        self.take(Kind::Mark(Sign::Minus))?;
        let inner = self.primary()?;
        let number = self.add_expr(ExprRow::Neg(inner))?;
        Ok(number)
    }

    /// A literal, an expression in parentheses, a size, or a path and what is asked of it.
    #[cycle(expr)]
    fn primary(&mut self) -> Result<u32, Halt>
        ensures ok { IfOk result (λ e. FoundPrimary self.old e self.new) }
        ensures shorter { OnOk result (length self.new.rest < length self.old.rest) }
        ensures fault { IfErr result (λ e. Halts (the p.Primary ∷ []) self.old e self.new) }
    {
        match primary_start(self.next()) {
            PrimaryStart::Number(value) => self.literal(Kind::Number(value), ExprRow::Int(value)),
            PrimaryStart::True => self.literal(Kind::Word(Keyword::True), ExprRow::Bool(true)),
            PrimaryStart::False => self.literal(Kind::Word(Keyword::False), ExprRow::Bool(false)),
            PrimaryStart::Nil => self.literal(Kind::Word(Keyword::Nil), ExprRow::Nil),
            PrimaryStart::Paren => self.parens(),
            PrimaryStart::Size => self.size_row(),
            PrimaryStart::Path => self.path_value(),
            PrimaryStart::Nothing => Err(Halt::At(Code::Syntax)),
        }
    }

    /// `(a)`, which the tree doesn't keep
    #[cycle(expr)]
    fn parens(&mut self) -> Result<u32, Halt>
        requires { primary_start (next self.old.rest) ≡ PrimaryStart.Paren }
        ensures ok { IfOk result (λ e. FoundPrimary self.old e self.new) }
        ensures shorter { OnOk result (length self.new.rest < length self.old.rest) }
        ensures fault { IfErr result (λ e. Halts (the p.Primary ∷ []) self.old e self.new) }
    {
        self.take(Kind::Mark(Sign::OpenParen))?;
        let inner = self.chain(Level::Or)?;
        self.take(Kind::Mark(Sign::CloseParen))?;
        Ok(inner)
    }

    /// `7`, `true`, `false` or `nil`: a token that is an expression by itself.
    fn literal(&mut self, kind: Kind, row: ExprRow) -> Result<u32, Halt>
        requires next { next self.old.rest ≡ Some kind }
        requires literal { (t : Tables) → literal_of kind ≡ Some (expr_of t row) }
        requires within { (t : Tables) (n : ℕ) → IsExprIn t n row }
        ensures ok { IfOk result (λ e. FoundPrimary self.old e self.new) }
        ensures shorter { OnOk result (length self.new.rest < length self.old.rest) }
        ensures fault { IfErr result (λ e. Halts (the p.Primary ∷ []) self.old e self.new) }
    {
        self.take(kind)?;
        let number = self.add_expr(row)?;
        Ok(number)
    }

    /// `size q`
    fn size_row(&mut self) -> Result<u32, Halt>
        requires { primary_start (next self.old.rest) ≡ PrimaryStart.Size }
        ensures ok { IfOk result (λ e. FoundPrimary self.old e self.new) }
        ensures shorter { OnOk result (length self.new.rest < length self.old.rest) }
        ensures fault { IfErr result (λ e. Halts (the p.Primary ∷ []) self.old e self.new) }
    {
        self.take(Kind::Word(Keyword::Size))?;
        let path = self.path()?;
        let number = self.add_expr(ExprRow::Size(path))?;
        Ok(number)
    }

    /// `q`, `q is nil` or `q[e]`
    #[cycle(expr)]
    fn path_value(&mut self) -> Result<u32, Halt>
        requires { primary_start (next self.old.rest) ≡ PrimaryStart.Path }
        ensures ok { IfOk result (λ e. FoundPrimary self.old e self.new) }
        ensures shorter { OnOk result (length self.new.rest < length self.old.rest) }
        ensures fault { IfErr result (λ e. Halts (the p.Primary ∷ []) self.old e self.new) }
    {
        let path = self.path()?;
        let row = self.behind_path(path)?;
        let number = self.add_expr(row)?;
        Ok(number)
    }

    /// `is nil`, `[e]` or nothing, behind a path
    #[cycle(expr)]
    fn behind_path(&mut self, path: Path) -> Result<ExprRow, Halt>
        requires { IsPathIn self.old.tables path }
        ensures ok { IfOk result
            (λ r. FoundIs (path_of self.old.tables path) self.old r self.new) }
        ensures shorter { OnOk result (length self.new.rest ≤ length self.old.rest) }
        ensures fault { IfErr result (λ e. Halts (the p.Is ∷ []) self.old e self.new) }
    {
        if self.is_next(Kind::Word(Keyword::Is)) {
            self.take(Kind::Word(Keyword::Is))?;
            self.take(Kind::Word(Keyword::Nil))?;
            Ok(ExprRow::IsNil(path))
        } else if self.is_next(Kind::Mark(Sign::OpenBracket)) {
            let index = self.some_index()?;
            Ok(ExprRow::At { path, index })
        } else {
            Ok(ExprRow::Path(path))
        }
    }

    /// `[e]`, or nothing
    pub fn index(&mut self) -> Result<Option<u32>, Halt>
        ensures ok { IfOk result (λ o. FoundIndex self.old o self.new) }
        ensures shorter { OnOk result (length self.new.rest ≤ length self.old.rest) }
        ensures fault { IfErr result (λ e. Halts (the p.At ∷ []) self.old e self.new) }
    {
        if self.is_next(Kind::Mark(Sign::OpenBracket)) {
            let index = self.some_index()?;
            Ok(Some(index))
        } else {
            Ok(None)
        }
    }

    /// `[e]`
    #[cycle(expr)]
    fn some_index(&mut self) -> Result<u32, Halt>
        requires { next self.old.rest ≡ Some (Kind.Mark Sign.OpenBracket) }
        ensures ok { IfOk result (λ e. FoundSomeIndex self.old e self.new) }
        ensures shorter { OnOk result (length self.new.rest < length self.old.rest) }
        ensures fault { IfErr result (λ e. Halts index_symbols self.old e self.new) }
    {
        self.take(Kind::Mark(Sign::OpenBracket))?;
        let inner = self.chain(Level::Or)?;
        self.take(Kind::Mark(Sign::CloseBracket))?;
        Ok(inner)
    }
}
