//! The rows that are added to the program on the way: nothing is read, and all older rows stay
//! (docs/language.md, "The tree").

ghost use Rattle.std.specs.Prelude.{◌≡◌, ◌≤◌, [], ◌∷◌, ◌++◌, length, IfOk, IfErr, OnOk};
ghost use Rattle.rg_tree.specs.Rows.RowTrees.{expr_at, expr_of, stmt_at, stmt_of, param_at};
ghost use Rattle.rg_tree.specs.Rows.RowTrees.{param_of, member_at, member_of, block_of, program_of};
ghost use Rattle.rg_tree.specs.Rows.RowsExist.{IsExprIn, IsStmtIn, IsParamIn, IsMemberIn};
ghost use Rattle.rg_tree.specs.Rows.RowsExist.{IsClassIn, IsBlockIn, IsExprNumber, IsStmtNumber};
ghost use Rattle.rg_tree.specs.Adds.{Means};
ghost use Rattle.rg_tree.specs.Rows.RowsExist.{IsParamNumber, IsMemberNumber};
ghost use Rattle.rg_reader.specs.Steps.{Kept};
ghost use Rattle.rg_reader.specs.Steps.{Classed};
ghost use Rattle.rg_reader.specs.Lists.{numbers_of, IsListed};

use crate::reader::Reader;
use crate::reader::halt::Halt;
use rg_base::Manager;
use rg_tree::{ClassRow, ExprRow, MemberRow, ParamRow, Span, StmtRow};

/// Puts a number behind others.
pub fn keep(numbers: &mut Vec<u32>, number: u32) -> Result<(), Halt>
    ensures ok { OnOk result (numbers.new.items ≡ numbers.old.items ++ number ∷ []) }
    ensures fault { IfErr result (λ e. e ≡ Halt.Memory) }
{
    match numbers.push(number) {
        Ok(()) => Ok(()),
        Err(_) => Err(Halt::Memory),
    }
}

impl<'a> Reader<'a> {
    /// Adds an expression, and gives its number.
    pub(crate) fn add_expr(&mut self, row: ExprRow) -> Result<u32, Halt>
        requires { IsExprIn self.old.tables (length self.old.tables.exprs) row }
        ensures kept { OnOk result (Kept self.old self.new) }
        ensures means { IfOk result (λ n.
            Means expr_at IsExprNumber self.new.tables n (expr_of self.old.tables row)) }
        ensures shorter { OnOk result (length self.new.rest ≤ length self.old.rest) }
        ensures fault { IfErr result (λ e. e ≡ Halt.Memory) }
    {
        let Ok(number) = self.program.add_expr(row) else {
            return Err(Halt::Memory);
        };
        Ok(number)
    }

    /// Adds a statement, and gives its number.
    pub fn add_stmt(&mut self, row: StmtRow) -> Result<u32, Halt>
        requires { IsStmtIn self.old.tables (length self.old.tables.stmts) row }
        ensures kept { OnOk result (Kept self.old self.new) }
        ensures means { IfOk result (λ n.
            Means stmt_at IsStmtNumber self.new.tables n (stmt_of self.old.tables row)) }
        ensures shorter { OnOk result (length self.new.rest ≤ length self.old.rest) }
        ensures fault { IfErr result (λ e. e ≡ Halt.Memory) }
    {
        let Ok(number) = self.program.add_stmt(row) else {
            return Err(Halt::Memory);
        };
        Ok(number)
    }

    /// Adds a parameter, and gives its number.
    pub fn add_param(&mut self, row: ParamRow) -> Result<u32, Halt>
        requires { IsParamIn self.old.tables row }
        ensures kept { OnOk result (Kept self.old self.new) }
        ensures means { IfOk result (λ n.
            Means param_at IsParamNumber self.new.tables n (param_of self.old.tables row)) }
        ensures shorter { OnOk result (length self.new.rest ≤ length self.old.rest) }
        ensures fault { IfErr result (λ e. e ≡ Halt.Memory) }
    {
        let Ok(number) = self.program.add_param(row) else {
            return Err(Halt::Memory);
        };
        Ok(number)
    }

    /// Adds a member, and gives its number.
    pub fn add_member(&mut self, row: MemberRow) -> Result<u32, Halt>
        requires { IsMemberIn self.old.tables row }
        ensures kept { OnOk result (Kept self.old self.new) }
        ensures means { IfOk result (λ n.
            Means member_at IsMemberNumber self.new.tables n (member_of self.old.tables row)) }
        ensures shorter { OnOk result (length self.new.rest ≤ length self.old.rest) }
        ensures fault { IfErr result (λ e. e ≡ Halt.Memory) }
    {
        let Ok(number) = self.program.add_member(row) else {
            return Err(Halt::Memory);
        };
        Ok(number)
    }

    /// Keeps a list of numbers, and gives where it is.
    pub fn add_order(&mut self, numbers: &[u32]) -> Result<Span, Halt>
        ensures kept { OnOk result (Kept self.old self.new) }
        ensures means { IfOk result (λ s.
            Means numbers_of IsListed self.new.tables s numbers.now) }
        ensures shorter { OnOk result (length self.new.rest ≤ length self.old.rest) }
        ensures fault { IfErr result (λ e. e ≡ Halt.Memory) }
    {
        let span = self.program.add_order(numbers)?;
        Ok(span)
    }

    /// Adds a class.
    pub fn add_class(&mut self, row: ClassRow) -> Result<(), Halt>
        requires { IsClassIn self.old.tables row }
        ensures classed { OnOk result (Classed self.old row self.new) }
        ensures shorter { OnOk result (length self.new.rest ≤ length self.old.rest) }
        ensures fault { IfErr result (λ e. e ≡ Halt.Memory) }
    {
        let _number = self.program.add_class(row)?;
        Ok(())
    }

    /// Gives main its manager, its body and the line of its word.
    pub fn set_main(&mut self, manager: Manager, body: Span, line: u64)
        requires { IsBlockIn self.old.tables body }
        ensures { program_of self.new.tables ≡ record (program_of self.old.tables)
            { manager = manager; body = block_of self.old.tables body; line = line } }
    {
        self.program.set_main(manager, body, line);
    }
}
