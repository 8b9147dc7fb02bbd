//! What is read from a program (docs/language.md, "The tree").

ghost use Rattle.std.specs.Prelude.{◌≡◌, ◌<◌, All, length, map, Some, slice_get};

use super::Program;
use crate::rows::{ClassRow, ExprRow, MemberRow, ParamRow, Span, StmtRow};
use crate::table::row_at;
use rg_base::Manager;

impl Program {
    ghost use Rattle.rg_tree.specs.Rows.Tables.{number_of, name_at, numbers_in};
    ghost use Rattle.rg_tree.specs.Rows.RowTrees.{expr_at, expr_of, stmt_at, stmt_of, param_at};
    ghost use Rattle.rg_tree.specs.Rows.RowTrees.{param_of, member_at, member_of, classes_of};
    ghost use Rattle.rg_tree.specs.Rows.RowTrees.{class_of, block_of, program_of};
    ghost use Rattle.rg_tree.specs.Rows.RowsExist.{AreRows, IsWithin, IsBlockIn, IsExprIn};
    ghost use Rattle.rg_tree.specs.Rows.RowsExist.{IsStmtIn, IsParamIn, IsMemberIn, IsClassIn};

    /// The name of a number.
    pub fn name(&self, i: u32) -> &[u8]
        requires { i < length self.now.names }
        ensures { result.now ≡ name_at self.now i }
    {
        self.names.name(i)
    }

    /// The numbers of a span.
    pub fn order(&self, s: Span) -> &[u32]
        requires { IsWithin self.now s }
        ensures { result.now ≡ numbers_in self.now s }
    {
        &self.numbers[s.from as usize..s.to as usize]
    }

    /// The parameter of a number.
    pub fn param(&self, i: u32) -> ParamRow
        requires { i < length self.now.params }
        ensures row { slice_get self.now.params i ≡ Some result }
        ensures tree { param_at self.now i ≡ param_of self.now result }
        ensures below { IsParamIn self.now result }
    {
        row_at(&self.params, i)
    }

    /// The member of a number.
    pub fn member(&self, i: u32) -> MemberRow
        requires { i < length self.now.members }
        ensures row { slice_get self.now.members i ≡ Some result }
        ensures tree { member_at self.now i ≡ member_of self.now result }
        ensures below { IsMemberIn self.now result }
    {
        row_at(&self.members, i)
    }

    /// The class of a number.
    pub fn class(&self, i: u32) -> ClassRow
        requires { i < length self.now.classes }
        ensures row { slice_get self.now.classes i ≡ Some result }
        ensures tree { slice_get (classes_of self.now) i ≡ Some (class_of self.now result) }
        ensures below { IsClassIn self.now result }
    {
        row_at(&self.classes, i)
    }

    /// The members of a class, of which an array class has none.
    pub fn members_of(&self, class: ClassRow) -> &[u32]
        requires { IsClassIn self.now class }
        ensures tree { map (member_at self.now) result.now ≡ (class_of self.now class).members }
        ensures below { All (λ k. k < length self.now.members) result.now }
    {
        match class.element {
            None => self.order(class.members),
            Some(_) => &[],
        }
    }

    /// The statement of a number. The statements within it come before it.
    pub fn stmt(&self, i: u32) -> StmtRow
        requires { i < length self.now.stmts }
        ensures row { slice_get self.now.stmts i ≡ Some result }
        ensures tree { stmt_at self.now i ≡ stmt_of self.now result }
        ensures below { IsStmtIn self.now i result }
    {
        row_at(&self.stmts, i)
    }

    /// The expression of a number. Its operands come before it.
    pub fn expr(&self, i: u32) -> ExprRow
        requires { i < length self.now.exprs }
        ensures row { slice_get self.now.exprs i ≡ Some result }
        ensures tree { expr_at self.now i ≡ expr_of self.now result }
        ensures below { IsExprIn self.now i result }
    {
        row_at(&self.exprs, i)
    }

    /// The number of classes. That the tables are those of a program is said here.
    pub fn class_count(&self) -> u32
        ensures count { result ≡ length self.now.classes }
        ensures trees { result ≡ length (classes_of self.now) }
        ensures whole { AreRows self.now }
    {
        self.classes.len() as u32
    }

    /// The manager of main.
    pub fn main_manager(&self) -> Manager
        ensures { result ≡ self.now.manager }
    {
        self.manager
    }

    /// The body of main.
    pub fn main_body(&self) -> Span
        ensures row { result ≡ self.now.body }
        ensures below { IsBlockIn self.now result }
    {
        self.body
    }

    /// The line of the word `main`.
    pub fn main_line(&self) -> u64
        ensures { result ≡ self.now.line }
    {
        self.line
    }
}
