//! What is added to a program: each call leaves all that was there before (docs/language.md, "The
//! tree").

ghost use Rattle.std.specs.Prelude.{◌≡◌, ◌<◌, ◌∷◌, [], ◌++◌, length, Some, IfOk, IsOk, IsSome};
ghost use Rattle.std.specs.Prelude.{OnOk, OnErr};

use super::Program;
use crate::rows::{ClassRow, ExprRow, MemberRow, ParamRow, Span, StmtRow};
use crate::table::{push_numbers, push_row};
use rg_base::{Manager, Memory};

impl Program {
    ghost use Rattle.rg_tree.specs.Rows.Tables.{name_at, number_of, with_name};
    ghost use Rattle.rg_tree.specs.Rows.RowTrees.{expr_at, expr_of, stmt_at, stmt_of, param_at};
    ghost use Rattle.rg_tree.specs.Rows.RowTrees.{param_of, member_at, member_of, class_of};
    ghost use Rattle.rg_tree.specs.Rows.RowTrees.{classes_of, block_of, program_of};
    ghost use Rattle.rg_tree.specs.Rows.RowsExist.{Holds, IsBlockIn, IsExprIn, IsStmtIn, IsParamIn};
    ghost use Rattle.rg_tree.specs.Rows.RowsExist.{IsMemberIn, IsClassIn};
    ghost use Rattle.rg_tree.specs.Keeps.{Keeps};

    /// The number of a name: the same for equal bytes. A name that is there takes no memory.
    pub fn add_name(&mut self, bytes: &[u8]) -> Result<u32, Memory>
        ensures number { IfOk result (λ n. number_of self.new.names bytes.now ≡ Some n) }
        ensures name { IfOk result (λ n. name_at self.new n ≡ bytes.now) }
        ensures there { IfOk result (λ n. n < length self.new.names) }
        ensures known { IsSome (number_of self.old.names bytes.now) → IsOk result }

        ensures names { OnOk result (self.new
            ≡ record self.old { names = with_name self.old.names bytes.now }) }
        ensures keeps { Keeps self.old self.new }
        ensures program { program_of self.new ≡ program_of self.old }
        ensures err { OnErr result (self.new ≡ self.old) }
    {
        let number = self.names.add(bytes)?;
        Ok(number)
    }

    /// Keeps a list of numbers, and answers where it is.
    pub fn add_order(&mut self, numbers: &[u32]) -> Result<Span, Memory>
        ensures span { IfOk result (λ s. Holds self.new s numbers.now) }

        ensures numbers { OnOk result (self.new
            ≡ record self.old { numbers = self.old.numbers ++ numbers.now }) }
        ensures keeps { Keeps self.old self.new }
        ensures program { program_of self.new ≡ program_of self.old }
        ensures err { OnErr result (self.new ≡ self.old) }
    {
        let span = push_numbers(&mut self.numbers, numbers)?;
        Ok(span)
    }

    /// Adds a parameter, whose names are there, and answers its number.
    pub fn add_param(&mut self, row: ParamRow) -> Result<u32, Memory>
        requires { IsParamIn self.old row }

        ensures number { IfOk result (λ n. n ≡ length self.old.params) }
        ensures tree { IfOk result (λ n. param_at self.new n ≡ param_of self.old row) }

        ensures row { OnOk result (self.new
            ≡ record self.old { params = self.old.params ++ row ∷ [] }) }
        ensures keeps { Keeps self.old self.new }
        ensures program { program_of self.new ≡ program_of self.old }
        ensures err { OnErr result (self.new ≡ self.old) }
    {
        let number = push_row(&mut self.params, row)?;
        Ok(number)
    }

    /// Adds a member, whose names, parameters and body are there, and answers its number.
    pub fn add_member(&mut self, row: MemberRow) -> Result<u32, Memory>
        requires { IsMemberIn self.old row }

        ensures number { IfOk result (λ n. n ≡ length self.old.members) }
        ensures tree { IfOk result (λ n. member_at self.new n ≡ member_of self.old row) }

        ensures row { OnOk result (self.new
            ≡ record self.old { members = self.old.members ++ row ∷ [] }) }
        ensures keeps { Keeps self.old self.new }
        ensures program { program_of self.new ≡ program_of self.old }
        ensures err { OnErr result (self.new ≡ self.old) }
    {
        let number = push_row(&mut self.members, row)?;
        Ok(number)
    }

    /// Adds a class, whose name and members are there, and answers its number.
    pub fn add_class(&mut self, row: ClassRow) -> Result<u32, Memory>
        requires { IsClassIn self.old row }

        ensures number { IfOk result (λ n. n ≡ length self.old.classes) }

        ensures row { OnOk result (self.new
            ≡ record self.old { classes = self.old.classes ++ row ∷ [] }) }
        ensures keeps { Keeps self.old self.new }
        ensures program { OnOk result (program_of self.new
            ≡ record (program_of self.old)
            { classes = classes_of self.old ++ class_of self.old row ∷ [] }) }
        ensures err { OnErr result (self.new ≡ self.old) }
    {
        let number = push_row(&mut self.classes, row)?;
        Ok(number)
    }

    /// Adds a statement, and answers its number. Its names, its expressions and the statements
    /// within it are there.
    pub fn add_stmt(&mut self, row: StmtRow) -> Result<u32, Memory>
        requires { IsStmtIn self.old (length self.old.stmts) row }

        ensures number { IfOk result (λ n. n ≡ length self.old.stmts) }
        ensures tree { IfOk result (λ n. stmt_at self.new n ≡ stmt_of self.old row) }

        ensures row { OnOk result (self.new
            ≡ record self.old { stmts = self.old.stmts ++ row ∷ [] }) }
        ensures keeps { Keeps self.old self.new }
        ensures program { program_of self.new ≡ program_of self.old }
        ensures err { OnErr result (self.new ≡ self.old) }
    {
        let number = push_row(&mut self.stmts, row)?;
        Ok(number)
    }

    /// Adds an expression, whose names and operands are there, and answers its number.
    pub fn add_expr(&mut self, row: ExprRow) -> Result<u32, Memory>
        requires { IsExprIn self.old (length self.old.exprs) row }

        ensures number { IfOk result (λ n. n ≡ length self.old.exprs) }
        ensures tree { IfOk result (λ n. expr_at self.new n ≡ expr_of self.old row) }

        ensures row { OnOk result (self.new
            ≡ record self.old { exprs = self.old.exprs ++ row ∷ [] }) }
        ensures keeps { Keeps self.old self.new }
        ensures program { program_of self.new ≡ program_of self.old }
        ensures err { OnErr result (self.new ≡ self.old) }
    {
        let number = push_row(&mut self.exprs, row)?;
        Ok(number)
    }

    /// Gives main its manager, its body, whose statements are there, and the line of its word.
    pub fn set_main(&mut self, manager: Manager, body: Span, line: u64)
        requires { IsBlockIn self.old body }

        ensures main { self.new ≡ record self.old { manager = manager; body = body; line = line } }
        ensures keeps { Keeps self.old self.new }
        ensures program { program_of self.new
            ≡ record (program_of self.old)
            { manager = manager; body = block_of self.old body; line = line } }
    {
        self.manager = manager;
        self.body = body;
        self.line = line;
    }
}
