//! A program with its class table: what a step or a judgement looks things up in
//! (docs/language.md, "Headers").

ghost use Rattle.std.specs.Prelude.{◌≡◌, ◌<◌, All, bytes_eq, length, map, slice_get, Some, IfOk};
ghost use Rattle.std.specs.Prelude.{IfSome};
ghost use Rattle.rg_tree.specs.Rows.Tables.{name_at, numbers_in};
ghost use Rattle.rg_tree.specs.Rows.RowTrees.{class_of, classes_of, expr_at, expr_of, member_at};
ghost use Rattle.rg_tree.specs.Rows.RowTrees.{member_of, param_at, param_of, stmt_at, stmt_of};
ghost use Rattle.rg_tree.specs.Rows.RowTrees.{type_of};
ghost use Rattle.rg_tree.specs.Rows.RowsExist.{IsBlockIn, IsClassIn, IsExprIn, IsMemberIn};
ghost use Rattle.rg_tree.specs.Rows.RowsExist.{IsNameIn};
ghost use Rattle.rg_tree.specs.Rows.RowsExist.{IsParamIn, IsStmtIn, IsTypeIn, IsWithin};
ghost use Rattle.rg_rules.specs.Types.{element_type, good_type, names_array};
ghost use Rattle.rg_names.specs.TableOf.{IsTableOf};
ghost use Rattle.rg_names.specs.TreeAnswers.{class_place, IsKnown, FieldAnswer, MethodAnswer};
ghost use Rattle.rg_names.specs.TreeAnswers.{HasGoodParams};

use crate::classes::Classes;
use crate::entry::{FieldAt, Sig};
use rg_base::{Code, Manager, Ty};
use rg_tree::{ClassRow, ExprRow, MemberRow, ParamRow, Program, Span, StmtRow, TypeRow};
use std::marker::Model;

/// A program with its own class table. That the table is the program's is an invariant, so what is
/// read here is said of the program's tree, with no condition on the table.
#[derive(Drop)]
pub struct Book<'a> {
    program: &'a Program,
    classes: &'a Classes,
}

impl<'a> Model for Book<'a> {
    ghost use Rattle.rg_names.specs.Book.{Known};
    ghost use Rattle.rg_names.specs.TableOf.{IsTableOf};

    ghost Value = { Known };

    ghost view = { λ b. record { program = b.program.now; classes = b.classes.now } };

    ghost invariant = { λ b. IsTableOf b.program.now b.classes.now };
}

impl<'a> Book<'a> {
    /// A program with its class table.
    pub fn new(program: &'a Program, classes: &'a Classes) -> Book<'a>
        requires { IsTableOf program.now classes.now }
        ensures { result ≡ record { program = program.now; classes = classes.now } }
    {
        Book { program, classes }
    }

    /// The program.
    pub fn program(&self) -> &'a Program
        ensures is { result.now ≡ self.now.program }
        ensures table { IsTableOf self.now.program self.now.classes }
    {
        self.program
    }

    /// Its class table.
    pub fn classes(&self) -> &'a Classes
        ensures is { result.now ≡ self.now.classes }
        ensures table { IsTableOf self.now.program self.now.classes }
    {
        self.classes
    }

    /// Whether two names are one: each has one number.
    pub fn is_same(&self, a: u32, b: u32) -> bool
        requires a { IsNameIn self.now.program a }
        requires b { IsNameIn self.now.program b }
        ensures { result ≡ bytes_eq (name_at self.now.program a) (name_at self.now.program b) }
    {
        let _ = &self.program;
        a == b
    }

    /// The manager of main.
    pub fn main_manager(&self) -> Manager
        ensures { result ≡ self.now.program.manager }
    {
        self.program.main_manager()
    }

    /// The body of main.
    pub fn main_body(&self) -> Span
        ensures row { result ≡ self.now.program.body }
        ensures below { IsBlockIn self.now.program result }
    {
        self.program.main_body()
    }

    /// The numbers of a span.
    pub fn order(&self, s: Span) -> &'a [u32]
        requires { IsWithin self.now.program s }
        ensures { result.now ≡ numbers_in self.now.program s }
    {
        self.program.order(s)
    }

    /// The members of a class, of which an array class has none.
    pub fn members_of(&self, class: ClassRow) -> &'a [u32]
        requires { IsClassIn self.now.program class }
        ensures tree { map (member_at self.now.program) result.now
            ≡ (class_of self.now.program class).members }
        ensures below { All (λ k. k < length self.now.program.members) result.now }
    {
        self.program.members_of(class)
    }

    /// The statement of a number. The statements within it come before it.
    pub fn stmt(&self, i: u32) -> StmtRow
        requires { i < length self.now.program.stmts }
        ensures tree { stmt_at self.now.program i ≡ stmt_of self.now.program result }
        ensures below { IsStmtIn self.now.program i result }
    {
        self.program.stmt(i)
    }

    /// The expression of a number. Its operands come before it.
    pub fn expr(&self, i: u32) -> ExprRow
        requires { i < length self.now.program.exprs }
        ensures tree { expr_at self.now.program i ≡ expr_of self.now.program result }
        ensures below { IsExprIn self.now.program i result }
    {
        self.program.expr(i)
    }

    /// The parameter of a number.
    pub fn param(&self, i: u32) -> ParamRow
        requires { i < length self.now.program.params }
        ensures tree { param_at self.now.program i ≡ param_of self.now.program result }
        ensures below { IsParamIn self.now.program result }
    {
        self.program.param(i)
    }

    /// The member of a number.
    pub fn member(&self, i: u32) -> MemberRow
        requires { i < length self.now.program.members }
        ensures tree { member_at self.now.program i ≡ member_of self.now.program result }
        ensures below { IsMemberIn self.now.program result }
    {
        self.program.member(i)
    }

    /// The number of classes.
    pub fn class_count(&self) -> u32
        ensures { result ≡ length (classes_of self.now.program) }
    {
        self.program.class_count()
    }

    /// The class of a number.
    pub fn class(&self, i: u32) -> ClassRow
        requires { i < length (classes_of self.now.program) }
        ensures tree { slice_get (classes_of self.now.program) i
            ≡ Some (class_of self.now.program result) }
        ensures below { IsClassIn self.now.program result }
    {
        self.program.class(i)
    }

    /// The number of the class of a name, None exactly where there is none.
    pub fn class_of(&self, name: u32) -> Option<u32>
        requires { IsNameIn self.now.program name }
        ensures is { result
            ≡ class_place (classes_of self.now.program) (name_at self.now.program name) }
        ensures within { IfSome result (λ c. c < length (classes_of self.now.program)) }
    {
        self.classes.class(name)
    }

    /// The type that is written so, or E20 or E22.
    pub fn ty(&self, row: TypeRow) -> Result<Ty, Code>
        requires { IsTypeIn self.now.program row }
        ensures tree { result
            ≡ good_type (classes_of self.now.program) (type_of self.now.program row) }
        ensures known { IfOk result (IsKnown (classes_of self.now.program)) }
    {
        self.classes.ty(row)
    }

    /// The type of the elements of a class, None exactly for a class that isn't an array class.
    pub fn element(&self, class: u32) -> Option<Ty>
        requires { class < length (classes_of self.now.program) }
        ensures is { result ≡ element_type (classes_of self.now.program) class }
        ensures known { IfSome result (IsKnown (classes_of self.now.program)) }
    {
        self.classes.element(class)
    }

    /// Whether the class of a name is an array class.
    pub fn is_array(&self, name: u32) -> bool
        requires { IsNameIn self.now.program name }
        ensures { result
            ≡ names_array (classes_of self.now.program) (name_at self.now.program name) }
    {
        match self.class_of(name) {
            None => false,
            Some(class) => self.element(class).is_some(),
        }
    }

    /// The field of a name in a class, None exactly where there is none.
    pub fn field(&self, class: u32, name: u32) -> Option<FieldAt>
        requires class { class < length (classes_of self.now.program) }
        requires name { IsNameIn self.now.program name }
        ensures { FieldAnswer self.now.program class name result }
    {
        self.classes.field(class, name)
    }

    /// The method of a name in a class, None exactly where there is none.
    pub fn method(&self, class: u32, name: u32) -> Option<Sig>
        requires class { class < length (classes_of self.now.program) }
        requires name { IsNameIn self.now.program name }
        ensures method { MethodAnswer self.now.program class name result }
        ensures params { IfSome result (HasGoodParams self.now.program) }
    {
        self.classes.method(class, name)
    }
}
