//! The rows of the flat tables that hold a tree (docs/language.md, "The tree"). A name, a
//! statement, an expression or another row goes by its number in its table.

use rg_base::{Cap, Manager};

/// A list of numbers: a piece of the table of numbers.
#[derive(Clone, Copy, Debug, PartialEq, Eq)]
pub struct Span {
    pub from: u32,
    pub to: u32,
}

/// `class C { .. }` or `tmp class C { .. }`; or an array class, `class C [T];` or
/// `tmp class C [T];`, which has the type of its elements and no members
#[derive(Clone, Copy)]
pub struct ClassRow {
    pub name: u32,
    pub is_tmp: bool,
    pub element: Option<TypeRow>,
    pub members: Span,
    pub line: u64,
}

/// A member of a class.
#[derive(Clone, Copy)]
pub enum MemberRow {
    /// `x: T;`
    Field {
        name: u32,
        ty: TypeRow,
        line: u64,
    },
    /// `def mut m(a: T): R { .. }`
    Method {
        cap: Cap,
        name: u32,
        params: Span,
        result: Option<TypeRow>,
        body: Span,
        line: u64,
    },
}

/// A member that is a method, in one piece.
#[derive(Clone, Copy)]
pub struct MethodRow {
    pub cap: Cap,
    pub name: u32,
    pub params: Span,
    pub result: Option<TypeRow>,
    pub body: Span,
    pub line: u64,
}

/// `a: T`
#[derive(Clone, Copy)]
pub struct ParamRow {
    pub name: u32,
    pub ty: TypeRow,
}

/// A type as it is written.
#[derive(Clone, Copy, Debug, PartialEq, Eq)]
pub enum TypeRow {
    /// `int`
    Int,
    /// `bool`
    Bool,
    /// `mut C`
    Ref { cap: Cap, name: u32 },
}

/// A statement, with the line of its first token.
#[derive(Clone, Copy)]
pub struct StmtRow {
    pub line: u64,
    pub kind: StmtKind,
}

/// What a statement says.
#[derive(Clone, Copy)]
pub enum StmtKind {
    /// `let x: T = r;`
    Let {
        name: u32,
        ty: TypeRow,
        right: Right,
    },
    /// `x = r;` and `q.f = r;`
    Set {
        path: Path,
        right: Right,
    },
    /// `q[e] = r;`
    SetAt {
        path: Path,
        index: u32,
        right: Right,
    },
    /// `call q.m(a, b);`
    Call(CallRow),
    /// `swap y, q.f;`
    Swap {
        name: u32,
        path: Path,
    },
    /// `if e { .. }` and `if e { .. } else { .. }`
    If {
        test: u32,
        yes: Span,
        no: Option<Span>,
    },
    /// `while e { .. }`
    While {
        test: u32,
        body: Span,
    },
    /// `enter q as z { .. }` and `enter q as z { .. } giving w;`
    Enter {
        path: Path,
        name: u32,
        body: Span,
        giving: Option<u32>,
    },
    /// `print e;`
    Print(u32),
    /// `collect;`
    Collect,
    /// `return e;`
    Return(u32),
}

/// What stands right of `=`.
#[derive(Clone, Copy)]
pub enum Right {
    /// `e`
    Expr(u32),
    /// `new C` and `new C [e]`
    New {
        name: u32,
        size: Option<u32>,
    },
    /// `new tmp C` and `new tmp C [e]`
    NewTmp {
        name: u32,
        size: Option<u32>,
    },
    /// `new iso C in trace` and `new iso C [e] in trace`
    NewIso {
        name: u32,
        size: Option<u32>,
        manager: Manager,
    },
    /// `freeze y`
    Freeze(u32),
    /// `merge y`
    Merge(u32),
    /// `read`
    Read,
    /// `more`
    More,
    /// `call q.m(a, b)`
    Call(CallRow),
}

/// `call q.m(a, b)`
#[derive(Clone, Copy)]
pub struct CallRow {
    pub path: Path,
    pub method: u32,
    pub args: Span,
}

/// `x.f.g`, or `self.f.g` where there is no base.
#[derive(Clone, Copy)]
pub struct Path {
    pub base: Option<u32>,
    pub fields: Span,
}

/// An expression.
#[derive(Clone, Copy)]
pub enum ExprRow {
    /// `7`
    Int(i64),
    /// `true`
    Bool(bool),
    /// `nil`
    Nil,
    /// `x.f`
    Path(Path),
    /// `x.f is nil`
    IsNil(Path),
    /// `-a`
    Neg(u32),
    /// `not a`
    Not(u32),
    /// `a + b`
    Binary { op: BinOp, left: u32, right: u32 },
    /// `size q`
    Size(Path),
    /// `q[e]`
    At { path: Path, index: u32 },
}

/// The operators of two operands.
#[derive(Clone, Copy)]
pub enum BinOp {
    /// `or`
    Or,
    /// `and`
    And,
    /// `==`
    Eq,
    /// `!=`
    Ne,
    /// `<`
    Lt,
    /// `<=`
    Le,
    /// `>`
    Gt,
    /// `>=`
    Ge,
    /// `+`
    Add,
    /// `-`
    Sub,
    /// `*`
    Mul,
    /// `/`
    Div,
    /// `%`
    Rem,
}
