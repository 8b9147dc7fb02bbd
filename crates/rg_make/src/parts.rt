//! The parts of the generated program, as they are written
//! (docs/language.md, "The generated program").

ghost use Rattle.std.specs.Prelude.{◌≡◌};

use rg_base::{Cap, Manager};
use rg_tree::BinOp;

/// The names of the program; each shows its text.
#[derive(Clone, Copy)]
pub enum Name {
    /// `Node`
    Node,
    /// `value`
    Value,
    /// `next`
    Next,
    /// `List`
    List,
    /// `head`
    Head,
    /// `push`
    Push,
    /// `v`
    V,
    /// `n`
    N,
    /// `thin`
    Thin,
    /// `p`
    P,
    /// `go`
    Go,
    /// `sum`
    Sum,
    /// `s`
    S,
    /// `box`
    Boxed,
    /// `l`
    L,
    /// `i`
    I,
    /// `a`
    A,
    /// `b`
    B,
    /// `c`
    C,
}

impl Name {
    ghost use Rattle.rg_make.specs.Inner.Parts.{name_text};

    /// The text of a name.
    pub fn text(self) -> &'static [u8]
        ensures { result.now ≡ name_text self }
    {
        match self {
            Name::Node => b"Node",
            Name::Value => b"value",
            Name::Next => b"next",
            Name::List => b"List",
            Name::Head => b"head",
            Name::Push => b"push",
            Name::V => b"v",
            Name::N => b"n",
            Name::Thin => b"thin",
            Name::P => b"p",
            Name::Go => b"go",
            Name::Sum => b"sum",
            Name::S => b"s",
            Name::Boxed => b"box",
            Name::L => b"l",
            Name::I => b"i",
            Name::A => b"a",
            Name::B => b"b",
            Name::C => b"c",
        }
    }
}

/// `x`, `x.f` or `x.f.g`; `self.f` where there is no base.
#[derive(Clone, Copy)]
pub struct Path {
    pub base: Option<Name>,
    pub fields: Fields,
}

/// The fields of a path.
#[derive(Clone, Copy)]
pub enum Fields {
    None,
    One(Name),
    Two(Name, Name),
}

/// A type.
#[derive(Clone, Copy)]
pub enum Ty {
    /// `int`
    Int,
    /// `bool`
    Bool,
    /// `mut C`
    Ref { cap: Cap, class: Name },
}

/// An operand of an operator.
#[derive(Clone, Copy)]
pub enum Operand {
    /// `7`
    Int(u32),
    /// `x.f`
    Path(Path),
}

/// An expression.
#[derive(Clone, Copy)]
pub enum Expr {
    /// `7`
    Int(u32),
    /// `false`
    Bool(bool),
    /// `x.f`
    Path(Path),
    /// `x.f is nil`
    IsNil(Path),
    /// `not x.f is nil`
    IsThere(Path),
    /// `a + b`
    Binary {
        op: BinOp,
        left: Operand,
        right: Operand,
    },
}

/// What stands right of `=`.
#[derive(Clone, Copy)]
pub enum Right {
    /// `e`
    Value(Expr),
    /// `new C`
    New { class: Name },
    /// `new iso C in trace`
    NewIso { class: Name, manager: Manager },
    /// `call l.m()`
    Call { method: Name },
}

/// A statement that has no block.
#[derive(Clone, Copy)]
pub enum Stmt {
    /// `let x: T = r;`
    Let { name: Name, ty: Ty, right: Right },
    /// `q = e;`
    Set { path: Path, value: Expr },
    /// `call l.m();`
    Call { method: Name },
    /// `print x;`
    Print(Path),
    /// `collect;`
    Collect,
    /// `return x;`
    Return(Path),
}

/// The head of a method: `def mut m(a: T): R`.
#[derive(Clone, Copy)]
pub struct Head {
    pub receiver: Cap,
    pub name: Name,
    pub param: Option<Name>,
    pub result: Option<Ty>,
}
