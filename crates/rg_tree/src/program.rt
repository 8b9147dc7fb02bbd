//! A program in flat tables (docs/language.md, "The tree").

mod add;
mod read;

ghost use Rattle.std.specs.Prelude.{◌≡◌};

use crate::names::Names;
use crate::rows::{ClassRow, ExprRow, MemberRow, ParamRow, Span, StmtRow};
use rg_base::Manager;
use std::alloc::Global;
use std::marker::Model;

/// A program. Each name, statement, expression, parameter, member and class goes by a number,
/// from 0. Contracts see its tables, and with `program_of` the tree that they stand for.
///
/// A table with 4,294,967,295 rows is full: what would add to it answers as without memory.
#[derive(Drop)]
pub struct Program {
    names: Names,
    numbers: Vec<u32>,
    params: Vec<ParamRow>,
    members: Vec<MemberRow>,
    classes: Vec<ClassRow>,
    stmts: Vec<StmtRow>,
    exprs: Vec<ExprRow>,
    manager: Manager,
    body: Span,
    line: u64,
}

impl Model for Program {
    ghost use Rattle.rg_tree.specs.Rows.Tables.{Tables};

    ghost Value = { Tables };

    ghost use Rattle.rg_tree.specs.Rows.RowsExist.{AreRows};
    ghost use Rattle.rg_tree.specs.Inner.Seen.{tables_of};

    ghost view = { tables_of };

    ghost invariant = { λ p. AreRows (tables_of p) };
}

impl Program {
    ghost use Rattle.rg_tree.specs.Rows.Tables.{at_first};
    ghost use Rattle.rg_tree.specs.Rows.RowTrees.{program_of, no_program};

    /// The program without classes whose main is an empty arena block at line 1.
    pub fn new(alloc: Global) -> Program
        ensures tables { result ≡ at_first }
        ensures program { program_of result ≡ no_program }
    {
        Program::keyed(alloc, 0)
    }

    /// The same, with a key for the table of names. Names can be chosen so that each is looked for
    /// among all others, but not without the key.
    pub fn keyed(alloc: Global, key: u64) -> Program
        ensures tables { result ≡ at_first }
        ensures program { program_of result ≡ no_program }
    {
        Program {
            names: Names::new(alloc, key),
            numbers: Vec::new(alloc),
            params: Vec::new(alloc),
            members: Vec::new(alloc),
            classes: Vec::new(alloc),
            stmts: Vec::new(alloc),
            exprs: Vec::new(alloc),
            manager: Manager::Arena,
            body: Span { from: 0, to: 0 },
            line: 1,
        }
    }
}
