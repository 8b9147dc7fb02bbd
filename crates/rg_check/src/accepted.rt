//! Accepted programs (docs/language.md, "Acceptance").

ghost use Rattle.std.specs.Prelude.{◌≡◌};
ghost use Rattle.rg_tree.specs.Rows.RowTrees.{program_of};
ghost use Rattle.rg_rules.specs.Acceptance as rules;
ghost use Rattle.rg_rules.specs.Names.{FewNames};
ghost use Rattle.rg_names.specs.TableOf.{IsTableOf};

use rg_names::{Book, Classes};
use rg_tree::Program;
use std::marker::Model;

/// A program without a fault, with its class table. Only `check` makes one, so each law about
/// accepted programs holds of it.
#[derive(Drop)]
pub struct Accepted {
    program: Program,
    classes: Classes,
}

impl Model for Accepted {
    ghost use Rattle.rg_check.specs.Checked.{Checked, IsChecked};

    ghost Value = { Checked };

    ghost view = { λ a. record { program = a.program; classes = a.classes } };

    ghost invariant = { λ a. IsChecked (record { program = a.program; classes = a.classes }) };
}

impl Accepted {
    ghost use Rattle.rg_check.specs.Checked.{IsChecked};

    /// A program that was checked, with its table. Only `check` calls this.
    pub(crate) fn new(program: Program, classes: Classes) -> Accepted
        requires { IsChecked (record { program = program; classes = classes }) }
        ensures { result ≡ record { program = program; classes = classes } }
    {
        Accepted { program, classes }
    }

    /// The program.
    pub fn program(&self) -> &Program
        ensures program { result.now ≡ self.now.program }
        ensures accepted { rules.Accepted (program_of result.now) }
    {
        &self.program
    }

    /// Its class table.
    pub fn classes(&self) -> &Classes
        ensures classes { result.now ≡ self.now.classes }
        ensures table { IsTableOf self.now.program result.now }
    {
        &self.classes
    }

    /// The program with its class table, as one value. No body has more names than one may have,
    /// since `check` is given no other programs.
    pub fn book(&self) -> Book<'_>
        ensures is { result
            ≡ record { program = self.now.program; classes = self.now.classes } }
        ensures names { FewNames (program_of self.now.program) }
    {
        Book::new(&self.program, &self.classes)
    }
}
