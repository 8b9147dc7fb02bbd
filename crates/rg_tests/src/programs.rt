//! A program that is read from its text: its rows, its classes, and the first fault of another
//! (docs/language.md, "The tree", "Headers").

ghost use Rattle.std.specs.Prelude.{◌≤◌, IfOk, length};
ghost use Rattle.rg_tree.specs.Rows.RowTrees.{program_of};
ghost use Rattle.rg_rules.specs.Names.{FewNames};

use rg_base::{Cap, Code, Fault, Manager, SOURCE_BYTES, Stop, Ty};
use rg_check::{check, diagnostic_text, spelt_has_few_names};
use rg_lex::tokens;
use rg_names::{Classes, FieldAt};
use rg_parse::parse;
use rg_print::text;
use rg_tree::{ExprRow, MemberRow, Program, StmtKind, TypeRow};
use std::alloc::Global;
use std::test::*;

/// The program of a source.
pub(crate) fn parsed(alloc: Global, source: &[u8]) -> Result<Program, Stop>
    ensures { IfOk result (λ p. FewNames (program_of p)) }
{
    spelt_has_few_names();
    if source.len() > SOURCE_BYTES {
        return Err(Stop::Memory);
    }
    let found = tokens(alloc, source)?;
    parse(alloc, source, &found)
}

const ONE_CLASS: &[u8] = b"class A {\n  x: iso A;\n}\nmain trace {\n  print -1;\n}\n";

// Whether its one class has the one field.
fn has_class(program: &Program) -> bool {
    if program.class_count() != 1 {
        return false;
    }
    let class = program.class(0);
    for m in program.order(class.members) {
        let MemberRow::Field { name, ty, line } = program.member(*m) else {
            return false;
        };
        if line != 2 || program.name(name) != b"x".as_slice() {
            return false;
        }
        if !matches!(ty, TypeRow::Ref { cap: Cap::Iso, .. }) {
            return false;
        }
    }
    program.name(class.name) == b"A".as_slice() && !class.is_tmp && class.line == 1
}

// Whether main has the one statement.
fn has_main(program: &Program) -> bool {
    for s in program.order(program.main_body()) {
        let row = program.stmt(*s);
        let StmtKind::Print(e) = row.kind else {
            return false;
        };
        if row.line != 5 || !matches!(program.expr(e), ExprRow::Neg(_)) {
            return false;
        }
    }
    matches!(program.main_manager(), Manager::Trace) && program.main_line() == 4
}

#[test]
fn a_program_is_read_back_by_its_rows(rt: HostRuntime) -> Result<(), Fail> {
    let program = parsed(rt.alloc(), ONE_CLASS)?;
    assert!(rt; has_class(&program) && has_main(&program));
    Ok(())
}

// Whether its text is that of the source.
fn has_text(alloc: Global, program: &Program) -> bool {
    match text(alloc, program) {
        Ok(printed) => printed.bytes() == ONE_CLASS,
        Err(_) => false,
    }
}

// Whether its class and the class's field are found by their names.
fn has_names(alloc: Global, program: &Program) -> bool {
    if program.class_count() != 1 {
        return false;
    }
    let Ok(classes) = Classes::of(alloc, program) else {
        return false;
    };
    let row = program.class(0);
    let mut all = classes.class(row.name) == Some(0);
    let ty = Ty::Ref {
        cap: Cap::Iso,
        class: 0,
    };
    for m in program.order(row.members) {
        if let MemberRow::Field { name, .. } = program.member(*m) {
            all = all && classes.field(0, name) == Some(FieldAt { index: 0, ty });
        }
    }
    all
}

#[test]
fn a_program_has_its_text_and_its_classes(rt: HostRuntime) -> Result<(), Fail> {
    let program = parsed(rt.alloc(), ONE_CLASS)?;
    assert!(rt; has_text(rt.alloc(), &program) && has_names(rt.alloc(), &program));
    Ok(())
}

// Whether the first source is accepted.
fn is_accepted(alloc: Global) -> Result<bool, Stop> {
    let accepted = check(alloc, parsed(alloc, ONE_CLASS)?)?;
    Ok(accepted.program().class_count() == 1)
}

const NO_RETURN: &[u8] = b"class A {\ndef mut A(): int { } } main arena { }";

const FAULT: Fault = Fault {
    code: Code::Return,
    line: 2,
};

// Whether the second source has the fault.
fn is_refused(alloc: Global) -> Result<bool, Stop> {
    match check(alloc, parsed(alloc, NO_RETURN)?) {
        Ok(_) => Ok(false),
        Err(stop) => Ok(stop == Stop::Fault(FAULT)),
    }
}

#[test]
fn a_program_is_accepted_or_has_a_first_fault(rt: HostRuntime) -> Result<(), Fail> {
    assert!(rt; matches!(is_accepted(rt.alloc()), Ok(true)));
    assert!(rt; matches!(is_refused(rt.alloc()), Ok(true)));
    let text = diagnostic_text(rt.alloc(), FAULT)?;
    assert!(rt; text.bytes() == b"E37 return at line 2\n".as_slice());
    Ok(())
}
