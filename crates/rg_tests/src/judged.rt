//! The types of expressions, with ample memory (docs/language.md, "Judgements").

use crate::programs::parsed;
use rg_base::{Code, Fault, Stop, Ty};
use rg_names::Classes;
use rg_tree::{Program, StmtKind};
use rg_type::{Env, judge_expr};
use std::alloc::Global;
use std::test::*;

// The type of what a program prints first, where no variable is visible.
fn printed_type(alloc: Global, program: &Program) -> Result<Option<Ty>, Stop> {
    let classes = Classes::of(alloc, program)?;
    for s in program.order(program.main_body()) {
        let row = program.stmt(*s);
        if let StmtKind::Print(e) = row.kind {
            let judged = judge_expr(Env::new(alloc), program, &classes, e, None, row.line)?;
            return Ok(Some(judged.ty));
        }
    }
    Ok(None)
}

// The same of a program's source.
fn judged(alloc: Global, source: &[u8]) -> Result<Option<Ty>, Stop> {
    let program = parsed(alloc, source)?;
    printed_type(alloc, &program)
}

#[test]
fn an_expression_has_its_type_or_a_fault(rt: HostRuntime) {
    assert!(rt;
        matches!(
            judged(rt.alloc(), b"main arena { print 1 + 2; }"),
            Ok(Some(Ty::Int))
        )
    );
    assert!(rt;
        matches!(
            judged(rt.alloc(), b"main arena { print 1 < 2; }"),
            Ok(Some(Ty::Bool))
        )
    );
    assert!(rt;
        matches!(
            judged(rt.alloc(), b"main arena {\nprint x; }"),
            Err(Stop::Fault(Fault {
                code: Code::Unknown,
                line: 2
            }))
        )
    );
}
