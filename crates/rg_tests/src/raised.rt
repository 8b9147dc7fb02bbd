//! Code that expressions are raised from, with ample memory (docs/architecture.md, "Modules").

use rg_base::Memory;
use rg_code::{CodeList, Op};
use rg_tree::Program;
use rg_verify_expressions::{Refusal, raise_expressions};
use std::alloc::Global;

// Code, and how many expressions stand in front of it up to which address, where any do.
static ROWS: [(&str, &[Op], Option<(usize, usize)>); 8] = [
    ("7", &[Op::Int { value: 7 }, Op::Print], Some((1, 1))),
    ("nothing", &[Op::Read], Some((0, 0))),
    (
        "two arguments",
        &[Op::Int { value: 1 }, Op::Bool { value: true }, Op::Room],
        Some((2, 2)),
    ),
    (
        "not a is nil and a.v == 1",
        &[
            Op::Load { slot: 0 },
            Op::IsNil,
            Op::Not,
            Op::And { to: 8 },
            Op::Load { slot: 0 },
            Op::Field { index: 0 },
            Op::Int { value: 1 },
            Op::Eq,
        ],
        Some((1, 8)),
    ),
    (
        "x or y, each nil",
        &[Op::Nil, Op::Or { to: 3 }, Op::Nil, Op::Print],
        Some((1, 3)),
    ),
    (
        "a right side that ends behind what follows",
        &[Op::Nil, Op::Or { to: 4 }, Op::Nil, Op::Print],
        None,
    ),
    ("no left operand", &[Op::Int { value: 1 }, Op::Add], None),
    (
        "a field of a number",
        &[Op::Int { value: 1 }, Op::Field { index: 0 }],
        None,
    ),
];

// A list of instructions.
fn listed(alloc: Global, ops: &[Op]) -> Result<CodeList, Memory> {
    let mut code = CodeList::new(alloc);
    for op in ops {
        code.push(*op)?;
    }
    Ok(code)
}

// Whether expressions are raised from code as is said of it.
fn is_as_said(alloc: Global, ops: &[Op], wanted: Option<(usize, usize)>) -> Result<bool, Memory> {
    let code = listed(alloc, ops)?;
    let mut program = Program::new(alloc);
    match raise_expressions(alloc, &mut program, true, &code, 0) {
        Ok((rows, end)) => Ok(wanted == Some((rows.len(), end))),
        Err(Refusal::NotRaised) => Ok(wanted == None),
        Err(Refusal::Memory) => Err(Memory),
    }
}

#[test]
fn expressions_are_raised_from_their_code(rt: HostRuntime) {
    for (name, ops, wanted) in &ROWS {
        assert!(rt;
            matches!(is_as_said(rt.alloc(), ops, *wanted), Ok(true)),
            "{name}"
        );
    }
}
