//! Modules that some program raises, and modules that none does, with ample memory
//! (docs/architecture.md, "Modules").

use crate::modules::{POPPED, RICH, SEVEN};
use rg_base::{Code, Fault, Stop};
use rg_module::decode;
use rg_verify::verify;
use std::alloc::Global;
use std::test::*;

// Bytes that spell a module, and whether some program raises it.
static ROWS: [(&str, &[u8], bool); 4] = [
    ("a print", SEVEN, true),
    ("a pop", POPPED, false),
    ("a main without the mark at its end", RICH, false),
    ("no code", b"RGM1\0\0\0\0\0\0\0\0\0\0\0\0\0", false),
];

const UNVERIFIED: Fault = Fault {
    code: Code::Unverified,
    line: 0,
};

// Whether a program raises the module of these bytes or none does, as is said of it.
fn is_as_said(alloc: Global, bytes: &[u8], is_raised: bool) -> Result<bool, Stop> {
    let module = decode(alloc, bytes)?;
    match verify(alloc, &module) {
        Ok(_) => Ok(is_raised),
        Err(Stop::Fault(fault)) => Ok(!is_raised && fault == UNVERIFIED),
        Err(Stop::Memory) => Err(Stop::Memory),
    }
}

#[test]
fn a_module_is_raised_or_not(rt: HostRuntime) {
    for (name, bytes, is_raised) in &ROWS {
        assert!(rt;
            matches!(is_as_said(rt.alloc(), bytes, *is_raised), Ok(true)),
            "{name}"
        );
    }
}
