//! A generated program, with ample memory: what is read back of it (docs/language.md, "The
//! generated program").

use rg_make::program_of;
use std::test::*;

#[test]
fn a_program_is_generated(rt: HostRuntime) -> Result<(), Fail> {
    let program = program_of(rt.alloc(), 2777, 12345)?;
    assert!(rt; program.class_count() == 2);
    let is_node = program.name(program.class(0).name) == b"Node".as_slice();
    let is_list = program.name(program.class(1).name) == b"List".as_slice();
    assert!(rt; is_node && is_list && program.order(program.class(1).members).len() == 4);
    assert!(rt; program.order(program.main_body()).len() == 2);
    Ok(())
}
