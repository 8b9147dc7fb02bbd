//! A short walk through the states of two variables (docs/language.md, "Judgements").

use rg_base::Code;
use rg_flow::Flow;
use std::test::*;

#[test]
fn a_variable_is_taken_once_and_joins_as_gone(rt: HostRuntime) -> Result<(), Fail> {
    let mut head = Flow::new();
    assert!(rt; matches!(head.take(255), Err(Code::Unavailable)));
    assert!(rt; head.give(255).is_ok());
    let mut out = head;
    assert!(rt; out.take(255).is_ok());
    assert!(rt; !out.covers(&head) && head.covers(&out));
    assert!(rt; !head.join(out).is_ready(255));
    Ok(())
}

#[test]
fn a_lent_variable_is_given_nothing(rt: HostRuntime) -> Result<(), Fail> {
    let mut flow = Flow::new();
    assert!(rt; flow.give(64).is_ok() && flow.lend(64).is_ok());
    assert!(rt; matches!(flow.give(64), Err(Code::Unavailable)));
    flow.unlend(64);
    assert!(rt; flow.is_ready(64));
    Ok(())
}
