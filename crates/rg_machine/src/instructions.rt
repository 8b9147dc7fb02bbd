//! One instruction (docs/architecture.md, "The machine").

ghost use Rattle.std.specs.Prelude.{◌<◌, ◌-◌, ◌^◌};
ghost use Rattle.rg_code.specs.declared.op.Op.TheVariants as i;
ghost use Rattle.rg_machine.specs.Acts.{Does, DoesAt};
ghost use Rattle.rg_machine.specs.Core.{Given};
ghost use Rattle.rg_machine.specs.Cores.{core_of};

mod new;

use crate::elements::{bound, element, put_element, size};
use crate::instructions::new::{
    new_array, new_iso, new_iso_array, new_object, new_temp, new_temp_array,
};
use crate::jumps::{and, jump_false, or};
use crate::machine::Machine;
use crate::next::Next;
use crate::values::{binary, constant, invert, negate, test_nil};
use crate::variables::{call, check, clear, field, load, print, put, store};
use rg_base::Word;
use rg_code::{CodeList, Op};
use rg_tree::BinOp;

/// Leaves a place on the stack for the next number.
fn ask_number(p: &mut Machine) -> Next
    ensures { Does i.Read p.old p.new result }
{
    match p.push(Word::Nil) {
        Ok(()) => Next::Read,
        Err(_) => Next::Memory,
    }
}

/// Leaves a place on the stack for whether anything is left.
fn ask_more(p: &mut Machine) -> Next
    ensures { Does i.More p.old p.new result }
{
    match p.push(Word::Nil) {
        Ok(()) => Next::More,
        Err(_) => Next::Memory,
    }
}

/// Does the instruction at an address.
#[inline]
pub fn act(p: &mut Machine, code: &CodeList, at: usize, op: Op) -> Next
    requires near { at < 2 ^ 64 - 1 }
    requires given { Given code.now op (core_of p.old) }
    ensures { DoesAt code.now at op p.old p.new result }
{
    match op {
        Op::Mark { line: _ } => Next::Stop(at),
        Op::Int { value } => match p.push(Word::Int(value)) {
            Ok(()) => Next::On,
            Err(_) => Next::Memory,
        },
        Op::Bool { value } => constant(p, Word::Bool(value)),
        Op::Nil => constant(p, Word::Nil),
        Op::Load { slot } => load(p, slot),
        Op::Clear { slot } => clear(p, slot),
        Op::Store { slot } => store(p, slot),
        Op::Own { slot } => p.own(slot),
        Op::Field { index } => field(p, index),
        Op::IsNil => test_nil(p),
        Op::Neg => negate(p),
        Op::Add => binary(p, BinOp::Add),
        Op::Sub => binary(p, BinOp::Sub),
        Op::Mul => binary(p, BinOp::Mul),
        Op::Div => binary(p, BinOp::Div),
        Op::Rem => binary(p, BinOp::Rem),
        Op::Eq => binary(p, BinOp::Eq),
        Op::Ne => binary(p, BinOp::Ne),
        Op::Lt => binary(p, BinOp::Lt),
        Op::Le => binary(p, BinOp::Le),
        Op::Gt => binary(p, BinOp::Gt),
        Op::Ge => binary(p, BinOp::Ge),
        Op::Not => invert(p),
        Op::Jump { to } => Next::Stop(to),
        Op::JumpFalse { to } => jump_false(p, to),
        Op::And { to } => and(p, to),
        Op::Or { to } => or(p, to),
        Op::Check => check(p),
        Op::New { class } => new_object(p, code, class),
        Op::NewTmp { class } => new_temp(p, code, class),
        Op::NewIso { class, manager } => new_iso(p, code, class, manager),
        Op::Pace => Next::On,
        Op::Put { index } => put(p, index),
        Op::Swap { slot, index } => p.swap(slot, index),
        Op::Freeze { slot } => p.freeze(slot),
        Op::Merge { slot } => p.merge(slot),
        Op::Read => ask_number(p),
        Op::More => ask_more(p),
        Op::Room => Next::Room,
        Op::Call { method } => call(p, code, at, method),
        Op::Ret => p.ret(),
        Op::RetVoid => p.ret_void(),
        Op::Enter { slot, bridge } => p.enter(slot, bridge),
        Op::EnterField { index, bridge } => p.enter_field(index, bridge),
        Op::Leave { slot } => p.leave(slot),
        Op::End { slot } => p.end(slot),
        Op::Print => print(p),
        Op::Collect => Next::On,
        Op::Pop => p.pop_top(),
        Op::Drop => p.pop_top(),
        Op::Halt => Next::Stop(at),
        Op::NewArray { class } => new_array(p, code, class),
        Op::NewTmpArray { class } => new_temp_array(p, code, class),
        Op::NewIsoArray { class, manager } => new_iso_array(p, code, class, manager),
        Op::Size => size(p),
        Op::Bound => bound(p),
        Op::Element => element(p),
        Op::PutElement => put_element(p),
        Op::LeaveGiving { given, slot } => p.leave_giving(given, slot),
    }
}
