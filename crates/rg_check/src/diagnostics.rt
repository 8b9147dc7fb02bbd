//! Diagnostics in words (docs/language.md, "Diagnostics").

ghost use Rattle.std.specs.Prelude.{◌≡◌, ◌≤◌, length, IfOk};
ghost use Rattle.rg_base.specs.Diagnostics as texts;

use itoa::Buffer;
use rg_base::{ByteList, Code, Fault, Memory};
use std::alloc::Global;

/// A code with its word, as `E31 unavailable`.
pub fn code_text(code: Code) -> &'static [u8]
    ensures words { result.now ≡ texts.code_text code }
    ensures short { length result.now ≤ 20 }
{
    match code {
        Code::Byte => b"E01 byte",
        Code::Number => b"E02 number",
        Code::Name => b"E03 name",
        Code::Syntax => b"E10 syntax",
        Code::Nesting => b"E11 nesting",
        Code::Limit => b"E12 limit",
        Code::Unknown => b"E20 unknown",
        Code::Duplicate => b"E21 duplicate",
        Code::BadType => b"E22 bad type",
        Code::Mismatch => b"E30 mismatch",
        Code::Unavailable => b"E31 unavailable",
        Code::Capability => b"E32 capability",
        Code::OutsideWindow => b"E33 outside window",
        Code::Loop => b"E34 loop",
        Code::Arity => b"E35 arity",
        Code::IsoField => b"E36 iso field",
        Code::Return => b"E37 return",
        Code::CallTarget => b"E38 call target",
        Code::Module => b"E91 module",
        Code::Unverified => b"E92 unverified",
        Code::Plan => b"E93 plan",
        Code::Schedule => b"E94 schedule",
        Code::Image => b"E95 image",
    }
}

/// `E31 unavailable at line 4` and the end of the line.
pub fn diagnostic_text(alloc: Global, fault: Fault) -> Result<ByteList, Memory>
    ensures { IfOk result (λ text. text ≡ texts.fault_text fault) }
{
    let mut digits = Buffer::new();
    let mut text = ByteList::new(alloc);
    text.extend(code_text(fault.code))?;
    text.extend(b" at line ")?;
    text.extend(digits.format(fault.line).as_bytes())?;
    text.push(b'\n')?;
    Ok(text)
}
