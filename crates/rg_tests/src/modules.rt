//! Bytes that spell a module, and bytes that spell none (docs/architecture.md, "Modules").

use rg_base::{Cap, Code, Fault, Manager, Memory, Stop, Ty};
use rg_code::{CodeList, Entry};
use rg_module::{Head, Module, Shape, decode, encode};
use std::alloc::Global;
use std::test::*;

// `main arena { print 7; }`, on one line: `mark 1, int 7, print, mark 1, end 0, halt`.
pub(crate) const SEVEN: &[u8; 59] = b"RGM1\0\0\0\0\0\0\0\0\0\0\0\0\x06\
    \0\0\0\0\0\0\0\0\x01\0\0\0\0\
    \x01\0\0\0\0\0\0\0\x07\
    \x2e\
    \0\0\0\0\0\0\0\0\x01\0\0\0\0\
    \x2d\0\0\0\0\
    \x32";

// The same with `pop` in place of `print`.
pub(crate) const POPPED: &[u8; 59] = b"RGM1\0\0\0\0\0\0\0\0\0\0\0\0\x06\
    \0\0\0\0\0\0\0\0\x01\0\0\0\0\
    \x01\0\0\0\0\0\0\0\x07\
    \x30\
    \0\0\0\0\0\0\0\0\x01\0\0\0\0\
    \x2d\0\0\0\0\
    \x32";

// Manager `trace`; a tmp class with fields `int` and `iso` of class 0, and an array class of
// `bool`; a method of class 0 with receiver `paused`, a parameter `bool` and a result `int`;
// `halt`, `mark 9` with the map `paused` of class 0 and `bool`, `load 4`, `ret`.
pub(crate) const RICH: &[u8] = b"RGM1\x02\
    \0\0\0\x02\x01\0\0\0\0\x02\0\x06\0\0\0\0\0\x01\x01\
    \0\0\0\x01\0\0\0\0\x04\0\0\0\x01\x01\x01\0\
    \0\0\0\x04\
    \x32\
    \0\0\0\0\0\0\0\0\x09\0\0\0\x02\x04\0\0\0\0\x01\
    \x04\0\0\0\x04\
    \x28";

// Bytes, and whether they spell a module.
static ROWS: [(&str, &[u8], bool); 24] = [
    ("a print", SEVEN, true),
    ("a pop", POPPED, true),
    ("classes, a method and a map", RICH, true),
    ("nothing", b"", false),
    ("no manager", b"RGM1", false),
    ("manager 0", b"RGM1\0\0\0\0\0\0\0\0\0\0\0\0\0", true),
    ("manager 2", b"RGM1\x02\0\0\0\0\0\0\0\0\0\0\0\0", true),
    ("manager 3", b"RGM1\x03\0\0\0\0\0\0\0\0\0\0\0\0", false),
    ("another front", b"RGM2\0\0\0\0\0\0\0\0\0\0\0\0\0", false),
    (
        "a byte behind it",
        b"RGM1\0\0\0\0\0\0\0\0\0\0\0\0\0\0",
        false,
    ),
    (
        "a lacking instruction",
        b"RGM1\0\0\0\0\0\0\0\0\0\0\0\0\x02\x32",
        false,
    ),
    (
        "4294967295 classes",
        b"RGM1\0\xff\xff\xff\xff\0\0\0\0\0\0\0\0",
        false,
    ),
    (
        "slot 256",
        b"RGM1\0\0\0\0\0\0\0\0\0\0\0\0\x01\x04\0\0\x01\0",
        true,
    ),
    (
        "slot 257",
        b"RGM1\0\0\0\0\0\0\0\0\0\0\0\0\x01\x04\0\0\x01\x01",
        false,
    ),
    ("true", b"RGM1\0\0\0\0\0\0\0\0\0\0\0\0\x01\x02\x01", true),
    (
        "truth value 2",
        b"RGM1\0\0\0\0\0\0\0\0\0\0\0\0\x01\x02\x02",
        false,
    ),
    (
        "the number -2",
        b"RGM1\0\0\0\0\0\0\0\0\0\0\0\0\x01\x01\xff\xff\xff\xff\xff\xff\xff\xfe",
        true,
    ),
    (
        "instruction 50",
        b"RGM1\0\0\0\0\0\0\0\0\0\0\0\0\x01\x32",
        true,
    ),
    (
        "instruction 51",
        b"RGM1\0\0\0\0\0\0\0\0\0\0\0\0\x01\x33",
        false,
    ),
    (
        "type 6",
        b"RGM1\0\0\0\0\x01\0\x01\x06\0\0\0\0\0\0\0\0\0\0\0\0",
        true,
    ),
    (
        "type 7",
        b"RGM1\0\0\0\0\x01\0\x01\x07\0\0\0\0\0\0\0\0\0\0\0\0",
        false,
    ),
    (
        "no form of class",
        b"RGM1\0\0\0\0\x01\0\x02\0\0\0\0\0\0\0\0\0",
        false,
    ),
    (
        "receiver `iso`",
        b"RGM1\0\0\0\0\0\0\0\0\x01\0\0\0\0\x06\0\0\0\0\0\0\0\0\0",
        true,
    ),
    (
        "receiver 1",
        b"RGM1\0\0\0\0\0\0\0\0\x01\0\0\0\0\x01\0\0\0\0\0\0\0\0\0",
        false,
    ),
];

const NOT_MODULE: Fault = Fault {
    code: Code::Module,
    line: 0,
};

// Whether bytes spell a module or none, as is said of them, and the module's bytes are these.
fn is_as_said(alloc: Global, bytes: &[u8], is_module: bool) -> Result<bool, Memory> {
    match decode(alloc, bytes) {
        Ok(module) => {
            let written = encode(alloc, &module)?;
            Ok(is_module && written.bytes() == bytes)
        }
        Err(Stop::Fault(fault)) => Ok(!is_module && fault == NOT_MODULE),
        Err(Stop::Memory) => Err(Memory),
    }
}

#[test]
fn bytes_spell_a_module_or_none(rt: HostRuntime) {
    for (name, bytes, is_module) in &ROWS {
        assert!(rt;
            matches!(is_as_said(rt.alloc(), bytes, *is_module), Ok(true)),
            "{name}"
        );
    }
    assert!(rt; matches!(is_as_said(rt.alloc(), &SEVEN[..58], false), Ok(true)));
}

const PAUSED: Ty = Ty::Ref {
    cap: Cap::Paused,
    class: 0,
};

const ISO: Ty = Ty::Ref {
    cap: Cap::Iso,
    class: 0,
};

// Whether the classes are those of `RICH`.
fn has_classes(classes: &[Shape]) -> bool {
    let [first, second] = classes else {
        return false;
    };
    let is_first = first.is_tmp && first.element == None;
    let is_second = !second.is_tmp && second.element == Some(Ty::Bool);
    let has_fields = first.fields.items() == [Ty::Int, ISO].as_slice();
    is_first && has_fields && is_second && second.fields.items().is_empty()
}

// Whether the one method is that of `RICH`.
fn has_method(methods: &[Head]) -> bool {
    let [head] = methods else {
        return false;
    };
    let is_head = head.class == 0 && matches!(head.cap, Cap::Paused);
    is_head && head.params.items() == [Ty::Bool].as_slice() && head.result == Some(Ty::Int)
}

// Whether the code is that of `RICH`, where its method begins behind main.
fn has_code(code: &CodeList) -> bool {
    if code.len() != 4 || code.class_count() != 2 || code.method_count() != 1 {
        return false;
    }
    let Entry { at, given, slots } = code.entry(0);
    at == 1 && given == 2 && slots == 5 && code.main_slots() == 0
}

// Whether the map of the mark at 1 is that of `RICH`.
fn has_map(module: &Module) -> bool {
    if !module.code().begins(1) {
        return false;
    }
    module.map(1) == [PAUSED, Ty::Bool].as_slice()
}

#[test]
fn a_module_has_what_was_read(rt: HostRuntime) -> Result<(), Fail> {
    let rich = decode(rt.alloc(), RICH)?;
    assert!(rt; matches!(rich.manager(), Manager::Trace) && has_classes(rich.classes()));
    assert!(rt; has_method(rich.methods()) && has_code(rich.code()) && has_map(&rich));
    Ok(())
}
