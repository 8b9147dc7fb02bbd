//! Bytes that are the image of a content for a program, and bytes that are none
//! (docs/architecture.md, "Images").

use crate::programs::parsed;
use rg_base::{ByteList, Code, Fault, Stop};
use rg_cown::Cargo;
use rg_image::{decode, encode};
use rg_names::Classes;
use std::alloc::Global;
use std::test::*;

const SOURCE: &[u8] = b"class N { v: int; }\n\
    class A { n: iso N; m: mut A; i: imm N; r: mut Row; }\n\
    class Row [bool];\n\
    tmp class T { v: int; }\n\
    main arena { }\n";

// An N with 2, in an arena.
const ONE: &[u8; 52] = b"RGI1\x01\
    \0\0\0\0\0\0\0\x01\0\
    \0\0\0\0\0\0\0\x01\
    \0\0\0\0\0\0\0\0\0\0\0\0\0\0\0\0\0\0\0\0\x01\x01\0\0\0\0\0\0\0\x02";

// An A with an N in a region of its own, itself, a frozen N and a row of one.
const RICH: &[u8] = b"RGI1\x01\
    \0\0\0\0\0\0\0\x02\x02\x01\
    \0\0\0\0\0\0\0\x04\
    \0\0\0\x01\0\0\0\0\0\0\0\0\0\0\0\0\0\0\0\0\x04\
    \x03\0\0\0\0\0\0\0\x01\x03\0\0\0\0\0\0\0\0\x03\0\0\0\0\0\0\0\x02\x03\0\0\0\0\0\0\0\x03\
    \0\0\0\0\0\0\0\0\0\0\0\0\x01\0\0\0\0\0\0\0\x01\x01\0\0\0\0\0\0\0\x07\
    \0\0\0\0\x01\0\0\0\0\0\0\0\x01\x01\xff\xff\xff\xff\xff\xff\xff\xff\
    \0\0\0\x02\0\0\0\0\0\0\0\0\0\0\0\0\0\0\0\0\x01\x02\x01";

// Bytes, and whether they are an image.
static ROWS: [(&str, &[u8], bool); 13] = [
    ("nothing", b"RGI1\0", true),
    ("an object", ONE, true),
    ("two regions, a frozen object and a row", RICH, true),
    ("no bytes", b"", false),
    ("no content", b"RGI1", false),
    ("another front", b"RGM1\0", false),
    ("neither", b"RGI1\x02", false),
    ("a byte behind it", b"RGI1\0\0", false),
    (
        "no object",
        b"RGI1\x01\0\0\0\0\0\0\0\0\0\0\0\0\0\0\0\0",
        false,
    ),
    (
        "as many managers as there are numbers",
        b"RGI1\x01\xff\xff\xff\xff\xff\xff\xff\xff\0\0\0",
        false,
    ),
    (
        "an object of a tmp class",
        b"RGI1\x01\
        \0\0\0\0\0\0\0\x01\0\
        \0\0\0\0\0\0\0\x01\
        \0\0\0\x03\0\0\0\0\0\0\0\0\0\0\0\0\0\0\0\0\x01\x01\0\0\0\0\0\0\0\x02",
        false,
    ),
    (
        "a frozen object alone",
        b"RGI1\x01\
        \0\0\0\0\0\0\0\0\
        \0\0\0\0\0\0\0\x01\
        \0\0\0\0\x01\0\0\0\0\0\0\0\x01\x01\0\0\0\0\0\0\0\x02",
        false,
    ),
    (
        "a truth value for a number",
        b"RGI1\x01\
        \0\0\0\0\0\0\0\x01\0\
        \0\0\0\0\0\0\0\x01\
        \0\0\0\0\0\0\0\0\0\0\0\0\0\0\0\0\0\0\0\0\x01\x02\x01",
        false,
    ),
];

const NOT_IMAGE: Fault = Fault {
    code: Code::Image,
    line: 0,
};

// The image of a content, or want of memory.
fn written(alloc: Global, content: Option<&Cargo>) -> Result<ByteList, Stop> {
    match encode(alloc, content) {
        Ok(bytes) => Ok(bytes),
        Err(_) => Err(Stop::Memory),
    }
}

// Whether bytes are an image or none, as is said of them, and the content's image is these bytes.
fn is_as_said(alloc: Global, bytes: &[u8], is_image: bool) -> Result<bool, Stop> {
    let program = parsed(alloc, SOURCE)?;
    let classes = Classes::of(alloc, &program)?;
    match decode(alloc, bytes, &program, &classes) {
        Ok(content) => Ok(is_image && written(alloc, content.as_ref())?.bytes() == bytes),
        Err(Stop::Fault(fault)) => Ok(!is_image && fault == NOT_IMAGE),
        Err(Stop::Memory) => Err(Stop::Memory),
    }
}

#[test]
fn bytes_are_an_image_or_none(rt: HostRuntime) {
    for (name, bytes, is_image) in &ROWS {
        assert!(rt;
            matches!(is_as_said(rt.alloc(), bytes, *is_image), Ok(true)),
            "{name}"
        );
    }
    assert!(rt; matches!(is_as_said(rt.alloc(), &ONE[..51], false), Ok(true)));
}
