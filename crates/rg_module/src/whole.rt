//! A whole module as bytes (docs/architecture.md, "Modules").

ghost use Rattle.std.specs.Prelude.{◌≡◌, Some, IfOk};
ghost use Rattle.rg_module.specs.Parts.{Parts};
ghost use Rattle.rg_module.specs.Spelling.{spelling, IsSpelt, Spells};
ghost use Rattle.rg_module.specs.Laws.{Decodes, IsModule};
ghost use Rattle.rg_spell.specs.Reading.{Finds, Gives};
ghost use Rattle.rg_module.specs.Inner.Reading.{magic_at, module_of, rows_behind};
ghost use Rattle.rg_module.specs.Inner.Reading.{heads_behind, shapes_behind};
ghost use Rattle.rg_module.specs.Inner.Reading.{manager_behind, module_at};
ghost use Rattle.rg_module.specs.Inner.Rows.{rows_of, IsBare};

use crate::follows::complete;
use crate::parts::Module;
use crate::rows::{Read, take_rows, write_rows};
use rg_base::{ByteList, Code, Fault, Manager, Memory, Stop};
use rg_spell::{
    Head, Refusal, Shape, take_heads, take_manager, take_shapes, write_heads, write_manager,
    write_shapes,
};
use std::alloc::Global;

/// The bytes of a module that some bytes spell.
pub fn encode(alloc: Global, module: &Module) -> Result<ByteList, Memory>
    requires { IsSpelt «module».now }
    ensures { IfOk result (λ bytes. bytes ≡ spelling «module».now) }
{
    let mut out = ByteList::new(alloc);
    out.extend(b"RGM1")?;
    write_manager(module.manager(), &mut out)?;
    write_shapes(module.classes(), &mut out)?;
    write_heads(module.methods(), &mut out)?;
    write_rows(module, &mut out)?;
    Ok(out)
}

// The bytes behind `RGM1`.
fn take_magic(bytes: &[u8]) -> Option<&[u8]>
    ensures { Finds (λ rest. rest.now) result (magic_at bytes.now) }
{
    let [a, b, c, d, rest @ ..] = bytes else {
        return None;
    };
    if *a != b'R' {
        return None;
    }
    if *b != b'G' {
        return None;
    }
    if *c != b'M' {
        return None;
    }
    if *d != b'1' {
        return None;
    }
    Some(rest)
}

// The rest of a module, from the count of its instructions on.
#[tactic(auto, unfolding(crate::specs::Inner::Reading::rows_behind))]
fn read_rows(
    alloc: Global,
    manager: Manager,
    classes: Vec<Shape>,
    methods: Vec<Head>,
    bytes: &[u8],
) -> Result<Module, Refusal>
    ensures { Gives (λ m. m) result (rows_behind manager classes.items methods.items bytes.now) }
{
    let (found, rest) = match take_rows(alloc, bytes) {
        Ok(pair) => pair,
        Err(e) => return Err(e),
    };
    if !rest.is_empty() {
        return Err(Refusal::NotSpelt);
    }
    whole(alloc, manager, classes, methods, found)
}

// The module of what was read.
fn whole(
    alloc: Global,
    manager: Manager,
    classes: Vec<Shape>,
    methods: Vec<Head>,
    found: Read,
) -> Result<Module, Refusal>
    requires { IsBare found.code found.maps.items }
    ensures { Gives (λ m. m) result (Some (module_of manager classes.items methods.items
        (rows_of found.code found.maps.items))) }
{
    let mut read = found;
    let Ok(()) = complete(
        alloc,
        &mut read.code,
        classes.as_slice(),
        methods.as_slice(),
    ) else {
        return Err(Refusal::Memory);
    };
    Ok(Module::of(alloc, manager, classes, methods, read))
}

// The rest of a module, from the count of its methods on.
#[tactic(auto, unfolding(crate::specs::Inner::Reading::heads_behind))]
fn read_heads(
    alloc: Global,
    manager: Manager,
    classes: Vec<Shape>,
    bytes: &[u8],
) -> Result<Module, Refusal>
    ensures { Gives (λ m. m) result (heads_behind manager classes.items bytes.now) }
{
    let (methods, rest) = match take_heads(alloc, bytes) {
        Ok(pair) => pair,
        Err(e) => return Err(e),
    };
    read_rows(alloc, manager, classes, methods, rest)
}

// The rest of a module, from the count of its classes on.
#[tactic(auto, unfolding(crate::specs::Inner::Reading::shapes_behind))]
fn read_shapes(alloc: Global, manager: Manager, bytes: &[u8]) -> Result<Module, Refusal>
    ensures { Gives (λ m. m) result (shapes_behind manager bytes.now) }
{
    let (classes, rest) = match take_shapes(alloc, bytes) {
        Ok(pair) => pair,
        Err(e) => return Err(e),
    };
    read_heads(alloc, manager, classes, rest)
}

// The rest of a module, from its manager on.
#[tactic(auto, unfolding(crate::specs::Inner::Reading::manager_behind))]
fn read_manager(alloc: Global, bytes: &[u8]) -> Result<Module, Refusal>
    ensures { Gives (λ m. m) result (manager_behind bytes.now) }
{
    let Some((manager, rest)) = take_manager(bytes) else {
        return Err(Refusal::NotSpelt);
    };
    read_shapes(alloc, manager, rest)
}

// The module that all of the bytes are.
#[tactic(auto, unfolding(crate::specs::Inner::Reading::module_at))]
fn read(alloc: Global, bytes: &[u8]) -> Result<Module, Refusal>
    ensures { Gives (λ m. m) result (module_at bytes.now) }
{
    let Some(rest) = take_magic(bytes) else {
        return Err(Refusal::NotSpelt);
    };
    read_manager(alloc, rest)
}

/// The module that the bytes spell, or `E91` at line 0. A count that is read reserves nothing.
pub fn decode(alloc: Global, bytes: &[u8]) -> Result<Module, Stop>
    ensures spelt { Decodes bytes.now result }
    ensures again { (m : Parts) → Spells bytes.now m → IsModule result m }
{
    match read(alloc, bytes) {
        Ok(module) => Ok(module),
        Err(Refusal::NotSpelt) => {
            let code = Code::Module;
            Err(Stop::Fault(Fault { code, line: 0 }))
        }
        Err(Refusal::Memory) => Err(Stop::Memory),
    }
}
