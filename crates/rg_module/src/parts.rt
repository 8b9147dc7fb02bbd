//! A module (docs/architecture.md, "Modules").

ghost use Rattle.std.specs.Prelude.{◌≡◌, ◌<◌, ◌≤◌, ℕ, length, Some, slice_get, slice_set};
ghost use Rattle.std.specs.Prelude.{OnOk, OnErr};
ghost use Rattle.rg_code.specs.Shapes.{IsMark};
ghost use Rattle.rg_module.specs.Parts.{parts_of, with_code, with_class, with_head};
ghost use Rattle.rg_module.specs.Inner.Rows.{IsPadded};

use crate::rows::Read;
use rg_base::{Manager, Memory, Ty};
use rg_code::{CodeList, Op};
use rg_spell::{Head, Shape, Tys};
use std::alloc::Global;
use std::marker::Model;

/// A module: main's manager, the classes, the heads of the methods, the code, and the maps of its
/// marks; contracts see its `Parts`.
#[derive(Drop)]
pub struct Module {
    alloc: Global,
    manager: Manager,
    classes: Vec<Shape>,
    methods: Vec<Head>,
    code: CodeList,
    // the maps of the first instructions
    maps: Vec<Tys>,
}

impl Model for Module {
    ghost use Rattle.std.specs.Prelude.{length, ◌≤◌};
    ghost use Rattle.rg_module.specs.Parts.{Parts, parts_of};

    ghost Value = { Parts };

    ghost view = { λ m. parts_of m.manager m.classes.items m.methods.items m.code m.maps.items };

    ghost invariant = { λ m. length m.maps.items ≤ length m.code.ops };
}

// Appends empty maps, up to one at a place.
fn pad(alloc: Global, maps: &mut Vec<Tys>, at: usize) -> Result<(), Memory>
    ensures there { OnOk result (at < length maps.new.items) }
    ensures same { (n : ℕ) → at < n → length maps.old.items ≤ n →
        IsPadded n maps.old.items maps.new.items }
{
    while maps.len() <= at {
        let Ok(()) = maps.push(Tys::new(alloc)) else {
            return Err(Memory);
        };
    }
    Ok(())
}

impl Module {
    /// A module with this code, and no classes, methods or maps.
    pub fn new(alloc: Global, manager: Manager, code: CodeList) -> Module
        ensures { result ≡ with_code manager code }
    {
        Module {
            alloc,
            manager,
            classes: Vec::new(alloc),
            methods: Vec::new(alloc),
            code,
            maps: Vec::new(alloc),
        }
    }

    /// The module that has these parts.
    pub(crate) fn of(
        alloc: Global,
        manager: Manager,
        classes: Vec<Shape>,
        methods: Vec<Head>,
        read: Read,
    ) -> Module
        requires { length read.maps.items ≤ length read.code.ops }
        ensures { result ≡ parts_of manager classes.items methods.items read.code read.maps.items }
    {
        Module {
            alloc,
            manager,
            classes,
            methods,
            code: read.code,
            maps: read.maps,
        }
    }

    /// Appends a class.
    pub fn add_class(&mut self, shape: Shape) -> Result<(), Memory>
        ensures ok { OnOk result (self.new ≡ with_class self.old shape) }
        ensures err { OnErr result (self.new ≡ self.old) }
    {
        match self.classes.push(shape) {
            Ok(()) => Ok(()),
            Err(_) => Err(Memory),
        }
    }

    /// Appends the head of a method.
    pub fn add_head(&mut self, head: Head) -> Result<(), Memory>
        ensures ok { OnOk result (self.new ≡ with_head self.old head) }
        ensures err { OnErr result (self.new ≡ self.old) }
    {
        match self.methods.push(head) {
            Ok(()) => Ok(()),
            Err(_) => Err(Memory),
        }
    }

    /// Keeps the map of a mark, which was empty until then.
    pub fn set_map(&mut self, at: usize, map: Tys) -> Result<(), Memory>
        requires { IsMark self.old.code.ops at }
        ensures ok { OnOk result (self.new
            ≡ record self.old { maps = slice_set self.old.maps at map }) }
        ensures err { OnErr result (self.new ≡ self.old) }
    {
        pad(self.alloc, &mut self.maps, at)?;
        self.maps[at] = map;
        Ok(())
    }

    /// Main's manager.
    pub fn manager(&self) -> Manager
        ensures { result ≡ self.now.manager }
    {
        self.manager
    }

    /// The classes, in order.
    pub fn classes(&self) -> &[Shape]
        ensures { result.now ≡ self.now.classes }
    {
        self.classes.as_slice()
    }

    /// The heads of the methods, in order.
    pub fn methods(&self) -> &[Head]
        ensures { result.now ≡ self.now.methods }
    {
        self.methods.as_slice()
    }

    /// The code.
    pub fn code(&self) -> &CodeList
        ensures { result.now ≡ self.now.code }
    {
        &self.code
    }

    /// The map of a mark: the types of the variables there.
    pub fn map(&self, at: usize) -> &[Ty]
        requires { IsMark self.now.code.ops at }
        ensures { slice_get self.now.maps at ≡ Some result.now }
    {
        self.map_at(at)
    }

    /// The number of instructions, each of which has a map.
    pub fn op_count(&self) -> usize
        ensures ops { result ≡ length self.now.code.ops }
        ensures maps { result ≡ length self.now.maps }
    {
        self.code.len()
    }

    /// An instruction.
    pub(crate) fn op_at(&self, at: usize) -> Op
        requires there { at < length self.now.code.ops }
        ensures { slice_get self.now.code.ops at ≡ Some result }
    {
        self.code.get(at)
    }

    /// The map of an instruction; that of one that is no mark is empty, or never read.
    pub fn map_at(&self, at: usize) -> &[Ty]
        requires there { at < length self.now.code.ops }
        ensures { slice_get self.now.maps at ≡ Some result.now }
    {
        if at < self.maps.len() {
            self.maps[at].items()
        } else {
            &[]
        }
    }
}
