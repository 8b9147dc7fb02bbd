//! The values of an object of a cargo (docs/architecture.md, "Cargo").

ghost use Rattle.std.specs.Prelude.{◌≡◌, ◌<◌, ◌≤◌, [], ◌∷◌, ◌++◌, length, slice_get, OnOk, OnErr};
ghost use Rattle.std.specs.Prelude.{IfOk, Some, take};
ghost use Rattle.rg_cown.specs.Inner.Room.{value_of, kind_in, values_of, values_in, AreFew};

use rg_base::{Memory, Val};
use std::alloc::Global;
use std::marker::Model;

/// The values of an object, in the order of its class; contracts see the list. Up to three stand
/// in the object itself, more of them in a list beside it.
#[derive(Drop)]
pub struct Fields {
    alloc: Global,
    room: Room,
}

/// A value as it stands in an object; contracts see the value.
#[derive(Drop)]
pub struct Packed {
    kind: Kind,
    number: u64,
}

// What kind of value stands there.
#[derive(Clone, Copy)]
enum Kind {
    Nil,
    Int,
    Bool,
    Obj,
}

// Where the values stand. What stands in the object are kinds and numbers, of which so many count.
#[derive(Drop)]
enum Room {
    Here {
        count: u8,
        kinds: [Kind; 3],
        numbers: [u64; 3],
    },
    Beside(Vec<Val>),
}

// The value of that kind and number.
#[inline(always)]
fn value_in(kind: Kind, number: u64) -> Val
    ensures { result ≡ value_of kind number }
{
    match kind {
        Kind::Nil => Val::Nil,
        Kind::Int => Val::Int(number.cast_signed()),
        Kind::Bool => Val::Bool(number != 0),
        Kind::Obj => Val::Obj(number),
    }
}

// The kind of a value.
#[inline(always)]
fn kind_of(v: Val) -> Kind
    ensures { result ≡ kind_in v }
{
    match v {
        Val::Nil => Kind::Nil,
        Val::Int(_) => Kind::Int,
        Val::Bool(_) => Kind::Bool,
        Val::Obj(_) => Kind::Obj,
    }
}

// The number of a value.
#[inline(always)]
fn number_in(v: Val) -> u64
    ensures { value_of (kind_in v) result ≡ v }
{
    match v {
        Val::Nil => 0,
        Val::Int(n) => n.cast_unsigned(),
        Val::Bool(b) => u64::from(b),
        Val::Obj(object) => object,
    }
}

impl Model for Packed {
    ghost use Rattle.rg_base.specs.declared.value.Val.{Val};
    ghost use Rattle.rg_cown.specs.Inner.Room.{value_of};

    ghost Value = { Val };

    ghost view = { λ p. value_of p.kind p.number };
}

impl Packed {
    /// A value.
    #[inline(always)]
    pub fn of(v: Val) -> Packed
        ensures { result ≡ v }
    {
        Packed {
            kind: kind_of(v),
            number: number_in(v),
        }
    }
}

// One value more behind those that count.
#[inline(always)]
fn and(count: u8, kinds: &[Kind; 3], numbers: &[u64; 3], v: Val) -> Room
    requires { count < 3 }
    ensures values { values_in result ≡ values_of count kinds.now numbers.now ++ v ∷ [] }
    ensures few { AreFew result }
{
    let mut kinds = *kinds;
    let mut numbers = *numbers;
    kinds[count as usize] = kind_of(v);
    numbers[count as usize] = number_in(v);
    Room::Here {
        count: count + 1,
        kinds,
        numbers,
    }
}

// The values that count, as a list.
fn few_listed(
    alloc: Global,
    count: u8,
    kinds: &[Kind; 3],
    numbers: &[u64; 3],
) -> Result<Vec<Val>, Memory>
    requires { count ≤ 3 }
    ensures { IfOk result (λ values. values.items ≡ values_of count kinds.now numbers.now) }
{
    let mut values = Vec::new(alloc);
    for k in 0..count as usize {
        let Ok(()) = values.push(value_in(kinds[k], numbers[k])) else {
            return Err(Memory);
        };
    }
    Ok(values)
}

// The values, wherever they stand, as a list.
fn listed(alloc: Global, room: &Room) -> Result<Vec<Val>, Memory>
    requires { AreFew room.now }
    ensures { IfOk result (λ values. values.items ≡ values_in room.now) }
{
    match room {
        Room::Here {
            count,
            kinds,
            numbers,
        } => few_listed(alloc, *count, kinds, numbers),
        Room::Beside(values) => match Vec::from_slice(alloc, values.as_slice()) {
            Ok(values) => Ok(values),
            Err(_) => Err(Memory),
        },
    }
}

// The value at a place of those that count, where one stands.
#[inline(always)]
fn few_at(count: u8, kinds: &[Kind; 3], numbers: &[u64; 3], k: usize) -> Val
    requires few { count ≤ 3 }
    requires there { k < count }
    ensures { slice_get (values_of count kinds.now numbers.now) k ≡ Some result }
{
    value_in(kinds[k], numbers[k])
}

// The value at a place of a list, where one stands.
#[inline(always)]
fn many_at(values: &[Val], k: usize) -> Val
    requires { k < length values.now }
    ensures { slice_get values.now k ≡ Some result }
{
    values[k]
}

// The value at a place of those that count.
#[inline(always)]
fn value_at(count: u8, kinds: &[Kind; 3], numbers: &[u64; 3], k: usize) -> Option<Val>
    requires { count ≤ 3 }
    ensures { result ≡ slice_get (values_of count kinds.now numbers.now) k }
{
    if k < count as usize {
        Some(few_at(count, kinds, numbers, k))
    } else {
        None
    }
}

impl Model for Fields {
    ghost use Rattle.std.specs.Prelude.{List};
    ghost use Rattle.rg_base.specs.declared.value.Val.{Val};
    ghost use Rattle.rg_cown.specs.Inner.Room.{values_in, AreFew};

    ghost Value = { List Val };

    ghost view = { λ f. values_in f.room };

    ghost invariant = { λ f. AreFew f.room };
}

impl Fields {
    /// No values.
    #[inline(always)]
    pub fn new(alloc: Global) -> Fields
        ensures { result ≡ [] }
    {
        Fields {
            alloc,
            room: Room::Here {
                count: 0,
                kinds: [Kind::Nil; 3],
                numbers: [0; 3],
            },
        }
    }

    /// The first so many of three values.
    #[inline(always)]
    pub fn few(alloc: Global, count: u8, a: Packed, b: Packed, c: Packed) -> Fields
        requires { count ≤ 3 }
        ensures { result ≡ take count (a ∷ b ∷ c ∷ []) }
    {
        Fields {
            alloc,
            room: Room::Here {
                count,
                kinds: [a.kind, b.kind, c.kind],
                numbers: [a.number, b.number, c.number],
            },
        }
    }

    /// The number of values.
    #[inline(always)]
    pub fn len(&self) -> usize
        ensures { result ≡ length self.now }
    {
        match &self.room {
            Room::Here { count, .. } => *count as usize,
            Room::Beside(values) => values.len(),
        }
    }

    /// The value at a place, counted from 0; None past the last one.
    #[inline(always)]
    pub fn get(&self, k: usize) -> Option<Val>
        ensures { result ≡ slice_get self.now k }
    {
        match &self.room {
            Room::Here {
                count,
                kinds,
                numbers,
            } => value_at(*count, kinds, numbers, k),
            Room::Beside(values) => values.get(k).copied(),
        }
    }

    /// The value at a place where one stands.
    #[inline(always)]
    pub fn at(&self, k: usize) -> Val
        requires { k < length self.now }
        ensures { slice_get self.now k ≡ Some result }
    {
        match &self.room {
            Room::Here {
                count,
                kinds,
                numbers,
            } => few_at(*count, kinds, numbers, k),
            Room::Beside(values) => many_at(values.as_slice(), k),
        }
    }

    /// Appends a value.
    #[inline(always)]
    pub fn push(&mut self, v: Val) -> Result<(), Memory>
        ensures ok { OnOk result (self.new ≡ self.old ++ v ∷ []) }
        ensures err { OnErr result (self.new ≡ self.old) }
    {
        match &self.room {
            Room::Here {
                count,
                kinds,
                numbers,
            } => {
                if *count < 3 {
                    self.room = and(*count, kinds, numbers, v);
                    return Ok(());
                }
            }
            Room::Beside(_) => {}
        }
        self.push_beside(v)
    }

    // Appends a value to those that stand beside, or come to stand there.
    #[inline(never)]
    fn push_beside(&mut self, v: Val) -> Result<(), Memory>
        ensures ok { OnOk result (self.new ≡ self.old ++ v ∷ []) }
        ensures err { OnErr result (self.new ≡ self.old) }
    {
        match &mut self.room {
            Room::Here { .. } => {}
            Room::Beside(values) => {
                return match values.push(v) {
                    Ok(()) => Ok(()),
                    Err(_) => Err(Memory),
                };
            }
        }
        let mut values = listed(self.alloc, &self.room)?;
        let Ok(()) = values.push(v) else {
            return Err(Memory);
        };
        self.room = Room::Beside(values);
        Ok(())
    }
}
