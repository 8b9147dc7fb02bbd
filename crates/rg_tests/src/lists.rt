//! Tests of what no clause says: that lists grow with ample memory (docs/architecture.md, "Tests").

ghost use Rattle.std.specs.Prelude.{◌≡◌};

use rg_base::{ByteList, Memory, Ty, Val, Vals};
use rg_module::Tys;
use std::alloc::{AllocError, Global};

// Nine values come.
fn grow(vals: &mut Vals) -> Result<(), Memory> {
    for n in 0..9 {
        vals.push(Val::Int(n))?;
    }
    Ok(())
}

// Three bytes come.
fn spell(bytes: &mut ByteList) -> Result<(), Memory> {
    bytes.push(b'a')?;
    bytes.extend(b"bc")
}

#[test]
fn lists_grow(rt: HostRuntime) {
    let mut vals = Vals::new(rt.alloc());
    assert!(rt; grow(&mut vals).is_ok() && vals.len() == 9 && vals.get(9).is_none());
    assert!(rt; matches!(vals.get(8), Some(Val::Int(8))));
    let mut bytes = ByteList::new(rt.alloc());
    assert!(rt; spell(&mut bytes).is_ok() && bytes.bytes() == b"abc".as_slice());
}

// What a list has that is made of a vector, given back as one.
fn values_kept(values: Vec<Val>) -> Vec<Val>
    ensures { result.items ≡ values.items }
{
    Vec::from(Vals::from(values))
}

fn bytes_kept(bytes: Vec<u8>) -> Vec<u8>
    ensures { result.items ≡ bytes.items }
{
    Vec::from(ByteList::from(bytes))
}

fn types_kept(types: Vec<Ty>) -> Vec<Ty>
    ensures { result.items ≡ types.items }
{
    Vec::from(Tys::from(types))
}

// Whether each list has what it was made of.
fn are_kept(alloc: Global) -> Result<bool, AllocError> {
    let mut values = Vec::new(alloc);
    values.push(Val::Obj(3))?;
    let mut bytes = Vec::new(alloc);
    bytes.push(b'a')?;
    let mut types = Vec::new(alloc);
    types.push(Ty::Bool)?;
    let are_values = values_kept(values).as_slice() == [Val::Obj(3)].as_slice();
    let are_bytes = bytes_kept(bytes).as_slice() == b"a".as_slice();
    Ok(are_values && are_bytes && types_kept(types).as_slice() == [Ty::Bool].as_slice())
}

#[test]
fn a_list_is_made_of_a_vector_and_given_back(rt: HostRuntime) {
    assert!(rt; matches!(are_kept(rt.alloc()), Ok(true)));
}
