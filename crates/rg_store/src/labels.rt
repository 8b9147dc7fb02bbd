//! The regions of labels, and other labels for all that lies in some regions (docs/language.md,
//! "Steps").

ghost use Rattle.std.specs.Prelude.{◌<◌, ◌≡◌, IfSome, List, Some, length, option_and_then};
ghost use Rattle.std.specs.Prelude.{slice_get, ℕ};
ghost use Rattle.rg_base.specs.declared.object.Seen.{Seen};
ghost use Rattle.rg_tree.specs.Rows.Tables.{Tables};
ghost use Rattle.rg_rules.specs.Regions.{address, among, in_regions, region_at, region_of};
ghost use Rattle.rg_rules.specs.Regions.{relabelled, relabelled_object};
ghost use Rattle.rg_store.specs.Regions.{AreRegions, LabelFits, LabelsFit, is_marked};
ghost use Rattle.rg_store.specs.Shown.{AreOfClasses, seen_of, store_of};

use crate::objects::ObjectRow;
use rg_base::{Label, Val};

/// Some regions.
#[derive(Drop)]
pub enum Regions {
    /// one alone
    One(u64),
    /// those that have a mark
    Marked(Vec<bool>),
}

/// The region of a label.
pub fn region(label: Label) -> Option<u64>
    ensures { result ≡ region_of label }
{
    match label {
        Label::Region(region) => Some(region),
        Label::Temp(_) | Label::Frozen => None,
    }
}

/// The region in which the object at a place lies.
pub fn region_at(store: &[ObjectRow], place: usize) -> Option<u64>
    requires { place < length store.now }
    ensures region { (o : Seen) → slice_get (store_of store.now) place ≡ Some o →
        region_of o.label ≡ result }
    ensures made { IfSome result (λ r. (count : ℕ) → LabelsFit count (store_of store.now) →
        r < count) }
{
    let object = &store[place];
    region(object.label)
}

/// The region in which the object lies to which a value leads.
pub fn region_led(store: &[ObjectRow], v: Val) -> Option<u64>
    ensures { result ≡ option_and_then (region_at (store_of store.now)) (address v) }
{
    match v {
        Val::Obj(serial) => match store.get(serial as usize) {
            Some(object) => region(object.label),
            None => None,
        },
        Val::Nil | Val::Int(_) | Val::Bool(_) => None,
    }
}

/// Whether a region has a mark.
fn has_mark(marks: &[bool], region: u64) -> bool
    ensures { result ≡ is_marked marks.now region }
{
    match marks.get(region as usize) {
        Some(mark) => *mark,
        None => false,
    }
}

/// Whether a region is one of these.
fn has(regions: &Regions, region: u64) -> bool
    ensures { (these : List ℕ) → AreRegions regions.now these → result ≡ among these region }
{
    match regions {
        Regions::One(one) => *one == region,
        Regions::Marked(marks) => has_mark(marks, region),
    }
}

/// Whether a label is one of these regions.
fn is_in(regions: &Regions, label: Label) -> bool
    ensures { (these : List ℕ) → AreRegions regions.now these → result ≡ in_regions these label }
{
    match label {
        Label::Region(region) => has(regions, region),
        Label::Temp(_) | Label::Frozen => false,
    }
}

/// Gives an object another label, if it lies in one of these regions.
fn relabel_object(object: &mut ObjectRow, regions: &Regions, label: Label)
    ensures { (these : List ℕ) → AreRegions regions.now these →
        seen_of object.new ≡ relabelled_object these label (seen_of object.old) }
{
    if is_in(regions, object.label) {
        object.label = label;
    }
}

/// Gives all objects of these regions another label.
pub fn relabel(store: &mut [ObjectRow], regions: &Regions, label: Label)
    requires regions { (these : List ℕ) × AreRegions regions.now these }
    ensures relabelled { (these : List ℕ) → AreRegions regions.now these →
        store_of store.new ≡ relabelled these label (store_of store.old) }
    ensures classes { (t : Tables) → AreOfClasses t store.old → AreOfClasses t store.new }
    ensures labels { (count : ℕ) → LabelFits count label → LabelsFit count (store_of store.old) →
        LabelsFit count (store_of store.new) }
{
    for object in store {
        relabel_object(object, regions, label);
    }
}
