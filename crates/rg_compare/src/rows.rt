//! Whether the classes and the heads of methods of two modules are the same
//! (docs/architecture.md, "Modules").

ghost use Rattle.std.specs.Prelude.{◌≡◌};
ghost use Rattle.rg_compare.specs.Telling.{TellsSame};

use crate::types::{same_option, same_types};
use rg_module::{Head, Shape};

// Whether two classes are the same.
fn same_shape(one: &Shape, other: &Shape) -> bool
    ensures { TellsSame result one.now other.now }
{
    if one.is_tmp != other.is_tmp {
        return false;
    }
    if !same_types(one.fields.items(), other.fields.items()) {
        return false;
    }
    if !same_option(one.element, other.element) {
        return false;
    }
    true
}

// Whether the heads of two methods are the same.
fn same_head(one: &Head, other: &Head) -> bool
    ensures { TellsSame result one.now other.now }
{
    if one.class != other.class {
        return false;
    }
    if one.cap != other.cap {
        return false;
    }
    if !same_types(one.params.items(), other.params.items()) {
        return false;
    }
    if !same_option(one.result, other.result) {
        return false;
    }
    true
}

/// Whether two lists of classes are the same.
pub(crate) fn same_shapes(one: &[Shape], other: &[Shape]) -> bool
    ensures { TellsSame result one.now other.now }
{
    if one.len() != other.len() {
        return false;
    }
    let mut at = 0;
    while at < one.len() {
        if !same_shape(&one[at], &other[at]) {
            return false;
        }
        at += 1;
    }
    true
}

/// Whether two lists of heads are the same.
pub(crate) fn same_heads(one: &[Head], other: &[Head]) -> bool
    ensures { TellsSame result one.now other.now }
{
    if one.len() != other.len() {
        return false;
    }
    let mut at = 0;
    while at < one.len() {
        if !same_head(&one[at], &other[at]) {
            return false;
        }
        at += 1;
    }
    true
}
