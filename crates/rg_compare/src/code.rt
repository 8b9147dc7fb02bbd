//! Whether the code of two modules is the same (docs/architecture.md, "Modules").

ghost use Rattle.std.specs.Prelude.{◌≡◌, ◌<◌, ◌^◌, length};
ghost use Rattle.rg_compare.specs.Telling.{TellsSame};

use crate::operands::same_op;
use rg_base::Word;
use rg_code::{CodeList, Entry};

// Whether two lists of words are the same.
fn same_words(one: &[Word], other: &[Word]) -> bool
    ensures { TellsSame result one.now other.now }
{
    if one.len() != other.len() {
        return false;
    }
    let mut at = 0;
    while at < one.len() {
        if one[at] != other[at] {
            return false;
        }
        at += 1;
    }
    true
}

// Whether two methods stand at one address, with as many parameters and slots.
fn same_entry(one: Entry, other: Entry) -> bool
    ensures { TellsSame result one other }
{
    if one.at != other.at {
        return false;
    }
    if one.given != other.given {
        return false;
    }
    if one.slots != other.slots {
        return false;
    }
    true
}

// Whether the instructions are the same.
fn same_ops(one: &CodeList, other: &CodeList) -> bool
    ensures { TellsSame result one.now.ops other.now.ops }
{
    if one.len() != other.len() {
        return false;
    }
    let mut at = 0;
    while at < one.len() {
        if !same_op(one.get(at), other.get(at)) {
            return false;
        }
        at += 1;
    }
    true
}

// Whether classes open with the same words.
fn same_openings(one: &CodeList, other: &CodeList) -> bool
    requires { length one.now.openings < 2 ^ 32 }
    ensures { TellsSame result one.now.openings other.now.openings }
{
    if one.class_count() != other.class_count() {
        return false;
    }
    let count = one.class_count() as u32;
    let mut class = 0;
    while class < count {
        if !same_words(one.opening(class), other.opening(class)) {
            return false;
        }
        class += 1;
    }
    true
}

// Whether methods stand at the same places.
fn same_entries(one: &CodeList, other: &CodeList) -> bool
    requires { length one.now.entries < 2 ^ 32 }
    ensures { TellsSame result one.now.entries other.now.entries }
{
    if one.method_count() != other.method_count() {
        return false;
    }
    let count = one.method_count() as u32;
    let mut method = 0;
    while method < count {
        if !same_entry(one.entry(method), other.entry(method)) {
            return false;
        }
        method += 1;
    }
    true
}

/// Whether two codes are the same, of which the one has counts of 32 bits.
pub(crate) fn same_code(one: &CodeList, other: &CodeList) -> bool
    requires classes { length one.now.openings < 2 ^ 32 }
    requires methods { length one.now.entries < 2 ^ 32 }
    ensures { TellsSame result one.now other.now }
{
    if one.main_slots() != other.main_slots() {
        return false;
    }
    if !same_openings(one, other) {
        return false;
    }
    if !same_entries(one, other) {
        return false;
    }
    if !same_ops(one, other) {
        return false;
    }
    true
}
