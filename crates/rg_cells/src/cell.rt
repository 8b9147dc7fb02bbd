//! A place of the table in 64 bytes (docs/architecture.md, "Cells").

ghost use Rattle.std.specs.Prelude.{◌≡◌, ◌<◌, ◌≤◌, length, slice_get, Some, None};
ghost use Rattle.std.specs.Prelude.{IsSome, slice_set, true, false, not};
ghost use Rattle.rg_cells.specs.Inner.Layout.{word_of, kind_in, few_of, is_free, is_linked};
ghost use Rattle.rg_cells.specs.Inner.Layout.{label_in, number_in_label, is_beside, is_there, many_of};
ghost use Rattle.rg_cells.specs.Inner.Layout.{index_in};
ghost use Rattle.rg_cells.specs.Inner.Places.{link_of, Puts, Links, Labels};
ghost use Rattle.rg_cells.specs.Inner.Places.{IsNew, Clears};

use crate::fields::Fields;
use rg_base::{Label, Word};

/// What a cell shows of an object. A class goes by its number; the serial counts all cells made,
/// from 0; the fields are those of the class, in source order.
#[derive(Drop)]
pub struct Body {
    pub class: u32,
    pub label: Label,
    pub serial: u64,
    pub fields: Fields,
}

/// Whether a place is free, or to what its cell belongs; and whether it has a link.
#[derive(Clone, Copy)]
pub enum State {
    Free,
    Region,
    Temp,
    Frozen,
    LinkedFree,
    LinkedRegion,
    LinkedTemp,
    LinkedFrozen,
}

/// What kind of word a field holds; that there is no field; or that all fields stand beside.
#[derive(Clone, Copy)]
pub enum Kind {
    Nil,
    Int,
    Bool,
    Slot,
    Absent,
    Beside,
}

/// A place. What its fields hold are kinds and numbers of 64 bits.
#[derive(Clone, Copy)]
pub struct Cell {
    pub class: u32,
    pub state: State,
    pub kinds: [Kind; 3],
    // the number of the region or the window; of a free place, the place that is free next
    pub number: u64,
    pub serial: u64,
    pub mark: u64,
    pub link: u64,
    // or, first, which list beside the cells has the fields
    pub words: [u64; 3],
}

/// The fields of a cell that has many, and the slot of the cell.
#[derive(Drop)]
pub struct Beside {
    pub owner: usize,
    pub fields: Fields,
}

/// What a field of that kind and number holds.
#[inline(always)]
pub fn word_in(kind: Kind, number: u64) -> Word
    ensures { result ≡ word_of kind number }
{
    match kind {
        Kind::Int => Word::Int(number.cast_signed()),
        Kind::Bool => Word::Bool(number != 0),
        Kind::Slot => Word::Slot(number as usize),
        Kind::Nil | Kind::Absent | Kind::Beside => Word::Nil,
    }
}

/// The kind of a word.
#[inline(always)]
pub fn kind_of(w: Word) -> Kind
    ensures { result ≡ kind_in w }
{
    match w {
        Word::Nil => Kind::Nil,
        Word::Int(_) => Kind::Int,
        Word::Bool(_) => Kind::Bool,
        Word::Slot(_) => Kind::Slot,
    }
}

/// The number of a word.
#[inline(always)]
pub fn number_in(w: Word) -> u64
    ensures { word_of (kind_in w) result ≡ w }
{
    match w {
        Word::Nil => 0,
        Word::Int(n) => n.cast_unsigned(),
        Word::Bool(b) => u64::from(b),
        Word::Slot(s) => s as u64,
    }
}

/// The state of a cell with that label, without a link.
#[inline(always)]
pub fn state_of(label: Label) -> State
    ensures label { label_in result (number_in_label label) ≡ label }
    ensures free { is_free result ≡ false }
    ensures link { is_linked result ≡ false }
{
    match label {
        Label::Region(_) => State::Region,
        Label::Temp(_) => State::Temp,
        Label::Frozen => State::Frozen,
    }
}

/// The number in a label.
#[inline(always)]
pub fn number_of(label: Label) -> u64
    ensures { result ≡ number_in_label label }
{
    match label {
        Label::Region(n) | Label::Temp(n) => n,
        Label::Frozen => 0,
    }
}

impl State {
    /// Whether a place has a link.
    #[inline(always)]
    pub fn is_linked(self) -> bool
        ensures { result ≡ is_linked self }
    {
        match self {
            State::Free | State::Region | State::Temp | State::Frozen => false,
            State::LinkedFree | State::LinkedRegion | State::LinkedTemp | State::LinkedFrozen =>
                true,
        }
    }

    /// The state without a link.
    #[inline(always)]
    pub fn unlinked(self) -> State
        ensures link { is_linked result ≡ false }
        ensures free { is_free result ≡ is_free self }
        ensures label { label_in result ≡ label_in self }
    {
        match self {
            State::Free | State::LinkedFree => State::Free,
            State::Region | State::LinkedRegion => State::Region,
            State::Temp | State::LinkedTemp => State::Temp,
            State::Frozen | State::LinkedFrozen => State::Frozen,
        }
    }

    /// The state with a link.
    #[inline(always)]
    pub fn linked(self) -> State
        ensures link { is_linked result ≡ true }
        ensures free { is_free result ≡ is_free self }
        ensures label { label_in result ≡ label_in self }
    {
        match self {
            State::Free | State::LinkedFree => State::LinkedFree,
            State::Region | State::LinkedRegion => State::LinkedRegion,
            State::Temp | State::LinkedTemp => State::LinkedTemp,
            State::Frozen | State::LinkedFrozen => State::LinkedFrozen,
        }
    }

    /// The state with another label, of a cell that is held.
    #[inline(always)]
    pub fn with_label(self, label: Label) -> State
        ensures link { is_linked result ≡ is_linked self }
        ensures free { is_free result ≡ false }
        ensures label { label_in result (number_in_label label) ≡ label }
    {
        let state = state_of(label);
        if self.is_linked() {
            return state.linked();
        }
        state
    }
}

impl Cell {
    /// A cell with that label and these kinds and numbers of fields, with no mark and no link.
    #[inline(always)]
    pub fn new(class: u32, label: Label, serial: u64, kinds: [Kind; 3], words: [u64; 3]) -> Cell
        ensures { IsNew result class label serial kinds words }
    {
        Cell {
            class,
            state: state_of(label),
            kinds,
            number: number_of(label),
            serial,
            mark: 0,
            link: 0,
            words,
        }
    }

    /// The place is free, and names the one that is free next.
    #[inline(always)]
    pub fn clear(&mut self, next: usize)
        ensures { Clears self.new next }
    {
        self.state = State::Free;
        self.number = next as u64;
        self.mark = 0;
    }

    /// Writes where the fields stand beside the cells.
    pub fn set_beside(&mut self, at: usize)
        requires { IsSome (index_in self.old.kinds self.old.words) }
        ensures words { self.new ≡ record self.old {
          words = slice_set self.old.words 0 at;
        } }
        ensures index { index_in self.new.kinds self.new.words ≡ Some at }
    {
        self.words[0] = at as u64;
    }

    /// To what the cell belongs.
    #[inline(always)]
    pub fn label(&self) -> Label
        ensures { result ≡ label_in self.now.state self.now.number }
    {
        match self.state {
            State::Region | State::LinkedRegion => Label::Region(self.number),
            State::Temp | State::LinkedTemp => Label::Temp(self.number),
            _ => Label::Frozen,
        }
    }

    /// The slot that the link names.
    #[inline(always)]
    pub fn link(&self) -> Option<usize>
        ensures { result ≡ link_of self.now }
    {
        if self.state.is_linked() {
            Some(self.link as usize)
        } else {
            None
        }
    }

    /// Whether a cell is held.
    #[inline(always)]
    pub fn is_held(&self) -> bool
        ensures { result ≡ not (is_free self.now.state) }
    {
        match self.state {
            State::Free | State::LinkedFree => false,
            _ => true,
        }
    }

    /// Writes the link.
    #[inline(always)]
    pub fn set_link(&mut self, next: Option<usize>)
        ensures { Links self.old self.new next }
    {
        match next {
            Some(to) => {
                self.state = self.state.linked();
                self.link = to as u64;
            }
            None => self.state = self.state.unlinked(),
        }
    }

    /// Writes the label.
    #[inline(always)]
    pub fn set_label(&mut self, label: Label)
        ensures { Labels self.old self.new label }
    {
        self.state = self.state.with_label(label);
        self.number = number_of(label);
    }

    /// Where the fields stand beside the cells, if they do.
    #[inline(always)]
    pub fn beside(&self) -> Option<usize>
        ensures { result ≡ index_in self.now.kinds self.now.words }
    {
        if is_beside(self.kinds[0]) {
            Some(self.words[0] as usize)
        } else {
            None
        }
    }

    /// The number of fields in the cell itself.
    #[inline(always)]
    pub fn few(&self) -> u32
        ensures { result ≡ length (few_of self.now.kinds self.now.words) }
    {
        many_of(self.kinds[0], self.kinds[1], self.kinds[2])
    }

    /// A field that stands in the cell itself, if there are so many.
    #[inline(never)]
    pub fn element(&self, index: usize) -> Option<Word>
        ensures { slice_get (few_of self.now.kinds self.now.words) index ≡ result }
    {
        if index < self.few() as usize {
            Some(self.get(index as u32))
        } else {
            None
        }
    }

    /// A field that stands in the cell itself.
    #[inline(always)]
    pub fn get(&self, k: u32) -> Word
        requires { k < length (few_of self.now.kinds self.now.words) }
        ensures { slice_get (few_of self.now.kinds self.now.words) k ≡ Some result }
    {
        word_in(self.kinds[k as usize], self.words[k as usize])
    }

    /// Writes a field that stands in the cell itself.
    #[inline(always)]
    pub fn put(&mut self, k: u32, w: Word)
        requires { k < length (few_of self.old.kinds self.old.words) }
        ensures { Puts self.old self.new k w }
    {
        self.kinds[k as usize] = kind_of(w);
        self.words[k as usize] = number_in(w);
    }
}

/// The kinds and the numbers of fields that stand beside, in the list of that number.
pub fn far(at: usize) -> ([Kind; 3], [u64; 3])
    ensures { index_in result.0 result.1 ≡ Some at }
{
    (
        [Kind::Beside, Kind::Absent, Kind::Absent],
        [at as u64, 0, 0],
    )
}

/// Whether a kind says that all fields stand beside the cells.
#[inline(always)]
fn is_beside(kind: Kind) -> bool
    ensures { result ≡ is_beside kind }
{
    match kind {
        Kind::Beside => true,
        _ => false,
    }
}

/// Whether a kind says that there is a field.
#[inline(always)]
fn is_there(kind: Kind) -> bool
    ensures { result ≡ is_there kind }
{
    match kind {
        Kind::Absent => false,
        _ => true,
    }
}

/// How many fields stand in a cell with fields of these kinds, found without a jump.
#[inline(always)]
fn many_of(a: Kind, b: Kind, c: Kind) -> u32
    ensures { result ≡ many_of a b c }
{
    let first = is_there(a);
    let second = first & is_there(b);
    let third = second & is_there(c);
    u32::from(first) + u32::from(second) + u32::from(third)
}

/// The kinds and the numbers of fields that stand in a cell itself.
#[inline(always)]
pub fn few(fields: &[Word]) -> ([Kind; 3], [u64; 3])
    requires { length fields.now ≤ 3 }
    ensures fields { few_of result.0 result.1 ≡ fields.now }
    ensures near { index_in result.0 result.1 ≡ None }
{
    match fields {
        [] => ([Kind::Absent; 3], [0; 3]),
        [a] => (
            [kind_of(*a), Kind::Absent, Kind::Absent],
            [number_in(*a), 0, 0],
        ),
        [a, b] => (
            [kind_of(*a), kind_of(*b), Kind::Absent],
            [number_in(*a), number_in(*b), 0],
        ),
        [a, b, c, ..] => (
            [kind_of(*a), kind_of(*b), kind_of(*c)],
            [number_in(*a), number_in(*b), number_in(*c)],
        ),
    }
}
