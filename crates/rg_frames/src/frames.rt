//! Frames, windows and temporaries (docs/architecture.md, "Frames").

ghost use Rattle.std.specs.Prelude.{◌≡◌, ◌≤◌, ◌+◌, ◌-◌, ◌<◌, ◌^◌, ◌++◌, ◌∷◌, ◌↔◌, None, Some, Ok, Err, slice_set};
ghost use Rattle.std.specs.Prelude.{IfSome, IsNone, OnOk, OnErr, slice_index_or, length, drop, take, replicate};
ghost use Rattle.std.specs.Prelude.{slice_get, slice_set, unwrap_or, vec_len, vec_capacity};
ghost use Rattle.std.specs.Prelude.{true, false, ℕ, List};
ghost use Rattle.rg_base.specs.declared.value.Word.{Word as WordOf};
ghost use Rattle.std.specs.List.{list_any};
ghost use Rattle.rg_base.specs.declared.limits.TheConstants.{FRAMES as MOST};
ghost use Rattle.rg_base.specs.declared.value.Word.TheVariants.{Nil};
ghost use Rattle.rg_frames.specs.declared.rows.Window.{Window as WindowOf};
ghost use Rattle.rg_frames.specs.declared.rows.Frame.{Frame as FrameOf};
ghost use Rattle.rg_frames.specs.declared.rows.FrameRefusal.TheVariants.{Depth};
ghost use Rattle.rg_frames.specs.Inner.Layout.{NilFrom, IsPast, Unwritten, frames_of, lives_of};
ghost use Rattle.rg_frames.specs.Stack.{IsTop, mark};
ghost use Rattle.rg_frames.specs.Changes.{Begun, InTop, IsTopFrame, BaseUpTo};
ghost use Rattle.rg_frames.specs.Stack.{IsEmpty};
ghost use Rattle.rg_frames.specs.Changes.{HasRoom, roomed, begun, with_slot, with_temp};
ghost use Rattle.rg_frames.specs.Changes.{without_temps, ended, BasesRise, MarksLie};
ghost use Rattle.rg_frames.specs.Changes.{IsShown, with_shown};
ghost use Rattle.rg_frames.specs.Stack.{has_region};
ghost use Rattle.rg_frames.specs.Changes.{pushed, pushed_of, popped, opened, closed};

use crate::rows::{Frame, FrameRefusal, Row, Window};
use rg_base::{FRAMES, Memory, Place, Word};
use std::alloc::Global;
use std::marker::Model;

// so many slots are kept behind the top frame, so that `near` needs no test of where it ends
const NEAR: usize = 256;

/// Frames, windows and temporaries, each a stack.
#[derive(Drop)]
pub struct Frames {
    // the slots of all frames, main's first, and behind them nothing but nil
    slots: Vec<Word>,
    // where the slots of the top frame end
    top: usize,
    // the first slot of the top frame
    first: usize,
    // from this place on the slots of the top frame are nil
    live: usize,
    rows: Vec<Row>,
    windows: Vec<Window>,
    // the temporaries of all windows, and where those of each begin
    temps: Vec<usize>,
    marks: Vec<usize>,
    next: u64,
}

impl Model for Frames {
    ghost use Rattle.rg_frames.specs.Stack.{Stack};
    ghost use Rattle.rg_frames.specs.Inner.Layout.{Lies, GoesOn, NilFrom, Unwritten, stack_of};
    ghost use Rattle.rg_frames.specs.Inner.Layout.{frames_of, lives_of};
    ghost use Rattle.std.specs.Prelude.{length, take, vec_capacity};

    ghost Value = { Stack };

    ghost view = { λ s. stack_of s.slots s.top s.first s.rows s.windows s.temps s.marks s.next };

    ghost invariant = { λ s. Lies
        (stack_of s.slots s.top s.first s.rows s.windows s.temps s.marks s.next)
        × Unwritten (take s.top s.slots.items) s.first (frames_of s.rows.items) s.live
        (lives_of s.rows.items)
        × NilFrom s.slots.items s.top (length s.slots.items)
        × GoesOn (vec_capacity s.rows) s.top (length s.slots.items) };
}

impl Frames {
    /// No frame yet.
    pub fn new(alloc: Global) -> Frames
        ensures empty { IsEmpty result }
        ensures next { result.next ≡ 0 }
    {
        Frames {
            slots: Vec::new(alloc),
            top: 0,
            first: 0,
            live: 0,
            rows: Vec::new(alloc),
            windows: Vec::new(alloc),
            temps: Vec::new(alloc),
            marks: Vec::new(alloc),
            next: 0,
        }
    }

    /// Main's frame, and window 0 over it.
    pub fn begin(&mut self, region: usize, slots: u32) -> Result<(), Memory>
        requires { IsEmpty self.old }
        ensures ok { OnOk result
            (self.new ≡ roomed (begun region slots) self.new.frame_room self.new.slot_room) }
        ensures err { OnErr result
            (self.new ≡ roomed self.old self.new.frame_room self.new.slot_room) }
    {
        self.reserve(slots as usize)?;
        reserve_both(&mut self.windows, &mut self.marks)?;
        self.windows.push_reserved(Window {
            number: 0,
            region,
            owner: None,
            base: 0,
        });
        self.marks.push_reserved(0);
        self.next = 1;
        self.push_frame(0, slots);
        Ok(())
    }

    /// The number of frames.
    pub fn count(&self) -> usize
        ensures { result ≡ length self.now.frames }
    {
        self.rows.len()
    }

    /// Makes room for one more frame of so many slots.
    pub fn room(&mut self, slots: u32) -> Result<(), FrameRefusal>
        ensures depth { result ≡ Err Depth ↔ (MOST ≤ length self.old.frames) }
        ensures same { self.new ≡ roomed self.old self.new.frame_room self.new.slot_room }
        ensures ok { OnOk result (HasRoom self.new slots) }
    {
        if self.rows.len() >= FRAMES {
            return Err(FrameRefusal::Depth);
        }
        let Ok(()) = self.reserve(slots as usize) else {
            return Err(FrameRefusal::Memory);
        };
        Ok(())
    }

    /// Makes room for one more frame of so many slots, however many frames there are.
    pub fn reserve(&mut self, slots: usize) -> Result<(), Memory>
        ensures same { self.new ≡ roomed self.old self.new.frame_room self.new.slot_room }
        ensures ok { OnOk result (HasRoom self.new slots) }
    {
        let Ok(()) = lengthen(&mut self.slots, self.top, slots) else {
            return Err(Memory);
        };
        let Ok(()) = self.rows.reserve(1) else {
            return Err(Memory);
        };
        Ok(())
    }

    /// Whether there is room for one more frame of so many slots.
    #[inline]
    pub fn has_room(&self, slots: usize) -> bool
        ensures { result ≡ true ↔ HasRoom self.now slots }
    {
        self.rows.len() < self.rows.capacity() && slots <= self.slots.len() - self.top - NEAR
    }

    /// A frame of these words and so many slots more, all nil, for which there is room.
    pub fn push_frame_of(&mut self, back: usize, words: &[Word], more: usize)
        requires { HasRoom self.old (length words.now + more) }
        ensures { self.new ≡ pushed_of self.old back (words.now ++ replicate more Nil) }
    {
        let first = self.top;
        copy(&mut self.slots, first, words);
        self.rows.push_reserved(Row {
            frame: Frame {
                back,
                below: self.first,
            },
            live: self.live,
        });
        self.first = first;
        self.live = first + words.len();
        self.top = first + words.len() + more;
    }

    /// A frame of this word and so many slots more, all nil, for which there is room.
    #[inline(always)]
    pub fn push_one(&mut self, back: usize, w: Word, more: usize)
        requires { HasRoom self.old (1 + more) }
        ensures { self.new ≡ pushed_of self.old back (w ∷ replicate more Nil) }
    {
        let first = self.top;
        copy_one(&mut self.slots, first, w);
        self.rows.push_reserved(Row {
            frame: Frame {
                back,
                below: self.first,
            },
            live: self.live,
        });
        self.first = first;
        self.live = first + 1;
        self.top = first + 1 + more;
    }

    /// A frame of these two words and so many slots more, all nil, for which there is room.
    #[inline(always)]
    pub fn push_two(&mut self, back: usize, w: Word, x: Word, more: usize)
        requires { HasRoom self.old (2 + more) }
        ensures { self.new ≡ pushed_of self.old back (w ∷ x ∷ replicate more Nil) }
    {
        let first = self.top;
        copy_two(&mut self.slots, first, w, x);
        self.rows.push_reserved(Row {
            frame: Frame {
                back,
                below: self.first,
            },
            live: self.live,
        });
        self.first = first;
        self.live = first + 2;
        self.top = first + 2 + more;
    }

    /// A frame of so many slots, all nil, for which there is room.
    pub fn push_frame(&mut self, back: usize, slots: u32)
        requires { HasRoom self.old slots }
        ensures { self.new ≡ pushed self.old back slots }
    {
        let first = self.top;
        self.rows.push_reserved(Row {
            frame: Frame {
                back,
                below: self.first,
            },
            live: self.live,
        });
        self.first = first;
        self.live = first;
        self.top = first + slots as usize;
    }

    /// The top frame goes, over whose first slot no window has its base; answers where its return
    /// goes to.
    pub fn pop_frame(&mut self) -> usize
        requires two { 2 ≤ length self.old.frames }
        requires window { BaseUpTo self.old self.old.first }
        ensures back { (f : FrameOf) → IsTopFrame self.old f → result ≡ f.back }
        ensures gone { (f : FrameOf) → IsTopFrame self.old f → self.new ≡ popped self.old f }
    {
        let Some(row) = self.rows.pop() else {
            unreachable!();
        };
        clear(&mut self.slots, self.first, self.live);
        self.top = self.first;
        self.first = row.frame.below;
        self.live = row.live;
        row.frame.back
    }

    /// Where the return of the top frame goes to; None where there is no frame.
    #[inline]
    pub fn back(&self) -> Option<usize>
        ensures some { IfSome result (λ back. (f : FrameOf)
            × IsTopFrame self.now f × (f.back ≡ back)) }
        ensures none { IsNone result ↔ (length self.now.frames ≡ 0) }
    {
        match self.rows.last() {
            Some(row) => Some(row.frame.back),
            None => None,
        }
    }

    /// The place of a slot of the top frame among all slots.
    pub fn place(&self, s: u32) -> usize
        requires { InTop self.now s }
        ensures { result ≡ self.now.first + s }
    {
        self.first + s as usize
    }

    /// The word in a slot of the top frame.
    #[inline]
    pub fn slot(&self, s: u32) -> Word
        requires { InTop self.now s }
        ensures { slice_get self.now.slots (self.now.first + s) ≡ Some result }
    {
        self.slots[self.first + s as usize]
    }

    /// Writes a slot of the top frame.
    #[inline]
    pub fn set_slot(&mut self, s: u32, w: Word)
        requires { InTop self.old s }
        ensures { self.new ≡ with_slot self.old s w }
    {
        self.set_word(s, w);
    }

    /// The word in a slot of the top frame, or nil past the last one.
    #[inline]
    pub fn word(&self, s: u32) -> Word
        ensures { result ≡ unwrap_or (slice_get self.now.slots (self.now.first + s)) Nil }
    {
        let place = self.first + s as usize;
        if place < self.top {
            self.slots[place]
        } else {
            Word::Nil
        }
    }

    /// The same for one of the first 256 slots, with no test of where the frame ends.
    #[inline]
    pub fn near(&self, s: u8) -> Word
        requires { 0 < length self.now.frames }
        ensures { result ≡ unwrap_or (slice_get self.now.slots (self.now.first + s)) Nil }
    {
        self.slots[self.first + s as usize]
    }

    /// Makes nil a slot of the top frame, whatever its number; answers what it held.
    #[inline]
    pub fn take_word(&mut self, k: usize) -> Word
        requires { InTop self.old k }
        ensures word { slice_get self.old.slots (self.old.first + k) ≡ Some result }
        ensures nil { self.new ≡ with_slot self.old k Nil }
    {
        let place = self.first + k;
        let w = self.slots[place];
        self.slots[place] = Word::Nil;
        w
    }

    /// From this slot of the top frame on all are nil now.
    #[inline]
    pub fn settle(&mut self, s: u32)
        requires nil { ended self.old s ≡ self.old }
        requires within { self.old.first + s ≤ length self.old.slots }
        ensures { self.new ≡ self.old }
    {
        self.live = self.first + s as usize;
    }

    // Writes a place of the top frame, where it has one there.
    #[inline]
    fn put_word(&mut self, place: usize, w: Word)
        requires { self.old.first ≤ place }
        ensures { self.new ≡ record self.old { slots = slice_set self.old.slots place w } }
    {
        if place < self.top {
            self.set_place(place, w);
        }
    }

    /// Writes a slot of the top frame by its place among all slots.
    #[inline]
    pub fn set_place(&mut self, place: usize, w: Word)
        requires from { self.old.first ≤ place }
        requires within { place < length self.old.slots }
        ensures { self.new ≡ record self.old { slots = slice_set self.old.slots place w } }
    {
        self.slots[place] = w;
        if self.live <= place {
            self.live = place + 1;
        }
    }

    /// Writes a slot of the top frame, where there is one.
    #[inline]
    pub fn set_word(&mut self, s: u32, w: Word)
        ensures { self.new ≡ with_slot self.old s w }
    {
        let place = self.first + s as usize;
        self.put_word(place, w);
    }

    /// The word in a slot of the top frame, whatever its number.
    pub fn nth_word(&self, s: usize) -> Word
        requires { InTop self.now s }
        ensures { slice_get self.now.slots (self.now.first + s) ≡ Some result }
    {
        self.slots[self.first + s]
    }

    /// Makes nil a slot of the top frame, whatever its number.
    pub fn clear_word(&mut self, s: usize)
        requires { InTop self.old s }
        ensures { self.new ≡ with_slot self.old s Nil }
    {
        let place = self.first + s;
        self.put_word(place, Word::Nil);
    }

    /// Makes nil the slots of the top frame from one on, where there are any.
    #[inline]
    pub fn end_words(&mut self, s: u32)
        ensures { self.new ≡ ended self.old s }
    {
        let from = self.first + s as usize;
        if from < self.live {
            clear(&mut self.slots, from, self.live);
            self.live = from;
        }
    }

    /// From this slot of the top frame on all are nil.
    #[inline]
    pub fn live(&self) -> usize
        ensures nil { ended self.now result ≡ self.now }
        ensures within { self.now.first + result ≤ length self.now.slots }
    {
        self.live.saturating_sub(self.first)
    }

    /// The number of slots of the top frame.
    #[inline]
    pub fn size(&self) -> usize
        ensures { result ≡ length self.now.slots - self.now.first }
    {
        self.top - self.first
    }

    /// The place of the top frame's first slot among all slots.
    #[inline]
    pub fn first(&self) -> usize
        ensures { result ≡ self.now.first }
    {
        self.first
    }

    /// Makes nil the slots of the top frame from one on.
    #[inline]
    pub fn end_from(&mut self, s: u32)
        requires { self.old.first + s ≤ length self.old.slots }
        ensures { self.new ≡ ended self.old s }
    {
        self.end_words(s);
    }

    /// All slots from the top window's base.
    pub fn slots(&self) -> &[Word]
        requires { Begun self.now }
        ensures { (w : WindowOf) → IsTop self.now w → result.now ≡ drop w.base self.now.slots }
    {
        &self.slots[self.windows[self.windows.len() - 1].base..self.top]
    }

    /// The slots of the top frame.
    #[inline(always)]
    pub fn top_words(&self) -> &[Word]
        ensures { result.now ≡ drop self.now.first self.now.slots }
    {
        &self.slots[self.first..self.top]
    }

    /// Writes the k-th of the words that `slots` shows.
    pub fn set_shown(&mut self, k: usize, w: Word)
        requires { IsShown self.old k }
        ensures { (t : WindowOf) → IsTop self.old t → self.new ≡ with_shown self.old t k w }
    {
        let place = self.windows[self.windows.len() - 1].base + k;
        let was = self.slots[place];
        self.slots[place] = w;
        if was == Word::Nil {
            self.live = above(self.live, place, self.top);
            raise(&mut self.rows, self.first, place);
        }
    }

    /// Opens a window, with the next number.
    pub fn push_window(&mut self, region: usize, owner: Place, base: usize) -> Result<u64, Memory>
        requires above { BaseUpTo self.old base }
        requires within { base ≤ length self.old.slots }
        ensures number { OnOk result (result ≡ Ok self.old.next) }
        ensures ok { OnOk result (self.new ≡ opened self.old region owner base) }
        ensures numbers { OnOk result (self.new.next < 2 ^ 64 - 1) }
        ensures err { OnErr result (self.new ≡ self.old) }
    {
        reserve_both(&mut self.windows, &mut self.marks)?;
        let number = self.next;
        if !self.open_window(region, owner, base) {
            return Err(Memory);
        }
        Ok(number)
    }

    /// Opens a window, with the next number, where there is room for it; answers whether there is.
    #[inline(always)]
    pub fn open_window(&mut self, region: usize, owner: Place, base: usize) -> bool
        requires above { BaseUpTo self.old base }
        requires within { base ≤ length self.old.slots }
        ensures opens { result ≡ true → self.new ≡ opened self.old region owner base }
        ensures numbers { result ≡ true → self.new.next < 2 ^ 64 - 1 }
        ensures stays { result ≡ false → self.new ≡ self.old }
    {
        let number = self.next;
        if number >= u64::MAX - 1 {
            return false;
        }
        if self.windows.len() >= self.windows.capacity() {
            return false;
        }
        if self.marks.len() >= self.marks.capacity() {
            return false;
        }
        self.windows.push_reserved(Window {
            number,
            region,
            owner: Some(owner),
            base,
        });
        self.marks.push_reserved(self.temps.len());
        self.next = number + 1;
        true
    }

    /// Closes the top window, which has no temporaries.
    pub fn pop_window(&mut self) -> Window
        requires two { 2 ≤ length self.old.windows }
        requires none { length self.old.temps ≡ mark self.old }
        ensures top { IsTop self.old result }
        ensures gone { self.new ≡ closed self.old }
    {
        let window = self.top();
        self.windows.truncate(self.windows.len() - 1);
        self.marks.truncate(self.marks.len() - 1);
        window
    }

    /// The top window.
    pub fn top(&self) -> Window
        requires { 0 < length self.now.windows }
        ensures { IsTop self.now result }
    {
        self.windows[self.windows.len() - 1]
    }

    /// The top window; None where none is open. Whatever it is, it tells where the windows'
    /// temporaries lie.
    pub fn top_window(&self) -> Option<Window>
        ensures marks { MarksLie self.now }
        ensures some { IfSome result (IsTop self.now) }
        ensures none { IsNone result ↔ (length self.now.windows ≡ 0) }
    {
        self.windows.last().copied()
    }

    /// How the windows lie over slots and temporaries, whenever they are looked at.
    pub fn lie(&self)
        ensures marks { MarksLie self.now }
        ensures bases { BasesRise (length self.now.slots) self.now.windows }
    {
        let _ = &self.windows;
    }

    /// The number that the next window gets.
    pub fn next_number(&self) -> u64
        ensures { result ≡ self.now.next }
    {
        self.next
    }

    /// How many windows are open.
    pub fn open_count(&self) -> usize
        ensures { result ≡ length self.now.windows }
    {
        self.windows.len()
    }

    /// Whether a window has a region.
    pub fn is_open(&self, region: usize) -> bool
        ensures { result ≡ list_any (has_region region) self.now.windows }
    {
        has(&self.windows, region)
    }

    /// Adds a temporary to the top window.
    pub fn push_temp(&mut self, slot: usize) -> Result<(), Memory>
        requires { Begun self.old }
        ensures ok { OnOk result (self.new ≡ with_temp self.old slot) }
        ensures err { OnErr result (self.new ≡ self.old) }
    {
        match self.temps.push(slot) {
            Ok(()) => Ok(()),
            Err(_) => Err(Memory),
        }
    }

    /// Takes the top window's last temporary, if it has one.
    pub fn pop_temp(&mut self) -> Option<usize>
        requires { Begun self.old }
        ensures none { IsNone result ↔ (length self.old.temps ≡ mark self.old) }
        ensures unchanged { result ≡ None → self.new ≡ self.old }
        ensures some { IfSome result (λ t. self.old ≡ with_temp self.new t) }
    {
        if self.temps.len() == self.marks[self.marks.len() - 1] {
            return None;
        }
        self.temps.pop()
    }

    /// Takes all temporaries of the top window.
    pub fn clear_temps(&mut self)
        requires { 0 < length self.old.windows }
        ensures gone { self.new ≡ without_temps self.old }
        ensures none { length self.new.temps ≡ mark self.new }
    {
        self.temps.truncate(self.marks[self.marks.len() - 1]);
    }

    /// The top window's temporaries.
    pub fn temps(&self) -> &[usize]
        requires { Begun self.now }
        ensures { result.now ≡ drop (mark self.now) self.now.temps }
    {
        &self.temps[self.marks[self.marks.len() - 1]..]
    }
}

fn has(windows: &[Window], region: usize) -> bool
    ensures { result ≡ list_any (has_region region) windows.now }
{
    for w in windows {
        if w.region == region {
            return true;
        }
    }
    false
}

// Makes room for one more in each of two lists.
fn reserve_both<A, B>(a: &mut Vec<A>, b: &mut Vec<B>) -> Result<(), Memory>
    ensures first { a.new.items ≡ a.old.items }
    ensures second { b.new.items ≡ b.old.items }
    ensures room { OnOk result (vec_len a.new + 1 ≤ vec_capacity a.new) }
    ensures more { OnOk result (vec_len b.new + 1 ≤ vec_capacity b.new) }
{
    let Ok(()) = a.reserve(1) else {
        return Err(Memory);
    };
    let Ok(()) = b.reserve(1) else {
        return Err(Memory);
    };
    Ok(())
}

// Makes room for so many slots behind a place, and for the near ones behind these, all nil.
fn lengthen(all: &mut Vec<Word>, top: usize, slots: usize) -> Result<(), Memory>
    requires { top ≤ length all.old.items }
    ensures nil { all.new.items
        ≡ all.old.items ++ replicate (length all.new.items - length all.old.items) Nil }
    ensures room { OnOk result (top + 256 + slots ≤ length all.new.items) }
{
    let Some(wanted) = slots.checked_add(NEAR) else {
        return Err(Memory);
    };
    if wanted <= all.len() - top {
        return Ok(());
    }
    let Ok(()) = all.reserve(wanted) else {
        return Err(Memory);
    };
    let more = all.capacity() - all.len();
    fill(all, more);
    Ok(())
}

// So many slots more, all nil, within the room.
fn fill(all: &mut Vec<Word>, more: usize)
    requires { vec_len all.old + more ≤ vec_capacity all.old }
    ensures items { all.new.items ≡ all.old.items ++ replicate more Nil }
    ensures capacity { vec_capacity all.new ≡ vec_capacity all.old }
{
    let mut left = more;
    'fill: while left > 0 {
        all.push_reserved(Word::Nil);
        left -= 1;
    }
}

// Writes words over those from a place on.
#[inline]
fn copy(all: &mut Vec<Word>, at: usize, words: &[Word])
    requires { at + length words.now ≤ length all.old.items }
    ensures items { all.new.items
        ≡ take at all.old.items ++ (words.now ++ drop (at + length words.now) all.old.items) }
    ensures capacity { vec_capacity all.new ≡ vec_capacity all.old }
{
    let mut k = 0;
    'copy: while k < words.len() {
        all[at + k] = words[k];
        k += 1;
    }
}

// Writes a word at a place.
#[inline(always)]
fn copy_one(all: &mut Vec<Word>, at: usize, w: Word)
    requires { at + 1 ≤ length all.old.items }
    ensures items { all.new.items
        ≡ take at all.old.items ++ (w ∷ drop (at + 1) all.old.items) }
    ensures capacity { vec_capacity all.new ≡ vec_capacity all.old }
{
    all[at] = w;
}

// Writes two words from a place on.
#[inline(always)]
fn copy_two(all: &mut Vec<Word>, at: usize, w: Word, x: Word)
    requires { at + 2 ≤ length all.old.items }
    ensures items { all.new.items
        ≡ take at all.old.items ++ (w ∷ x ∷ drop (at + 2) all.old.items) }
    ensures capacity { vec_capacity all.new ≡ vec_capacity all.old }
{
    all[at] = w;
    all[at + 1] = x;
}

// Makes nil the slots from one place up to another, from which on they are nil.
#[inline(always)]
fn clear(all: &mut Vec<Word>, from: usize, to: usize)
    requires { NilFrom all.old.items to (length all.old.items) }
    ensures items { all.new.items
        ≡ take from all.old.items ++ replicate (length all.old.items - from) Nil }
    ensures capacity { vec_capacity all.new ≡ vec_capacity all.old }
{
    if from < to {
        let part = &mut all[from..to];
        make_nil(part);
    }
}

// Makes all words nil, of which there are some, up to three of them by hand.
#[inline(always)]
fn make_nil(part: &mut [Word])
    requires { 0 < length part.old }
    ensures { part.new ≡ replicate (length part.old) Nil }
{
    let many = part.len();
    if many > 3 {
        make_all_nil(part);
        return;
    }
    part[0] = Word::Nil;
    if many < 2 {
        return;
    }
    part[1] = Word::Nil;
    if many < 3 {
        return;
    }
    part[2] = Word::Nil;
}

// The same of more than three: up to seven of them by hand.
#[inline(never)]
fn make_all_nil(part: &mut [Word])
    requires { 3 < length part.old }
    ensures { part.new ≡ replicate (length part.old) Nil }
{
    let many = part.len();
    part[0] = Word::Nil;
    part[1] = Word::Nil;
    part[2] = Word::Nil;
    part[3] = Word::Nil;
    if many < 5 {
        return;
    }
    part[4] = Word::Nil;
    if many < 6 {
        return;
    }
    part[5] = Word::Nil;
    if many < 7 {
        return;
    }
    part[6] = Word::Nil;
    let mut at = many;
    'nil: while at > 7 {
        at -= 1;
        part[at] = Word::Nil;
    }
}

// Behind the place, where it is one of those from `from` up to `to`, and else `from`.
fn above(from: usize, place: usize, to: usize) -> usize
    ensures least { from ≤ result }
    ensures within { from ≤ to → result ≤ to }
    ensures past { IsPast place result to }
{
    if from <= place && place < to {
        place + 1
    } else {
        from
    }
}

// What is kept for the frame of a place rises above it, so the place may be written.
fn raise(rows: &mut Vec<Row>, first: usize, place: usize)
    ensures nil { (slots : List WordOf) (live : ℕ) (w : WordOf) → IsPast place live (length slots)
        → Unwritten slots first (frames_of rows.old.items) live (lives_of rows.old.items)
        → Unwritten (slice_set slots place w) first (frames_of rows.new.items) live
        (lives_of rows.new.items) }
    ensures frames { frames_of rows.new.items ≡ frames_of rows.old.items }
    ensures len { length rows.new.items ≡ length rows.old.items }
    ensures capacity { vec_capacity rows.new ≡ vec_capacity rows.old }
{
    let mut end = first;
    let mut k = rows.len();
    'raise: while k > 0 {
        k -= 1;
        let row = rows[k];
        rows[k] = Row {
            frame: row.frame,
            live: above(row.live, place, end),
        };
        end = row.frame.below;
    }
}
