//! The place of an owner reference, which `giving` writes: a variable of any of the frames, or a
//! field (docs/language.md, "Steps").

ghost use Rattle.std.specs.Prelude.{◌<◌, ◌≡◌, List, Some, length, map, reverse, ℕ};
ghost use Rattle.rg_rules.specs.State.{set_in_frame};
ghost use Rattle.rg_rules.specs.Steps.{put_at};
ghost use Rattle.rg_values.specs.Fits.{FramesFit, PartsFit};
ghost use Rattle.rg_values.specs.Kept.{frame_of, kept_frame, kept_of, plain_of};

use crate::state::locals::set_at;
use crate::state::parts::Parts;
use crate::state::rows::FrameRow;
use crate::targets::put_element;
use rg_base::{Place, Val};
use rg_names::Book;

/// Writes a variable of a frame beneath the topmost one.
fn set_beneath(book: &Book, below: &mut Vec<FrameRow>, frame: usize, slot: usize, v: Val)
    requires there { frame < length below.old.items }
    requires fit { FramesFit book.now.program below.old.items }
    ensures set { map (frame_of book.now.program) (reverse (map kept_frame below.new.items))
        ≡ set_in_frame frame slot v
        (map (frame_of book.now.program) (reverse (map kept_frame below.old.items))) }
    ensures fit { FramesFit book.now.program below.new.items }
{
    let frame = &mut below[frame];
    set_at(book, &mut frame.locals, slot, v);
}

/// Writes a variable of the frame of a number, where there is one.
fn put_variable(book: &Book, m: &mut Parts, frame: u64, slot: u32, v: Val)
    requires fit { PartsFit book.now.program m.old }
    ensures put { (input : List ℕ) → plain_of book.now.program (kept_of m.new) input ≡ put_at
        (Some (Place.Var frame slot)) (plain_of book.now.program (kept_of m.old) input) v }
    ensures fit { PartsFit book.now.program m.new }
{
    let beneath = m.below.len() as u64;
    if frame == beneath {
        set_at(book, &mut m.frame.locals, slot as usize, v);
    } else if frame < beneath {
        set_beneath(book, &mut m.below, frame as usize, slot as usize, v);
    }
}

/// Puts a value to the place of an owner, where there is one.
pub fn put_owner(book: &Book, m: &mut Parts, place: Option<Place>, v: Val)
    requires fit { PartsFit book.now.program m.old }
    ensures put { (input : List ℕ) → plain_of book.now.program (kept_of m.new) input
        ≡ put_at place (plain_of book.now.program (kept_of m.old) input) v }
    ensures fit { PartsFit book.now.program m.new }
{
    let Some(place) = place else {
        return;
    };
    match place {
        Place::Var { frame, slot } => put_variable(book, m, frame, slot, v),
        Place::Field { serial, index } => {
            if serial < m.store.len() as u64 {
                put_element(book, m, serial as usize, index as usize, v);
            }
        }
    }
}
