//! That ample memory is enough, and what main's frame looks like (docs/architecture.md, "Tests").

ghost use Rattle.rg_frames.specs.Stack.{IsEmpty};

use rg_base::{Memory, Word};
use rg_frames::Frames;

// Slots begin as nil, and window 0 lies over all of them.
fn is_laid_out(frames: &mut Frames) -> Result<bool, Memory>
    requires { IsEmpty frames.old }
{
    frames.begin(5, 2)?;
    frames.set_slot(1, Word::Int(7));
    let are_slots = frames.slot(0) == Word::Nil && frames.slot(1) == Word::Int(7);
    let is_first = frames.place(1) == 1 && frames.count() == 1;
    frames.set_shown(0, Word::Slot(3));
    let are_shown = frames.word(0) == Word::Slot(3) && frames.word(1) == Word::Int(7);
    Ok(are_slots && is_first && are_shown && frames.is_open(5) && !frames.is_open(6))
}

#[test]
fn main_alone(rt: HostRuntime) {
    let mut frames = Frames::new(rt.alloc());
    assert!(rt; matches!(is_laid_out(&mut frames), Ok(true)));
}

// Of two temporaries the last is taken.
fn takes_the_last(frames: &mut Frames) -> Result<bool, Memory>
    requires { IsEmpty frames.old }
{
    frames.begin(5, 0)?;
    frames.push_temp(7)?;
    frames.push_temp(8)?;
    Ok(frames.pop_temp() == Some(8) && frames.temps() == [7].as_slice())
}

#[test]
fn temporaries_go_in_turn(rt: HostRuntime) {
    let mut frames = Frames::new(rt.alloc());
    assert!(rt; matches!(takes_the_last(&mut frames), Ok(true)));
}
