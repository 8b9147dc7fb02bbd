//! That ample memory is enough, and what a use of slots looks like (docs/architecture.md, "Tests").
//! What may fail stands in functions to which the cells are lent, so no exit drops them.

use rg_base::{Label, Memory, Word};
use rg_cells::Cells;

// A cell of four fields is made and freed after one of two; the third one takes its slot.
fn is_taken_again(cells: &mut Cells) -> Result<bool, Memory> {
    let first = cells.make(7, Label::Region(0), &[Word::Nil, Word::Int(5)])?;
    cells.set_field(first, 1, Word::Bool(true));
    let is_set = cells.field(first, 1) == Word::Bool(true);
    let many = [Word::Nil, Word::Nil, Word::Nil, Word::Nil];
    let second = cells.make(8, Label::Temp(3), &many)?;
    let are_two = first != second && cells.high() == 2 && cells.made() == 2;
    cells.free(second);
    let is_freed = cells.held() == 1 && cells.find(1).is_none();
    let third = cells.make(9, Label::Frozen, &[Word::Slot(first)])?;
    let is_third = third == second && cells.high() == 2 && cells.serial(third) == 2;
    let is_frozen = cells.held() == 2 && cells.frozen() == 1;
    cells.cancel(third);
    let is_first = cells.made() == 2 && cells.frozen() == 0 && cells.find(0) == Some(first);
    Ok(is_set && are_two && is_freed && is_third && is_frozen && is_first)
}

#[test]
fn a_freed_slot_is_taken_again(rt: HostRuntime) {
    let mut cells = Cells::new(rt.alloc());
    assert!(rt; matches!(is_taken_again(&mut cells), Ok(true)));
}

// Whether the two change places.
fn change_places(cells: &mut Cells) -> Result<bool, Memory> {
    let first = cells.make(7, Label::Region(0), &[])?;
    let second = cells.make(8, Label::Frozen, &[Word::Nil])?;
    cells.exchange(first, second);
    Ok(cells.find(0) == Some(second) && cells.find(1) == Some(first))
}

#[test]
fn two_cells_change_places(rt: HostRuntime) {
    let mut cells = Cells::new(rt.alloc());
    assert!(rt; matches!(change_places(&mut cells), Ok(true)));
}
