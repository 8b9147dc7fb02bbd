//! The parts of the machine (docs/language.md, "Steps").

use crate::state::rows::{FrameRow, ItemRow, WindowRow};
use rg_base::{Manager, Vals};
use rg_store::ObjectRow;

/// The state of the machine. Of frames and windows the topmost stands alone, and the others have
/// the lowest first; the thing to do next is the last one.
#[derive(Drop)]
pub struct Parts {
    pub store: Vec<ObjectRow>,
    pub frame: FrameRow,
    pub below: Vec<FrameRow>,
    pub window: WindowRow,
    pub outer: Vec<WindowRow>,
    pub managers: Vec<Manager>,
    pub windows_made: u64,
    pub items: Vec<ItemRow>,
    pub output: Vals,
}
