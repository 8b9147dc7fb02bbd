//! A frame and a window (docs/architecture.md, "Frames").

use rg_base::Place;

/// An open window. The owner is None for window 0 alone.
#[derive(Clone, Copy)]
pub struct Window {
    pub number: u64,
    pub region: usize,
    pub owner: Option<Place>,
    pub base: usize,
}

/// A frame: where its return goes to, and the first slot of the frame beneath.
#[derive(Clone, Copy)]
pub struct Frame {
    pub back: usize,
    pub below: usize,
}

/// A frame, and the place from which on the slots of the frame beneath are nil.
#[derive(Clone, Copy)]
pub(crate) struct Row {
    pub frame: Frame,
    pub live: usize,
}

/// Why there is no room for a frame.
#[derive(Clone, Copy)]
pub enum FrameRefusal {
    Depth,
    Memory,
}
