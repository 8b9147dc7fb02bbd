//! A call that was refused by the outside (docs/architecture.md).

/// The call failed: the count of faults of the object that it was made on rose in it.
#[derive(Clone, Copy, Debug)]
pub struct Failed;
