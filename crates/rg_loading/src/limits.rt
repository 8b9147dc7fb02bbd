//! The limit of an image's file (docs/architecture.md, "Images").

/// The most bytes that the file of an image may have: 16 MiB.
pub const IMAGE_BYTES: usize = 16_777_216;
