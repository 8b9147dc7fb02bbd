//! Contents of closed regions as bytes (docs/architecture.md, "Images"). `encode` gives exactly
//! the bytes of `image_text` in `specs/ImageText` (clause `text`), or no memory was found; of a
//! content that a program may hold, they are its image (clause `image`). `decode` gives the
//! content of a program whose image the bytes are, or `E95` where they are none (clause `image`);
//! where they are one, it gives no refusal but `Memory` (clause `again`). `specs/Images` says which
//! bytes are. So what was encoded is read back. The law `at_most_one_content`: bytes are the image
//! of at most one content. All else is private.
#![tactic(auto)]

mod entries;
mod frozen;
mod images;
mod labels;
mod laws;
mod numbered;
mod order;
mod reading;
mod sound;
mod writing;

pub use images::{decode, encode};
pub use laws::at_most_one_content;
