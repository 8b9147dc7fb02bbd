//! What was loaded is unloaded as it was (docs/architecture.md, "Cargo"). The law `loaded_back`:
//! behind a load the region's content is exactly the cargo. `loaded_and_unloaded` is the two calls
//! one behind the other, and gives the cargo. The law `image_comes_back`: a content that was read
//! from an image has that image again behind a load (docs/architecture.md, "Images").
#![tactic(auto)]

mod carrying;
mod laws;

pub use carrying::loaded_and_unloaded;
pub use laws::{image_comes_back, loaded_back};
