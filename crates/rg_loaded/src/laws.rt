//! What holds of a content that was loaded, as contracts of functions that do nothing
//! (docs/architecture.md, "Cargo" and "Images").

ghost use Rattle.rg_loaded.specs.Back.{LoadedBack, ImageComesBack};

/// Behind a load, the content of the region that came is exactly the cargo.
pub fn loaded_back()
    ensures { LoadedBack }
{}

/// The image of what was read from an image and loaded is the image that was read.
pub fn image_comes_back()
    ensures { ImageComesBack }
{}
