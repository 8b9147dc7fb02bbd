//! The law of images, as the contract of a function that does nothing
//! (docs/architecture.md, "Images").

ghost use Rattle.rg_image.specs.Images.{OneContent};

/// Bytes are the image of at most one content.
pub fn at_most_one_content()
    ensures { OneContent }
{}
