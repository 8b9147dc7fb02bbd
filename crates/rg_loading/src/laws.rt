//! The law of a plan's images, as the contract of a function that does nothing
//! (docs/architecture.md, "Images").

ghost use Rattle.rg_loading.specs.Laws.{LoadsComeToOne};

use rg_image::at_most_one_content;

/// The bytes of its files determine what a plan begins with, or why it can't begin.
pub fn loads_come_to_one()
    ensures { LoadsComeToOne }
{
    at_most_one_content();
}
