//! The store of objects of a machine (docs/language.md, "Steps"): objects and their fields by names
//! and by numbers, arrays and their elements, labels, the regions beneath one, and operators on
//! values. Its clauses speak of the store that is shown (`store_of`), in the words of `rg_rules`.
#![tactic(auto)]

mod labels;
mod links;
mod made;
mod marks;
mod objects;
mod operators;

pub use labels::{Regions, region, region_at, region_led, relabel};
pub use made::{new_array, new_object};
pub use marks::{beneath, linked};
pub use objects::{
    ObjectRow, element_place, element_value, field_at, field_value, follow, object_place, read_at,
    write_at, write_field,
};
pub use operators::{as_bool, as_int, decides, is_nil, negative, operate};
