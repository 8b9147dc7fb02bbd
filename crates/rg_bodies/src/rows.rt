//! The bodies of a program, as rows (docs/architecture.md, "Modules").

use rg_classes::BodyRow;

/// The bodies of main and of the methods.
#[derive(Drop)]
pub struct BodyRows {
    pub main: BodyRow,
    /// in order of their numbers
    pub methods: Vec<BodyRow>,
}
