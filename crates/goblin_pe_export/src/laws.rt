//! Laws about two reads of exports. `goblin_pe::laws` explains them.

mod exports;

pub use exports::{ExportRead, read_exports, read_exports_by, twin_exports};
