//! What goblin does not have. `goblin_pe` re-exports it.

mod parts;
mod section_records;

pub use parts::{HeaderParts, unnamed_records};
