//! What goblin does not have. `goblin_pe` re-exports it.

mod record_map;
mod rva;

pub use record_map::{MOST_WITHOUT_INDEX, offset_by_records, part_by_records};
pub use rva::rva_in;
