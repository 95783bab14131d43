//! The sections of a PE file, its data directories and relocations, the mapping of addresses to
//! file offsets, and tables of entries. `goblin_pe` re-exports the modules of this crate.
#![tactic(auto)]

pub mod added;
pub mod address_map;
pub mod data_directories;
mod digits;
pub mod options;
pub mod relocation;
pub mod section_table;
pub mod table;
pub mod utils;
pub mod windows;

pub use data_directories::{DataDirectories, DataDirectory, DataDirectoryType, Dirs};
pub use options::{Mapping, ParseMode, ParseOptions, RawPointerRule, View};
pub use section_table::SectionTable;
pub use windows::WindowIndex;
