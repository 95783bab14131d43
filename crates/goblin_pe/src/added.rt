//! What goblin does not have, from this crate and from those below: layouts, through which tables
//! are read as walks; checksums.

mod file_imports;
mod file_libraries;
mod image_checksum;
mod layout;

pub use file_imports::FileImports;
pub use goblin_pe_export::added::{Exports, WalkedExport};
pub use goblin_pe_head::added::{HeaderParts, unnamed_records};
pub use goblin_pe_import::added::{
    AsciiImports, ImportCursor, Imports, Libraries, Passed, WalkedImport, WalkedLibrary,
    mode_imports, mode_libraries,
};
pub use goblin_pe_sect::added::{MOST_WITHOUT_INDEX, offset_by_records, rva_in};
pub use image_checksum::checksum;
pub use layout::{Layout, section_records_of};
