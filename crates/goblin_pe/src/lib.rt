//! Reads PE files: headers, sections, symbols, relocations, imports, exports and whole files. It
//! re-exports the modules of the crates below, so that users need to name only this one.
#![tactic(auto)]

pub mod added;
pub mod laws;
pub mod whole;
pub mod write;

pub use goblin_base::{
    Cause, Container, Endian, Error, Permissive, ReadFault, Result, ResultOf, Strtab, TryFromCtx,
    container, endian, error, permissive, read, strtab,
};
pub use goblin_pe_export::export;
pub use goblin_pe_head::{characteristic, dll_characteristic, header, optional_header, subsystem};
pub use goblin_pe_import::import;
pub use goblin_pe_sect::utils::section_at;
pub use goblin_pe_sect::{
    address_map, data_directories, options, relocation, section_table, table, utils, windows,
};
pub use goblin_pe_symbol::symbol;
pub use whole::{Part, Places, Whole, section_table_offset, sections_of, size_of_headers};
