//! What calls are made with.

use fixture::sample::{ELSEWHERE, SAMPLE, TABLE, TABLE_END, put, put_all, section};
use goblin_pe::export::{ExportData, ExportDirectoryTable};
use goblin_pe::import::ImportDirectoryEntry;
use goblin_pe::table::Table;
use goblin_pe_head::{CoffHeader, TeHeader};
use goblin_pe_sect::SectionTable;
use std::alloc::Global;

/// A section that lies apart from the sample file's own.
pub fn other_section() -> SectionTable {
    section(0x3000, 0x100, 0x100, 0x100)
}

/// Makes zeros the sample file whose section has its name elsewhere. After the section table comes
/// a record whose name is elsewhere too, and empty.
pub fn put_sample(file: &mut [u8]) {
    put_all(file, SAMPLE);
    put_all(file, &[(TABLE, ELSEWHERE), (TABLE_END, b"/50\0")]);
}

/// The same without its imports, the second entry of its lookup table and its second export.
pub fn put_other(file: &mut [u8]) {
    put_sample(file);
    put(file, 0x20C, b"\0\0");
    put(file, 0x244, b"\0\0\0\0");
    put(file, 0x2B8, b"\x01");
}

/// The one record of the sample file's import directory.
pub const LIBRARY: ImportDirectoryEntry = ImportDirectoryEntry {
    import_lookup_table_rva: 0x1040,
    time_date_stamp: 0,
    forwarder_chain: 0,
    name_rva: 0x1080,
    import_address_table_rva: 0x1060,
};

/// The COFF header of a file with this many sections.
pub fn counting(number_of_sections: u16) -> CoffHeader {
    CoffHeader {
        number_of_sections,
        ..CoffHeader::default()
    }
}

pub fn terse(number_of_sections: u8, stripped_size: u16) -> TeHeader {
    TeHeader {
        number_of_sections,
        stripped_size,
        ..TeHeader::default()
    }
}

/// Export data without an address.
pub fn no_exports(alloc: Global) -> ExportData<'static> {
    ExportData {
        name: None,
        export_directory_table: ExportDirectoryTable::default(),
        export_name_pointer_table: Table::from(Vec::new(alloc)),
        export_ordinal_table: Table::from(Vec::new(alloc)),
        export_address_table: Table::from(Vec::new(alloc)),
    }
}
