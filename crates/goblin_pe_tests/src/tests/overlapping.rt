//! Two sections that overlap: each reader that is given a list of sections takes the first of them,
//! as `find_offset` does.

use super::rows::is_export;
use fixture::sample::{ALIGNMENT, directory, put_all, section};
use goblin_base::{Endian, Record};
use goblin_pe::export::{Export, ExportData};
use goblin_pe::import::{
    ImportData, ImportDirectoryEntry, ImportLookupTable, SyntheticImportDirectoryEntry,
    SyntheticImportLookupTableEntry,
};
use goblin_pe_sect::utils::find_offset;
use goblin_pe_sect::{ParseOptions, SectionTable};
use std::alloc::Global;

/// What is in the file: in the wide section alone an import record at the address 0x1000 and an
/// export record at 0x1100, which lead to addresses that lie in both; then what the narrow section
/// has there, and what the wide one has.
const BYTES: &[(usize, &[u8])] = &[
    (0x800, b"\x10\x12"),
    (0x80C, b"\x40\x12\x00\x00\x20\x12"),
    (0x90C, b"\x40\x12"),
    (0x914, b"\x01\x00\x00\x00\x01"),
    (0x91C, b"\x80\x12\x00\x00\x84\x12\x00\x00\x88\x12"),
    (0x410, b"\x50\x12"),
    (0x420, b"\x0B"),
    (0x440, b"narrow"),
    (0x450, b"\x05\x00f"),
    (0x480, b"\x90\x12\x00\x00\x40\x12"),
    (0xA10, b"\x50\x12"),
    (0xA20, b"\x16"),
    (0xA40, b"wide"),
    (0xA50, b"\x06\x00g"),
    (0xA80, b"\xA0\x12\x00\x00\x40\x12"),
];

/// What a section has from the address 0x1200 on: where that lies in the file, the library's name,
/// the number in the address table, the import's hint and name, and the export's address.
struct Held {
    begin: usize,
    name: &'static str,
    number: u64,
    hint: u16,
    import: &'static str,
    export: usize,
}

const NARROW: Held = Held {
    begin: 0x400,
    name: "narrow",
    number: 0x0B,
    hint: 5,
    import: "f",
    export: 0x1290,
};

const WIDE: Held = Held {
    begin: 0xA00,
    name: "wide",
    number: 0x16,
    hint: 6,
    import: "g",
    export: 0x12A0,
};

impl Held {
    /// The file offset of an address that lies in both sections.
    fn offset_of(&self, rva: usize) -> usize {
        rva.saturating_sub(0x1200).saturating_add(self.begin)
    }

    /// Whether `find_offset` gives this section's offsets.
    fn is_found(&self, sections: &[SectionTable]) -> bool {
        for rva in [0x1210, 0x1220, 0x1240, 0x1250, 0x1280] {
            let offset = find_offset(rva, sections, ALIGNMENT, &ParseOptions::default());
            if offset != Some(self.offset_of(rva)) {
                return false;
            }
        }
        true
    }

    fn is_entry(&self, entry: &SyntheticImportLookupTableEntry) -> bool {
        match entry {
            SyntheticImportLookupTableEntry::HintNameTableRVA((_, named)) => {
                named.hint == self.hint && named.name == self.import
            }
            SyntheticImportLookupTableEntry::OrdinalNumber(_) => false,
        }
    }

    fn is_table(&self, table: &ImportLookupTable) -> bool {
        matches!(table.as_slice(), [only] if self.is_entry(only))
    }

    fn is_library(&self, library: &SyntheticImportDirectoryEntry) -> bool {
        matches!(&library.import_lookup_table, Some(table) if self.is_table(table))
            && library.import_address_table.as_slice() == [self.number].as_slice()
            && library.name == self.name
    }

    fn is_data(&self, data: &ImportData) -> bool {
        matches!(data.import_data.as_slice(), [library] if self.is_library(library))
    }

    fn are_exports(&self, exports: &[Export]) -> bool {
        let offset = self.offset_of(self.export);
        let want = (Some(self.name), Some(offset), self.export, None);
        matches!(exports, [only] if is_export(only, &want))
    }
}

/// Whether the lookup table in this section's part of the file is read as it has it.
fn is_table_read(alloc: Global, file: &[u8], sections: &[SectionTable], held: &Held) -> bool {
    let table = SyntheticImportLookupTableEntry::parse::<u32>(
        alloc,
        file,
        held.offset_of(0x1210),
        sections,
        ALIGNMENT,
    );
    matches!(&table, Ok(table) if held.is_table(table))
}

/// Whether the record's library is.
fn is_library_read(alloc: Global, file: &[u8], sections: &[SectionTable], held: &Held) -> bool {
    let Ok(record) = ImportDirectoryEntry::read_at(file, 0x800, Endian::Little) else {
        return false;
    };
    let library = SyntheticImportDirectoryEntry::parse::<u32>(
        alloc, file, record, sections, ALIGNMENT,
    );
    matches!(&library, Ok(library) if held.is_library(library))
}

/// Whether the import data are.
fn are_data_read(alloc: Global, file: &[u8], sections: &[SectionTable], held: &Held) -> bool {
    let data = ImportData::parse::<u32>(alloc, file, directory(0x1000, 40), sections, ALIGNMENT);
    matches!(&data, Ok(data) if held.is_data(data))
}

/// Whether the exports of export data are.
fn are_exports_read(
    alloc: Global,
    file: &[u8],
    data: &ExportData,
    sections: &[SectionTable],
    held: &Held,
) -> bool {
    let exports = Export::parse(alloc, file, data, sections, ALIGNMENT);
    matches!(&exports, Ok(exports) if held.are_exports(exports))
}

/// Whether the export data are, and their exports.
fn are_tables_read(alloc: Global, file: &[u8], sections: &[SectionTable], held: &Held) -> bool {
    let data = ExportData::parse(alloc, file, directory(0x1100, 40), sections, ALIGNMENT);
    matches!(&data, Ok(data) if data.name == Some(held.name)
        && are_exports_read(alloc, file, data, sections, held))
}

/// Whether each reader finds in the file what this section has.
fn is_taken(alloc: Global, sections: &[SectionTable], held: &Held) -> bool {
    let mut file = [0; 0x1000];
    put_all(&mut file, BYTES);
    held.is_found(sections)
        && is_table_read(alloc, &file, sections, held)
        && is_library_read(alloc, &file, sections, held)
        && are_data_read(alloc, &file, sections, held)
        && are_tables_read(alloc, &file, sections, held)
}

/// The section that lies within the other, and the one about it.
fn narrow() -> SectionTable {
    section(0x1200, 0x200, 0x200, 0x400)
}

fn wide() -> SectionTable {
    section(0x1000, 0x800, 0x800, 0x800)
}

#[test]
fn each_reader_takes_the_first_of_two_sections_that_overlap(rt: HostRuntime) {
    assert!(rt; is_taken(rt.alloc(), &[narrow(), wide()], &NARROW));
    assert!(rt; is_taken(rt.alloc(), &[wide(), narrow()], &WIDE));
}
