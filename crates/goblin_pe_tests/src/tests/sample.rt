//! What the readers find in the sample file.

use super::rows::{
    FORWARDED, GO, RECORD, SEVEN, UNFORWARDED, are_exports, are_imports, is_sample_library,
    is_sample_table,
};
use fixture::sample::{IMPORTS, sample_section};
use goblin_base::ResultOf;
use goblin_pe::export::{Export, ExportAddressTableEntry, ExportData, ExportDirectoryTable};
use goblin_pe::header::{CoffHeader, Header};
use goblin_pe::import::{ImportData, ImportLookupTable};
use goblin_pe::optional_header::OptionalHeader;
use goblin_pe::{Part, Whole};
use goblin_pe_sect::SectionTable;

/// The sample file's COFF header.
pub const COFF_HEADER: CoffHeader = CoffHeader {
    machine: 0x14C,
    number_of_sections: 1,
    time_date_stamp: 0,
    pointer_to_symbol_table: 0,
    number_of_symbol_table: 0,
    size_of_optional_header: 0xE0,
    characteristics: 0x102,
};

fn is_optional_header(optional: &OptionalHeader) -> bool {
    optional.standard_fields.magic == 0x10B
        && optional.windows_fields.file_alignment == 0x200
        && optional.data_directories.get_import_table() == Some(&IMPORTS)
}

/// Whether these are the sample file's: its header, its section, its lookup table, its import data,
/// its export data with its exports, and all of it.
pub fn is_header(header: &Header) -> bool {
    header.dos_header.pe_pointer == 0x40
        && header.coff_header == COFF_HEADER
        && matches!(&header.optional_header, Some(optional) if is_optional_header(optional))
}

pub fn is_section(sections: &[SectionTable]) -> bool {
    sections == [sample_section()].as_slice()
}

pub fn is_import_data(data: &ImportData) -> bool {
    match &data.import_data[..] {
        [library] => is_sample_library(library, &RECORD),
        _ => false,
    }
}

fn is_record(record: &ExportDirectoryTable) -> bool {
    let want = ExportDirectoryTable {
        name_rva: 0x1080,
        ordinal_base: 1,
        address_table_entries: 2,
        number_of_name_pointers: 2,
        export_address_table_rva: 0x10C8,
        name_pointer_rva: 0x10D0,
        ordinal_table_rva: 0x10D8,
        ..ExportDirectoryTable::default()
    };
    *record == want
}

fn are_addresses(entries: &[ExportAddressTableEntry]) -> bool {
    let want = [
        ExportAddressTableEntry::ExportRVA(0x1010),
        ExportAddressTableEntry::ForwarderRVA(0x10E0),
    ];
    entries == want.as_slice()
}

fn is_export_data(tables: &ExportData) -> bool {
    tables.name == Some("a.dll")
        && is_record(&tables.export_directory_table)
        && tables.export_name_pointer_table.as_slice() == [0x10F0, 0x1080].as_slice()
        && tables.export_ordinal_table.as_slice() == [0, 1].as_slice()
        && are_addresses(tables.export_address_table.as_slice())
}

fn has_imports(whole: &Whole) -> bool {
    match (&whole.import_data, &whole.imports) {
        (Part::Read(data), Part::Read(imports)) => {
            is_import_data(data) && are_imports(imports, &[GO, SEVEN])
        }
        _ => false,
    }
}

fn has_exports(whole: &Whole) -> bool {
    match (&whole.export_data, &whole.exports) {
        (Part::Read(tables), Part::Read(exports)) => {
            is_export_data(tables) && are_exports(exports, &[UNFORWARDED, FORWARDED])
        }
        _ => false,
    }
}

pub fn has_tables(whole: &Whole) -> bool {
    has_imports(whole) && has_exports(whole)
}

fn is_whole(whole: &Whole) -> bool {
    is_header(&whole.header)
        && is_section(&whole.sections)
        && has_tables(whole)
        && matches!(whole.relocations, Part::Absent)
}

/// What a reader makes of the sample file.
pub trait OfSample {
    fn is_sample(&self) -> bool;
}

impl OfSample for ImportLookupTable<'_> {
    fn is_sample(&self) -> bool {
        is_sample_table(self)
    }
}

impl OfSample for ImportData<'_> {
    fn is_sample(&self) -> bool {
        is_import_data(self)
    }
}

impl OfSample for (ExportData<'_>, Vec<Export<'_>>) {
    fn is_sample(&self) -> bool {
        is_export_data(&self.0) && are_exports(&self.1, &[UNFORWARDED, FORWARDED])
    }
}

impl OfSample for Whole<'_> {
    fn is_sample(&self) -> bool {
        is_whole(self)
    }
}

/// Whether both answers are what a reader makes of the sample file. It takes them: of a type that
/// it does not know that costs its proof little.
pub fn are_samples<'e, A: OfSample + Drop>(answers: (ResultOf<'e, A>, ResultOf<'e, A>)) -> bool {
    matches!(&answers, (Ok(first), Ok(second)) if first.is_sample() && second.is_sample())
}

/// Whether both are what readers make of the sample file. It takes them, too.
pub fn are_both_samples<A: OfSample + Drop>(both: (A, A)) -> bool {
    both.0.is_sample() && both.1.is_sample()
}
