//! What tests of tables share: the imports and exports of the sample file, and an import entry of
//! two bytes.

ghost use Rattle.std.proofs.Common.{lit≤};
ghost use Rattle.goblin_base.specs.Bytes.{number};
ghost use Rattle.goblin_base.specs.declared.endian.Endian.TheVariants.{Little};
ghost use Rattle.goblin_pe_tests.specs.ShortEntry.{short_value};

use goblin_base::{Endian, field_u16};
use goblin_pe::export::{Export, Reexport};
use goblin_pe::import::{
    Bitfield, Import, ImportDirectoryEntry, ImportLookupTable, SyntheticImportDirectoryEntry,
    SyntheticImportLookupTableEntry,
};

/// An entry of two bytes, by ordinal from 2^15 on.
#[derive(Debug, PartialEq, Eq, Copy, Clone)]
pub struct Short {
    number: u16,
}

impl<'a> Bitfield<'a> for Short {
    ghost format = { record {
      width = 2;
      value_of = λ bytes. short_value (number Little 2 bytes 0);
    } };

    ghost value = { λ entry. short_value entry.number };

    fn is_ordinal(&self) -> bool {
        self.number >= 0x8000
    }

    fn to_ordinal(&self) -> u16 {
        self.number % 0x8000
    }

    fn to_rva(&self) -> u32 {
        u32::from(self.number % 0x8000)
    }

    fn size_of() -> usize {
        2
    }

    fn is_zero(&self) -> bool {
        self.number == 0
    }

    fn read(bytes: &'a [u8]) -> Short {
        Short {
            number: field_u16(bytes, 0, Endian::Little),
        }
    }

    fn number(&self) -> u64 {
        u64::from(self.number)
    }

    ghost positive = { lit≤ tt };
}

/// The record of the sample file's import directory.
pub const RECORD: ImportDirectoryEntry = ImportDirectoryEntry {
    import_lookup_table_rva: 0x1040,
    time_date_stamp: 0,
    forwarder_chain: 0,
    name_rva: 0x1080,
    import_address_table_rva: 0x1060,
};

/// An import by its name, ordinal, offset, address, size and slot.
pub type ImportRow<'r> = (&'r str, u16, usize, usize, usize, usize);

/// The first of the sample file's imports.
pub const GO: ImportRow = ("Go", 5, 0x1060, 0x1090, 4, 0);

/// The second of them, by ordinal.
pub const SEVEN: ImportRow = ("ORDINAL 7", 7, 0x1064, 0, 4, 1);

/// Whether these are the imports from `a.dll`, one or two.
pub fn are_imports(imports: &[Import], rows: &[ImportRow]) -> bool {
    match (imports, rows) {
        ([only], [row]) => is_import(only, row),
        ([first, second], [row, next]) => is_import(first, row) && is_import(second, next),
        _ => false,
    }
}

/// Whether this is the import of a row, from `a.dll`.
fn is_import(import: &Import, row: &ImportRow) -> bool {
    import.dll == "a.dll"
        && import.name.as_str() == row.0
        && (import.ordinal, import.offset, import.rva) == (row.1, row.2, row.3)
        && (import.size, import.slot) == (row.4, row.5)
}

/// Whether this is the entry of `Go` in the sample file's lookup table.
fn is_go(entry: &SyntheticImportLookupTableEntry) -> bool {
    match entry {
        SyntheticImportLookupTableEntry::HintNameTableRVA((rva, named)) => *rva == 0x1090
            && named.hint == 5
            && named.name == "Go",
        SyntheticImportLookupTableEntry::OrdinalNumber(_) => false,
    }
}

/// Whether this is its entry by the ordinal 7.
fn is_seven(entry: &SyntheticImportLookupTableEntry) -> bool {
    matches!(entry, SyntheticImportLookupTableEntry::OrdinalNumber(7))
}

/// Whether this is the sample file's lookup table, by entries of four bytes.
pub fn is_sample_table(table: &ImportLookupTable) -> bool {
    match table.as_slice() {
        [first, second] => is_go(first) && is_seven(second),
        _ => false,
    }
}

/// Whether this lookup table has the entry by the ordinal 7 alone.
pub fn is_seven_alone(table: &ImportLookupTable) -> bool {
    matches!(table.as_slice(), [entry] if is_seven(entry))
}

/// Whether a library is the sample file's, with this record in place of its own.
pub fn is_sample_library(
    library: &SyntheticImportDirectoryEntry,
    from: &ImportDirectoryEntry,
) -> bool {
    matches!(&library.import_lookup_table, Some(table) if is_sample_table(table))
        && library.import_lookup_slots.as_slice() == [0usize, 1].as_slice()
        && library.import_address_table.as_slice() == [0x1090, 0x8000_0007].as_slice()
        && library.import_directory_entry == *from
        && library.name == "a.dll"
}

/// An export by its name, file offset, address, and what it is forwarded to.
pub type ExportRow<'a> = (Option<&'a str>, Option<usize>, usize, Option<Reexport<'a>>);

/// The first of the sample file's exports.
pub const UNFORWARDED: ExportRow = (Some("f"), Some(0x210), 0x1010, None);

/// The second of them, a forwarder.
pub const FORWARDED: ExportRow = (
    Some("a.dll"),
    Some(0x2E0),
    0x10E0,
    Some(Reexport::DLLOrdinal {
        ordinal: 12,
        lib: "b",
    }),
);

/// Whether these are the exports, one or two, in this order.
pub fn are_exports(exports: &[Export], rows: &[ExportRow]) -> bool {
    match (exports, rows) {
        ([only], [row]) => is_export(only, row),
        ([first, second], [row, next]) => is_export(first, row) && is_export(second, next),
        _ => false,
    }
}

/// Whether this is the export of a row.
pub fn is_export(export: &Export, row: &ExportRow) -> bool {
    (export.name, export.offset, export.rva, export.reexport) == *row && export.size == 0
}
