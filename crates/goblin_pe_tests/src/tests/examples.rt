//! What the examples make of a file.

use fixture::sample::{is_err, is_ok, put, put_all, sample};
use goblin_base::Error;
use goblin_pe::Cause;
use goblin_pe::export::{
    ExportAddressTable, ExportAddressTableEntry, ExportNamePointerTable, ExportOrdinalTable,
};
use goblin_pe::import::{Import, ImportData, ImportDirectoryEntry, SyntheticImportDirectoryEntry};
use goblin_pe::relocation::RelocationWord;
use goblin_pe::section_table::SectionTable;
use goblin_pe::table::*;
use goblin_pe_examples::imports::imports_from;
use goblin_pe_examples::tables::{
    count_entries, count_forwarders, count_imports, has_ordinal, name_pointer, value_at,
};
use std::alloc::{AllocError, Global};

#[test]
fn the_imports_of_a_file_are_counted(rt: HostRuntime) {
    let mut file = sample();
    assert!(rt; is_ok(count_imports(rt.alloc(), &file), &2));
    // The address of the import directory is one that no section maps.
    put(&mut file, 0xC0, b"\x00\x90");
    assert!(rt; is_ok(count_imports(rt.alloc(), &file), &0));
}

/// Whether the sample file imports something from this library.
fn imports(alloc: Global, library: &str) -> bool {
    is_ok(imports_from(alloc, &sample(), library), &true)
}

#[test]
fn the_library_of_an_import_is_found_by_its_case(rt: HostRuntime) {
    assert!(rt; imports(rt.alloc(), "a.dll"));
    assert!(rt; !imports(rt.alloc(), "A.dll"));
}

/// A Rich header of one entry, from its first marker to the key after its last, and the key alone.
const RICH: &[u8; 32] = b"DanS\0\0\0\0\0\0\0\0\0\0\0\0\x02\0\x03\0\x04\0\0\0Rich\0\0\0\0";

/// What gives the sample file that header.
const WITH_RICH: &[(usize, &[u8])] = &[(0x3C, b"\x80"), (0x40, RICH), (0x80, b"PE\0\0")];

#[test]
fn the_entries_of_a_rich_header_are_counted(rt: HostRuntime) {
    let mut file = sample();
    // The sample file's PE signature comes right after its DOS header.
    assert!(rt; is_ok(count_entries(&file), &None));
    put_all(&mut file, WITH_RICH);
    assert!(rt; is_ok(count_entries(&file), &Some(1)));
}

/// The value of a word at an address of a file's only section.
fn word_at(file: &[u8], virtual_address: u32) -> goblin_base::Result<RelocationWord> {
    let section = SectionTable {
        virtual_address: 0x4000,
        virtual_size: 2,
        size_of_raw_data: 512,
        ..SectionTable::default()
    };
    value_at(file, &[section], virtual_address)
}

#[test]
fn a_value_of_any_type_is_read(rt: HostRuntime) {
    assert!(rt; matches!(word_at(b"\x08\xA0", 0x4000), Ok(word) if word.value == 0xA008));
}

/// How many addresses of a table of two are those of forwarders.
fn forwarders(alloc: Global) -> Result<usize, AllocError> {
    let table = ExportAddressTable::from(vec![in alloc;
        ExportAddressTableEntry::ExportRVA(0x1010),
        ExportAddressTableEntry::ForwarderRVA(0x10E0),
    ]?);
    Ok(count_forwarders(&table))
}

#[test]
fn addresses_are_read_as_of_a_vec(rt: HostRuntime) {
    assert!(rt; matches!(forwarders(rt.alloc()), Ok(1)));
}

/// The second pointer of a table of two.
fn second_pointer(alloc: Global) -> Result<Option<u32>, AllocError> {
    let pointers = ExportNamePointerTable::from(vec![in alloc; 0x10F0, 0x1080]?);
    Ok(name_pointer(&pointers, 1))
}

/// Whether a table of the ordinals 4 and 7 has this one.
fn is_ordinal(alloc: Global, ordinal: u16) -> Result<bool, AllocError> {
    let ordinals = ExportOrdinalTable::from(vec![in alloc; 4, 7]?);
    Ok(has_ordinal(&ordinals, ordinal))
}

/// The ordinals 4 and 7, put into a table and taken out again.
fn ordinals_again(alloc: Global) -> Result<Vec<u16>, AllocError> {
    let ordinals = ExportOrdinalTable::from(vec![in alloc; 4, 7]?);
    Ok(ordinals.into_vec())
}

#[test]
fn a_table_becomes_a_vec_again(rt: HostRuntime) {
    assert!(rt;
        matches!(&ordinals_again(rt.alloc()), Ok(table) if table.as_slice() == [4u16, 7].as_slice())
    );
}

#[test]
fn names_and_ordinals_are_read_as_of_a_vec(rt: HostRuntime) {
    assert!(rt; matches!(second_pointer(rt.alloc()), Ok(Some(0x1080))));
    assert!(rt; matches!(is_ordinal(rt.alloc(), 7), Ok(true)));
    assert!(rt; matches!(is_ordinal(rt.alloc(), 5), Ok(false)));
}

/// Import data of one library that has a slot and no entry.
fn with_a_slot_alone(alloc: Global) -> Result<ImportData<'static>, AllocError> {
    let library = SyntheticImportDirectoryEntry {
        import_directory_entry: ImportDirectoryEntry::default(),
        name: "",
        import_lookup_table: None,
        import_lookup_slots: vec![in alloc; 0; 1]?,
        import_address_table: Table::from(Vec::new(alloc)),
    };
    let import_data = vec![in alloc; library]?;
    Ok(ImportData { import_data })
}

/// Whether the imports of that library are refused, with both numbers.
fn is_slot_reported(alloc: Global, data: &ImportData<'static>) -> bool {
    let imports = Import::parse::<u32>(alloc, &[], data, &[]);
    is_err(imports, &Error::Malformed(Cause::SlotCount(0, 1)))
}

#[test]
fn a_slot_without_an_entry_is_reported(rt: HostRuntime) {
    let data = with_a_slot_alone(rt.alloc());
    assert!(rt; matches!(&data, Ok(data) if is_slot_reported(rt.alloc(), data)));
}
