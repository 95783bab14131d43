//! Imports by entries of two bytes, and what only a caller in Rattle can ask for or make.

use super::rows::{
    GO, ImportRow, RECORD, SEVEN, Short, are_imports, is_sample_library, is_sample_table,
    is_seven_alone,
};
use super::sample::is_import_data;
use fixture::sample::{
    ALIGNMENT, IMPORTS, LOOKUP, SAMPLE_LEN, cut, in_mode, is_err, put, sample, sample_section,
    sample_with,
};
use goblin_base::{Cause, Error, ParseMode, ResultOf};
use goblin_pe::import::{
    Bitfield, Import, ImportData, ImportDirectoryEntry, ImportLookupTable,
    SyntheticImportDirectoryEntry, SyntheticImportLookupTableEntry,
};
use std::alloc::Global;

/// What the sample's import directory leads to in a file with its section, by entries of type `T`.
fn data_of<'a, 'e, T: Bitfield<'a>>(
    alloc: Global,
    file: &'a [u8],
    mode: ParseMode,
) -> ResultOf<'e, ImportData<'a>> {
    let sections = [sample_section()];
    let opts = in_mode(mode);
    ImportData::parse_with_opts::<T>(alloc, file, IMPORTS, &sections, ALIGNMENT, &opts)
}

/// The imports of the sample directory, by entries of type `T`. What they borrow is the file's.
fn imports_of<'a, 'e, T: Bitfield<'a>>(
    alloc: Global,
    file: &'a [u8],
    mode: ParseMode,
) -> ResultOf<'e, Vec<Import<'a>>> {
    let data = data_of::<T>(alloc, file, mode)?;
    Import::parse::<T>(alloc, file, &data, &[sample_section()])
}

/// Whether the imports of the sample directory are these.
fn are_listed<'a, T: Bitfield<'a>>(
    alloc: Global,
    file: &'a [u8],
    mode: ParseMode,
    rows: &[ImportRow],
) -> bool {
    matches!(&imports_of::<T>(alloc, file, mode), Ok(imports) if are_imports(imports, rows))
}

/// Whether they are these in both modes.
fn are_alike<'a, T: Bitfield<'a>>(alloc: Global, file: &'a [u8], rows: &[ImportRow]) -> bool {
    are_listed::<T>(alloc, file, ParseMode::Strict, rows)
        && are_listed::<T>(alloc, file, ParseMode::Permissive, rows)
}

/// What is listed of the sample file by entries of two bytes, and of eight.
const OF_TWO: &[ImportRow] = &[("Go", 5, 0x1060, 0x1090, 2, 0)];

const OF_EIGHT: &[ImportRow] = &[("ORDINAL 4240", 4240, 0x1060, 0, 8, 0)];

#[test]
fn imports_are_listed_by_entries_of_two_and_of_eight_bytes(rt: HostRuntime) {
    let file = sample();
    assert!(rt; are_alike::<Short>(rt.alloc(), &file, OF_TWO));
    assert!(rt; are_alike::<u64>(rt.alloc(), &file, OF_EIGHT));
}

#[test]
fn an_address_table_is_read_where_there_is_no_lookup_table(rt: HostRuntime) {
    let file = sample_with(0x200, b"\0\0");
    assert!(rt; are_alike::<u32>(rt.alloc(), &file, &[GO, SEVEN]));
}

/// Whether strict mode refuses the imports of a file, and permissive mode lists these.
fn are_permissive(alloc: Global, file: &[u8], rows: &[ImportRow]) -> bool {
    matches!(&data_of::<u32>(alloc, file, ParseMode::Strict), Err(_))
        && are_listed::<u32>(alloc, file, ParseMode::Permissive, rows)
}

#[test]
fn an_entry_that_leads_to_no_whole_name(rt: HostRuntime) {
    let (nameless, cut, nowhere) = (
        sample_with(0x240, b"\xFE\x10"),
        sample_with(0x240, b"\xFF\x10"),
        sample_with(0x240, b"\0\x90"),
    );
    assert!(rt;
        are_permissive(
            rt.alloc(),
            &nameless,
            &[("", 0, 0x1060, 0x10FE, 4, 0), SEVEN]
        )
    );
    assert!(rt; are_permissive(rt.alloc(), &cut, &[SEVEN]));
    assert!(rt; are_alike::<u32>(rt.alloc(), &nowhere, &[SEVEN]));
}

/// The sample file with a record before its own, whose address table no section maps.
const TWO_RECORDS: &[u8] = b"\0\x90\0\0\x40\x10\0\0\0\0\0\0\0\0\0\0\x80\x10\0\0\x60\x10\0\0";

/// Whether strict mode refuses the address table of a library, which permissive mode leaves out.
fn leaves_one_out(alloc: Global, file: &[u8]) -> bool {
    let strict = data_of::<u32>(alloc, file, ParseMode::Strict);
    let permissive = data_of::<u32>(alloc, file, ParseMode::Permissive);
    is_err(strict, &Error::Malformed(Cause::Unmapped(0x9000)))
        && matches!(&permissive, Ok(data) if is_import_data(data))
}

#[test]
fn a_library_without_an_address_table_is_left_out(rt: HostRuntime) {
    assert!(rt; leaves_one_out(rt.alloc(), &sample_with(0x210, TWO_RECORDS)));
}

/// The sample file with its record twice.
fn with_its_record_twice() -> [u8; SAMPLE_LEN] {
    let mut file = sample_with(0x214, b"\x40\x10");
    put(&mut file, 0x220, b"\x80\x10\x00\x00\x60\x10");
    file
}

/// The library of the sample's record, read by itself.
fn library_alone<'a, 'e>(
    alloc: Global,
    file: &'a [u8],
) -> ResultOf<'e, SyntheticImportDirectoryEntry<'a>> {
    SyntheticImportDirectoryEntry::parse::<u32>(alloc, file, RECORD, &[sample_section()], ALIGNMENT)
}

/// Import data that is put together from two libraries, each read by itself.
fn put_together<'a, 'e>(alloc: Global, file: &'a [u8]) -> ResultOf<'e, ImportData<'a>> {
    let mut import_data = Vec::with_capacity(alloc, 2)?;
    import_data.push(library_alone(alloc, file)?)?;
    import_data.push(library_alone(alloc, file)?)?;
    Ok(ImportData { import_data })
}

/// Whether this is the sample's library twice.
fn is_library_twice(data: &ImportData) -> bool {
    match data.import_data.as_slice() {
        [first, second] => is_sample_library(first, &RECORD) && is_sample_library(second, &RECORD),
        _ => false,
    }
}

fn is_read_twice(alloc: Global, file: &[u8]) -> bool {
    matches!(&data_of::<u32>(alloc, file, ParseMode::Strict), Ok(data) if is_library_twice(data))
}

fn is_put_together(alloc: Global, file: &[u8]) -> bool {
    matches!(&put_together(alloc, file), Ok(data) if is_library_twice(data))
}

#[test]
fn import_data_of_libraries_read_one_by_one_is_that_of_their_directory(rt: HostRuntime) {
    let file = with_its_record_twice();
    assert!(rt; is_read_twice(rt.alloc(), &file));
    assert!(rt; is_put_together(rt.alloc(), &file));
}

/// Whether a record leads to the sample's library.
fn is_library_of(alloc: Global, record: ImportDirectoryEntry) -> bool {
    let (file, sections) = (sample(), [sample_section()]);
    let read = SyntheticImportDirectoryEntry::parse::<u32>(
        alloc, &file, record, &sections, ALIGNMENT,
    );
    matches!(&read, Ok(library) if is_sample_library(library, &record))
}

#[test]
fn a_record_without_an_address_table_has_it_at_its_lookup_table(rt: HostRuntime) {
    let record = ImportDirectoryEntry {
        import_address_table_rva: 0,
        ..RECORD
    };
    assert!(rt; is_library_of(rt.alloc(), record));
}

/// The lookup table of a file in a mode, and the slots of its entries.
fn lookup_of<'a, 'e>(
    alloc: Global,
    file: &'a [u8],
    mode: ParseMode,
) -> ResultOf<'e, (ImportLookupTable<'a>, Vec<usize>)> {
    let sections = [sample_section()];
    let opts = in_mode(mode);
    SyntheticImportLookupTableEntry::parse_with_slots::<u32>(
        alloc, file, LOOKUP, &sections, ALIGNMENT, &opts,
    )
}

/// Whether it is the sample file's, with the slots 0 and 1.
fn has_both_slots(alloc: Global, file: &[u8], mode: ParseMode) -> bool {
    matches!(
        &lookup_of(alloc, file, mode),
        Ok((table, slots))
            if is_sample_table(table) && slots.as_slice() == [0usize, 1].as_slice()
    )
}

#[test]
fn a_lookup_table_is_read_with_its_slots(rt: HostRuntime) {
    let file = sample();
    assert!(rt; has_both_slots(rt.alloc(), &file, ParseMode::Strict));
    assert!(rt; has_both_slots(rt.alloc(), &file, ParseMode::Permissive));
}

/// Whether strict mode refuses the lookup table of a file that lacks the hint of its first entry.
fn lacks_its_hint(alloc: Global, file: &[u8]) -> bool {
    let read = lookup_of(alloc, file, ParseMode::Strict);
    is_err(read, &Error::Malformed(Cause::HintEntry(0x290)))
}

/// Whether permissive mode keeps of it the entry by ordinal, which has the slot 1.
fn keeps_seven(alloc: Global, file: &[u8]) -> bool {
    matches!(
        &lookup_of(alloc, file, ParseMode::Permissive),
        Ok((table, slots)) if is_seven_alone(table) && slots.as_slice() == [1usize].as_slice()
    )
}

/// Whether it keeps nothing of it.
fn keeps_nothing(alloc: Global, file: &[u8]) -> bool {
    matches!(
        &lookup_of(alloc, file, ParseMode::Permissive),
        Ok((table, slots)) if table.is_empty() && slots.is_empty()
    )
}

#[test]
fn a_lookup_table_at_the_end_of_a_file_keeps_what_is_there(rt: HostRuntime) {
    let file = sample();
    assert!(rt; lacks_its_hint(rt.alloc(), cut(&file, 0x248)));
    assert!(rt; keeps_seven(rt.alloc(), cut(&file, 0x248)));
    assert!(rt; lacks_its_hint(rt.alloc(), cut(&file, 0x247)));
    assert!(rt; keeps_nothing(rt.alloc(), cut(&file, 0x247)));
}

/// The sample's import data, with one slot for its library.
fn with_one_slot(alloc: Global, file: &[u8]) -> goblin_base::Result<ImportData<'_>> {
    let mut data = data_of::<u32>(alloc, file, ParseMode::Strict)?;
    for library in &mut data.import_data {
        library.import_lookup_slots.truncate(1);
    }
    Ok(data)
}

/// Whether these import data have two entries for one slot, and are refused for that.
fn lack_a_slot(alloc: Global, file: &[u8], data: &ImportData) -> bool {
    let read = Import::parse::<u32>(alloc, file, data, &[sample_section()]);
    is_err(read, &Error::Malformed(Cause::SlotCount(2, 1)))
}

/// Whether the sample's import data are, with one slot.
fn is_refused_with_one_slot(alloc: Global, file: &[u8]) -> bool {
    matches!(&with_one_slot(alloc, file), Ok(data) if lack_a_slot(alloc, file, data))
}

#[test]
fn a_library_that_has_more_entries_than_slots_is_refused(rt: HostRuntime) {
    assert!(rt; is_refused_with_one_slot(rt.alloc(), &sample()));
}
