//! The libraries that an image imports from.

ghost use Rattle.std.specs.Prelude.{◌≡◌, ◌<◌, ◌^◌, [], map, option_map, true, unwrap_or};
ghost use Rattle.goblin_base.specs.Reading.{Reads, ReadsOrMemory};
ghost use Rattle.readings.specs.Reads.{or_else};
ghost use Rattle.goblin_pe_sect.specs.{Options.default_options, AddressReadings.name_at};
ghost use Rattle.goblin_pe_sect.specs.Addresses.{map_by, map_of, reads_strictly};
ghost use Rattle.goblin_pe_import.specs.ImportRecords.{address_table_rva, lookup_offset};
ghost use Rattle.goblin_pe_import.specs.ImportLookup.{entry_model};
ghost use Rattle.goblin_pe_import.specs.ImportReadings as reading;
ghost use Rattle.goblin_pe_import.specs.ImportReadings.{first_record_offset, lookup_if};

use crate::import::address_table::{ImportAddressTable, address_table};
use crate::import::bitfield::Bitfield;
use crate::import::directory_entry::ImportDirectoryEntry;
use crate::import::lookup_table::{ImportLookupTable, SyntheticImportLookupTableEntry};
use goblin_base::{Cause, Error, ResultOf, no_text};
use goblin_pe_sect::address_map::{AddressMap, Finder};
use goblin_pe_sect::options::ParseOptions;
use goblin_pe_sect::section_table::SectionTable;
use std::alloc::Global;
use std::marker::Model;

/// A library that an import descriptor leads to, with its lookup table and its address table.
///
/// Source: PE Format, "Import Directory Table", "Import Lookup Table" and "Import Address Table".
#[derive(Debug, Drop)]
pub struct SyntheticImportDirectoryEntry<'a> {
    /// The import descriptor that leads to the library.
    pub import_directory_entry: ImportDirectoryEntry,
    /// The name of the library. In permissive mode it is empty if none can be read.
    pub name: &'a str,
    /// What the lookup table keeps. Only entries that are made by hand have `None`: a reader finds
    /// a table for each descriptor that it keeps.
    pub import_lookup_table: Option<ImportLookupTable<'a>>,
    /// The slot of each entry of the lookup table, in order, counted from 0. The slots of entries
    /// that are left out are missing. There are no slots if there is no table.
    pub import_lookup_slots: Vec<usize>,
    /// The numbers of the address table before its first 0. They are copies of the lookup table's
    /// entries, or addresses if the imports are bound.
    pub import_address_table: ImportAddressTable,
}

impl<'a> Model for SyntheticImportDirectoryEntry<'a> {
    ghost use Rattle.std.specs.Prelude.{map, option_map};
    ghost use Rattle.goblin_pe_import.specs.ImportRecords.{ImportedLibrary};
    ghost use Rattle.goblin_pe_import.specs.ImportLookup.{entry_model};

    ghost Value = { ImportedLibrary };

    ghost view = { λ entry. record {
      import_directory_entry = entry.import_directory_entry;
      name = entry.name.now;
      import_lookup_table = option_map (map entry_model) entry.import_lookup_table;
      import_lookup_slots = entry.import_lookup_slots.items;
      import_address_table = entry.import_address_table;
    } };
}

// The lookup table at an offset with the slots of its entries, or nothing if there is no offset.
#[tactic(auto, unfolding(crate::specs::ImportReadings::lookup_if))]
fn lookup_table_if<'a, 'e, T: Bitfield<'a>>(
    alloc: Global,
    bytes: &'a [u8],
    offset: Option<usize>,
    address_map: &AddressMap,
) -> ResultOf<'e, (Option<ImportLookupTable<'a>>, Vec<usize>)>
    ensures { let m = map_of address_map.now in
        ReadsOrMemory (λ both. (option_map (map entry_model) both.0, both.1.items)) result
        (lookup_if (reads_strictly m) T.format m.addressing offset) bytes.now }
{
    let Some(offset) = offset else {
        return Ok((None, Vec::new(alloc)));
    };
    let (table, slots) = SyntheticImportLookupTableEntry::parse_by::<T>(
        alloc,
        bytes,
        offset,
        address_map,
    )?;
    Ok((Some(table), slots))
}

// The name of a library. In permissive mode it is empty if none can be read.
#[inline(always)]
#[tactic(auto, using(crate::proofs::LibraryNames::taken, crate::proofs::LibraryNames::missing))]
pub(crate) fn library_name<'a, 'e>(
    bytes: &'a [u8],
    rva: u32,
    finder: &mut Finder<'_>,
) -> ResultOf<'e, &'a str>
    ensures value { let m = map_of finder.old in
        Reads (λ s. s.now) result
        (or_else (reads_strictly m) [] (name_at m.addressing rva)) bytes.now }
    ensures same { finder.new ≡ finder.old }
{
    let name = finder.name(bytes, rva)?;
    Ok(name.unwrap_or(no_text(bytes)))
}

// The name at an address, or the empty one if none can be read.
#[inline(always)]
#[tactic(auto, using(crate::proofs::LibraryNames::same_or_empty))]
pub(crate) fn name_or_empty<'a>(bytes: &'a [u8], rva: u32, finder: &mut Finder<'_>) -> &'a str
    ensures value { let name = name_at (map_of finder.old).addressing rva in
        result.now ≡ unwrap_or (name.value bytes.now) [] }
    ensures same { finder.new ≡ finder.old }
{
    match finder.name(bytes, rva) {
        Ok(Some(name)) => name,
        _ => no_text(bytes),
    }
}

// The offset of the first import descriptor of a directory that has this offset, if it has one.
// Permissive mode treats a directory at the front of the file as empty.
#[inline(always)]
pub(crate) fn first_record_offset(offset: Option<usize>, strictly: bool) -> Option<usize>
    ensures { result ≡ first_record_offset strictly offset }
{
    match offset {
        Some(0) if !strictly => None,
        offset => offset,
    }
}

// The file offset of the lookup table of an import descriptor. It is that of the lookup table's own
// address or, if this has none, that of the address table's address.
#[inline(always)]
pub(crate) fn lookup_offset(entry: &ImportDirectoryEntry, finder: &mut Finder<'_>) -> Option<usize>
    ensures value { result ≡ lookup_offset (map_of finder.old).addressing entry.now }
    ensures same { finder.new ≡ finder.old }
{
    let lookup_rva = entry.import_lookup_table_rva;
    let address_rva = entry.import_address_table_rva;
    match finder.offset_of(lookup_rva) {
        Some(offset) => Some(offset),
        None => finder.offset_of(address_rva),
    }
}

// The address of the address table of an import descriptor, or that of the lookup table if it is 0.
pub(crate) fn address_table_rva(entry: &ImportDirectoryEntry) -> u32
    ensures { result ≡ address_table_rva entry.now }
{
    match entry.import_address_table_rva {
        0 => entry.import_lookup_table_rva,
        rva => rva,
    }
}

impl<'a> SyntheticImportDirectoryEntry<'a> {
    /// Reads what an import descriptor leads to, as
    /// [`SyntheticImportDirectoryEntry::parse_with_opts`] with the default options.
    ///
    /// # Errors
    /// As [`SyntheticImportDirectoryEntry::parse_with_opts`] in strict mode.
    pub fn parse<'e, T: Bitfield<'a>>(
        alloc: Global,
        bytes: &'a [u8],
        import_directory_entry: ImportDirectoryEntry,
        sections: &[SectionTable],
        file_alignment: u32,
    ) -> ResultOf<'e, SyntheticImportDirectoryEntry<'a>>
        ensures { let m = map_by default_options sections.now file_alignment in
            ReadsOrMemory (λ x. x) result
            (reading.library_of true T.format m.addressing import_directory_entry) bytes.now }
    {
        let opts = ParseOptions::default();
        SyntheticImportDirectoryEntry::parse_with_opts::<T>(
            alloc,
            bytes,
            import_directory_entry,
            sections,
            file_alignment,
            &opts,
        )
    }

    /// Reads what an import descriptor leads to: the library's name, its lookup table and its
    /// address table, with entries of type `T`.
    ///
    /// The lookup table is read at its address or, if that has no file offset, at the address of
    /// the address table. If that has none either, there is no lookup table. The address table is
    /// read at its address or, if that is 0, at the address of the lookup table. It keeps the
    /// numbers before the first 0. The slots are those of
    /// [`SyntheticImportLookupTableEntry::parse_with_slots`].
    ///
    /// # Errors
    /// In strict mode as [`safe_try_name`](goblin_pe_sect::utils::safe_try_name) if no name can be
    /// read; in permissive mode the name is then empty. As
    /// [`SyntheticImportLookupTableEntry::parse_with_opts`] if the lookup table is refused. In both
    /// modes [`Error::Malformed`] with [`Cause::Unmapped`] if the address of the address table has
    /// no file offset, and [`Error::Read`] if that table reaches the end of the file.
    /// [`Error::Memory`] if memory is refused.
    pub fn parse_with_opts<'e, T: Bitfield<'a>>(
        alloc: Global,
        bytes: &'a [u8],
        import_directory_entry: ImportDirectoryEntry,
        sections: &[SectionTable],
        file_alignment: u32,
        opts: &ParseOptions,
    ) -> ResultOf<'e, SyntheticImportDirectoryEntry<'a>>
        ensures { let m = map_by opts.now sections.now file_alignment in
            ReadsOrMemory (λ x. x) result
            (reading.library_of (reads_strictly m) T.format m.addressing import_directory_entry)
            bytes.now }
    {
        let address_map = AddressMap::prepare(alloc, sections, file_alignment, opts)?;
        SyntheticImportDirectoryEntry::parse_by::<T>(
            alloc,
            bytes,
            import_directory_entry,
            &address_map,
        )
    }

    // Reads what an import descriptor leads to, with an address map that exists already.
    #[tactic(auto, unfolding(crate::specs::ImportReadings::library_of))]
    pub(crate) fn parse_by<'e, T: Bitfield<'a>>(
        alloc: Global,
        bytes: &'a [u8],
        import_directory_entry: ImportDirectoryEntry,
        address_map: &AddressMap,
    ) -> ResultOf<'e, SyntheticImportDirectoryEntry<'a>>
        ensures value { let m = map_of address_map.now in
            ReadsOrMemory (λ x. x) result
            (reading.library_of (reads_strictly m) T.format m.addressing import_directory_entry)
            bytes.now }
        ensures low { import_directory_entry.import_address_table_rva < 2 ^ 32 }
    {
        let record = &import_directory_entry;
        let mut finder = Finder::of(address_map);
        let name = library_name(bytes, record.name_rva, &mut finder)?;
        let lookup_offset = lookup_offset(record, &mut finder);
        let (import_lookup_table, import_lookup_slots) = lookup_table_if::<T>(
            alloc,
            bytes,
            lookup_offset,
            address_map,
        )?;
        let address_rva = address_table_rva(record);
        let Some(offset) = finder.offset_of(address_rva) else {
            return Err(Error::Malformed(Cause::Unmapped(address_rva as usize)));
        };
        let import_address_table = address_table::<T>(alloc, bytes, offset)?;
        Ok(SyntheticImportDirectoryEntry {
            import_directory_entry,
            name,
            import_lookup_table,
            import_lookup_slots,
            import_address_table,
        })
    }
}
