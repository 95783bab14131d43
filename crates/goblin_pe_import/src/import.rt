//! The imports of an image: what it uses from which libraries.
//!
//! An import directory is a list of import descriptors, one for each library. Each descriptor leads
//! to a lookup table and an address table. The entries at one index of both tables, the thunks, are
//! one import: the lookup table says what is imported, and the loader writes its address into the
//! address table.
//!
//! Source: PE Format, "The .idata Section".

ghost use Rattle.std.specs.Prelude.{◌≡◌, ◌++◌, IfErr, false, true};
ghost use Rattle.goblin_base.specs.{Answers.IsMemory, Reading.ReadsOrMemory};
ghost use Rattle.readings.specs.Reads.{mapped};
ghost use Rattle.goblin_pe_sect.specs.Options.{default_options, is_strict};
ghost use Rattle.goblin_pe_sect.specs.Addresses.{map_by, map_of, reads_strictly};
ghost use Rattle.goblin_pe_import.specs.ImportReadings as reading;

use goblin_base::{Cause, Error, ResultOf, is_passed_over};
use goblin_pe_sect::address_map::AddressMap;
use goblin_pe_sect::data_directories::DataDirectory;
use goblin_pe_sect::options::ParseOptions;
use goblin_pe_sect::section_table::SectionTable;
use std::alloc::Global;
use std::marker::Model;

pub(crate) mod address_table;
pub(crate) mod bitfield;
pub(crate) mod directory_entry;
pub(crate) mod kept;
pub(crate) mod library;
mod listed;
pub(crate) mod lookup_table;
pub(crate) mod passed;
pub(crate) mod slots;
pub(crate) mod steps;

pub use address_table::ImportAddressTable;
pub use bitfield::{
    Bitfield, IMPORT_BY_ORDINAL_32, IMPORT_BY_ORDINAL_64, IMPORT_RVA_MASK_32, IMPORT_RVA_MASK_64,
};
pub use directory_entry::{ImportDirectoryEntry, SIZEOF_IMPORT_DIRECTORY_ENTRY};
pub use library::SyntheticImportDirectoryEntry;
pub(crate) use library::{address_table_rva, first_record_offset, lookup_offset};
pub use listed::Import;
pub use lookup_table::{HintNameTableEntry, ImportLookupTable, SyntheticImportLookupTableEntry};
use slots::may_end;
pub(crate) use slots::{next_entry, next_record};

/// The imports of an image, library by library.
///
/// Source: PE Format, "The .idata Section" and "Import Directory Table".
#[derive(Debug, Drop)]
pub struct ImportData<'a> {
    /// The libraries, in the order of their import descriptors. One library may have several.
    pub import_data: Vec<SyntheticImportDirectoryEntry<'a>>,
}

impl<'a> Model for ImportData<'a> {
    ghost use Rattle.std.specs.Prelude.{List};
    ghost use Rattle.goblin_pe_import.specs.ImportRecords.{ImportedLibrary};

    ghost Value = { List ImportedLibrary };

    ghost view = { λ imports. imports.import_data.items };
}

// Reads the library of an import descriptor, and appends it if it is kept.
fn add_library<'a, 'e, T: Bitfield<'a>>(
    libraries: &mut Vec<SyntheticImportDirectoryEntry<'a>>,
    bytes: &'a [u8],
    entry: ImportDirectoryEntry,
    address_map: &AddressMap,
) -> ResultOf<'e, ()>
    ensures value { let m = map_of address_map.now in
        ReadsOrMemory (λ _. libraries.new.items) result
        (mapped (λ more. libraries.old.items ++ more)
        (reading.kept_library (reads_strictly m) T.format m.addressing entry)) bytes.now }
    ensures permissive { reads_strictly (map_of address_map.now) ≡ false → IfErr result IsMemory }
{
    let alloc = *libraries.allocator();
    match SyntheticImportDirectoryEntry::parse_by::<T>(alloc, bytes, entry, address_map) {
        Ok(library) => libraries.push(library)?,
        Err(error) if is_passed_over(&error, !address_map.reads_strictly()) => (),
        Err(error) => return Err(error),
    }
    Ok(())
}

// The libraries of the directory at a file offset.
fn libraries<'a, 'e, T: Bitfield<'a>>(
    alloc: Global,
    bytes: &'a [u8],
    offset: usize,
    address_map: &AddressMap,
) -> ResultOf<'e, Vec<SyntheticImportDirectoryEntry<'a>>>
    ensures value { let m = map_of address_map.now in
        ReadsOrMemory (λ v. v.items) result
        (reading.libraries_at (reads_strictly m) T.format m.addressing offset) bytes.now }
    ensures permissive { reads_strictly (map_of address_map.now) ≡ false → IfErr result IsMemory }
{
    let size = SIZEOF_IMPORT_DIRECTORY_ENTRY;
    let mut libraries = Vec::new(alloc);
    let mut place = offset;
    'records: while let Some(record) = next_record(bytes, place) {
        add_library::<T>(&mut libraries, bytes, record, address_map)?;
        place += size;
    }
    if may_end(bytes, place, size, address_map.reads_strictly()) {
        return Ok(libraries);
    }
    Err(Error::Malformed(Cause::ImportRecordEnd(place)))
}

impl<'a> ImportData<'a> {
    /// Reads the imports of `directory`, as [`ImportData::parse_with_opts`] with the default
    /// options.
    ///
    /// # Errors
    /// As [`ImportData::parse_with_opts`] in strict mode.
    pub fn parse<'e, T: Bitfield<'a>>(
        alloc: Global,
        bytes: &'a [u8],
        directory: DataDirectory,
        sections: &[SectionTable],
        file_alignment: u32,
    ) -> ResultOf<'e, ImportData<'a>>
        ensures { let m = map_by default_options sections.now file_alignment in
            let rva = directory.virtual_address in
            ReadsOrMemory (λ x. x) result
            (reading.import_data true T.format m.addressing rva) bytes.now }
    {
        let opts = ParseOptions::default();
        ImportData::parse_with_opts::<T>(alloc, bytes, directory, sections, file_alignment, &opts)
    }

    /// Reads the imports of `directory`, whose tables have entries of type `T`. It lists the
    /// libraries of the import descriptors before the first one whose name or address table is at
    /// address 0. Neither this reader nor the loader looks at the size of the directory.
    ///
    /// In permissive mode, a descriptor is left out if its library is refused for another cause
    /// than memory. The directory may end at the end of the file. The list is empty if the address
    /// of the directory has no file offset, or if that offset is 0, as [`ParseOptions::parse_mode`]
    /// says.
    ///
    /// # Errors
    /// In strict mode [`Error::Malformed`] with [`Cause::Unmapped`] if the directory's address has
    /// no file offset, and with [`Cause::ImportRecordEnd`] if the directory reaches the end of the
    /// file. Also in strict mode as [`SyntheticImportDirectoryEntry::parse_with_opts`] for a
    /// descriptor. In both modes [`Error::Memory`] if memory is refused.
    pub fn parse_with_opts<'e, T: Bitfield<'a>>(
        alloc: Global,
        bytes: &'a [u8],
        directory: DataDirectory,
        sections: &[SectionTable],
        file_alignment: u32,
        opts: &ParseOptions,
    ) -> ResultOf<'e, ImportData<'a>>
        ensures value { let m = map_by opts.now sections.now file_alignment in
            let rva = directory.virtual_address in
            ReadsOrMemory (λ x. x) result
            (reading.import_data (reads_strictly m) T.format m.addressing rva) bytes.now }
        ensures permissive { is_strict opts.now.parse_mode ≡ false → IfErr result IsMemory }
    {
        let address_map = AddressMap::prepare(alloc, sections, file_alignment, opts)?;
        ImportData::parse_by::<T>(alloc, bytes, directory, &address_map)
    }

    /// Reads the imports as [`ImportData::parse_with_opts`] does, with an address map that exists
    /// already.
    ///
    /// # Errors
    /// As [`ImportData::parse_with_opts`].
    #[tactic(auto, unfolding(crate::specs::ImportReadings::import_data))]
    pub fn parse_by<'e, T: Bitfield<'a>>(
        alloc: Global,
        bytes: &'a [u8],
        directory: DataDirectory,
        address_map: &AddressMap,
    ) -> ResultOf<'e, ImportData<'a>>
        ensures value { let m = map_of address_map.now in
            let rva = directory.virtual_address in
            ReadsOrMemory (λ x. x) result
            (reading.import_data (reads_strictly m) T.format m.addressing rva) bytes.now }
        ensures permissive { reads_strictly (map_of address_map.now) ≡ false
            → IfErr result IsMemory }
    {
        let rva = directory.virtual_address;
        let strictly = address_map.reads_strictly();
        let import_data = match first_record_offset(address_map.offset_of(rva), strictly) {
            Some(offset) => libraries::<T>(alloc, bytes, offset, address_map)?,
            None if strictly => return Err(Error::Malformed(Cause::Unmapped(rva as usize))),
            None => Vec::new(alloc),
        };
        Ok(ImportData { import_data })
    }
}
