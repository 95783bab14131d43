//! Where the tables of a file lie. Base relocations are read here, too, because lists and walks
//! both have them as the bytes of their directory.

ghost use Rattle.std.specs.Prelude.{◌==◌, ◌<◌, ◌≡◌, map};
ghost use Rattle.goblin_base.specs.Reading.{Reads};
ghost use Rattle.goblin_pe_sect.specs.{Addresses.map_of, BaseRelocations.relocation_bytes};
ghost use Rattle.goblin_pe_sect.specs.{DataDirectories.directory_or_zeros, Options.is_strict};
ghost use Rattle.goblin_pe.specs.Whole.{BecomesPart, part_map, places_in, relocation_part};
ghost use Rattle.goblin_pe.specs.Whole.{directory_at, directory_offset, size_of_headers};
ghost use Rattle.goblin_pe.specs.Whole.{table_places};

use crate::whole::Part;
use goblin_base::{Result, ResultOf, is_passed_over};
use goblin_pe_head::optional_header::{MAGIC_32, OptionalHeader};
use goblin_pe_sect::address_map::AddressMap;
use goblin_pe_sect::data_directories::{DataDirectories, NUM_DATA_DIRECTORIES};
use goblin_pe_sect::relocation::RelocationData;
use goblin_pe_sect::{DataDirectory, ParseOptions};

// A table that was asked for, as a part. Permissive mode passes over every refusal except
// `Error::Memory`.
pub(crate) fn part_of<'e, T: Drop>(
    table: ResultOf<'e, T>,
    opts: &ParseOptions,
) -> ResultOf<'e, Part<T>>
    ensures { BecomesPart (is_strict opts.now.parse_mode) table.entry result }
{
    match table {
        Ok(table) => Ok(Part::Read(table)),
        Err(error) if is_passed_over(&error, opts.parse_mode.is_permissive()) => Ok(Part::Refused),
        Err(error) => Err(error),
    }
}

// The index of the export directory.
pub(crate) const EXPORT_TABLE: usize = 0;

// The index of the import directory.
pub(crate) const IMPORT_TABLE: usize = 1;

// The index of the directory of base relocations.
pub(crate) const BASE_RELOCATION_TABLE: usize = 5;

/// Where the tables of a file lie, and how they are read.
///
/// Source: PE Format, "Optional Header (Image Only)".
#[derive(Debug, PartialEq, Copy, Clone)]
pub struct Places {
    /// The magic of the optional header. Entries of the import tables have four bytes if it is
    /// 0x10B, that of PE32, else eight.
    pub magic: u16,
    /// The file alignment of the sections' raw data, in bytes. Without an optional header it is 0,
    /// and then no section maps an address.
    pub file_alignment: u32,
    /// The data directories by index. A missing one is all zeros.
    pub directories: [DataDirectory; NUM_DATA_DIRECTORIES],
}

// The directory of an entry, or zeros if there is none.
fn directory_or_zeros(entry: Option<(usize, DataDirectory)>) -> DataDirectory
    ensures { result ≡ directory_or_zeros entry }
{
    match entry {
        Some((_, directory)) => directory,
        None => DataDirectory::default(),
    }
}

// The directories of these entries, with zeros for each that is missing.
fn directories_of(entries: DataDirectories) -> [DataDirectory; NUM_DATA_DIRECTORIES]
    ensures { result ≡ map directory_or_zeros entries.data_directories }
{
    let mut directories = [DataDirectory::default(); NUM_DATA_DIRECTORIES];
    'entries: for i in 0..NUM_DATA_DIRECTORIES {
        directories[i] = directory_or_zeros(entries.data_directories[i]);
    }
    directories
}

/// The size of an image's headers in bytes, from its optional header; 0 without one.
///
/// Source: PE Format, "Optional Header Windows-Specific Fields (Image Only)".
pub fn size_of_headers(header: &Option<OptionalHeader>) -> u32
    ensures { result ≡ size_of_headers header.now }
{
    match header {
        Some(header) => header.windows_fields.size_of_headers,
        None => 0,
    }
}

// The file alignment of the sections' raw data in bytes, from an optional header; 0 without one.
#[tactic(auto, unfolding(crate::specs::Whole::places_in))]
pub(crate) fn file_alignment(header: &Option<OptionalHeader>) -> u32
    ensures { result ≡ (places_in header.now).file_alignment }
{
    match header {
        Some(header) => header.windows_fields.file_alignment,
        None => 0,
    }
}

impl Places {
    /// The places that an optional header gives. Without one there are no tables.
    #[tactic(auto, unfolding(crate::specs::Whole::places_in))]
    pub fn of(header: &Option<OptionalHeader>) -> Places
        ensures { table_places result ≡ places_in header.now }
    {
        let Some(header) = header else {
            return Places {
                magic: 0,
                file_alignment: 0,
                directories: [DataDirectory::default(); NUM_DATA_DIRECTORIES],
            };
        };
        Places {
            magic: header.standard_fields.magic,
            file_alignment: header.windows_fields.file_alignment,
            directories: directories_of(header.data_directories),
        }
    }

    /// The data directory at an index, or `None` if it is all zeros.
    #[tactic(auto, unfolding(crate::specs::Whole::directory_at))]
    pub fn directory(&self, index: usize) -> Option<DataDirectory>
        requires { index < 16 }
        ensures { result ≡ directory_at (table_places self.now) index }
    {
        let directory = self.directories[index];
        if directory.virtual_address == 0 && directory.size == 0 {
            return None;
        }
        Some(directory)
    }

    // Whether the magic says that entries of the import tables have four bytes, not eight.
    pub(crate) fn has_narrow_entries(&self) -> bool
        ensures { result ≡ (self.now.magic == 0x10B) }
    {
        self.magic == MAGIC_32
    }

    // The file offset of the base relocations, and these as a part.
    #[tactic(auto, unfolding(crate::specs::Whole::relocation_part))]
    pub(crate) fn placed_relocations<'a>(
        &self,
        bytes: &'a [u8],
        address_map: &AddressMap,
    ) -> (Option<usize>, Result<Part<RelocationData<'a>>>)
        ensures offset { let m = map_of address_map.now in
            result.0 ≡ directory_offset m.addressing (table_places self.now) 5 }
        ensures value { let m = map_of address_map.now in
            let places = table_places self.now in
            Reads (part_map relocation_bytes) result.1
            (relocation_part m.opts m.addressing places) bytes.now }
    {
        let Some(directory) = self.directory(BASE_RELOCATION_TABLE) else {
            return (None, Ok(Part::Absent));
        };
        let (part, offset) = address_map.part_of(bytes, directory.virtual_address);
        let data = RelocationData::parse_at(part.stored(), directory, offset);
        (offset, part_of(data, address_map.opts()))
    }

    // The base relocations, as a part.
    pub(crate) fn relocations<'a>(
        &self,
        bytes: &'a [u8],
        address_map: &AddressMap,
    ) -> Result<Part<RelocationData<'a>>>
        ensures { let m = map_of address_map.now in
            let places = table_places self.now in
            Reads (part_map relocation_bytes) result
            (relocation_part m.opts m.addressing places) bytes.now }
    {
        self.placed_relocations(bytes, address_map).1
    }
}
