//! The imports of two files.

ghost use Rattle.std.specs.Prelude.{map};
ghost use Rattle.goblin_base.specs.Reading.{TwinsOrMemory};
ghost use Rattle.goblin_pe_sect.specs.Addresses.{map_by, reads_strictly};
ghost use Rattle.goblin_pe_import.specs.{ImportLookup.entry_model, ImportReadings.import_data};
ghost use Rattle.goblin_pe_import.specs.LookupReadings.{lookup_table};

use crate::import::{Bitfield, ImportData, ImportLookupTable, SyntheticImportLookupTableEntry};
use goblin_base::ResultOf;
use goblin_pe_sect::data_directories::DataDirectory;
use goblin_pe_sect::options::ParseOptions;
use goblin_pe_sect::section_table::SectionTable;
use std::alloc::Global;

/// Reads the lookup tables of entries of type `T` at one file offset of two files.
///
/// The footprint of the read has the entries up to and including the one whose number is 0, as far
/// as they lie in the file. For each entry before that one that imports by name, it also has the
/// hint at its address and the text after the hint.
///
/// # Errors
/// For each file as [`SyntheticImportLookupTableEntry::parse_with_opts`].
pub fn twin_lookup<'a, 'e, T: Bitfield<'a>>(
    alloc: Global,
    a: &'a [u8],
    b: &'a [u8],
    offset: usize,
    sections: &[SectionTable],
    file_alignment: u32,
    opts: &ParseOptions,
) -> (
    ResultOf<'e, ImportLookupTable<'a>>,
    ResultOf<'e, ImportLookupTable<'a>>,
)
    ensures { let m = map_by opts.now sections.now file_alignment in
        TwinsOrMemory (map entry_model)
        (lookup_table (reads_strictly m) T.format m.addressing offset) a.now b.now result }
{
    let first = SyntheticImportLookupTableEntry::parse_with_opts::<T>(
        alloc,
        a,
        offset,
        sections,
        file_alignment,
        opts,
    );
    let second = SyntheticImportLookupTableEntry::parse_with_opts::<T>(
        alloc,
        b,
        offset,
        sections,
        file_alignment,
        opts,
    );
    (first, second)
}

/// Reads the import data of one directory, whose tables have entries of type `T`, in two files.
///
/// The footprint of the read has the import descriptors up to and including the one that ends the
/// directory, as far as they lie in the file. For each descriptor before that one, it also has the
/// text of the library's name, the footprint of its lookup table, and the entries of its address
/// table up to and including the one whose number is 0.
/// [`footprint_imports`](crate::laws::footprint_imports) lists it. The footprint is empty if the
/// directory's address has no file offset, and in permissive mode also if that offset is 0.
///
/// # Errors
/// For each file as [`ImportData::parse_with_opts`].
#[tactic(auto, using(goblin_base::proofs::Readings::twins_or_memory))]
pub fn twin_imports<'a, 'e, T: Bitfield<'a>>(
    alloc: Global,
    a: &'a [u8],
    b: &'a [u8],
    directory: DataDirectory,
    sections: &[SectionTable],
    file_alignment: u32,
    opts: &ParseOptions,
) -> (ResultOf<'e, ImportData<'a>>, ResultOf<'e, ImportData<'a>>)
    ensures { let m = map_by opts.now sections.now file_alignment in
        let rva = directory.virtual_address in
        TwinsOrMemory (λ x. x)
        (import_data (reads_strictly m) T.format m.addressing rva) a.now b.now result }
{
    let first = ImportData::parse_with_opts::<T>(
        alloc,
        a,
        directory,
        sections,
        file_alignment,
        opts,
    );
    let second = ImportData::parse_with_opts::<T>(
        alloc,
        b,
        directory,
        sections,
        file_alignment,
        opts,
    );
    (first, second)
}
