//! The readers that map addresses, run with two tables of sections.

ghost use Rattle.goblin_pe_sect.specs.WindowOrder.{IsReordering};
ghost use Rattle.goblin_pe_sect.specs.declared.options.View.TheVariants.{Sections};
ghost use Rattle.goblin_pe_sect.specs.Addresses.{map_by, reads_strictly};
ghost use Rattle.goblin_pe.specs.TableRuns.{AreAlike, AreTables};

use crate::data_directories::DataDirectory;
use crate::import::{Bitfield, ImportData, ImportLookupTable, SyntheticImportLookupTableEntry};
use crate::options::ParseOptions;
use crate::relocation::RelocationData;
use crate::section_table::SectionTable;
use crate::utils::{get_data_with_opts, safe_try_name};
use goblin_base::{ResultOf, TryFromCtx, answer_for};
use goblin_pe_export::laws::{ExportRead, read_exports};
use std::alloc::Global;

/// What the readers of [`Tables`] read.
#[derive(Debug, PartialEq, Copy, Clone)]
pub struct Request {
    /// The file offset of an import lookup table.
    pub lookup: usize,
    /// The import directory.
    pub imports: DataDirectory,
    /// The export directory.
    pub exports: DataDirectory,
    /// The directory of the base relocations.
    pub relocations: DataDirectory,
    /// The data directory at whose address a value lies.
    pub value: DataDirectory,
    /// The address of a name.
    pub name: usize,
}

/// The answers of the six readers that map addresses by a table of sections, with errors whose
/// texts live for `'e`. Use it under its name [`Tables`].
#[derive(Debug, Drop)]
pub struct TablesOf<'a, 'e, D> {
    /// The import lookup table at an offset.
    pub lookup: ResultOf<'e, ImportLookupTable<'a>>,
    /// The imports of a directory.
    pub imports: ResultOf<'e, ImportData<'a>>,
    /// The export data of a directory, and the exports that it lists.
    pub exports: ResultOf<'e, ExportRead<'a>>,
    /// The base relocations of a directory.
    pub relocations: ResultOf<'e, RelocationData<'a>>,
    /// The name at an address, as [`safe_try_name`] returns it.
    pub name: ResultOf<'e, Option<&'a str>>,
    /// The value at the address of a directory.
    pub value: ResultOf<'e, D>,
}

/// The answers of the six readers that map addresses by a table of sections.
pub type Tables<'a, D> = TablesOf<'a, 'static, D>;

// The answers of the six readers. A refusal of one is returned in its place, and the others still
// run.
pub(super) fn read_tables<'a, 'e, T: Bitfield<'a>, D: TryFromCtx<'a>>(
    alloc: Global,
    bytes: &'a [u8],
    sections: &[SectionTable],
    request: &Request,
    file_alignment: u32,
    opts: &ParseOptions,
) -> TablesOf<'a, 'e, D>
    ensures { let m = map_by opts.now sections.now file_alignment in
        AreTables T.format D.model D.value_of D.refusal (reads_strictly m) m.addressing bytes.now
        request.now result }
{
    let lookup = SyntheticImportLookupTableEntry::parse_with_opts::<T>(
        alloc,
        bytes,
        request.lookup,
        sections,
        file_alignment,
        opts,
    );
    let imports = ImportData::parse_with_opts::<T>(
        alloc,
        bytes,
        request.imports,
        sections,
        file_alignment,
        opts,
    );
    TablesOf {
        lookup,
        imports,
        exports: read_exports(
            alloc,
            bytes,
            request.exports,
            sections,
            file_alignment,
            opts,
        ),
        relocations: answer_for(RelocationData::parse_with_opts(
            bytes,
            request.relocations,
            sections,
            file_alignment,
            opts,
        )),
        name: answer_for(safe_try_name(bytes, request.name, sections, file_alignment, opts)),
        value: get_data_with_opts(bytes, sections, request.value, file_alignment, opts),
    }
}

/// Runs the readers of [`Tables`] with two tables of sections. A refusal of one reader, even
/// `Error::Memory`, is returned in its place, and the others still run.
///
/// Each answer is its reader's own. If the second table is the first in another order, and the
/// windows of any two sections are disjoint, both answers of a reader are equal or both are
/// refusals, unless one is `Error::Memory`.
pub fn reorder_whole_tables<'a, 'e, T: Bitfield<'a>, D: TryFromCtx<'a>>(
    alloc: Global,
    bytes: &'a [u8],
    first: &[SectionTable],
    second: &[SectionTable],
    request: &Request,
    file_alignment: u32,
    opts: &ParseOptions,
) -> (TablesOf<'a, 'e, D>, TablesOf<'a, 'e, D>)
    ensures first { let m = map_by opts.now first.now file_alignment in
        AreTables T.format D.model D.value_of D.refusal (reads_strictly m) m.addressing bytes.now
        request.now result.0 }
    ensures second { let m = map_by opts.now second.now file_alignment in
        AreTables T.format D.model D.value_of D.refusal (reads_strictly m) m.addressing bytes.now
        request.now result.1 }
    ensures alike { IsReordering Sections file_alignment first.now second.now
        → AreAlike D.model result.0 result.1 }
{
    let one = read_tables::<T, D>(alloc, bytes, first, request, file_alignment, opts);
    let other = read_tables::<T, D>(alloc, bytes, second, request, file_alignment, opts);
    (one, other)
}
