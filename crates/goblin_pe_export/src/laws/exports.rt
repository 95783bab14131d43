//! The exports of two files.

ghost use Rattle.goblin_base.specs.Reading.{ReadsOrMemory, TwinsOrMemory};
ghost use Rattle.goblin_pe_sect.specs.Addresses.{map_by, map_of};
ghost use Rattle.goblin_pe_export.specs.{ExportReadings.export_read, Exports.export_read_model};

use crate::export::{Export, ExportData};
use goblin_base::Result;
use goblin_pe_sect::address_map::AddressMap;
use goblin_pe_sect::data_directories::DataDirectory;
use goblin_pe_sect::options::ParseOptions;
use goblin_pe_sect::section_table::SectionTable;
use std::alloc::Global;

/// The export data of a directory, and the exports that it lists.
pub type ExportRead<'a> = (ExportData<'a>, Vec<Export<'a>>);

/// The export data of a directory, and the exports that it lists.
///
/// # Errors
/// As [`ExportData::parse_by`] and [`Export::parse_by`].
#[tactic(auto, unfolding(crate::specs::ExportReadings::export_read, crate::specs::ExportReadings::exports, crate::specs::ExportReadings::numbered_read, crate::specs::ExportReadings::numbered_rows))]
pub fn read_exports_by<'a>(
    alloc: Global,
    bytes: &'a [u8],
    directory: DataDirectory,
    address_map: &AddressMap,
) -> Result<ExportRead<'a>>
    ensures { let m = map_of address_map.now in
        ReadsOrMemory export_read_model result (export_read m.addressing directory) bytes.now }
{
    let tables = ExportData::parse_by(alloc, bytes, directory, address_map)?;
    let exports = Export::parse_by(alloc, bytes, &tables, address_map)?;
    Ok((tables, exports))
}

/// The export data of a directory, and the exports that it lists.
///
/// # Errors
/// As [`ExportData::parse_with_opts`] and [`Export::parse_with_opts`].
pub fn read_exports<'a>(
    alloc: Global,
    bytes: &'a [u8],
    directory: DataDirectory,
    sections: &[SectionTable],
    file_alignment: u32,
    opts: &ParseOptions,
) -> Result<ExportRead<'a>>
    ensures { let m = map_by opts.now sections.now file_alignment in
        ReadsOrMemory export_read_model result (export_read m.addressing directory) bytes.now }
{
    let address_map = AddressMap::prepare(alloc, sections, file_alignment, opts)?;
    read_exports_by(alloc, bytes, directory, &address_map)
}

/// The export data of one directory, with the exports that it lists, in two files.
///
/// The footprint of the read has three parts:
///
/// - the record at the directory's RVA;
/// - if its counts fit the file, the text of the library's name, and each entry of the three tables
///   that is read;
/// - for each name pointer with an ordinal and an address, the text of its name, and that of its
///   forwarder if the export is one.
///
/// # Errors
/// For each file as [`ExportData::parse_with_opts`] and [`Export::parse_with_opts`].
#[tactic(auto, using(goblin_base::proofs::Readings::twins_or_memory))]
pub fn twin_exports<'a>(
    alloc: Global,
    a: &'a [u8],
    b: &'a [u8],
    directory: DataDirectory,
    sections: &[SectionTable],
    file_alignment: u32,
    opts: &ParseOptions,
) -> (Result<ExportRead<'a>>, Result<ExportRead<'a>>)
    ensures { let m = map_by opts.now sections.now file_alignment in
        TwinsOrMemory export_read_model (export_read m.addressing directory) a.now b.now result }
{
    let first = read_exports(alloc, a, directory, sections, file_alignment, opts);
    let second = read_exports(alloc, b, directory, sections, file_alignment, opts);
    (first, second)
}
