//! The exports of an image: what its export directory leads to, and the forwarders among them.
//!
//! Source: PE Format, "The .edata Section (Image Only)". The export directory's record leads to
//! three tables. A name pointer, with the entry at the same index of the ordinal table, is a named
//! export. That entry is the index of the export's address in the address table. An address inside
//! the directory is that of a forwarder's text.

ghost use Rattle.std.specs.Prelude.{◌≡◌, IsOk, MatchOption, None, Option, Some, length};
ghost use Rattle.std.specs.Prelude.{option_and_then, option_map};
ghost use Rattle.goblin_base.specs.{Answers.GivesOrMemory, Parts.bytes_in, Reading.ReadsOrMemory};
ghost use Rattle.goblin_pe_sect.specs.Options.{default_options};
ghost use Rattle.goblin_pe_sect.specs.Addresses.{map_by, map_of};
ghost use Rattle.goblin_pe_export.specs.ExportReadings as reading;
ghost use Rattle.goblin_pe_export.specs.{ExportRecords.numbered_by, ExportReadings.numbered_export};
ghost use Rattle.goblin_pe_export.specs.Exports.{export_row, exports, rva_of};
ghost use Rattle.goblin_pe_export.specs.Forwarders.{forwarder_value, forwarder_within};
ghost use Rattle.readings.specs.Reads.{text_within};

use goblin_base::room::make_room;
use goblin_base::{MappedBytes, Result};
use goblin_pe_sect::address_map::{AddressMap, Finder};
use goblin_pe_sect::{DataDirectory, ParseOptions, SectionTable};
use std::alloc::Global;
use std::marker::Model;

pub(crate) mod entries;
mod forwarder;
pub(crate) mod tables;

pub(crate) use entries::{Entries, TablesInFile};
pub use forwarder::Reexport;
pub(crate) use tables::test_counts;
pub use tables::{
    ExportAddressTable, ExportAddressTableEntry, ExportDirectoryTable, ExportNamePointerTable,
    ExportOrdinalTable, SIZEOF_EXPORT_ADDRESS_TABLE_ENTRY, SIZEOF_EXPORT_DIRECTORY_TABLE,
};

// The text at an offset, cut at a limit if there is one. `None` if there is no offset, or no text
// there.
#[inline(always)]
pub(crate) fn text_within<'a>(
    part: MappedBytes<'a>,
    offset: Option<usize>,
    longest: Option<u32>,
) -> Option<&'a str>
    ensures { option_map (λ s. s.now) result
        ≡ option_and_then (λ p. (text_within longest p).value (bytes_in part.entry)) offset }
{
    part.text_within(offset?, longest).ok()
}

// The forwarder at an offset, its text cut at a limit if there is one. `None` if there is no
// offset, or no forwarder there.
#[inline(always)]
fn forwarder_within(
    part: MappedBytes<'_>,
    offset: Option<usize>,
    longest: Option<u32>,
) -> Option<Reexport<'_>>
    ensures { option_map forwarder_value result
        ≡ option_and_then (λ p. (forwarder_within longest p).value (bytes_in part.entry)) offset }
{
    Reexport::parse_in(part, offset?, longest).ok()
}

// The forwarder at an offset, in the form that `reexport_of` returns. This is not inlined, so a
// loop over exports clears no room for a forwarder, since few exports are forwarders.
#[inline(never)]
fn forwarded_at(
    part: MappedBytes<'_>,
    offset: Option<usize>,
    longest: Option<u32>,
) -> Option<Option<Reexport<'_>>>
    ensures { let bytes = bytes_in part.entry in
        option_map (option_map forwarder_value) result
        ≡ option_map (λ f. Some f)
        (option_and_then (λ p. (forwarder_within longest p).value bytes) offset) }
{
    let forwarder = forwarder_within(part, offset, longest)?;
    Some(Some(forwarder))
}

// The RVA in an entry of the address table.
fn rva_of(address: ExportAddressTableEntry) -> u32
    ensures { result ≡ rva_of address }
{
    match address {
        ExportAddressTableEntry::ExportRVA(rva) | ExportAddressTableEntry::ForwarderRVA(rva) => rva,
    }
}

// What an entry of the address table refers to in another library. The result is `Some(None)` if
// the entry is not a forwarder, and `None` if it is one that cannot be read.
fn reexport_of<'a>(
    bytes: &'a [u8],
    address: ExportAddressTableEntry,
    finder: &mut Finder<'_>,
) -> Option<Option<Reexport<'a>>>
    ensures value { let m = map_of finder.old in
        option_map (option_map forwarder_value) result
        ≡ (reading.reexport_of m.addressing address).value bytes.now }
    ensures same { finder.new ≡ finder.old }
{
    match address {
        ExportAddressTableEntry::ExportRVA(_) => Some(None),
        ExportAddressTableEntry::ForwarderRVA(rva) => {
            let (part, offset) = finder.part_of(bytes, rva);
            forwarded_at(part, offset, finder.longest_name())
        }
    }
}

/// What an export directory leads to: the library's name and the three tables.
///
/// Source: PE Format, "The .edata Section (Image Only)".
#[derive(Debug, Drop)]
pub struct ExportData<'a> {
    /// The library's own name, as the linker stored it, or `None` if there is no text at its
    /// address.
    pub name: Option<&'a str>,
    /// The record itself, as stored in the file.
    pub export_directory_table: ExportDirectoryTable,
    /// The RVAs of the exports' names. The format requires them in the order of the names, because
    /// the loader searches them; no reader here relies on that.
    pub export_name_pointer_table: ExportNamePointerTable,
    /// For each name pointer, the index of the export's address in the address table, without the
    /// ordinal base.
    pub export_ordinal_table: ExportOrdinalTable,
    /// The exports' addresses. The ordinal of an export is its index here plus the ordinal base.
    /// Exports without a name are here, too.
    pub export_address_table: ExportAddressTable,
}

impl<'a> Model for ExportData<'a> {
    ghost use Rattle.std.specs.Prelude.{option_map};
    ghost use Rattle.goblin_pe_export.specs.Exports.{ExportTables};

    ghost Value = { ExportTables };

    ghost view = { λ x. record {
      name = option_map (λ s. s.now) x.name;
      export_directory_table = x.export_directory_table;
      export_name_pointer_table = x.export_name_pointer_table;
      export_ordinal_table = x.export_ordinal_table;
      export_address_table = x.export_address_table;
    } };
}

impl<'a> ExportData<'a> {
    /// Reads the export data of an export directory, as [`ExportData::parse_with_opts`] with the
    /// default options.
    ///
    /// # Errors
    /// As [`ExportData::parse_with_opts`].
    pub fn parse(
        alloc: Global,
        bytes: &'a [u8],
        directory: DataDirectory,
        sections: &[SectionTable],
        file_alignment: u32,
    ) -> Result<ExportData<'a>>
        ensures { let m = map_by default_options sections.now file_alignment in
            ReadsOrMemory (λ x. x) result (reading.export_data m.addressing directory) bytes.now }
    {
        let opts = ParseOptions::default();
        ExportData::parse_with_opts(alloc, bytes, directory, sections, file_alignment, &opts)
    }

    /// Reads the export data of an export directory: the record at its RVA, and what the record
    /// leads to. A table is empty if its RVA has no file offset, and is cut at the first incomplete
    /// entry. An address is that of a forwarder if it lies in the directory, as given by the
    /// directory's RVA and size. The library's name is `None` if it can't be read. Both modes give
    /// the same answer.
    ///
    /// # Errors
    /// [`Error::Malformed`] with [`Cause::Unmapped`] if the directory's RVA has no file offset, or
    /// with [`Cause::ExportTable`] if the record there runs past the end of the file;
    /// [`Error::BufferTooShort`] if the record counts more name pointers, or else more addresses,
    /// than the file has bytes; [`Error::Memory`] if memory is refused.
    pub fn parse_with_opts(
        alloc: Global,
        bytes: &'a [u8],
        directory: DataDirectory,
        sections: &[SectionTable],
        file_alignment: u32,
        opts: &ParseOptions,
    ) -> Result<ExportData<'a>>
        ensures { let m = map_by opts.now sections.now file_alignment in
            ReadsOrMemory (λ x. x) result (reading.export_data m.addressing directory) bytes.now }
    {
        let address_map = AddressMap::prepare(alloc, sections, file_alignment, opts)?;
        ExportData::parse_by(alloc, bytes, directory, &address_map)
    }

    /// Reads the export data as [`ExportData::parse_with_opts`], with an address map that is
    /// already prepared.
    ///
    /// # Errors
    /// As [`ExportData::parse_with_opts`].
    pub fn parse_by(
        alloc: Global,
        bytes: &'a [u8],
        directory: DataDirectory,
        address_map: &AddressMap,
    ) -> Result<ExportData<'a>>
        ensures { let m = map_of address_map.now in
            ReadsOrMemory (λ x. x) result (reading.export_data m.addressing directory) bytes.now }
    {
        let mut finder = Finder::of(address_map);
        let tables = TablesInFile::find(bytes, directory, &mut finder)?;
        Ok(ExportData {
            name: tables.name,
            export_directory_table: tables.export_directory_table,
            export_name_pointer_table: tables.name_pointers(alloc)?,
            export_ordinal_table: tables.ordinals(alloc)?,
            export_address_table: tables.addresses(alloc)?,
        })
    }
}

/// An export that has a name pointer. Exports without one, which can only be imported by ordinal,
/// are in the address table of [`ExportData`].
///
/// Source: PE Format, "The .edata Section (Image Only)".
#[derive(Debug, Default, Drop)]
pub struct Export<'a> {
    /// The export's name; `None` if there is no text at its address.
    pub name: Option<&'a str>,
    /// The file offset of `rva`. It is `rva` itself if the options say that addresses are offsets.
    /// Else it is as [`find_offset`](goblin_pe_sect::utils::find_offset) returns it: `None` if no
    /// section maps `rva` or the file alignment is not a power of two. An address map may also have
    /// the front of the file. That maps an `rva` that no section maps, but an `rva` of 0 then has
    /// no offset.
    pub offset: Option<usize>,
    /// The export's RVA; for a forwarder, the RVA of its text.
    pub rva: usize,
    /// The size of the export in bytes. It is 0, because the tables don't give it.
    pub size: usize,
    /// What a forwarder refers to in another library, which the loader then loads; `None` if the
    /// export is not a forwarder.
    pub reexport: Option<Reexport<'a>>,
}

impl<'a> Model for Export<'a> {
    ghost use Rattle.std.specs.Prelude.{option_map};
    ghost use Rattle.goblin_pe_export.specs.Exports.{ExportRow};
    ghost use Rattle.goblin_pe_export.specs.Forwarders.{forwarder_value};

    ghost Value = { ExportRow };

    ghost view = { λ x. record {
      name = option_map (λ s. s.now) x.name;
      offset = x.offset;
      rva = x.rva;
      size = x.size;
      reexport = option_map forwarder_value x.reexport;
    } };
}

// For this many name pointers or fewer, room is made without looking at what they lead to.
const FEW: usize = 32;

// For how many exports to make room first. If there are few name pointers, it is their number. Else
// it is the number of exports that are not forwarders, because all of these will be in the list,
// but at least `FEW`.
fn expected_count(tables: &ExportData) -> usize {
    let pointers = tables.pointers();
    if pointers <= FEW {
        return pointers;
    }
    let mut count: usize = 0;
    'pointers: for index in 0..pointers {
        if let Some(ordinal) = tables.ordinal(index) {
            let address = tables.address(usize::from(ordinal));
            if let Some(ExportAddressTableEntry::ExportRVA(_)) = address {
                count = count.saturating_add(1);
            }
        }
    }
    FEW.max(count)
}

impl<'a> Export<'a> {
    // The export of a name pointer and an entry of the address table. `None` if the entry is a
    // forwarder that cannot be read.
    #[inline(always)]
    #[tactic(auto, unfolding(crate::specs::ExportReadings::row_of, goblin_pe_sect::specs::AddressReadings::name_at))]
    fn of_address(
        bytes: &'a [u8],
        pointer: u32,
        address: ExportAddressTableEntry,
        finder: &mut Finder<'_>,
    ) -> Option<Export<'a>>
        ensures value { let m = map_of finder.old in
            result ≡ (reading.row_of m.addressing pointer address).value bytes.now }
        ensures same { finder.new ≡ finder.old }
    {
        let rva = rva_of(address);
        let offset = finder.offset_of(rva);
        let (part, place) = finder.part_of_name(bytes, pointer);
        let name = text_within(part, place, finder.longest_name());
        let reexport = reexport_of(bytes, address, finder)?;
        Some(Export {
            name,
            offset,
            rva: rva as usize,
            size: 0,
            reexport,
        })
    }

    // The export of the name pointer at an index, after that pointer and its entry of the ordinal
    // table. `None` if there is no name pointer, if it has no ordinal, if the ordinal has no
    // address, or if the export is a forwarder that cannot be read.
    #[inline(always)]
    #[tactic(auto, unfolding(crate::specs::ExportReadings::export_row, crate::specs::ExportReadings::numbered_row))]
    pub(crate) fn of_pointer<T: Entries>(
        bytes: &'a [u8],
        tables: &T,
        index: usize,
        finder: &mut Finder<'_>,
    ) -> Option<((u32, u16), Export<'a>)>
        ensures value { let m = map_of finder.old in
            let t = T.entries tables.now in
            let export = numbered_export m.addressing bytes.now t index in
            MatchOption result (export ≡ None)
            (λ x. export ≡ Some (numbered_by t index x.0.0 x.0.1 x.1)) }
        ensures row { let m = map_of finder.old in
            let row = export_row m.addressing bytes.now (T.entries tables.now) index in
            MatchOption result (row ≡ None) (λ x. row ≡ Some x.1) }
        ensures same { finder.new ≡ finder.old }
    {
        let pointer = tables.pointer(index)?;
        let ordinal = tables.ordinal(index)?;
        let address = tables.address(usize::from(ordinal))?;
        let export = Export::of_address(bytes, pointer, address, finder)?;
        Some(((pointer, ordinal), export))
    }

    /// The exports that export data lists, as [`Export::parse_with_opts`] reads them with the
    /// default options.
    ///
    /// # Errors
    /// Only [`Error::Memory`].
    pub fn parse(
        alloc: Global,
        bytes: &'a [u8],
        export_data: &ExportData,
        sections: &[SectionTable],
        file_alignment: u32,
    ) -> Result<Vec<Export<'a>>>
        ensures value { let m = map_by default_options sections.now file_alignment in
            GivesOrMemory (λ v. v.items) result (exports m.addressing bytes.now export_data.now) }
        ensures empty { length bytes.now ≡ 0 → IsOk result }
    {
        let opts = ParseOptions::default();
        Export::parse_with_opts(alloc, bytes, export_data, sections, file_alignment, &opts)
    }

    /// The exports that export data lists, one for each name pointer, in their order. A name
    /// pointer gives none if its ordinal is missing, if the ordinal has no address, or if its
    /// forwarder can't be read. An export whose name can't be read is kept without it. An empty
    /// file has no exports. Both modes give the same answer.
    ///
    /// # Errors
    /// Only [`Error::Memory`]. It never comes for an empty file, which takes no memory.
    #[tactic(auto, unfolding(crate::specs::ExportReadings::exports, crate::specs::ExportReadings::numbered_rows))]
    pub fn parse_with_opts(
        alloc: Global,
        bytes: &'a [u8],
        export_data: &ExportData,
        sections: &[SectionTable],
        file_alignment: u32,
        opts: &ParseOptions,
    ) -> Result<Vec<Export<'a>>>
        ensures value { let m = map_by opts.now sections.now file_alignment in
            GivesOrMemory (λ v. v.items) result (exports m.addressing bytes.now export_data.now) }
        ensures empty { length bytes.now ≡ 0 → IsOk result }
    {
        if bytes.is_empty() {
            return Ok(Vec::new(alloc));
        }
        let address_map = AddressMap::prepare(alloc, sections, file_alignment, opts)?;
        Export::parse_by(alloc, bytes, export_data, &address_map)
    }

    /// The exports as [`Export::parse_with_opts`] reads them, with an address map that is already
    /// prepared.
    ///
    /// # Errors
    /// As [`Export::parse_with_opts`].
    #[tactic(auto, unfolding(crate::specs::ExportReadings::exports, crate::specs::ExportReadings::numbered_rows))]
    pub fn parse_by(
        alloc: Global,
        bytes: &'a [u8],
        export_data: &ExportData,
        address_map: &AddressMap,
    ) -> Result<Vec<Export<'a>>>
        ensures value { let m = map_of address_map.now in
            GivesOrMemory (λ v. v.items) result (exports m.addressing bytes.now export_data.now) }
        ensures empty { length bytes.now ≡ 0 → IsOk result }
    {
        let mut rows = Vec::new(alloc);
        if bytes.is_empty() {
            return Ok(rows);
        }
        let expected = expected_count(export_data);
        let mut finder = Finder::of(address_map);
        'rows: for index in 0..export_data.pointers() {
            let export = Export::of_pointer(bytes, export_data, index, &mut finder);
            if let Some((_, export)) = export {
                make_room(&mut rows, expected)?;
                rows.push_reserved(export);
            }
        }
        Ok(rows)
    }
}
