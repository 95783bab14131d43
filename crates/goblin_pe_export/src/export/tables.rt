//! The export directory's record, and the three tables that it leads to.

ghost use Rattle.std.specs.Prelude.{◌≡◌, ◌<◌, ◌-◌, ◌/◌, length, min};
ghost use Rattle.goblin_base.specs.{Parts.bytes_in, Reading.Reads, Record.WritesRecord};
ghost use Rattle.goblin_pe_export.specs.ExportRecords.{ExportDirectoryTable};
ghost use Rattle.goblin_pe_export.specs.ExportReadings.{export_record_at, fitting};
ghost use Rattle.goblin_pe_export.specs.ExportReadings.{fitting_addresses};
ghost use Rattle.goblin_pe_export.specs.ExportRecords.{address_entry, export_directory_fields};
ghost use Rattle.goblin_pe_export.specs.ExportRecords.{export_directory_record, table_bytes};

use goblin_base::{
    Cause, Endian, Error, Field, MappedBytes, Record, Result, field_u16, field_u32, put_fields,
};
use goblin_pe_sect::DataDirectory;
use goblin_pe_sect::table::Table;
use goblin_pe_sect::utils::is_in_range;

/// The size of an export directory's record, in bytes.
pub const SIZEOF_EXPORT_DIRECTORY_TABLE: usize = 40;

const _: () = prove!(SIZEOF_EXPORT_DIRECTORY_TABLE == 40);

/// The size of an entry of the export address table, in bytes.
pub const SIZEOF_EXPORT_ADDRESS_TABLE_ENTRY: usize = 4;

const _: () = prove!(SIZEOF_EXPORT_ADDRESS_TABLE_ENTRY == 4);

// The sizes of a name pointer and of an ordinal, in bytes.
pub(crate) const SIZEOF_NAME_POINTER: usize = 4;

pub(crate) const SIZEOF_ORDINAL: usize = 2;

/// The record with which the exports of an image begin.
///
/// Source: PE Format, "Export Directory Table". Numbers are as stored; the record has 40 bytes, and
/// `at` gives a field's offset in it. An RVA is an address relative to the image's base.
#[repr(C)]
#[derive(Debug, PartialEq, Copy, Clone, Default)]
pub struct ExportDirectoryTable {
    /// Reserved, 0, at 0.
    pub export_flags: u32,
    /// When the exports were made, in seconds since the start of 1970, at 4.
    pub time_date_stamp: u32,
    /// The major version, at 8. The maker of the image chooses it.
    pub major_version: u16,
    /// The minor version, at 10.
    pub minor_version: u16,
    /// The RVA of the library's name, at 12.
    pub name_rva: u32,
    /// The ordinal of the first entry of the address table, at 16; mostly 1. An ordinal is an index
    /// in the address table plus this base. The entries of the ordinal table do not include the
    /// base.
    pub ordinal_base: u32,
    /// How many entries the address table has, at 20.
    pub address_table_entries: u32,
    /// How many entries the name pointer table and the ordinal table each have, at 24.
    pub number_of_name_pointers: u32,
    /// The RVA of the address table, at 28.
    pub export_address_table_rva: u32,
    /// The RVA of the name pointer table, at 32.
    pub name_pointer_rva: u32,
    /// The RVA of the ordinal table, at 36.
    pub ordinal_table_rva: u32,
}

impl Record for ExportDirectoryTable {
    ghost width = { 40 };

    ghost value = { export_directory_record };

    ghost fields = { export_directory_fields };

    fn size() -> usize {
        SIZEOF_EXPORT_DIRECTORY_TABLE
    }

    fn in_record(bytes: &[u8], endian: Endian) -> ExportDirectoryTable {
        ExportDirectoryTable {
            export_flags: field_u32(bytes, 0, endian),
            time_date_stamp: field_u32(bytes, 4, endian),
            major_version: field_u16(bytes, 8, endian),
            minor_version: field_u16(bytes, 10, endian),
            name_rva: field_u32(bytes, 12, endian),
            ordinal_base: field_u32(bytes, 16, endian),
            address_table_entries: field_u32(bytes, 20, endian),
            number_of_name_pointers: field_u32(bytes, 24, endian),
            export_address_table_rva: field_u32(bytes, 28, endian),
            name_pointer_rva: field_u32(bytes, 32, endian),
            ordinal_table_rva: field_u32(bytes, 36, endian),
        }
    }

    #[tactic(auto, using(crate::proofs::ExportDirectoryRoundTrip::round_trip))]
    fn put(self, bytes: &mut [u8], endian: Endian) {
        let fields = [
            Field::U32(self.export_flags),
            Field::U32(self.time_date_stamp),
            Field::U16(self.major_version),
            Field::U16(self.minor_version),
            Field::U32(self.name_rva),
            Field::U32(self.ordinal_base),
            Field::U32(self.address_table_entries),
            Field::U32(self.number_of_name_pointers),
            Field::U32(self.export_address_table_rva),
            Field::U32(self.name_pointer_rva),
            Field::U32(self.ordinal_table_rva),
        ];
        put_fields(bytes, SIZEOF_EXPORT_DIRECTORY_TABLE, &fields, endian);
    }
}

impl ExportDirectoryTable {
    /// Reads the record at the file offset `offset`.
    ///
    /// # Errors
    /// [`Error::Malformed`] with [`Cause::ExportTable`] if the 40 bytes run past the end of the
    /// file.
    pub fn parse(bytes: &[u8], offset: usize) -> Result<ExportDirectoryTable>
        ensures { Reads (λ t. t) result (export_record_at offset) bytes.now }
    {
        ExportDirectoryTable::parse_in(MappedBytes::whole(bytes), offset)
    }

    // As `parse`, in what a read at an address sees.
    pub(crate) fn parse_in(part: MappedBytes<'_>, offset: usize) -> Result<ExportDirectoryTable>
        ensures { Reads (λ t. t) result (export_record_at offset) (bytes_in part.entry) }
    {
        match part.array_at::<SIZEOF_EXPORT_DIRECTORY_TABLE>(offset) {
            Ok(record) => Ok(ExportDirectoryTable::in_record(&record, Endian::Little)),
            Err(_) => Err(Error::Malformed(Cause::ExportTable(offset))),
        }
    }

    /// Writes the record to the front of `bytes`, and returns its size, 40. A record that was read
    /// is written back unchanged, and any record reads back from what was written, in the same byte
    /// order.
    ///
    /// # Errors
    /// [`Error::Read`] if there is no room for 40 bytes; `bytes` is then unchanged.
    pub fn try_into_ctx(self, bytes: &mut [u8], endian: Endian) -> Result<usize>
        ensures { WritesRecord 40 export_directory_record export_directory_fields
            endian self result bytes.old bytes.new }
    {
        Record::try_into_ctx(self, bytes, endian)
    }

    /// The size of the record in bytes: 40 in either byte order.
    pub fn size_with(endian: &Endian) -> usize
        ensures { result ≡ 40 }
    {
        <ExportDirectoryTable as Record>::size_with(endian)
    }
}

/// An entry of the export address table.
///
/// Source: PE Format, "Export Address Table".
#[derive(Debug, PartialEq, Copy, Clone)]
pub enum ExportAddressTableEntry {
    /// The RVA of an export in this image. 0 means that the ordinal is not used.
    ExportRVA(u32),
    /// The RVA of a forwarder's text, which lies in the export directory.
    ForwarderRVA(u32),
}

/// The exports' addresses. The ordinal of an export is its index here plus the ordinal base.
///
/// Source: PE Format, "Export Address Table".
pub type ExportAddressTable = Table<ExportAddressTableEntry>;

/// The RVAs of the exports' names.
///
/// Source: PE Format, "Export Name Pointer Table".
pub type ExportNamePointerTable = Table<u32>;

/// For each name pointer, the index of the export's address in the address table.
///
/// Source: PE Format, "Export Ordinal Table".
pub type ExportOrdinalTable = Table<u16>;

impl ExportAddressTableEntry {
    // The entry for an address: a forwarder if the address lies in the export directory, else an
    // export.
    #[tactic(auto, unfolding(crate::specs::ExportRecords::address_entry))]
    pub(crate) fn of_rva(directory: DataDirectory, rva: u32) -> ExportAddressTableEntry
        ensures { result ≡ address_entry directory rva }
    {
        let begin = directory.virtual_address as usize;
        let end = begin + directory.size as usize;
        if is_in_range(rva as usize, begin, end) {
            ExportAddressTableEntry::ForwarderRVA(rva)
        } else {
            ExportAddressTableEntry::ExportRVA(rva)
        }
    }
}

// The bytes of a table of `count` entries of `width` bytes, up to the first incomplete entry.
// Without an offset there are none.
#[tactic(auto, using(crate::proofs::WholeEntries::entries_inside))]
pub(crate) fn whole_entries(
    part: MappedBytes<'_>,
    offset: Option<usize>,
    width: usize,
    count: u32,
) -> MappedBytes<'_>
    requires { 0 < width }
    ensures { bytes_in result ≡ table_bytes width count (bytes_in part.entry) offset }
{
    let Some(begin) = offset else {
        return part.range(0, 0);
    };
    let whole = room(part.len(), begin, width, count);
    if whole == 0 {
        return part.range(0, 0);
    }
    part.range(begin, begin + width * whole)
}

// How many of `count` entries of `width` bytes, from `begin` on, are whole among `size` bytes.
fn room(size: usize, begin: usize, width: usize, count: u32) -> usize
    requires { 0 < width }
    ensures { result ≡ min ((size - begin) / width) count }
{
    if size < begin {
        return 0;
    }
    ((size - begin) / width).min(count as usize)
}

// Refuses a record that counts more addresses than the file has bytes.
pub(crate) fn test_address_count(bytes: &[u8], table: &ExportDirectoryTable) -> Result<()>
    ensures { Reads (λ fits. table.now) result (fitting_addresses table.now) bytes.now }
{
    let addresses = table.address_table_entries as usize;
    if addresses > bytes.len() {
        return Err(Error::BufferTooShort(addresses, "address table entries"));
    }
    Ok(())
}

// Refuses a record that counts more entries than the file has bytes.
pub(crate) fn test_counts(bytes: &[u8], table: &ExportDirectoryTable) -> Result<()>
    ensures { Reads (λ fits. table.now) result (fitting table.now) bytes.now }
{
    let name_pointers = table.number_of_name_pointers as usize;
    if name_pointers > bytes.len() {
        return Err(Error::BufferTooShort(name_pointers, "name pointers"));
    }
    test_address_count(bytes, table)
}
