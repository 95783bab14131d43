//! Import descriptors, the records of an import directory.

ghost use Rattle.std.specs.Prelude.{◌≡◌, ◌==◌, ◌&&◌, not};
ghost use Rattle.goblin_base.specs.Record.{WritesRecord};
ghost use Rattle.goblin_pe_import.specs.ImportRecords.{import_fields, import_record};
ghost use Rattle.goblin_pe_import.specs.ImportRecords.{is_last_record, ImportDirectoryEntry};

use goblin_base::{Endian, Field, Record, Result, field_u32, put_fields};

/// The size of an import descriptor, in bytes.
pub const SIZEOF_IMPORT_DIRECTORY_ENTRY: usize = 20;

const _: () = prove!(SIZEOF_IMPORT_DIRECTORY_ENTRY == 20);

/// An import descriptor: the record of a library in an import directory. It says where the imports
/// from that library are.
///
/// A descriptor has 20 bytes, and `at` gives a field's offset in it. Numbers are as stored.
/// Addresses are RVAs, relative to the image's base.
///
/// Source: PE Format, "Import Directory Table".
#[repr(C)]
#[derive(Debug, PartialEq, Copy, Clone, Default)]
pub struct ImportDirectoryEntry {
    /// The address of the lookup table, which says what is imported, at 0. If it has no file
    /// offset, the address table is read instead, as images of some old linkers require.
    pub import_lookup_table_rva: u32,
    /// 0 until the imports are bound, at 4. Then it is the time stamp of the library to which they
    /// were bound, or 2^32 - 1 if the table of bound imports has that time stamp.
    pub time_date_stamp: u32,
    /// The index of the first forwarder, at 8.
    pub forwarder_chain: u32,
    /// The address of the library's name, at 12. A descriptor with 0 here ends the directory.
    pub name_rva: u32,
    /// The address of the address table, at 16. That table is a copy of the lookup table, whose
    /// entries the loader replaces with addresses. A descriptor with 0 here ends the directory.
    pub import_address_table_rva: u32,
}

impl Record for ImportDirectoryEntry {
    ghost width = { 20 };

    ghost value = { import_record };

    ghost fields = { import_fields };

    fn size() -> usize {
        SIZEOF_IMPORT_DIRECTORY_ENTRY
    }

    fn in_record(bytes: &[u8], endian: Endian) -> ImportDirectoryEntry {
        ImportDirectoryEntry {
            import_lookup_table_rva: field_u32(bytes, 0, endian),
            time_date_stamp: field_u32(bytes, 4, endian),
            forwarder_chain: field_u32(bytes, 8, endian),
            name_rva: field_u32(bytes, 12, endian),
            import_address_table_rva: field_u32(bytes, 16, endian),
        }
    }

    #[tactic(auto, using(crate::proofs::ImportDirectoryRoundTrip::round_trip))]
    fn put(self, bytes: &mut [u8], endian: Endian) {
        let fields = [
            Field::U32(self.import_lookup_table_rva),
            Field::U32(self.time_date_stamp),
            Field::U32(self.forwarder_chain),
            Field::U32(self.name_rva),
            Field::U32(self.import_address_table_rva),
        ];
        put_fields(bytes, SIZEOF_IMPORT_DIRECTORY_ENTRY, &fields, endian);
    }
}

impl ImportDirectoryEntry {
    /// Whether all five fields are 0, as the format requires of the descriptor that ends a
    /// directory. Readers stop earlier: see [`ImportDirectoryEntry::is_possibly_valid`].
    pub fn is_null(&self) -> bool
        ensures { let r = self.now in
            result
            ≡ (r.import_lookup_table_rva == 0 && r.time_date_stamp == 0
            && r.forwarder_chain == 0 && r.name_rva == 0
            && r.import_address_table_rva == 0) }
    {
        self.import_lookup_table_rva == 0
            && self.time_date_stamp == 0
            && self.forwarder_chain == 0
            && self.name_rva == 0
            && self.import_address_table_rva == 0
    }

    /// Whether the addresses of the name and of the address table are both other than 0. A
    /// directory ends at the first descriptor in which one of them is 0, as it does for the loader.
    pub fn is_possibly_valid(&self) -> bool
        ensures { result ≡ not (is_last_record self.now) }
    {
        self.name_rva != 0 && self.import_address_table_rva != 0
    }

    /// Writes the descriptor to the front of `bytes`, and returns its size, 20. A descriptor that
    /// was read is written back unchanged, and any descriptor reads back from what was written, in
    /// the same byte order.
    ///
    /// # Errors
    /// [`Error::Read`](goblin_base::Error::Read) if there is no room for 20 bytes. `bytes` is then
    /// unchanged.
    pub fn try_into_ctx(self, bytes: &mut [u8], endian: Endian) -> Result<usize>
        ensures { WritesRecord 20 import_record import_fields
            endian self result bytes.old bytes.new }
    {
        Record::try_into_ctx(self, bytes, endian)
    }

    /// The size of a descriptor in bytes: 20 in either byte order.
    pub fn size_with(endian: &Endian) -> usize
        ensures { result ≡ 20 }
    {
        <ImportDirectoryEntry as Record>::size_with(endian)
    }
}
