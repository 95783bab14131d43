//! The entries of an export directory's tables, in memory or as bytes of the file.

ghost use Rattle.std.specs.Prelude.{◌≡◌, ◌<◌, ◌*◌, ◌^◌, IfSome, List, Some, length};
ghost use Rattle.std.specs.Prelude.{option_map, slice_get};
ghost use Rattle.goblin_base.specs.{Answers.GivesOrMemory, Bytes.slice_at, Reading.Reads};
ghost use Rattle.goblin_pe_sect.specs.Addresses.{map_of};
ghost use Rattle.goblin_pe_export.specs.ExportReadings as reading;
ghost use Rattle.goblin_pe_export.specs.ExportRecords.{ExportTables, tables_in};

use crate::export::tables::{
    ExportAddressTable, ExportAddressTableEntry, ExportDirectoryTable, ExportNamePointerTable,
    ExportOrdinalTable, SIZEOF_EXPORT_ADDRESS_TABLE_ENTRY, SIZEOF_NAME_POINTER, SIZEOF_ORDINAL,
    test_counts, whole_entries,
};
use crate::export::{ExportData, text_within};
use goblin_base::{Cause, Endian, Error, MappedBytes, Result, ResultOf, field_u16, field_u32};
use goblin_pe_sect::DataDirectory;
use goblin_pe_sect::address_map::Finder;
use goblin_pe_sect::table::Table;
use std::alloc::Global;

// The entries of the tables that an export directory leads to.
pub(crate) trait Entries {
    // All of them.
    ghost entries: { Self → ExportTables };

    // How many name pointers there are.
    fn pointers(&self) -> usize
        ensures { result ≡ length (entries self.now).export_name_pointer_table };

    // The name pointer at an index, if there is one.
    fn pointer(&self, index: usize) -> Option<u32>
        ensures { result ≡ slice_get (entries self.now).export_name_pointer_table index };

    // The ordinal at an index, if there is one.
    fn ordinal(&self, index: usize) -> Option<u16>
        ensures { result ≡ slice_get (entries self.now).export_ordinal_table index };

    // The entry of the address table at an index, if there is one.
    fn address(&self, index: usize) -> Option<ExportAddressTableEntry>
        ensures { result ≡ slice_get (entries self.now).export_address_table index };
}

impl<'a> Entries for ExportData<'a> {
    ghost entries = { λ tables. tables };

    fn pointers(&self) -> usize {
        self.export_name_pointer_table.len()
    }

    fn pointer(&self, index: usize) -> Option<u32> {
        Some(*self.export_name_pointer_table.as_slice().get(index)?)
    }

    fn ordinal(&self, index: usize) -> Option<u16> {
        Some(*self.export_ordinal_table.as_slice().get(index)?)
    }

    fn address(&self, index: usize) -> Option<ExportAddressTableEntry> {
        Some(*self.export_address_table.as_slice().get(index)?)
    }
}

// What an export directory leads to, with each table as the bytes of its entries.
#[derive(Copy, Clone)]
pub(crate) struct TablesInFile<'a> {
    // The library's own name, if there is a text at its address.
    pub(crate) name: Option<&'a str>,
    pub(crate) export_directory_table: ExportDirectoryTable,
    pub(crate) directory: DataDirectory,
    pub(crate) name_pointers: MappedBytes<'a>,
    pub(crate) ordinals: MappedBytes<'a>,
    pub(crate) addresses: MappedBytes<'a>,
}

impl<'a> TablesInFile<'a> {
    // The tables that a record leads to.
    #[inline(always)]
    #[tactic(auto, unfolding(crate::specs::ExportReadings::export_tables, goblin_pe_sect::specs::AddressReadings::name_at), using(crate::proofs::WholeEntries::counted_is, crate::proofs::WholeEntries::entry_count))]
    pub(crate) fn of_record(
        bytes: &'a [u8],
        table: ExportDirectoryTable,
        directory: DataDirectory,
        finder: &mut Finder<'_>,
    ) -> TablesInFile<'a>
        ensures value { let m = map_of finder.old in
            let tables = reading.export_tables m.addressing directory table in
            tables.value bytes.now ≡ Some (tables_in result) }
        ensures same { finder.new ≡ finder.old }
    {
        let names = table.number_of_name_pointers;
        let (pointers_in, pointers) = finder.part_of(bytes, table.name_pointer_rva);
        let (ordinals_in, ordinals) = finder.part_of(bytes, table.ordinal_table_rva);
        let (addresses_in, addresses) = finder.part_of(bytes, table.export_address_table_rva);
        let (name_in, name) = finder.part_of_name(bytes, table.name_rva);
        TablesInFile {
            name: text_within(name_in, name, finder.longest_name()),
            export_directory_table: table,
            directory,
            name_pointers: whole_entries(pointers_in, pointers, SIZEOF_NAME_POINTER, names),
            ordinals: whole_entries(ordinals_in, ordinals, SIZEOF_ORDINAL, names),
            addresses: whole_entries(
                addresses_in,
                addresses,
                SIZEOF_EXPORT_ADDRESS_TABLE_ENTRY,
                table.address_table_entries,
            ),
        }
    }

    // The tables that the record at the directory's RVA leads to. A record whose counts do not fit
    // the file is refused.
    #[inline(always)]
    #[tactic(auto, unfolding(crate::specs::ExportReadings::export_data))]
    pub(crate) fn find(
        bytes: &'a [u8],
        directory: DataDirectory,
        finder: &mut Finder<'_>,
    ) -> Result<TablesInFile<'a>>
        ensures value { let m = map_of finder.old in
            Reads tables_in result (reading.export_data m.addressing directory) bytes.now }
        ensures same { finder.new ≡ finder.old }
    {
        let (part, offset) = finder.part_of(bytes, directory.virtual_address);
        let Some(offset) = offset else {
            let rva = directory.virtual_address as usize;
            return Err(Error::Malformed(Cause::Unmapped(rva)));
        };
        let table = ExportDirectoryTable::parse_in(part, offset)?;
        test_counts(bytes, &table)?;
        Ok(TablesInFile::of_record(bytes, table, directory, finder))
    }

    // The name pointers, copied into memory.
    pub(crate) fn name_pointers(&self, alloc: Global) -> Result<ExportNamePointerTable>
        ensures { let entries = (tables_in self.now).export_name_pointer_table in
            GivesOrMemory (λ t. t) result entries }
    {
        table_of(alloc, self.pointers(), |index| self.pointer(index))
    }

    // The ordinals, copied into memory.
    #[tactic(auto, using(crate::proofs::WholeEntries::entry_count))]
    pub(crate) fn ordinals(&self, alloc: Global) -> Result<ExportOrdinalTable>
        ensures { let entries = (tables_in self.now).export_ordinal_table in
            GivesOrMemory (λ t. t) result entries }
    {
        let count = self.ordinals.len() / SIZEOF_ORDINAL;
        table_of(alloc, count, |index| self.ordinal(index))
    }

    // How many addresses there are.
    #[tactic(auto, using(crate::proofs::WholeEntries::entry_count))]
    pub(crate) fn address_count(&self) -> usize
        ensures value { result ≡ length (tables_in self.now).export_address_table }
        ensures few { result < 2 ^ 62 }
    {
        self.addresses.len() / SIZEOF_EXPORT_ADDRESS_TABLE_ENTRY
    }

    // The addresses, copied into memory.
    pub(crate) fn addresses(&self, alloc: Global) -> Result<ExportAddressTable>
        ensures { let entries = (tables_in self.now).export_address_table in
            GivesOrMemory (λ t. t) result entries }
    {
        table_of(alloc, self.address_count(), |index| self.address(index))
    }
}

// The `count` entries of a table.
fn entries_of<'e, V: Drop, F: Fn(usize) -> Option<V>>(
    alloc: Global,
    count: usize,
    entry: F,
) -> ResultOf<'e, Vec<V>>
    requires { (index : _) → F.pre entry index }
    ensures { (entries : List V) → length entries ≡ count
        → ((index : _) (found : _) → F.post entry index found
        → found ≡ slice_get entries index)
        → GivesOrMemory (λ v. v.items) result entries }
{
    let mut entries = Vec::with_capacity(alloc, count)?;
    'entries: for index in 0..count {
        let Some(found) = entry(index) else {
            return Ok(entries);
        };
        entries.push_reserved(found);
    }
    Ok(entries)
}

// The `count` entries, as a table.
fn table_of<'e, V: Drop, F: Fn(usize) -> Option<V>>(
    alloc: Global,
    count: usize,
    entry: F,
) -> ResultOf<'e, Table<V>>
    requires { (index : _) → F.pre entry index }
    ensures { (entries : List V) → length entries ≡ count
        → ((index : _) (found : _) → F.post entry index found
        → found ≡ slice_get entries index)
        → GivesOrMemory (λ t. t) result entries }
{
    let entries = entries_of(alloc, count, entry)?;
    Ok(Table::from(entries))
}

impl<'a> Entries for TablesInFile<'a> {
    ghost entries = { tables_in };

    #[tactic(auto, using(crate::proofs::WholeEntries::entry_count))]
    fn pointers(&self) -> usize {
        self.name_pointers.len() / SIZEOF_NAME_POINTER
    }

    #[tactic(auto, using(crate::proofs::WholeEntries::entry_read))]
    fn pointer(&self, index: usize) -> Option<u32> {
        let entry = self.name_pointers.entry_at::<SIZEOF_NAME_POINTER>(index)?;
        Some(field_u32(&entry, 0, Endian::Little))
    }

    #[tactic(auto, using(crate::proofs::WholeEntries::entry_read))]
    fn ordinal(&self, index: usize) -> Option<u16> {
        let entry = self.ordinals.entry_at::<SIZEOF_ORDINAL>(index)?;
        Some(field_u16(&entry, 0, Endian::Little))
    }

    #[tactic(auto, using(crate::proofs::WholeEntries::entry_read))]
    fn address(&self, index: usize) -> Option<ExportAddressTableEntry> {
        let entry = self
            .addresses
            .entry_at::<SIZEOF_EXPORT_ADDRESS_TABLE_ENTRY>(index)?;
        let rva = field_u32(&entry, 0, Endian::Little);
        Some(ExportAddressTableEntry::of_rva(self.directory, rva))
    }
}
