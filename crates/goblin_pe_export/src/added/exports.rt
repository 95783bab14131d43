//! A walk over the exports of an image, and which exports pass a test.

ghost use Rattle.std.specs.Prelude.{◌≡◌, ◌≤◌, ◌<◌, ◌^◌, ◌+◌, IfOk, IfSome, MatchOption, None, Some};
ghost use Rattle.std.specs.Prelude.{length, option_map, slice_get, Bool, count_by, find};
ghost use Rattle.std.specs.{Fn.FnReturnsAt, Iterator.SizeHint.IsWithinCount};
ghost use Rattle.std.specs.Iterator.{UpTo, at_most};
ghost use Rattle.goblin_base.specs.Reading.{Reads};
ghost use Rattle.readings.specs.Tests.{IsTest};
ghost use Rattle.goblin_pe_sect.specs.Addresses.{map_of};
ghost use Rattle.goblin_pe_export.specs.added.ExportAddresses.{RepeatsAddresses, export_addresses};
ghost use Rattle.goblin_pe_export.specs.ExportReadings.{numbered_read, numbered_export};
ghost use Rattle.goblin_pe_export.specs.ExportRecords.{numbered_by, tables_in};
ghost use Rattle.goblin_pe_export.specs.added.ExportWalks.{AreExportsOver, exports_bound};
ghost use Rattle.goblin_pe_export.specs.added.ExportWalks.{GivesExport, exports_at, exports_left};
ghost use Rattle.goblin_pe_export.specs.added.ExportWalks.{GivesExportBefore, exports_position};
ghost use Rattle.goblin_pe_export.specs.added.ExportWalks.{KeepsOver, numbered_from, pointer_count};
ghost use Rattle.goblin_pe_export.specs.added.ExportWalks.{walked_export, walked_tables};
ghost use Rattle.goblin_pe_export.specs.added.ExportWalks.{NumberedExport};

use crate::export::Export;
use crate::export::entries::{Entries, TablesInFile};
use crate::export::tables::{
    ExportAddressTableEntry, ExportDirectoryTable, SIZEOF_EXPORT_ADDRESS_TABLE_ENTRY,
    SIZEOF_NAME_POINTER, SIZEOF_ORDINAL, test_address_count,
};
use goblin_base::{Cause, Endian, Error, MappedBytes, Result, field_u16, field_u32};
use goblin_pe_sect::DataDirectory;
use goblin_pe_sect::address_map::{AddressMap, Finder};
use std::fmt;
use std::iter::FusedIterator;

/// An export, as a walk yields it. It takes no memory.
#[derive(Debug, Drop)]
pub struct WalkedExport<'a> {
    /// The index of its name pointer. Imports by name give such an index as a hint.
    pub hint: usize,
    /// Its ordinal: the index of its address plus the ordinal base.
    pub ordinal: usize,
    /// The RVA of its name, which is its name pointer, even if no name can be read there.
    pub name_rva: u32,
    /// The export itself.
    pub export: Export<'a>,
}

/// A walk over the exports of an image, in the order of their name pointers. It takes no memory. It
/// yields the exports that [`Export::parse_by`] lists for what
/// [`ExportData::parse_by`](crate::export::ExportData::parse_by) reads.
///
/// The three tables are read from the bytes of the file, one name pointer at a time. Once the
/// record that leads to them is read, nothing is refused. The walk passes over a name pointer
/// without an ordinal, with an ordinal past the address table, or with a forwarder whose text can't
/// be read. So it has passed over as many as its [`position`](Exports::position) exceeds the number
/// of exports that it yielded.
#[derive(Drop)]
pub struct Exports<'a, 'm> {
    bytes: &'a [u8],
    finder: Finder<'m>,
    tables: TablesInFile<'a>,
    // The index of the name pointer that is read next.
    next: usize,
}

impl<'a, 'm> Exports<'a, 'm> {
    /// A walk over the exports of an export directory. Both modes give the same answer.
    ///
    /// # Errors
    /// As [`ExportData::parse_by`](crate::export::ExportData::parse_by), but never
    /// [`Error::Memory`](goblin_base::Error::Memory).
    #[inline(always)]
    pub fn of(
        bytes: &'a [u8],
        directory: DataDirectory,
        address_map: &'m AddressMap,
    ) -> Result<Exports<'a, 'm>>
        ensures value { let m = map_of address_map.now in
            Reads (λ walk. (walked_tables walk, exports_left walk)) result
            (numbered_read m.addressing directory) bytes.now }
        ensures left { let m = map_of address_map.now in
            IfOk result (λ walk. exports_left walk
            ≡ numbered_from m.addressing bytes.now (walked_tables walk) 0) }
        ensures at { IfOk result (λ walk. exports_position walk ≡ 0) }
        ensures over { IfOk result (AreExportsOver bytes.now (map_of address_map.now)) }
    {
        Exports::by(bytes, directory, Finder::of(address_map))
    }

    /// A walk over the exports of an export directory, as [`Exports::of`], with a finder. An
    /// address that the finder has at hand takes no search.
    ///
    /// # Errors
    /// As [`Exports::of`].
    #[inline(always)]
    #[tactic(auto, unfolding(crate::specs::ExportReadings::numbered_read), using(crate::proofs::added::ExportWalk::read_walked))]
    pub fn by(
        bytes: &'a [u8],
        directory: DataDirectory,
        mut finder: Finder<'m>,
    ) -> Result<Exports<'a, 'm>>
        ensures value { let m = map_of finder.entry in
            Reads (λ walk. (walked_tables walk, exports_left walk)) result
            (numbered_read m.addressing directory) bytes.now }
        ensures left { let m = map_of finder.entry in
            IfOk result (λ walk. exports_left walk
            ≡ numbered_from m.addressing bytes.now (walked_tables walk) 0) }
        ensures at { IfOk result (λ walk. exports_position walk ≡ 0) }
        ensures over { IfOk result (AreExportsOver bytes.now (map_of finder.entry)) }
    {
        let tables = TablesInFile::find(bytes, directory, &mut finder)?;
        Ok(Exports {
            bytes,
            finder,
            tables,
            next: 0,
        })
    }

    /// The export directory without the names of the exports: its record, the library's name and
    /// the address table, in which a loader finds an export by its ordinal. The tables of the names
    /// are not looked at. So the walk yields no exports, and the number of name pointers does not
    /// matter. If [`Exports::of`] reads the exports, the addresses are theirs. Both modes give the
    /// same answer.
    ///
    /// # Errors
    /// As [`Exports::of`], but never because of the number of name pointers.
    #[tactic(auto, unfolding(crate::specs::added::ExportAddresses::export_addresses), using(crate::proofs::WholeEntries::no_names, crate::proofs::added::ExportAddresses::repeats_addresses, crate::proofs::added::ExportAddresses::tables_kept))]
    pub fn addresses_of(
        bytes: &'a [u8],
        directory: DataDirectory,
        address_map: &'m AddressMap,
    ) -> Result<Exports<'a, 'm>>
        ensures value { let m = map_of address_map.now in
            Reads walked_tables result (export_addresses m.addressing directory) bytes.now }
        ensures at { IfOk result (λ walk. exports_position walk ≡ 0) }
        ensures over { IfOk result (AreExportsOver bytes.now (map_of address_map.now)) }
        ensures repeats { let m = map_of address_map.now in
            RepeatsAddresses m.addressing directory bytes.now }
    {
        let mut finder = Finder::of(address_map);
        let rva = directory.virtual_address;
        let (part, offset) = finder.part_of(bytes, rva);
        let Some(offset) = offset else {
            return Err(Error::Malformed(Cause::Unmapped(rva as usize)));
        };
        let table = ExportDirectoryTable::parse_in(part, offset)?;
        test_address_count(bytes, &table)?;
        let mut tables = TablesInFile::of_record(bytes, table, directory, &mut finder);
        // (These give no entries, and their names are not looked at.)
        let none = MappedBytes::whole(&[]);
        tables.name_pointers = none;
        tables.ordinals = none;
        Ok(Exports {
            bytes,
            finder,
            tables,
            next: 0,
        })
    }

    /// The walk over the exports from a position on. At a position that [`Exports::position`]
    /// returned, it yields what that walk had yet to yield.
    pub fn from_position(self, position: usize) -> Exports<'a, 'm>
        ensures left { exports_left result ≡ exports_at self.entry position }
        ensures at { exports_position result ≡ position }
        ensures over { KeepsOver self.entry result }
    {
        Exports {
            bytes: self.bytes,
            finder: self.finder,
            tables: self.tables,
            next: position,
        }
    }

    /// Where the walk is: the index of the name pointer that is read next. After an export, that is
    /// its hint plus one. A walk from this position on yields what this one has yet to yield.
    pub fn position(&self) -> usize
        ensures { result ≡ exports_position self.now }
    {
        self.next
    }

    /// The library's own name, as the linker stored it, or `None` if there is no text at its
    /// address.
    pub fn name(&self) -> Option<&'a str>
        ensures { option_map (λ s. s.now) result ≡ (walked_tables self.now).name }
    {
        self.tables.name
    }

    /// The record itself, as stored in the file.
    pub fn directory_table(&self) -> &ExportDirectoryTable
        ensures { result.now ≡ (walked_tables self.now).export_directory_table }
    {
        &self.tables.export_directory_table
    }

    /// How many whole name pointers there are.
    #[tactic(auto, using(crate::proofs::WholeEntries::entry_count))]
    pub fn pointer_count(&self) -> usize
        ensures { result ≡ pointer_count self.now }
    {
        self.tables.pointers()
    }

    /// How many whole entries of the export address table there are.
    pub fn address_count(&self) -> usize
        ensures value { result ≡ length (walked_tables self.now).export_address_table }
        ensures few { result < 2 ^ 62 }
    {
        self.tables.address_count()
    }

    /// The entry of the export address table at an index, if there is one. The index plus the
    /// ordinal base is the ordinal of the entry.
    pub fn address(&self, index: usize) -> Option<ExportAddressTableEntry>
        ensures { result ≡ slice_get (walked_tables self.now).export_address_table index }
    {
        self.tables.address(index)
    }

    /// How many of the exports that are still to come pass a test.
    #[tactic(auto, using(crate::proofs::WholeEntries::count_bytes))]
    pub fn count_exports<F: Fn(&WalkedExport<'a>) -> bool>(self, test: F) -> usize
        requires { F.IsAlwaysCallable test }
        ensures { (p : NumberedExport → Bool) → IsTest walked_export (FnReturnsAt F.Fn test) p
            → result ≡ count_by p (exports_left self.entry) }
    {
        let mut count = 0;
        'exports: for export in self {
            if test(&export) {
                count += 1;
            }
        }
        count
    }

    /// The first of the exports still to come that passes a test, or `None` if none does.
    pub fn find_export<F: Fn(&WalkedExport<'a>) -> bool>(self, test: F) -> Option<WalkedExport<'a>>
        requires { F.IsAlwaysCallable test }
        ensures { (p : NumberedExport → Bool) → IsTest walked_export (FnReturnsAt F.Fn test) p
            → option_map walked_export result ≡ find p (exports_left self.entry) }
    {
        'exports: for export in self {
            if test(&export) {
                return Some(export);
            }
        }
        None
    }

    /// The next export, if its name pointer has an index below `end`. The walk does not look at
    /// name pointers from `end` on. If there is no such export, the walk moves to `end`, or to the
    /// end of the name pointers if that comes first; a walk that is already past it stays where it
    /// is.
    #[inline(always)]
    pub fn next_before(&mut self, end: usize) -> Option<WalkedExport<'a>>
        ensures { GivesExportBefore end self.old result self.new }
    {
        let end = end.min(self.tables.pointers());
        'pointers: for index in self.next..end {
            self.next = index + 1;
            let (tables, finder) = (&self.tables, &mut self.finder);
            let read = Export::of_pointer(self.bytes, tables, index, finder);
            if let Some(((pointer, ordinal), export)) = read {
                return Some(Exports::numbered(tables, index, pointer, ordinal, export));
            }
        }
        None
    }

    // An export with its numbers: the index of its name pointer, the name pointer itself, and its
    // entry of the ordinal table plus the ordinal base.
    #[inline(always)]
    fn numbered(
        tables: &TablesInFile<'a>,
        index: usize,
        pointer: u32,
        ordinal: u16,
        export: Export<'a>,
    ) -> WalkedExport<'a>
        ensures { walked_export result
            ≡ numbered_by (tables_in tables.now) index pointer ordinal export.entry }
    {
        let base = tables.export_directory_table.ordinal_base;
        WalkedExport {
            hint: index,
            ordinal: base as usize + usize::from(ordinal),
            name_rva: pointer,
            export,
        }
    }

    // The export of the name pointer at an index, if its name is ASCII, it is not a forwarder, and
    // its RVA and its name lie among those that the finder keeps. `None` says nothing about it.
    #[inline(always)]
    #[tactic(auto, unfolding(crate::specs::ExportReadings::numbered_row, crate::specs::ExportReadings::row_of, goblin_pe_sect::specs::AddressReadings::name_at), using(crate::proofs::WholeEntries::entry_read))]
    fn ascii_at(
        bytes: &'a [u8],
        tables: &TablesInFile<'a>,
        index: usize,
        finder: &Finder<'_>,
    ) -> Option<WalkedExport<'a>>
        ensures value { let m = map_of finder.now in
            let export = numbered_export m.addressing bytes.now (tables_in tables.now) index in
            IfSome result (λ x. export ≡ Some (walked_export x)) }
        ensures hint { IfSome result (λ x. x.hint ≡ index) }
        ensures unforwarded { IfSome result (λ x. (walked_export x).row.reexport ≡ None) }
    {
        let pointer = tables
            .name_pointers
            .stored_entry_at::<SIZEOF_NAME_POINTER>(index)?;
        let pointer = field_u32(&pointer, 0, Endian::Little);
        let ordinal = tables.ordinals.stored_entry_at::<SIZEOF_ORDINAL>(index)?;
        let ordinal = field_u16(&ordinal, 0, Endian::Little);
        let address = tables
            .addresses
            .stored_entry_at::<SIZEOF_EXPORT_ADDRESS_TABLE_ENTRY>(usize::from(ordinal))?;
        let rva = field_u32(&address, 0, Endian::Little);
        let ExportAddressTableEntry::ExportRVA(rva) = ExportAddressTableEntry::of_rva(
            tables.directory,
            rva,
        ) else {
            return None;
        };
        let Some(offset) = finder.near_offset(rva) else {
            return None;
        };
        let Some((part, place)) = finder.near_name_part(bytes, pointer) else {
            return None;
        };
        let Some(name) = part.ascii_str_within(place, finder.longest_name()) else {
            return None;
        };
        let export = Export {
            name: Some(name),
            offset: Some(offset),
            rva: rva as usize,
            size: 0,
            reexport: None,
        };
        Some(Exports::numbered(tables, index, pointer, ordinal, export))
    }

    /// The next export, if its name is ASCII, it is not a forwarder, and its RVA and its name lie
    /// among those that the walk keeps. `None` says nothing about what comes next: the walk stays
    /// where it is; call `next` to go on. Every call in a step is inlined, so a loop over such
    /// steps keeps its values in registers; the rare cases are left to `next`.
    #[inline(always)]
    #[tactic(auto, using(crate::proofs::added::ExportWalk::from_export))]
    pub fn next_ascii(&mut self) -> Option<WalkedExport<'a>>
        ensures steps { MatchOption result (self.new ≡ self.old)
            (λ x. GivesExport self.old (Some x) self.new) }
        ensures unforwarded { IfSome result (λ x. (walked_export x).row.reexport ≡ None) }
        ensures further { IfSome result
            (λ _. exports_position self.new ≡ exports_position self.old + 1) }
    {
        let index = self.next;
        if self.tables.pointers() <= index {
            return None;
        }
        let Some(export) = Exports::ascii_at(self.bytes, &self.tables, index, &self.finder) else {
            return None;
        };
        self.next = index + 1;
        Some(export)
    }
}

impl<'a, 'm> Iterator for Exports<'a, 'm> {
    type Item = WalkedExport<'a>;

    ghost next_gives = { GivesExport };

    ghost remaining = { λ walk. at_most (exports_bound walk) };

    #[inline(always)]
    #[tactic(auto, using(crate::proofs::WholeEntries::entry_count))]
    fn next(&mut self) -> Option<WalkedExport<'a>> {
        let end = self.tables.pointers();
        self.next_before(end)
    }

    /// At most as many exports come as there are name pointers left.
    #[tactic(auto, using(crate::proofs::added::ExportWalk::from_most, crate::proofs::WholeEntries::entry_count))]
    fn size_hint(&self) -> (usize, Option<usize>)
        ensures lower { IsWithinCount result.0 (at_most (exports_bound self.now)) }
        ensures upper { IfSome result.1 (UpTo (at_most (exports_bound self.now))) }
        ensures most { IfSome result.1 (λ n. length (exports_left self.now) ≤ n) }
        ensures value { result ≡ (0, Some (exports_bound self.now)) }
    {
        (0, Some(self.tables.pointers().saturating_sub(self.next)))
    }
}

impl<'a, 'm> FusedIterator for Exports<'a, 'm> {}

impl<'a, 'm> fmt::Debug for Exports<'a, 'm> {
    fn fmt<W: fmt::Write>(&self, f: &mut fmt::Formatter<W>) -> fmt::Result {
        f.debug_struct("Exports")
            .field("position", &self.next)
            .finish_non_exhaustive()
    }
}
