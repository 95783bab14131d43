//! A walk over all imports of an image.

ghost use Rattle.std.specs.Prelude.{◌≡◌, ◌+◌, ◌-◌, ◌<◌, ◌≤◌, ◌^◌, IfErr, IfOk, IfSome, MatchOption};
ghost use Rattle.std.specs.Prelude.{None, Some, false, length, List, ℕ, IsSome, IsOk, Ok};
ghost use Rattle.std.specs.Prelude.{suc};
ghost use Rattle.std.specs.Iterator.{UpTo, at_most};
ghost use Rattle.std.specs.{Iterator.SizeHint.IsWithinCount, List.flat_map, Option.option_len};
ghost use Rattle.goblin_base.specs.{declared.error.ErrorOf.ErrorOf, Reading.Reads};
ghost use Rattle.readings.specs.{Reads.mapped, Walks.IsWalkOf, Walks.Walks};
ghost use Rattle.goblin_pe_sect.specs.Addresses.{map_of, reads_strictly};
ghost use Rattle.goblin_pe_import.specs.added.ImportCursors.{BeginsAt, before_record, first_import};
ghost use Rattle.goblin_pe_import.specs.ImportReadings.{indexed_at, numbered_data};
ghost use Rattle.goblin_pe_import.specs.ImportReadings.{numbered_libraries_at};
ghost use Rattle.goblin_pe_import.specs.{Imports.numbered_imports, ImportRecords.address_table_rva};
ghost use Rattle.goblin_pe_import.specs.added.ImportWalks.{GivesImport, GivesLibrary, GivesAscii};
ghost use Rattle.goblin_pe_import.specs.added.ImportWalks.{HasName, IsCursorCause, IsNamed};
ghost use Rattle.goblin_pe_import.specs.added.ImportWalks.{IsWalkAt, IsImportsCause, cursor_left};
ghost use Rattle.goblin_pe_import.specs.added.ImportWalks.{cursor_of, IsWalkCause};
ghost use Rattle.goblin_pe_import.specs.added.ImportWalks.{bound_next, imports_bound, imports_map};
ghost use Rattle.goblin_pe_import.specs.added.ImportWalks.{imports_bytes, imports_left};
ghost use Rattle.goblin_pe_import.specs.added.ImportWalks.{kept_import, no_imports, finder_of};
ghost use Rattle.goblin_pe_import.specs.added.ImportWalks.{ascii_at, ascii_walk};
ghost use Rattle.goblin_pe_import.specs.added.ImportWalks.{record_index, walk_bound};
ghost use Rattle.goblin_pe_import.specs.added.ImportWalks.{walk_left, walked_value};
ghost use Rattle.goblin_pe_import.specs.KeptEntries.{kept_value, slots_bound};
ghost use Rattle.goblin_pe_import.specs.Passed.{Count, HasRisen, count_of, nothing_passed};
ghost use Rattle.goblin_pe_import.specs.added.ImportWalks.{CountsPassed, passed_of, records_ahead};
ghost use Rattle.goblin_pe_import.specs.added.ImportWalks.{walk_passes};
ghost use Rattle.goblin_pe_import.specs.added.StepsAhead.{EndsWithin, GivesImportWithin};
ghost use Rattle.goblin_pe_import.specs.added.StepsAhead.{TestsFirst, TestsPending};
ghost use Rattle.goblin_pe_import.specs.added.StepsAhead.{imports_ahead, later_ahead, walk_ahead};
ghost use Rattle.goblin_pe_import.specs.added.TestedTables.{in_next};
ghost use Rattle.goblin_pe_import.specs.Steps.{GivesWithin, HasNotGrown, IsOut, LooksAt};

use crate::added::ascii::ascii_kept;
use crate::added::tested::test_table;
use crate::import::bitfield::Bitfield;
use crate::import::directory_entry::{ImportDirectoryEntry, SIZEOF_IMPORT_DIRECTORY_ENTRY};
use crate::import::kept::{KeptEntry, next_kept_within};
use crate::import::library::{
    address_table_rva, first_record_offset, library_name, lookup_offset, name_or_empty,
};
use crate::import::lookup_table::SyntheticImportLookupTableEntry;
use crate::import::passed::Passed;
use crate::import::slots::{may_end, next_record};
use crate::import::steps::{are_out, spend};
use goblin_base::{Cause, Error, ResultOf};
use goblin_pe_sect::address_map::{AddressMap, Finder};
use goblin_pe_sect::data_directories::DataDirectory;
use std::fmt;
use std::iter::FusedIterator;
use std::marker::PhantomData;

/// An import, as a walk yields it. It takes no memory.
#[derive(Debug, Clone, Drop)]
pub struct WalkedImport<'a> {
    /// The ordinal; or the address of the hint and the name, with the hint and the name.
    pub entry: SyntheticImportLookupTableEntry<'a>,
    /// The name of the library. It is empty if permissive mode could not read it.
    pub dll: &'a str,
    /// The index of the library's import descriptor in the import directory. Descriptors that are
    /// left out are counted.
    pub library: usize,
    /// The index of the import's entry in the tables of the file: the lookup table and the address
    /// table. Entries that are left out are counted.
    pub slot: usize,
    /// The address of the import's entry in the address table.
    pub slot_rva: usize,
    /// The size of an entry of the address table, in bytes.
    pub size: usize,
}

/// Where a walk over imports is, in numbers. Together with the bytes and a map of addresses, they
/// are the whole state of the walk.
///
/// Any numbers are safe. They lead to a walk that yields imports, nothing, or an error.
#[derive(Debug, Copy, Clone, PartialEq, Eq)]
pub struct ImportCursor {
    /// The file offset of the directory's first import descriptor. Descriptors are counted from
    /// there.
    pub first_record: usize,
    /// The file offset of the import descriptor after that of the library; `None` at the end.
    pub next_record: Option<usize>,
    /// The index of the library's import descriptor.
    pub library: usize,
    /// The address of the library's name.
    pub name_rva: u32,
    /// The address of the library's address table.
    pub rva: u32,
    /// The file offset of the library's lookup table.
    pub table_offset: usize,
    /// The file offset of the next slot in that table; `None` between two libraries.
    pub place: Option<usize>,
    /// The address of its address table, if that table is yet to be tested after its entries.
    pub pending: Option<u32>,
    /// The file offset of the next slot to test, where a part of an address table has been tested:
    /// of that at `pending`, or else of that of the next import descriptor. A walk over imports in
    /// strict mode has no use for the latter.
    pub tested: Option<usize>,
}

impl ImportCursor {
    /// The cursor at the end: no imports follow.
    pub fn end() -> ImportCursor
        ensures { result ≡ no_imports }
    {
        ImportCursor {
            first_record: 0,
            next_record: None,
            library: 0,
            name_rva: 0,
            rva: 0,
            table_offset: 0,
            place: None,
            pending: None,
            tested: None,
        }
    }

    /// The cursor before the first import descriptor of a directory, which lies at this file
    /// offset.
    pub fn before_record(offset: usize) -> ImportCursor
        ensures { result ≡ before_record offset }
    {
        ImportCursor::at_record(offset, offset)
    }

    /// The cursor before the first import of `directory`. Permissive mode skips the directory as a
    /// whole if its address has no file offset, or leads to file offset 0. The cursor then lies
    /// behind the file: nothing comes there, and a walk counts the directory as skipped.
    ///
    /// # Errors
    /// In strict mode [`Error::Malformed`] with [`Cause::Unmapped`] if the directory's address has
    /// no file offset.
    pub fn first<'e>(
        directory: DataDirectory,
        finder: &mut Finder<'_>,
    ) -> ResultOf<'e, ImportCursor>
        ensures first { (bytes : List ℕ) → let m = map_of finder.old in
            let rva = directory.virtual_address in
            Reads (λ c. c) result (first_import (reads_strictly m) m.addressing rva) bytes }
        ensures same { finder.new ≡ finder.old }
    {
        let rva = directory.virtual_address;
        let offset = finder.offset_of(rva);
        let strictly = finder.reads_strictly();
        if strictly && offset.is_none() {
            return Err(Error::Malformed(Cause::Unmapped(rva as usize)));
        }
        match first_record_offset(offset, strictly) {
            Some(offset) => Ok(ImportCursor::before_record(offset)),
            None => Ok(ImportCursor::before_record(usize::MAX)),
        }
    }
}

// A walk: where it is, the name of the library there, and what it has passed over.
#[derive(Drop)]
struct Walk<'a, 'm> {
    bytes: &'a [u8],
    finder: Finder<'m>,
    dll: &'a str,
    at: ImportCursor,
    passed: Passed,
}

// Tests a piece of the address table that is yet to be tested after its library's entries, if there
// is one. Permissive mode has tested the table before.
fn test_pending<'a, 'e, T: Bitfield<'a>>(
    bytes: &'a [u8],
    at: &ImportCursor,
    finder: &mut Finder<'_>,
) -> Option<ResultOf<'e, Option<usize>>>
    ensures tests { let m = map_of finder.old in
        TestsPending (reads_strictly m) T.format m.addressing bytes.now at.now.tested
        at.now.pending result }
    ensures there { IfSome result (λ r. 1 ≤ option_len at.now.pending) }
    ensures wide { 1 ≤ T.format.width }
    ensures same { finder.new ≡ finder.old }
{
    let Some(rva) = at.pending else {
        return None;
    };
    if !finder.reads_strictly() {
        return None;
    }
    Some(test_table::<T>(bytes, at.tested, rva, finder))
}

// Tests a piece of the address table of an import descriptor before its library's entries, as
// permissive mode does. If that is an error, the walk skips the library.
fn test_first<'a, 'e, T: Bitfield<'a>>(
    bytes: &'a [u8],
    tested: Option<usize>,
    entry: &ImportDirectoryEntry,
    finder: &mut Finder<'_>,
) -> ResultOf<'e, Option<usize>>
    ensures tests { let m = map_of finder.old in
        TestsFirst (reads_strictly m) T.format m.addressing bytes.now tested entry.now result }
    ensures same { finder.new ≡ finder.old }
{
    if finder.reads_strictly() {
        return Ok(None);
    }
    test_table::<T>(bytes, tested, address_table_rva(entry), finder)
}

// The import of an entry that the lookup table at a cursor keeps. The library is `dll`.
#[inline(always)]
fn import_of<'a, T: Bitfield<'a>>(
    kept: KeptEntry<'a>,
    dll: &'a str,
    at: &ImportCursor,
) -> WalkedImport<'a>
    requires { kept.place < 2 ^ 63 }
    ensures { let c = at.now in
        walked_value result
        ≡ kept_import T.format.width c.library dll.now c.rva c.table_offset
        (kept_value kept.entry) }
{
    let KeptEntry { slot, place, entry } = kept;
    WalkedImport {
        entry,
        dll,
        library: at.library,
        slot,
        slot_rva: at.rva as usize + place.saturating_sub(at.table_offset),
        size: T::size_of(),
    }
}

// The index of the import descriptor at `offset` in a directory whose first one lies at `first`.
pub(super) fn record_index(first: usize, offset: usize) -> usize
    ensures { result ≡ record_index first offset }
{
    offset.saturating_sub(first) / SIZEOF_IMPORT_DIRECTORY_ENTRY
}

// An upper bound of the number of slots or descriptors from the one at `place` on.
pub(super) fn slots_bound(bytes: &[u8], place: Option<usize>) -> usize
    ensures value { result ≡ slots_bound bytes.now place }
    ensures low { result < 2 ^ 63 + 1 }
{
    match place {
        Some(place) => bytes.len().saturating_sub(place) + 1,
        None => 0,
    }
}

impl<'a, 'm> Walk<'a, 'm> {
    fn end(&mut self)
        ensures bytes { self.new.bytes.now ≡ self.old.bytes.now }
        ensures finder { self.new.finder ≡ self.old.finder }
        ensures at { self.new.at ≡ no_imports }
        ensures passed { self.new.passed ≡ self.old.passed }
    {
        self.at = ImportCursor::end();
    }

    // Takes one look, once the walk has yielded the entries of a library: at a piece of an address
    // table or an import descriptor, or at both. `None` if there is no other library.
    #[inline(always)]
    fn next_library<'e, T: Bitfield<'a>>(&mut self) -> Option<ResultOf<'e, ()>>
        ensures gives { GivesLibrary T.format self.old result self.new }
        ensures named { IfSome result (λ r. IfOk r (λ _. IsNamed self.new)) }
        ensures bytes { self.new.bytes.now ≡ self.old.bytes.now }
        ensures finder { self.new.finder ≡ self.old.finder }
        ensures bound { let c = self.old.at in IfSome result (λ r. IfOk r (λ _.
            walk_bound self.new
            ≤ option_len c.pending + bound_next self.old.bytes.now c.next_record)) }
        ensures there { let c = self.old.at in
            IfSome result (λ r. IfErr r (λ e.
            1 ≤ option_len c.pending + bound_next self.old.bytes.now c.next_record)) }
        ensures counted { let m = map_of self.old.finder in
            let c = self.old.at in
            let before = later_ahead (reads_strictly m) T.format m.addressing self.old.bytes.now
            c.tested c.pending c.next_record in
            MatchOption result (before ≡ 0) (λ r. IfOk r (λ _.
            before ≡ suc (walk_ahead T.format self.new))) }
        ensures passed { let m = map_of self.old.finder in
            (k : Count) → let before = records_ahead (reads_strictly m) T.format m.addressing
            self.old.bytes.now k self.old.at.next_record
            (in_next (reads_strictly m) self.old.at.tested) in
            let risen = HasRisen (count_of k self.old.passed) (count_of k self.new.passed) before in
            MatchOption result (risen 0) (λ r. IfOk r (λ _. risen (walk_passes T.format self.new k))) }
    {
        match test_pending::<T>(self.bytes, &self.at, &mut self.finder) {
            None => (),
            Some(Ok(None)) => {
                self.at.place = None;
                self.at.pending = None;
                self.at.tested = None;
                return Some(Ok(()));
            }
            Some(Ok(Some(place))) => {
                self.at.place = None;
                self.at.tested = Some(place);
                return Some(Ok(()));
            }
            Some(Err(error)) => return Some(Err(error)),
        }
        let Some(offset) = self.at.next_record else {
            return None;
        };
        let size = SIZEOF_IMPORT_DIRECTORY_ENTRY;
        let Some(record) = next_record(self.bytes, offset) else {
            if may_end(self.bytes, offset, size, self.finder.reads_strictly()) {
                self.passed.add_end(self.bytes, offset, size);
                return None;
            }
            return Some(Err(Error::Malformed(Cause::ImportRecordEnd(offset))));
        };
        let next_record = Some(offset + size);
        match test_first::<T>(self.bytes, self.at.tested, &record, &mut self.finder) {
            Ok(None) => (),
            Ok(Some(place)) => {
                self.at.place = None;
                self.at.pending = None;
                self.at.tested = Some(place);
                return Some(Ok(()));
            }
            Err(_) => {
                self.passed.add_library();
                self.at.next_record = next_record;
                self.at.place = None;
                self.at.pending = None;
                self.at.tested = None;
                return Some(Ok(()));
            }
        }
        let first_record = self.at.first_record;
        self.dll = match library_name(self.bytes, record.name_rva, &mut self.finder) {
            Ok(name) => name,
            Err(error) => return Some(Err(error)),
        };
        let place = lookup_offset(&record, &mut self.finder);
        self.at = ImportCursor {
            first_record,
            next_record,
            library: record_index(first_record, offset),
            name_rva: record.name_rva,
            rva: record.import_address_table_rva,
            table_offset: place.unwrap_or(0),
            place,
            pending: Some(address_table_rva(&record)),
            tested: None,
        };
        Some(Ok(()))
    }

    // An upper bound of the number of imports to come, if it fits.
    fn bound(&self) -> Option<usize>
        ensures value { IfSome result (λ n. n ≡ walk_bound self.now) }
        ensures fits { walk_bound self.now < 2 ^ 64 → IsSome result }
    {
        let pending = usize::from(self.at.pending.is_some());
        let slots = slots_bound(self.bytes, self.at.place) + pending;
        let records = slots_bound(self.bytes, self.at.next_record);
        slots.checked_add((self.bytes.len() + 2).checked_mul(records)?)
    }

    // The next import within a budget of steps. Each step looks at a slot of a lookup table, at an
    // import descriptor, or at a piece of an address table. `None` means that the walk is at its
    // end, if its cursor is, or else that the budget has run out.
    #[inline(always)]
    #[tactic(auto, using(crate::proofs::added::StepsAhead::grown_then, crate::proofs::SlotSteps::grown_spent))]
    fn next_within<'e, T: Bitfield<'a>>(
        &mut self,
        steps: &mut Option<usize>,
    ) -> Option<ResultOf<'e, WalkedImport<'a>>>
        ensures steps { GivesWithin walked_value (walk_left T.format) (IsWalkCause T.format)
            self.old result self.new }
        ensures named { IsNamed self.old → IsNamed self.new }
        ensures bytes { self.new.bytes.now ≡ self.old.bytes.now }
        ensures finder { self.new.finder ≡ self.old.finder }
        ensures fewer { IfSome result (λ r. walk_bound self.new < walk_bound self.old) }
        ensures passed { CountsPassed T.format self.old result self.new }
        ensures spent { HasNotGrown steps.old steps.new }
        ensures looked { LooksAt result steps.old steps.new (walk_ahead T.format self.old)
            (walk_ahead T.format self.new) }
        ensures ended { EndsWithin result self.new.at (IsOut steps.new) }
    {
        'libraries: loop {
            let (bytes, finder) = (self.bytes, &mut self.finder);
            let offset = self.at.table_offset;
            let (place, passed) = (&mut self.at.place, &mut self.passed);
            match next_kept_within::<T>(bytes, offset, place, finder, steps, passed) {
                Some(Ok(kept)) => return Some(Ok(import_of::<T>(kept, self.dll, &self.at))),
                Some(Err(error)) => {
                    self.end();
                    return Some(Err(error));
                }
                None => (),
            }
            if are_out(steps) {
                return None;
            }
            match self.next_library::<T>() {
                Some(Ok(())) => spend(steps, 1),
                Some(Err(error)) => {
                    spend(steps, 1);
                    self.end();
                    return Some(Err(error));
                }
                None => {
                    self.end();
                    return None;
                }
            }
        }
    }
}

/// A walk over the imports of an image, library by library and entry by entry. It takes no memory.
///
/// In strict mode, if the import data is refused, the walk yields the imports that come before the
/// damage, then one error, and ends. In permissive mode it yields no error: it leaves out what
/// can't be read, as [`ImportData::parse_by`](crate::import::ImportData::parse_by) does.
#[derive(Drop)]
pub struct Imports<'a, 'm, 'e, T> {
    walk: Walk<'a, 'm>,
    items: PhantomData<ResultOf<'e, T>>,
}

impl<'a, 'm, 'e, T: Bitfield<'a>> Imports<'a, 'm, 'e, T> {
    /// A walk over the imports of `directory`, whose tables have entries of type `T`. It yields the
    /// imports that [`ImportData::parse_by`](crate::import::ImportData::parse_by) lists.
    ///
    /// # Errors
    /// In strict mode [`Error::Malformed`] with [`Cause::Unmapped`] if the directory's address has
    /// no file offset.
    #[inline(always)]
    #[tactic(auto, unfolding(crate::specs::ImportReadings::numbered_data, crate::specs::added::ImportWalks::imports_next))]
    pub fn of(
        bytes: &'a [u8],
        directory: DataDirectory,
        address_map: &'m AddressMap,
    ) -> ResultOf<'e, Imports<'a, 'm, 'e, T>>
        ensures walks { let m = map_of address_map.now in
            let rva = directory.virtual_address in
            Walks (imports_left T.format) (IsImportsCause T.format) (λ xs. xs) result
            (mapped (flat_map (numbered_imports T.format.width))
            (numbered_data (reads_strictly m) T.format m.addressing rva))
            bytes.now }
        ensures begins { let m = map_of address_map.now in
            let rva = directory.virtual_address in
            BeginsAt m bytes.now (first_import (reads_strictly m) m.addressing rva) result }
        ensures fresh { IfOk result (λ walk. passed_of walk ≡ nothing_passed) }
        ensures permissive { reads_strictly (map_of address_map.now) ≡ false → IsOk result }
    {
        let rva = directory.virtual_address;
        let strictly = address_map.reads_strictly();
        let mut finder = Finder::of(address_map);
        let Some(offset) = first_record_offset(finder.offset_of(rva), strictly) else {
            if strictly {
                return Err(Error::Malformed(Cause::Unmapped(rva as usize)));
            }
            let behind = ImportCursor::before_record(usize::MAX);
            return Ok(Imports::at_cursor(bytes, behind, finder));
        };
        Ok(Imports::at(bytes, offset, finder))
    }

    /// A walk over the imports of the directory at the file offset `offset`.
    pub fn at(bytes: &'a [u8], offset: usize, finder: Finder<'m>) -> Imports<'a, 'm, 'e, T>
        ensures walks { let m = map_of finder.entry in
            let libraries =
            numbered_libraries_at (reads_strictly m) T.format m.addressing offset in
            IsWalkOf (λ xs. xs)
            (mapped (flat_map (numbered_imports T.format.width)) libraries) bytes.now
            (imports_left T.format result) (IsImportsCause T.format result) }
        ensures begins { IsWalkAt (map_of finder.entry) bytes.now (before_record offset) result }
        ensures fresh { passed_of result ≡ nothing_passed }
        ensures counted { let m = map_of finder.entry in
            let both = indexed_at (reads_strictly m) T.format m.addressing offset in
            IfSome (both.value bytes.now) (λ x. length x.1 ≡ length x.0) }
    {
        Imports::at_cursor(bytes, ImportCursor::before_record(offset), finder)
    }

    /// The walk from a cursor on. At a cursor that [`Imports::cursor`] returned, it yields what
    /// that walk had yet to yield. Any other cursor is safe, too.
    #[inline(always)]
    #[tactic(auto, using(crate::proofs::added::ImportCursors::cursor_left_of))]
    pub fn at_cursor(
        bytes: &'a [u8],
        at: ImportCursor,
        finder: Finder<'m>,
    ) -> Imports<'a, 'm, 'e, T>
        ensures at { IsWalkAt (map_of finder.entry) bytes.now at result }
        ensures left { imports_left T.format result
            ≡ cursor_left (map_of finder.entry) T.format bytes.now at }
        ensures cause { (e : ErrorOf) → IsImportsCause T.format result e
            → IsCursorCause (map_of finder.entry) T.format bytes.now at e }
        ensures fresh { passed_of result ≡ nothing_passed }
        ensures wide { 1 ≤ T.format.width }
    {
        let dll = "";
        let mut walk = Walk {
            bytes,
            finder,
            dll,
            at,
            passed: Passed::nothing(),
        };
        if at.place.is_some() {
            walk.dll = name_or_empty(bytes, at.name_rva, &mut walk.finder);
        }
        Imports {
            walk,
            items: PhantomData,
        }
    }

    /// Where the walk is. A walk at this cursor yields what this one has yet to yield.
    pub fn cursor(&self) -> ImportCursor
        ensures left { HasName self.now → imports_left T.format self.now
            ≡ cursor_left (imports_map self.now) T.format (imports_bytes self.now) result }
        ensures is { result ≡ cursor_of self.now }
    {
        self.walk.at
    }

    /// What the walk has passed over since it was made. After an error, what it says is not known.
    pub fn passed(&self) -> Passed
        ensures { result ≡ passed_of self.now }
    {
        self.walk.passed
    }

    /// A faster walk over the next imports, as long as they are by ordinal or by an ASCII name.
    /// `None` if this walk is in no library. [`Imports::go_on`] moves this walk past those that
    /// came.
    #[inline(always)]
    pub fn ascii(&self) -> Option<AsciiImports<'a, 'm, 'e, T>>
        ensures begins { IfSome result (λ ascii. ascii_at ascii ≡ self.now) }
        ensures same { IfSome result (λ ascii. ascii_walk ascii ≡ self.now) }
        ensures none { result ≡ None → (cursor_of self.now).place ≡ None }
    {
        let Some(place) = self.walk.at.place else {
            return None;
        };
        let walk = Walk {
            finder: self.finder(),
            ..self.walk
        };
        let imports = Imports {
            walk,
            items: PhantomData,
        };
        Some(AsciiImports { imports, place })
    }

    /// The next import within a budget of steps. `steps` is the budget, from which the call takes
    /// what it spends. Each step looks at one slot of a lookup table, at one import descriptor of
    /// the directory, or at 64 slots of an address table, whether or not that gives an import. In
    /// permissive mode an import descriptor is looked at with the last slots of its address table,
    /// in one step.
    ///
    /// `None` means one of two things. If the [`cursor`](Imports::cursor) is at the end, so is the
    /// walk. Else the budget has run out; call again with a new one to go on.
    #[inline(always)]
    pub fn next_within(
        &mut self,
        steps: &mut Option<usize>,
    ) -> Option<ResultOf<'e, WalkedImport<'a>>>
        ensures { GivesImportWithin T.format self.old steps.old result self.new steps.new }
    {
        self.walk.next_within::<T>(steps)
    }

    /// A copy of the walk's finder of file offsets, with the addresses that it has at hand.
    #[inline(always)]
    pub fn finder(&self) -> Finder<'m>
        ensures { result ≡ finder_of self.now }
    {
        self.walk.finder.again()
    }

    /// Moves the walk past the imports that `ascii` has yielded. `ascii` must come from this walk
    /// as it is now.
    #[inline(always)]
    pub fn go_on(&mut self, ascii: &AsciiImports<'a, 'm, 'e, T>)
        requires { ascii_walk ascii.now ≡ self.old }
        ensures { self.new ≡ ascii_at ascii.now }
    {
        self.walk.at.place = Some(ascii.place);
    }
}

impl<'a, 'm, 'e, T: Bitfield<'a>> Iterator for Imports<'a, 'm, 'e, T> {
    type Item = ResultOf<'e, WalkedImport<'a>>;

    ghost next_gives = { GivesImport T.format };

    ghost remaining = { λ it. at_most (imports_bound it) };

    #[inline(always)]
    fn next(&mut self) -> Option<ResultOf<'e, WalkedImport<'a>>> {
        self.next_within(&mut None)
    }

    fn size_hint(&self) -> (usize, Option<usize>)
        ensures lower { IsWithinCount result.0 (at_most (imports_bound self.now)) }
        ensures upper { IfSome result.1 (UpTo (at_most (imports_bound self.now))) }
        ensures fits { imports_bound self.now < 2 ^ 64 → IsSome result.1 }
        ensures least { result.0 ≡ 0 }
        ensures most { IfSome result.1 (λ n. n ≡ imports_bound self.now) }
    {
        (0, self.walk.bound())
    }
}

impl<'a, 'm, 'e, T: Bitfield<'a>> FusedIterator for Imports<'a, 'm, 'e, T> {}

/// A faster walk over the next imports of a library, as long as they are by ordinal, or by a name
/// that is ASCII and lies near those before it.
///
/// Nearly all imports are like that. All others are left to `next` of [`Imports`]. Every call in a
/// step is inlined, so a loop over this walk keeps its values in registers.
#[derive(Drop)]
pub struct AsciiImports<'a, 'm, 'e, T> {
    // The walk as it was.
    imports: Imports<'a, 'm, 'e, T>,
    // The file offset of the next slot.
    place: usize,
}

impl<'a, 'm, 'e, T: Bitfield<'a>> AsciiImports<'a, 'm, 'e, T> {
    /// The next import, if it is by ordinal or by an ASCII name, as [`AsciiImports`] says. `None`
    /// says nothing about what comes next: call `next` of [`Imports`].
    #[inline(always)]
    pub fn next_import(&mut self) -> Option<WalkedImport<'a>>
        ensures gives { GivesAscii T.format self.old result self.new }
        ensures counted { IfSome result (λ _. imports_ahead T.format (ascii_at self.old)
            ≡ suc (imports_ahead T.format (ascii_at self.new))) }
        ensures passes { IfSome result (λ _. (k : Count)
            → walk_passes T.format (ascii_at self.old).walk k
            ≡ walk_passes T.format (ascii_at self.new).walk k) }
    {
        let walk = &self.imports.walk;
        let offset = walk.at.table_offset;
        let Some(kept) = ascii_kept::<T>(walk.bytes, offset, self.place, &walk.finder) else {
            return None;
        };
        let import = import_of::<T>(kept, walk.dll, &walk.at);
        self.place += T::size_of();
        Some(import)
    }
}

impl<'a, 'm, 'e, T: Bitfield<'a>> fmt::Debug for Imports<'a, 'm, 'e, T> {
    fn fmt<W: fmt::Write>(&self, f: &mut fmt::Formatter<W>) -> fmt::Result {
        f.debug_struct("Imports")
            .field("cursor", &self.walk.at)
            .finish_non_exhaustive()
    }
}

impl<'a, 'm, 'e, T: Bitfield<'a>> fmt::Debug for AsciiImports<'a, 'm, 'e, T> {
    fn fmt<W: fmt::Write>(&self, f: &mut fmt::Formatter<W>) -> fmt::Result {
        f.debug_struct("AsciiImports")
            .field("place", &self.place)
            .finish_non_exhaustive()
    }
}
