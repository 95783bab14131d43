//! A walk over the libraries of an image, one for each import descriptor.

ghost use Rattle.std.specs.Prelude.{◌≡◌, ◌<◌, ◌&&◌, IfOk, IfSome, List, None, Some, ℕ, not, suc};
ghost use Rattle.std.specs.Iterator.{UpTo, at_most};
ghost use Rattle.std.specs.{Iterator.SizeHint.IsWithinCount, Result.result_map_both};
ghost use Rattle.goblin_base.specs.Tables.{Format};
ghost use Rattle.goblin_pe_sect.specs.Addresses.{MapOfAddresses, map_of, reads_strictly};
ghost use Rattle.goblin_pe_import.specs.ImportEntries.{EntryValue};
ghost use Rattle.goblin_pe_import.specs.added.ImportWalks.{cursor_left, imports_from_record};
ghost use Rattle.goblin_pe_import.specs.added.Libraries.{name_or_cause, AreLibrariesAt, at_record};
ghost use Rattle.goblin_pe_import.specs.added.Libraries.{inside_library, GivesNextLibrary};
ghost use Rattle.goblin_pe_import.specs.added.Libraries.{cursor_libraries, entries_by};
ghost use Rattle.goblin_pe_import.specs.added.Libraries.{libraries_left, libraries_bound};
ghost use Rattle.goblin_pe_import.specs.added.Libraries.{libraries_bytes, libraries_cursor};
ghost use Rattle.goblin_pe_import.specs.added.Libraries.{libraries_format, libraries_map};
ghost use Rattle.goblin_pe_import.specs.{Passed.nothing_passed, added.Libraries.libraries_passed};
ghost use Rattle.goblin_pe_import.specs.added.Libraries.{GivesLibraryWithin, MovesWithin, given_of};
ghost use Rattle.goblin_pe_import.specs.added.Libraries.{libraries_steps, library_row};
ghost use Rattle.goblin_pe_import.specs.added.Libraries.{library_value, tested_at};
ghost use Rattle.goblin_pe_import.specs.{ImportRecords.address_table_rva, Passed.risen};
ghost use Rattle.goblin_pe_import.specs.{Steps.IsOut, added.StepsAhead.EndsWithin};
ghost use Rattle.goblin_pe_import.specs.added.TestedTables.{TestsPiece, tested_slots, tested_table};
ghost use Rattle.std.specs.Int.{from_bool};

use crate::added::imports::{ImportCursor, record_index, slots_bound};
use crate::added::tested::test_table;
use crate::import::directory_entry::{ImportDirectoryEntry, SIZEOF_IMPORT_DIRECTORY_ENTRY};
use crate::import::library::{address_table_rva, lookup_offset};
use crate::import::passed::Passed;
use crate::import::slots::{may_end, next_record};
use crate::import::steps::{are_out, spend};
use goblin_base::{Cause, Error, Result, ResultOf};
use goblin_pe_sect::address_map::Finder;
use std::fmt;
use std::iter::FusedIterator;

/// A library, as a walk yields it: its import descriptor, and what the walk can say without listing
/// its imports.
///
/// Source: PE Format, "Import Directory Table".
#[derive(Debug, Drop)]
pub struct WalkedLibrary<'a> {
    /// The import descriptor of the library.
    pub import_directory_entry: ImportDirectoryEntry,
    /// The index of the import descriptor in the directory.
    pub index: usize,
    /// The file offset of the import descriptor.
    pub offset: usize,
    /// The name of the library. If none can be read, it is an error in either mode:
    /// [`Error::Malformed`] with [`Cause::Unmapped`] if the address of the name has no file offset,
    /// and with [`Cause::NameRead`] if there is no text.
    pub name: Result<&'a str>,
    /// Whether permissive mode leaves the library out of the imports, because its address table
    /// cannot be read. Strict mode yields the imports of the library, and then refuses it.
    pub is_left_out: bool,
    /// The cursor before the imports of the library.
    pub cursor: ImportCursor,
}

// The name at an address, or why there is none.
fn name_or_cause<'a>(bytes: &'a [u8], rva: u32, finder: &mut Finder<'_>) -> Result<&'a str>
    ensures value { result_map_both (λ s. s.now) (λ e. e) result
        ≡ name_or_cause (map_of finder.old).addressing bytes.now rva }
    ensures same { finder.new ≡ finder.old }
{
    let (part, offset) = finder.part_of_name(bytes, rva);
    let Some(offset) = offset else {
        return Err(Error::Malformed(Cause::Unmapped(rva as usize)));
    };
    match part.text_within(offset, finder.longest_name()) {
        Ok(name) => Ok(name),
        Err(_) => Err(Error::Malformed(Cause::NameRead(offset))),
    }
}

impl ImportCursor {
    /// The cursor before the import descriptor at the file offset `offset`, in a directory whose
    /// first descriptor lies at the file offset `first`. A walk over imports from this cursor on
    /// yields the imports of that library, and then those of the later ones.
    pub fn at_record(first: usize, offset: usize) -> ImportCursor
        ensures is { result ≡ at_record first offset }
        ensures left { (m : MapOfAddresses) (format : Format EntryValue) (bytes : List ℕ)
            → cursor_left m format bytes result
            ≡ imports_from_record (reads_strictly m) format m.addressing bytes first offset }
    {
        ImportCursor {
            first_record: first,
            next_record: Some(offset),
            ..ImportCursor::end()
        }
    }
}

impl WalkedLibrary<'_> {
    /// The cursor in this library. A walk over imports from there yields the imports of this
    /// library, and ends. In permissive mode it yields none if the library is left out.
    ///
    /// The walk does not need the name. If it can't be read, the imports have an empty one, also in
    /// strict mode.
    pub fn inside(&self, finder: &mut Finder<'_>) -> ImportCursor
        ensures is { let m = map_of finder.old in
            result ≡ inside_library (reads_strictly m) m.addressing (library_value self.now) }
        ensures same { finder.new ≡ finder.old }
    {
        if self.is_left_out && !finder.reads_strictly() {
            return ImportCursor::end();
        }
        let entry = &self.import_directory_entry;
        let place = lookup_offset(entry, finder);
        ImportCursor {
            library: self.index,
            name_rva: entry.name_rva,
            rva: entry.import_address_table_rva,
            table_offset: place.unwrap_or(0),
            place,
            pending: Some(address_table_rva(entry)),
            ..ImportCursor::end()
        }
    }
}

/// A walk over the libraries that an image imports from, in the order of their import descriptors.
/// It takes no memory. It yields one library for each descriptor before the first one whose name or
/// address table is at address 0. One library may have several descriptors.
///
/// The walk also yields the libraries whose address table cannot be read, which permissive mode
/// leaves out of the imports; their [`is_left_out`](WalkedLibrary::is_left_out) is true. In strict
/// mode, if the directory reaches the end of the file, the walk ends with one error. In permissive
/// mode it yields no error, and counts these libraries and that end. What it counts and what walks
/// inside of its libraries count is together what one walk over the imports counts.
#[derive(Drop)]
pub struct Libraries<'a, 'm> {
    bytes: &'a [u8],
    finder: Finder<'m>,
    // Whether the tables have entries of four bytes, not of eight.
    is_narrow: bool,
    at: ImportCursor,
    passed: Passed,
}

impl<'a, 'm> Libraries<'a, 'm> {
    /// A walk over the libraries whose import descriptors come next at a cursor. The cursor comes
    /// from [`ImportCursor::first`], from [`Libraries::cursor`], or from a walk over imports. If it
    /// lies in a library, that library does not come again. The tables of the libraries have
    /// entries of four bytes if `is_narrow`, else of eight.
    pub fn at_cursor(
        bytes: &'a [u8],
        at: ImportCursor,
        is_narrow: bool,
        finder: Finder<'m>,
    ) -> Libraries<'a, 'm>
        ensures at { AreLibrariesAt (map_of finder.entry) (entries_by is_narrow) bytes.now at result }
        ensures fresh { libraries_passed result ≡ nothing_passed }
    {
        Libraries {
            bytes,
            finder,
            is_narrow,
            at,
            passed: Passed::nothing(),
        }
    }

    /// Where the walk is: before the import descriptor that comes next. A walk over imports from
    /// this cursor on begins with the imports of that library. One exception: until this walk has
    /// looked at something, its cursor is the one that it was made from, which may lie in an earlier
    /// library. At the end, and after an error, it is [`ImportCursor::end`].
    pub fn cursor(&self) -> ImportCursor
        ensures is { result ≡ libraries_cursor self.now }
        ensures left { libraries_left self.now
            ≡ cursor_libraries (libraries_map self.now) (libraries_format self.now)
            (libraries_bytes self.now) result }
    {
        self.at
    }

    /// What the walk has skipped since it was made: the libraries that permissive mode leaves out,
    /// and the end of a directory that the file cuts short. After an error it is not known.
    pub fn passed(&self) -> Passed
        ensures { result ≡ libraries_passed self.now }
    {
        self.passed
    }

    // Tests a piece of the address table of the next import descriptor, from where the walk has
    // tested it.
    fn test_piece<'e>(&mut self, entry: &ImportDirectoryEntry) -> ResultOf<'e, Option<usize>>
        ensures tests { let format = libraries_format self.old in
            let addressing = (libraries_map self.old).addressing in
            let bytes = libraries_bytes self.old in
            let tested = tested_at (libraries_cursor self.old) in
            let rva = address_table_rva entry.now in
            TestsPiece format bytes (tested_table format addressing tested rva)
            (tested_slots format addressing bytes tested rva) result }
        ensures same { self.new ≡ self.old }
    {
        let tested = match self.at.pending {
            None => self.at.tested,
            Some(_) => None,
        };
        let rva = address_table_rva(entry);
        if self.is_narrow {
            test_table::<u32>(self.bytes, tested, rva, &mut self.finder)
        } else {
            test_table::<u64>(self.bytes, tested, rva, &mut self.finder)
        }
    }

    // The library of the import descriptor at an offset. The walk moves to the next one.
    fn pass(
        &mut self,
        offset: usize,
        next: usize,
        entry: ImportDirectoryEntry,
        is_left_out: bool,
    ) -> WalkedLibrary<'a>
        ensures value { library_value result
            ≡ library_row (libraries_map self.old).addressing (libraries_bytes self.old)
            (libraries_cursor self.old).first_record offset entry is_left_out }
        ensures skipped { let strict = reads_strictly (libraries_map self.old) in
            self.new.passed.skipped
            ≡ risen self.old.passed.skipped (from_bool (not strict && is_left_out)) }
        ensures unmapped { self.new.passed.unmapped ≡ self.old.passed.unmapped }
        ensures moved { let first = (libraries_cursor self.old).first_record in
            self.new ≡ record self.old { at = at_record first next; passed = self.new.passed } }
    {
        let first = self.at.first_record;
        let name = name_or_cause(self.bytes, entry.name_rva, &mut self.finder);
        let strictly = self.finder.reads_strictly();
        self.passed.add_row(strictly, is_left_out);
        self.at = ImportCursor::at_record(first, next);
        WalkedLibrary {
            import_directory_entry: entry,
            index: record_index(first, offset),
            offset,
            name,
            is_left_out,
            cursor: ImportCursor::at_record(first, offset),
        }
    }

    // Takes one look: at a piece of an address table, and with its last piece at the import
    // descriptor. Gives the library there, or none yet. `None` at the end, or if the budget of
    // steps has run out.
    fn look(&mut self, steps: &mut Option<usize>) -> Option<Result<Option<WalkedLibrary<'a>>>>
        ensures moves { MovesWithin self.old steps.old (given_of result) self.new steps.new }
        ensures ended { EndsWithin result (libraries_cursor self.new) (IsOut steps.new) }
        ensures less { IfSome result (λ r. IfOk r (λ _.
            libraries_steps self.old ≡ suc (libraries_steps self.new))) }
    {
        if are_out(steps) {
            return None;
        }
        let Some(offset) = self.at.next_record else {
            self.at = ImportCursor::end();
            return None;
        };
        let size = SIZEOF_IMPORT_DIRECTORY_ENTRY;
        let Some(record) = next_record(self.bytes, offset) else {
            self.at = ImportCursor::end();
            if may_end(self.bytes, offset, size, self.finder.reads_strictly()) {
                self.passed.add_end(self.bytes, offset, size);
                return None;
            }
            spend(steps, 1);
            return Some(Err(Error::Malformed(Cause::ImportRecordEnd(offset))));
        };
        spend(steps, 1);
        let next = offset + size;
        match self.test_piece(&record) {
            Ok(Some(place)) => {
                self.at = ImportCursor {
                    tested: Some(place),
                    ..ImportCursor::at_record(self.at.first_record, offset)
                };
                Some(Ok(None))
            }
            Ok(None) => Some(Ok(Some(self.pass(offset, next, record, false)))),
            Err(_) => Some(Ok(Some(self.pass(offset, next, record, true)))),
        }
    }

    /// The next library within a budget of steps. `steps` is the budget, from which the call takes
    /// what it spends. Each step looks at 64 slots of an address table; the last one of a table
    /// looks at the import descriptor, too.
    ///
    /// `None` means one of two things. If the [`cursor`](Libraries::cursor) is at the end, so is
    /// the walk. Else the budget has run out; call again with a new one to go on.
    pub fn next_within(&mut self, steps: &mut Option<usize>) -> Option<Result<WalkedLibrary<'a>>>
        ensures { GivesLibraryWithin self.old steps.old result self.new steps.new }
    {
        'looks: loop {
            match self.look(steps) {
                Some(Ok(Some(library))) => return Some(Ok(library)),
                Some(Ok(None)) => (),
                Some(Err(error)) => return Some(Err(error)),
                None => return None,
            }
        }
    }
}

impl<'a, 'm> Iterator for Libraries<'a, 'm> {
    type Item = Result<WalkedLibrary<'a>>;

    ghost next_gives = { GivesNextLibrary };

    ghost remaining = { λ it. at_most (libraries_bound it) };

    fn next(&mut self) -> Option<Result<WalkedLibrary<'a>>> {
        self.next_within(&mut None)
    }

    fn size_hint(&self) -> (usize, Option<usize>)
        ensures lower { IsWithinCount result.0 (at_most (libraries_bound self.now)) }
        ensures upper { IfSome result.1 (UpTo (at_most (libraries_bound self.now))) }
        ensures value { result ≡ (0, Some (libraries_bound self.now)) }
    {
        (0, Some(slots_bound(self.bytes, self.at.next_record)))
    }
}

impl<'a, 'm> FusedIterator for Libraries<'a, 'm> {}

impl<'a, 'm> fmt::Debug for Libraries<'a, 'm> {
    fn fmt<W: fmt::Write>(&self, f: &mut fmt::Formatter<W>) -> fmt::Result {
        f.debug_struct("Libraries")
            .field("cursor", &self.at)
            .finish_non_exhaustive()
    }
}
