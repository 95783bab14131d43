//! The records of libraries, in batches.

ghost use Rattle.std.specs.Prelude.{◌≡◌, ◌<◌, MatchResult, Some, length};
ghost use Rattle.goblin_pe_sect.specs.Addresses.{map_of};
ghost use Rattle.goblin_pe.specs.added.Layouts.{layout_bytes, layout_map, layout_places};
ghost use Rattle.goblin_pe_import.specs.added.Libraries.{AreLibrariesOver, IsLibrariesCause};
ghost use Rattle.goblin_pe_import.specs.added.Libraries.{libraries_cursor, libraries_left};
ghost use Rattle.goblin_pe_import.specs.added.Libraries.{libraries_passed, library_value};
ghost use Rattle.goblin_pe_import.specs.Passed.{nothing_passed};
ghost use Rattle.goblin_pe_c_tables.specs.Batches.{import_cursor};
ghost use Rattle.goblin_pe.specs.Whole.{entry_format};
ghost use Rattle.goblin_pe_c_headers.specs.Onward.{batch_at, IsRefusedNext};
ghost use Rattle.goblin_pe_c_tables.specs.Libraries.{GivesLibraries, IsLibrariesFault};
ghost use Rattle.goblin_pe_c_tables.specs.Libraries.{library_for_c, library_model};

use crate::batch::Batched;
use crate::next::{PeImportCursor, cursor_at, cursor_for_c, passed_batch};
use goblin_pe::added::{ImportCursor, Layout, Libraries, WalkedLibrary};
use goblin_pe::import::ImportDirectoryEntry;
use goblin_pe::{Result, ResultOf};
use goblin_pe_c_headers::batch::PeBatch;
use goblin_pe_c_headers::fault::{PeFault, fault_of, no_fault};
use goblin_pe_c_headers::name::cut_name;
use goblin_pe_sect::address_map::Finder;

/// A DLL that the image imports from: an entry of the import directory. A DLL may have several.
#[repr(C)]
#[derive(Copy, Clone)]
pub struct PeLibrary<'a> {
    /// The name; empty if `name_fault` says why it can't be read.
    pub name: &'a [u8],
    /// Why the name can't be read.
    pub name_fault: PeFault,
    /// The index of the entry in the import directory.
    pub index: usize,
    /// The file offset of the entry.
    pub offset: usize,
    /// Where its imports begin. From here a walk over imports gives only these. It does not need
    /// the name: if it can't be read, the imports have an empty one, also in strict mode.
    pub imports: PeImportCursor,
    /// The entry, as stored.
    pub record: ImportDirectoryEntry,
    /// Whether permissive mode skips it, as it has no address table. Strict mode refuses the
    /// imports.
    pub is_skipped: bool,
    /// Whether the name is cut.
    pub is_name_cut: bool,
    /// Zeros.
    pub reserved: [u8; 2],
}

// The record of a library of these bytes.
fn library_record<'a>(
    bytes: &'a [u8],
    library: &WalkedLibrary<'a>,
    finder: &mut Finder<'_>,
) -> PeLibrary<'a>
    ensures value { library_model result
        ≡ library_for_c (map_of finder.old) (library_value library.now) }
    ensures same { finder.new ≡ finder.old }
{
    let (name, name_fault) = match &library.name {
        Ok(name) => (name.as_bytes(), no_fault()),
        Err(error) => (&bytes[..0], fault_of(error)),
    };
    let (name, is_name_cut) = cut_name(name, finder.longest_name());
    PeLibrary {
        name,
        name_fault,
        index: library.index,
        offset: library.offset,
        imports: cursor_for_c(library.inside(finder)),
        record: library.import_directory_entry,
        is_skipped: library.is_left_out,
        is_name_cut,
        reserved: [0; 2],
    }
}

// Fills records with the libraries that come next, as far as room and steps reach, and answers what
// it did and how many steps are left. What was looked at before a refusal does not count.
fn fill_libraries<'a>(
    layout: &Layout<'a>,
    mut libraries: Libraries<'a, '_>,
    position: &mut PeImportCursor,
    steps: usize,
    records: &mut [PeLibrary<'a>],
) -> Result<(PeBatch, usize)>
    requires over { let m = layout_map layout.now in
        AreLibrariesOver m (entry_format (layout_places layout.now).magic) (layout_bytes layout.now)
        libraries }
    requires at { let m = layout_map layout.now in
        (import_cursor m (layout_places layout.now) position.old).value (layout_bytes layout.now)
        ≡ Some (libraries_cursor libraries) }
    requires fresh { libraries_passed libraries ≡ nothing_passed }
    ensures { let m = layout_map layout.now in
        let old = batch_at position.old records.old in
        let new = batch_at position.new records.new in
        let places = layout_places layout.now in
        let bytes = layout_bytes layout.now in
        MatchResult result (λ r. GivesLibraries steps r.1 m places bytes old new r.0)
        (λ e. IsRefusedNext (libraries_left libraries.entry) × IsLibrariesCause libraries.entry e
        × (0 < length old.records) × (new ≡ old)) }
{
    let mut finder = layout.finder();
    let mut left = steps;
    let mut passed = libraries.passed();
    let mut count = 0;
    'libraries: while count < records.len() {
        let mut limit = Some(left);
        match libraries.next_within(&mut limit) {
            Some(Ok(library)) => {
                records[count] = library_record(layout.bytes(), &library, &mut finder);
                *position = cursor_for_c(libraries.cursor());
                left = limit.unwrap_or(0);
                passed = libraries.passed();
                count += 1;
            }
            Some(Err(error)) if count == 0 => return Err(error),
            Some(Err(_)) => {
                return Ok((passed_batch(count, passed, false), left));
            }
            None => {
                let at = libraries.cursor();
                let left = limit.unwrap_or(0);
                if at.next_record.is_none() {
                    *position = cursor_for_c(ImportCursor::end());
                    return Ok((passed_batch(count, libraries.passed(), true), left));
                }
                *position = cursor_for_c(at);
                return Ok((passed_batch(count, libraries.passed(), false), left));
            }
        }
    }
    Ok((passed_batch(count, passed, false), left))
}

impl<'a> Batched<'a> for PeLibrary<'a> {
    type Position = PeImportCursor;

    ghost gives = { GivesLibraries };

    ghost is_fault = { IsLibrariesFault };

    fn next<'e>(
        layout: &Layout<'a>,
        position: &mut PeImportCursor,
        steps: &mut usize,
        records: &mut [PeLibrary<'a>],
    ) -> ResultOf<'e, PeBatch> {
        let at = cursor_at(layout, position)?;
        let libraries = layout.libraries_at(at);
        match fill_libraries(layout, libraries, position, *steps, records) {
            Ok((batch, left)) => {
                *steps = left;
                Ok(batch)
            }
            Err(error) => Err(error),
        }
    }
}
