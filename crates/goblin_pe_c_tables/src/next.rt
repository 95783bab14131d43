//! Imports and exports in batches.

ghost use Rattle.std.specs.Prelude.{◌≡◌, ◌⊎◌, ◌+◌, ◌<◌, ◌≤◌, MatchResult, length, max, min};
ghost use Rattle.goblin_base.specs.Reading.{Reads};
ghost use Rattle.goblin_pe.specs.added.Layouts.{file_ahead, IsFileImportsCause, file_imports_left};
ghost use Rattle.goblin_pe.specs.added.Layouts.{layout_map, layout_bytes, layout_places};
ghost use Rattle.goblin_pe.specs.added.Layouts.{file_passed};
ghost use Rattle.goblin_pe_import.specs.Passed.{nothing_passed};
ghost use Rattle.goblin_pe_export.specs.added.ExportWalks.{KeepsOver, exports_left};
ghost use Rattle.goblin_pe_export.specs.added.ExportWalks.{exports_position, pointer_count};
ghost use Rattle.goblin_pe_c_tables.specs.Batches.{Fills, GivesExports, GivesImports, GivesInFile};
ghost use Rattle.goblin_pe_c_tables.specs.Batches.{GoesOn, IsExportBatchFault, IsImportsFault};
ghost use Rattle.goblin_pe_c_tables.specs.Batches.{cursor_for_c, cursor_from_c, is_over};
ghost use Rattle.goblin_pe_c_headers.specs.Onward.{batch_at, FillsFrom, IsRefusedNext, unrefused};
ghost use Rattle.goblin_pe_c_tables.specs.Batches.{exports_table, import_cursor, passed_batch};
ghost use Rattle.goblin_pe_c_tables.specs.Imports.{GivesHere};

use crate::batch::{Batched, at_room, skip_table};
use crate::export::{PeExport, export_record, put_export};
use crate::forwarder::no_forwarder;
use crate::import::{PeImport, put_import};
use goblin_pe::added::{Exports, FileImports, ImportCursor, Imports, Layout, Passed};
use goblin_pe::import::Bitfield;
use goblin_pe::{Part, ResultOf};
use goblin_pe_c_headers::batch::{PeBatch, batch_of};

/// Where a walk over imports or libraries is. Zeros begin it. The other numbers are internal: copy
/// and compare them, but make none.
#[repr(C)]
#[derive(Copy, Clone)]
pub struct PeImportCursor {
    /// The file offset of the directory's first entry, from which entries are counted.
    pub first_record: usize,
    /// The file offset of the entry that comes after the library, if there is one.
    pub next_record: usize,
    /// The index of the library's entry.
    pub library: usize,
    /// The file offset of its lookup table.
    pub table_offset: usize,
    /// The file offset of the next entry of that table, in a library.
    pub place: usize,
    /// The file offset of the next entry to test, where a part of an address table has been tested.
    pub tested: usize,
    /// The RVA of the library's name.
    pub name_rva: u32,
    /// The RVA of its address table.
    pub rva: u32,
    /// The RVA of its address table, if that is to be tested after its entries.
    pub address_table: u32,
    /// Whether the walk has begun; else the other fields are not looked at.
    pub is_begun: bool,
    /// Whether an entry comes after the library.
    pub has_next: bool,
    /// Whether it is in a library.
    pub has_place: bool,
    /// Whether the address table is to be tested.
    pub has_address_table: bool,
    /// Whether a part of an address table has been tested.
    pub has_tested: bool,
    pub reserved: [u8; 7],
}

// The cursor that these numbers say.
fn cursor_from_c(position: &PeImportCursor) -> ImportCursor
    ensures { result ≡ cursor_from_c position.now }
{
    let at = *position;
    ImportCursor {
        first_record: at.first_record,
        next_record: at.has_next.then_some(at.next_record),
        library: at.library,
        name_rva: at.name_rva,
        rva: at.rva,
        table_offset: at.table_offset,
        place: at.has_place.then_some(at.place),
        pending: at.has_address_table.then_some(at.address_table),
        tested: at.has_tested.then_some(at.tested),
    }
}

// The numbers of a cursor.
pub(crate) fn cursor_for_c(at: ImportCursor) -> PeImportCursor
    ensures { result ≡ cursor_for_c at }
{
    PeImportCursor {
        first_record: at.first_record,
        next_record: at.next_record.unwrap_or(0),
        library: at.library,
        table_offset: at.table_offset,
        place: at.place.unwrap_or(0),
        tested: at.tested.unwrap_or(0),
        name_rva: at.name_rva,
        rva: at.rva,
        address_table: at.pending.unwrap_or(0),
        is_begun: true,
        has_next: at.next_record.is_some(),
        has_place: at.place.is_some(),
        has_address_table: at.pending.is_some(),
        has_tested: at.tested.is_some(),
        reserved: [0; 7],
    }
}

// The cursor at a position.
pub(crate) fn cursor_at<'e>(
    layout: &Layout,
    position: &PeImportCursor,
) -> ResultOf<'e, ImportCursor>
    ensures { let m = layout_map layout.now in
        Reads (λ c. c) result (import_cursor m (layout_places layout.now) position.now)
        (layout_bytes layout.now) }
{
    if position.is_begun {
        return Ok(cursor_from_c(position));
    }
    layout.imports_begin()
}

// Whether nothing comes at a cursor.
pub(crate) fn is_over(at: &ImportCursor) -> bool
    ensures { result ≡ is_over at.now }
{
    at.place.is_none() && at.next_record.is_none() && at.pending.is_none()
}

// How far so many steps from `first` on lead, at most to `end`.
fn end_within(end: usize, first: usize, steps: usize) -> usize
    ensures within { result ≤ end }
    ensures limit { result ≤ first + steps }
    ensures whole { (result ≡ end) ⊎ (result ≡ first + steps) }
{
    end.min(first.saturating_add(steps))
}

// Fills records from `first` on with the ASCII imports that come next in the library of the walk,
// up to `end`, and returns the index after the last one filled. It is not inlined, so that its loop
// shares no registers with its caller's.
#[inline(never)]
fn fill_here<'a, 'm, 'e, T: Bitfield<'a>>(
    bytes: &'a [u8],
    imports: &mut Imports<'a, 'm, 'e, T>,
    records: &mut [PeImport<'a>],
    first: usize,
    end: usize,
    longest: Option<u32>,
) -> usize
    requires { end ≤ length records.old }
    ensures filled { GivesHere T.format imports.old imports.new
        (Fills longest records.old records.new first result) }
    ensures further { first ≤ result }
    ensures within { first ≤ end → result ≤ end }
{
    let Some(mut ascii) = imports.ascii() else {
        return first;
    };
    let mut count = first;
    'ascii: while count < end {
        let Some(import) = ascii.next_import() else {
            break 'ascii;
        };
        put_import(&mut records[count], bytes, &import, longest);
        count += 1;
    }
    imports.go_on(&ascii);
    count
}

// As `fill_here`, by the width of the file's entries, within the steps that are left. Where there
// is no room, nothing is made ready for what comes next.
#[inline(always)]
fn fill_library<'a, 'm, 'e>(
    bytes: &'a [u8],
    imports: &mut FileImports<'a, 'm, 'e>,
    records: &mut [PeImport<'a>],
    first: usize,
    left: &mut usize,
    longest: Option<u32>,
) -> usize
    ensures filled { GivesInFile imports.old imports.new
        (Fills longest records.old records.new first result) }
    ensures further { first ≤ result }
    ensures counted { file_ahead imports.old + left.new ≡ file_ahead imports.new + left.old }
{
    if records.len() <= first {
        return first;
    }
    let end = end_within(records.len(), first, *left);
    let count = match imports {
        FileImports::Narrow(imports) => fill_here(bytes, imports, records, first, end, longest),
        FileImports::Wide(imports) => fill_here(bytes, imports, records, first, end, longest),
    };
    *left -= count - first;
    count
}

// How many bytes of a name are read, if there is a limit.
pub(crate) fn longest_in(layout: &Layout) -> Option<u32>
    ensures { result ≡ (layout_map layout.now).addressing.longest }
{
    layout.finder().longest_name()
}

// The batch of a walk that has passed over so much.
#[inline(always)]
pub(crate) fn passed_batch(count: usize, passed: Passed, is_done: bool) -> PeBatch
    ensures { result ≡ passed_batch count passed is_done }
{
    batch_of(count, passed.skipped, passed.unmapped, is_done)
}

// Fills records with the imports that come next, as far as room and steps reach, and answers what
// it did and how many steps are left. What was looked at before a refusal does not count.
fn fill_imports<'a, 'm, 'e>(
    layout: &Layout<'a>,
    mut imports: FileImports<'a, 'm, 'e>,
    position: &mut PeImportCursor,
    steps: usize,
    records: &mut [PeImport<'a>],
) -> ResultOf<'e, (PeBatch, usize)>
    requires goes { let m = layout_map layout.now in
        GoesOn m (layout_places layout.now) (layout_bytes layout.now) position.old imports }
    requires fresh { file_passed imports ≡ nothing_passed }
    ensures { let m = layout_map layout.now in
        let places = layout_places layout.now in
        let bytes = layout_bytes layout.now in
        let old = batch_at position.old records.old in
        let new = batch_at position.new records.new in
        MatchResult result (λ r. GivesImports steps r.1 m places bytes old new r.0)
        (λ e. IsRefusedNext (file_imports_left imports.entry)
        × IsFileImportsCause imports.entry e × (0 < length old.records) × (new ≡ old)) }
{
    let bytes = layout.bytes();
    let longest = longest_in(layout);
    let mut left = steps;
    let mut passed = imports.passed();
    let mut count = 0;
    'imports: while count < records.len() {
        let mut limit = Some(left);
        match imports.next_within(&mut limit) {
            Some(Ok(import)) => {
                put_import(&mut records[count], bytes, &import, longest);
                left = limit.unwrap_or(0);
                passed = imports.passed();
                count = fill_library(bytes, &mut imports, records, count + 1, &mut left, longest);
                *position = cursor_for_c(imports.cursor());
            }
            Some(Err(error)) if count == 0 => return Err(error),
            Some(Err(_)) => {
                return Ok((passed_batch(count, passed, false), left));
            }
            None => {
                let at = imports.cursor();
                *position = cursor_for_c(at);
                let batch = passed_batch(count, imports.passed(), is_over(&at));
                return Ok((batch, limit.unwrap_or(0)));
            }
        }
    }
    Ok((passed_batch(count, passed, false), left))
}

impl<'a> Batched<'a> for PeImport<'a> {
    type Position = PeImportCursor;

    ghost gives = { GivesImports };

    ghost is_fault = { IsImportsFault };

    fn next<'e>(
        layout: &Layout<'a>,
        position: &mut PeImportCursor,
        steps: &mut usize,
        records: &mut [PeImport<'a>],
    ) -> ResultOf<'e, PeBatch> {
        let at = cursor_at(layout, position)?;
        let (batch, left) = fill_imports(layout, layout.imports_at(at), position, *steps, records)?;
        *steps = left;
        Ok(batch)
    }
}

// Fills records with the exports that come next of the name pointers before `end`, as far as there
// is room, and answers how many. Those that `next_ascii` gives come by a loop of their own, in
// which all goes in line, and each record is a step.
fn fill_exports<'a, 'm>(
    bytes: &'a [u8],
    exports: &mut Exports<'a, 'm>,
    end: usize,
    records: &mut [PeExport<'a>],
    longest: Option<u32>,
) -> usize
    ensures filled { let old = batch_at exports.old records.old in
        let new = batch_at exports.new records.new in
        FillsFrom (exports_table longest exports_left)
        ((end < pointer_count exports.old) × (end ≤ exports_position exports.new))
        (unrefused (exports_left exports.old)) old new result }
    ensures over { KeepsOver exports.old exports.new }
    ensures further { exports_position exports.old ≤ exports_position exports.new }
    ensures within { exports_position exports.new ≤ max (exports_position exports.old) end }
    ensures through { (length records.old ≤ result)
        ⊎ (min end (pointer_count exports.old) ≤ exports_position exports.new) }
{
    let mut count = 0;
    'exports: while count < records.len() {
        let Some(export) = exports.next_before(end) else {
            return count;
        };
        put_export(&mut records[count], bytes, &export, longest);
        count += 1;
        // (By the type's name, since iterators have a `position`, too.)
        let left = end.saturating_sub(Exports::position(exports));
        let stop = end_within(records.len(), count, left);
        'ascii: while count < stop {
            let Some(export) = exports.next_ascii() else {
                break;
            };
            records[count] = export_record(bytes, &export, no_forwarder(bytes), longest);
            count += 1;
        }
    }
    count
}

impl<'a> Batched<'a> for PeExport<'a> {
    type Position = usize;

    ghost gives = { GivesExports };

    ghost is_fault = { IsExportBatchFault };

    fn next<'e>(
        layout: &Layout<'a>,
        position: &mut usize,
        steps: &mut usize,
        records: &mut [PeExport<'a>],
    ) -> ResultOf<'e, PeBatch> {
        match layout.exports()? {
            Part::Read(exports) => {
                let room = records.len();
                let mut exports = exports.from_position(*position);
                let pointers = exports.pointer_count();
                let allowed = *steps;
                let end = end_within(pointers, *position, allowed);
                let longest = longest_in(layout);
                let count = fill_exports(layout.bytes(), &mut exports, end, records, longest);
                let next = exports.position();
                let looked = next.saturating_sub(*position);
                let left = allowed.saturating_sub(looked);
                let unmapped = looked.saturating_sub(count);
                *steps = left;
                *position = next;
                Ok(at_room(room, count, unmapped, pointers <= next))
            }
            Part::Absent => Ok(at_room(records.len(), 0, 0, true)),
            Part::Refused => Ok(skip_table(position, records.len())),
        }
    }
}
