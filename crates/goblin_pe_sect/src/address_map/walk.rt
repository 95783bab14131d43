//! The walk over the windows of a few sections.

ghost use Rattle.std.specs.Prelude.{◌≡◌, ◌^◌, ◌<◌, IfSome, IsTrue, Some, true};
ghost use Rattle.std.specs.Int.{is_power_of_two};
ghost use Rattle.goblin_pe_sect.specs.{Mapping.file_place, Runs.IsRun, Runs.place_in_run};
ghost use Rattle.goblin_pe_sect.specs.Mapping.{file_end, file_offset, place_by};
ghost use Rattle.goblin_pe_sect.specs.Addresses.{table_end, table_offset, without_null};
ghost use Rattle.goblin_pe_sect.specs.SectionTable.{mapped_of, mapped_sections};

use super::records::MappedRecords;
use super::run::{Place, Run};
use crate::options::Mapping;
use crate::utils::{mapped_end, past_window, raw_begin, section_window};
use goblin_base::MappedEnd;

// All addresses. Each is its own file offset.
const ALL_ADDRESSES: Run = Run {
    first: 0,
    size: 1 << 32,
    offset: 0,
    end: MappedEnd::NONE,
};

// The place of an address, by the first section whose window holds it. Sets `run` to the
// addresses around it that this section owns: those up to the windows of the sections before it in
// the table. (So the walk keeps how near these come to the address, which the search in `utils`
// does not. The address is not a u32, which would be kept in two registers.)
#[inline(always)]
fn find_window(
    records: MappedRecords,
    file_alignment: u32,
    mapping: Mapping,
    rva: usize,
    run: &mut Run,
) -> Option<Place>
    requires maps { IsTrue mapping.resolve_rva }
    requires aligned { IsTrue (is_power_of_two file_alignment) }
    requires small { rva < 2 ^ 32 }
    ensures value { result
        ≡ file_place mapping (mapped_sections records.entry) file_alignment rva }
    ensures is { let sections = mapped_sections records.entry in
        let place_of = file_place mapping sections file_alignment in
        IsRun place_of run.old → IsRun place_of run.new }
    ensures about { IfSome result (λ p. place_in_run run.new rva ≡ Some p) }
{
    let mut low = 0;
    let mut high = usize::MAX;
    let mut rest = records;
    'records: while let Some((section, later)) = rest.split_first() {
        rest = later;
        let past = past_window(&section);
        if past <= rva {
            low = low.max(past);
            continue 'records;
        }
        let (begin, end) = section_window(&section, file_alignment, mapping.view);
        if rva < begin {
            high = high.min(begin);
        } else if end <= rva {
            low = low.max(end);
        } else {
            let pointer = raw_begin(&section, mapping) as usize;
            let first = low.max(begin);
            let mapped = mapped_end(&section, file_alignment, mapping, end - begin);
            let mapped = mapping.view.ends(mapped);
            *run = Run {
                first,
                size: high.min(end) - first,
                offset: pointer + (first - begin),
                end: mapped,
            };
            return Some(Place {
                offset: pointer + (rva - begin),
                end: mapped,
            });
        }
    }
    None
}

// The place of an address, by these sections. If a section owns the address, sets `run` to
// addresses around it, whose offsets then need no walk. If the options say that addresses are
// offsets, sets `run` to all addresses.
#[inline(always)]
#[tactic(auto, unfolding(crate::specs::Mapping::file_offset, crate::specs::Mapping::window_bytes_end))]
pub(crate) fn find_by_sections(
    records: MappedRecords,
    file_alignment: u32,
    mapping: Mapping,
    rva: usize,
    run: &mut Run,
) -> Option<Place>
    requires { rva < 2 ^ 32 }
    ensures value { result
        ≡ file_place mapping (mapped_sections records.entry) file_alignment rva }
    ensures is { let sections = mapped_sections records.entry in
        let place_of = file_place mapping sections file_alignment in
        IsRun place_of run.old → IsRun place_of run.new }
    ensures about { IfSome result (λ p. place_in_run run.new rva ≡ Some p) }
{
    if !mapping.resolve_rva {
        *run = ALL_ADDRESSES;
        return Some(Place {
            offset: rva,
            end: MappedEnd::NONE,
        });
    }
    if !file_alignment.is_power_of_two() {
        return None;
    }
    find_window(records, file_alignment, mapping, rva, run)
}

// As `find_by_sections`, for sections with the file's front, with which address 0 has no offset.
#[inline(never)]
fn find_past_null(
    records: MappedRecords,
    file_alignment: u32,
    mapping: Mapping,
    rva: usize,
    run: &mut Run,
) -> Option<Place>
    requires { rva < 2 ^ 32 }
    ensures value { let sections = mapped_sections records.entry in
        let offset_of = without_null true (file_offset mapping sections file_alignment) in
        result ≡ place_by offset_of (file_end mapping sections file_alignment) rva }
    ensures is { let sections = mapped_sections records.entry in
        let offset_of = without_null true (file_offset mapping sections file_alignment) in
        let place_of = place_by offset_of (file_end mapping sections file_alignment) in
        IsRun place_of run.old → IsRun place_of run.new }
    ensures about { IfSome result (λ p. place_in_run run.new rva ≡ Some p) }
{
    if rva == 0 {
        return None;
    }
    let mut found = Run::default();
    let place = find_by_sections(records, file_alignment, mapping, rva, &mut found)?;
    *run = found.past_null();
    Some(place)
}

/// The place of an address in a table of the file, by these sections and, if it is mapped,
/// the file's front after them. If one of these owns the address, sets `run` to addresses around
/// it, whose offsets then need no walk.
#[inline(always)]
pub(super) fn find_in_records(
    records: MappedRecords,
    file_alignment: u32,
    mapping: Mapping,
    rva: usize,
    run: &mut Run,
) -> Option<Place>
    requires { rva < 2 ^ 32 }
    ensures value { let mapped = mapped_of mapping.view records.entry in
        let offset_of = table_offset mapping mapped file_alignment in
        result ≡ place_by offset_of (table_end mapping mapped file_alignment) rva }
    ensures is { let mapped = mapped_of mapping.view records.entry in
        let offset_of = table_offset mapping mapped file_alignment in
        let place_of = place_by offset_of (table_end mapping mapped file_alignment) in
        IsRun place_of run.old → IsRun place_of run.new }
    ensures about { IfSome result (λ p. place_in_run run.new rva ≡ Some p) }
{
    match records.front {
        Some(_) => find_past_null(records, file_alignment, mapping, rva, run),
        None => find_by_sections(records, file_alignment, mapping, rva, run),
    }
}
