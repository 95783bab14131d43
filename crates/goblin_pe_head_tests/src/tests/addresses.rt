//! The windows of sections, and the pieces of an index of them.

use fixture::sample::{ALIGNMENT, section};
use goblin_pe_sect::added::offset_by_records;
use goblin_pe_sect::address_map::MappedRecords;
use goblin_pe_sect::section_table::SectionRecords;
use goblin_pe_sect::utils::{find_offset, window, window_by};
use goblin_pe_sect::{ParseOptions, RawPointerRule, SectionTable, View, WindowIndex};
use std::alloc::Global;

/// A section by its address, its size in memory, and its data's size and offset in the file.
type Numbers = (u32, u32, u32, u32);

/// A section inside the window of [`WIDE`].
const NARROW: Numbers = (0x1200, 0x200, 0x200, 0x400);

const WIDE: Numbers = (0x1000, 0x800, 0x800, 0x800);

/// A section whose data begins at no multiple of the alignment.
const UNALIGNED: Numbers = (0x1000, 0x100, 0x100, 0x210);

/// A section without data.
const WITHOUT_DATA: Numbers = (0x1F_B000, 0x2_8590, 0, 0);

fn section_of((address, size, data, pointer): Numbers) -> SectionTable {
    section(address, size, data, pointer)
}

/// The window of a section.
fn window_of(numbers: Numbers, alignment: u32) -> Option<(usize, usize)> {
    window(&section_of(numbers), alignment)
}

#[test]
fn a_window_is_as_long_as_its_read_size(rt: HostRuntime) {
    assert!(rt; window_of(UNALIGNED, 0x200) == Some((0x1000, 0x1200)));
    assert!(rt; window_of(WITHOUT_DATA, 0x200) == Some((0x1F_B000, 0x1F_B000)));
    assert!(rt; window_of(UNALIGNED, 0x300) == None);
}

/// The offset of an address in [`UNALIGNED`], if raw pointers are rounded down to 512.
fn rounded(rva: usize, alignment: u32) -> Option<usize> {
    let opts = ParseOptions {
        raw_pointer_rule: RawPointerRule::RoundedTo512,
        ..ParseOptions::default()
    };
    let sections = [section_of(UNALIGNED)];
    find_offset(rva, &sections, alignment, &opts)
}

#[test]
fn raw_pointers_are_rounded_to_512_at_any_alignment(rt: HostRuntime) {
    assert!(rt; rounded(0x1000, 0x100) == Some(0x200));
    assert!(rt; rounded(0x1000, 0x200) == Some(0x200));
    assert!(rt; rounded(0x11FF, 0x200) == Some(0x3FF));
    assert!(rt; rounded(0x1200, 0x200) == None);
}

/// A section whose data begins at a multiple of 16, but not of 512.
const PACKED: Numbers = (0x1000, 0x10, 0x10, 0x390);

/// The window of [`PACKED`] in a view.
fn packed(view: View, alignment: u32) -> Option<(usize, usize)> {
    window_by(&section_of(PACKED), alignment, view)
}

#[test]
fn a_loader_maps_whole_blocks_below_512_alone(rt: HostRuntime) {
    assert!(rt; packed(View::Sections, 0x10) == Some((0x1000, 0x11A0)));
    assert!(rt; packed(View::LoadedSections, 0x10) == Some((0x1000, 0x1010)));
    assert!(rt; packed(View::Loader, 0x100) == Some((0x1000, 0x1100)));
    assert!(rt; packed(View::Loader, 0x200) == Some((0x1000, 0x1200)));
}

/// The headers of [`PACKED`], and of a section of 16 bytes at 0x1010, whose data begins at 0x400.
const HEADERS: &[u8] =
    b"packed\0\0\x10\0\0\0\0\x10\0\0\x10\0\0\0\x90\x03\0\0\0\0\0\0\0\0\0\0\0\0\0\0\0\0\0\0\
    next\0\0\0\0\x10\0\0\0\x10\x10\0\0\x10\0\0\0\0\x04\0\0\0\0\0\0\0\0\0\0\0\0\0\0\0\0\0\0";

/// The offset of the address of the second one.
fn next_offset(view: View) -> Option<usize> {
    let records = SectionRecords::of(HEADERS);
    let mapped = MappedRecords {
        records,
        front: None,
    };
    offset_by_records(mapped, 0x10, view.mapping(&ParseOptions::default()), 0x1010)
}

#[test]
fn windows_of_a_loader_meet(rt: HostRuntime) {
    assert!(rt; next_offset(View::Sections) == Some(0x3A0));
    assert!(rt; next_offset(View::Loader) == Some(0x400));
}

/// How many pieces an index has, an offset, and the most probes to find it.
type Found = (usize, Option<usize>, usize);

/// Whether an index of `pieces` finds the offset `want` in at most `most` probes.
fn is_within(index: &WindowIndex, rva: usize, (pieces, want, most): Found) -> bool {
    let (offset, probes) = index.find_counted(rva);
    index.pieces() == pieces && offset == want && probes <= most
}

/// Whether that is so of an index of these sections.
fn is_found(alloc: Global, sections: &[SectionTable], rva: usize, found: Found) -> bool {
    let index = WindowIndex::prepare(alloc, sections, ALIGNMENT, &ParseOptions::default());
    matches!(&index, Ok(index) if is_within(index, rva, found))
}

/// Whether that is so of an index of two sections.
fn is_found_of_two(alloc: Global, both: [Numbers; 2], rva: usize, found: Found) -> bool {
    let sections = [section_of(both[0]), section_of(both[1])];
    is_found(alloc, &sections, rva, found)
}

/// Addresses of a narrow and a wide section, and their offsets.
const OF_TWO: &[(usize, Option<usize>)] = &[
    (0, None),
    (0xFFF, None),
    (0x1100, Some(0x900)),
    (0x1250, Some(0x450)),
    (0x1500, Some(0xD00)),
    (0x1800, None),
    (usize::MAX, None),
];

#[test]
fn an_index_of_a_window_inside_another_has_five_pieces(rt: HostRuntime) {
    for (rva, want) in OF_TWO {
        let is_found = is_found_of_two(rt.alloc(), [NARROW, WIDE], *rva, (5, *want, 4));
        assert!(rt; is_found, "{rva:#x}");
    }
    assert!(rt; is_found_of_two(rt.alloc(), [WIDE, NARROW], 0x1250, (5, Some(0xA50), 4)));
}

/// Two sections of one window, with data at different offsets.
const LOW: Numbers = (0x1000, 0x200, 0x200, 0x400);

const HIGH: Numbers = (0x1000, 0x200, 0x200, 0x800);

#[test]
fn an_index_of_a_window_that_stands_twice_has_three_pieces(rt: HostRuntime) {
    assert!(rt; is_found_of_two(rt.alloc(), [LOW, HIGH], 0x1010, (3, Some(0x410), 3)));
    assert!(rt; is_found_of_two(rt.alloc(), [HIGH, LOW], 0x1010, (3, Some(0x810), 3)));
}

#[test]
fn an_index_of_no_sections_has_one_piece(rt: HostRuntime) {
    assert!(rt; is_found(rt.alloc(), &[], 0, (1, None, 2)));
}
