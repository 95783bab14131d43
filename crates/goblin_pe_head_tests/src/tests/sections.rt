//! Section records with their highest bytes first, and raw data that overlaps.

use fixture::sample::section;
use goblin_base::Endian;
use goblin_pe_sect::SectionTable;

#[test]
fn a_section_is_written_with_its_highest_bytes_first(rt: HostRuntime) {
    let section = SectionTable {
        name: *b".rdata\0\0",
        pointer_to_relocations: 0x1112_1314,
        pointer_to_linenumbers: 0x1516_1718,
        number_of_relocations: 0x191A,
        number_of_linenumbers: 0x1B1C,
        characteristics: 0x1D1E_1F20,
        ..section(0x0506_0708, 0x0102_0304, 0x090A_0B0C, 0x0D0E_0F10)
    };
    let want: &[u8; 40] = b".rdata\0\0\x01\x02\x03\x04\x05\x06\x07\x08\x09\x0A\x0B\x0C\
        \x0D\x0E\x0F\x10\x11\x12\x13\x14\x15\x16\x17\x18\x19\x1A\x1B\x1C\x1D\x1E\x1F\x20";
    let mut room = [0; 40];
    assert!(rt; matches!(section.try_into_ctx(&mut room, Endian::Big), Ok(40)) && room == *want);
}

/// Raw data, by its offset and size.
type Place = (u32, u32);

/// Whether raw data overlaps, as the section with the first of them says.
fn overlap(first: Place, second: Place) -> bool {
    section(0, 0, first.1, first.0).overlaps_with(&section(0, 0, second.1, second.0))
}

/// Raw data, other raw data, and whether these overlap, as either section says.
const PLACES: &[(Place, Place, bool)] = &[
    ((5, 0), (0, 10), true),
    ((5, 0), (5, 0), false),
    ((0, 10), (10, 5), false),
];

#[test]
fn raw_data_overlaps_where_neither_ends_before_the_other(rt: HostRuntime) {
    for (first, second, want) in PLACES {
        let is_right = overlap(*first, *second) == *want && overlap(*second, *first) == *want;
        assert!(rt; is_right, "{first:?} {second:?}");
    }
}
