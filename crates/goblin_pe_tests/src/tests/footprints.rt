//! Which bytes of a file its readers depend on.

use super::rows::Short;
use super::sample::{are_samples, is_header};
use fixture::sample::{
    ALIGNMENT, EXPORTS, IMPORTS, LOOKUP, SAMPLE_LEN, cut, in_mode, put, sample, sample_section,
    sample_with,
};
use goblin_base::ParseMode;
use goblin_pe::laws::{
    footprint_imports, twin_exports, twin_header, twin_imports, twin_lookup, twin_whole,
};
use goblin_pe_sect::ParseOptions;
use std::alloc::Global;

/// Positions, by where they begin and where they end.
type Span = (usize, usize);

/// What a read of imports reaches in the sample file.
const OF_IMPORTS: &[Span] = &[
    (0x200, 0x228),
    (0x240, 0x24C),
    (0x260, 0x26C),
    (0x280, 0x286),
    (0x290, 0x295),
];

fn is_in(spans: &[Span], place: usize) -> bool {
    for (begin, end) in spans {
        if *begin <= place && place < *end {
            return true;
        }
    }
    false
}

/// More bytes than a file here has.
const MOST: usize = 0x401;

/// Whether both hold the same positions.
fn are_the_same(spans: &[Span], want: &[Span]) -> bool {
    for place in 0..MOST {
        if is_in(spans, place) != is_in(want, place) {
            return false;
        }
    }
    true
}

fn are_lookups<'a>(alloc: Global, a: &'a [u8], b: &'a [u8]) -> bool {
    let sections = [sample_section()];
    let opts = ParseOptions::default();
    are_samples(twin_lookup::<u32>(alloc, a, b, LOOKUP, &sections, ALIGNMENT, &opts))
}

fn are_imports<'a>(alloc: Global, a: &'a [u8], b: &'a [u8]) -> bool {
    let sections = [sample_section()];
    let opts = ParseOptions::default();
    are_samples(twin_imports::<u32>(alloc, a, b, IMPORTS, &sections, ALIGNMENT, &opts))
}

fn are_exports<'a>(alloc: Global, a: &'a [u8], b: &'a [u8]) -> bool {
    let sections = [sample_section()];
    let opts = ParseOptions::default();
    are_samples(twin_exports(alloc, a, b, EXPORTS, &sections, ALIGNMENT, &opts))
}

fn are_headers(a: &[u8], b: &[u8]) -> bool {
    let headers = twin_header(a, b, &ParseOptions::default());
    matches!(&headers, (Ok(first), Ok(second)) if first == second && is_header(first))
}

fn are_whole<'a>(alloc: Global, a: &'a [u8], b: &'a [u8]) -> bool {
    are_samples(twin_whole(alloc, a, b, &ParseOptions::default()))
}

#[test]
fn files_that_agree_where_it_counts_are_read_alike(rt: HostRuntime) {
    // No reader depends on the last byte.
    let (a, b) = (sample(), sample_with(SAMPLE_LEN - 1, b"\xFF"));
    assert!(rt; are_lookups(rt.alloc(), &a, &b));
    assert!(rt; are_imports(rt.alloc(), &a, &b));
    assert!(rt; are_exports(rt.alloc(), &a, &b));
    assert!(rt; are_headers(&a, &b));
    assert!(rt; are_whole(rt.alloc(), &a, &b));
}

/// Whether these positions are listed of the imports of a file in a mode.
fn are_listed_in(alloc: Global, file: &[u8], mode: ParseMode, want: &[Span]) -> bool {
    let sections = [sample_section()];
    let opts = in_mode(mode);
    let spans = footprint_imports::<u32>(alloc, file, IMPORTS, &sections, ALIGNMENT, &opts);
    matches!(&spans, Ok(spans) if are_the_same(spans, want))
}

/// Whether they are in both modes.
fn are_listed(alloc: Global, file: &[u8], want: &[Span]) -> bool {
    are_listed_in(alloc, file, ParseMode::Strict, want)
        && are_listed_in(alloc, file, ParseMode::Permissive, want)
}

#[test]
fn the_footprint_of_imports_is_listed(rt: HostRuntime) {
    assert!(rt; are_listed(rt.alloc(), &sample(), OF_IMPORTS));
}

/// What is reached if the import directory is the lookup table, too.
const OF_ANOTHER_LOOKUP: &[Span] = &[(0x200, 0x228), (0x260, 0x26C), (0x280, 0x286)];

/// What is reached of the first bytes of the sample file, up to the end of an entry of its lookup
/// table and up to the byte before: the records of the import directory, and the slots of the
/// lookup table that are whole.
const OF_CUT: &[Span] = &[(0x200, 0x228), (0x240, 0x248)];

const OF_CUT_ENTRY: &[Span] = &[(0x200, 0x228), (0x240, 0x244)];

/// What is reached of a file of 0x400 bytes, whose bytes from 0x292 on are the letter A.
const OF_LETTERS: &[Span] = &[
    (0x200, 0x228),
    (0x240, 0x24C),
    (0x260, 0x26C),
    (0x280, 0x286),
    (0x290, 0x400),
];

#[test]
fn a_lookup_table_in_the_import_directory_is_reached(rt: HostRuntime) {
    let file = sample_with(0x200, b"\0\x10\0\0");
    assert!(rt; are_listed(rt.alloc(), &file, OF_ANOTHER_LOOKUP));
}

#[test]
fn a_file_that_ends_in_a_lookup_table_is_reached(rt: HostRuntime) {
    let file = sample();
    assert!(rt; are_listed(rt.alloc(), cut(&file, 0x248), OF_CUT));
    assert!(rt; are_listed(rt.alloc(), cut(&file, 0x247), OF_CUT_ENTRY));
}

#[test]
fn a_text_without_a_nul_is_reached_to_the_end(rt: HostRuntime) {
    // The sample file with the letter A from 0x292 on, 0x400 bytes in all.
    let mut file = [b'A'; 0x400];
    put(&mut file, 0, cut(&sample(), 0x292));
    assert!(rt; are_listed(rt.alloc(), &file, OF_LETTERS));
}

/// Whether the footprint of imports by entries of two bytes has the lookup table's four bytes, and
/// not the one after them.
fn has_short_lookup_alone(alloc: Global, file: &[u8]) -> bool {
    let sections = [sample_section()];
    let opts = ParseOptions::default();
    let spans = footprint_imports::<Short>(alloc, file, IMPORTS, &sections, ALIGNMENT, &opts);
    matches!(&spans, Ok(spans) if is_in(spans, 0x243) && !is_in(spans, 0x244))
}

#[test]
fn the_footprint_of_imports_goes_by_the_entry_type(rt: HostRuntime) {
    assert!(rt; has_short_lookup_alone(rt.alloc(), &sample()));
}
