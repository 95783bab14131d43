//! Numbers, slices and texts at an offset, string tables, and what the modes make of a refusal.

use fixture::sample::{is_err, is_ok};
use goblin_base::{
    Endian, Error, ParseMode, Permissive, ReadFault, Result, Strtab, gread_slice, gread_str,
    gread_str_until, gread_u16, gread_u32, gread_u64, pread_str, pread_str_until, pread_u16,
    pread_u32, pread_u64, pwrite_slice, pwrite_u16, pwrite_u32, pwrite_u64,
};
use std::alloc::Global;

/// Bytes by which each order of a number shows.
const BYTES: [u8; 8] = [1, 2, 3, 4, 5, 6, 7, 8];

/// The first two, four and eight of those bytes, one after the other.
const IN_TURN: [u8; 14] = [1, 2, 1, 2, 3, 4, 1, 2, 3, 4, 5, 6, 7, 8];

/// Their numbers in each order.
const NUMBERS: [(Endian, u16, u32, u64); 2] = [
    (Endian::Little, 0x0201, 0x0403_0201, 0x0807_0605_0403_0201),
    (Endian::Big, 0x0102, 0x0102_0304, 0x0102_0304_0506_0708),
];

fn are_read(endian: Endian, of_two: u16, of_four: u32, of_eight: u64) -> bool {
    is_ok(pread_u16(&BYTES, 0, endian), &of_two)
        && is_ok(pread_u32(&BYTES, 0, endian), &of_four)
        && is_ok(pread_u64(&BYTES, 0, endian), &of_eight)
}

fn are_read_in_turn(endian: Endian, of_two: u16, of_four: u32, of_eight: u64) -> bool {
    let mut offset = 0;
    is_ok(gread_u16(&IN_TURN, &mut offset, endian), &of_two)
        && is_ok(gread_u32(&IN_TURN, &mut offset, endian), &of_four)
        && is_ok(gread_u64(&IN_TURN, &mut offset, endian), &of_eight)
        && offset == IN_TURN.len()
}

fn are_written(endian: Endian, of_two: u16, of_four: u32, of_eight: u64) -> bool {
    let mut room = [0; 14];
    pwrite_u16(&mut room, 0, of_two, endian).is_ok()
        && pwrite_u32(&mut room, 2, of_four, endian).is_ok()
        && pwrite_u64(&mut room, 6, of_eight, endian).is_ok()
        && room == IN_TURN
}

#[test]
fn numbers_of_each_width_are_read_and_written_in_both_orders(rt: HostRuntime) {
    for (endian, of_two, of_four, of_eight) in NUMBERS {
        let is_right = are_read(endian, of_two, of_four, of_eight)
            && are_read_in_turn(endian, of_two, of_four, of_eight)
            && are_written(endian, of_two, of_four, of_eight);
        assert!(rt; is_right, "{endian:?}");
    }
}

/// Whether `len` bytes at an offset are refused for this fault, read and written, and nothing moves
/// or changes.
fn are_refused(begin: usize, len: usize, want: &Error) -> bool {
    let (mut offset, mut room) = (begin, BYTES);
    let bytes = IN_TURN.get(..len).unwrap_or(&IN_TURN);
    is_err(gread_slice(&BYTES, &mut offset, len), want)
        && is_err(pwrite_slice(&mut room, begin, bytes), want)
        && offset == begin
        && room == BYTES
}

/// Where bytes begin and how many they are, and why they are refused.
const PAST_THE_END: &[(usize, usize, Error)] = &[
    (8, 0, Error::Read(ReadFault::BadOffset)),
    (8, 2, Error::Read(ReadFault::BadOffset)),
    (7, 2, Error::Read(ReadFault::TooBig)),
    (usize::MAX, 2, Error::Read(ReadFault::BadOffset)),
    (1, usize::MAX, Error::Read(ReadFault::TooBig)),
];

#[test]
fn what_passes_the_end_is_refused_and_so_is_nothing_at_the_end(rt: HostRuntime) {
    for (begin, len, want) in PAST_THE_END {
        assert!(rt; are_refused(*begin, *len, want), "{len} bytes at {begin}");
    }
}

/// Two texts; the second has no NUL after it.
const TEXTS: &[u8; 4] = b"ab\0c";

/// Whether the text at an offset is this, and the offset moves to `end`.
fn is_text(begin: usize, want: &str, end: usize) -> bool {
    let mut offset = begin;
    is_ok(pread_str(TEXTS, begin), &want)
        && is_ok(gread_str(TEXTS, &mut offset), &want)
        && offset == end
}

#[test]
fn a_text_ends_at_a_nul_or_with_the_bytes(rt: HostRuntime) {
    assert!(rt; is_text(0, "ab", 3));
    assert!(rt; is_text(2, "", 3));
    assert!(rt; is_text(3, "c", 4));
}

/// Whether the text within `len` bytes at the front is this, and the offset moves to `end`.
fn is_bounded_text(len: usize, want: &str, end: usize) -> bool {
    let mut offset = 0;
    is_ok(pread_str_until(TEXTS, 0, len), &want)
        && is_ok(gread_str_until(TEXTS, &mut offset, len), &want)
        && offset == end
}

#[test]
fn a_text_ends_at_its_bound(rt: HostRuntime) {
    assert!(rt; is_bounded_text(0, "", 0));
    assert!(rt; is_bounded_text(2, "ab", 2));
    assert!(rt; is_bounded_text(3, "ab", 3));
    assert!(rt; is_bounded_text(4, "ab", 3));
}

/// Whether a string table has these texts at the offsets from the first on.
fn has_strings(table: &Strtab, strings: &[Option<&str>]) -> bool {
    for (offset, want) in strings.iter().enumerate() {
        if table.get_at(offset) != *want {
            return false;
        }
    }
    true
}

/// Whether the table of all these bytes has these strings.
fn are_strings(alloc: Global, bytes: &[u8], strings: &[Option<&str>]) -> bool {
    let table = Strtab::parse(alloc, bytes, 0, bytes.len(), 0);
    matches!(&table, Ok(table) if has_strings(table, strings))
}

/// The strings of a table of two texts, and of one of a single text, by offset.
const OF_TWO: &[Option<&str>] = &[Some("ab"), Some("b"), Some(""), Some("c"), Some(""), None];

const OF_ONE: &[Option<&str>] = &[Some("a"), Some(""), None];

#[test]
fn a_string_is_what_is_left_of_its_piece(rt: HostRuntime) {
    assert!(rt; are_strings(rt.alloc(), b"ab\0c", OF_TWO));
    assert!(rt; are_strings(rt.alloc(), b"a\0", OF_ONE));
}

fn refused() -> Result<u8> {
    Err(Error::Read(ReadFault::BadOffset))
}

#[test]
fn permissive_mode_passes_over_a_refusal(rt: HostRuntime) {
    let permissive = ParseMode::Permissive.is_permissive();
    let default = refused().or_permissive_and_default(permissive, "a byte");
    assert!(rt; is_ok(default, &0));
    let value = refused().or_permissive_and_value(permissive, "a byte", 7);
    assert!(rt; is_ok(value, &7));
    let computed = refused().or_permissive_and_then(permissive, "a byte", || 9);
    assert!(rt; is_ok(computed, &9));
}
