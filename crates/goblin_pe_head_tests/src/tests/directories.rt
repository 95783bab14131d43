//! The data directories of an optional header.

use fixture::sample::{directory, is_ok};
use goblin_base::{Endian, gread_with, pread_with};
use goblin_pe_sect::{DataDirectories, DataDirectory, DataDirectoryType};

/// The directories of a small program: their indexes, addresses and sizes.
const ENTRIES: [(usize, u32, u32); 7] = [
    (1, 14584, 160),
    (2, 24576, 18192),
    (3, 20480, 264),
    (5, 45056, 60),
    (6, 13160, 112),
    (10, 12304, 320),
    (12, 12624, 328),
];

/// A table of them, with another in the place that is reserved.
fn table() -> DataDirectories {
    let mut table = DataDirectories::default();
    for (index, virtual_address, size) in ENTRIES {
        table.data_directories[index] = Some((8 * index + 8, directory(virtual_address, size)));
    }
    table.data_directories[15] = Some((128, directory(0, 0x0100_0000)));
    table
}

/// Whether this is the directory of an entry, with its kind.
fn is_entry(
    found: Option<(DataDirectoryType, DataDirectory)>,
    (index, virtual_address, size): (usize, u32, u32),
) -> bool {
    match DataDirectoryType::try_from(index) {
        Ok(kind) => found == Some((kind, directory(virtual_address, size))),
        Err(_) => false,
    }
}

/// Whether a table has the directories of the program with their kinds, and no others with one.
fn has_entries(table: &DataDirectories) -> bool {
    let mut found = table.dirs();
    for entry in ENTRIES {
        if !is_entry(found.next(), entry) {
            return false;
        }
    }
    found.next().is_none()
}

#[test]
fn directories_come_with_their_kinds_and_the_reserved_one_has_none(rt: HostRuntime) {
    assert!(rt; has_entries(&table()));
}

/// Bytes that go up, after one that is not read.
const BYTES: &[u8; 17] = b"?\x01\x02\x03\x04\x05\x06\x07\x08\x09\x0A\x0B\x0C\x0D\x0E\x0F\x10";

/// Whether the directory at an offset of them is this.
fn is_read_next(offset: &mut usize, endian: Endian, want: DataDirectory) -> bool {
    is_ok(gread_with::<DataDirectory>(BYTES, offset, endian), &want)
}

#[test]
fn directories_are_read_one_after_the_other_in_either_order(rt: HostRuntime) {
    let first = directory(0x0102_0304, 0x0506_0708);
    let second = directory(0x0C0B_0A09, 0x100F_0E0D);
    let mut offset = 1;
    assert!(rt; is_read_next(&mut offset, Endian::Big, first));
    assert!(rt; is_read_next(&mut offset, Endian::Little, second) && offset == 17);
    let placed = pread_with::<DataDirectory>(BYTES, 9, Endian::Little);
    assert!(rt; is_ok(placed, &second));
}
