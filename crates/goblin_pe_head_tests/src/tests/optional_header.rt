//! The optional header, read by an order of numbers.

use fixture::sample::{directory, put};
use goblin_base::{Container, Endian, TryFromCtx};
use goblin_pe_head::OptionalHeader;
use goblin_pe_sect::DataDirectories;

/// A header for 64 bits that leads to base relocations, and a byte after it.
fn header_of_relocations() -> [u8; 241] {
    let mut bytes = [0; 241];
    put(&mut bytes, 0, b"\x0B\x02");
    put(&mut bytes, 108, b"\x10");
    put(&mut bytes, 152, b"\x00\xB0\x00\x00\x3C");
    bytes
}

/// The directories that should be read from it.
fn directories() -> DataDirectories {
    let mut table = DataDirectories::default();
    table.data_directories[5] = Some((160, directory(45056, 60)));
    table
}

/// Whether that header is read by an order of numbers, up to the byte after it.
fn is_read(endian: Endian) -> bool {
    matches!(OptionalHeader::try_from_ctx(&header_of_relocations(), endian), Ok((header, 240))
        if header.data_directories == directories()
            && matches!(header.container(), Ok(Container::Big)))
}

#[test]
fn the_order_of_numbers_is_not_asked_for(rt: HostRuntime) {
    assert!(rt; is_read(Endian::Little));
    assert!(rt; is_read(Endian::Big));
}
