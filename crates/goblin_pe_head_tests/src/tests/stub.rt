//! The DOS stub.

use goblin_base::{Endian, Error};
use goblin_pe_head::{DosStub, Header};

#[test]
fn the_default_stub_prints_its_message(rt: HostRuntime) {
    let want: &[u8; 64] = b"\x0E\x1F\xBA\x0E\x00\xB4\x09\xCD\x21\xB8\x01\x4C\xCD\x21\
        This program cannot be run in DOS mode.\x0D\x0D\x0A\x24\0\0\0\0\0\0\0";
    let stub = DosStub::default();
    assert!(rt; stub.bytes == want.as_slice() && Header::default().dos_stub == stub);
}

/// What comes of writing a stub without bytes.
fn write_nothing(room: &mut [u8]) -> goblin_base::Result<usize> {
    DosStub { bytes: &[] }.try_into_ctx(room, Endian::Little)
}

#[test]
fn a_stub_without_bytes_wants_a_place_to_begin(rt: HostRuntime) {
    assert!(rt; matches!(write_nothing(&mut []), Err(Error::Read(_))));
    let mut byte = [0xAA];
    assert!(rt; matches!(write_nothing(&mut byte), Ok(0)) && byte == [0xAA]);
}
