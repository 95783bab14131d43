//! The bytes of a data directory, by its index and in both views.

use fixture::sample::{put, sample};
use goblin_pe::added::Layout;
use goblin_pe::header::Header;
use goblin_pe::options::ParseOptions;
use goblin_pe::{Cause, Error, Part};
use std::alloc::Global;

/// Whether the import directory has its bytes: a record, and the one that ends it.
fn has_imports(layout: &Layout) -> bool {
    let directory = layout.directory(1);
    let front = b"\x40\x10";
    matches!(&directory, Ok(Part::Read(bytes)) if bytes.len() == 0x28 && bytes.starts_with(front))
}

/// Whether there are no base relocations, and the exceptions lie at no offset.
fn has_no_others(layout: &Layout) -> bool {
    matches!(&layout.directory(5), Ok(Part::Absent))
        && matches!(
            &layout.directory(3),
            Err(Error::Malformed(Cause::Unmapped(0x9000)))
        )
}

fn has_all(layout: &Layout) -> bool {
    has_imports(layout) && has_no_others(layout)
}

fn has_all_by(alloc: Global, file: &[u8], header: &Header) -> bool {
    let opts = ParseOptions::default();
    matches!(&Layout::of(alloc, file, header, &opts), Ok(layout) if has_all(layout))
}

/// Whether a file has its import directory, no base relocations, and an exception directory
/// nowhere.
fn has_directories(alloc: Global, file: &[u8]) -> bool {
    matches!(&Header::parse(file), Ok(header) if has_all_by(alloc, file, header))
}

#[test]
fn a_directory_is_read_by_its_index(rt: HostRuntime) {
    let mut file = sample();
    // The fourth directory begins 24 bytes after the first.
    put(&mut file, 0xD1, b"\x90");
    assert!(rt; has_directories(rt.alloc(), &file));
}

/// Whether the exceptions are the magic of the optional header, which no section maps.
fn has_magic(layout: &Layout) -> bool {
    matches!(&layout.directory(3), Ok(Part::Read(bytes)) if *bytes == b"\x0B\x01".as_slice())
}

/// Whether they are as a loader maps them alone.
fn is_loaded_alone(alloc: Global, file: &[u8], header: &Header) -> bool {
    let opts = ParseOptions::default();
    matches!(&Layout::as_loaded(alloc, file, header, &opts), Ok(layout) if has_magic(layout))
        && matches!(&Layout::of(alloc, file, header, &opts), Ok(layout) if !has_magic(layout))
}

fn has_magic_if_loaded(alloc: Global, file: &[u8]) -> bool {
    matches!(&Header::parse(file), Ok(header) if is_loaded_alone(alloc, file, header))
}

#[test]
fn a_loader_maps_the_headers_too(rt: HostRuntime) {
    let mut file = sample();
    // The size of the headers, and the fourth directory.
    put(&mut file, 0x94, b"\x00\x02");
    put(&mut file, 0xD0, b"\x58\0\0\0\x02");
    assert!(rt; has_magic_if_loaded(rt.alloc(), &file));
}
