//! Exports of damaged files, and why a text is no forwarder.

use super::rows::{ExportRow, FORWARDED, UNFORWARDED, are_exports};
use fixture::sample::{ALIGNMENT, EXPORTS, is_err, put, sample_section, sample_with};
use goblin_base::{Cause, Error, ResultOf};
use goblin_pe::export::{Export, ExportData, Reexport};
use std::alloc::Global;

/// What the sample's export directory says in a file with its section.
fn data_of<'a, 'e>(alloc: Global, file: &'a [u8]) -> ResultOf<'e, ExportData<'a>> {
    ExportData::parse(alloc, file, EXPORTS, &[sample_section()], ALIGNMENT)
}

fn exports_of<'a, 'e>(alloc: Global, file: &'a [u8]) -> ResultOf<'e, Vec<Export<'a>>> {
    let data = data_of(alloc, file)?;
    Export::parse(alloc, file, &data, &[sample_section()], ALIGNMENT)
}

/// Whether the exports of a file are these.
fn are_listed(alloc: Global, file: &[u8], rows: &[ExportRow]) -> bool {
    matches!(&exports_of(alloc, file), Ok(exports) if are_exports(exports, rows))
}

/// The first of the sample's exports, without its name.
const NAMELESS: ExportRow = (None, Some(0x210), 0x1010, None);

#[test]
fn a_damaged_export_leaves_the_other(rt: HostRuntime) {
    let (name, ordinal, forwarder) = (
        sample_with(0x2D0, b"\0\x90"),
        sample_with(0x2D8, b"\x02"),
        sample_with(0x2E1, b"-"),
    );
    assert!(rt; are_listed(rt.alloc(), &name, &[NAMELESS, FORWARDED]));
    assert!(rt; are_listed(rt.alloc(), &ordinal, &[FORWARDED]));
    assert!(rt; are_listed(rt.alloc(), &forwarder, &[UNFORWARDED]));
}

/// Whether a file is too short for 769 of these.
fn is_too_short(alloc: Global, file: &[u8], what: &'static str) -> bool {
    is_err(data_of(alloc, file), &Error::BufferTooShort(769, what))
}

#[test]
fn a_table_has_at_most_as_many_entries_as_the_file_has_bytes(rt: HostRuntime) {
    let mut file = sample_with(0x2B4, b"\x01\x03");
    assert!(rt; is_too_short(rt.alloc(), &file, "address table entries"));
    put(&mut file, 0x2B8, b"\x01\x03");
    assert!(rt; is_too_short(rt.alloc(), &file, "name pointers"));
}

/// Whether a table ends with the file: 12 name pointers, 20 ordinals and 9 exports.
fn has_what_fits(alloc: Global, file: &[u8]) -> bool {
    let (data, exports) = (data_of(alloc, file), exports_of(alloc, file));
    matches!(&data, Ok(data) if data.export_name_pointer_table.len() == 12)
        && matches!(&data, Ok(data) if data.export_ordinal_table.len() == 20)
        && matches!(&exports, Ok(exports) if exports.len() == 9)
}

#[test]
fn a_table_ends_with_the_file(rt: HostRuntime) {
    assert!(rt; has_what_fits(rt.alloc(), &sample_with(0x2B8, b"\0\x03")));
}

/// Texts that name no export of a library, and why not.
const OTHERS: &[(&[u8], Cause)] = &[
    (b"a.\0", Cause::Forwarder),
    (b"a\0", Cause::Forwarder),
    (b"\0", Cause::Forwarder),
    (b"a.#4294967296\0", Cause::ForwarderOrdinal),
    (b"a.#\0", Cause::ForwarderOrdinal),
];

/// Whether a text is refused for this cause.
fn is_refused(bytes: &[u8], want: Cause) -> bool {
    matches!(Reexport::parse(bytes, 0), Err(Error::Malformed(cause)) if cause == want)
}

#[test]
fn texts_that_are_no_forwarders_are_refused(rt: HostRuntime) {
    for (bytes, want) in OTHERS {
        assert!(rt; is_refused(bytes, *want), "{bytes:?}");
    }
}
