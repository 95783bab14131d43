//! The sections of a Terse Executable.

use fixture::sample::is_err;
use goblin_base::{Cause, Error};
use goblin_pe_head::TeHeader;

#[test]
fn sections_of_a_header_of_which_too_little_was_stripped_are_refused(rt: HostRuntime) {
    let short = TeHeader {
        stripped_size: 0x27,
        ..TeHeader::default()
    };
    let mut offset = 1;
    let read = short.sections(rt.alloc(), &[], &mut offset);
    let is_refused = is_err(read, &Error::Malformed(Cause::StrippedSize(0x27)));
    assert!(rt; is_refused && offset == 1);
}
