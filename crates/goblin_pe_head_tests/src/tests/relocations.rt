//! The words of base relocations, which callers in C get as bytes.

use fixture::sample::{directory, is_next};
use goblin_base::{Error, ReadFault};
use goblin_pe_sect::ParseOptions;
use goblin_pe_sect::relocation::{
    RelocationBlockIterator, RelocationData, RelocationWord, RelocationWordIterator,
};

/// The blocks of a directory that is all of the bytes.
fn blocks_of(bytes: &[u8]) -> Option<RelocationBlockIterator<'_>> {
    let place = directory(0, u32::try_from(bytes.len()).unwrap_or(u32::MAX));
    match RelocationData::parse_with_opts(bytes, place, &[], 0x200, &ParseOptions::te()) {
        Ok(relocations) => Some(relocations.blocks()),
        Err(_) => None,
    }
}

/// The words of the one block of a directory, which is gone when they are read.
fn words_of(bytes: &[u8]) -> Option<RelocationWordIterator<'_>> {
    let mut blocks = blocks_of(bytes)?;
    match (blocks.next(), blocks.next()) {
        (Some(Ok(block)), None) => Some(block.words()),
        _ => None,
    }
}

/// Whether these are two words: one of the type 3 and the offset 3, and one of zeros.
fn are_two(mut words: RelocationWordIterator) -> bool {
    is_next(words.next(), &RelocationWord { value: 0x3003 })
        && is_next(words.next(), &RelocationWord { value: 0 })
        && words.next().is_none()
}

#[test]
fn words_outlive_their_block(rt: HostRuntime) {
    let words = words_of(b"\0\x20\0\0\x0C\0\0\0\x03\x30\0\0");
    assert!(rt; matches!(words, Some(words) if are_two(words)));
}

/// Whether these are two words: one of the value 1, and one that is cut off.
fn are_one_and_a_half(mut words: RelocationWordIterator<'_>) -> bool {
    is_next(words.next(), &RelocationWord { value: 1 })
        && matches!(words.next(), Some(Err(Error::Read(ReadFault::TooBig))))
        && words.next().is_none()
}

#[test]
fn an_odd_last_byte_is_one_error(rt: HostRuntime) {
    let words = words_of(b"\0\0\0\0\x0B\0\0\0\x01\0\x02");
    assert!(rt; matches!(words, Some(words) if are_one_and_a_half(words)));
}

#[test]
fn a_word_is_a_type_and_an_offset(rt: HostRuntime) {
    let word = RelocationWord { value: 0xA008 };
    assert!(rt; (word.reloc_type(), word.offset()) == (10, 8));
}
