//! The base relocations of a block, in batches.

ghost use Rattle.std.specs.Prelude.{◌≡◌, ◌+◌, ◌<◌, ◌^◌, length, slice_get};
ghost use Rattle.goblin_pe_c_headers.specs.Onward.{batch_at};
ghost use Rattle.goblin_pe_c_headers.specs.Words.{GivesWords, block_words, word_for_c, words_for_c};

use crate::batch::PeBatch;
use crate::cursor::PeBaseRelocationCursor;
use crate::image::PeImage;
use crate::onward::fill_onward;
use goblin_base::{Endian, Record};
use goblin_pe_sect::relocation::RelocationWord;

/// A base relocation.
///
/// Source: PE Format, "Base Relocation Block".
#[repr(C)]
#[derive(Copy, Clone)]
pub struct PeBaseRelocation {
    /// What is relocated: an RVA.
    pub rva: usize,
    /// An `IMAGE_REL_BASED_*`; ABSOLUTE is padding.
    pub typ: u32,
    /// Zero.
    pub reserved: u32,
}

// The size of a word, in bytes.
const SIZE: usize = 2;

// The row of a word of a block for this page. (A cursor may have any page.)
fn word_for_c(page: usize, word: RelocationWord) -> PeBaseRelocation
    ensures { result ≡ word_for_c page word }
{
    PeBaseRelocation {
        rva: page.wrapping_add(usize::from(word.offset())),
        typ: u32::from(word.reloc_type()),
        reserved: 0,
    }
}

// The row of the word at an index of a block for this page, if there is one.
#[tactic(auto, using(crate::proofs::GivenOnward::record_inside, crate::proofs::GivenOnward::record_outside))]
fn word_at(page: usize, words: &[u8], index: usize) -> Option<PeBaseRelocation>
    ensures { result ≡ slice_get (words_for_c page words.now) index }
{
    if words.len() / SIZE <= index {
        return None;
    }
    let begin = SIZE * index;
    let word = RelocationWord::in_record(&words[begin..begin + SIZE], Endian::Little);
    Some(word_for_c(page, word))
}

// The words of a block from a cursor on.
fn words_at<'a>(bytes: &'a [u8], cursor: &PeBaseRelocationCursor) -> &'a [u8]
    ensures value { result.now ≡ block_words bytes.now cursor.now }
    ensures short { length result.now < 2 ^ 63 }
    ensures room { cursor.now.offset + length result.now < 2 ^ 64 }
{
    let front = &bytes[..cursor.end.min(bytes.len())];
    if front.len() < cursor.offset {
        return &bytes[..0];
    }
    &front[cursor.offset..]
}

/// Gives the next base relocations of a block. A last odd byte is no relocation. Never faults.
pub fn next_words(
    image: &PeImage,
    cursor: &mut PeBaseRelocationCursor,
    records: &mut [PeBaseRelocation],
) -> PeBatch
    ensures { GivesWords image.now.bytes.now (batch_at cursor.old records.old)
        (batch_at cursor.new records.new) result }
{
    let (page, words) = (cursor.page_rva, words_at(image.bytes, cursor));
    let mut count = 0;
    let batch = fill_onward(|index| word_at(page, words, index), &mut count, records);
    cursor.offset += SIZE * count;
    batch
}
