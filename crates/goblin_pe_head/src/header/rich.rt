//! The Rich header, where a linker records which tools made a file.

ghost use Rattle.std.specs.Prelude.{◌≡◌, ◌≤◌, ◌<◌, ◌+◌, ◌*◌, ◌/◌, ◌^◌, List, ℕ, Some, length, drop};
ghost use Rattle.std.specs.Prelude.{◌-◌, ◌==◌, false, find, option_map, slice_index, IfOk, IfSome};
ghost use Rattle.std.specs.{Prelude.IsTrue, List.range_with_len};
ghost use Rattle.std.specs.Iterator.{UpTo, YieldsFirst, at_most};
ghost use Rattle.std.specs.Iterator.SizeHint.{IsWithinCount};
ghost use Rattle.goblin_base.specs.{Reading.Reads, Bytes.IsBytes, Record.WritesRecord};
ghost use Rattle.goblin_pe_head.specs.RichMetadata.{RichMetadata};
ghost use Rattle.goblin_pe_head.specs.HeaderLaws.{RichIsMarked, RichIsUnmarked};
ghost use Rattle.goblin_pe_head.specs.HeaderReadings as reading;
ghost use Rattle.goblin_pe_head.specs.RichHeader.{PaddingFits, dans_place, leading_words};
ghost use Rattle.goblin_pe_head.specs.RichHeader.{least_below, marker_place, other_place};
ghost use Rattle.goblin_pe_head.specs.RichHeader.{rich_value, word_at};
ghost use Rattle.goblin_pe_head.specs.RichMetadata.{AreEntriesOf, metadata_at, metadata_fields};
ghost use Rattle.goblin_pe_head.specs.RichMetadata.{metadata_items, metadata_left, metadata_record};
ghost use Rattle.goblin_pe_head.specs.RichHeader as rich_reading;

use crate::header::{DOS_STUB_OFFSET, DosHeader};
use goblin_base::{
    Cause, Endian, Error, Field, ReadFault, Record, Result, field_u16, field_u32, put_fields,
};
use goblin_pe_sect::options::ParseOptions;
use std::iter::FusedIterator;
use std::simd::prelude::*;

/// The word with which a Rich header begins, `DanS`. It is stored under the key.
pub const DANS_MARKER: u32 = 0x536E_6144;
/// The size of [`DANS_MARKER`], in bytes.
pub const DANS_MARKER_SIZE: usize = 4;
/// The word after the data of a Rich header, `Rich`. The key follows it.
pub const RICH_MARKER: u32 = 0x6863_6952;
/// The size of [`RICH_MARKER`], in bytes.
pub const RICH_MARKER_SIZE: usize = 4;

const _: () = prove!(
    DANS_MARKER == 0x536E_6144
        && DANS_MARKER_SIZE == 4
        && RICH_MARKER == 0x6863_6952
        && RICH_MARKER_SIZE == 4
);

// The size of a word, in bytes.
const WORD_SIZE: usize = 4;

// The size of an entry, in bytes.
const RICH_METADATA_SIZE: usize = 8;

/// The Rich header: which tools made a file, and how often each was used.
///
/// Source: not documented by Microsoft; the layout is what linkers write. The Rich header lies in
/// the DOS stub, as little-endian words of four bytes: [`DANS_MARKER`], padding, the entries,
/// [`RICH_MARKER`], and a key. Each word before [`RICH_MARKER`] is stored under the key: as its
/// exclusive or with the key. No loader looks at the Rich header, so nothing enforces that it is
/// true.
#[derive(Debug, PartialEq, Copy, Clone, Default)]
pub struct RichHeader<'a> {
    /// The key, under which the words are stored. Linkers compute it as a checksum of the DOS
    /// header, the stub and the entries; no reader tests that.
    pub key: u32,
    /// The bytes between the two markers, as stored: the padding and the entries.
    pub bytes: &'a [u8],
    /// The size of the padding before the entries, in bytes. The padding is words that are 0 under
    /// the key.
    pub padding_size: usize,
    /// The file offset of the first marker, [`DANS_MARKER`] under the key.
    pub start_offset: u32,
    /// The file offset of the second marker, [`RICH_MARKER`].
    pub end_offset: u32,
}

impl<'a> RichHeader<'a> {
    /// Finds the Rich header of a file. Between the DOS header and the PE signature, the call looks
    /// for the first [`RICH_MARKER`] with a key after it, and for the first word that is
    /// [`DANS_MARKER`] under that key. A word may begin at any byte. The result is `None` if there
    /// is no such [`RICH_MARKER`].
    ///
    /// # Errors
    /// As [`DosHeader::parse`] if the file has no DOS header; [`Error::Malformed`] with
    /// [`Cause::NoDans`] if no word is [`DANS_MARKER`] under the key, or with [`Cause::RichBounds`]
    /// if the data would end at or before its start, both counted from offset 0x40; [`Error::Read`]
    /// with [`ReadFault::TooBig`] if the data is not a whole number of words.
    pub fn parse(bytes: &'a [u8]) -> Result<Option<Self>>
        ensures value { Reads (option_map rich_value) result reading.rich_header bytes.now }
        ensures padding { IfOk result (λ rich. IfSome rich PaddingFits) }

        // Each marker is at the least possible offset.
        ensures marked { RichIsMarked }
        ensures unmarked { RichIsUnmarked }
    {
        RichHeader::parse_with_opts(bytes, &ParseOptions::default())
    }

    /// Finds the Rich header of a file, as [`RichHeader::parse`]. No option changes the answer.
    ///
    /// # Errors
    /// As [`RichHeader::parse`], in both modes.
    #[tactic(auto, unfolding(crate::specs::HeaderReadings::rich_header), using(crate::proofs::RichPlaces::rich_marked, crate::proofs::RichPlaces::rich_unmarked))]
    pub fn parse_with_opts(bytes: &'a [u8], _opts: &ParseOptions) -> Result<Option<Self>>
        ensures value { Reads (option_map rich_value) result reading.rich_header bytes.now }
        ensures padding { IfOk result (λ rich. IfSome rich PaddingFits) }

        // Each marker is at the least possible offset.
        ensures marked { RichIsMarked }
        ensures unmarked { RichIsUnmarked }
    {
        let dos = DosHeader::parse(bytes)?;
        RichHeader::parse_at(bytes, dos.pe_pointer)
    }

    // Finds the Rich header before a PE signature.
    #[inline(always)]
    #[tactic(auto, unfolding(crate::specs::RichHeader::rich_at))]
    pub(super) fn parse_at(bytes: &'a [u8], pe_pointer: u32) -> Result<Option<Self>>
        requires { pe_pointer ≤ length bytes.now }
        ensures value { Reads (option_map rich_value) result (rich_reading.rich_at pe_pointer)
            bytes.now }
        ensures padding { IfOk result (λ rich. IfSome rich PaddingFits) }
    {
        let start = DOS_STUB_OFFSET as usize;
        let end = pe_pointer as usize;
        if end < start + DANS_MARKER_SIZE {
            return Ok(None);
        }
        rich_in(&bytes[start..end])
    }

    /// The entries, which follow the padding. The padding must not be longer than the data. In a
    /// header that was read it never is.
    #[tactic(auto, using(crate::proofs::RichLaw::rich_entries))]
    pub fn metadatas(&self) -> RichMetadataIterator<'a>
        requires { self.now.padding_size ≤ length self.now.bytes.now }
        ensures entries { metadata_left result
            ≡ metadata_items self.now.key (drop self.now.padding_size self.now.bytes.now) }

        // The entries of a Rich header that was read are its data.
        ensures law { (bytes : List ℕ) → IsBytes bytes
            → reading.rich_header.value bytes ≡ Some (Some (rich_value self.now))
            → AreEntriesOf self.now.key (drop self.now.padding_size self.now.bytes.now)
            (metadata_left result) }
    {
        RichMetadataIterator {
            key: self.key,
            bytes: &self.bytes[self.padding_size..],
        }
    }
}

/// An entry of a Rich header: a tool, and how often it was used.
///
/// Source: not documented by Microsoft; the layout is what linkers write. The record has 8 bytes,
/// and `at` gives a field's offset in it. In a file each of its two words is stored under the key
/// of the header: as its exclusive or with the key.
#[repr(C)]
#[derive(Debug, PartialEq, Copy, Clone, Default)]
pub struct RichMetadata {
    /// The build number of the tool, at 0.
    pub build: u16,
    /// The identifier of the tool, at 2.
    pub product: u16,
    /// How many files the tool made, at 4.
    pub use_count: u32,
}

impl Record for RichMetadata {
    ghost width = { 8 };

    ghost value = { metadata_record };

    ghost fields = { metadata_fields };

    fn size() -> usize {
        RICH_METADATA_SIZE
    }

    fn in_record(bytes: &[u8], endian: Endian) -> RichMetadata {
        RichMetadata {
            build: field_u16(bytes, 0, endian),
            product: field_u16(bytes, 2, endian),
            use_count: field_u32(bytes, 4, endian),
        }
    }

    #[tactic(auto, using(crate::proofs::RecordRoundTrips::metadata_round_trip))]
    fn put(self, bytes: &mut [u8], endian: Endian) {
        let fields = [
            Field::U16(self.build),
            Field::U16(self.product),
            Field::U32(self.use_count),
        ];
        put_fields(bytes, RICH_METADATA_SIZE, &fields, endian);
    }
}

impl RichMetadata {
    // The entry in these 8 bytes, which are stored under `key`.
    fn under_key(bytes: &[u8], key: u32) -> RichMetadata
        requires { length bytes.now ≡ 8 }
        ensures { result ≡ metadata_at key bytes.now 0 }
    {
        let tool = field_u32(bytes, 0, Endian::Little) ^ key;
        let use_count = field_u32(bytes, WORD_SIZE, Endian::Little) ^ key;
        RichMetadata {
            build: (tool & 0xFFFF) as u16,
            product: (tool >> 16) as u16,
            use_count,
        }
    }

    /// Writes the entry to the front of `bytes`, under no key, and returns its size, 8. An entry
    /// that was read under no key is written back unchanged, and any entry reads back from what was
    /// written, in the same byte order.
    ///
    /// # Errors
    /// [`Error::Read`] if there is no room for 8 bytes; `bytes` is then unchanged.
    pub fn try_into_ctx(self, bytes: &mut [u8], endian: Endian) -> Result<usize>
        ensures { WritesRecord 8 metadata_record metadata_fields
            endian self result bytes.old bytes.new }
    {
        Record::try_into_ctx(self, bytes, endian)
    }

    /// The size of the record in bytes: 8 in either byte order.
    pub fn size_with(endian: &Endian) -> usize
        ensures { result ≡ 8 }
    {
        <RichMetadata as Record>::size_with(endian)
    }
}

/// A walk over the entries of a Rich header, in order. If bytes are left after the last whole
/// entry, the walk ends with one [`Error::Read`] with [`ReadFault::TooBig`].
#[derive(Debug, Clone, Drop)]
pub struct RichMetadataIterator<'a> {
    key: u32,
    bytes: &'a [u8],
}

impl Iterator for RichMetadataIterator<'_> {
    type Item = Result<RichMetadata>;

    ghost next_gives = { YieldsFirst metadata_left };

    ghost remaining = { λ it. at_most ((length it.bytes.now + 7) / 8) };

    #[tactic(auto, using(crate::proofs::RichEntries::items))]
    fn next(&mut self) -> Option<Result<RichMetadata>> {
        if self.bytes.is_empty() {
            return None;
        }
        if self.bytes.len() < RICH_METADATA_SIZE {
            self.bytes = &[];
            return Some(Err(Error::Read(ReadFault::TooBig)));
        }
        let (entry, rest) = self.bytes.split_at(RICH_METADATA_SIZE);
        self.bytes = rest;
        Some(Ok(RichMetadata::under_key(entry, self.key)))
    }

    #[tactic(auto, using(crate::proofs::RichEntries::length_items))]
    fn size_hint(&self) -> (usize, Option<usize>)
        ensures lower { IsWithinCount result.0 (at_most ((length self.now.bytes.now + 7) / 8)) }
        ensures upper { IfSome result.1 (UpTo (at_most ((length self.now.bytes.now + 7) / 8))) }
        ensures value { result
            ≡ (length (metadata_left self.now), Some (length (metadata_left self.now))) }
    {
        let count = self.bytes.len().div_ceil(RICH_METADATA_SIZE);
        (count, Some(count))
    }
}

impl FusedIterator for RichMetadataIterator<'_> {}

// The Rich header in the bytes between the DOS header and the PE signature.
#[inline(always)]
#[tactic(auto, unfolding(crate::specs::RichHeader::rich_in))]
fn rich_in<'a>(stretch: &'a [u8]) -> Result<Option<RichHeader<'a>>>
    requires { length stretch.now + 64 < 2 ^ 32 }
    ensures value { Reads (option_map rich_value) result rich_reading.rich_in stretch.now }
    ensures padding { IfOk result (λ rich. IfSome rich PaddingFits) }
{
    let Some(end) = marker_place(stretch) else {
        return Ok(None);
    };
    // The bytes through the key.
    let stored = &stretch[..end + RICH_MARKER_SIZE + WORD_SIZE];
    let key = field_u32(stored, end + RICH_MARKER_SIZE, Endian::Little);
    let Some(front) = dans_place(stretch, key) else {
        return Err(Error::Malformed(Cause::NoDans));
    };
    let start = front + DANS_MARKER_SIZE;
    if start >= end {
        return Err(Error::Malformed(Cause::RichBounds(start, end)));
    }
    let bytes = &stored[start..end];
    if !bytes.len().is_multiple_of(WORD_SIZE) {
        return Err(Error::Read(ReadFault::TooBig));
    }
    Ok(Some(RichHeader {
        key,
        bytes,
        padding_size: WORD_SIZE * leading_words(bytes, key),
        start_offset: DOS_STUB_OFFSET + front as u32,
        end_offset: DOS_STUB_OFFSET + end as u32,
    }))
}

// The first position of the marker `Rich` with a key after it.
pub(crate) fn marker_place(stretch: &[u8]) -> Option<usize>
    ensures value { result ≡ marker_place stretch.now }
    ensures room { IfSome result (λ i. i + 8 ≤ length stretch.now) }
{
    word_place(stretch, stretch.len().saturating_sub(7), RICH_MARKER)
}

// The first position of a word that is the marker `DanS` under the key.
#[tactic(auto, using(crate::proofs::WordPlaces::under_key))]
pub(crate) fn dans_place(stretch: &[u8], key: u32) -> Option<usize>
    ensures value { result ≡ dans_place key stretch.now }
    ensures room { IfSome result (λ j. j + 4 ≤ length stretch.now) }
{
    word_place(stretch, stretch.len().saturating_sub(3), DANS_MARKER ^ key)
}

// The first of `count` positions at which `word` lies.
#[tactic(auto, using(crate::proofs::WordPlaces::found_past))]
fn word_place(bytes: &[u8], count: usize, word: u32) -> Option<usize>
    requires { count ≤ length bytes.now - 3 }
    ensures value { result ≡ least_below count (λ i. word_at bytes.now i == word) }
    ensures below { IfSome result (λ i. i < count) }
{
    word_between(bytes, places_without(bytes, count, word), count, word)
}

// The first position from `start` on and before `end` at which `word` lies.
fn word_between(bytes: &[u8], start: usize, end: usize, word: u32) -> Option<usize>
    requires { end ≤ length bytes.now - 3 }
    ensures value { result
        ≡ find (λ i. word_at bytes.now i == word) (range_with_len start (end - start)) }
    ensures below { IfSome result (λ i. i < end) }
{
    (start..end).find(|i| field_u32(bytes, *i, Endian::Little) == word)
}

// How many positions precede the 16 among which `word` lies first, or the last ones that are fewer
// than 16.
fn places_without(bytes: &[u8], count: usize, word: u32) -> usize
    requires { count ≤ length bytes.now - 3 }
    ensures within { result ≤ count }
    ensures others { (k : ℕ) → k < result → (word_at bytes.now k == word) ≡ false }
{
    let mut passed = 0;
    'lanes: while 16 <= count - passed && is_absent(bytes, passed, word) {
        passed += 16;
    }
    passed
}

// Whether `word` lies at none of the 16 positions from `at` on.
#[inline(always)]
fn is_absent(bytes: &[u8], at: usize, word: u32) -> bool
    requires { at + 19 ≤ length bytes.now }
    ensures yes { IsTrue result → (k : ℕ) → at ≤ k → k < at + 16
        → (word_at bytes.now k == word) ≡ false }
{
    let [first, second, third, fourth] = word.to_le_bytes();
    let others = lanes_under(bytes, at, first)
        | lanes_under(bytes, at + 1, second)
        | lanes_under(bytes, at + 2, third)
        | lanes_under(bytes, at + 3, fourth);
    others.simd_eq(u8x16::splat(0)).to_bitmask() == 0
}

// The exclusive or of each of the 16 bytes from `at` on with `byte`.
#[inline(always)]
fn lanes_under(bytes: &[u8], at: usize, byte: u8) -> u8x16
    requires { at + 16 ≤ length bytes.now }
    ensures size { length result ≡ 16 }
    ensures zeros { (k : ℕ) → k < 16 → slice_index bytes.now (at + k) ≡ byte
        → slice_index result k ≡ 0 }
{
    u8x16::from_slice(&bytes[at..]) ^ u8x16::splat(byte)
}

// The index of the first word that is not the key.
#[tactic(auto, unfolding(crate::specs::RichHeader::other_place))]
fn other_place(bytes: &[u8], key: u32) -> Option<usize>
    ensures value { result ≡ other_place key bytes.now }
    ensures room { IfSome result (λ k. 4 * k ≤ length bytes.now) }
{
    (0..bytes.len() / WORD_SIZE).find(|k| field_u32(bytes, WORD_SIZE * *k, Endian::Little) != key)
}

// How many words at the front are the key.
#[tactic(auto, unfolding(crate::specs::RichHeader::leading_words))]
fn leading_words(bytes: &[u8], key: u32) -> usize
    ensures value { result ≡ leading_words key bytes.now }
    ensures room { 4 * result ≤ length bytes.now }
{
    other_place(bytes, key).unwrap_or(bytes.len() / WORD_SIZE)
}
