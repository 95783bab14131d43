//! The base relocations of an image, which are blocks of words.

ghost use Rattle.std.specs.Prelude.{◌≡◌, ◌+◌, ◌-◌, ◌/◌, ◌%◌, ◌^◌, ◌<◌, ◌≤◌, Some, length, IfOk};
ghost use Rattle.std.specs.Prelude.{Err, IfSome};
ghost use Rattle.std.specs.Iterator.{UpTo, YieldsFirst, YieldsFirstBy, at_most};
ghost use Rattle.std.specs.Iterator.SizeHint.{IsWithinCount};
ghost use Rattle.goblin_base.specs.{Reading.Reads, Record.WritesRecord};
ghost use Rattle.goblin_pe_sect.specs.declared.relocation.base.RelocationWord.{RelocationWord};
ghost use Rattle.goblin_pe_sect.specs.{AddressReadings.relocation_data, Mapping.file_offset};
ghost use Rattle.goblin_pe_sect.specs.Addresses.{with_whole_names};
ghost use Rattle.goblin_pe_sect.specs.BaseRelocations.{AreBlocksOf, FindsItem, block_at};
ghost use Rattle.goblin_pe_sect.specs.BaseRelocations.{block_item, block_items, blocks_left};
ghost use Rattle.goblin_pe_sect.specs.BaseRelocations.{relocation_bytes, word_fields, word_items};
ghost use Rattle.goblin_pe_sect.specs.BaseRelocations.{word_record, words_left};
ghost use Rattle.goblin_pe_sect.specs.Options.{default_options, mapping_by};

use crate::data_directories::DataDirectory;
use crate::options::ParseOptions;
use crate::section_table::SectionTable;
use crate::utils::find_offset;
use goblin_base::{
    Cause, Endian, Error, Field, ReadFault, Record, Result, field_u16, field_u32, pread_slice,
    put_fields,
};
use std::iter::FusedIterator;

/// The size of the header of a base relocation block, in bytes.
pub const RELOCATION_BLOCK_SIZE: usize = 8;

const _: () = prove!(RELOCATION_BLOCK_SIZE == 8);

// The size of a word, in bytes.
const RELOCATION_WORD_SIZE: usize = 2;

/// The base relocations of an image: the bytes of their directory. A loader that can't load the
/// image at its preferred address adds the difference to the number at each address that the base
/// relocations name.
///
/// Source: PE Format, "The .reloc Section (Image Only)".
#[derive(Debug, PartialEq, Clone, Default, Drop)]
pub struct RelocationData<'a> {
    bytes: &'a [u8],
}

impl<'a> RelocationData<'a> {
    /// The base relocations of the data directory `dd`, as [`RelocationData::parse_with_opts`]
    /// reads them with the default options.
    ///
    /// # Errors
    /// As [`RelocationData::parse_with_opts`].
    pub fn parse(
        bytes: &'a [u8],
        dd: DataDirectory,
        sections: &[SectionTable],
        file_alignment: u32,
    ) -> Result<Self>
        ensures { let mapping = mapping_by default_options in
            let offset_of = file_offset mapping sections.now file_alignment in
            Reads relocation_bytes result
            (relocation_data (with_whole_names offset_of) dd) bytes.now }
    {
        let opts = ParseOptions::default();
        RelocationData::parse_with_opts(bytes, dd, sections, file_alignment, &opts)
    }

    /// The base relocations of the data directory `dd`: the bytes at its address, as many as its
    /// size says.
    ///
    /// # Errors
    /// [`Error::Malformed`] in both modes: [`Cause::Unmapped`] if the address has no file offset,
    /// [`Cause::RelocRange`] if the bytes there begin at or past the end of the file, or run past
    /// it.
    #[tactic(auto, unfolding(crate::specs::AddressReadings::relocation_data))]
    pub fn parse_with_opts(
        bytes: &'a [u8],
        dd: DataDirectory,
        sections: &[SectionTable],
        file_alignment: u32,
        opts: &ParseOptions,
    ) -> Result<Self>
        ensures { let mapping = mapping_by opts.now in
            let offset_of = file_offset mapping sections.now file_alignment in
            Reads relocation_bytes result
            (relocation_data (with_whole_names offset_of) dd) bytes.now }
    {
        let rva = dd.virtual_address as usize;
        let offset = find_offset(rva, sections, file_alignment, opts);
        RelocationData::parse_at(bytes, dd, offset)
    }

    /// The base relocations of the data directory `dd`. `offset` is the file offset of its address,
    /// or `None` if the address has none.
    ///
    /// # Errors
    /// As [`RelocationData::parse_with_opts`].
    #[tactic(auto, unfolding(crate::specs::AddressReadings::relocation_data))]
    pub fn parse_at(bytes: &'a [u8], dd: DataDirectory, offset: Option<usize>) -> Result<Self>
        ensures { Reads relocation_bytes result
            (relocation_data (with_whole_names (λ _. offset)) dd) bytes.now }
    {
        let Some(offset) = offset else {
            return Err(Error::Malformed(Cause::Unmapped(dd.virtual_address as usize)));
        };
        match pread_slice(bytes, offset, dd.size as usize) {
            Ok(bytes) => Ok(RelocationData { bytes }),
            Err(_) => Err(Error::Malformed(Cause::RelocRange(offset, dd.size))),
        }
    }

    /// The blocks, in order. If the last bytes are not a block, one error comes last, as
    /// [`RelocationBlockIterator`] says.
    #[tactic(auto, using(crate::proofs::BlocksOf::blocks_of))]
    pub fn blocks(&self) -> RelocationBlockIterator<'a>
        ensures items { blocks_left result ≡ block_items (relocation_bytes self.now) 0 }
        ensures blocks { AreBlocksOf (relocation_bytes self.now)
            (block_items (relocation_bytes self.now) 0) }
    {
        RelocationBlockIterator {
            bytes: self.bytes,
            offset: 0,
        }
    }

    // The bytes of the directory.
    #[inline(always)]
    fn directory(&self) -> &'a [u8]
        ensures value { result.now ≡ relocation_bytes self.now }
        ensures short { length result.now < 2 ^ 63 }
    {
        self.bytes
    }

    /// The block that begins `offset` bytes into the directory, as
    /// [`blocks`](RelocationData::blocks) yields it. `None` at the end of the directory and past
    /// it. The next block begins `size` bytes further on.
    ///
    /// # Errors
    /// As the iterator of [`blocks`](RelocationData::blocks): fewer than 8 bytes are left, or the
    /// block's size is below 8, or the words run past the directory or begin at its end.
    #[tactic(auto, using(crate::proofs::BlockItems::items))]
    pub fn block_at(&self, offset: usize) -> Option<Result<RelocationBlock<'a>>>
        ensures found { FindsItem (relocation_bytes self.now) offset result }
        ensures low { IfSome result (λ found. offset < 2 ^ 63) }
        ensures inside { IfSome result (λ found. IfOk found
            (λ block. offset + block.size ≤ length (relocation_bytes self.now))) }
    {
        let directory = self.directory();
        if offset >= directory.len() {
            return None;
        }
        match RelocationBlock::in_directory(directory, offset) {
            Ok(block) => Some(Ok(block)),
            Err(error) => Some(Err(error)),
        }
    }
}

/// A block of base relocations, for one page of the image in memory.
///
/// Source: PE Format, "Base Relocation Block". The header of a block has 8 bytes, and `at` gives
/// the offset in it of the address and of the size.
#[derive(Debug, PartialEq, Copy, Clone, Default)]
pub struct RelocationBlock<'a> {
    /// The page's address, relative to the image's base, at 0. The offset in each word is added to
    /// it.
    pub rva: u32,
    /// The size of the block with its header, in bytes, at 4. The next block begins this many bytes
    /// after the start of this one.
    pub size: u32,
    /// The bytes of the words, which follow the header.
    pub bytes: &'a [u8],
}

impl<'a> RelocationBlock<'a> {
    // Why the last bytes of a directory, at most eight from `offset` on, are not a block.
    #[inline(always)]
    #[tactic(auto, unfolding(crate::specs::BaseRelocations::block_at))]
    fn refusal_of_rest(directory: &[u8], offset: usize) -> Error
        requires before { offset < length directory.now }
        requires few { length directory.now ≤ offset + 8 }
        ensures { block_at directory.now offset ≡ Err result }
    {
        if directory.len() - offset < RELOCATION_BLOCK_SIZE {
            return Error::Read(ReadFault::TooBig);
        }
        let begin = offset + RELOCATION_BLOCK_SIZE;
        let size = field_u32(&directory[offset..begin], 4, Endian::Little);
        if (size as usize) < RELOCATION_BLOCK_SIZE {
            return Error::Malformed(Cause::BlockSize(size));
        }
        Error::Malformed(Cause::BlockRange(begin, size as usize - RELOCATION_BLOCK_SIZE))
    }

    // Reads the block at `offset`, which must lie before the end of the directory.
    #[tactic(auto, unfolding(crate::specs::BaseRelocations::block_at))]
    fn in_directory(directory: &'a [u8], offset: usize) -> Result<RelocationBlock<'a>>
        requires { offset < length directory.now }
        ensures value { block_item result ≡ block_at directory.now offset }
        ensures large { IfOk result (λ block. 8 ≤ block.size) }
        ensures inside { IfOk result (λ block. offset + block.size ≤ length directory.now) }
    {
        let rest = directory.len() - offset;
        if rest <= RELOCATION_BLOCK_SIZE {
            return Err(RelocationBlock::refusal_of_rest(directory, offset));
        }
        let begin = offset + RELOCATION_BLOCK_SIZE;
        let head = &directory[offset..begin];
        let size = field_u32(head, 4, Endian::Little);
        if (size as usize) < RELOCATION_BLOCK_SIZE {
            return Err(Error::Malformed(Cause::BlockSize(size)));
        }
        if rest < size as usize {
            let len = size as usize - RELOCATION_BLOCK_SIZE;
            return Err(Error::Malformed(Cause::BlockRange(begin, len)));
        }
        Ok(RelocationBlock {
            rva: field_u32(head, 0, Endian::Little),
            size,
            bytes: &directory[begin..offset + size as usize],
        })
    }

    /// The words, in order. If one byte is left after them, one error comes last, as
    /// [`RelocationWordIterator`] says.
    pub fn words(&self) -> RelocationWordIterator<'a>
        ensures { words_left result ≡ word_items self.now.bytes.now }
    {
        RelocationWordIterator { bytes: self.bytes }
    }
}

/// An iterator over the blocks of a base relocation directory, in order. If the last bytes are not
/// a block, one error comes last:
///
/// - [`Error::Read`] with `TooBig`, if there is no whole header;
/// - [`Error::Malformed`] with [`Cause::BlockSize`], if the size in the header is below 8;
/// - [`Error::Malformed`] with [`Cause::BlockRange`], if the words run past the directory, or begin
///   at its end.
///
/// Source: PE Format, "Base Relocation Block".
#[derive(Debug, Copy, Clone)]
pub struct RelocationBlockIterator<'a> {
    bytes: &'a [u8],
    offset: usize,
}

impl<'a> Iterator for RelocationBlockIterator<'a> {
    type Item = Result<RelocationBlock<'a>>;

    ghost next_gives = { YieldsFirstBy block_item blocks_left };

    ghost remaining = { λ it. at_most ((length it.bytes.now - it.offset + 7) / 8) };

    #[tactic(auto, using(crate::proofs::BlockItems::items))]
    fn next(&mut self) -> Option<Result<RelocationBlock<'a>>> {
        if self.offset >= self.bytes.len() {
            return None;
        }
        match RelocationBlock::in_directory(self.bytes, self.offset) {
            Ok(block) => {
                self.offset += block.size as usize;
                Some(Ok(block))
            }
            Err(error) => {
                self.offset = self.bytes.len();
                Some(Err(error))
            }
        }
    }

    /// The upper bound is the number of headers that fit, and one more for bytes that are left
    /// over.
    #[tactic(auto, using(crate::proofs::BlockItems::items_most))]
    fn size_hint(&self) -> (usize, Option<usize>)
        ensures lower { IsWithinCount result.0
            (at_most ((length self.now.bytes.now - self.now.offset + 7) / 8)) }
        ensures upper { IfSome result.1
            (UpTo (at_most ((length self.now.bytes.now - self.now.offset + 7) / 8))) }
        ensures most { IfSome result.1 (λ n. length (blocks_left self.now) ≤ n) }
        ensures value { result ≡ (0, Some ((length self.now.bytes.now - self.now.offset + 7) / 8)) }
    {
        let rest = self.bytes.len().saturating_sub(self.offset);
        (0, Some(rest.div_ceil(RELOCATION_BLOCK_SIZE)))
    }
}

impl FusedIterator for RelocationBlockIterator<'_> {}

/// A word of a base relocation block. It says at which address in the block's page a loader changes
/// the bytes, and how.
///
/// Source: PE Format, "Base Relocation Block" and "Base Relocation Types". The number is as stored.
/// The record has 2 bytes.
#[derive(Debug, PartialEq, Copy, Clone, Default)]
pub struct RelocationWord {
    /// The word, at 0. Its high four bits are the type; its low twelve bits are the offset from the
    /// block's address, in bytes.
    pub value: u16,
}

impl Record for RelocationWord {
    ghost width = { 2 };

    ghost value = { word_record };

    ghost fields = { word_fields };

    fn size() -> usize {
        RELOCATION_WORD_SIZE
    }

    fn in_record(bytes: &[u8], endian: Endian) -> RelocationWord {
        RelocationWord {
            value: field_u16(bytes, 0, endian),
        }
    }

    #[tactic(auto, using(crate::proofs::RelocationsRoundTrip::round_trips))]
    fn put(self, bytes: &mut [u8], endian: Endian) {
        let fields = [Field::U16(self.value)];
        put_fields(bytes, RELOCATION_WORD_SIZE, &fields, endian);
    }
}

impl RelocationWord {
    /// The type, an `IMAGE_REL_BASED_*`, which says how the bytes are changed: the high four bits.
    /// Type 0 changes nothing and pads a block.
    pub fn reloc_type(&self) -> u8
        ensures { result ≡ self.now.value / 4096 }
    {
        (self.value >> 12) as u8
    }

    /// The offset of the bytes that are changed from the block's address: the low twelve bits.
    pub fn offset(&self) -> u16
        ensures { result ≡ self.now.value % 4096 }
    {
        self.value & 0xFFF
    }

    /// Writes the record to the front of `bytes`, and returns its size, 2. A record that was read
    /// is written back unchanged, and any record reads back from what was written, in the same byte
    /// order.
    ///
    /// # Errors
    /// [`Error::Read`] if there is no room for 2 bytes; `bytes` is then unchanged.
    pub fn try_into_ctx(self, bytes: &mut [u8], endian: Endian) -> Result<usize>
        ensures { WritesRecord 2 word_record word_fields endian self result bytes.old bytes.new }
    {
        Record::try_into_ctx(self, bytes, endian)
    }

    /// The size of the record in bytes: 2 in either byte order.
    pub fn size_with(endian: &Endian) -> usize
        ensures { result ≡ 2 }
    {
        <RelocationWord as Record>::size_with(endian)
    }
}

/// An iterator over the words of a block, in order. If one byte is left after them, one
/// [`Error::Read`] with `TooBig` comes last.
///
/// Source: PE Format, "Base Relocation Block".
#[derive(Debug, Copy, Clone)]
pub struct RelocationWordIterator<'a> {
    bytes: &'a [u8],
}

impl Iterator for RelocationWordIterator<'_> {
    type Item = Result<RelocationWord>;

    ghost next_gives = { YieldsFirst words_left };

    ghost remaining = { λ it. at_most ((length it.bytes.now + 1) / 2) };

    #[tactic(auto, using(crate::proofs::WordItems::words))]
    fn next(&mut self) -> Option<Result<RelocationWord>> {
        if self.bytes.is_empty() {
            return None;
        }
        if self.bytes.len() < RELOCATION_WORD_SIZE {
            self.bytes = &[];
            return Some(Err(Error::Read(ReadFault::TooBig)));
        }
        let (record, rest) = self.bytes.split_at(RELOCATION_WORD_SIZE);
        self.bytes = rest;
        Some(Ok(RelocationWord::in_record(record, Endian::Little)))
    }

    #[tactic(auto, using(crate::proofs::WordItems::length_words))]
    fn size_hint(&self) -> (usize, Option<usize>)
        ensures lower { IsWithinCount result.0 (at_most ((length self.now.bytes.now + 1) / 2)) }
        ensures upper { IfSome result.1 (UpTo (at_most ((length self.now.bytes.now + 1) / 2))) }
        ensures value { result
            ≡ (length (words_left self.now), Some (length (words_left self.now))) }
    {
        let count = self.bytes.len().div_ceil(RELOCATION_WORD_SIZE);
        (count, Some(count))
    }
}

impl FusedIterator for RelocationWordIterator<'_> {}
