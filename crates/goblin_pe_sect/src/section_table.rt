//! The section headers of a PE file.

ghost use Rattle.std.specs.Prelude.{◌≡◌, ◌↔◌, ◌+◌, ◌*◌, ◌<◌, ◌≤◌, Bool, Err, IfErr, IfOk, IfSome};
ghost use Rattle.std.specs.Prelude.{ℕ, IsTrue, None, Ok, OnErr, OnOk, Some};
ghost use Rattle.std.specs.Prelude.{if◌then◌else◌, length, nat_eq, slice_range, string_bytes, true};
ghost use Rattle.std.specs.{Cow.IsBorrowedSlice, Cow.cow_slice_items, Option.option_eq};
ghost use Rattle.std.specs.{Option.option_map, Cmp.Lexicographic.pointwise};
ghost use Rattle.goblin_base.specs.declared.error.ErrorOf.TheVariants.{Malformed};
ghost use Rattle.goblin_base.specs.{declared.error.CauseOf.TheVariants.NameText, Bytes.overwritten};
ghost use Rattle.goblin_base.specs.{Bytes.replaced, Reading.Reads, Reading.ReadsOrMemory};
ghost use Rattle.goblin_base.specs.Record.{WritesBack, encoding};
ghost use Rattle.goblin_base.specs.Answers.{Answers, GivesOrMemory, IsSliceFault, Writes};
ghost use Rattle.readings.specs.Reads.{mapped, slice_at};
ghost use Rattle.goblin_pe_sect.specs.Options.{is_strict};
ghost use Rattle.goblin_pe_sect.specs.Relocations.{relocations_in, relocations_left};
ghost use Rattle.goblin_pe_sect.specs.SectionName.{IsNameFault, indirect_name, name_value};
ghost use Rattle.goblin_pe_sect.specs.SectionName.{IsNameOffsetFault};
ghost use Rattle.goblin_pe_sect.specs.SectionReadings.{SectionWritesBack, named_section_at};
ghost use Rattle.goblin_pe_sect.specs.SectionReadings.{raw_bytes, raw_data, section_data};
ghost use Rattle.goblin_pe_sect.specs.SectionReadings.{text_in_table};
ghost use Rattle.goblin_pe_sect.specs.SectionTable.{Section, section_eq, section_per, unnamed};
ghost use Rattle.goblin_pe_sect.specs.SectionTable.{SectionReadsBack, section_fields, IsNoName};
ghost use Rattle.goblin_pe_sect.specs.SectionTable.{section_record, OverlapRawData, name_of};

use crate::digits::{Digits, decimal_number, indirect_name};
use crate::options::{ParseMode, ParseOptions};
use crate::relocation::Relocations;
use goblin_base::{
    Cause, Endian, Error, Field, ReadFault, Result, encode_fields, field_array, field_u16,
    field_u32, gread_slice, pread_str, pread_str_until, put_bytes, pwrite_slice,
};
use std::alloc::Global;
use std::borrow::CowSlice;
use std::marker::Model;

mod constants;
mod records;

pub use constants::{
    IMAGE_SCN_ALIGN_1BYTES, IMAGE_SCN_ALIGN_2BYTES, IMAGE_SCN_ALIGN_4BYTES, IMAGE_SCN_ALIGN_8BYTES,
    IMAGE_SCN_ALIGN_16BYTES, IMAGE_SCN_ALIGN_32BYTES, IMAGE_SCN_ALIGN_64BYTES,
    IMAGE_SCN_ALIGN_128BYTES, IMAGE_SCN_ALIGN_256BYTES, IMAGE_SCN_ALIGN_512BYTES,
    IMAGE_SCN_ALIGN_1024BYTES, IMAGE_SCN_ALIGN_2048BYTES, IMAGE_SCN_ALIGN_4096BYTES,
    IMAGE_SCN_ALIGN_8192BYTES, IMAGE_SCN_ALIGN_MASK, IMAGE_SCN_CNT_CODE,
    IMAGE_SCN_CNT_INITIALIZED_DATA, IMAGE_SCN_CNT_UNINITIALIZED_DATA, IMAGE_SCN_GPREL,
    IMAGE_SCN_LNK_COMDAT, IMAGE_SCN_LNK_INFO, IMAGE_SCN_LNK_NRELOC_OVFL, IMAGE_SCN_LNK_OTHER,
    IMAGE_SCN_LNK_REMOVE, IMAGE_SCN_MEM_16BIT, IMAGE_SCN_MEM_DISCARDABLE, IMAGE_SCN_MEM_EXECUTE,
    IMAGE_SCN_MEM_LOCKED, IMAGE_SCN_MEM_NOT_CACHED, IMAGE_SCN_MEM_NOT_PAGED, IMAGE_SCN_MEM_PRELOAD,
    IMAGE_SCN_MEM_PURGEABLE, IMAGE_SCN_MEM_READ, IMAGE_SCN_MEM_SHARED, IMAGE_SCN_MEM_WRITE,
    IMAGE_SCN_TYPE_NO_PAD,
};
pub use records::SectionRecords;

/// The size of a section header, in bytes.
pub const SIZEOF_SECTION_TABLE: usize = 40;

const _: () = prove!(SIZEOF_SECTION_TABLE == 40);

/// A section, as its section header describes it.
///
/// Source: PE Format, "Section Table (Section Headers)". Numbers are as stored. A section header
/// has 40 bytes, and `at` gives the offset in it of each field except `real_name`.
#[derive(Debug, Default, Drop)]
pub struct SectionTable {
    /// The eight bytes of the name, padded with NULs, at 0. A longer name is in the string table,
    /// and these bytes then say where. A loader uses addresses, not names.
    pub name: [u8; 8],
    /// The name from the string table. `None` if the eight bytes are the name, or if there is no
    /// text where they point.
    pub real_name: Option<String>,
    /// The section's size in memory, in bytes, at 8. If it is above the raw size, zeros follow the
    /// raw data. If it is 0, as in objects, the raw size is used instead.
    pub virtual_size: u32,
    /// The section's address in memory, relative to the image's base, at 12.
    pub virtual_address: u32,
    /// The size of the section's raw data in the file, in bytes, at 16; 0 if it has none. In an
    /// image it is rounded up to the file alignment, so it may be above the virtual size.
    pub size_of_raw_data: u32,
    /// The file offset of the section's raw data, at 20. [`RawPointerRule`](crate::RawPointerRule)
    /// says when the Windows loader rounds it down to a multiple of 512.
    pub pointer_to_raw_data: u32,
    /// The file offset of the section's relocations, at 24; 0 in an image, or if it has none.
    pub pointer_to_relocations: u32,
    /// The file offset of the section's line numbers, at 28; 0 if it has none. Deprecated.
    pub pointer_to_linenumbers: u32,
    /// How many relocations the section has, at 32; 0 in an image. 0xFFFF with
    /// [`IMAGE_SCN_LNK_NRELOC_OVFL`] means that the first relocation gives their number.
    pub number_of_relocations: u16,
    /// How many line numbers the section has, at 34. Deprecated.
    pub number_of_linenumbers: u16,
    /// What the section holds and how it may be used, as bits `IMAGE_SCN_*`, at 36. The loader
    /// protects the pages of the section by them. A section that is both writable and executable is
    /// suspicious.
    pub characteristics: u32,
}

impl Model for SectionTable {
    ghost Value = { Section };

    ghost view = { λ s. record {
      name = s.name;
      real_name = option_map string_bytes s.real_name;
      virtual_size = s.virtual_size;
      virtual_address = s.virtual_address;
      size_of_raw_data = s.size_of_raw_data;
      pointer_to_raw_data = s.pointer_to_raw_data;
      pointer_to_relocations = s.pointer_to_relocations;
      pointer_to_linenumbers = s.pointer_to_linenumbers;
      number_of_relocations = s.number_of_relocations;
      number_of_linenumbers = s.number_of_linenumbers;
      characteristics = s.characteristics;
    } };
}

// Whether two real names are equal.
fn same_text(a: &Option<String>, b: &Option<String>) -> bool
    ensures { result
        ≡ option_eq (pointwise nat_eq) (option_map string_bytes a.now)
        (option_map string_bytes b.now) }
{
    match (a, b) {
        (Some(a), Some(b)) => a.as_bytes() == b.as_bytes(),
        (None, None) => true,
        _ => false,
    }
}

impl PartialEq for SectionTable {
    ghost eq = { section_eq };

    ghost laws = { section_per };

    fn eq(&self, other: &SectionTable) -> bool {
        self.name == other.name
            && same_text(&self.real_name, &other.real_name)
            && self.virtual_size == other.virtual_size
            && self.virtual_address == other.virtual_address
            && self.size_of_raw_data == other.size_of_raw_data
            && self.pointer_to_raw_data == other.pointer_to_raw_data
            && self.pointer_to_relocations == other.pointer_to_relocations
            && self.pointer_to_linenumbers == other.pointer_to_linenumbers
            && self.number_of_relocations == other.number_of_relocations
            && self.number_of_linenumbers == other.number_of_linenumbers
            && self.characteristics == other.characteristics
    }
}

/// The `size` bytes of the file from `begin` on, for the raw data of a section. There may be none,
/// even at the end of the file.
///
/// # Errors
/// [`Error::Read`] if the bytes run past the end of the file: `BadOffset` if they also begin at or
/// past the end, else `TooBig`.
pub fn raw_bytes(bytes: &[u8], begin: usize, size: usize) -> Result<&[u8]>
    ensures { Reads (λ s. s.now) result (raw_bytes begin size) bytes.now }
{
    let found = match begin.checked_add(size) {
        Some(end) => bytes.get(begin..end),
        None => None,
    };
    match found {
        Some(found) => Ok(found),
        None if bytes.len() <= begin => Err(Error::Read(ReadFault::BadOffset)),
        None => Err(Error::Read(ReadFault::TooBig)),
    }
}

impl SectionTable {
    // The section in the bytes of a section header, with this real name.
    #[inline(always)]
    pub(crate) fn in_record(bytes: &[u8], real_name: Option<String>) -> SectionTable
        requires { length bytes.now ≡ 40 }
        ensures { result ≡ record (section_record Endian.Little bytes.now)
            { real_name = option_map string_bytes real_name } }
    {
        SectionTable {
            name: field_array(bytes, 0),
            real_name,
            virtual_size: field_u32(bytes, 8, Endian::Little),
            virtual_address: field_u32(bytes, 12, Endian::Little),
            size_of_raw_data: field_u32(bytes, 16, Endian::Little),
            pointer_to_raw_data: field_u32(bytes, 20, Endian::Little),
            pointer_to_relocations: field_u32(bytes, 24, Endian::Little),
            pointer_to_linenumbers: field_u32(bytes, 28, Endian::Little),
            number_of_relocations: field_u16(bytes, 32, Endian::Little),
            number_of_linenumbers: field_u16(bytes, 34, Endian::Little),
            characteristics: field_u32(bytes, 36, Endian::Little),
        }
    }

    /// Reads the section header at the file offset `offset` and moves `offset` past it, as
    /// [`SectionTable::parse_with_opts`] does with the default options.
    ///
    /// # Errors
    /// As [`SectionTable::parse_with_opts`] in strict mode.
    pub fn parse(
        alloc: Global,
        bytes: &[u8],
        offset: &mut usize,
        string_table_offset: usize,
    ) -> Result<SectionTable>
        ensures value { ReadsOrMemory (λ s. s) result
            (named_section_at true string_table_offset offset.old) bytes.now }
        ensures ok { OnOk result (offset.new ≡ offset.old + 40) }
        ensures err { OnErr result (offset.new ≡ offset.old) }
    {
        let opts = ParseOptions::default();
        SectionTable::parse_with_opts(alloc, bytes, offset, string_table_offset, &opts)
    }

    /// Reads the section header at the file offset `offset` and moves `offset` past it. If its name
    /// is indirect, the real name is a copy of the text to which the name points in the string
    /// table at the file offset `string_table_offset`, if there is a text.
    ///
    /// # Errors
    /// [`Error::Read`] if the 40 bytes run past the end of the file; the errors of
    /// [`SectionTable::name_offset_with_opts`] if the name is refused; [`Error::Memory`] if memory
    /// for the real name is refused. `offset` is then unchanged.
    #[tactic(auto, unfolding(crate::specs::SectionReadings::named_section_at))]
    pub fn parse_with_opts(
        alloc: Global,
        bytes: &[u8],
        offset: &mut usize,
        string_table_offset: usize,
        opts: &ParseOptions,
    ) -> Result<SectionTable>
        ensures value { ReadsOrMemory (λ s. s) result
            (named_section_at (is_strict opts.now.parse_mode) string_table_offset offset.old)
            bytes.now }
        ensures ok { OnOk result (offset.new ≡ offset.old + 40) }
        ensures err { OnErr result (offset.new ≡ offset.old) }
    {
        let mut end = *offset;
        let record = gread_slice(bytes, &mut end, SIZEOF_SECTION_TABLE)?;
        let value = name_in_record(record, opts.parse_mode)?;
        let real_name = real_name(alloc, bytes, string_table_offset, value)?;
        *offset = end;
        Ok(SectionTable::in_record(record, real_name))
    }

    /// Reads the section header at the file offset `offset` and moves `offset` past it, as
    /// [`SectionTable::parse_with_opts`], but without the name from the string table. The name is
    /// only tested, and no memory is taken.
    ///
    /// # Errors
    /// [`Error::Read`] if the 40 bytes run past the end of the file; the errors of
    /// [`SectionTable::name_offset_with_opts`] if the name is refused. `offset` is then unchanged.
    #[inline(always)]
    #[tactic(auto, unfolding(crate::specs::SectionReadings::named_section_at))]
    pub fn parse_unnamed(
        bytes: &[u8],
        offset: &mut usize,
        opts: &ParseOptions,
    ) -> Result<SectionTable>
        ensures value { (table : ℕ) → Reads (λ s. s) result
            (mapped unnamed (named_section_at (is_strict opts.now.parse_mode) table offset.old))
            bytes.now }
        ensures ok { OnOk result (offset.new ≡ offset.old + 40) }
        ensures err { OnErr result (offset.new ≡ offset.old) }
    {
        let mut end = *offset;
        let record = gread_slice(bytes, &mut end, SIZEOF_SECTION_TABLE)?;
        name_in_record(record, opts.parse_mode)?;
        *offset = end;
        Ok(SectionTable::in_record(record, None))
    }

    /// A copy with a real name of its own.
    ///
    /// # Errors
    /// [`Error::Memory`] if memory for the real name is refused.
    pub fn clone(&self, alloc: Global) -> Result<SectionTable>
        ensures { GivesOrMemory (λ s. s) result self.now }
    {
        let real_name = match &self.real_name {
            Some(name) => Some(copy_of(alloc, name.as_str())?),
            None => None,
        };
        Ok(SectionTable {
            name: self.name,
            real_name,
            virtual_size: self.virtual_size,
            virtual_address: self.virtual_address,
            size_of_raw_data: self.size_of_raw_data,
            pointer_to_raw_data: self.pointer_to_raw_data,
            pointer_to_relocations: self.pointer_to_relocations,
            pointer_to_linenumbers: self.pointer_to_linenumbers,
            number_of_relocations: self.number_of_relocations,
            number_of_linenumbers: self.number_of_linenumbers,
            characteristics: self.characteristics,
        })
    }

    /// The section's raw data in the file `bytes`: the bytes at its raw pointer, as many as its raw
    /// size, without the zeros that [`SectionTable::data`] adds. It borrows the bytes of the file,
    /// so it takes no memory. It may be empty, even at the end of the file.
    ///
    /// # Errors
    /// [`Error::Read`] if the raw data runs past the end of the file: `BadOffset` if it also begins
    /// at or past the end, else `TooBig`.
    pub fn raw_data<'b>(&self, bytes: &'b [u8]) -> Result<&'b [u8]>
        ensures { Reads (λ s. s.now) result (raw_data self.now) bytes.now }
    {
        raw_bytes(
            bytes,
            self.pointer_to_raw_data as usize,
            self.size_of_raw_data as usize,
        )
    }

    /// The section's data in the file `bytes`: its raw data, followed by zeros up to the virtual
    /// size if that is greater. `None` if the raw data runs past the end of the file.
    ///
    /// If no zeros follow, the data is borrowed and takes no memory. Otherwise it is a copy with as
    /// many bytes as the virtual size, which a hostile file may set to nearly 4 GiB.
    ///
    /// Source: PE Format, "Section Data".
    ///
    /// # Errors
    /// [`Error::Memory`] if memory for data with zeros is refused.
    pub fn data<'b>(
        &self,
        alloc: Global,
        bytes: &'b [u8],
    ) -> Result<Option<CowSlice<'b, u8, Global>>>
        ensures value { GivesOrMemory (λ d. option_map cow_slice_items d) result
            ((section_data self.now).value bytes.now) }
        ensures borrowed { IfOk result
            (λ d.
            IfSome d
            (λ items.
            IsBorrowedSlice items ↔ (self.now.virtual_size ≤ self.now.size_of_raw_data))) }
        ensures grown { OnErr result (self.now.size_of_raw_data < self.now.virtual_size) }
        ensures inside { OnErr result
            (self.now.pointer_to_raw_data + self.now.size_of_raw_data ≤ length bytes.now) }
    {
        let Ok(raw_data) = self.raw_data(bytes) else {
            return Ok(None);
        };
        let virtual_size = self.virtual_size as usize;
        if virtual_size <= raw_data.len() {
            return Ok(Some(CowSlice::Borrowed(raw_data)));
        }
        let mut padded = Vec::with_capacity(alloc, virtual_size)?;
        padded.extend_from_slice(raw_data)?;
        padded.resize(virtual_size, 0)?;
        Ok(Some(CowSlice::Owned(padded)))
    }

    /// The offset of the section's name in the string table, as
    /// [`SectionTable::name_offset_with_opts`] returns it with the default options.
    ///
    /// # Errors
    /// As [`SectionTable::name_offset_with_opts`] in strict mode.
    pub fn name_offset(&self) -> Result<Option<usize>>
        ensures { Answers (λ v. v) result (name_value true self.now.name)
            (IsNameFault true self.now.name) }
    {
        self.name_offset_with_opts(&ParseOptions::default())
    }

    /// The offset of the section's name in the string table, or `None` if the eight bytes are the
    /// name. The offset is in bytes from the length field with which the table begins.
    ///
    /// A name that begins with a slash is indirect. A decimal number follows one slash; a number in
    /// base 64 follows two. The most significant digit comes first.
    ///
    /// Source: PE Format, "Section Table (Section Headers)", for the decimal form. Linkers write
    /// the other form for numbers above 9,999,999.
    ///
    /// # Errors
    /// [`Error::Malformed`] with [`Cause::NameDecimal`] or [`Cause::NameBase64`] if no such number
    /// follows the slash or slashes. If the bytes there are not UTF-8, strict mode refuses them
    /// with [`Cause::NameText`], and permissive mode takes the eight bytes as the name.
    pub fn name_offset_with_opts(&self, opts: &ParseOptions) -> Result<Option<usize>>
        ensures { let strict = is_strict opts.now.parse_mode in
            Answers (λ v. v) result (name_value strict self.now.name)
            (IsNameFault strict self.now.name) }
    {
        name_value(&self.name, opts.parse_mode)
    }

    /// Sets the eight bytes to say that the section's name is at `idx` in the string table. `idx`
    /// is in bytes from the length field with which the table begins. The real name does not
    /// change, so [`SectionTable::name`] still returns it.
    ///
    /// # Errors
    /// [`Error::Malformed`] with [`Cause::NameOffset`] if `idx` does not fit into six digits of
    /// base 64; the section is then unchanged.
    pub fn set_name_offset(&mut self, idx: usize) -> Result<()>
        ensures name { OnOk result (indirect_name idx ≡ Some self.new.name) }
        ensures others { self.new ≡ record self.old { name = self.new.name } }
        ensures says { OnOk result
            ((strict : Bool) → name_value strict self.new.name ≡ Some (Some idx)) }
        ensures refused { IfErr result (λ e. (indirect_name idx ≡ None) × IsNameOffsetFault idx e) }
        ensures err { OnErr result (self.new ≡ self.old) }
    {
        let Some(name) = indirect_name(idx) else {
            return Err(Error::Malformed(Cause::NameOffset(idx)));
        };
        self.name = name;
        Ok(())
    }

    /// The section's name: the real name or, if there is none, the text of the eight bytes before a
    /// NUL.
    ///
    /// # Errors
    /// [`Error::Read`] with `BadInput` if there is no real name and the eight bytes before a NUL
    /// are not UTF-8.
    pub fn name(&self) -> Result<&str>
        ensures { Answers (λ s. s.now) result (name_of self.now.real_name self.now.name)
            (IsNoName self.now.real_name self.now.name) }
    {
        match &self.real_name {
            Some(name) => Ok(name.as_str()),
            None => pread_str_until(&self.name, 0, 8),
        }
    }

    /// The section's relocations in the file `bytes`. The section header gives their file offset
    /// and their number. The number 0xFFFF is taken literally, even if
    /// [`IMAGE_SCN_LNK_NRELOC_OVFL`] is set.
    ///
    /// Source: PE Format, "COFF Relocations (Object Only)".
    ///
    /// # Errors
    /// [`Error::Read`] if the relocations run past the end of the file, or begin at or past it,
    /// even if there are none.
    pub fn relocations<'b>(&self, bytes: &'b [u8]) -> Result<Relocations<'b>>
        ensures { let place = self.now.pointer_to_relocations in
            let count = self.now.number_of_relocations in
            Reads relocations_left result (mapped relocations_in (slice_at place (10 * count)))
            bytes.now }
    {
        let offset = self.pointer_to_relocations as usize;
        Relocations::parse(bytes, offset, self.number_of_relocations as usize)
    }

    /// Whether the raw data of the two sections overlaps in the file: neither ends at or before the
    /// offset where the other begins. So empty raw data strictly inside the other's overlaps it.
    pub fn overlaps_with(&self, other: &SectionTable) -> bool
        ensures overlap { IsTrue result ↔ OverlapRawData self.now other.now }
        ensures symmetric { IsTrue result ↔ OverlapRawData other.now self.now }
    {
        let end = u64::from(self.pointer_to_raw_data) + u64::from(self.size_of_raw_data);
        let other_end = u64::from(other.pointer_to_raw_data) + u64::from(other.size_of_raw_data);
        u64::from(self.pointer_to_raw_data) < other_end
            && u64::from(other.pointer_to_raw_data) < end
    }
}

impl SectionTable {
    /// The size of a section header in bytes: 40 in either byte order.
    pub fn size_with(_endian: &Endian) -> usize
        ensures { result ≡ 40 }
    {
        SIZEOF_SECTION_TABLE
    }

    /// Writes the section header to the front of `bytes` and returns its size, 40. The real name is
    /// not part of it. A section header that was read is written back unchanged. Any section reads
    /// back from what was written, in the same byte order, except for its real name.
    ///
    /// # Errors
    /// [`Error::Read`] if there is no room for 40 bytes; `bytes` is then unchanged.
    #[tactic(auto, using(crate::proofs::SectionTableRoundTrip::round_trips))]
    pub fn try_into_ctx(&self, bytes: &mut [u8], endian: Endian) -> Result<usize>
        ensures size { IfOk result (λ size. size ≡ 40) }
        ensures written { Writes result
            (overwritten bytes.old 0 (encoding endian (section_fields self.now))) bytes.old
            bytes.new (IsSliceFault bytes.old 0 40) }
        ensures back { WritesBack 40 section_record section_fields }
        ensures parsed_back { SectionWritesBack }
        ensures again { SectionReadsBack self.now }
    {
        pwrite_slice(bytes, 0, &self.to_bytes(endian))?;
        Ok(SIZEOF_SECTION_TABLE)
    }

    /// Writes the section header to the front of `bytes`, which must have room for 40 bytes.
    pub fn into_ctx(&self, bytes: &mut [u8], endian: Endian)
        requires { 40 ≤ length bytes.old }
        ensures { bytes.new ≡ replaced bytes.old 0 (encoding endian (section_fields self.now)) }
    {
        put_bytes(bytes, 0, &self.to_bytes(endian));
    }

    // The bytes of the section header.
    #[tactic(auto, using(crate::proofs::SectionTableRoundTrip::round_trips))]
    fn to_bytes(&self, endian: Endian) -> [u8; SIZEOF_SECTION_TABLE]
        ensures made { result ≡ encoding endian (section_fields self.now) }
        ensures again { SectionReadsBack self.now }
    {
        let fields = [
            Field::Bytes(&self.name),
            Field::U32(self.virtual_size),
            Field::U32(self.virtual_address),
            Field::U32(self.size_of_raw_data),
            Field::U32(self.pointer_to_raw_data),
            Field::U32(self.pointer_to_relocations),
            Field::U32(self.pointer_to_linenumbers),
            Field::U16(self.number_of_relocations),
            Field::U16(self.number_of_linenumbers),
            Field::U32(self.characteristics),
        ];
        encode_fields(&fields, endian)
    }
}

// The offset into the string table that the name in a section header holds, if it holds one. Most
// names do not begin with a slash, so only their first byte is read.
#[inline(always)]
#[tactic(auto, unfolding(crate::specs::SectionName::name_value))]
pub(crate) fn name_in_record(bytes: &[u8], mode: ParseMode) -> Result<Option<usize>>
    requires { length bytes.now ≡ 40 }
    ensures { let name = slice_range bytes.now 0 8 in
        Answers (λ v. v) result (name_value (is_strict mode) name)
        (IsNameFault (is_strict mode) name) }
{
    if bytes[0] != b'/' {
        return Ok(None);
    }
    name_value(&field_array(bytes, 0), mode)
}

// The offset into the string table that the eight bytes of a name hold, if they hold one.
#[tactic(auto, unfolding(crate::specs::SectionName::name_value))]
fn name_value(name: &[u8; 8], mode: ParseMode) -> Result<Option<usize>>
    ensures { Answers (λ v. v) result (name_value (is_strict mode) name.now)
        (IsNameFault (is_strict mode) name.now) }
{
    if name[0] != b'/' {
        return Ok(None);
    }
    if name[1] == b'/' {
        return match pread_str_until(name, 2, 6) {
            Ok(text) => match Digits::Base64.numeral(text.as_bytes()) {
                Some(number) => Ok(Some(number)),
                None => Err(Error::Malformed(Cause::NameBase64)),
            },
            Err(_) => no_text(mode),
        };
    }
    match pread_str_until(name, 1, 7) {
        Ok(text) => match decimal_number(text.as_bytes()) {
            Some(number) => Ok(Some(number)),
            None => Err(Error::Malformed(Cause::NameDecimal)),
        },
        Err(_) => no_text(mode),
    }
}

// What follows from a name that is not UTF-8 after its slashes: strict mode refuses it, and
// permissive mode takes it as a name without an offset.
fn no_text(mode: ParseMode) -> Result<Option<usize>>
    ensures { result ≡ (if is_strict mode then Err (Malformed NameText) else Ok None) }
{
    match mode {
        ParseMode::Strict => Err(Error::Malformed(Cause::NameText)),
        ParseMode::Permissive => Ok(None),
    }
}

// A copy of the text at `value` in the string table, if there is a text.
fn real_name(
    alloc: Global,
    bytes: &[u8],
    string_table_offset: usize,
    value: Option<usize>,
) -> Result<Option<String>>
    ensures { GivesOrMemory (λ name. option_map string_bytes name) result
        ((text_in_table string_table_offset value).value bytes.now) }
{
    let Some(offset) = value.and_then(|value| string_table_offset.checked_add(value)) else {
        return Ok(None);
    };
    match pread_str(bytes, offset) {
        Ok(name) => Ok(Some(copy_of(alloc, name)?)),
        Err(_) => Ok(None),
    }
}

// A copy of a text. A copy of an empty text takes no memory.
fn copy_of(alloc: Global, text: &str) -> Result<String>
    ensures { GivesOrMemory string_bytes result text.now }
{
    if text.is_empty() {
        return Ok(String::new(alloc));
    }
    Ok(String::from_str(alloc, text)?)
}
