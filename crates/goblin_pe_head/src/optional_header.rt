//! The optional header of an image: what a loader needs to know about it.
//!
//! The standard fields and the Windows fields have two widths, for images of 32 bits (PE32) and of
//! 64 bits (PE32+). The magic says which. The data directories follow.

ghost use Rattle.std.specs.Prelude.{◌≡◌, ◌≤◌, length, IfErr, IfOk, IfSome, IsSomeAnd, None, OnErr};
ghost use Rattle.std.specs.Prelude.{OnOk, Some, option_and_then, option_map};
ghost use Rattle.goblin_base.specs.{Reading.Reads, Bytes.overwritten, Record.ReadsBack};
ghost use Rattle.goblin_base.specs.Answers.{Answers, Writes, IsSliceFault, FirstFault};
ghost use Rattle.goblin_pe_head.specs.OptionalHeader.{OptionalHeader, IsBadMagic, IsUnwritten};
ghost use Rattle.goblin_pe_head.specs.OptionalHeader.{fields_size, IsTooWide, bytes_32, bytes_64};
ghost use Rattle.goblin_pe_head.specs.OptionalHeader.{container_of, optional_bytes, standard_to_32};
ghost use Rattle.goblin_pe_head.specs.OptionalHeader.{standard_32_fields, standard_32_record};
ghost use Rattle.goblin_pe_head.specs.OptionalHeader.{standard_64_fields, standard_64_record};
ghost use Rattle.goblin_pe_head.specs.OptionalHeader.{standard_to_64, windows_to_32, written_bytes};
ghost use Rattle.goblin_pe_head.specs.OptionalHeader.{windows_32_fields, windows_32_record};
ghost use Rattle.goblin_pe_head.specs.OptionalHeader.{windows_record_fields, windows_record};
ghost use Rattle.goblin_pe_head.specs.HeaderLaws.{FieldsReadBack, OptionalWritesBack};
ghost use Rattle.goblin_pe_head.specs.HeaderReadings as reading;
ghost use Rattle.goblin_pe_head.specs.OptionalHeaderLaws.{optional_header-within};

use goblin_base::{
    Container, Endian, Error, Field, Record, Result, TryFromCtx, encode, encode_fields,
    pread_slice, pread_u16, pwrite_slice,
};
use goblin_pe_sect::DataDirectories;
use goblin_pe_sect::data_directories::SIZEOF_DATA_DIRECTORY;

mod magic;
mod standard_fields;
mod windows_fields;

pub use magic::{
    IMAGE_NT_OPTIONAL_HDR32_MAGIC, IMAGE_NT_OPTIONAL_HDR64_MAGIC, IMAGE_ROM_OPTIONAL_HDR_MAGIC,
    MAGIC_32, MAGIC_64,
};
pub use standard_fields::{
    SIZEOF_STANDARD_FIELDS_32, SIZEOF_STANDARD_FIELDS_64, StandardFields, StandardFields32,
    StandardFields64,
};
pub use windows_fields::{
    OFFSET_WINDOWS_FIELDS_32_CHECKSUM, OFFSET_WINDOWS_FIELDS_64_CHECKSUM, SIZEOF_WINDOWS_FIELDS_32,
    SIZEOF_WINDOWS_FIELDS_64, WindowsFields, WindowsFields32, WindowsFields64,
};

/// The optional header of an image of either width.
///
/// Source: PE Format, "Optional Header (Image Only)". An image must have one; an object has none.
/// `at` gives a field's offset from the front of the optional header, first for 32 bits, then for
/// 64 bits.
#[derive(Debug, PartialEq, Copy, Clone)]
pub struct OptionalHeader {
    /// The standard fields, at 0, which any loader of COFF files uses.
    pub standard_fields: StandardFields,
    /// The Windows fields, at 28 or 24.
    pub windows_fields: WindowsFields,
    /// The data directories, at 96 or 112, which say where the tables of the image lie. There are
    /// as many as the last Windows field says. The offset in an entry counts from the front of the
    /// optional header.
    pub data_directories: DataDirectories,
}

// The fields before the data directories, and their size in bytes.
#[derive(Copy, Clone)]
pub(crate) struct FixedFields {
    pub(crate) standard_fields: StandardFields,
    pub(crate) windows_fields: WindowsFields,
    pub(crate) size: usize,
}

/// The written form of an optional header, by its width.
#[derive(Copy, Clone)]
pub(crate) enum WrittenHeader {
    /// No bytes: there is no optional header.
    Absent,
    /// For 32 bits.
    Narrow([u8; 224]),
    /// For 64 bits.
    Wide([u8; 240]),
}

impl WrittenHeader {
    pub(crate) fn as_slice(&self) -> &[u8]
        ensures value { result.now ≡ written_bytes self.now }
        ensures most { length result.now ≤ 240 }
    {
        match self {
            WrittenHeader::Absent => &[],
            WrittenHeader::Narrow(bytes) => bytes,
            WrittenHeader::Wide(bytes) => bytes,
        }
    }
}

// The standard fields in the width that the magic gives.
#[inline(always)]
#[tactic(auto, unfolding(crate::specs::HeaderReadings::standard_by))]
pub(crate) fn standard_by(bytes: &[u8], magic: u16) -> Result<StandardFields>
    ensures { Reads (λ f. f) result (reading.standard_by magic) bytes.now }
{
    if magic == MAGIC_32 {
        let record = pread_slice(bytes, 0, SIZEOF_STANDARD_FIELDS_32)?;
        let fields = StandardFields32::in_record(record, Endian::Little);
        return Ok(StandardFields::from(fields));
    }
    if magic != MAGIC_64 {
        return Err(Error::BadMagic(u64::from(magic)));
    }
    let record = pread_slice(bytes, 0, SIZEOF_STANDARD_FIELDS_64)?;
    let fields = StandardFields64::in_record(record, Endian::Little);
    Ok(StandardFields::from(fields))
}

// The Windows fields in the width that the magic gives.
#[inline(always)]
#[tactic(auto, unfolding(crate::specs::HeaderReadings::windows_by))]
pub(crate) fn windows_by(bytes: &[u8], magic: u16) -> Result<WindowsFields>
    ensures { Reads (λ f. f) result (reading.windows_by magic) bytes.now }
{
    if magic == MAGIC_32 {
        let record = pread_slice(bytes, SIZEOF_STANDARD_FIELDS_32, SIZEOF_WINDOWS_FIELDS_32)?;
        let fields = WindowsFields32::in_record(record, Endian::Little);
        return Ok(WindowsFields::from(fields));
    }
    if magic != MAGIC_64 {
        return Err(Error::BadMagic(u64::from(magic)));
    }
    let record = pread_slice(bytes, SIZEOF_STANDARD_FIELDS_64, SIZEOF_WINDOWS_FIELDS_64)?;
    Ok(WindowsFields64::in_record(record, Endian::Little))
}

// The size in bytes of the fields before the data directories.
#[inline(always)]
pub(crate) fn fields_size(magic: u16) -> usize
    ensures { result ≡ fields_size magic }
{
    if magic == MAGIC_32 {
        SIZEOF_STANDARD_FIELDS_32 + SIZEOF_WINDOWS_FIELDS_32
    } else {
        SIZEOF_STANDARD_FIELDS_64 + SIZEOF_WINDOWS_FIELDS_64
    }
}

// The fields before the data directories, in the width that the magic gives.
#[inline(always)]
#[tactic(auto, unfolding(crate::specs::HeaderReadings::fixed_fields))]
pub(crate) fn fixed_fields(magic: u16, bytes: &[u8]) -> Result<FixedFields>
    ensures value { Reads (λ f. f) result (reading.fixed_fields magic) bytes.now }
    ensures size { IfOk result (λ f. f.size ≤ 112) }
{
    let standard_fields = standard_by(bytes, magic)?;
    let windows_fields = windows_by(bytes, magic)?;
    Ok(FixedFields {
        standard_fields,
        windows_fields,
        size: fields_size(magic),
    })
}

// Reads the fields of the optional header at the front of `bytes`, and tests that the data
// directories after them can be read.
#[inline(always)]
#[tactic(auto, unfolding(crate::specs::HeaderReadings::optional_header))]
pub(crate) fn tested_fields(bytes: &[u8]) -> Result<FixedFields>
    ensures value { IfOk result (λ f. reading.optional_header.value bytes.now
        ≡ option_map (λ entries. (reading.with_entries f entries, reading.size_of f))
        ((reading.entries_after f).value bytes.now)) }
    ensures there { IfOk result (reading.AreThere bytes.now) }
    ensures none { OnErr result (reading.optional_header.value bytes.now ≡ None) }
    ensures cause { IfErr result (reading.optional_header.IsCause bytes.now) }
{
    let magic = pread_u16(bytes, 0, Endian::Little)?;
    let fields = fixed_fields(magic, bytes)?;
    let count = fields.windows_fields.number_of_rva_and_sizes as usize;
    DataDirectories::test(bytes, count, fields.size)?;
    Ok(fields)
}

impl OptionalHeader {
    // An optional header with these fields. Its data directories are yet to be read.
    pub(crate) fn of_fields(fields: FixedFields) -> OptionalHeader
        ensures standard { result.standard_fields ≡ fields.standard_fields }
        ensures windows { result.windows_fields ≡ fields.windows_fields }
    {
        OptionalHeader {
            standard_fields: fields.standard_fields,
            windows_fields: fields.windows_fields,
            data_directories: DataDirectories::default(),
        }
    }

    // Reads the data directories that follow `fields`, which must be the fields of this header.
    #[inline(always)]
    pub(crate) fn read_directories(&mut self, bytes: &[u8], fields: &FixedFields)
        requires there { reading.AreThere bytes.now fields.now }
        requires standard { self.old.standard_fields ≡ fields.now.standard_fields }
        requires windows { self.old.windows_fields ≡ fields.now.windows_fields }
        ensures { option_map (reading.with_entries fields.now)
            ((reading.entries_after fields.now).value bytes.now) ≡ Some self.new }
    {
        let count = fields.windows_fields.number_of_rva_and_sizes as usize;
        self.data_directories.read(bytes, count, fields.size);
    }
}

impl TryFromCtx<'_> for OptionalHeader {
    ghost Modelled = { OptionalHeader };

    ghost model = { λ header. header };

    ghost value_of = { λ _ bytes. reading.optional_header.value bytes };

    ghost refusal = { λ _ bytes e. reading.optional_header.IsCause bytes e };

    ghost within = { λ _ bytes. optional_header-within bytes };

    /// Reads the optional header at the front of `bytes`, always as little-endian, and returns the
    /// pair (header, its size in bytes with the data directories). The magic alone gives the width.
    ///
    /// # Errors
    /// [`Error::Read`] if a part runs past the end; [`Error::BadMagic`] if the magic is neither
    /// [`MAGIC_32`] nor [`MAGIC_64`]; [`Error::Malformed`] with `DirectoryCount` if there are more
    /// than sixteen data directories.
    #[inline(always)]
    #[tactic(auto, unfolding(crate::specs::HeaderReadings::optional_header))]
    fn try_from_ctx(bytes: &[u8], _endian: Endian) -> Result<(OptionalHeader, usize)> {
        let fields = tested_fields(bytes)?;
        let mut header = OptionalHeader::of_fields(fields);
        header.read_directories(bytes, &fields);
        let count = fields.windows_fields.number_of_rva_and_sizes as usize;
        Ok((header, fields.size + SIZEOF_DATA_DIRECTORY * count))
    }
}

impl OptionalHeader {
    /// The width of the image, which the magic gives.
    ///
    /// # Errors
    /// [`Error::BadMagic`] if the magic is neither [`MAGIC_32`] nor [`MAGIC_64`].
    pub fn container(&self) -> Result<Container>
        ensures { Answers (λ c. c) result (container_of self.now.standard_fields.magic)
            (IsBadMagic self.now.standard_fields.magic) }
    {
        match self.standard_fields.magic {
            MAGIC_32 => Ok(Container::Little),
            MAGIC_64 => Ok(Container::Big),
            magic => Err(Error::BadMagic(u64::from(magic))),
        }
    }

    // The written form of an optional header for 32 bits.
    fn bytes_32(&self, endian: Endian) -> Result<[u8; 224]>
        ensures made { Answers (λ bytes. bytes) result (bytes_32 endian self.now)
            (λ e. (windows_to_32 self.now.windows_fields ≡ None) × IsTooWide e) }
        ensures standard { OnOk result (ReadsBack 28 standard_32_record standard_32_fields
            (standard_to_32 self.now.standard_fields)) }
        ensures windows { OnOk result (IfSome (windows_to_32 self.now.windows_fields)
            (ReadsBack 68 windows_32_record windows_32_fields)) }
    {
        let windows = WindowsFields32::try_from(self.windows_fields)?;
        let windows: [u8; SIZEOF_WINDOWS_FIELDS_32] = encode(windows, endian);
        let standard = StandardFields32::from(self.standard_fields);
        let standard: [u8; SIZEOF_STANDARD_FIELDS_32] = encode(standard, endian);
        let directories = self.data_directories.to_bytes(endian);
        let parts = [
            Field::Bytes(&standard),
            Field::Bytes(&windows),
            Field::Bytes(&directories),
        ];
        Ok(encode_fields(&parts, endian))
    }

    // The written form of an optional header for 64 bits.
    fn bytes_64(&self, endian: Endian) -> [u8; 240]
        ensures made { result ≡ bytes_64 endian self.now }
        ensures standard { ReadsBack 24 standard_64_record standard_64_fields
            (standard_to_64 self.now.standard_fields) }
        ensures windows { ReadsBack 88 (windows_record 8) (windows_record_fields 8)
            self.now.windows_fields }
    {
        let standard = StandardFields64::from(self.standard_fields);
        let standard: [u8; SIZEOF_STANDARD_FIELDS_64] = encode(standard, endian);
        let windows: [u8; SIZEOF_WINDOWS_FIELDS_64] = encode(self.windows_fields, endian);
        let directories = self.data_directories.to_bytes(endian);
        let parts = [
            Field::Bytes(&standard),
            Field::Bytes(&windows),
            Field::Bytes(&directories),
        ];
        encode_fields(&parts, endian)
    }

    /// The written form of this header.
    ///
    /// # Errors
    /// [`Error::BadMagic`] if the magic is neither [`MAGIC_32`] nor [`MAGIC_64`];
    /// [`Error::Malformed`] with `FieldTooWide` if the magic is [`MAGIC_32`] and a Windows field
    /// does not fit 32 bits.
    #[tactic(auto, unfolding(crate::specs::OptionalHeader::optional_bytes))]
    pub(crate) fn to_bytes(&self, endian: Endian) -> Result<WrittenHeader>
        ensures made { Answers written_bytes result (optional_bytes endian self.now)
            (IsUnwritten self.now) }
        ensures again { OnOk result (FieldsReadBack self.now) }
    {
        match self.standard_fields.magic {
            MAGIC_32 => Ok(WrittenHeader::Narrow(self.bytes_32(endian)?)),
            MAGIC_64 => Ok(WrittenHeader::Wide(self.bytes_64(endian))),
            magic => Err(Error::BadMagic(u64::from(magic))),
        }
    }

    /// Writes the optional header to the front of `bytes` and returns its size, 224 or 240 bytes.
    /// It writes the fields in the width that the magic gives, then always sixteen data
    /// directories; those that are `None` are written as zeros. Standard fields are written modulo
    /// 2^32. In little-endian order, a header that was read is written as its own bytes, followed
    /// by zeros for the data directories that it lacks.
    ///
    /// # Errors
    /// In this order: [`Error::BadMagic`] if the magic is neither [`MAGIC_32`] nor [`MAGIC_64`];
    /// [`Error::Malformed`] with `FieldTooWide` if the magic is [`MAGIC_32`] and a Windows field
    /// does not fit 32 bits; [`Error::Read`] if there is no room. `bytes` is then unchanged.
    #[tactic(auto, using(crate::proofs::OptionalHeaderRoundTrip::optional_back))]
    pub fn try_into_ctx(self, bytes: &mut [u8], endian: Endian) -> Result<usize>
        ensures size { IfOk result
            (λ n. IsSomeAnd (optional_bytes endian self) (λ written. n ≡ length written)) }
        ensures written { let made = optional_bytes endian self in
            let IsFault = FirstFault made (IsUnwritten self)
            (λ written. IsSliceFault bytes.old 0 (length written)) in
            Writes result (option_and_then (overwritten bytes.old 0) made) bytes.old bytes.new
            IsFault }
        ensures back { OptionalWritesBack }
    {
        let written = self.to_bytes(endian)?;
        let written = written.as_slice();
        pwrite_slice(bytes, 0, written)?;
        Ok(written.len())
    }
}
