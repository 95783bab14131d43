//! The standard fields of an optional header, for either width.

ghost use Rattle.std.specs.Prelude.{◌%◌, ◌^◌, ◌≡◌};
ghost use Rattle.goblin_base.specs.Record.{WritesRecord};
ghost use Rattle.goblin_pe_head.specs.OptionalHeader.{StandardFields32, StandardFields64};
ghost use Rattle.goblin_pe_head.specs.OptionalHeader.{standard_32_record, standard_32_fields};
ghost use Rattle.goblin_pe_head.specs.OptionalHeader.{standard_64_record, standard_64_fields};
ghost use Rattle.goblin_pe_head.specs.OptionalHeader.{standard_from_32, standard_from_64};
ghost use Rattle.goblin_pe_head.specs.OptionalHeader.{standard_to_32, standard_to_64};

use goblin_base::{Endian, Field, Record, Result, field_u8, field_u16, field_u32, put_fields};

/// The size of the standard fields for 32 bits, in bytes.
pub const SIZEOF_STANDARD_FIELDS_32: usize = 28;
/// The size of the standard fields for 64 bits, in bytes.
pub const SIZEOF_STANDARD_FIELDS_64: usize = 24;

const _: () = prove!(SIZEOF_STANDARD_FIELDS_32 == 28 && SIZEOF_STANDARD_FIELDS_64 == 24);

/// The standard fields of an optional header for 32 bits.
///
/// Source: PE Format, "Optional Header Standard Fields (Image Only)". Numbers are as stored; the
/// record has 28 bytes, and `at` gives a field's offset in it.
#[derive(Debug, PartialEq, Copy, Clone, Default)]
pub struct StandardFields32 {
    /// The magic of the optional header, [`MAGIC_32`](super::MAGIC_32), at 0.
    pub magic: u16,
    /// The linker's major version, at 2.
    pub major_linker_version: u8,
    /// The linker's minor version, at 3.
    pub minor_linker_version: u8,
    /// The size of the code, in bytes, at 4: the sum of all code sections.
    pub size_of_code: u32,
    /// The size of the initialized data, in bytes, at 8: the sum of all such sections.
    pub size_of_initialized_data: u32,
    /// The size of the uninitialized data, in bytes, at 12: the sum of all such sections.
    pub size_of_uninitialized_data: u32,
    /// The RVA of the entry point, at 16; 0 if there is none, as in some libraries. The loader
    /// starts there, in whatever section it lies.
    pub address_of_entry_point: u32,
    /// The RVA at which the code begins, at 20.
    pub base_of_code: u32,
    /// The RVA at which the data begins, at 24. Only images for 32 bits have this field.
    pub base_of_data: u32,
}

impl Record for StandardFields32 {
    ghost width = { 28 };

    ghost value = { standard_32_record };

    ghost fields = { standard_32_fields };

    fn size() -> usize {
        SIZEOF_STANDARD_FIELDS_32
    }

    fn in_record(bytes: &[u8], endian: Endian) -> StandardFields32 {
        StandardFields32 {
            magic: field_u16(bytes, 0, endian),
            major_linker_version: field_u8(bytes, 2),
            minor_linker_version: field_u8(bytes, 3),
            size_of_code: field_u32(bytes, 4, endian),
            size_of_initialized_data: field_u32(bytes, 8, endian),
            size_of_uninitialized_data: field_u32(bytes, 12, endian),
            address_of_entry_point: field_u32(bytes, 16, endian),
            base_of_code: field_u32(bytes, 20, endian),
            base_of_data: field_u32(bytes, 24, endian),
        }
    }

    #[tactic(auto, using(crate::proofs::RecordRoundTrips::round_trips))]
    fn put(self, bytes: &mut [u8], endian: Endian) {
        let fields = [
            Field::U16(self.magic),
            Field::U8(self.major_linker_version),
            Field::U8(self.minor_linker_version),
            Field::U32(self.size_of_code),
            Field::U32(self.size_of_initialized_data),
            Field::U32(self.size_of_uninitialized_data),
            Field::U32(self.address_of_entry_point),
            Field::U32(self.base_of_code),
            Field::U32(self.base_of_data),
        ];
        put_fields(bytes, SIZEOF_STANDARD_FIELDS_32, &fields, endian);
    }
}

impl StandardFields32 {
    /// Writes the record to the front of `bytes`, and returns its size, 28. A record that was read
    /// is written back unchanged, and any record reads back from what was written, in the same byte
    /// order.
    ///
    /// # Errors
    /// [`Error::Read`](goblin_base::Error::Read) if there is no room for 28 bytes; `bytes` is then
    /// unchanged.
    pub fn try_into_ctx(self, bytes: &mut [u8], endian: Endian) -> Result<usize>
        ensures { WritesRecord 28 standard_32_record standard_32_fields
            endian self result bytes.old bytes.new }
    {
        Record::try_into_ctx(self, bytes, endian)
    }

    /// The size of the record in bytes: 28 in either byte order.
    pub fn size_with(endian: &Endian) -> usize
        ensures { result ≡ 28 }
    {
        <StandardFields32 as Record>::size_with(endian)
    }
}

/// The standard fields of an optional header for 64 bits.
///
/// Source: PE Format, "Optional Header Standard Fields (Image Only)". Numbers are as stored; the
/// record has 24 bytes, and `at` gives a field's offset in it.
#[derive(Debug, PartialEq, Copy, Clone, Default)]
pub struct StandardFields64 {
    /// The magic of the optional header, [`MAGIC_64`](super::MAGIC_64), at 0.
    pub magic: u16,
    /// The linker's major version, at 2.
    pub major_linker_version: u8,
    /// The linker's minor version, at 3.
    pub minor_linker_version: u8,
    /// The size of the code, in bytes, at 4: the sum of all code sections.
    pub size_of_code: u32,
    /// The size of the initialized data, in bytes, at 8: the sum of all such sections.
    pub size_of_initialized_data: u32,
    /// The size of the uninitialized data, in bytes, at 12: the sum of all such sections.
    pub size_of_uninitialized_data: u32,
    /// The RVA of the entry point, at 16; 0 if there is none, as in some libraries. The loader
    /// starts there, in whatever section it lies.
    pub address_of_entry_point: u32,
    /// The RVA at which the code begins, at 20.
    pub base_of_code: u32,
}

impl Record for StandardFields64 {
    ghost width = { 24 };

    ghost value = { standard_64_record };

    ghost fields = { standard_64_fields };

    fn size() -> usize {
        SIZEOF_STANDARD_FIELDS_64
    }

    fn in_record(bytes: &[u8], endian: Endian) -> StandardFields64 {
        StandardFields64 {
            magic: field_u16(bytes, 0, endian),
            major_linker_version: field_u8(bytes, 2),
            minor_linker_version: field_u8(bytes, 3),
            size_of_code: field_u32(bytes, 4, endian),
            size_of_initialized_data: field_u32(bytes, 8, endian),
            size_of_uninitialized_data: field_u32(bytes, 12, endian),
            address_of_entry_point: field_u32(bytes, 16, endian),
            base_of_code: field_u32(bytes, 20, endian),
        }
    }

    #[tactic(auto, using(crate::proofs::RecordRoundTrips::round_trips))]
    fn put(self, bytes: &mut [u8], endian: Endian) {
        let fields = [
            Field::U16(self.magic),
            Field::U8(self.major_linker_version),
            Field::U8(self.minor_linker_version),
            Field::U32(self.size_of_code),
            Field::U32(self.size_of_initialized_data),
            Field::U32(self.size_of_uninitialized_data),
            Field::U32(self.address_of_entry_point),
            Field::U32(self.base_of_code),
        ];
        put_fields(bytes, SIZEOF_STANDARD_FIELDS_64, &fields, endian);
    }
}

impl StandardFields64 {
    /// Writes the record to the front of `bytes`, and returns its size, 24. A record that was read
    /// is written back unchanged, and any record reads back from what was written, in the same byte
    /// order.
    ///
    /// # Errors
    /// [`Error::Read`](goblin_base::Error::Read) if there is no room for 24 bytes; `bytes` is then
    /// unchanged.
    pub fn try_into_ctx(self, bytes: &mut [u8], endian: Endian) -> Result<usize>
        ensures { WritesRecord 24 standard_64_record standard_64_fields
            endian self result bytes.old bytes.new }
    {
        Record::try_into_ctx(self, bytes, endian)
    }

    /// The size of the record in bytes: 24 in either byte order.
    pub fn size_with(endian: &Endian) -> usize
        ensures { result ≡ 24 }
    {
        <StandardFields64 as Record>::size_with(endian)
    }
}

/// The standard fields of an optional header of either width.
///
/// Source: PE Format, "Optional Header Standard Fields (Image Only)". `at` gives a field's offset
/// from the front of the optional header, in both widths.
#[repr(C)]
#[derive(Debug, PartialEq, Copy, Clone, Default)]
pub struct StandardFields {
    /// The magic of the optional header, at 0: [`MAGIC_32`](super::MAGIC_32) or
    /// [`MAGIC_64`](super::MAGIC_64). It alone gives the width of the header and of the entries of
    /// import tables.
    pub magic: u16,
    /// The linker's major version, at 2.
    pub major_linker_version: u8,
    /// The linker's minor version, at 3.
    pub minor_linker_version: u8,
    /// The size of the code, in bytes, at 4: the sum of all code sections.
    pub size_of_code: u64,
    /// The size of the initialized data, in bytes, at 8: the sum of all such sections.
    pub size_of_initialized_data: u64,
    /// The size of the uninitialized data, in bytes, at 12: the sum of all such sections.
    pub size_of_uninitialized_data: u64,
    /// The RVA of the entry point, at 16; 0 if there is none, as in some libraries. The loader
    /// starts there, in whatever section it lies.
    pub address_of_entry_point: u32,
    /// The RVA at which the code begins, at 20.
    pub base_of_code: u64,
    /// The RVA at which the data begins, at 24, in an image for 32 bits; 0 in one for 64 bits.
    pub base_of_data: u32,
}

// The number modulo 2^32.
fn low_half(number: u64) -> u32
    ensures { result ≡ number % 2 ^ 32 }
{
    (number & 0xFFFF_FFFF) as u32
}

impl From<StandardFields32> for StandardFields {
    ghost from_gives = { λ s made. made ≡ standard_from_32 s };

    /// The same fields.
    #[tactic(auto, unfolding(crate::specs::OptionalHeader::standard_from_32))]
    fn from(fields: StandardFields32) -> StandardFields {
        StandardFields {
            magic: fields.magic,
            major_linker_version: fields.major_linker_version,
            minor_linker_version: fields.minor_linker_version,
            size_of_code: u64::from(fields.size_of_code),
            size_of_initialized_data: u64::from(fields.size_of_initialized_data),
            size_of_uninitialized_data: u64::from(fields.size_of_uninitialized_data),
            address_of_entry_point: fields.address_of_entry_point,
            base_of_code: u64::from(fields.base_of_code),
            base_of_data: fields.base_of_data,
        }
    }
}

impl From<StandardFields64> for StandardFields {
    ghost from_gives = { λ s made. made ≡ standard_from_64 s };

    /// The same fields, with 0 as the base of data.
    #[tactic(auto, unfolding(crate::specs::OptionalHeader::standard_from_64))]
    fn from(fields: StandardFields64) -> StandardFields {
        StandardFields {
            magic: fields.magic,
            major_linker_version: fields.major_linker_version,
            minor_linker_version: fields.minor_linker_version,
            size_of_code: u64::from(fields.size_of_code),
            size_of_initialized_data: u64::from(fields.size_of_initialized_data),
            size_of_uninitialized_data: u64::from(fields.size_of_uninitialized_data),
            address_of_entry_point: fields.address_of_entry_point,
            base_of_code: u64::from(fields.base_of_code),
            base_of_data: 0,
        }
    }
}

impl From<StandardFields> for StandardFields32 {
    ghost from_gives = { λ s made. made ≡ standard_to_32 s };

    /// The same fields, each modulo 2^32.
    #[tactic(auto, unfolding(crate::specs::OptionalHeader::standard_to_32))]
    fn from(fields: StandardFields) -> StandardFields32 {
        StandardFields32 {
            magic: fields.magic,
            major_linker_version: fields.major_linker_version,
            minor_linker_version: fields.minor_linker_version,
            size_of_code: low_half(fields.size_of_code),
            size_of_initialized_data: low_half(fields.size_of_initialized_data),
            size_of_uninitialized_data: low_half(fields.size_of_uninitialized_data),
            address_of_entry_point: fields.address_of_entry_point,
            base_of_code: low_half(fields.base_of_code),
            base_of_data: fields.base_of_data,
        }
    }
}

impl From<StandardFields> for StandardFields64 {
    ghost from_gives = { λ s made. made ≡ standard_to_64 s };

    /// The same fields, each modulo 2^32, without the base of data.
    #[tactic(auto, unfolding(crate::specs::OptionalHeader::standard_to_64))]
    fn from(fields: StandardFields) -> StandardFields64 {
        StandardFields64 {
            magic: fields.magic,
            major_linker_version: fields.major_linker_version,
            minor_linker_version: fields.minor_linker_version,
            size_of_code: low_half(fields.size_of_code),
            size_of_initialized_data: low_half(fields.size_of_initialized_data),
            size_of_uninitialized_data: low_half(fields.size_of_uninitialized_data),
            address_of_entry_point: fields.address_of_entry_point,
            base_of_code: low_half(fields.base_of_code),
        }
    }
}
