//! The Windows fields of an optional header, for either width.

ghost use Rattle.std.specs.Prelude.{◌≡◌};
ghost use Rattle.goblin_base.specs.Record.{WritesRecord};
ghost use Rattle.goblin_pe_head.specs.OptionalHeader.{WindowsFields32, WindowsFields64};
ghost use Rattle.goblin_pe_head.specs.OptionalHeader.{windows_32_record, windows_32_fields};
ghost use Rattle.goblin_pe_head.specs.OptionalHeader.{windows_record, windows_record_fields};
ghost use Rattle.goblin_pe_head.specs.OptionalHeader.{windows_from_32, windows_to_32, narrowed};
ghost use Rattle.goblin_pe_head.specs.OptionalHeader.{NarrowsWindows};

use goblin_base::{
    Cause, Endian, Error, Field, Record, Result, field_u16, field_u32, field_u64, put_fields,
};

/// The size of the Windows fields for 32 bits, in bytes.
pub const SIZEOF_WINDOWS_FIELDS_32: usize = 68;
/// The offset of the checksum in the Windows fields for 32 bits, in bytes from their front.
pub const OFFSET_WINDOWS_FIELDS_32_CHECKSUM: usize = 36;
/// The size of the Windows fields for 64 bits, in bytes.
pub const SIZEOF_WINDOWS_FIELDS_64: usize = 88;
/// The offset of the checksum in the Windows fields for 64 bits, in bytes from their front.
pub const OFFSET_WINDOWS_FIELDS_64_CHECKSUM: usize = 40;

const _: () = prove!(
    SIZEOF_WINDOWS_FIELDS_32 == 68
        && OFFSET_WINDOWS_FIELDS_32_CHECKSUM == 36
        && SIZEOF_WINDOWS_FIELDS_64 == 88
        && OFFSET_WINDOWS_FIELDS_64_CHECKSUM == 40
);

/// The Windows fields of an optional header for 32 bits.
///
/// Source: PE Format, "Optional Header Windows-Specific Fields (Image Only)". Numbers are as
/// stored; the record has 68 bytes, and `at` gives a field's offset in it. The record begins at 28
/// in the optional header.
#[derive(Debug, PartialEq, Copy, Clone, Default)]
pub struct WindowsFields32 {
    /// The preferred address of the image in memory, a multiple of 64 KiB, at 0. If the loader uses
    /// another address, it applies the base relocations.
    pub image_base: u32,
    /// The alignment of sections in memory, in bytes, at 4: at least the file alignment, mostly a
    /// page.
    pub section_alignment: u32,
    /// The alignment of the raw data of sections in the file, in bytes, at 8: a power of two,
    /// mostly 512. The mapping of addresses to file offsets depends on it.
    pub file_alignment: u32,
    /// The major version of the operating system that the image needs, at 12.
    pub major_operating_system_version: u16,
    /// The minor version of the operating system that the image needs, at 14.
    pub minor_operating_system_version: u16,
    /// The image's major version, at 16.
    pub major_image_version: u16,
    /// The image's minor version, at 18.
    pub minor_image_version: u16,
    /// The major version of the subsystem that the image needs, at 20.
    pub major_subsystem_version: u16,
    /// The minor version of the subsystem that the image needs, at 22.
    pub minor_subsystem_version: u16,
    /// Reserved, 0, at 24.
    pub win32_version_value: u32,
    /// The size of the image in memory with all headers, in bytes, at 28. It is a multiple of the
    /// section alignment, and what the loader reserves.
    pub size_of_image: u32,
    /// The size of all headers together, in bytes, rounded up to the file alignment, at 32. The
    /// loader maps this much of the front of the file at the image's base, in whole file blocks,
    /// but no more than whole pages of 4,096 bytes.
    pub size_of_headers: u32,
    /// The checksum of the image, at 36. The loader tests it for drivers and for images that are
    /// loaded at boot; no reader tests it.
    pub check_sum: u32,
    /// The subsystem that runs the image, an `IMAGE_SUBSYSTEM_*` (PE Format, "Windows Subsystem"),
    /// at 40.
    pub subsystem: u16,
    /// What the image allows and requires of the loader, as bits `IMAGE_DLLCHARACTERISTICS_*` (PE
    /// Format, "DLL Characteristics"), at 42: whether the loader may move the image, and which
    /// guards it turns on.
    pub dll_characteristics: u16,
    /// How much of the stack to reserve, in bytes, at 44.
    pub size_of_stack_reserve: u32,
    /// How much of the stack to commit, in bytes, at 48; the rest follows page by page.
    pub size_of_stack_commit: u32,
    /// How much of the heap to reserve, in bytes, at 52.
    pub size_of_heap_reserve: u32,
    /// How much of the heap to commit, in bytes, at 56; the rest follows page by page.
    pub size_of_heap_commit: u32,
    /// Reserved, 0, at 60.
    pub loader_flags: u32,
    /// How many data directories follow, at 64. A reader of a whole header refuses more than
    /// sixteen. Data directories past this number do not exist, whatever bytes follow.
    pub number_of_rva_and_sizes: u32,
}

impl Record for WindowsFields32 {
    ghost width = { 68 };

    ghost value = { windows_32_record };

    ghost fields = { windows_32_fields };

    fn size() -> usize {
        SIZEOF_WINDOWS_FIELDS_32
    }

    fn in_record(bytes: &[u8], endian: Endian) -> WindowsFields32 {
        WindowsFields32 {
            image_base: field_u32(bytes, 0, endian),
            section_alignment: field_u32(bytes, 4, endian),
            file_alignment: field_u32(bytes, 8, endian),
            major_operating_system_version: field_u16(bytes, 12, endian),
            minor_operating_system_version: field_u16(bytes, 14, endian),
            major_image_version: field_u16(bytes, 16, endian),
            minor_image_version: field_u16(bytes, 18, endian),
            major_subsystem_version: field_u16(bytes, 20, endian),
            minor_subsystem_version: field_u16(bytes, 22, endian),
            win32_version_value: field_u32(bytes, 24, endian),
            size_of_image: field_u32(bytes, 28, endian),
            size_of_headers: field_u32(bytes, 32, endian),
            check_sum: field_u32(bytes, 36, endian),
            subsystem: field_u16(bytes, 40, endian),
            dll_characteristics: field_u16(bytes, 42, endian),
            size_of_stack_reserve: field_u32(bytes, 44, endian),
            size_of_stack_commit: field_u32(bytes, 48, endian),
            size_of_heap_reserve: field_u32(bytes, 52, endian),
            size_of_heap_commit: field_u32(bytes, 56, endian),
            loader_flags: field_u32(bytes, 60, endian),
            number_of_rva_and_sizes: field_u32(bytes, 64, endian),
        }
    }

    #[tactic(auto, using(crate::proofs::RecordRoundTrips::round_trips))]
    fn put(self, bytes: &mut [u8], endian: Endian) {
        let fields = [
            Field::U32(self.image_base),
            Field::U32(self.section_alignment),
            Field::U32(self.file_alignment),
            Field::U16(self.major_operating_system_version),
            Field::U16(self.minor_operating_system_version),
            Field::U16(self.major_image_version),
            Field::U16(self.minor_image_version),
            Field::U16(self.major_subsystem_version),
            Field::U16(self.minor_subsystem_version),
            Field::U32(self.win32_version_value),
            Field::U32(self.size_of_image),
            Field::U32(self.size_of_headers),
            Field::U32(self.check_sum),
            Field::U16(self.subsystem),
            Field::U16(self.dll_characteristics),
            Field::U32(self.size_of_stack_reserve),
            Field::U32(self.size_of_stack_commit),
            Field::U32(self.size_of_heap_reserve),
            Field::U32(self.size_of_heap_commit),
            Field::U32(self.loader_flags),
            Field::U32(self.number_of_rva_and_sizes),
        ];
        put_fields(bytes, SIZEOF_WINDOWS_FIELDS_32, &fields, endian);
    }
}

impl WindowsFields32 {
    /// Writes the record to the front of `bytes`, and returns its size, 68. A record that was read
    /// is written back unchanged, and any record reads back from what was written, in the same byte
    /// order.
    ///
    /// # Errors
    /// [`Error::Read`] if there is no room for 68 bytes; `bytes` is then unchanged.
    pub fn try_into_ctx(self, bytes: &mut [u8], endian: Endian) -> Result<usize>
        ensures { WritesRecord 68 windows_32_record windows_32_fields
            endian self result bytes.old bytes.new }
    {
        Record::try_into_ctx(self, bytes, endian)
    }

    /// The size of the record in bytes: 68 in either byte order.
    pub fn size_with(endian: &Endian) -> usize
        ensures { result ≡ 68 }
    {
        <WindowsFields32 as Record>::size_with(endian)
    }
}

/// The Windows fields of an optional header for 64 bits.
///
/// Source: PE Format, "Optional Header Windows-Specific Fields (Image Only)". Numbers are as
/// stored; the record has 88 bytes, and `at` gives a field's offset in it. The record begins at 24
/// in the optional header.
#[repr(C)]
#[derive(Debug, PartialEq, Copy, Clone, Default)]
pub struct WindowsFields64 {
    /// The preferred address of the image in memory, a multiple of 64 KiB, at 0. If the loader uses
    /// another address, it applies the base relocations.
    pub image_base: u64,
    /// The alignment of sections in memory, in bytes, at 8: at least the file alignment, mostly a
    /// page.
    pub section_alignment: u32,
    /// The alignment of the raw data of sections in the file, in bytes, at 12: a power of two,
    /// mostly 512. The mapping of addresses to file offsets depends on it.
    pub file_alignment: u32,
    /// The major version of the operating system that the image needs, at 16.
    pub major_operating_system_version: u16,
    /// The minor version of the operating system that the image needs, at 18.
    pub minor_operating_system_version: u16,
    /// The image's major version, at 20.
    pub major_image_version: u16,
    /// The image's minor version, at 22.
    pub minor_image_version: u16,
    /// The major version of the subsystem that the image needs, at 24.
    pub major_subsystem_version: u16,
    /// The minor version of the subsystem that the image needs, at 26.
    pub minor_subsystem_version: u16,
    /// Reserved, 0, at 28.
    pub win32_version_value: u32,
    /// The size of the image in memory with all headers, in bytes, at 32. It is a multiple of the
    /// section alignment, and what the loader reserves.
    pub size_of_image: u32,
    /// The size of all headers together, in bytes, rounded up to the file alignment, at 36. The
    /// loader maps this much of the front of the file at the image's base, in whole file blocks,
    /// but no more than whole pages of 4,096 bytes.
    pub size_of_headers: u32,
    /// The checksum of the image, at 40. The loader tests it for drivers and for images that are
    /// loaded at boot; no reader tests it.
    pub check_sum: u32,
    /// The subsystem that runs the image, an `IMAGE_SUBSYSTEM_*` (PE Format, "Windows Subsystem"),
    /// at 44.
    pub subsystem: u16,
    /// What the image allows and requires of the loader, as bits `IMAGE_DLLCHARACTERISTICS_*` (PE
    /// Format, "DLL Characteristics"), at 46: whether the loader may move the image, and which
    /// guards it turns on.
    pub dll_characteristics: u16,
    /// How much of the stack to reserve, in bytes, at 48.
    pub size_of_stack_reserve: u64,
    /// How much of the stack to commit, in bytes, at 56; the rest follows page by page.
    pub size_of_stack_commit: u64,
    /// How much of the heap to reserve, in bytes, at 64.
    pub size_of_heap_reserve: u64,
    /// How much of the heap to commit, in bytes, at 72; the rest follows page by page.
    pub size_of_heap_commit: u64,
    /// Reserved, 0, at 80.
    pub loader_flags: u32,
    /// How many data directories follow, at 84. A reader of a whole header refuses more than
    /// sixteen. Data directories past this number do not exist, whatever bytes follow.
    pub number_of_rva_and_sizes: u32,
}

impl Record for WindowsFields64 {
    ghost width = { 88 };

    ghost value = { windows_record 8 };

    ghost fields = { windows_record_fields 8 };

    fn size() -> usize {
        SIZEOF_WINDOWS_FIELDS_64
    }

    #[inline(always)]
    fn in_record(bytes: &[u8], endian: Endian) -> WindowsFields64 {
        WindowsFields64 {
            image_base: field_u64(bytes, 0, endian),
            section_alignment: field_u32(bytes, 8, endian),
            file_alignment: field_u32(bytes, 12, endian),
            major_operating_system_version: field_u16(bytes, 16, endian),
            minor_operating_system_version: field_u16(bytes, 18, endian),
            major_image_version: field_u16(bytes, 20, endian),
            minor_image_version: field_u16(bytes, 22, endian),
            major_subsystem_version: field_u16(bytes, 24, endian),
            minor_subsystem_version: field_u16(bytes, 26, endian),
            win32_version_value: field_u32(bytes, 28, endian),
            size_of_image: field_u32(bytes, 32, endian),
            size_of_headers: field_u32(bytes, 36, endian),
            check_sum: field_u32(bytes, 40, endian),
            subsystem: field_u16(bytes, 44, endian),
            dll_characteristics: field_u16(bytes, 46, endian),
            size_of_stack_reserve: field_u64(bytes, 48, endian),
            size_of_stack_commit: field_u64(bytes, 56, endian),
            size_of_heap_reserve: field_u64(bytes, 64, endian),
            size_of_heap_commit: field_u64(bytes, 72, endian),
            loader_flags: field_u32(bytes, 80, endian),
            number_of_rva_and_sizes: field_u32(bytes, 84, endian),
        }
    }

    #[tactic(auto, using(crate::proofs::RecordRoundTrips::round_trips))]
    fn put(self, bytes: &mut [u8], endian: Endian) {
        let fields = [
            Field::U64(self.image_base),
            Field::U32(self.section_alignment),
            Field::U32(self.file_alignment),
            Field::U16(self.major_operating_system_version),
            Field::U16(self.minor_operating_system_version),
            Field::U16(self.major_image_version),
            Field::U16(self.minor_image_version),
            Field::U16(self.major_subsystem_version),
            Field::U16(self.minor_subsystem_version),
            Field::U32(self.win32_version_value),
            Field::U32(self.size_of_image),
            Field::U32(self.size_of_headers),
            Field::U32(self.check_sum),
            Field::U16(self.subsystem),
            Field::U16(self.dll_characteristics),
            Field::U64(self.size_of_stack_reserve),
            Field::U64(self.size_of_stack_commit),
            Field::U64(self.size_of_heap_reserve),
            Field::U64(self.size_of_heap_commit),
            Field::U32(self.loader_flags),
            Field::U32(self.number_of_rva_and_sizes),
        ];
        put_fields(bytes, SIZEOF_WINDOWS_FIELDS_64, &fields, endian);
    }
}

impl WindowsFields64 {
    /// Writes the record to the front of `bytes`, and returns its size, 88. A record that was read
    /// is written back unchanged, and any record reads back from what was written, in the same byte
    /// order.
    ///
    /// # Errors
    /// [`Error::Read`] if there is no room for 88 bytes; `bytes` is then unchanged.
    pub fn try_into_ctx(self, bytes: &mut [u8], endian: Endian) -> Result<usize>
        ensures { WritesRecord 88 (windows_record 8) (windows_record_fields 8)
            endian self result bytes.old bytes.new }
    {
        Record::try_into_ctx(self, bytes, endian)
    }

    /// The size of the record in bytes: 88 in either byte order.
    pub fn size_with(endian: &Endian) -> usize
        ensures { result ≡ 88 }
    {
        <WindowsFields64 as Record>::size_with(endian)
    }
}

/// The Windows fields of an optional header of either width.
pub type WindowsFields = WindowsFields64;

impl From<WindowsFields32> for WindowsFields64 {
    ghost from_gives = { λ s made. made ≡ windows_from_32 s };

    /// The same fields.
    fn from(fields: WindowsFields32) -> WindowsFields64 {
        WindowsFields64 {
            image_base: u64::from(fields.image_base),
            section_alignment: fields.section_alignment,
            file_alignment: fields.file_alignment,
            major_operating_system_version: fields.major_operating_system_version,
            minor_operating_system_version: fields.minor_operating_system_version,
            major_image_version: fields.major_image_version,
            minor_image_version: fields.minor_image_version,
            major_subsystem_version: fields.major_subsystem_version,
            minor_subsystem_version: fields.minor_subsystem_version,
            win32_version_value: fields.win32_version_value,
            size_of_image: fields.size_of_image,
            size_of_headers: fields.size_of_headers,
            check_sum: fields.check_sum,
            subsystem: fields.subsystem,
            dll_characteristics: fields.dll_characteristics,
            size_of_stack_reserve: u64::from(fields.size_of_stack_reserve),
            size_of_stack_commit: u64::from(fields.size_of_stack_commit),
            size_of_heap_reserve: u64::from(fields.size_of_heap_reserve),
            size_of_heap_commit: u64::from(fields.size_of_heap_commit),
            loader_flags: fields.loader_flags,
            number_of_rva_and_sizes: fields.number_of_rva_and_sizes,
        }
    }
}

// The number, if it fits 32 bits.
fn narrow(number: u64) -> Option<u32>
    ensures { result ≡ narrowed number }
{
    u32::try_from(number).ok()
}

// The same fields, if the five wide ones fit 32 bits.
#[tactic(auto, unfolding(crate::specs::OptionalHeader::windows_to_32))]
fn windows_to_32(fields: &WindowsFields64) -> Option<WindowsFields32>
    ensures { result ≡ windows_to_32 fields.now }
{
    Some(WindowsFields32 {
        image_base: narrow(fields.image_base)?,
        section_alignment: fields.section_alignment,
        file_alignment: fields.file_alignment,
        major_operating_system_version: fields.major_operating_system_version,
        minor_operating_system_version: fields.minor_operating_system_version,
        major_image_version: fields.major_image_version,
        minor_image_version: fields.minor_image_version,
        major_subsystem_version: fields.major_subsystem_version,
        minor_subsystem_version: fields.minor_subsystem_version,
        win32_version_value: fields.win32_version_value,
        size_of_image: fields.size_of_image,
        size_of_headers: fields.size_of_headers,
        check_sum: fields.check_sum,
        subsystem: fields.subsystem,
        dll_characteristics: fields.dll_characteristics,
        size_of_stack_reserve: narrow(fields.size_of_stack_reserve)?,
        size_of_stack_commit: narrow(fields.size_of_stack_commit)?,
        size_of_heap_reserve: narrow(fields.size_of_heap_reserve)?,
        size_of_heap_commit: narrow(fields.size_of_heap_commit)?,
        loader_flags: fields.loader_flags,
        number_of_rva_and_sizes: fields.number_of_rva_and_sizes,
    })
}

impl TryFrom<WindowsFields64> for WindowsFields32 {
    type Error = Error;

    ghost try_from_gives = { λ w made. NarrowsWindows w made };

    /// The same fields.
    ///
    /// # Errors
    /// [`Error::Malformed`] with [`Cause::FieldTooWide`] if one of the five wide fields does not
    /// fit 32 bits.
    fn try_from(fields: WindowsFields64) -> Result<WindowsFields32> {
        match windows_to_32(&fields) {
            Some(fields) => Ok(fields),
            None => Err(Error::Malformed(Cause::FieldTooWide)),
        }
    }
}
