//! The header of a DOS program, which a PE file begins with.

ghost use Rattle.std.specs.Prelude.{◌≡◌, ◌+◌, ◌≤◌, length, IfOk};
ghost use Rattle.goblin_base.specs.{Reading.Reads, Bytes.overwritten};
ghost use Rattle.goblin_base.specs.Answers.{Writes, IsSliceFault};
ghost use Rattle.goblin_base.specs.Record.{ReadsBack, WritesBack, encoding};
ghost use Rattle.goblin_pe_head.specs.DosHeader.{dos_fields, dos_record};
ghost use Rattle.goblin_pe_head.specs.HeaderLaws.{DosWritesBack};
ghost use Rattle.goblin_pe_head.specs.HeaderReadings as reading;

use goblin_base::{
    Cause, Endian, Error, Field, Result, encode_fields, field_u16, field_u32, pread_slice,
    pread_u16, pread_u32, pwrite_slice,
};

/// The signature of a DOS header, `MZ`.
pub const DOS_MAGIC: u16 = 0x5A4D;
/// The signature of a PE header, `PE` and two NULs.
pub const PE_MAGIC: u32 = 0x0000_4550;
/// The size of the signature of a PE header, in bytes.
pub const SIZEOF_PE_MAGIC: usize = 4;
/// The offset, in the DOS header, of the field with the file offset of the PE signature.
pub const PE_POINTER_OFFSET: u32 = 0x3C;

const _: () = prove!(
    DOS_MAGIC == 0x5A4D && PE_MAGIC == 0x4550 && SIZEOF_PE_MAGIC == 4 && PE_POINTER_OFFSET == 0x3C
);

// The size of a DOS header, in bytes.
pub(crate) const SIZEOF_DOS_HEADER: usize = 64;

/// The header of a DOS program, which a PE file begins with.
///
/// Source: PE Format, "MS-DOS Stub (Image Only)"; the fields are those of a DOS executable. Numbers
/// are as stored, little-endian in a file; the record has 64 bytes, and `at` gives a field's file
/// offset. A loader of PE files looks only at the signature and the pointer.
#[repr(C)]
#[derive(Debug, PartialEq, Copy, Clone, Default)]
pub struct DosHeader {
    /// `MZ`, at 0x00.
    pub signature: u16,
    /// How many bytes of the last page are used, at 0x02.
    pub bytes_on_last_page: u16,
    /// How many pages of 512 bytes the program has, at 0x04.
    pub pages_in_file: u16,
    /// How many relocations there are, at 0x06.
    pub relocations: u16,
    /// The size of the header in paragraphs of 16 bytes, at 0x08.
    pub size_of_header_in_paragraphs: u16,
    /// The least memory that the program needs after its own, in paragraphs, at 0x0A.
    pub minimum_extra_paragraphs_needed: u16,
    /// The most memory that the program asks for after its own, in paragraphs, at 0x0C.
    pub maximum_extra_paragraphs_needed: u16,
    /// The stack segment at the start, relative to the program, at 0x0E.
    pub initial_relative_ss: u16,
    /// The stack pointer at the start, at 0x10.
    pub initial_sp: u16,
    /// The checksum, at 0x12.
    pub checksum: u16,
    /// The instruction pointer at the start, at 0x14.
    pub initial_ip: u16,
    /// The code segment at the start, relative to the program, at 0x16.
    pub initial_relative_cs: u16,
    /// The file offset of the relocations, at 0x18.
    pub file_address_of_relocation_table: u16,
    /// The overlay's number, at 0x1A.
    pub overlay_number: u16,
    /// Reserved, at 0x1C.
    pub reserved: [u16; 4],
    /// The identifier of the maker (OEM), at 0x24.
    pub oem_id: u16,
    /// The information of the maker (OEM), at 0x26.
    pub oem_info: u16,
    /// Reserved, at 0x28.
    pub reserved2: [u16; 10],
    /// The file offset of the PE signature, at 0x3C. The signature may lie anywhere in the file,
    /// even inside the DOS header, and need not be aligned. Strict mode reads a whole header only
    /// if this offset is at least 0x40.
    pub pe_pointer: u32,
}

impl DosHeader {
    pub(crate) fn in_record(bytes: &[u8], endian: Endian) -> DosHeader
        requires { length bytes.now ≡ 64 }
        ensures { result ≡ dos_record endian bytes.now }
    {
        DosHeader {
            signature: field_u16(bytes, 0, endian),
            bytes_on_last_page: field_u16(bytes, 2, endian),
            pages_in_file: field_u16(bytes, 4, endian),
            relocations: field_u16(bytes, 6, endian),
            size_of_header_in_paragraphs: field_u16(bytes, 8, endian),
            minimum_extra_paragraphs_needed: field_u16(bytes, 10, endian),
            maximum_extra_paragraphs_needed: field_u16(bytes, 12, endian),
            initial_relative_ss: field_u16(bytes, 14, endian),
            initial_sp: field_u16(bytes, 16, endian),
            checksum: field_u16(bytes, 18, endian),
            initial_ip: field_u16(bytes, 20, endian),
            initial_relative_cs: field_u16(bytes, 22, endian),
            file_address_of_relocation_table: field_u16(bytes, 24, endian),
            overlay_number: field_u16(bytes, 26, endian),
            reserved: [
                field_u16(bytes, 28, endian),
                field_u16(bytes, 30, endian),
                field_u16(bytes, 32, endian),
                field_u16(bytes, 34, endian),
            ],
            oem_id: field_u16(bytes, 36, endian),
            oem_info: field_u16(bytes, 38, endian),
            reserved2: [
                field_u16(bytes, 40, endian),
                field_u16(bytes, 42, endian),
                field_u16(bytes, 44, endian),
                field_u16(bytes, 46, endian),
                field_u16(bytes, 48, endian),
                field_u16(bytes, 50, endian),
                field_u16(bytes, 52, endian),
                field_u16(bytes, 54, endian),
                field_u16(bytes, 56, endian),
                field_u16(bytes, 58, endian),
            ],
            pe_pointer: field_u32(bytes, 60, endian),
        }
    }

    #[tactic(auto, using(crate::proofs::DosHeaderRoundTrip::dos_again))]
    pub(crate) fn to_bytes(&self, endian: Endian) -> [u8; SIZEOF_DOS_HEADER]
        ensures made { result ≡ encoding endian (dos_fields self.now) }
        ensures again { ReadsBack 64 dos_record dos_fields self.now }
    {
        let fields = [
            Field::U16(self.signature),
            Field::U16(self.bytes_on_last_page),
            Field::U16(self.pages_in_file),
            Field::U16(self.relocations),
            Field::U16(self.size_of_header_in_paragraphs),
            Field::U16(self.minimum_extra_paragraphs_needed),
            Field::U16(self.maximum_extra_paragraphs_needed),
            Field::U16(self.initial_relative_ss),
            Field::U16(self.initial_sp),
            Field::U16(self.checksum),
            Field::U16(self.initial_ip),
            Field::U16(self.initial_relative_cs),
            Field::U16(self.file_address_of_relocation_table),
            Field::U16(self.overlay_number),
            Field::U16(self.reserved[0]),
            Field::U16(self.reserved[1]),
            Field::U16(self.reserved[2]),
            Field::U16(self.reserved[3]),
            Field::U16(self.oem_id),
            Field::U16(self.oem_info),
            Field::U16(self.reserved2[0]),
            Field::U16(self.reserved2[1]),
            Field::U16(self.reserved2[2]),
            Field::U16(self.reserved2[3]),
            Field::U16(self.reserved2[4]),
            Field::U16(self.reserved2[5]),
            Field::U16(self.reserved2[6]),
            Field::U16(self.reserved2[7]),
            Field::U16(self.reserved2[8]),
            Field::U16(self.reserved2[9]),
            Field::U32(self.pe_pointer),
        ];
        encode_fields(&fields, endian)
    }

    /// Reads the DOS header of a PE file. The file must begin with the DOS signature, and the
    /// header must point to the PE signature.
    ///
    /// # Errors
    /// [`Error::Malformed`] with [`Cause::NoDosSignature`] or [`Cause::DosMagic`] if the file does
    /// not begin with the DOS signature, with [`Cause::NoPePointer`] if the file is shorter than
    /// the header, or with [`Cause::NoPeSignature`] or [`Cause::PeMagic`] if the PE signature is
    /// not at the pointer.
    #[tactic(auto, unfolding(crate::specs::HeaderReadings::dos_header))]
    pub fn parse(bytes: &[u8]) -> Result<DosHeader>
        ensures value { Reads (λ h. h) result reading.dos_header bytes.now }
        ensures pointer { IfOk result (λ h. h.pe_pointer + 4 ≤ length bytes.now) }
    {
        let Ok(magic) = pread_u16(bytes, 0, Endian::Little) else {
            return Err(Error::Malformed(Cause::NoDosSignature));
        };
        if magic != DOS_MAGIC {
            return Err(Error::Malformed(Cause::DosMagic(magic)));
        }
        let Ok(record) = pread_slice(bytes, 0, SIZEOF_DOS_HEADER) else {
            return Err(Error::Malformed(Cause::NoPePointer));
        };
        let header = DosHeader::in_record(record, Endian::Little);
        let pointer = header.pe_pointer as usize;
        let Ok(signature) = pread_u32(bytes, pointer, Endian::Little) else {
            return Err(Error::Malformed(Cause::NoPeSignature(pointer)));
        };
        if signature != PE_MAGIC {
            return Err(Error::Malformed(Cause::PeMagic(signature)));
        }
        Ok(header)
    }

    /// Writes the record at the front of `bytes` and returns its size, 64. A header that was read
    /// is written back unchanged, and any header reads back from what was written, in the same byte
    /// order. In little-endian order, the header of a file is written as the file's first 64 bytes.
    ///
    /// # Errors
    /// [`Error::Read`] if there is no room for 64 bytes; `bytes` is then unchanged.
    #[tactic(auto, using(crate::proofs::DosHeaderRoundTrip::dos_back, crate::proofs::PeHeaderRoundTrip::dos_file))]
    pub fn try_into_ctx(self, bytes: &mut [u8], endian: Endian) -> Result<usize>
        ensures size { IfOk result (λ n. n ≡ 64) }
        ensures written { Writes result
            (overwritten bytes.old 0 (encoding endian (dos_fields self))) bytes.old bytes.new
            (IsSliceFault bytes.old 0 64) }
        ensures back { WritesBack 64 dos_record dos_fields }
        ensures file { DosWritesBack }
        ensures again { ReadsBack 64 dos_record dos_fields self }
    {
        pwrite_slice(bytes, 0, &self.to_bytes(endian))?;
        Ok(SIZEOF_DOS_HEADER)
    }

    /// The size of the record in bytes: 64 in either byte order.
    pub fn size_with(_endian: &Endian) -> usize
        ensures { result ≡ 64 }
    {
        SIZEOF_DOS_HEADER
    }
}
