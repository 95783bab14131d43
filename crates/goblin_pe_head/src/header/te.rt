//! The header and the sections of a Terse Executable: a firmware image whose PE headers are
//! stripped.

ghost use Rattle.std.specs.Prelude.{◌≡◌, ◌+◌, ◌*◌, ◌/◌, ◌<◌, length, IsErrAnd, OnOk, OnErr};
ghost use Rattle.goblin_base.specs.Reading.{Reads, ReadsOrMemory};
ghost use Rattle.goblin_base.specs.{Answers.Answers, Record.WritesRecord};
ghost use Rattle.goblin_pe_head.specs.TeHeader.{TeHeader};
ghost use Rattle.goblin_pe_head.specs.CoffHeader.{IsTooManySections};
ghost use Rattle.goblin_pe_head.specs.TeHeader.{IsStrippedFault, displacement, moved_address};
ghost use Rattle.goblin_pe_head.specs.TeHeader.{pointer_moved, section_moved, te_fields, te_record};
ghost use Rattle.goblin_pe_head.specs.TeHeader as reading;

use crate::header::sections::read_sections;
use goblin_base::{
    Cause, Endian, Error, Field, Record, Result, field_u8, field_u16, field_u32, field_u64,
    gread_slice, put_fields,
};
use goblin_pe_sect::data_directories::DataDirectory;
use goblin_pe_sect::options::ParseOptions;
use goblin_pe_sect::section_table::{SIZEOF_SECTION_TABLE, SectionTable};
use std::alloc::Global;

/// The signature of a Terse Executable, `VZ`.
pub const TE_MAGIC: u16 = 0x5A56;

const _: () = prove!(TE_MAGIC == 0x5A56);

// The size of the header, in bytes.
const SIZEOF_TE_HEADER: usize = 40;

/// The header of a Terse Executable.
///
/// Source: UEFI Platform Initialization Specification, volume 1, "TE Image". Numbers are as stored,
/// except for four that are adjusted when the header is parsed; the record has 40 bytes, and `at`
/// gives a field's offset in it. This header replaces the headers of a PE file, and keeps what a
/// firmware loader needs of them. The addresses that it stores still count the bytes that were
/// stripped.
#[repr(C)]
#[derive(Debug, PartialEq, Copy, Clone, Default)]
pub struct TeHeader {
    /// `VZ`, at 0. No reader tests it.
    pub signature: u16,
    /// The machine that the file is for, a `COFF_MACHINE_*`, at 2.
    pub machine: u16,
    /// How many section headers follow, at 4.
    pub number_of_sections: u8,
    /// The subsystem that runs the image, at 5.
    pub subsystem: u8,
    /// How many bytes were stripped from the front of the PE file, at 6. This header replaces them,
    /// so everything after it moved towards the front by this number minus 40.
    pub stripped_size: u16,
    /// The RVA of the entry point, at 8; adjusted in a header that was parsed.
    pub entry_point: u32,
    /// The RVA at which the code begins, at 12; adjusted in a header that was parsed.
    pub base_of_code: u32,
    /// The preferred address of the image in memory, at 16, as stored.
    pub image_base: u64,
    /// The data directory of the base relocations, at 24. Its RVA is adjusted in a header that was
    /// parsed.
    pub reloc_dir: DataDirectory,
    /// The data directory of the debug data, at 32. Its RVA is adjusted in a header that was
    /// parsed.
    pub debug_dir: DataDirectory,
}

impl Record for TeHeader {
    ghost width = { 40 };

    ghost value = { te_record };

    ghost fields = { te_fields };

    fn size() -> usize {
        SIZEOF_TE_HEADER
    }

    fn in_record(bytes: &[u8], endian: Endian) -> TeHeader {
        TeHeader {
            signature: field_u16(bytes, 0, endian),
            machine: field_u16(bytes, 2, endian),
            number_of_sections: field_u8(bytes, 4),
            subsystem: field_u8(bytes, 5),
            stripped_size: field_u16(bytes, 6, endian),
            entry_point: field_u32(bytes, 8, endian),
            base_of_code: field_u32(bytes, 12, endian),
            image_base: field_u64(bytes, 16, endian),
            reloc_dir: DataDirectory {
                virtual_address: field_u32(bytes, 24, endian),
                size: field_u32(bytes, 28, endian),
            },
            debug_dir: DataDirectory {
                virtual_address: field_u32(bytes, 32, endian),
                size: field_u32(bytes, 36, endian),
            },
        }
    }

    #[tactic(auto, using(crate::proofs::RecordRoundTrips::te_round_trip))]
    fn put(self, bytes: &mut [u8], endian: Endian) {
        let fields = [
            Field::U16(self.signature),
            Field::U16(self.machine),
            Field::U8(self.number_of_sections),
            Field::U8(self.subsystem),
            Field::U16(self.stripped_size),
            Field::U32(self.entry_point),
            Field::U32(self.base_of_code),
            Field::U64(self.image_base),
            Field::U32(self.reloc_dir.virtual_address),
            Field::U32(self.reloc_dir.size),
            Field::U32(self.debug_dir.virtual_address),
            Field::U32(self.debug_dir.size),
        ];
        put_fields(bytes, SIZEOF_TE_HEADER, &fields, endian);
    }
}

impl TeHeader {
    /// How many bytes everything moved towards the front when the headers were stripped: the number
    /// of stripped bytes minus the 40 bytes of this header.
    ///
    /// # Errors
    /// [`Error::Malformed`] with [`Cause::StrippedSize`] if fewer than 40 bytes were stripped.
    pub fn displacement(&self) -> Result<u32>
        ensures { Answers (λ d. d) result (displacement self.now) (IsStrippedFault self.now) }
    {
        let stripped_size = u32::from(self.stripped_size);
        match stripped_size.checked_sub(SIZEOF_TE_HEADER as u32) {
            Some(displacement) => Ok(displacement),
            None => Err(Error::Malformed(Cause::StrippedSize(stripped_size))),
        }
    }

    /// Reads the record at the file offset `offset` and moves `offset` past it. The entry point,
    /// the base of code and the RVAs of both data directories are adjusted to the stripped file:
    /// [`TeHeader::displacement`] is subtracted from each, modulo 2^32. The signature is not
    /// tested.
    ///
    /// # Errors
    /// [`Error::Read`] if the 40 bytes run past the end of the file; [`Error::Malformed`] with
    /// [`Cause::StrippedSize`] if fewer than 40 bytes were stripped. `offset` is then unchanged.
    #[tactic(auto, unfolding(crate::specs::TeHeader::te_header))]
    pub fn parse(bytes: &[u8], offset: &mut usize) -> Result<TeHeader>
        ensures value { Reads (λ h. h) result (reading.te_header offset.old) bytes.now }
        ensures ok { OnOk result (offset.new ≡ offset.old + 40) }
        ensures err { OnErr result (offset.new ≡ offset.old) }
    {
        let mut end = *offset;
        let record = gread_slice(bytes, &mut end, SIZEOF_TE_HEADER)?;
        let mut header = TeHeader::in_record(record, Endian::Little);
        let displacement = header.displacement()?;
        header.entry_point = moved_address(header.entry_point, displacement);
        header.base_of_code = moved_address(header.base_of_code, displacement);
        header.reloc_dir.virtual_address = moved_address(
            header.reloc_dir.virtual_address,
            displacement,
        );
        header.debug_dir.virtual_address = moved_address(
            header.debug_dir.virtual_address,
            displacement,
        );
        *offset = end;
        Ok(header)
    }

    /// Reads the section table, whose section headers follow one another from the file offset
    /// `offset` on, and moves `offset` past it. The RVA of each section, and each of its three
    /// pointers that is not 0, is adjusted as in [`TeHeader::parse`]. An indirect name is looked up
    /// as if a string table began at the front of the file, and copied as
    /// [`CoffHeader::sections_with_opts`](crate::CoffHeader::sections_with_opts) says.
    ///
    /// Source: PE Format, "Section Table (Section Headers)".
    ///
    /// # Errors
    /// [`Error::BufferTooShort`] with the number of sections if the whole file has no room for that
    /// many section headers, which is tested first; [`Error::Malformed`] with
    /// [`Cause::StrippedSize`] if fewer than 40 bytes were stripped; as [`SectionTable::parse`] if
    /// a section header runs past the end or its name is refused; [`Error::Memory`] if memory is
    /// refused. `offset` is then unchanged.
    #[tactic(auto, unfolding(crate::specs::TeHeader::te_sections_at))]
    pub fn sections(
        &self,
        alloc: Global,
        bytes: &[u8],
        offset: &mut usize,
    ) -> Result<Vec<SectionTable>>
        ensures value { ReadsOrMemory (λ v. v.items) result
            (reading.te_sections_at self.now offset.old) bytes.now }
        ensures first { length bytes.now / 40 < self.now.number_of_sections
            → IsErrAnd result (IsTooManySections self.now.number_of_sections bytes.now) }
        ensures ok { OnOk result (offset.new ≡ offset.old + 40 * self.now.number_of_sections) }
        ensures err { OnErr result (offset.new ≡ offset.old) }
    {
        let count = self.number_of_sections as usize;
        if bytes.len() / SIZEOF_SECTION_TABLE < count {
            return Err(Error::BufferTooShort(count, "sections"));
        }
        let displacement = self.displacement()?;
        let opts = ParseOptions::default();
        read_sections(alloc, bytes, offset, count, 0, &opts, Some(displacement))
    }

    /// Writes the record to the front of `bytes`, its numbers as they are, and returns its size,
    /// 40. A record that was read as stored is written back unchanged, and any record reads back as
    /// stored from what was written, in the same byte order.
    ///
    /// # Errors
    /// [`Error::Read`] if there is no room for 40 bytes; `bytes` is then unchanged.
    pub fn try_into_ctx(self, bytes: &mut [u8], endian: Endian) -> Result<usize>
        ensures { WritesRecord 40 te_record te_fields endian self result bytes.old bytes.new }
    {
        Record::try_into_ctx(self, bytes, endian)
    }

    /// The size of the record in bytes: 40 in either byte order.
    pub fn size_with(endian: &Endian) -> usize
        ensures { result ≡ 40 }
    {
        <TeHeader as Record>::size_with(endian)
    }
}

// A number minus the displacement, modulo 2^32.
fn moved_address(number: u32, displacement: u32) -> u32
    ensures { result ≡ moved_address displacement number }
{
    number.wrapping_sub(displacement)
}

// A pointer minus the displacement, modulo 2^32. A pointer of 0 points to nothing and stays 0.
fn pointer_moved(pointer: u32, displacement: u32) -> u32
    ensures { result ≡ pointer_moved displacement pointer }
{
    if pointer == 0 {
        0
    } else {
        moved_address(pointer, displacement)
    }
}

/// Adjusts a section to a file whose front was stripped. The displacement, as
/// [`TeHeader::displacement`] returns it, is subtracted from the RVA of the section and from each
/// of its three pointers that is not 0, modulo 2^32. Without a displacement the section stays as
/// stored.
#[tactic(auto, unfolding(crate::specs::TeHeader::section_adjusted))]
pub fn adjust_section(section: &mut SectionTable, displacement: Option<u32>)
    ensures { section.new ≡ section_moved displacement section.old }
{
    let Some(displacement) = displacement else {
        return;
    };
    section.virtual_address = moved_address(section.virtual_address, displacement);
    section.pointer_to_raw_data = pointer_moved(section.pointer_to_raw_data, displacement);
    section.pointer_to_relocations = pointer_moved(section.pointer_to_relocations, displacement);
    section.pointer_to_linenumbers = pointer_moved(section.pointer_to_linenumbers, displacement);
}
