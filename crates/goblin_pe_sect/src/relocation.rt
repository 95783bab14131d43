//! The relocations of a PE file. The sections of an object have relocations for linkers, and an
//! image has base relocations for loaders.

ghost use Rattle.std.specs.Prelude.{◌≡◌, ◌/◌, Some, length, IfSome};
ghost use Rattle.std.specs.Iterator.{UpTo, YieldsFirst, at_most};
ghost use Rattle.std.specs.Iterator.SizeHint.{IsWithinCount};
ghost use Rattle.goblin_base.specs.{Reading.Reads, Record.WritesRecord};
ghost use Rattle.goblin_pe_sect.specs.Relocations.{Relocation};
ghost use Rattle.goblin_pe_sect.specs.Relocations.{relocation_fields, relocation_record};
ghost use Rattle.goblin_pe_sect.specs.Relocations.{relocations_at, relocations_left};

use goblin_base::{
    Cause, Endian, Error, Field, Record, Result, field_u16, field_u32, pread_slice, put_fields,
};

mod base;
mod constants;

pub use base::RELOCATION_BLOCK_SIZE;
pub use base::RelocationBlock;
pub use base::RelocationBlockIterator;
pub use base::RelocationData;
pub use base::RelocationWord;
pub use base::RelocationWordIterator;
pub use constants::IMAGE_REL_AMD64_ABSOLUTE;
pub use constants::IMAGE_REL_AMD64_ADDR32;
pub use constants::IMAGE_REL_AMD64_ADDR32NB;
pub use constants::IMAGE_REL_AMD64_ADDR64;
pub use constants::IMAGE_REL_AMD64_PAIR;
pub use constants::IMAGE_REL_AMD64_REL32;
pub use constants::IMAGE_REL_AMD64_REL32_1;
pub use constants::IMAGE_REL_AMD64_REL32_2;
pub use constants::IMAGE_REL_AMD64_REL32_3;
pub use constants::IMAGE_REL_AMD64_REL32_4;
pub use constants::IMAGE_REL_AMD64_REL32_5;
pub use constants::IMAGE_REL_AMD64_SECREL;
pub use constants::IMAGE_REL_AMD64_SECREL7;
pub use constants::IMAGE_REL_AMD64_SECTION;
pub use constants::IMAGE_REL_AMD64_SREL32;
pub use constants::IMAGE_REL_AMD64_SSPAN32;
pub use constants::IMAGE_REL_AMD64_TOKEN;
pub use constants::IMAGE_REL_ARM_ABSOLUTE;
pub use constants::IMAGE_REL_ARM_ADDR;
pub use constants::IMAGE_REL_ARM_ADDR32NB;
pub use constants::IMAGE_REL_ARM_BLX11;
pub use constants::IMAGE_REL_ARM_BLX23T;
pub use constants::IMAGE_REL_ARM_BLX24;
pub use constants::IMAGE_REL_ARM_BRANCH11;
pub use constants::IMAGE_REL_ARM_BRANCH20T;
pub use constants::IMAGE_REL_ARM_BRANCH24;
pub use constants::IMAGE_REL_ARM_BRANCH24T;
pub use constants::IMAGE_REL_ARM_GPREL7;
pub use constants::IMAGE_REL_ARM_GPREL12;
pub use constants::IMAGE_REL_ARM_MOV32A;
pub use constants::IMAGE_REL_ARM_MOV32T;
pub use constants::IMAGE_REL_ARM_PAIR;
pub use constants::IMAGE_REL_ARM_REL32;
pub use constants::IMAGE_REL_ARM_SECREL;
pub use constants::IMAGE_REL_ARM_SECTION;
pub use constants::IMAGE_REL_ARM_TOKEN;
pub use constants::IMAGE_REL_ARM64_ABSOLUTE;
pub use constants::IMAGE_REL_ARM64_ADDR32;
pub use constants::IMAGE_REL_ARM64_ADDR32NB;
pub use constants::IMAGE_REL_ARM64_ADDR64;
pub use constants::IMAGE_REL_ARM64_BRANCH14;
pub use constants::IMAGE_REL_ARM64_BRANCH19;
pub use constants::IMAGE_REL_ARM64_BRANCH26;
pub use constants::IMAGE_REL_ARM64_PAGEBASE_REL21;
pub use constants::IMAGE_REL_ARM64_PAGEOFFSET_12A;
pub use constants::IMAGE_REL_ARM64_PAGEOFFSET_12L;
pub use constants::IMAGE_REL_ARM64_REL21;
pub use constants::IMAGE_REL_ARM64_REL32;
pub use constants::IMAGE_REL_ARM64_SECREL;
pub use constants::IMAGE_REL_ARM64_SECREL_HIGH12A;
pub use constants::IMAGE_REL_ARM64_SECREL_LOW12A;
pub use constants::IMAGE_REL_ARM64_SECREL_LOW12L;
pub use constants::IMAGE_REL_ARM64_SECTION;
pub use constants::IMAGE_REL_ARM64_TOKEN;
pub use constants::IMAGE_REL_BASED_ABSOLUTE;
pub use constants::IMAGE_REL_BASED_ARM_MOV32;
pub use constants::IMAGE_REL_BASED_ARM_MOV32A;
pub use constants::IMAGE_REL_BASED_ARM_MOV32T;
pub use constants::IMAGE_REL_BASED_DIR64;
pub use constants::IMAGE_REL_BASED_HIGH;
pub use constants::IMAGE_REL_BASED_HIGH3ADJ;
pub use constants::IMAGE_REL_BASED_HIGHADJ;
pub use constants::IMAGE_REL_BASED_HIGHLOW;
pub use constants::IMAGE_REL_BASED_IA64_IMM64;
pub use constants::IMAGE_REL_BASED_LOW;
pub use constants::IMAGE_REL_BASED_MIPS_JMPADDR;
pub use constants::IMAGE_REL_BASED_MIPS_JMPADDR16;
pub use constants::IMAGE_REL_BASED_REL;
pub use constants::IMAGE_REL_BASED_SECTION;
pub use constants::IMAGE_REL_BASED_THUMB_MOV32;
pub use constants::IMAGE_REL_I386_ABSOLUTE;
pub use constants::IMAGE_REL_I386_DIR16;
pub use constants::IMAGE_REL_I386_DIR32;
pub use constants::IMAGE_REL_I386_DIR32NB;
pub use constants::IMAGE_REL_I386_REL16;
pub use constants::IMAGE_REL_I386_REL32;
pub use constants::IMAGE_REL_I386_SECREL;
pub use constants::IMAGE_REL_I386_SECREL7;
pub use constants::IMAGE_REL_I386_SECTION;
pub use constants::IMAGE_REL_I386_SEG12;
pub use constants::IMAGE_REL_I386_TOKEN;
pub use constants::IMAGE_REL_IA64_ABSOLUTE;
pub use constants::IMAGE_REL_IA64_ADDEND;
pub use constants::IMAGE_REL_IA64_DIR;
pub use constants::IMAGE_REL_IA64_DIR32NB;
pub use constants::IMAGE_REL_IA64_DIR64;
pub use constants::IMAGE_REL_IA64_GPREL22;
pub use constants::IMAGE_REL_IA64_GPREL32;
pub use constants::IMAGE_REL_IA64_IMM14;
pub use constants::IMAGE_REL_IA64_IMM22;
pub use constants::IMAGE_REL_IA64_IMM64;
pub use constants::IMAGE_REL_IA64_IMMGPREL64;
pub use constants::IMAGE_REL_IA64_LTOFF22;
pub use constants::IMAGE_REL_IA64_LTOFF64;
pub use constants::IMAGE_REL_IA64_PCREL21B;
pub use constants::IMAGE_REL_IA64_PCREL21F;
pub use constants::IMAGE_REL_IA64_PCREL21M;
pub use constants::IMAGE_REL_IA64_PCREL60B;
pub use constants::IMAGE_REL_IA64_PCREL60F;
pub use constants::IMAGE_REL_IA64_PCREL60I;
pub use constants::IMAGE_REL_IA64_PCREL60M;
pub use constants::IMAGE_REL_IA64_PCREL60X;
pub use constants::IMAGE_REL_IA64_SECREL;
pub use constants::IMAGE_REL_IA64_SECREL22;
pub use constants::IMAGE_REL_IA64_SECREL64I;
pub use constants::IMAGE_REL_IA64_SECTION;
pub use constants::IMAGE_REL_IA64_SREL14;
pub use constants::IMAGE_REL_IA64_SREL22;
pub use constants::IMAGE_REL_IA64_SREL32;
pub use constants::IMAGE_REL_IA64_TOKEN;
pub use constants::IMAGE_REL_IA64_UREL32;

/// The size of a relocation of a COFF object, in bytes.
pub const COFF_RELOCATION_SIZE: usize = 10;

const _: () = prove!(COFF_RELOCATION_SIZE == 10);

/// A relocation of a COFF object. It says which bytes of a section a linker changes, and how.
///
/// Source: PE Format, "COFF Relocations (Object Only)". Numbers are as stored. The record has 10
/// bytes, and `at` gives the offset of a field in it.
#[repr(C)]
#[derive(Debug, PartialEq, Copy, Clone, Default)]
pub struct Relocation {
    /// The address of the bytes that are changed, at 0: their offset in the section, in bytes, plus
    /// the section's own address, which is mostly 0. In the first relocation of a section with
    /// [`IMAGE_SCN_LNK_NRELOC_OVFL`](crate::section_table::IMAGE_SCN_LNK_NRELOC_OVFL) it is the
    /// number of relocations.
    pub virtual_address: u32,
    /// The index in the symbol table of the symbol whose address the linker puts there, at 4.
    pub symbol_table_index: u32,
    /// How the linker puts it there, at 8: an `IMAGE_REL_*` of the machine that the COFF header
    /// names.
    pub typ: u16,
}

impl Record for Relocation {
    ghost width = { 10 };

    ghost value = { relocation_record };

    ghost fields = { relocation_fields };

    fn size() -> usize {
        COFF_RELOCATION_SIZE
    }

    fn in_record(bytes: &[u8], endian: Endian) -> Relocation {
        Relocation {
            virtual_address: field_u32(bytes, 0, endian),
            symbol_table_index: field_u32(bytes, 4, endian),
            typ: field_u16(bytes, 8, endian),
        }
    }

    #[tactic(auto, using(crate::proofs::RelocationsRoundTrip::round_trips))]
    fn put(self, bytes: &mut [u8], endian: Endian) {
        let fields = [
            Field::U32(self.virtual_address),
            Field::U32(self.symbol_table_index),
            Field::U16(self.typ),
        ];
        put_fields(bytes, COFF_RELOCATION_SIZE, &fields, endian);
    }
}

impl Relocation {
    /// Writes the record to the front of `bytes`, and returns its size, 10. A record that was read
    /// is written back unchanged, and any record reads back from what was written, in the same byte
    /// order.
    ///
    /// # Errors
    /// [`Error::Read`] if there is no room for 10 bytes; `bytes` is then unchanged.
    pub fn try_into_ctx(self, bytes: &mut [u8], endian: Endian) -> Result<usize>
        ensures { WritesRecord 10 relocation_record relocation_fields
            endian self result bytes.old bytes.new }
    {
        Record::try_into_ctx(self, bytes, endian)
    }

    /// The size of the record in bytes: 10 in either byte order.
    pub fn size_with(endian: &Endian) -> usize
        ensures { result ≡ 10 }
    {
        <Relocation as Record>::size_with(endian)
    }
}

/// An iterator over the relocations of a section of an object, in the order of their records.
///
/// Source: PE Format, "COFF Relocations (Object Only)".
#[derive(Default, Drop)]
pub struct Relocations<'a> {
    relocations: &'a [u8],
}

impl<'a> Relocations<'a> {
    /// The `number` relocations that follow one another from the file offset `offset` on. A section
    /// header gives both `offset` and `number`.
    ///
    /// # Errors
    /// [`Error::Read`] if the relocations run past the end of the file, or begin at or past it,
    /// even if there are none; [`Error::Malformed`] with [`Cause::Overflow`] if their size
    /// overflows 64 bits.
    pub fn parse(bytes: &'a [u8], offset: usize, number: usize) -> Result<Relocations<'a>>
        ensures { Reads relocations_left result (relocations_at offset number) bytes.now }
    {
        let Some(size) = number.checked_mul(COFF_RELOCATION_SIZE) else {
            return Err(Error::Malformed(Cause::Overflow));
        };
        let relocations = pread_slice(bytes, offset, size)?;
        Ok(Relocations { relocations })
    }
}

impl Iterator for Relocations<'_> {
    type Item = Relocation;

    ghost next_gives = { YieldsFirst relocations_left };

    ghost remaining = { λ it. at_most (length it.relocations.now / 10) };

    #[tactic(auto, using(crate::proofs::RelocationRecords::relocations))]
    fn next(&mut self) -> Option<Relocation> {
        if self.relocations.len() < COFF_RELOCATION_SIZE {
            return None;
        }
        let (record, rest) = self.relocations.split_at(COFF_RELOCATION_SIZE);
        self.relocations = rest;
        Some(Relocation::in_record(record, Endian::Little))
    }

    #[tactic(auto, using(crate::proofs::RelocationRecords::length_relocations))]
    fn size_hint(&self) -> (usize, Option<usize>)
        ensures lower { IsWithinCount result.0 (at_most (length self.now.relocations.now / 10)) }
        ensures upper { IfSome result.1 (UpTo (at_most (length self.now.relocations.now / 10))) }
        ensures value { result
            ≡ (length (relocations_left self.now), Some (length (relocations_left self.now))) }
    {
        let count = self.relocations.len() / COFF_RELOCATION_SIZE;
        (count, Some(count))
    }
}
