//! The types of relocations, by the machine, and those of base relocations.
//!
//! Source: PE Format, "Type Indicators" and "Base Relocation Types".

/// x86: nothing is changed.
pub const IMAGE_REL_I386_ABSOLUTE: u16 = 0x00;
/// x86: the target's address, 16 bits; not supported.
pub const IMAGE_REL_I386_DIR16: u16 = 0x01;
/// x86: the distance to the target, 16 bits; not supported.
pub const IMAGE_REL_I386_REL16: u16 = 0x02;
/// x86: the target's address, 32 bits.
pub const IMAGE_REL_I386_DIR32: u16 = 0x06;
/// x86: the target's address relative to the image's base, 32 bits.
pub const IMAGE_REL_I386_DIR32NB: u16 = 0x07;
/// x86: a segment's selector; not supported.
pub const IMAGE_REL_I386_SEG12: u16 = 0x09;
/// x86: the index of the target's section, 16 bits.
pub const IMAGE_REL_I386_SECTION: u16 = 0x0A;
/// x86: the target's offset from its section's start, 32 bits.
pub const IMAGE_REL_I386_SECREL: u16 = 0x0B;
/// x86: a token of the common language runtime.
pub const IMAGE_REL_I386_TOKEN: u16 = 0x0C;
/// x86: the target's offset from its section's start, 7 bits.
pub const IMAGE_REL_I386_SECREL7: u16 = 0x0D;
/// x86: the distance to the target, 32 bits.
pub const IMAGE_REL_I386_REL32: u16 = 0x14;

const _: () = prove!(
    IMAGE_REL_I386_ABSOLUTE == 0x0
        && IMAGE_REL_I386_DIR16 == 0x1
        && IMAGE_REL_I386_REL16 == 0x2
        && IMAGE_REL_I386_DIR32 == 0x6
        && IMAGE_REL_I386_DIR32NB == 0x7
        && IMAGE_REL_I386_SEG12 == 0x9
        && IMAGE_REL_I386_SECTION == 0xA
        && IMAGE_REL_I386_SECREL == 0xB
        && IMAGE_REL_I386_TOKEN == 0xC
        && IMAGE_REL_I386_SECREL7 == 0xD
        && IMAGE_REL_I386_REL32 == 0x14
);

/// x86-64: nothing is changed.
pub const IMAGE_REL_AMD64_ABSOLUTE: u16 = 0x00;
/// x86-64: the target's address, 64 bits.
pub const IMAGE_REL_AMD64_ADDR64: u16 = 0x01;
/// x86-64: the target's address, 32 bits.
pub const IMAGE_REL_AMD64_ADDR32: u16 = 0x02;
/// x86-64: the target's address relative to the image's base, 32 bits.
pub const IMAGE_REL_AMD64_ADDR32NB: u16 = 0x03;
/// x86-64: the distance to the target from the byte after the field, 32 bits.
pub const IMAGE_REL_AMD64_REL32: u16 = 0x04;
/// x86-64: as [`IMAGE_REL_AMD64_REL32`], from 1 byte further on.
pub const IMAGE_REL_AMD64_REL32_1: u16 = 0x05;
/// x86-64: as [`IMAGE_REL_AMD64_REL32`], from 2 bytes further on.
pub const IMAGE_REL_AMD64_REL32_2: u16 = 0x06;
/// x86-64: as [`IMAGE_REL_AMD64_REL32`], from 3 bytes further on.
pub const IMAGE_REL_AMD64_REL32_3: u16 = 0x07;
/// x86-64: as [`IMAGE_REL_AMD64_REL32`], from 4 bytes further on.
pub const IMAGE_REL_AMD64_REL32_4: u16 = 0x08;
/// x86-64: as [`IMAGE_REL_AMD64_REL32`], from 5 bytes further on.
pub const IMAGE_REL_AMD64_REL32_5: u16 = 0x09;
/// x86-64: the index of the target's section, 16 bits.
pub const IMAGE_REL_AMD64_SECTION: u16 = 0x0A;
/// x86-64: the target's offset from its section's start, 32 bits.
pub const IMAGE_REL_AMD64_SECREL: u16 = 0x0B;
/// x86-64: the target's offset from its section's start, 7 bits.
pub const IMAGE_REL_AMD64_SECREL7: u16 = 0x0C;
/// x86-64: a token of the common language runtime.
pub const IMAGE_REL_AMD64_TOKEN: u16 = 0x0D;
/// x86-64: a signed value that depends on a span, 32 bits.
pub const IMAGE_REL_AMD64_SREL32: u16 = 0x0E;
/// x86-64: the second half of a value that depends on a span, right after it.
pub const IMAGE_REL_AMD64_PAIR: u16 = 0x0F;
/// x86-64: a signed value that depends on a span and is applied by the linker, 32 bits.
pub const IMAGE_REL_AMD64_SSPAN32: u16 = 0x10;

const _: () = prove!(
    IMAGE_REL_AMD64_ABSOLUTE == 0x0
        && IMAGE_REL_AMD64_ADDR64 == 0x1
        && IMAGE_REL_AMD64_ADDR32 == 0x2
        && IMAGE_REL_AMD64_ADDR32NB == 0x3
        && IMAGE_REL_AMD64_REL32 == 0x4
        && IMAGE_REL_AMD64_REL32_1 == 0x5
        && IMAGE_REL_AMD64_REL32_2 == 0x6
        && IMAGE_REL_AMD64_REL32_3 == 0x7
        && IMAGE_REL_AMD64_REL32_4 == 0x8
        && IMAGE_REL_AMD64_REL32_5 == 0x9
        && IMAGE_REL_AMD64_SECTION == 0xA
        && IMAGE_REL_AMD64_SECREL == 0xB
        && IMAGE_REL_AMD64_SECREL7 == 0xC
        && IMAGE_REL_AMD64_TOKEN == 0xD
        && IMAGE_REL_AMD64_SREL32 == 0xE
        && IMAGE_REL_AMD64_PAIR == 0xF
        && IMAGE_REL_AMD64_SSPAN32 == 0x10
);

/// ARM: nothing is changed.
pub const IMAGE_REL_ARM_ABSOLUTE: u16 = 0x00;
/// ARM: the target's address, 32 bits.
pub const IMAGE_REL_ARM_ADDR: u16 = 0x01;
/// ARM: the target's address relative to the image's base, 32 bits.
pub const IMAGE_REL_ARM_ADDR32NB: u16 = 0x02;
/// ARM: the distance of a branch, 24 bits.
pub const IMAGE_REL_ARM_BRANCH24: u16 = 0x03;
/// ARM: the distance of a branch in two instructions, 11 bits each.
pub const IMAGE_REL_ARM_BRANCH11: u16 = 0x04;
/// ARM: a token of the common language runtime.
pub const IMAGE_REL_ARM_TOKEN: u16 = 0x05;
/// ARM: an offset from the global pointer, 12 bits.
pub const IMAGE_REL_ARM_GPREL12: u16 = 0x06;
/// ARM: an offset from the global pointer, 7 bits.
pub const IMAGE_REL_ARM_GPREL7: u16 = 0x07;
/// ARM: the distance of a branch that may switch to Thumb, 24 bits.
pub const IMAGE_REL_ARM_BLX24: u16 = 0x08;
/// ARM: the distance of a branch that may switch from Thumb, 11 bits.
pub const IMAGE_REL_ARM_BLX11: u16 = 0x09;
/// ARM: the distance to the target from the byte after the field, 32 bits.
pub const IMAGE_REL_ARM_REL32: u16 = 0x0A;
/// ARM: the index of the target's section, 16 bits.
pub const IMAGE_REL_ARM_SECTION: u16 = 0x0E;
/// ARM: the target's offset from its section's start, 32 bits.
pub const IMAGE_REL_ARM_SECREL: u16 = 0x0F;
/// ARM: the target's address in two moves of 16 bits.
pub const IMAGE_REL_ARM_MOV32A: u16 = 0x10;
/// ARM: the target's address in two Thumb moves of 16 bits.
pub const IMAGE_REL_ARM_MOV32T: u16 = 0x11;
/// ARM: the distance of a conditional Thumb branch, 20 bits.
pub const IMAGE_REL_ARM_BRANCH20T: u16 = 0x12;
/// ARM: the distance of a Thumb branch, 24 bits.
pub const IMAGE_REL_ARM_BRANCH24T: u16 = 0x14;
/// ARM: the distance of a Thumb call, 23 bits.
pub const IMAGE_REL_ARM_BLX23T: u16 = 0x15;
/// ARM: the second half of a pair of relocations, whose symbol index is a displacement.
pub const IMAGE_REL_ARM_PAIR: u16 = 0x16;

const _: () = prove!(
    IMAGE_REL_ARM_ABSOLUTE == 0x0
        && IMAGE_REL_ARM_ADDR == 0x1
        && IMAGE_REL_ARM_ADDR32NB == 0x2
        && IMAGE_REL_ARM_BRANCH24 == 0x3
        && IMAGE_REL_ARM_BRANCH11 == 0x4
        && IMAGE_REL_ARM_TOKEN == 0x5
        && IMAGE_REL_ARM_GPREL12 == 0x6
        && IMAGE_REL_ARM_GPREL7 == 0x7
        && IMAGE_REL_ARM_BLX24 == 0x8
        && IMAGE_REL_ARM_BLX11 == 0x9
        && IMAGE_REL_ARM_REL32 == 0xA
        && IMAGE_REL_ARM_SECTION == 0xE
        && IMAGE_REL_ARM_SECREL == 0xF
        && IMAGE_REL_ARM_MOV32A == 0x10
        && IMAGE_REL_ARM_MOV32T == 0x11
        && IMAGE_REL_ARM_BRANCH20T == 0x12
        && IMAGE_REL_ARM_BRANCH24T == 0x14
        && IMAGE_REL_ARM_BLX23T == 0x15
        && IMAGE_REL_ARM_PAIR == 0x16
);

/// ARM64: nothing is changed.
pub const IMAGE_REL_ARM64_ABSOLUTE: u16 = 0x00;
/// ARM64: the target's address, 32 bits.
pub const IMAGE_REL_ARM64_ADDR32: u16 = 0x01;
/// ARM64: the target's address relative to the image's base, 32 bits.
pub const IMAGE_REL_ARM64_ADDR32NB: u16 = 0x02;
/// ARM64: the distance of a branch, 26 bits.
pub const IMAGE_REL_ARM64_BRANCH26: u16 = 0x03;
/// ARM64: the distance to the target's page, 21 bits.
pub const IMAGE_REL_ARM64_PAGEBASE_REL21: u16 = 0x04;
/// ARM64: the distance to the target, 21 bits.
pub const IMAGE_REL_ARM64_REL21: u16 = 0x05;
/// ARM64: the target's offset in its page, 12 bits of an addition.
pub const IMAGE_REL_ARM64_PAGEOFFSET_12A: u16 = 0x06;
/// ARM64: the target's offset in its page, 12 bits of a load or a store.
pub const IMAGE_REL_ARM64_PAGEOFFSET_12L: u16 = 0x07;
/// ARM64: the target's offset from its section's start, 32 bits.
pub const IMAGE_REL_ARM64_SECREL: u16 = 0x08;
/// ARM64: the low 12 bits of the target's offset from its section's start, of an addition.
pub const IMAGE_REL_ARM64_SECREL_LOW12A: u16 = 0x09;
/// ARM64: bits 12 to 23 of the target's offset from its section's start, of an addition.
pub const IMAGE_REL_ARM64_SECREL_HIGH12A: u16 = 0x0A;
/// ARM64: the low 12 bits of the target's offset from its section's start, of a load or a store.
pub const IMAGE_REL_ARM64_SECREL_LOW12L: u16 = 0x0B;
/// ARM64: a token of the common language runtime.
pub const IMAGE_REL_ARM64_TOKEN: u16 = 0x0C;
/// ARM64: the index of the target's section, 16 bits.
pub const IMAGE_REL_ARM64_SECTION: u16 = 0x0D;
/// ARM64: the target's address, 64 bits.
pub const IMAGE_REL_ARM64_ADDR64: u16 = 0x0E;
/// ARM64: the distance of a conditional branch, 19 bits.
pub const IMAGE_REL_ARM64_BRANCH19: u16 = 0x0F;
/// ARM64: the distance of a branch that tests a bit, 14 bits.
pub const IMAGE_REL_ARM64_BRANCH14: u16 = 0x10;
/// ARM64: the distance to the target from the byte after the field, 32 bits.
pub const IMAGE_REL_ARM64_REL32: u16 = 0x11;

const _: () = prove!(
    IMAGE_REL_ARM64_ABSOLUTE == 0x0
        && IMAGE_REL_ARM64_ADDR32 == 0x1
        && IMAGE_REL_ARM64_ADDR32NB == 0x2
        && IMAGE_REL_ARM64_BRANCH26 == 0x3
        && IMAGE_REL_ARM64_PAGEBASE_REL21 == 0x4
        && IMAGE_REL_ARM64_REL21 == 0x5
        && IMAGE_REL_ARM64_PAGEOFFSET_12A == 0x6
        && IMAGE_REL_ARM64_PAGEOFFSET_12L == 0x7
        && IMAGE_REL_ARM64_SECREL == 0x8
        && IMAGE_REL_ARM64_SECREL_LOW12A == 0x9
        && IMAGE_REL_ARM64_SECREL_HIGH12A == 0xA
        && IMAGE_REL_ARM64_SECREL_LOW12L == 0xB
        && IMAGE_REL_ARM64_TOKEN == 0xC
        && IMAGE_REL_ARM64_SECTION == 0xD
        && IMAGE_REL_ARM64_ADDR64 == 0xE
        && IMAGE_REL_ARM64_BRANCH19 == 0xF
        && IMAGE_REL_ARM64_BRANCH14 == 0x10
        && IMAGE_REL_ARM64_REL32 == 0x11
);

/// Itanium: nothing is changed.
pub const IMAGE_REL_IA64_ABSOLUTE: u16 = 0x00;
/// Itanium: an immediate of 14 bits.
pub const IMAGE_REL_IA64_IMM14: u16 = 0x01;
/// Itanium: an immediate of 22 bits.
pub const IMAGE_REL_IA64_IMM22: u16 = 0x02;
/// Itanium: an immediate of 64 bits.
pub const IMAGE_REL_IA64_IMM64: u16 = 0x03;
/// Itanium: the target's address, 32 bits.
pub const IMAGE_REL_IA64_DIR: u16 = 0x04;
/// Itanium: the target's address, 64 bits.
pub const IMAGE_REL_IA64_DIR64: u16 = 0x05;
/// Itanium: the distance of a branch in a bundle, 21 bits.
pub const IMAGE_REL_IA64_PCREL21B: u16 = 0x06;
/// Itanium: the distance of a branch in a memory instruction, 21 bits.
pub const IMAGE_REL_IA64_PCREL21M: u16 = 0x07;
/// Itanium: the distance of a branch in a floating-point instruction, 21 bits.
pub const IMAGE_REL_IA64_PCREL21F: u16 = 0x08;
/// Itanium: an offset from the global pointer, 22 bits.
pub const IMAGE_REL_IA64_GPREL22: u16 = 0x09;
/// Itanium: the offset of the target's linkage table entry from the global pointer, 22 bits.
pub const IMAGE_REL_IA64_LTOFF22: u16 = 0x0A;
/// Itanium: the index of the target's section, 16 bits.
pub const IMAGE_REL_IA64_SECTION: u16 = 0x0B;
/// Itanium: the target's offset from its section's start, 22 bits.
pub const IMAGE_REL_IA64_SECREL22: u16 = 0x0C;
/// Itanium: the target's offset from its section's start, an immediate of 64 bits.
pub const IMAGE_REL_IA64_SECREL64I: u16 = 0x0D;
/// Itanium: the target's offset from its section's start, 32 bits.
pub const IMAGE_REL_IA64_SECREL: u16 = 0x0E;
/// Itanium: the offset of the target's linkage table entry from the global pointer, 64 bits.
pub const IMAGE_REL_IA64_LTOFF64: u16 = 0x0F;
/// Itanium: the target's address relative to the image's base, 32 bits.
pub const IMAGE_REL_IA64_DIR32NB: u16 = 0x10;
/// Itanium: a signed immediate of 14 bits, the difference of two targets.
pub const IMAGE_REL_IA64_SREL14: u16 = 0x11;
/// Itanium: a signed immediate of 22 bits, the difference of two targets.
pub const IMAGE_REL_IA64_SREL22: u16 = 0x12;
/// Itanium: a signed value of 32 bits, the difference of two targets.
pub const IMAGE_REL_IA64_SREL32: u16 = 0x13;
/// Itanium: an unsigned value of 32 bits, the difference of two targets.
pub const IMAGE_REL_IA64_UREL32: u16 = 0x14;
/// Itanium: the distance of a branch, 60 bits; the branch stays a long one.
pub const IMAGE_REL_IA64_PCREL60X: u16 = 0x15;
/// Itanium: the distance of a branch, 60 bits; if 25 bits suffice, its bundle becomes an MBB one.
pub const IMAGE_REL_IA64_PCREL60B: u16 = 0x16;
/// Itanium: the distance of a branch, 60 bits; if 25 bits suffice, its bundle becomes an MFB one.
pub const IMAGE_REL_IA64_PCREL60F: u16 = 0x17;
/// Itanium: the distance of a branch, 60 bits; if 25 bits suffice, its bundle becomes an MIB one.
pub const IMAGE_REL_IA64_PCREL60I: u16 = 0x18;
/// Itanium: the distance of a branch, 60 bits; if 25 bits suffice, its bundle becomes an MMB one.
pub const IMAGE_REL_IA64_PCREL60M: u16 = 0x19;
/// Itanium: an offset from the global pointer, an immediate of 64 bits.
pub const IMAGE_REL_IA64_IMMGPREL64: u16 = 0x1A;
/// Itanium: a token of the common language runtime.
pub const IMAGE_REL_IA64_TOKEN: u16 = 0x1B;
/// Itanium: an offset from the global pointer, 32 bits.
pub const IMAGE_REL_IA64_GPREL32: u16 = 0x1C;
/// Itanium: a number to be added to the relocation before it.
pub const IMAGE_REL_IA64_ADDEND: u16 = 0x1F;

const _: () = prove!(
    IMAGE_REL_IA64_ABSOLUTE == 0x0
        && IMAGE_REL_IA64_IMM14 == 0x1
        && IMAGE_REL_IA64_IMM22 == 0x2
        && IMAGE_REL_IA64_IMM64 == 0x3
        && IMAGE_REL_IA64_DIR == 0x4
        && IMAGE_REL_IA64_DIR64 == 0x5
        && IMAGE_REL_IA64_PCREL21B == 0x6
        && IMAGE_REL_IA64_PCREL21M == 0x7
        && IMAGE_REL_IA64_PCREL21F == 0x8
        && IMAGE_REL_IA64_GPREL22 == 0x9
        && IMAGE_REL_IA64_LTOFF22 == 0xA
        && IMAGE_REL_IA64_SECTION == 0xB
        && IMAGE_REL_IA64_SECREL22 == 0xC
        && IMAGE_REL_IA64_SECREL64I == 0xD
        && IMAGE_REL_IA64_SECREL == 0xE
        && IMAGE_REL_IA64_LTOFF64 == 0xF
        && IMAGE_REL_IA64_DIR32NB == 0x10
        && IMAGE_REL_IA64_SREL14 == 0x11
        && IMAGE_REL_IA64_SREL22 == 0x12
        && IMAGE_REL_IA64_SREL32 == 0x13
        && IMAGE_REL_IA64_UREL32 == 0x14
        && IMAGE_REL_IA64_PCREL60X == 0x15
        && IMAGE_REL_IA64_PCREL60B == 0x16
        && IMAGE_REL_IA64_PCREL60F == 0x17
        && IMAGE_REL_IA64_PCREL60I == 0x18
        && IMAGE_REL_IA64_PCREL60M == 0x19
        && IMAGE_REL_IA64_IMMGPREL64 == 0x1A
        && IMAGE_REL_IA64_TOKEN == 0x1B
        && IMAGE_REL_IA64_GPREL32 == 0x1C
        && IMAGE_REL_IA64_ADDEND == 0x1F
);

/// Base relocation: nothing is changed; it fills a block up to a multiple of four bytes.
pub const IMAGE_REL_BASED_ABSOLUTE: u16 = 0x00;
/// Base relocation: the high half of a 32-bit address.
pub const IMAGE_REL_BASED_HIGH: u16 = 0x01;
/// Base relocation: the low half of a 32-bit address.
pub const IMAGE_REL_BASED_LOW: u16 = 0x02;
/// Base relocation: a 32-bit address.
pub const IMAGE_REL_BASED_HIGHLOW: u16 = 0x03;
/// Base relocation: the high half of a 32-bit address whose low half is in the next word.
pub const IMAGE_REL_BASED_HIGHADJ: u16 = 0x04;
/// Base relocation: a MIPS jump.
pub const IMAGE_REL_BASED_MIPS_JMPADDR: u16 = 0x05;
/// Base relocation: a 32-bit address in two ARM moves.
pub const IMAGE_REL_BASED_ARM_MOV32A: u16 = 0x05;
/// Base relocation: a 32-bit address in two ARM moves.
pub const IMAGE_REL_BASED_ARM_MOV32: u16 = 0x05;
/// Base relocation: the index of a section; reserved.
pub const IMAGE_REL_BASED_SECTION: u16 = 0x06;
/// Base relocation: a relative address; reserved.
pub const IMAGE_REL_BASED_REL: u16 = 0x07;
/// Base relocation: a 32-bit address in two Thumb moves.
pub const IMAGE_REL_BASED_ARM_MOV32T: u16 = 0x07;
/// Base relocation: a 32-bit address in two Thumb moves.
pub const IMAGE_REL_BASED_THUMB_MOV32: u16 = 0x07;
/// Base relocation: a MIPS16 jump.
pub const IMAGE_REL_BASED_MIPS_JMPADDR16: u16 = 0x09;
/// Base relocation: a 64-bit immediate of Itanium.
pub const IMAGE_REL_BASED_IA64_IMM64: u16 = 0x09;
/// Base relocation: a 64-bit address.
pub const IMAGE_REL_BASED_DIR64: u16 = 0x0A;
/// Base relocation: the top 16 bits of a 48-bit address.
pub const IMAGE_REL_BASED_HIGH3ADJ: u16 = 0x0B;

const _: () = prove!(
    IMAGE_REL_BASED_ABSOLUTE == 0x0
        && IMAGE_REL_BASED_HIGH == 0x1
        && IMAGE_REL_BASED_LOW == 0x2
        && IMAGE_REL_BASED_HIGHLOW == 0x3
        && IMAGE_REL_BASED_HIGHADJ == 0x4
        && IMAGE_REL_BASED_MIPS_JMPADDR == 0x5
        && IMAGE_REL_BASED_ARM_MOV32A == 0x5
        && IMAGE_REL_BASED_ARM_MOV32 == 0x5
        && IMAGE_REL_BASED_SECTION == 0x6
        && IMAGE_REL_BASED_REL == 0x7
        && IMAGE_REL_BASED_ARM_MOV32T == 0x7
        && IMAGE_REL_BASED_THUMB_MOV32 == 0x7
        && IMAGE_REL_BASED_MIPS_JMPADDR16 == 0x9
        && IMAGE_REL_BASED_IA64_IMM64 == 0x9
        && IMAGE_REL_BASED_DIR64 == 0xA
        && IMAGE_REL_BASED_HIGH3ADJ == 0xB
);
