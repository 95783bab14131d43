//! The machines that a COFF header can name.
//!
//! Source: PE Format, "Machine Types", and for some the Windows headers.

/// The machine: any machine.
pub const COFF_MACHINE_UNKNOWN: u16 = 0x0;
/// The machine: Alpha AXP, 32 bits.
pub const COFF_MACHINE_ALPHA: u16 = 0x184;
/// The machine: Alpha, 64 bits.
pub const COFF_MACHINE_ALPHA64: u16 = 0x284;
/// The machine: Matsushita AM33.
pub const COFF_MACHINE_AM33: u16 = 0x1D3;
/// The machine: x86-64.
pub const COFF_MACHINE_X86_64: u16 = 0x8664;
/// The machine: ARM, little-endian.
pub const COFF_MACHINE_ARM: u16 = 0x1C0;
/// The machine: ARM64, little-endian.
pub const COFF_MACHINE_ARM64: u16 = 0xAA64;
/// The machine: ARM Thumb-2, little-endian.
pub const COFF_MACHINE_ARMNT: u16 = 0x1C4;
/// The machine: EFI byte code.
pub const COFF_MACHINE_EBC: u16 = 0xEBC;
/// The machine: Intel 386 and later.
pub const COFF_MACHINE_X86: u16 = 0x14C;
/// The machine: Intel Itanium.
pub const COFF_MACHINE_IA64: u16 = 0x200;
/// The machine: LoongArch, 32 bits.
pub const COFF_MACHINE_LOONGARCH32: u16 = 0x6232;
/// The machine: LoongArch, 64 bits.
pub const COFF_MACHINE_LOONGARCH64: u16 = 0x6264;
/// The machine: Mitsubishi M32R, little-endian.
pub const COFF_MACHINE_M32R: u16 = 0x9041;
/// The machine: MIPS16.
pub const COFF_MACHINE_MIPS16: u16 = 0x266;
/// The machine: MIPS with a floating-point unit.
pub const COFF_MACHINE_MIPSFPU: u16 = 0x366;
/// The machine: MIPS16 with a floating-point unit.
pub const COFF_MACHINE_MIPSFPU16: u16 = 0x466;
/// The machine: PowerPC, little-endian.
pub const COFF_MACHINE_POWERPC: u16 = 0x1F0;
/// The machine: PowerPC with floating point.
pub const COFF_MACHINE_POWERPCFP: u16 = 0x1F1;
/// The machine: MIPS R4000, little-endian.
pub const COFF_MACHINE_R4000: u16 = 0x166;
/// The machine: RISC-V, 32 bits.
pub const COFF_MACHINE_RISCV32: u16 = 0x5032;
/// The machine: RISC-V, 64 bits.
pub const COFF_MACHINE_RISCV64: u16 = 0x5064;
/// The machine: RISC-V, 128 bits.
pub const COFF_MACHINE_RISCV128: u16 = 0x5128;
/// The machine: Hitachi SH3.
pub const COFF_MACHINE_SH3: u16 = 0x1A2;
/// The machine: Hitachi SH3 DSP.
pub const COFF_MACHINE_SH3DSP: u16 = 0x1A3;
/// The machine: Hitachi SH4.
pub const COFF_MACHINE_SH4: u16 = 0x1A6;
/// The machine: Hitachi SH5.
pub const COFF_MACHINE_SH5: u16 = 0x1A8;
/// The machine: ARM or Thumb.
pub const COFF_MACHINE_THUMB: u16 = 0x1C2;
/// The machine: MIPS WCE v2, little-endian.
pub const COFF_MACHINE_WCEMIPSV2: u16 = 0x169;

const _: () = prove!(
    COFF_MACHINE_UNKNOWN == 0x0
        && COFF_MACHINE_ALPHA == 0x184
        && COFF_MACHINE_ALPHA64 == 0x284
        && COFF_MACHINE_AM33 == 0x1D3
        && COFF_MACHINE_X86_64 == 0x8664
        && COFF_MACHINE_ARM == 0x1C0
        && COFF_MACHINE_ARM64 == 0xAA64
        && COFF_MACHINE_ARMNT == 0x1C4
        && COFF_MACHINE_EBC == 0xEBC
        && COFF_MACHINE_X86 == 0x14C
        && COFF_MACHINE_IA64 == 0x200
        && COFF_MACHINE_LOONGARCH32 == 0x6232
        && COFF_MACHINE_LOONGARCH64 == 0x6264
        && COFF_MACHINE_M32R == 0x9041
        && COFF_MACHINE_MIPS16 == 0x266
        && COFF_MACHINE_MIPSFPU == 0x366
        && COFF_MACHINE_MIPSFPU16 == 0x466
        && COFF_MACHINE_POWERPC == 0x1F0
        && COFF_MACHINE_POWERPCFP == 0x1F1
        && COFF_MACHINE_R4000 == 0x166
        && COFF_MACHINE_RISCV32 == 0x5032
        && COFF_MACHINE_RISCV64 == 0x5064
        && COFF_MACHINE_RISCV128 == 0x5128
        && COFF_MACHINE_SH3 == 0x1A2
        && COFF_MACHINE_SH3DSP == 0x1A3
        && COFF_MACHINE_SH4 == 0x1A6
        && COFF_MACHINE_SH5 == 0x1A8
        && COFF_MACHINE_THUMB == 0x1C2
        && COFF_MACHINE_WCEMIPSV2 == 0x169
);
