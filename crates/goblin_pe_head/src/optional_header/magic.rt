//! The magic numbers of optional headers.

/// The magic of an optional header for 32 bits.
pub const MAGIC_32: u16 = 0x10B;
/// The magic of an optional header for 64 bits.
pub const MAGIC_64: u16 = 0x20B;
/// The magic of an optional header for 32 bits, by its name in the Windows headers.
pub const IMAGE_NT_OPTIONAL_HDR32_MAGIC: u16 = 0x10B;
/// The magic of an optional header for 64 bits, by its name in the Windows headers.
pub const IMAGE_NT_OPTIONAL_HDR64_MAGIC: u16 = 0x20B;
/// The magic of a ROM image. No reader accepts it.
pub const IMAGE_ROM_OPTIONAL_HDR_MAGIC: u16 = 0x107;

const _: () = prove!(
    MAGIC_32 == 0x10B
        && MAGIC_64 == 0x20B
        && IMAGE_NT_OPTIONAL_HDR32_MAGIC == 0x10B
        && IMAGE_NT_OPTIONAL_HDR64_MAGIC == 0x20B
        && IMAGE_ROM_OPTIONAL_HDR_MAGIC == 0x107
);
