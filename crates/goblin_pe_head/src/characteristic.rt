//! The characteristics of a file, as bits of its COFF header.
//!
//! Source: PE Format, "Characteristics".

/// The image has no base relocations, so it must be loaded at its preferred address.
pub const IMAGE_FILE_RELOCS_STRIPPED: u16 = 0x0001;
/// The image is valid and can be run. If the bit is not set, the linker failed.
pub const IMAGE_FILE_EXECUTABLE_IMAGE: u16 = 0x0002;
/// The COFF line numbers were removed. Obsolete.
pub const IMAGE_FILE_LINE_NUMS_STRIPPED: u16 = 0x0004;
/// The COFF symbols of local names were removed. Obsolete.
pub const IMAGE_FILE_LOCAL_SYMS_STRIPPED: u16 = 0x0008;
/// The working set is trimmed aggressively. Obsolete.
pub const IMAGE_FILE_AGGRESSIVE_WS_TRIM: u16 = 0x0010;
/// The program can use addresses above 2 GiB.
pub const IMAGE_FILE_LARGE_ADDRESS_AWARE: u16 = 0x0020;
/// The bytes of a word are stored little-endian. Obsolete.
pub const IMAGE_FILE_BYTES_REVERSED_LO: u16 = 0x0080;
/// The machine has words of 32 bits.
pub const IMAGE_FILE_32BIT_MACHINE: u16 = 0x0100;
/// The debug data was removed from the image.
pub const IMAGE_FILE_DEBUG_STRIPPED: u16 = 0x0200;
/// If the image is on removable media, it is loaded whole and copied to the swap file.
pub const IMAGE_FILE_REMOVABLE_RUN_FROM_SWAP: u16 = 0x0400;
/// If the image is on a network, it is loaded whole and copied to the swap file.
pub const IMAGE_FILE_NET_RUN_FROM_SWAP: u16 = 0x0800;
/// The image is a system file, not a user program.
pub const IMAGE_FILE_SYSTEM: u16 = 0x1000;
/// The image is a dynamic-link library.
pub const IMAGE_FILE_DLL: u16 = 0x2000;
/// The image may run only on machines with one processor.
pub const IMAGE_FILE_UP_SYSTEM_ONLY: u16 = 0x4000;
/// The bytes of a word are stored big-endian. Obsolete.
pub const IMAGE_FILE_BYTES_REVERSED_HI: u16 = 0x8000;
