//! The characteristics of sections, as bits.
//!
//! Source: PE Format, "Section Flags".

/// The section is not padded to the next boundary. Obsolete; use [`IMAGE_SCN_ALIGN_1BYTES`].
pub const IMAGE_SCN_TYPE_NO_PAD: u32 = 0x0000_0008;
/// The section has executable code.
pub const IMAGE_SCN_CNT_CODE: u32 = 0x0000_0020;
/// The section has initialized data.
pub const IMAGE_SCN_CNT_INITIALIZED_DATA: u32 = 0x0000_0040;
/// The section has uninitialized data.
pub const IMAGE_SCN_CNT_UNINITIALIZED_DATA: u32 = 0x0000_0080;
/// Reserved.
pub const IMAGE_SCN_LNK_OTHER: u32 = 0x0000_0100;
/// The section has comments or other information. For object files only.
pub const IMAGE_SCN_LNK_INFO: u32 = 0x0000_0200;
/// The section is not part of the image. For object files only.
pub const IMAGE_SCN_LNK_REMOVE: u32 = 0x0000_0800;
/// The section has COMDAT data. For object files only.
pub const IMAGE_SCN_LNK_COMDAT: u32 = 0x0000_1000;
/// The section has data that is referred to through the global pointer.
pub const IMAGE_SCN_GPREL: u32 = 0x0000_8000;
/// Reserved.
pub const IMAGE_SCN_MEM_PURGEABLE: u32 = 0x0002_0000;
/// Reserved.
pub const IMAGE_SCN_MEM_16BIT: u32 = 0x0002_0000;
/// Reserved.
pub const IMAGE_SCN_MEM_LOCKED: u32 = 0x0004_0000;
/// Reserved.
pub const IMAGE_SCN_MEM_PRELOAD: u32 = 0x0008_0000;
/// The data is aligned to 1 byte. For object files only, as are the alignments below.
pub const IMAGE_SCN_ALIGN_1BYTES: u32 = 0x0010_0000;
/// The data is aligned to 2 bytes.
pub const IMAGE_SCN_ALIGN_2BYTES: u32 = 0x0020_0000;
/// The data is aligned to 4 bytes.
pub const IMAGE_SCN_ALIGN_4BYTES: u32 = 0x0030_0000;
/// The data is aligned to 8 bytes.
pub const IMAGE_SCN_ALIGN_8BYTES: u32 = 0x0040_0000;
/// The data is aligned to 16 bytes.
pub const IMAGE_SCN_ALIGN_16BYTES: u32 = 0x0050_0000;
/// The data is aligned to 32 bytes.
pub const IMAGE_SCN_ALIGN_32BYTES: u32 = 0x0060_0000;
/// The data is aligned to 64 bytes.
pub const IMAGE_SCN_ALIGN_64BYTES: u32 = 0x0070_0000;
/// The data is aligned to 128 bytes.
pub const IMAGE_SCN_ALIGN_128BYTES: u32 = 0x0080_0000;
/// The data is aligned to 256 bytes.
pub const IMAGE_SCN_ALIGN_256BYTES: u32 = 0x0090_0000;
/// The data is aligned to 512 bytes.
pub const IMAGE_SCN_ALIGN_512BYTES: u32 = 0x00A0_0000;
/// The data is aligned to 1,024 bytes.
pub const IMAGE_SCN_ALIGN_1024BYTES: u32 = 0x00B0_0000;
/// The data is aligned to 2,048 bytes.
pub const IMAGE_SCN_ALIGN_2048BYTES: u32 = 0x00C0_0000;
/// The data is aligned to 4,096 bytes.
pub const IMAGE_SCN_ALIGN_4096BYTES: u32 = 0x00D0_0000;
/// The data is aligned to 8,192 bytes.
pub const IMAGE_SCN_ALIGN_8192BYTES: u32 = 0x00E0_0000;
/// The bits that give the alignment.
pub const IMAGE_SCN_ALIGN_MASK: u32 = 0x00F0_0000;
/// The section has more relocations than its section header can count. The address in the first one
/// is the number of relocations.
pub const IMAGE_SCN_LNK_NRELOC_OVFL: u32 = 0x0100_0000;
/// The section can be discarded once the image is loaded.
pub const IMAGE_SCN_MEM_DISCARDABLE: u32 = 0x0200_0000;
/// The section can't be cached.
pub const IMAGE_SCN_MEM_NOT_CACHED: u32 = 0x0400_0000;
/// The section can't be paged out.
pub const IMAGE_SCN_MEM_NOT_PAGED: u32 = 0x0800_0000;
/// The section can be shared in memory.
pub const IMAGE_SCN_MEM_SHARED: u32 = 0x1000_0000;
/// The section can be executed.
pub const IMAGE_SCN_MEM_EXECUTE: u32 = 0x2000_0000;
/// The section can be read.
pub const IMAGE_SCN_MEM_READ: u32 = 0x4000_0000;
/// The section can be written.
pub const IMAGE_SCN_MEM_WRITE: u32 = 0x8000_0000;

const _: () = prove!(
    IMAGE_SCN_TYPE_NO_PAD == 0x8
        && IMAGE_SCN_CNT_CODE == 0x20
        && IMAGE_SCN_CNT_INITIALIZED_DATA == 0x40
        && IMAGE_SCN_CNT_UNINITIALIZED_DATA == 0x80
        && IMAGE_SCN_LNK_OTHER == 0x100
        && IMAGE_SCN_LNK_INFO == 0x200
        && IMAGE_SCN_LNK_REMOVE == 0x800
        && IMAGE_SCN_LNK_COMDAT == 0x1000
        && IMAGE_SCN_GPREL == 0x8000
        && IMAGE_SCN_MEM_PURGEABLE == 0x0002_0000
        && IMAGE_SCN_MEM_16BIT == 0x0002_0000
        && IMAGE_SCN_MEM_LOCKED == 0x0004_0000
        && IMAGE_SCN_MEM_PRELOAD == 0x0008_0000
        && IMAGE_SCN_ALIGN_1BYTES == 0x0010_0000
        && IMAGE_SCN_ALIGN_2BYTES == 0x0020_0000
        && IMAGE_SCN_ALIGN_4BYTES == 0x0030_0000
        && IMAGE_SCN_ALIGN_8BYTES == 0x0040_0000
        && IMAGE_SCN_ALIGN_16BYTES == 0x0050_0000
        && IMAGE_SCN_ALIGN_32BYTES == 0x0060_0000
        && IMAGE_SCN_ALIGN_64BYTES == 0x0070_0000
        && IMAGE_SCN_ALIGN_128BYTES == 0x0080_0000
        && IMAGE_SCN_ALIGN_256BYTES == 0x0090_0000
        && IMAGE_SCN_ALIGN_512BYTES == 0x00A0_0000
        && IMAGE_SCN_ALIGN_1024BYTES == 0x00B0_0000
        && IMAGE_SCN_ALIGN_2048BYTES == 0x00C0_0000
        && IMAGE_SCN_ALIGN_4096BYTES == 0x00D0_0000
        && IMAGE_SCN_ALIGN_8192BYTES == 0x00E0_0000
        && IMAGE_SCN_ALIGN_MASK == 0x00F0_0000
        && IMAGE_SCN_LNK_NRELOC_OVFL == 0x0100_0000
        && IMAGE_SCN_MEM_DISCARDABLE == 0x0200_0000
        && IMAGE_SCN_MEM_NOT_CACHED == 0x0400_0000
        && IMAGE_SCN_MEM_NOT_PAGED == 0x0800_0000
        && IMAGE_SCN_MEM_SHARED == 0x1000_0000
        && IMAGE_SCN_MEM_EXECUTE == 0x2000_0000
        && IMAGE_SCN_MEM_READ == 0x4000_0000
        && IMAGE_SCN_MEM_WRITE == 0x8000_0000
);
