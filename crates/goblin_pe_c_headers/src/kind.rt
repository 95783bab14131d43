//! What a file is, by its first bytes.

ghost use Rattle.std.specs.Prelude.{◌≡◌};
ghost use Rattle.goblin_pe_c_headers.specs.Kinds.{anonymous_kind, has_number, kind_of, kind_with};

use goblin_base::Endian;
use goblin_base::read::{pread_u16, pread_u32, pread_u64};
use goblin_pe_head::header::{self, DOS_MAGIC, TE_MAGIC};

/// What a file is, by its first bytes. This does not say whether it can be read. No call reads
/// archives, import objects and big objects.
#[derive(Copy, Clone)]
pub enum Kind {
    /// Another file.
    Unknown = 0,
    /// An image, which begins with `MZ`.
    Image = 1,
    /// An object, which begins with a machine, a `COFF_MACHINE_*` other than
    /// `COFF_MACHINE_UNKNOWN`.
    Object = 2,
    /// A Terse Executable, which begins with `VZ`.
    Te = 3,
    /// An archive of objects, such as a static library or an import library, which begins with the
    /// eight bytes `!<arch>` and a line feed.
    Archive = 4,
    /// An import object, a member of an import library that says what a name is imported by. It
    /// begins with 0, 0xFFFF and the version 0, of two bytes each.
    ImportObject = 5,
    /// A big object, which can have more than 65,279 sections. It begins with 0, 0xFFFF and a
    /// version from 2 on, of two bytes each, and has the identifier of such objects at 12.
    BigObject = 6,
}

// What an archive begins with: `!<arch>` and a line feed.
const ARCHIVE: u64 = 0x0A3E_6863_7261_3C21;

// What import objects and big objects begin with: 0 and 0xFFFF.
const ANONYMOUS: u32 = 0xFFFF_0000;

// The identifier of big objects: the first half, and the second.
const BIG_OBJECT_LOW: u64 = 0x4BA9_BAEE_D1BA_A1C7;

const BIG_OBJECT_HIGH: u64 = 0xB8DC_A46A_F6FA_20AF;

// The machines that an object names.
const MACHINES: [u16; 28] = [
    header::COFF_MACHINE_ALPHA,
    header::COFF_MACHINE_ALPHA64,
    header::COFF_MACHINE_AM33,
    header::COFF_MACHINE_X86_64,
    header::COFF_MACHINE_ARM,
    header::COFF_MACHINE_ARM64,
    header::COFF_MACHINE_ARMNT,
    header::COFF_MACHINE_EBC,
    header::COFF_MACHINE_X86,
    header::COFF_MACHINE_IA64,
    header::COFF_MACHINE_LOONGARCH32,
    header::COFF_MACHINE_LOONGARCH64,
    header::COFF_MACHINE_M32R,
    header::COFF_MACHINE_MIPS16,
    header::COFF_MACHINE_MIPSFPU,
    header::COFF_MACHINE_MIPSFPU16,
    header::COFF_MACHINE_POWERPC,
    header::COFF_MACHINE_POWERPCFP,
    header::COFF_MACHINE_R4000,
    header::COFF_MACHINE_RISCV32,
    header::COFF_MACHINE_RISCV64,
    header::COFF_MACHINE_RISCV128,
    header::COFF_MACHINE_SH3,
    header::COFF_MACHINE_SH3DSP,
    header::COFF_MACHINE_SH4,
    header::COFF_MACHINE_SH5,
    header::COFF_MACHINE_THUMB,
    header::COFF_MACHINE_WCEMIPSV2,
];

// What a file is that begins with this number.
fn kind_with(magic: u16) -> Kind
    ensures { result ≡ kind_with magic }
{
    match magic {
        DOS_MAGIC => Kind::Image,
        TE_MAGIC => Kind::Te,
        machine if MACHINES.contains(&machine) => Kind::Object,
        _ => Kind::Unknown,
    }
}

// Whether the eight bytes at an offset are there, and are this number.
fn has_u64(bytes: &[u8], offset: usize, number: u64) -> bool
    ensures { result ≡ has_number 8 bytes.now offset number }
{
    matches!(pread_u64(bytes, offset, Endian::Little), Ok(found) if found == number)
}

// What a file is that begins as import objects and big objects do.
fn anonymous_kind(bytes: &[u8]) -> Kind
    ensures { result ≡ anonymous_kind bytes.now }
{
    let is_big = has_u64(bytes, 12, BIG_OBJECT_LOW) && has_u64(bytes, 20, BIG_OBJECT_HIGH);
    match pread_u16(bytes, 4, Endian::Little) {
        Ok(0) => Kind::ImportObject,
        Ok(version) if version >= 2 && is_big => Kind::BigObject,
        _ => Kind::Unknown,
    }
}

/// What a file is, by its first bytes.
pub fn kind_of(bytes: &[u8]) -> Kind
    ensures { result ≡ kind_of bytes.now }
{
    if has_u64(bytes, 0, ARCHIVE) {
        return Kind::Archive;
    }
    if matches!(pread_u32(bytes, 0, Endian::Little), Ok(ANONYMOUS)) {
        return anonymous_kind(bytes);
    }
    match pread_u16(bytes, 0, Endian::Little) {
        Ok(magic) => kind_with(magic),
        Err(_) => Kind::Unknown,
    }
}
