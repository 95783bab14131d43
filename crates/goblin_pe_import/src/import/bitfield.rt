//! The types of the entries (thunks) of lookup and address tables.

ghost use Rattle.std.specs.Prelude.{◌≡◌, ◌==◌, ◌≤◌, ◌^◌, length};
ghost use Rattle.std.proofs.Common.{lit≤};
ghost use Rattle.goblin_base.specs.Answers.{Answers, IsSliceFault};
ghost use Rattle.goblin_base.specs.{Record.record_at, Tables.Format};
ghost use Rattle.goblin_pe_import.specs.ImportLookup.{EntryValue, entries_32, entries_64};
ghost use Rattle.goblin_pe_import.specs.ImportLookup.{entry_value};

use goblin_base::{Endian, ResultOf, field_u32, field_u64, pread_slice};

/// The bit of a 32-bit entry that is set if the entry imports by ordinal.
pub const IMPORT_BY_ORDINAL_32: u32 = 0x8000_0000;
/// The bits of a 32-bit entry that are the address of a hint and a name.
pub const IMPORT_RVA_MASK_32: u32 = 0x7FFF_FFFF;
/// The bit of a 64-bit entry that is set if the entry imports by ordinal.
pub const IMPORT_BY_ORDINAL_64: u64 = 0x8000_0000_0000_0000;
/// The bits of a 64-bit entry that are the address of a hint and a name.
pub const IMPORT_RVA_MASK_64: u64 = 0x0000_0000_7FFF_FFFF;

const _: () = prove!(
    IMPORT_BY_ORDINAL_32 == 0x8000_0000
        && IMPORT_RVA_MASK_32 == 0x7FFF_FFFF
        && IMPORT_BY_ORDINAL_64 == 0x8000_0000_0000_0000
        && IMPORT_RVA_MASK_64 == 0x7FFF_FFFF
);

/// The type of the entries (thunks) of lookup and address tables: `u32` in a PE32 image, `u64` in a
/// PE32+ image. What an entry says is a function of the bytes that it was read from.
///
/// Source: PE Format, "Import Lookup Table".
pub trait Bitfield<'a>: Eq + Drop {
    /// How many bytes an entry has, and what they say.
    ghost format: { Format EntryValue };

    /// What an entry says.
    ghost value: { Self → EntryValue };

    /// Whether the entry imports by ordinal. For `u32` and `u64`: whether the highest bit is set.
    fn is_ordinal(&self) -> bool
        ensures { result ≡ (value self.now).is_ordinal };

    /// The ordinal, if the entry imports by ordinal. For `u32` and `u64`: the low 16 bits.
    fn to_ordinal(&self) -> u16
        ensures { result ≡ (value self.now).ordinal };

    /// The address of the hint and the name, if the entry imports by name. For `u32` and `u64`: the
    /// low 31 bits.
    fn to_rva(&self) -> u32
        ensures { result ≡ (value self.now).rva };

    /// The size of an entry, in bytes: at least 1.
    fn size_of() -> usize
        ensures width { result ≡ format.width }
        ensures positive { 1 ≤ result };

    /// Whether the entry ends a table, because its number is 0. Readers ask this first.
    fn is_zero(&self) -> bool
        ensures { result ≡ ((value self.now).number == 0) };

    /// Reads the entry from its bytes, which must be as many as [`Bitfield::size_of`] says. `u32`
    /// and `u64` are little-endian.
    fn read(bytes: &'a [u8]) -> Self
        requires { length bytes.now ≡ format.width }
        ensures { value result ≡ format.value_of bytes.now };

    /// The number of the entry, which an address table keeps. For `u32` and `u64`: the value
    /// itself.
    fn number(&self) -> u64
        ensures { result ≡ (value self.now).number };

    /// An entry has at least one byte.
    ghost positive: { 1 ≤ format.width };
}

impl<'a> Bitfield<'a> for u32 {
    ghost format = { entries_32 };

    ghost value = { entry_value (2 ^ 31) };

    fn is_ordinal(&self) -> bool {
        *self >= IMPORT_BY_ORDINAL_32
    }

    fn to_ordinal(&self) -> u16 {
        (*self % 0x1_0000) as u16
    }

    fn to_rva(&self) -> u32 {
        *self & IMPORT_RVA_MASK_32
    }

    fn size_of() -> usize {
        4
    }

    fn is_zero(&self) -> bool {
        *self == 0
    }

    fn read(bytes: &'a [u8]) -> u32 {
        field_u32(bytes, 0, Endian::Little)
    }

    fn number(&self) -> u64 {
        u64::from(*self)
    }

    ghost positive = { lit≤ tt };
}

impl<'a> Bitfield<'a> for u64 {
    ghost format = { entries_64 };

    ghost value = { entry_value (2 ^ 63) };

    fn is_ordinal(&self) -> bool {
        *self >= IMPORT_BY_ORDINAL_64
    }

    fn to_ordinal(&self) -> u16 {
        (*self % 0x1_0000) as u16
    }

    fn to_rva(&self) -> u32 {
        (*self & IMPORT_RVA_MASK_64) as u32
    }

    fn size_of() -> usize {
        8
    }

    fn is_zero(&self) -> bool {
        *self == 0
    }

    fn read(bytes: &'a [u8]) -> u64 {
        field_u64(bytes, 0, Endian::Little)
    }

    fn number(&self) -> u64 {
        *self
    }

    ghost positive = { lit≤ tt };
}

pub(crate) fn read_entry<'a, 'e, T: Bitfield<'a>>(bytes: &'a [u8], offset: usize) -> ResultOf<'e, T>
    ensures { Answers T.value result (record_at T.format.width T.format.value_of bytes.now offset)
        (IsSliceFault bytes.now offset T.format.width) }
{
    let entry = pread_slice(bytes, offset, T::size_of())?;
    Ok(T::read(entry))
}
