//! What lies in a slot of a lookup table or of an import directory.

ghost use Rattle.std.specs.Prelude.{◌≡◌, ◌||◌, not, is_some};
ghost use Rattle.goblin_base.specs.Bytes.{slice_at};
ghost use Rattle.goblin_pe_import.specs.ImportEntries.{GivesSlot, entry_slots};
ghost use Rattle.goblin_pe_import.specs.ImportRecords.{import_slots};

use crate::import::bitfield::{Bitfield, read_entry};
use crate::import::directory_entry::ImportDirectoryEntry;
use goblin_base::{Endian, Record};

// The entry in the slot at an offset; `None` if the table ends there.
#[inline(always)]
pub(crate) fn next_entry<'a, T: Bitfield<'a>>(bytes: &'a [u8], offset: usize) -> Option<T>
    ensures { GivesSlot T.value (entry_slots T.format) bytes.now offset result }
{
    match read_entry::<T>(bytes, offset) {
        Ok(entry) if !entry.is_zero() => Some(entry),
        _ => None,
    }
}

// The import descriptor in the slot at an offset; `None` if the directory ends there.
#[inline(always)]
pub(crate) fn next_record(bytes: &[u8], offset: usize) -> Option<ImportDirectoryEntry>
    ensures { GivesSlot (λ r. r) import_slots bytes.now offset result }
{
    match ImportDirectoryEntry::read_at(bytes, offset, Endian::Little) {
        Ok(record) if record.is_possibly_valid() => Some(record),
        _ => None,
    }
}

// Whether a table may end in the slot of `width` bytes at an offset. In strict mode that slot must
// lie in the file.
#[inline(always)]
pub(crate) fn may_end(bytes: &[u8], offset: usize, width: usize, strictly: bool) -> bool
    ensures { result ≡ (not strictly || is_some (slice_at bytes.now offset width)) }
{
    !strictly || (offset < bytes.len() && width <= bytes.len() - offset)
}
