//! Entries of a lookup table by ordinal, or by a name that is ASCII.

ghost use Rattle.std.specs.Prelude.{◌≡◌, ◌+◌, ◌<◌, ◌≤◌, ◌^◌, Bool, IfSome, Ok, Some, length, suc};
ghost use Rattle.goblin_base.specs.Parts.{bytes_in};
ghost use Rattle.readings.specs.Walks.{GivesNext};
ghost use Rattle.goblin_pe_sect.specs.Addresses.{map_of, reads_strictly};
ghost use Rattle.goblin_pe_import.specs.ImportLookup.{hint_name_model, kept_model};
ghost use Rattle.goblin_pe_import.specs.KeptEntries.{IsEntriesCause, entries_from, kept_value};
ghost use Rattle.goblin_pe_import.specs.LookupReadings as reading;
ghost use Rattle.goblin_pe_import.specs.Passed.{Count, entries_ahead};
ghost use Rattle.goblin_pe_import.specs.Steps.{slots_ahead};

use crate::import::bitfield::Bitfield;
use crate::import::kept::KeptEntry;
use crate::import::lookup_table::{HintNameTableEntry, SyntheticImportLookupTableEntry};
use crate::import::slots::next_entry;
use goblin_base::{Endian, MappedBytes, field_u16, pread_ascii_str_within};
use goblin_pe_sect::address_map::Finder;

// How many bytes the file must have from an entry with such a name on: those of the hint, and a
// lane of 16 bytes for the name.
const ASCII_ROOM: usize = 18;

// The hint and the name at an offset of what a read at an address sees, if the name is ASCII and
// within the limit, and its NUL is not among the last bytes there that are in the file. `None` says
// nothing about them. Both modes return the same.
#[inline(always)]
fn ascii_hint_name<'a>(
    part: MappedBytes<'a>,
    offset: usize,
    longest: Option<u32>,
) -> Option<HintNameTableEntry<'a>>
    ensures { IfSome result (λ named. (strict : Bool)
        → (reading.hint_name strict longest offset).value (bytes_in part.entry)
        ≡ Some (hint_name_model named)) }
{
    let stored = part.stored();
    if stored.len() < offset || stored.len() - offset < ASCII_ROOM {
        return None;
    }
    let entry = &stored[offset..];
    let hint = field_u16(entry, 0, Endian::Little);
    let Some(name) = pread_ascii_str_within(entry, 2, longest) else {
        return None;
    };
    Some(HintNameTableEntry { hint, name })
}

// What a table keeps of an entry that is by ordinal, or by a name that is ASCII and whose address
// lies among those around the last name, as the finder keeps them. `None` says nothing about the
// entry.
#[inline(always)]
#[tactic(auto, unfolding(crate::specs::LookupReadings::kept_entry))]
fn ascii_entry<'a, T: Bitfield<'a>>(
    entry: &T,
    bytes: &'a [u8],
    finder: &Finder<'_>,
) -> Option<SyntheticImportLookupTableEntry<'a>>
    ensures { let m = map_of finder.now in
        let read = reading.kept_entry (reads_strictly m) m.addressing (T.value entry.now) in
        IfSome result (λ kept. read.value bytes.now ≡ Some (kept_model (Some kept))) }
{
    if entry.is_ordinal() {
        let ordinal = entry.to_ordinal();
        return Some(SyntheticImportLookupTableEntry::OrdinalNumber(ordinal));
    }
    let rva = entry.to_rva();
    let Some((part, offset)) = finder.near_name_part(bytes, rva) else {
        return None;
    };
    let Some(named) = ascii_hint_name(part, offset, finder.longest_name()) else {
        return None;
    };
    Some(SyntheticImportLookupTableEntry::HintNameTableRVA((rva, named)))
}

// The entry that the lookup table at `offset` keeps in the slot at `place`, if it is by ordinal, or
// by a name that is ASCII and lies near the last one. `None` says nothing about the slot. Every
// call in here is inlined, so a loop over such slots keeps its values in registers.
#[inline(always)]
pub(super) fn ascii_kept<'a, T: Bitfield<'a>>(
    bytes: &'a [u8],
    offset: usize,
    place: usize,
    finder: &Finder<'_>,
) -> Option<KeptEntry<'a>>
    ensures steps { let m = map_of finder.now in
        IfSome result (λ kept. GivesNext kept_value
        (entries_from (reads_strictly m) T.format m.addressing bytes.now offset)
        (IsEntriesCause (reads_strictly m) T.format m.addressing bytes.now)
        (Some place) (Some (Ok kept)) (Some (kept.place + T.format.width))) }
    ensures here { IfSome result (λ kept. kept.place ≡ place) }
    ensures inside { IfSome result (λ kept. place + T.format.width ≤ length bytes.now) }
    ensures short { IfSome result (λ kept. kept.place + T.format.width < 2 ^ 63) }
    ensures counted { IfSome result (λ kept. slots_ahead T.format bytes.now (Some place)
        ≡ suc (slots_ahead T.format bytes.now (Some (place + T.format.width)))) }
    ensures passed { let m = map_of finder.now in
        let ahead = entries_ahead (reads_strictly m) T.format m.addressing bytes.now in
        IfSome result (λ _. (k : Count)
        → ahead k (Some place) ≡ ahead k (Some (place + T.format.width))) }
{
    let Some(entry) = next_entry::<T>(bytes, place) else {
        return None;
    };
    let Some(entry) = ascii_entry(&entry, bytes, finder) else {
        return None;
    };
    let slot = place.saturating_sub(offset) / T::size_of();
    Some(KeptEntry { slot, place, entry })
}
