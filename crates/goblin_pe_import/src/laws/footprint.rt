//! The positions of a file on which a read of imports depends. What is added to a list of ranges
//! are the ranges of the reading, in its order.

ghost use Rattle.std.specs.Prelude.{◌≡◌, ◌+◌, ◌++◌, if◌then◌else◌, is_some, None, IfErr, IfOk, OnOk};
ghost use Rattle.goblin_base.specs.{Answers.IsMemory, Bytes.slice_at};
ghost use Rattle.goblin_base.specs.Footprints.{led_to, positions};
ghost use Rattle.goblin_pe_sect.specs.AddressReadings.{name_at};
ghost use Rattle.goblin_pe_sect.specs.Addresses.{map_by, map_of, offset_of, reads_strictly};
ghost use Rattle.goblin_pe_sect.specs.Addresses.{with_longest};
ghost use Rattle.goblin_pe_import.specs.ImportReadings.{import_data, libraries_at, library_of};
ghost use Rattle.goblin_pe_import.specs.ImportReadings.{lookup_if};
ghost use Rattle.goblin_pe_import.specs.LookupReadings.{address_table, kept_entry, kept_name};

use crate::import::{
    Bitfield, ImportDirectoryEntry, SIZEOF_IMPORT_DIRECTORY_ENTRY, address_table_rva,
    first_record_offset, lookup_offset, next_entry, next_record,
};
use goblin_base::{ResultOf, pread_slice, text_end};
use goblin_pe_sect::address_map::{AddressMap, Finder};
use goblin_pe_sect::data_directories::DataDirectory;
use goblin_pe_sect::options::ParseOptions;
use goblin_pe_sect::section_table::SectionTable;
use std::alloc::Global;

// Adds the positions from `begin` up to, but not including, `end`, if there are any.
#[tactic(auto, unfolding(goblin_base::specs::Footprints::positions), using(goblin_base::proofs::SlotFootprints::adding))]
fn add<'e>(ranges: &mut Vec<(usize, usize)>, begin: usize, end: usize) -> ResultOf<'e, ()>
    ensures added { OnOk result (ranges.new.items ≡ ranges.old.items ++ positions begin end) }
    ensures refused { IfErr result IsMemory }
{
    if begin < end {
        ranges.push((begin, end))?;
    }
    Ok(())
}

// Adds the text at the address of a name, if there is one.
#[tactic(auto, unfolding(goblin_pe_sect::specs::AddressReadings::name_at), using(goblin_base::proofs::SlotFootprints::adding))]
fn add_text<'e>(
    ranges: &mut Vec<(usize, usize)>,
    bytes: &[u8],
    rva: u32,
    address_map: &AddressMap,
) -> ResultOf<'e, ()>
    ensures added { let m = with_longest None (map_of address_map.now) in
        let reached = (name_at m.addressing rva).reaches bytes.now in
        OnOk result (ranges.new.items ≡ ranges.old.items ++ reached) }
    ensures refused { IfErr result IsMemory }
{
    let (part, offset) = address_map.part_of(bytes, rva);
    match offset {
        Some(offset) => add(ranges, offset, text_end(part.stored(), offset)),
        None => Ok(()),
    }
}

// Adds the hint at an address, and the text after it, if there is a hint.
#[tactic(auto, using(goblin_base::proofs::SlotFootprints::adding, crate::proofs::HintNames::hints))]
fn add_hint<'e>(
    ranges: &mut Vec<(usize, usize)>,
    bytes: &[u8],
    rva: u32,
    address_map: &AddressMap,
) -> ResultOf<'e, ()>
    ensures added { let m = map_of address_map.now in
        let named =
        kept_name (reads_strictly m) None rva (m.addressing.end rva) (offset_of m rva) in
        OnOk result (ranges.new.items ≡ ranges.old.items ++ named.reaches bytes.now) }
    ensures refused { IfErr result IsMemory }
{
    let (part, offset) = address_map.part_of(bytes, rva);
    let Some(offset) = offset else {
        return Ok(());
    };
    let Ok(hint) = part.array_at::<2>(offset) else {
        return Ok(());
    };
    let end = offset + hint.len();
    let stored = part.stored();
    add(ranges, offset, end.min(stored.len()))?;
    add(ranges, end, text_end(stored, end))
}

// Adds what an entry of a lookup table leads to.
#[tactic(auto, unfolding(crate::specs::LookupReadings::kept_entry), using(goblin_base::proofs::SlotFootprints::adding))]
fn add_entry<'a, 'e, T: Bitfield<'a>>(
    ranges: &mut Vec<(usize, usize)>,
    entry: &T,
    bytes: &'a [u8],
    address_map: &AddressMap,
) -> ResultOf<'e, ()>
    ensures added { let m = with_longest None (map_of address_map.now) in
        let reached =
        (kept_entry (reads_strictly m) m.addressing (T.value entry.now)).reaches bytes.now in
        OnOk result (ranges.new.items ≡ ranges.old.items ++ reached) }
    ensures refused { IfErr result IsMemory }
{
    if entry.is_ordinal() {
        return Ok(());
    }
    add_hint(ranges, bytes, entry.to_rva(), address_map)
}

// Adds the slots of `width` bytes from an offset up to `last`, and the one at `last` if the file
// has all of it.
fn add_slots<'e>(
    ranges: &mut Vec<(usize, usize)>,
    bytes: &[u8],
    offset: usize,
    last: usize,
    width: usize,
) -> ResultOf<'e, ()>
    ensures added { let is_whole = is_some (slice_at bytes.now last width) in
        let reached = positions offset (if is_whole then last + width else last) in
        OnOk result (ranges.new.items ≡ ranges.old.items ++ reached) }
    ensures refused { IfErr result IsMemory }
{
    match pread_slice(bytes, last, width) {
        Ok(slot) => add(ranges, offset, last + slot.len()),
        Err(_) => add(ranges, offset, last),
    }
}

// Adds the lookup table at a place, if there is one, and what its entries lead to.
#[tactic(auto, unfolding(crate::specs::ImportReadings::lookup_if), using(goblin_base::proofs::SlotFootprints::adding))]
fn add_lookup_table<'a, 'e, T: Bitfield<'a>>(
    ranges: &mut Vec<(usize, usize)>,
    bytes: &'a [u8],
    table: Option<usize>,
    address_map: &AddressMap,
) -> ResultOf<'e, ()>
    ensures added { let m = with_longest None (map_of address_map.now) in
        let reached =
        (lookup_if (reads_strictly m) T.format m.addressing table).reaches bytes.now in
        OnOk result (ranges.new.items ≡ ranges.old.items ++ reached) }
    ensures refused { IfErr result IsMemory }
{
    let Some(offset) = table else {
        return Ok(());
    };
    let size = T::size_of();
    let mut place = offset;
    'slots: while let Some(entry) = next_entry::<T>(bytes, place) {
        add_entry(ranges, &entry, bytes, address_map)?;
        place += size;
    }
    add_slots(ranges, bytes, offset, place, size)
}

// Adds the address table at a place, if there is one.
#[tactic(auto, using(goblin_base::proofs::SlotFootprints::adding))]
fn add_address_table<'a, 'e, T: Bitfield<'a>>(
    ranges: &mut Vec<(usize, usize)>,
    bytes: &'a [u8],
    table: Option<usize>,
) -> ResultOf<'e, ()>
    ensures added { let reached =
        led_to table (λ o. (address_table T.format o).reaches bytes.now) in
        OnOk result (ranges.new.items ≡ ranges.old.items ++ reached) }
    ensures refused { IfErr result IsMemory }
{
    let Some(offset) = table else {
        return Ok(());
    };
    let size = T::size_of();
    let mut place = offset;
    'slots: while let Some(_) = next_entry::<T>(bytes, place) {
        place += size;
    }
    add_slots(ranges, bytes, offset, place, size)
}

// Adds what an import descriptor leads to.
fn add_library<'a, 'e, T: Bitfield<'a>>(
    ranges: &mut Vec<(usize, usize)>,
    bytes: &'a [u8],
    entry: &ImportDirectoryEntry,
    address_map: &AddressMap,
) -> ResultOf<'e, ()>
    ensures added { let m = with_longest None (map_of address_map.now) in
        let reached =
        (library_of (reads_strictly m) T.format m.addressing entry.now).reaches bytes.now in
        OnOk result (ranges.new.items ≡ ranges.old.items ++ reached) }
    ensures refused { IfErr result IsMemory }
{
    add_text(ranges, bytes, entry.name_rva, address_map)?;
    let lookup = lookup_offset(entry, &mut Finder::of(address_map));
    add_lookup_table::<T>(ranges, bytes, lookup, address_map)?;
    let addresses = address_map.offset_of(address_table_rva(entry));
    add_address_table::<T>(ranges, bytes, addresses)
}

// Adds the import directory at an offset, and what its descriptors lead to.
fn add_libraries<'a, 'e, T: Bitfield<'a>>(
    ranges: &mut Vec<(usize, usize)>,
    bytes: &'a [u8],
    offset: usize,
    address_map: &AddressMap,
) -> ResultOf<'e, ()>
    ensures added { let m = with_longest None (map_of address_map.now) in
        let reached =
        (libraries_at (reads_strictly m) T.format m.addressing offset).reaches bytes.now in
        OnOk result (ranges.new.items ≡ ranges.old.items ++ reached) }
    ensures refused { IfErr result IsMemory }
{
    let size = SIZEOF_IMPORT_DIRECTORY_ENTRY;
    let mut place = offset;
    'records: while let Some(record) = next_record(bytes, place) {
        add_library::<T>(ranges, bytes, &record, address_map)?;
        place += size;
    }
    add_slots(ranges, bytes, offset, place, size)
}

/// The footprint of the imports of a file: exactly the positions on which the import data of a
/// directory depends, as ranges (begin, end). [`twin_imports`](crate::laws::twin_imports) says
/// which parts of the file it has.
///
/// No range is empty or runs past the end of the file. They come in the order in which the import
/// data is read, and may overlap. There are at most two for each entry that imports by name, three
/// for each library, and one for the directory. A table that several libraries share is listed for
/// each of them. A range takes 16 bytes, and up to 48 while the list grows.
///
/// # Errors
/// [`Error::Memory`](goblin_base::Error::Memory) only.
#[tactic(auto, unfolding(crate::specs::ImportReadings::import_data))]
pub fn footprint_imports<'a, 'e, T: Bitfield<'a>>(
    alloc: Global,
    bytes: &'a [u8],
    directory: DataDirectory,
    sections: &[SectionTable],
    file_alignment: u32,
    opts: &ParseOptions,
) -> ResultOf<'e, Vec<(usize, usize)>>
    ensures ranges { let m = map_by opts.now sections.now file_alignment in
        let rva = directory.virtual_address in
        let reached =
        (import_data (reads_strictly m) T.format m.addressing rva).reaches bytes.now in
        IfOk result (λ v. v.items ≡ reached) }
    ensures refused { IfErr result IsMemory }
{
    let m = AddressMap::prepare(alloc, sections, file_alignment, opts)?;
    let mut ranges = Vec::new(alloc);
    let place = m.offset_of(directory.virtual_address);
    if let Some(offset) = first_record_offset(place, m.reads_strictly()) {
        add_libraries::<T>(&mut ranges, bytes, offset, &m)?;
    }
    Ok(ranges)
}
