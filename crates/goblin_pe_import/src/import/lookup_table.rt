//! Import lookup tables: what is imported from a library, by name or by ordinal.

ghost use Rattle.std.specs.Prelude.{◌≡◌, ◌<◌, IfOk, None, Some, length, map, true, All};
ghost use Rattle.std.specs.List.Sorted.{IsStrictlyIncreasing};
ghost use Rattle.goblin_base.specs.{Parts.bytes_in, Reading.Reads, Reading.ReadsOrMemory};
ghost use Rattle.goblin_base.specs.Tables.{stop};
ghost use Rattle.goblin_pe_sect.specs.Options.{default_options, is_strict};
ghost use Rattle.goblin_pe_sect.specs.Addresses.{map_by, map_of, reads_strictly};
ghost use Rattle.goblin_pe_import.specs.ImportLookup.{entry_slots, lookup_slots};
ghost use Rattle.goblin_pe_import.specs.ImportLookup.{entry_model, hint_name_model, kept_model};
ghost use Rattle.goblin_pe_import.specs.LookupReadings as reading;

use crate::import::bitfield::Bitfield;
use crate::import::kept::next_kept;
use goblin_base::{Cause, Endian, Error, MappedBytes, Result, ResultOf, field_u16, no_text};
use goblin_pe_sect::address_map::{AddressMap, Finder};
use goblin_pe_sect::options::ParseOptions;
use goblin_pe_sect::section_table::SectionTable;
use goblin_pe_sect::table::Table;
use std::alloc::Global;

/// A hint, and after it the name under which a library exports what is imported.
///
/// Source: PE Format, "Hint/Name Table".
#[derive(Debug, Clone, Drop)]
pub struct HintNameTableEntry<'a> {
    /// The index in the library's name pointer table at which the loader looks for the name first,
    /// at 0 in the entry. If the name is not there, the loader searches for it.
    pub hint: u16,
    /// The name, at 2 in the entry, up to a NUL. It is empty if permissive mode found no text.
    pub name: &'a str,
}

impl<'a> HintNameTableEntry<'a> {
    /// Reads the hint and the name at the file offset `offset`, as
    /// [`HintNameTableEntry::parse_with_opts`] with the default options.
    ///
    /// # Errors
    /// As [`HintNameTableEntry::parse_with_opts`] in strict mode.
    pub fn parse(bytes: &'a [u8], offset: usize) -> Result<HintNameTableEntry<'a>>
        ensures { Reads hint_name_model result (reading.hint_name true None offset) bytes.now }
    {
        HintNameTableEntry::parse_with_opts(bytes, offset, &ParseOptions::default())
    }

    /// Reads the hint and the name at the file offset `offset`. The name begins 2 bytes later,
    /// after the hint. It ends before its first NUL or at the end of the file.
    ///
    /// # Errors
    /// [`Error::Malformed`] with [`Cause::HintEntry`] if the hint runs past the end of the file. In
    /// strict mode [`Error::Read`] if no text follows the hint; in permissive mode the name is then
    /// empty.
    pub fn parse_with_opts<'e>(
        bytes: &'a [u8],
        offset: usize,
        opts: &ParseOptions,
    ) -> ResultOf<'e, HintNameTableEntry<'a>>
        ensures { Reads hint_name_model result
            (reading.hint_name (is_strict opts.now.parse_mode) None offset) bytes.now }
    {
        HintNameTableEntry::parse_in(MappedBytes::whole(bytes), offset, None, opts)
    }

    // The hint at an offset of what a read at an address sees, and the name after it, up to a
    // limit.
    #[inline(always)]
    #[tactic(auto, unfolding(crate::specs::LookupReadings::hint_name), using(crate::proofs::HintNames::hints))]
    fn parse_in<'e>(
        part: MappedBytes<'a>,
        offset: usize,
        longest: Option<u32>,
        opts: &ParseOptions,
    ) -> ResultOf<'e, HintNameTableEntry<'a>>
        ensures { Reads hint_name_model result
            (reading.hint_name (is_strict opts.now.parse_mode) longest offset)
            (bytes_in part.entry) }
    {
        let Ok(hint) = part.array_at::<2>(offset) else {
            return Err(Error::Malformed(Cause::HintEntry(offset)));
        };
        let hint = field_u16(&hint, 0, Endian::Little);
        let name = match part.text_within(offset + 2, longest) {
            Ok(name) => name,
            Err(_) if opts.parse_mode.is_permissive() => no_text(part.stored()),
            Err(error) => return Err(error),
        };
        Ok(HintNameTableEntry { hint, name })
    }
}

/// An entry that a lookup table keeps.
///
/// Source: PE Format, "Import Lookup Table".
#[derive(Debug, Clone, Drop)]
pub enum SyntheticImportLookupTableEntry<'a> {
    /// An import by ordinal: the ordinal.
    OrdinalNumber(u16),
    /// An import by name: the address of the hint and the name, with the hint and the name.
    HintNameTableRVA((u32, HintNameTableEntry<'a>)),
}

impl<'a> SyntheticImportLookupTableEntry<'a> {
    // What a table keeps of an entry. It is `None` if the entry leads nowhere, or in permissive
    // mode to no hint.
    #[inline(always)]
    #[tactic(auto, unfolding(crate::specs::LookupReadings::kept_entry))]
    pub(crate) fn kept<'e, T: Bitfield<'a>>(
        entry: &T,
        bytes: &'a [u8],
        finder: &mut Finder<'_>,
    ) -> ResultOf<'e, Option<SyntheticImportLookupTableEntry<'a>>>
        ensures value { let m = map_of finder.old in
            Reads kept_model result
            (reading.kept_entry (reads_strictly m) m.addressing (T.value entry.now)) bytes.now }
        ensures same { finder.new ≡ finder.old }
    {
        if entry.is_ordinal() {
            let ordinal = entry.to_ordinal();
            return Ok(Some(SyntheticImportLookupTableEntry::OrdinalNumber(ordinal)));
        }
        let rva = entry.to_rva();
        let (part, offset) = finder.part_of_name(bytes, rva);
        let Some(offset) = offset else {
            return Ok(None);
        };
        let longest = finder.longest_name();
        match HintNameTableEntry::parse_in(part, offset, longest, finder.opts()) {
            Ok(named) => Ok(Some(SyntheticImportLookupTableEntry::HintNameTableRVA((rva, named)))),
            Err(error) if finder.reads_strictly() => Err(error),
            Err(_) => Ok(None),
        }
    }
}

/// What a lookup table keeps, in order. Some entries are left out, so an index here is not a slot.
///
/// Source: PE Format, "Import Lookup Table".
pub type ImportLookupTable<'a> = Table<SyntheticImportLookupTableEntry<'a>>;

impl<'a> SyntheticImportLookupTableEntry<'a> {
    /// Reads the lookup table at the file offset `offset`, as
    /// [`SyntheticImportLookupTableEntry::parse_with_opts`] with the default options.
    ///
    /// # Errors
    /// As [`SyntheticImportLookupTableEntry::parse_with_opts`] in strict mode.
    pub fn parse<'e, T: Bitfield<'a>>(
        alloc: Global,
        bytes: &'a [u8],
        offset: usize,
        sections: &[SectionTable],
        file_alignment: u32,
    ) -> ResultOf<'e, ImportLookupTable<'a>>
        ensures { let m = map_by default_options sections.now file_alignment in
            ReadsOrMemory (map entry_model) result
            (reading.lookup_table true T.format m.addressing offset) bytes.now }
    {
        let opts = ParseOptions::default();
        SyntheticImportLookupTableEntry::parse_with_opts::<T>(
            alloc,
            bytes,
            offset,
            sections,
            file_alignment,
            &opts,
        )
    }

    /// Reads the lookup table at the file offset `offset`: what is kept of the entries of type `T`
    /// before the first one whose number is 0.
    ///
    /// An entry by ordinal is kept. An entry by name is left out in both modes if its address has
    /// no file offset. In permissive mode it is also left out if its hint is not all in the file.
    ///
    /// # Errors
    /// In strict mode [`Error::Malformed`] with [`Cause::LookupEnd`] if the table reaches the end
    /// of the file; in permissive mode it ends there. Also in strict mode as
    /// [`HintNameTableEntry::parse_with_opts`] if an entry leads to no hint and name.
    /// [`Error::Memory`] if memory is refused.
    pub fn parse_with_opts<'e, T: Bitfield<'a>>(
        alloc: Global,
        bytes: &'a [u8],
        offset: usize,
        sections: &[SectionTable],
        file_alignment: u32,
        opts: &ParseOptions,
    ) -> ResultOf<'e, ImportLookupTable<'a>>
        ensures { let m = map_by opts.now sections.now file_alignment in
            ReadsOrMemory (map entry_model) result
            (reading.lookup_table (reads_strictly m) T.format m.addressing offset) bytes.now }
    {
        let (table, _) = SyntheticImportLookupTableEntry::parse_with_slots::<T>(
            alloc,
            bytes,
            offset,
            sections,
            file_alignment,
            opts,
        )?;
        Ok(table)
    }

    /// Reads the lookup table at the file offset `offset`, as
    /// [`SyntheticImportLookupTableEntry::parse_with_opts`] does, and returns with it the slot of
    /// each entry that it keeps, in order. The slot of an entry is the number of entries before it
    /// in the file. The import's entry in the address table has the same index. The slots rise, and
    /// lie below the slot where the table ends.
    ///
    /// # Errors
    /// As [`SyntheticImportLookupTableEntry::parse_with_opts`].
    #[tactic(auto, using(crate::proofs::LookupSlots::tables))]
    pub fn parse_with_slots<'e, T: Bitfield<'a>>(
        alloc: Global,
        bytes: &'a [u8],
        offset: usize,
        sections: &[SectionTable],
        file_alignment: u32,
        opts: &ParseOptions,
    ) -> ResultOf<'e, (ImportLookupTable<'a>, Vec<usize>)>
        ensures value { let m = map_by opts.now sections.now file_alignment in
            ReadsOrMemory (λ both. map entry_model both.0) result
            (reading.lookup_table (reads_strictly m) T.format m.addressing offset) bytes.now }
        ensures slots { let m = map_by opts.now sections.now file_alignment in
            IfOk result
            (λ both.
            both.1.items
            ≡ lookup_slots (reads_strictly m) T.format m.addressing bytes.now offset) }
        ensures counted { IfOk result (λ both. length both.0 ≡ length both.1.items) }
        ensures rising { IfOk result (λ both. IsStrictlyIncreasing both.1.items) }
        ensures below { IfOk result
            (λ both.
            All (λ slot. slot < stop (entry_slots T.format) bytes.now offset) both.1.items) }
    {
        let address_map = AddressMap::prepare(alloc, sections, file_alignment, opts)?;
        let read = Self::parse_by::<T>(alloc, bytes, offset, &address_map)?;
        Ok(read)
    }

    // The lookup table at an offset, and the indexes of the slots whose entries it keeps.
    pub(crate) fn parse_by<'e, T: Bitfield<'a>>(
        alloc: Global,
        bytes: &'a [u8],
        offset: usize,
        address_map: &AddressMap,
    ) -> ResultOf<'e, (ImportLookupTable<'a>, Vec<usize>)>
        ensures value { let m = map_of address_map.now in
            ReadsOrMemory (λ both. (map entry_model both.0, both.1.items)) result
            (reading.lookup_with_slots (reads_strictly m) T.format m.addressing offset) bytes.now }
        ensures counted { IfOk result (λ both. length both.0 ≡ length both.1.items) }
    {
        let size = T::size_of();
        let mut finder = Finder::of(address_map);
        let mut entries = Vec::new(alloc);
        let mut slots = Vec::new(alloc);
        let mut place = Some(offset);
        'entries: while let Some(next) = next_kept::<T>(bytes, offset, place, &mut finder) {
            let kept = next?;
            place = Some(kept.place + size);
            slots.push(kept.slot)?;
            entries.push(kept.entry)?;
        }
        Ok((Table::from(entries), slots))
    }
}
