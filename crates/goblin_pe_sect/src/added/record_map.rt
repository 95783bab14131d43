//! The map from addresses to file offsets by section headers as they lie in the file, for walks:
//! with the front of the file if it is mapped, and with a limit for the length of names.

ghost use Rattle.std.specs.Prelude.{◌≡◌, IfErr, IfOk, length};
ghost use Rattle.goblin_base.specs.Answers.{GivesOrMemory};
ghost use Rattle.goblin_pe_sect.specs.Addresses.{Walked, AreMany, WalksFew, map_in, map_of};
ghost use Rattle.goblin_pe_sect.specs.Addresses.{map_with, with_longest};
ghost use Rattle.goblin_base.specs.Parts.{bytes_in, in_memory};
ghost use Rattle.goblin_pe_sect.specs.Mapping.{file_end, file_offset};
ghost use Rattle.goblin_pe_sect.specs.WindowIndex.{HasPieces};
ghost use Rattle.goblin_pe_sect.specs.SectionTable.{mapped_of, mapped_sections, recorded_sections};

use crate::address_map::run::{Run, part_at};
use crate::address_map::walk::find_by_sections;
use crate::address_map::{AddressMap, MappedRecords, Windows, index_of};
use crate::options::{Mapping, ParseOptions, View};
use crate::section_table::SectionTable;
use goblin_base::{MappedBytes, ResultOf};
use std::alloc::Global;

/// The largest number of sections that are walked over for each address in goblin's view. For more
/// sections an index is made, which takes memory. The specification says that the Windows loader
/// limits the number of sections to 96; newer versions of Windows load more.
///
/// Source: PE Format, "COFF File Header (Object and Image)".
pub const MOST_WITHOUT_INDEX: usize = 96;

// The sections of the section headers, without their names from the string table, and after them
// the file's front, if it is mapped.
fn listed<'e>(alloc: Global, records: MappedRecords) -> ResultOf<'e, Vec<SectionTable>>
    ensures { GivesOrMemory (λ v. v.items) result (mapped_sections records.entry) }
{
    let count = records.len();
    let mut sections = Vec::with_capacity(alloc, count)?;
    'records: for i in 0..count {
        sections.push(records.at(i))?;
    }
    Ok(sections)
}

/// The file offset of the address `rva`, by these sections and, if it is mapped, the file's front
/// after them: that of the first section whose window holds it. The call takes no memory.
pub fn offset_by_records(
    records: MappedRecords,
    file_alignment: u32,
    mapping: Mapping,
    rva: u32,
) -> Option<usize>
    ensures { result
        ≡ file_offset mapping (mapped_sections records.entry) file_alignment rva }
{
    let mut run = Run::default();
    let place = find_by_sections(records, file_alignment, mapping, rva as usize, &mut run)?;
    Some(place.offset)
}

/// What a read at the address `rva` sees, and its file offset as [`offset_by_records`] returns it.
/// [`Finder::part_of`](crate::address_map::Finder::part_of) says what is seen.
#[tactic(auto, using(crate::proofs::Places::places_of_sections))]
pub fn part_by_records<'a>(
    bytes: &'a [u8],
    records: MappedRecords,
    file_alignment: u32,
    mapping: Mapping,
    rva: u32,
) -> (MappedBytes<'a>, Option<usize>)
    ensures part { let end = file_end mapping (mapped_sections records.entry) file_alignment rva in
        bytes_in result.0 ≡ in_memory end bytes.now }
    ensures offset { result.1
        ≡ file_offset mapping (mapped_sections records.entry) file_alignment rva }
{
    let mut run = Run::default();
    let place = find_by_sections(records, file_alignment, mapping, rva as usize, &mut run);
    part_at(bytes, place)
}

impl<'s> Windows<'s> {
    // For many sections in goblin's view: an index of their windows. Else the section headers
    // themselves, also if the options or the alignment leave no window to find.
    #[inline(never)]
    #[tactic(auto, using(crate::proofs::AddressMaps::same_map_alone))]
    fn of_many<'e>(
        alloc: Global,
        records: MappedRecords<'s>,
        view: View,
        file_alignment: u32,
        opts: &ParseOptions,
    ) -> ResultOf<'e, Windows<'s>>
        ensures made { GivesOrMemory (map_with opts.now) result
            (map_in opts.now (mapped_of view records.entry) file_alignment) }
        ensures few { IfOk result (WalksFew opts.now) }
        ensures pieces { IfErr result (λ e. HasPieces opts.now.resolve_rva file_alignment) }
    {
        let walked = Windows::Walked(records, view, file_alignment);
        if !opts.resolve_rva || !file_alignment.is_power_of_two() {
            return Ok(walked);
        }
        let (View::Sections, None) = (view, records.front) else {
            return Ok(walked);
        };
        let sections = listed(alloc, records)?;
        let mapping = View::Sections.mapping(opts);
        let index = index_of(alloc, &sections, file_alignment, mapping)?;
        Ok(Windows::Indexed(index))
    }
}

impl<'s> AddressMap<'s> {
    /// A map of these section headers and, if it is mapped, of the file's front after them, with
    /// windows as long as in `view`. With the front, address 0 has no offset, because address 0 in
    /// a table means that there is nothing. The map walks over the windows for each address, and
    /// takes no memory.
    #[inline(always)]
    pub fn walking(
        records: MappedRecords<'s>,
        view: View,
        file_alignment: u32,
        opts: &ParseOptions,
    ) -> AddressMap<'s>
        ensures made { map_of result
            ≡ map_in opts.now (mapped_of view records.entry) file_alignment }
        ensures walked { result.windows ≡ Walked records.entry view file_alignment }
    {
        AddressMap {
            opts: *opts,
            windows: Windows::Walked(records, view, file_alignment),
            longest: None,
        }
    }

    /// As [`walking`](AddressMap::walking). But in goblin's view, with more than 96 sections, the
    /// map lists them and makes an index, except if `opts` says that addresses are offsets or
    /// `file_alignment` is not a power of two.
    ///
    /// # Errors
    /// Only [`Error::Memory`](goblin_base::Error::Memory).
    #[inline(always)]
    pub fn of_records<'e>(
        alloc: Global,
        records: MappedRecords<'s>,
        view: View,
        file_alignment: u32,
        opts: &ParseOptions,
    ) -> ResultOf<'e, AddressMap<'s>>
        ensures made { GivesOrMemory map_of result
            (map_in opts.now (mapped_of view records.entry) file_alignment) }
        ensures few { IfOk result (λ m. WalksFew m.opts m.windows) }
        ensures walked { let count = length (recorded_sections records.entry.records) in
            IfOk result
            (λ m. ¬ AreMany count → m.windows ≡ Walked records.entry view file_alignment) }
        ensures grown { let count = length (recorded_sections records.entry.records) in
            IfErr result (λ e. AreMany count) }
        ensures pieces { IfErr result (λ e. HasPieces opts.now.resolve_rva file_alignment) }
    {
        if records.records.len() <= MOST_WITHOUT_INDEX {
            return Ok(AddressMap::walking(records, view, file_alignment, opts));
        }
        let windows = Windows::of_many(alloc, records, view, file_alignment, opts)?;
        Ok(AddressMap {
            opts: *opts,
            windows,
            longest: None,
        })
    }

    /// Sets the length, in bytes, above which names that are read by this map are cut.
    /// [`pread_str_within`](goblin_base::pread_str_within) says how a longer name is cut. `None` is
    /// no limit.
    #[inline(always)]
    pub fn set_longest_name(&mut self, longest: Option<u32>)
        ensures { map_of self.new ≡ with_longest longest (map_of self.old) }
    {
        self.longest = longest;
    }
}
