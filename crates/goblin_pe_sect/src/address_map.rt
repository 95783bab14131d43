//! The map from addresses (RVAs) to file offsets, by the windows of the sections.

ghost use Rattle.std.specs.Prelude.{◌≡◌, ◌^◌, ◌<◌, ℕ, IfErr, IfOk, ◌⊎◌, IfSome, Some, option_map};
ghost use Rattle.goblin_base.specs.{Answers.GivesOrMemory, Answers.IsMemory, Parts.bytes_in};
ghost use Rattle.goblin_base.specs.Parts.{in_memory, stored, stored_in};
ghost use Rattle.goblin_pe_sect.specs.{Mapping.file_offset, WindowIndex.located};
ghost use Rattle.goblin_pe_sect.specs.Addresses.{IsIndexed, KeepsWindowsAlone, reads_strictly};
ghost use Rattle.goblin_pe_sect.specs.Addresses.{map_by, map_of, offset_of, place_of};
ghost use Rattle.goblin_pe_sect.specs.Runs.{IsRun, place_in_run};

use crate::options::{Mapping, ParseMode, ParseOptions, View};
use crate::section_table::SectionTable;
use crate::windows::WindowIndex;
use goblin_base::{MappedBytes, MappedEnd, ResultOf};
use std::alloc::Global;

mod finder;
mod records;
pub(crate) mod run;
pub(crate) mod walk;

pub use finder::Finder;
pub use records::{MappedRecords, front_section};
pub use run::Place;
use run::{Run, part_at};
use walk::find_in_records;

// What an address map uses to find the window that holds an address.
#[derive(Drop)]
pub(crate) enum Windows<'s> {
    // The section headers, with the file's front if it is mapped, the view of their windows, and
    // the file alignment.
    Walked(MappedRecords<'s>, View, u32),
    // The index of the sections' windows in goblin's view.
    Indexed(WindowIndex),
}

/// How addresses are mapped to file offsets, and how the bytes there are read. A map has the
/// options, a way to find the windows of the sections, and maybe a limit for the length of names.
///
/// Windows are found in one of two ways:
///
/// - By an index, in goblin's view. The sections may then be dropped.
/// - By a walk over section headers in the file. [`of_records`](AddressMap::of_records) makes such a
///   map in the views of a loader, and in goblin's view if there are at most 96 of them, or no
///   window to find, because the options say that addresses are offsets or the file alignment is
///   not a power of two. [`walking`](AddressMap::walking) always makes such a map.
#[derive(Drop)]
pub struct AddressMap<'s> {
    pub(crate) opts: ParseOptions,
    pub(crate) windows: Windows<'s>,
    pub(crate) longest: Option<u32>,
}

// The index of the sections' windows. If there are no sections, it has no pieces.
#[tactic(auto, using(crate::proofs::AddressMaps::located_nowhere))]
pub(crate) fn index_of<'e>(
    alloc: Global,
    sections: &[SectionTable],
    file_alignment: u32,
    mapping: Mapping,
) -> ResultOf<'e, WindowIndex>
    ensures mapped { let offset_of = file_offset mapping sections.now file_alignment in
        IfOk result (λ w. (rva : ℕ) → located w rva ≡ offset_of rva) }
    ensures refused { IfErr result IsMemory }
{
    if sections.is_empty() {
        return Ok(WindowIndex::without_pieces(alloc, mapping.resolve_rva));
    }
    WindowIndex::prepare_by(alloc, sections, file_alignment, mapping)
}

impl<'s> AddressMap<'s> {
    /// Prepares a map with an index of the sections' windows.
    ///
    /// # Errors
    /// Only [`Error::Memory`](goblin_base::Error::Memory).
    #[inline(always)]
    #[tactic(auto, using(crate::proofs::AddressMaps::same_map))]
    pub fn prepare<'e>(
        alloc: Global,
        sections: &[SectionTable],
        file_alignment: u32,
        opts: &ParseOptions,
    ) -> ResultOf<'e, AddressMap<'s>>
        ensures made { GivesOrMemory map_of result
            (map_by opts.now sections.now file_alignment) }
        ensures indexed { IfOk result IsIndexed }
        ensures whole { KeepsWindowsAlone }
    {
        let mapping = View::Sections.mapping(opts);
        let index = index_of(alloc, sections, file_alignment, mapping)?;
        Ok(AddressMap {
            opts: *opts,
            windows: Windows::Indexed(index),
            longest: None,
        })
    }

    /// The length, in bytes, above which names are cut, or `None` if there is no limit.
    #[inline(always)]
    pub fn longest_name(&self) -> Option<u32>
        ensures { result ≡ (map_of self.now).addressing.longest }
    {
        self.longest
    }

    /// The options by which addresses are mapped and the bytes there are read.
    pub fn opts(&self) -> &ParseOptions
        ensures { result.now ≡ (map_of self.now).opts }
    {
        &self.opts
    }

    /// Whether the mode is strict: damaged parts are refused, and not passed over.
    pub fn reads_strictly(&self) -> bool
        ensures { result ≡ reads_strictly (map_of self.now) }
    {
        matches!(self.opts.parse_mode, ParseMode::Strict)
    }

    /// The file offset of the address `rva`, or `None` if it has none.
    pub fn offset_of(&self, rva: u32) -> Option<usize>
        ensures { result ≡ offset_of (map_of self.now) rva }
    {
        let place = self.place_of(rva)?;
        Some(place.offset)
    }

    /// The place of the address `rva` in the file, or `None` if it has none.
    pub fn place_of(&self, rva: u32) -> Option<Place>
        ensures { result ≡ place_of (map_of self.now) rva }
    {
        let mut run = Run::default();
        self.find_run(rva as usize, &mut run)
    }

    /// What a read at an address sees, and its file offset, as [`Finder::part_of`] returns them.
    #[tactic(auto, using(crate::proofs::Places::places))]
    pub fn part_of<'a>(&self, bytes: &'a [u8], rva: u32) -> (MappedBytes<'a>, Option<usize>)
        ensures part { let m = map_of self.now in
            bytes_in result.0 ≡ in_memory (m.addressing.end rva) bytes.now }
        ensures stored { let m = map_of self.now in
            stored_in result.0 ≡ in_memory (option_map stored (m.addressing.end rva)) bytes.now }
        ensures offset { result.1 ≡ offset_of (map_of self.now) rva }
    {
        part_at(bytes, self.place_of(rva))
    }

    // The place of an address. Sets `run` to a run of addresses around it, whose offsets then
    // need no walk. `run` may stay unchanged if no section owns the address, and always does with
    // an index. (`run` is an argument because a result of its size would cost more in loops that
    // seldom call this.)
    #[inline(never)]
    pub(crate) fn find_run(&self, rva: usize, run: &mut Run) -> Option<Place>
        requires is { IsRun (place_of (map_of self.now)) run.old }
        requires small { rva < 2 ^ 32 }
        ensures value { result ≡ place_of (map_of self.now) rva }
        ensures is { IsRun (place_of (map_of self.now)) run.new }
        ensures walked { IsIndexed self.now → run.new ≡ run.old }
        ensures about { IfSome result
            (λ p. IsIndexed self.now ⊎ (place_in_run run.new rva ≡ Some p)) }
    {
        match &self.windows {
            Windows::Walked(records, view, file_alignment) => {
                let mapping = view.mapping(&self.opts);
                find_in_records(*records, *file_alignment, mapping, rva, run)
            }
            Windows::Indexed(index) => {
                let offset = index.find(rva)?;
                let end = MappedEnd::NONE;
                Some(Place { offset, end })
            }
        }
    }
}
