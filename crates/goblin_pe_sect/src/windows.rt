//! An index of the windows of sections, which maps addresses to file offsets by binary search.
//!
//! A walk over the sections, as [`find_offset`](crate::utils::find_offset) makes it, takes as many
//! steps for each address as there are sections. An index cuts the address space once, at 0 and at
//! each start and end of a window that is not empty. Each piece keeps the first section whose
//! window covers it. An address is then found among n pieces with about log n comparisons.

ghost use Rattle.std.specs.Prelude.{◌≡◌, ℕ, ◌+◌, ◌*◌, ◌^◌, ◌<◌, ◌≤◌, IsTrue, IfOk, IfErr};
ghost use Rattle.std.specs.Prelude.{length, map, []};
ghost use Rattle.std.specs.{Int.is_power_of_two, List.Sorted.IsStrictlyIncreasing};
ghost use Rattle.goblin_base.specs.Answers.{IsMemory};
ghost use Rattle.goblin_pe_sect.specs.{Mapping.file_offset, Options.mapping_by};
ghost use Rattle.goblin_pe_sect.specs.declared.options.View.TheVariants.{Sections};
ghost use Rattle.goblin_pe_sect.specs.WindowIndexFields.{KeepsPiecesAlone};
ghost use Rattle.goblin_pe_sect.specs.WindowIndex.{IsCut, begins_of, first_owner, located};
ghost use Rattle.goblin_pe_sect.specs.WindowIndex.{reached, halvings, HasPieces};

mod bounds;
mod cuts;
mod division;
mod owners;

use crate::options::{Mapping, ParseOptions, View};
use crate::section_table::SectionTable;
pub use bounds::{Bounds, Piece};
use division::division_of;
use goblin_base::ResultOf;
pub use owners::Owner;
use std::alloc::Global;
use std::marker::Model;

// How many pieces begin at or before the address, and how many bounds the search compared with it.
#[inline(always)]
fn search(pieces: &[Piece], rva: usize) -> (usize, usize)
    requires { IsStrictlyIncreasing (begins_of pieces.now) }
    ensures value { result.0 ≡ reached (begins_of pieces.now) rva }
    ensures most { (d : ℕ) → length (begins_of pieces.now) < 2 ^ d → result.1 ≤ d }
    ensures few { result.1 ≤ 64 }
    ensures fewest { (d : ℕ) → 2 ^ d ≤ length (begins_of pieces.now) + 1 → d ≤ result.1 }
    ensures counted { result.1
        ≡ halvings (length (begins_of pieces.now)) (reached (begins_of pieces.now) rva) }
{
    let bounds = Bounds::new(pieces);
    let mut probes = 0;
    let mut low = 0;
    let mut high = bounds.len();
    'halving: while low < high {
        let middle = (low + high) / 2;
        if bounds.reaches(middle, rva, &mut probes) {
            low = middle + 1;
        } else {
            high = middle;
        }
    }
    (low, probes)
}

/// The address space, cut into pieces at the windows of sections. Each piece keeps the index, the
/// address and the raw pointer of the first section whose window covers it, if one does. Nothing
/// else of the sections is kept, so they may be dropped. The raw pointer is as stored or rounded
/// down to a multiple of 512, by the options with which the index was prepared.
#[derive(Drop)]
pub struct WindowIndex {
    pieces: Vec<Piece>,
    resolves: bool,
}

impl Model for WindowIndex {
    ghost use Rattle.goblin_pe_sect.specs.WindowIndex.{Pieces, IsIndex, begins_of, owners_of};

    ghost Value = { Pieces };

    ghost view = { λ w. record {
      resolves = w.resolves;
      begins = begins_of w.pieces.items;
      owners = owners_of w.pieces.items;
    } };

    ghost invariant = { λ w.
        IsIndex w.resolves (begins_of w.pieces.items) (owners_of w.pieces.items) };
}

impl WindowIndex {
    /// An index without pieces, which takes no memory. It maps no address; or, if `resolves` is
    /// false, each address is its own file offset.
    pub fn without_pieces(alloc: Global, resolves: bool) -> WindowIndex
        ensures { result ≡ record { resolves = resolves; begins = []; owners = [] } }
    {
        WindowIndex {
            resolves,
            pieces: Vec::new(alloc),
        }
    }

    /// An index of the sections' windows. It maps every address as
    /// [`find_offset`](crate::utils::find_offset) does with the same arguments.
    ///
    /// The index has at most two pieces for each section, and one more. If `opts` says that
    /// addresses are offsets, or `file_alignment` is not a power of two, it has no pieces.
    ///
    /// # Errors
    /// Only [`Error::Memory`](goblin_base::Error::Memory).
    pub fn prepare<'e>(
        alloc: Global,
        sections: &[SectionTable],
        file_alignment: u32,
        opts: &ParseOptions,
    ) -> ResultOf<'e, WindowIndex>
        ensures mapped { let mapping = mapping_by opts.now in
            IfOk result
            (λ w. (rva : ℕ) → located w rva ≡ file_offset mapping sections.now file_alignment rva) }
        ensures refused { IfErr result IsMemory }
        ensures few { IfOk result (λ w. length w.begins ≤ 2 * length sections.now + 1) }
        ensures no_pieces { IfOk result
            (λ w. ¬ HasPieces opts.now.resolve_rva file_alignment → w.begins ≡ []) }
        ensures cut { IfOk result
            (λ w.
            IsTrue opts.now.resolve_rva → IsTrue (is_power_of_two file_alignment)
            → IsCut Sections sections.now file_alignment w.begins) }
        ensures owned { let mapping = mapping_by opts.now in
            IfOk result
            (λ w. w.owners ≡ map (first_owner mapping sections.now file_alignment) w.begins) }
    {
        let mapping = View::Sections.mapping(opts);
        WindowIndex::prepare_by(alloc, sections, file_alignment, mapping)
    }

    // The same, with addresses mapped by `mapping`.
    pub(crate) fn prepare_by<'e>(
        alloc: Global,
        sections: &[SectionTable],
        file_alignment: u32,
        mapping: Mapping,
    ) -> ResultOf<'e, WindowIndex>
        ensures mapped { IfOk result
            (λ w.
            (rva : ℕ) → located w rva ≡ file_offset mapping sections.now file_alignment rva) }
        ensures refused { IfErr result IsMemory }
        ensures few { IfOk result (λ w. length w.begins ≤ 2 * length sections.now + 1) }
        ensures no_pieces { IfOk result
            (λ w. ¬ HasPieces mapping.resolve_rva file_alignment → w.begins ≡ []) }
        ensures cut { IfOk result
            (λ w.
            IsTrue mapping.resolve_rva → IsTrue (is_power_of_two file_alignment)
            → IsCut mapping.view sections.now file_alignment w.begins) }
        ensures owned { IfOk result
            (λ w. w.owners ≡ map (first_owner mapping sections.now file_alignment) w.begins) }
    {
        if !mapping.resolve_rva {
            return Ok(WindowIndex::without_pieces(alloc, false));
        }
        if !file_alignment.is_power_of_two() {
            return Ok(WindowIndex::without_pieces(alloc, true));
        }
        let pieces = division_of(alloc, sections, file_alignment, mapping)?;
        Ok(WindowIndex {
            resolves: true,
            pieces,
        })
    }

    // The pieces of the index, in rising order.
    #[inline(always)]
    fn in_order(&self) -> &[Piece]
        ensures value { begins_of result.now ≡ self.now.begins }
        ensures rising { IsStrictlyIncreasing (begins_of result.now) }
    {
        &self.pieces
    }

    /// The number of pieces.
    pub fn pieces(&self) -> usize
        ensures count { result ≡ length self.now.begins }
        ensures whole { KeepsPiecesAlone }
    {
        self.pieces.len()
    }

    // The file offset of an address, if `count` pieces begin at or before it. There must be at
    // least one.
    fn offset_in_piece(&self, count: usize, rva: usize) -> Option<usize>
        requires counted { count ≡ reached self.now.begins rva }
        requires some { 0 < count }
        ensures { result ≡ located self.now rva }
    {
        let owner = self.pieces[count - 1].owner?;
        Some(owner.pointer as usize + (rva - owner.address as usize))
    }

    // The file offset of an address, if `count` pieces begin at or before it.
    fn offset_by_count(&self, count: usize, rva: usize) -> Option<usize>
        requires { count ≡ reached self.now.begins rva }
        ensures { result ≡ located self.now rva }
    {
        if count == 0 {
            return if self.resolves { None } else { Some(rva) };
        }
        self.offset_in_piece(count, rva)
    }

    /// The answer of [`WindowIndex::find`], and the number of probes that the search made. A probe
    /// is a call of [`Bounds::reaches`], through which alone a search sees where a piece begins.
    ///
    /// The number of probes is that of a binary search for this address. It is at most d if there
    /// are fewer than 2 to the power d pieces.
    pub fn find_counted(&self, rva: usize) -> (Option<usize>, usize)
        ensures value { result.0 ≡ located self.now rva }
        ensures most { (d : ℕ) → length self.now.begins < 2 ^ d → result.1 ≤ d }
        ensures fewest { (d : ℕ) → 2 ^ d ≤ length self.now.begins + 1 → d ≤ result.1 }
        ensures counted { result.1
            ≡ halvings (length self.now.begins) (reached self.now.begins rva) }
    {
        let (count, probes) = search(self.in_order(), rva);
        (self.offset_by_count(count, rva), probes)
    }

    /// The file offset of the address `rva`, as [`find_offset`](crate::utils::find_offset) returns
    /// it for the arguments with which the index was prepared.
    #[inline(never)]
    pub fn find(&self, rva: usize) -> Option<usize>
        ensures { result ≡ located self.now rva }
    {
        self.find_counted(rva).0
    }
}
