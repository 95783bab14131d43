//! The section to which each piece of the address space belongs.
//!
//! The list of pieces is halved again and again. Each part of it gets the windows that may own some
//! of its pieces, and passes them on to its halves. So the number of steps grows like n log n.

ghost use Rattle.std.specs.Prelude.{◌≡◌, ◌+◌, ◌^◌, ◌<◌, ◌≤◌, ◌++◌, IfOk, OnOk, map, filter};
ghost use Rattle.std.specs.Prelude.{position};
ghost use Rattle.std.specs.List.Sorted.{IsStrictlyIncreasing};
ghost use Rattle.goblin_pe_sect.specs.WindowIndex.{begins_of, first_owner, owners_of};
ghost use Rattle.goblin_pe_sect.specs.WindowStretches.{window_covers, window_meets};
ghost use Rattle.goblin_pe_sect.specs.WindowStretches.{owner_among, piece_among, section_window_at};
ghost use Rattle.goblin_pe_sect.specs.WindowStretches.{FindTheSame, IsRising, section_windows};

use super::bounds::Piece;
use crate::options::Mapping;
use crate::section_table::SectionTable;
use crate::utils::{raw_begin, section_window};
use std::alloc::{AllocError, Global};

/// What an index keeps of the section to which a piece belongs.
#[derive(Copy, Clone)]
pub struct Owner {
    /// The section's index in the table.
    pub index: usize,
    /// The section's address.
    pub address: u32,
    /// The file offset at which the section's raw data begins when addresses are mapped.
    pub pointer: u32,
}

// At most this many windows are walked over for each piece. More are first divided among the halves
// of the list of pieces.
const FEW: usize = 16;

/// The window of a section, and what is kept of the section.
#[derive(Copy, Clone)]
pub struct Window {
    /// The first address of the window.
    pub begin: usize,
    /// The first address after it.
    pub end: usize,
    /// What is kept of the section.
    pub owner: Owner,
}

/// The window of the section at this index of the table.
pub(super) fn window_at(
    index: usize,
    section: &SectionTable,
    file_alignment: u32,
    mapping: Mapping,
) -> Window
    requires { 0 < file_alignment }
    ensures value { result ≡ section_window_at mapping file_alignment index section.now }
    ensures near { result.end ≤ result.begin + 2 ^ 33 }
{
    let (begin, end) = section_window(section, file_alignment, mapping.view);
    Window {
        begin,
        end,
        owner: Owner {
            index,
            address: section.virtual_address,
            pointer: raw_begin(section, mapping),
        },
    }
}

// The windows of all sections, in the table's order.
#[tactic(auto, using(crate::proofs::Stretches::next_window))]
fn windows_of(
    alloc: Global,
    sections: &[SectionTable],
    file_alignment: u32,
    mapping: Mapping,
) -> Result<Vec<Window>, AllocError>
    requires { 0 < file_alignment }
    ensures { IfOk result (λ v. v.items ≡ section_windows mapping file_alignment sections.now) }
{
    let mut windows = Vec::with_capacity(alloc, sections.len())?;
    'sections: for (index, section) in sections.iter().enumerate() {
        windows.push(window_at(index, section, file_alignment, mapping))?;
    }
    Ok(windows)
}

// The owner of the first window that holds the address.
fn owner_at(rva: usize, windows: &[Window]) -> Option<Owner>
    ensures { result ≡ owner_among windows.now rva }
{
    let window = windows
        .iter()
        .find(|window| window.begin <= rva && rva < window.end)?;
    Some(window.owner)
}

// The index of the first window that holds all addresses from `first` to `last`.
fn cover_place(first: usize, last: usize, windows: &[Window]) -> Option<usize>
    ensures { result ≡ position (window_covers first last) windows.now }
{
    windows
        .iter()
        .position(|window| window.begin <= first && last < window.end)
}

// The windows up to the first that holds all addresses from `first` to `last`. The windows after it
// own none of these addresses.
fn up_to_cover(first: usize, last: usize, windows: &[Window]) -> &[Window]
    ensures { FindTheSame first last result.now windows.now }
{
    match cover_place(first, last, windows) {
        Some(place) => windows.split_at(place + 1).0,
        None => windows,
    }
}

// The windows that may hold an address from `first` to `last`: they begin at or before `last`, and
// end after `first`.
fn meeting(
    alloc: Global,
    first: usize,
    last: usize,
    windows: &[Window],
) -> Result<Vec<Window>, AllocError>
    ensures { IfOk result (λ v. v.items ≡ filter (window_meets first last) windows.now) }
{
    let mut near = Vec::with_capacity(alloc, windows.len())?;
    'windows: for window in windows {
        if window.begin <= last && first < window.end {
            near.push(*window)?;
        }
    }
    Ok(near)
}

// The windows that may own an address from `first` to `last`.
fn nearby(
    alloc: Global,
    first: usize,
    last: usize,
    windows: &[Window],
) -> Result<Vec<Window>, AllocError>
    ensures { IfOk result (λ v. FindTheSame first last v.items windows.now) }
{
    let near = meeting(alloc, first, last, up_to_cover(first, last, windows))?;
    Ok(near)
}

// The piece that begins at the address. It belongs to the first window that holds the address, if
// one does.
fn piece_at(begin: usize, windows: &[Window]) -> Piece
    ensures { result ≡ piece_among windows.now begin }
{
    Piece::new(begin, owner_at(begin, windows))
}

// Adds the piece that begins at each address, with one walk over the windows for each piece.
fn push_each_piece(
    begins: &[usize],
    windows: &[Window],
    pieces: &mut Vec<Piece>,
) -> Result<(), AllocError>
    ensures { OnOk result
        (pieces.new.items ≡ pieces.old.items ++ map (piece_among windows.now) begins.now) }
{
    'pieces: for begin in begins {
        pieces.push(piece_at(*begin, windows))?;
    }
    Ok(())
}

// Adds the piece that begins at each address. Splits the list of pieces into halves, each with the
// windows that may own some of its pieces.
fn push_pieces(
    alloc: Global,
    begins: &[usize],
    windows: &[Window],
    pieces: &mut Vec<Piece>,
) -> Result<(), AllocError>
    requires { IsRising begins.now }
    ensures { OnOk result
        (pieces.new.items ≡ pieces.old.items ++ map (piece_among windows.now) begins.now) }
{
    if begins.is_empty() {
        return Ok(());
    }
    if windows.len() <= FEW {
        return push_each_piece(begins, windows, pieces);
    }
    let count = begins.len();
    let first = begins[0];
    if count == 1 {
        pieces.push(piece_at(first, windows))?;
        return Ok(());
    }
    let near = nearby(alloc, first, begins[count - 1], windows)?;
    let (front, back) = begins.split_at(count / 2);
    push_pieces(alloc, front, &near, pieces)?;
    push_pieces(alloc, back, &near, pieces)?;
    Ok(())
}

/// Replaces `pieces` with the piece that begins at each address. A piece belongs to the first
/// section whose window holds the start of the piece, if one does.
pub(super) fn put_pieces(
    alloc: Global,
    begins: &[usize],
    sections: &[SectionTable],
    file_alignment: u32,
    mapping: Mapping,
    pieces: &mut Vec<Piece>,
) -> Result<(), AllocError>
    requires aligned { 0 < file_alignment }
    requires rising { IsStrictlyIncreasing begins.now }
    ensures begins { OnOk result (begins_of pieces.new.items ≡ begins.now) }
    ensures owners { OnOk result
        (owners_of pieces.new.items
        ≡ map (first_owner mapping sections.now file_alignment) begins.now) }
{
    let windows = windows_of(alloc, sections, file_alignment, mapping)?;
    pieces.clear();
    push_pieces(alloc, begins, &windows, pieces)?;
    Ok(())
}
