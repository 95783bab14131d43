//! The pieces of the address space, with the section to which each belongs.
//!
//! If the windows are apart and in rising order, as in a lawful image, one walk over the sections
//! gives the pieces in order. Otherwise the cuts are sorted first, and then each piece gets its
//! owner.

ghost use Rattle.std.specs.Prelude.{◌≡◌, ◌<◌, ◌≤◌, ◌∷◌, [], ◌++◌, IsTrue, IfOk, None, OnOk, Some};
ghost use Rattle.goblin_pe_sect.specs.WindowDivision.{IsDivision};
ghost use Rattle.goblin_pe_sect.specs.WindowIndex.{begins_of, owners_of};

use super::bounds::Piece;
use super::cuts::cuts_of;
use super::owners::{Owner, Window, put_pieces, window_at};
use crate::options::Mapping;
use crate::section_table::SectionTable;
use goblin_base::room::make_room;
use std::alloc::{AllocError, Global};

// Adds a piece.
fn push_piece(pieces: &mut Vec<Piece>, begin: usize, owner: Option<Owner>) -> Result<(), AllocError>
    ensures begins { OnOk result
        (begins_of pieces.new.items ≡ begins_of pieces.old.items ++ begin ∷ []) }
    ensures owners { OnOk result
        (owners_of pieces.new.items ≡ owners_of pieces.old.items ++ owner ∷ []) }
{
    make_room(pieces, 0)?;
    pieces.push_reserved(Piece::new(begin, owner));
    Ok(())
}

// Adds the piece of a window. If the window begins after `end`, the end of the window before, also
// adds the piece between the two windows, which has no owner.
fn push_window(pieces: &mut Vec<Piece>, end: usize, window: Window) -> Result<(), AllocError>
    ensures apart_begins { OnOk result (end < window.begin → begins_of pieces.new.items
        ≡ (begins_of pieces.old.items ++ end ∷ []) ++ window.begin ∷ []) }
    ensures apart_owners { OnOk result (end < window.begin → owners_of pieces.new.items
        ≡ (owners_of pieces.old.items ++ None ∷ []) ++ Some window.owner ∷ []) }
    ensures begins { OnOk result (window.begin ≤ end → begins_of pieces.new.items
        ≡ begins_of pieces.old.items ++ window.begin ∷ []) }
    ensures owners { OnOk result (window.begin ≤ end → owners_of pieces.new.items
        ≡ owners_of pieces.old.items ++ Some window.owner ∷ []) }
{
    if end < window.begin {
        push_piece(pieces, end, None)?;
    }
    push_piece(pieces, window.begin, Some(window.owner))
}

// Adds the pieces of the sections' windows in one walk over the sections. Returns false, and leaves
// the pieces incomplete, if a window that is not empty begins before the end of one before it.
#[inline(always)]
fn push_in_order(
    pieces: &mut Vec<Piece>,
    sections: &[SectionTable],
    file_alignment: u32,
    mapping: Mapping,
) -> Result<bool, AllocError>
    requires aligned { 0 < file_alignment }
    requires empty { pieces.old.items ≡ [] }
    ensures { IfOk result (λ got_through. IsTrue got_through
        → IsDivision mapping sections.now file_alignment pieces.new.items) }
{
    let mut end = 0;
    'sections: for (index, section) in sections.iter().enumerate() {
        let window = window_at(index, section, file_alignment, mapping);
        if window.begin < window.end {
            if window.begin < end {
                return Ok(false);
            }
            push_window(pieces, end, window)?;
            end = window.end;
        }
    }
    push_piece(pieces, end, None)?;
    Ok(true)
}

// The pieces of windows in any order, which may overlap. They replace the pieces that are given,
// whose memory they use.
#[inline(never)]
fn division_of_any(
    alloc: Global,
    mut pieces: Vec<Piece>,
    sections: &[SectionTable],
    file_alignment: u32,
    mapping: Mapping,
) -> Result<Vec<Piece>, AllocError>
    requires { 0 < file_alignment }
    ensures { IfOk result (λ v. IsDivision mapping sections.now file_alignment v.items) }
{
    let begins = cuts_of(alloc, sections, file_alignment, mapping.view)?;
    put_pieces(
        alloc,
        &begins,
        sections,
        file_alignment,
        mapping,
        &mut pieces,
    )?;
    Ok(pieces)
}

/// The pieces of the sections' windows, in rising order.
#[inline(always)]
pub(super) fn division_of(
    alloc: Global,
    sections: &[SectionTable],
    file_alignment: u32,
    mapping: Mapping,
) -> Result<Vec<Piece>, AllocError>
    requires { 0 < file_alignment }
    ensures { IfOk result (λ v. IsDivision mapping sections.now file_alignment v.items) }
{
    let mut pieces = Vec::with_capacity(alloc, 2 * sections.len() + 1)?;
    if push_in_order(&mut pieces, sections, file_alignment, mapping)? {
        return Ok(pieces);
    }
    division_of_any(alloc, pieces, sections, file_alignment, mapping)
}
