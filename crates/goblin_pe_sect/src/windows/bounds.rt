//! The pieces of the address space. A search sees where they begin only through a call that counts
//! itself.

ghost use Rattle.std.specs.Prelude.{◌≡◌, ◌+◌, ◌*◌, ◌^◌, ◌<◌, ◌≤◌, ◌↔◌, IsTrue, length, slice_index};
ghost use Rattle.goblin_pe_sect.specs.{WindowIndex.begins_of, WindowIndexFields.KeepsBoundsAlone};

use super::owners::Owner;
use std::marker::Model;

/// A piece of the address space. A search sees where it begins only through [`Bounds::reaches`].
#[derive(Copy, Clone)]
pub struct Piece {
    begin: usize,
    /// What is kept of the section to which the piece belongs, if it belongs to one.
    pub owner: Option<Owner>,
}

impl Piece {
    /// A piece that begins at this address, with what is kept of its section.
    #[inline(always)]
    pub fn new(begin: usize, owner: Option<Owner>) -> Piece
        ensures { result ≡ record { begin = begin; owner = owner } }
    {
        Piece { begin, owner }
    }
}

/// Where the pieces of the address space begin. A search sees a bound only through
/// [`Bounds::reaches`], which counts its calls.
#[derive(Drop)]
pub struct Bounds<'p> {
    pieces: &'p [Piece],
}

impl<'p> Model for Bounds<'p> {
    ghost use Rattle.std.specs.Prelude.{ℕ, List};
    ghost use Rattle.goblin_pe_sect.specs.WindowIndex.{begins_of};

    ghost Value = { List ℕ };

    ghost view = { λ b. begins_of b.pieces.now };
}

impl<'p> Bounds<'p> {
    /// The bounds of these pieces.
    #[inline(always)]
    pub fn new(pieces: &'p [Piece]) -> Bounds<'p>
        ensures { result ≡ begins_of pieces.now }
    {
        Bounds { pieces }
    }

    /// The number of pieces.
    pub fn len(&self) -> usize
        ensures count { result ≡ length self.now }
        ensures room { 2 * result < 2 ^ 64 }
        ensures whole { KeepsBoundsAlone }
    {
        self.pieces.len()
    }

    /// Whether piece `i` begins at or before the address `rva`. Adds one to `probes`.
    pub fn reaches(&self, i: usize, rva: usize, probes: &mut usize) -> bool
        requires piece { i < length self.now }
        requires room { probes.old < usize.MAX }
        ensures value { IsTrue result ↔ (slice_index self.now i ≤ rva) }
        ensures counted { probes.new ≡ probes.old + 1 }
    {
        *probes += 1;
        begins_by(self.pieces, i, rva)
    }
}

// Whether piece `i` begins at or before the address.
#[inline(always)]
fn begins_by(pieces: &[Piece], i: usize, rva: usize) -> bool
    requires { i < length pieces.now }
    ensures { IsTrue result ↔ (slice_index (begins_of pieces.now) i ≤ rva) }
{
    pieces[i].begin <= rva
}
