//! Places of addresses in the file, and runs of consecutive addresses whose bytes are consecutive
//! in the file.

ghost use Rattle.std.specs.Prelude.{◌≡◌, ◌+◌, ◌^◌, ◌<◌, Option, option_map};
ghost use Rattle.goblin_base.specs.declared.mapped.MappedEnd.{MappedEnd};
ghost use Rattle.goblin_base.specs.Parts.{bytes_in, in_memory, stored, stored_in};
ghost use Rattle.goblin_pe_sect.specs.{Addresses.IsEndOf, Runs.past_null, Runs.place_in_run};

use goblin_base::{MappedBytes, MappedEnd};

/// Where the bytes at an address are in the file.
#[derive(Debug, PartialEq, Copy, Clone)]
pub struct Place {
    /// The file offset of the address.
    pub offset: usize,
    /// Where what is mapped there ends.
    pub end: MappedEnd,
}

/// The bytes that a read at a place sees, and its offset, if there is a place.
#[inline(always)]
#[tactic(auto, using(crate::proofs::Places::seen))]
pub fn part_at(bytes: &[u8], place: Option<Place>) -> (MappedBytes<'_>, Option<usize>)
    ensures part { (end : Option MappedEnd) → IsEndOf place end
        → bytes_in result.0 ≡ in_memory end bytes.now }
    ensures stored { (end : Option MappedEnd) → IsEndOf place end
        → stored_in result.0 ≡ in_memory (option_map stored end) bytes.now }
    ensures offset { result.1 ≡ option_map (λ p. p.offset) place }
{
    match place {
        Some(place) => (MappedBytes::of(bytes, place.end), Some(place.offset)),
        None => (MappedBytes::whole(bytes), None),
    }
}

/// Consecutive addresses whose bytes are consecutive in the file.
#[derive(Copy, Clone, Default)]
pub struct Run {
    /// The first address.
    pub first: usize,
    /// How many addresses there are.
    pub size: usize,
    /// The file offset of the first address.
    pub offset: usize,
    /// Where a read at any of the addresses ends.
    pub end: MappedEnd,
}

impl Run {
    /// The place of an address of the run, or `None` if the run does not have the address.
    #[inline(always)]
    pub fn place_of(&self, rva: usize) -> Option<Place>
        requires offsets { self.now.offset + self.now.size < 2 ^ 64 }
        requires addresses { self.now.first + self.now.size < 2 ^ 64 }
        ensures { result ≡ place_in_run self.now rva }
    {
        // The distance of an address before the first wraps to more than the size, so one
        // comparison tests both ends.
        let past = rva.wrapping_sub(self.first);
        if self.size <= past {
            return None;
        }
        Some(Place {
            offset: self.offset + past,
            end: self.end,
        })
    }

    /// The run without address 0.
    pub fn past_null(self) -> Run
        requires offsets { self.offset + self.size < 2 ^ 64 }
        ensures { result ≡ past_null self }
    {
        if 0 < self.first || self.size == 0 {
            return self;
        }
        Run {
            first: 1,
            size: self.size - 1,
            offset: self.offset + 1,
            end: self.end,
        }
    }
}
