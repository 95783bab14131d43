//! File offsets of addresses, for callers that ask for many.

ghost use Rattle.std.specs.Prelude.{◌≡◌, IfSome, Some, option_map};
ghost use Rattle.goblin_base.specs.Reading.{Reads};
ghost use Rattle.goblin_pe_sect.specs.AddressReadings.{name_or_none};
ghost use Rattle.goblin_base.specs.Parts.{bytes_in, in_memory, stored, stored_in};
ghost use Rattle.goblin_pe_sect.specs.Addresses.{map_of, offset_of, place_of, reads_strictly};

use super::run::{Place, Run, part_at};
use crate::address_map::AddressMap;
use crate::options::ParseOptions;
use crate::utils::name_within;
use goblin_base::{MappedBytes, ResultOf};
use std::marker::Model;

/// A finder of file offsets, over an address map. After a walk over the sections it keeps the
/// addresses around the one that was asked for, with their offsets, so these need no further walk.
/// It keeps nothing if the map has an index. The answers do not depend on what was asked before.
#[derive(Drop)]
pub struct Finder<'m> {
    address_map: &'m AddressMap<'m>,
    // The addresses around the last address, and those around the address of the last name.
    run: Run,
    names: Run,
    // The map's limit for names, which a loop then keeps in a register.
    longest: Option<u32>,
}

impl<'m> Model for Finder<'m> {
    ghost use Rattle.std.specs.Prelude.{◌≡◌};
    ghost use Rattle.goblin_pe_sect.specs.declared.address_map.AddressMap.{AddressMap};
    ghost use Rattle.goblin_pe_sect.specs.Addresses.{map_of, place_of};
    ghost use Rattle.goblin_pe_sect.specs.Runs.{IsRun};

    ghost Value = { AddressMap };

    ghost view = { λ f. f.address_map.now };

    ghost invariant = { λ f.
        IsRun (place_of (map_of f.address_map.now)) f.run
        × IsRun (place_of (map_of f.address_map.now)) f.names
        × (f.longest ≡ f.address_map.now.longest) };
}

impl<'m> Finder<'m> {
    /// A finder over this map, which keeps no addresses yet.
    pub fn of(address_map: &'m AddressMap) -> Finder<'m>
        ensures { result ≡ address_map.now }
    {
        Finder {
            address_map,
            run: Run::default(),
            names: Run::default(),
            longest: address_map.longest_name(),
        }
    }

    /// A copy of this finder, with the addresses that it keeps.
    pub fn again(&self) -> Finder<'m>
        ensures { result ≡ self.now }
    {
        Finder {
            address_map: self.address_map,
            run: self.run,
            names: self.names,
            longest: self.longest,
        }
    }

    /// The map of this finder.
    #[inline(always)]
    pub fn address_map(&self) -> &'m AddressMap<'m>
        ensures { result.now ≡ self.now }
    {
        self.address_map
    }

    /// The options by which addresses are mapped and the bytes there are read.
    #[inline(always)]
    pub fn opts(&self) -> &ParseOptions
        ensures { result.now ≡ (map_of self.now).opts }
    {
        self.address_map.opts()
    }

    /// Whether the mode is strict: damaged parts are refused, and not passed over.
    #[inline(always)]
    pub fn reads_strictly(&self) -> bool
        ensures { result ≡ reads_strictly (map_of self.now) }
    {
        self.address_map.reads_strictly()
    }

    /// The length, in bytes, above which names are cut, or `None` if there is no limit.
    #[inline(always)]
    pub fn longest_name(&self) -> Option<u32>
        ensures { result ≡ (map_of self.now).addressing.longest }
    {
        self.longest
    }

    // The place of an address in the file.
    #[inline(always)]
    fn place_of(&mut self, rva: u32) -> Option<Place>
        ensures value { result ≡ place_of (map_of self.old) rva }
        ensures same { self.new ≡ self.old }
    {
        if let Some(place) = self.run.place_of(rva as usize) {
            return Some(place);
        }
        if let Some(place) = self.names.place_of(rva as usize) {
            self.run = self.names;
            return Some(place);
        }
        let mut run = self.run;
        let place = self.address_map.find_run(rva as usize, &mut run);
        self.run = run;
        place
    }

    // The place of the address of a name. The finder keeps the addresses around names apart from
    // others, because names often lie in another section than the things that they name.
    #[inline(always)]
    fn place_of_name(&mut self, rva: u32) -> Option<Place>
        ensures value { result ≡ place_of (map_of self.old) rva }
        ensures same { self.new ≡ self.old }
    {
        if let Some(place) = self.names.place_of(rva as usize) {
            return Some(place);
        }
        if let Some(place) = self.run.place_of(rva as usize) {
            self.names = self.run;
            return Some(place);
        }
        let mut names = self.names;
        let place = self.address_map.find_run(rva as usize, &mut names);
        self.names = names;
        place
    }

    /// The file offset of the address `rva`, as [`AddressMap::offset_of`] returns it.
    #[inline(always)]
    pub fn offset_of(&mut self, rva: u32) -> Option<usize>
        ensures value { result ≡ offset_of (map_of self.old) rva }
        ensures same { self.new ≡ self.old }
    {
        let place = self.place_of(rva)?;
        Some(place.offset)
    }

    /// The file offset of the address of a name, as [`AddressMap::offset_of`] returns it.
    #[inline(always)]
    pub fn offset_of_name(&mut self, rva: u32) -> Option<usize>
        ensures value { result ≡ offset_of (map_of self.old) rva }
        ensures same { self.new ≡ self.old }
    {
        let place = self.place_of_name(rva)?;
        Some(place.offset)
    }

    /// What a read at an address sees, and the file offset of the address, if it has one. Offsets
    /// in it are file offsets. In a loader's view it ends with the section's window, and zeros
    /// follow, up to the end of the section's last page; in goblin's view it is all bytes of the
    /// file.
    #[inline(always)]
    #[tactic(auto, using(crate::proofs::Places::places))]
    pub fn part_of<'a>(&mut self, bytes: &'a [u8], rva: u32) -> (MappedBytes<'a>, Option<usize>)
        ensures part { let m = map_of self.old in
            bytes_in result.0 ≡ in_memory (m.addressing.end rva) bytes.now }
        ensures stored { let m = map_of self.old in
            stored_in result.0 ≡ in_memory (option_map stored (m.addressing.end rva)) bytes.now }
        ensures offset { result.1 ≡ offset_of (map_of self.old) rva }
        ensures same { self.new ≡ self.old }
    {
        part_at(bytes, self.place_of(rva))
    }

    /// The same, for the address of a name.
    #[inline(always)]
    #[tactic(auto, using(crate::proofs::Places::places))]
    pub fn part_of_name<'a>(
        &mut self,
        bytes: &'a [u8],
        rva: u32,
    ) -> (MappedBytes<'a>, Option<usize>)
        ensures part { let m = map_of self.old in
            bytes_in result.0 ≡ in_memory (m.addressing.end rva) bytes.now }
        ensures stored { let m = map_of self.old in
            stored_in result.0 ≡ in_memory (option_map stored (m.addressing.end rva)) bytes.now }
        ensures offset { result.1 ≡ offset_of (map_of self.old) rva }
        ensures same { self.new ≡ self.old }
    {
        part_at(bytes, self.place_of_name(rva))
    }

    /// The file offset of an address, if the finder keeps it. `None` says nothing about the
    /// address. The call makes no walk and no search.
    #[inline(always)]
    pub fn near_offset(&self, rva: u32) -> Option<usize>
        ensures { IfSome result (λ offset. offset_of (map_of self.now) rva ≡ Some offset) }
    {
        let place = self.run.place_of(rva as usize)?;
        Some(place.offset)
    }

    /// What a read at the address of a name sees, and its file offset, if it is among the addresses
    /// around names that the finder keeps. `None` says nothing about the address. The call makes no
    /// walk and no search.
    #[inline(always)]
    pub fn near_name_part<'a>(&self, bytes: &'a [u8], rva: u32) -> Option<(MappedBytes<'a>, usize)>
        ensures part { let m = map_of self.now in
            IfSome result
            (λ part. bytes_in part.0 ≡ in_memory (m.addressing.end rva) bytes.now) }
        ensures offset { IfSome result (λ part. offset_of (map_of self.now) rva ≡ Some part.1) }
    {
        let place = self.names.place_of(rva as usize)?;
        let (part, _) = part_at(bytes, Some(place));
        Some((part, place.offset))
    }

    /// The name at an address, cut if the map has a limit for names. In permissive mode it is
    /// `None` if there is no text.
    ///
    /// # Errors
    /// As [`safe_try_name`](crate::utils::safe_try_name).
    #[inline(always)]
    #[tactic(auto, unfolding(crate::specs::AddressReadings::name_at))]
    pub fn name<'a, 'e>(&mut self, bytes: &'a [u8], rva: u32) -> ResultOf<'e, Option<&'a str>>
        ensures value { let m = map_of self.old in
            Reads (option_map (λ s. s.now)) result
            (name_or_none (reads_strictly m) m.addressing rva) bytes.now }
        ensures same { self.new ≡ self.old }
    {
        let (part, offset) = self.part_of_name(bytes, rva);
        let longest = self.address_map.longest_name();
        name_within(part, rva as usize, offset, longest, self.address_map.opts())
    }
}
