//! What a walk over imports passes over.

ghost use Rattle.std.specs.{Prelude.◌≡◌, Prelude.◌&&◌, Prelude.not, Prelude.is_some};
ghost use Rattle.std.specs.Int.{from_bool};
ghost use Rattle.goblin_base.specs.Bytes.{slice_at};
ghost use Rattle.goblin_pe_sect.specs.Addresses.{map_of};
ghost use Rattle.goblin_pe_import.specs.Passed.{is_unmapped, nothing_passed, risen};

use crate::import::bitfield::Bitfield;
use crate::import::slots::may_end;
use goblin_pe_sect::address_map::Finder;

/// How much a walk has passed over: import descriptors and entries of lookup tables that it looked
/// at without giving anything. Each counts in one of the two numbers.
///
/// Source: PE Format, "Import Directory Table" and "Import Lookup Table".
#[derive(Debug, Copy, Clone, PartialEq, Eq)]
pub struct Passed {
    /// How many permissive mode left out where strict mode has an error: libraries whose address
    /// table can't be read, entries whose hint can't be read, and ends of tables that the file cuts
    /// short. A directory that is skipped as a whole is one. [`usize::MAX`] if there are more.
    pub skipped: usize,
    /// How many entries lead nowhere, because the address of their hint and name has no file
    /// offset. Both modes pass over them. [`usize::MAX`] if there are more.
    pub unmapped: usize,
}

impl Passed {
    // Before anything is passed over.
    #[inline(always)]
    pub(crate) fn nothing() -> Passed
        ensures { result ≡ nothing_passed }
    {
        Passed {
            skipped: 0,
            unmapped: 0,
        }
    }

    // One entry more that nothing is kept of.
    pub(crate) fn add_entry<'a, T: Bitfield<'a>>(&mut self, entry: &T, finder: &mut Finder<'_>)
        ensures skipped { let m = map_of finder.old in
            self.new.skipped
            ≡ risen self.old.skipped
            (from_bool (not (is_unmapped m.addressing (T.value entry.now)))) }
        ensures unmapped { let m = map_of finder.old in
            self.new.unmapped
            ≡ risen self.old.unmapped (from_bool (is_unmapped m.addressing (T.value entry.now))) }
        ensures same { finder.new ≡ finder.old }
    {
        let is_unmapped = !entry.is_ordinal() && finder.offset_of(entry.to_rva()).is_none();
        self.skipped = self.skipped.saturating_add(usize::from(!is_unmapped));
        self.unmapped = self.unmapped.saturating_add(usize::from(is_unmapped));
    }

    // The end of a table, in the slot of `width` bytes at `offset`. It counts if that is not all in
    // the file.
    pub(crate) fn add_end(&mut self, bytes: &[u8], offset: usize, width: usize)
        ensures skipped { self.new.skipped
            ≡ risen self.old.skipped
            (from_bool (not (is_some (slice_at bytes.now offset width)))) }
        ensures unmapped { self.new.unmapped ≡ self.old.unmapped }
    {
        let is_there = may_end(bytes, offset, width, true);
        self.skipped = self.skipped.saturating_add(usize::from(!is_there));
    }

    // One library more.
    pub(crate) fn add_library(&mut self)
        ensures skipped { self.new.skipped ≡ risen self.old.skipped 1 }
        ensures unmapped { self.new.unmapped ≡ self.old.unmapped }
    {
        self.skipped = self.skipped.saturating_add(1);
    }

    // A row of a library, which counts if permissive mode leaves the library out.
    pub(crate) fn add_row(&mut self, strictly: bool, is_left_out: bool)
        ensures skipped { self.new.skipped
            ≡ risen self.old.skipped (from_bool (not strictly && is_left_out)) }
        ensures unmapped { self.new.unmapped ≡ self.old.unmapped }
    {
        self.skipped = self
            .skipped
            .saturating_add(usize::from(!strictly && is_left_out));
    }
}
