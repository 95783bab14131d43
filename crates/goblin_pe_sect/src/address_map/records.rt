//! The section headers, and the front of the file, by which addresses are mapped.

ghost use Rattle.std.specs.Prelude.{◌≡◌, ◌<◌, [], ◌∷◌, Bool, MatchOption, Some, find, length};
ghost use Rattle.std.specs.Prelude.{option_map, position, slice_get};
ghost use Rattle.std.specs.Fn.{FnReturnsAt};
ghost use Rattle.readings.specs.Tests.{IsTest};
ghost use Rattle.goblin_pe_sect.specs.SectionTable.{Section, front_section, mapped_sections};

use crate::section_table::{SectionRecords, SectionTable};

/// What maps addresses: the sections and, after them, the front of the file if it is mapped.
#[derive(Copy, Clone)]
pub struct MappedRecords<'a> {
    /// The section headers.
    pub records: SectionRecords<'a>,
    /// The size of the headers, in bytes, if the front of the file is mapped at the image's base;
    /// `None` if it is not. The front is mapped as [`front_section`] says.
    pub front: Option<u32>,
}

/// The front of a file as a section at address 0, where the Windows loader maps the headers. `size`
/// is the size of the headers in bytes.
///
/// The window of this section has `size` rounded up to the file alignment, but no more than `size`
/// rounded up to 4,096. It is empty if `size` is 0.
#[inline(always)]
pub fn front_section(size: u32) -> SectionTable
    ensures { result ≡ front_section size }
{
    SectionTable {
        name: [0; 8],
        real_name: None,
        virtual_size: size,
        virtual_address: 0,
        size_of_raw_data: size,
        pointer_to_raw_data: 0,
        pointer_to_relocations: 0,
        pointer_to_linenumbers: 0,
        number_of_relocations: 0,
        number_of_linenumbers: 0,
        characteristics: 0,
    }
}

impl<'a> MappedRecords<'a> {
    /// The first section, and what comes after it, as [`SectionRecords::split_first`]. The front
    /// comes last.
    #[inline(always)]
    pub fn split_first(&self) -> Option<(SectionTable, MappedRecords<'a>)>
        ensures { MatchOption result (mapped_sections self.now ≡ [])
            (λ both. mapped_sections self.now ≡ both.0 ∷ mapped_sections both.1) }
    {
        if let Some((section, records)) = self.records.split_first() {
            return Some((section, MappedRecords { records, ..*self }));
        }
        let size = self.front?;
        let later = MappedRecords {
            front: None,
            ..*self
        };
        Some((front_section(size), later))
    }

    /// How many sections there are. The front counts if it is mapped.
    pub(crate) fn len(&self) -> usize
        ensures { result ≡ length (mapped_sections self.now) }
    {
        match self.front {
            Some(_) => self.records.len() + 1,
            None => self.records.len(),
        }
    }

    /// The section at this index. The front, if it is mapped, has the last index.
    pub(crate) fn at(&self, index: usize) -> SectionTable
        requires { index < length (mapped_sections self.now) }
        ensures { slice_get (mapped_sections self.now) index ≡ Some result }
    {
        match self.front {
            Some(size) if index == self.records.len() => front_section(size),
            _ => self.records.at(index),
        }
    }

    /// The first section that passes a test, and its index. The front, if it is mapped, comes last.
    #[inline(always)]
    pub fn find<F: Fn(&SectionTable) -> bool>(&self, test: F) -> Option<(usize, SectionTable)>
        requires { F.IsAlwaysCallable test }
        ensures index { (p : Section → Bool) → IsTest (λ s. s) (FnReturnsAt F.Fn test) p
            → option_map (λ both. both.0) result ≡ position p (mapped_sections self.now) }
        ensures section { (p : Section → Bool) → IsTest (λ s. s) (FnReturnsAt F.Fn test) p
            → option_map (λ both. both.1) result ≡ find p (mapped_sections self.now) }
    {
        let mut rest = *self;
        'sections: for index in 0..self.len() {
            let (section, later) = rest.split_first()?;
            if test(&section) {
                return Some((index, section));
            }
            rest = later;
        }
        None
    }
}
