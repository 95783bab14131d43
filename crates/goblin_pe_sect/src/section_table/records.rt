//! The section headers of a section table, as they lie in the file.

ghost use Rattle.std.specs.Prelude.{◌≡◌, ◌<◌, ◌/◌, [], ◌∷◌, MatchOption, Some, length, slice_get};
ghost use Rattle.goblin_pe_sect.specs.SectionTable.{AreBytesAlone, recorded_sections, sections_in};

use crate::section_table::{SIZEOF_SECTION_TABLE, SectionTable};

/// The section headers of a section table, as they lie in the file: 40 bytes each. A section is
/// read from its header when you ask for it, without its name from the string table. So no section
/// takes memory.
///
/// Source: PE Format, "Section Table (Section Headers)".
#[derive(Copy, Clone)]
pub struct SectionRecords<'a> {
    records: &'a [u8],
}

// The section whose header is at this index.
#[inline(always)]
#[tactic(auto, using(crate::proofs::SectionRecords::section_there))]
fn section_in(records: &[u8], index: usize) -> SectionTable
    requires { index < length records.now / 40 }
    ensures { slice_get (sections_in records.now) index ≡ Some result }
{
    let begin = SIZEOF_SECTION_TABLE * index;
    SectionTable::in_record(&records[begin..begin + SIZEOF_SECTION_TABLE], None)
}

impl<'a> SectionRecords<'a> {
    /// The section headers in these bytes, one after the other. If fewer than 40 bytes are left at
    /// the end, they are ignored.
    pub fn of(records: &'a [u8]) -> SectionRecords<'a>
        ensures value { recorded_sections result ≡ sections_in records.now }
        ensures whole { AreBytesAlone }
    {
        SectionRecords { records }
    }

    /// The first section, without its name from the string table, and the section headers after it.
    /// `None` if there are no more. A walk with this call takes fewer steps than one by indexes.
    #[inline(always)]
    #[tactic(auto, using(crate::proofs::SectionRecords::sections))]
    pub fn split_first(&self) -> Option<(SectionTable, SectionRecords<'a>)>
        ensures { MatchOption result (recorded_sections self.now ≡ [])
            (λ both. recorded_sections self.now ≡ both.0 ∷ recorded_sections both.1) }
    {
        if self.records.len() < SIZEOF_SECTION_TABLE {
            return None;
        }
        let section = SectionTable::in_record(&self.records[..SIZEOF_SECTION_TABLE], None);
        let later = SectionRecords {
            records: &self.records[SIZEOF_SECTION_TABLE..],
        };
        Some((section, later))
    }

    /// How many sections there are.
    #[inline(always)]
    #[tactic(auto, using(crate::proofs::SectionRecords::length_sections))]
    pub fn len(&self) -> usize
        ensures value { result ≡ length (recorded_sections self.now) }
        ensures small { result < usize.MAX }
    {
        self.records.len() / SIZEOF_SECTION_TABLE
    }

    /// The section at this index, which must be below [`len`](SectionRecords::len), without its
    /// name from the string table.
    #[inline(always)]
    #[tactic(auto, using(crate::proofs::SectionRecords::length_sections))]
    pub fn at(&self, index: usize) -> SectionTable
        requires { index < length (recorded_sections self.now) }
        ensures { slice_get (recorded_sections self.now) index ≡ Some result }
    {
        section_in(self.records, index)
    }
}
