//! Section headers that are tested, without a section made from them.

ghost use Rattle.std.specs.Prelude.{◌≡◌, ◌+◌, ◌*◌, ◌/◌, ◌<◌, ℕ, map, length, IsErrAnd, OnErr, OnOk};
ghost use Rattle.goblin_base.specs.Reading.{Reads};
ghost use Rattle.readings.specs.Reads.{each, mapped};
ghost use Rattle.goblin_pe_sect.specs.{Options.is_strict, SectionReadings.named_section_at};
ghost use Rattle.goblin_pe_sect.specs.SectionTable.{recorded_sections, unnamed};
ghost use Rattle.goblin_pe_head.specs.CoffHeader.{IsTooManySections, symbols_end};
ghost use Rattle.goblin_pe_head.specs.CoffReadings as coff_reading;
ghost use Rattle.goblin_pe_head.specs.TeHeader.{displacement, section_moved};
ghost use Rattle.goblin_pe_head.specs.TeHeader as reading;

use crate::header::{CoffHeader, TeHeader};
use goblin_base::{Error, Result};
use goblin_pe_sect::options::ParseOptions;
use goblin_pe_sect::section_table::{SIZEOF_SECTION_TABLE, SectionRecords, SectionTable};

// Tests `count` section headers, which follow one another from `offset` on, and moves `offset` past
// them. Sections are read from them later.
#[inline(always)]
fn read_section_records<'a>(
    bytes: &'a [u8],
    offset: &mut usize,
    count: usize,
    opts: &ParseOptions,
) -> Result<SectionRecords<'a>>
    ensures value { let strict = is_strict opts.now.parse_mode in
        (table : ℕ) → Reads recorded_sections result
        (mapped (map unnamed)
        (each (λ i. named_section_at strict table (offset.old + 40 * i)) count))
        bytes.now }
    ensures ok { OnOk result (offset.new ≡ offset.old + 40 * count) }
    ensures err { OnErr result (offset.new ≡ offset.old) }
{
    let mut end = *offset;
    'records: for _ in 0..count {
        SectionTable::parse_unnamed(bytes, &mut end, opts)?;
    }
    // If there are no sections, `offset` may lie past the end.
    let records = SectionRecords::of(bytes.get(*offset..end).unwrap_or(&[]));
    *offset = end;
    Ok(records)
}

impl CoffHeader {
    /// Tests the section headers that follow one another from the file offset `offset` on, as
    /// [`CoffHeader::sections_with_opts`] does, moves `offset` past them, and returns them. They
    /// take no memory. Their sections lack the names from the string table.
    ///
    /// Source: PE Format, "Section Table (Section Headers)".
    ///
    /// # Errors
    /// As [`CoffHeader::sections_with_opts`], but never [`Error::Memory`].
    #[inline(always)]
    pub fn section_records_with_opts<'a>(
        &self,
        bytes: &'a [u8],
        offset: &mut usize,
        opts: &ParseOptions,
    ) -> Result<SectionRecords<'a>>
        ensures value { let strict = is_strict opts.now.parse_mode in
            let table = symbols_end self.now in
            let count = self.now.number_of_sections in
            Reads recorded_sections result
            (mapped (map unnamed) (coff_reading.sections_at strict table count offset.old))
            bytes.now }
        ensures first { length bytes.now / 40 < self.now.number_of_sections
            → IsErrAnd result (IsTooManySections self.now.number_of_sections bytes.now) }
        ensures ok { OnOk result (offset.new ≡ offset.old + 40 * self.now.number_of_sections) }
        ensures err { OnErr result (offset.new ≡ offset.old) }
    {
        let count = self.number_of_sections as usize;
        if bytes.len() / SIZEOF_SECTION_TABLE < count {
            return Err(Error::BufferTooShort(count, "sections"));
        }
        read_section_records(bytes, offset, count, opts)
    }
}

impl TeHeader {
    /// Tests the section headers that follow one another from the file offset `offset` on, as
    /// [`TeHeader::sections`] does, moves `offset` past them, and returns them. They take no
    /// memory. Their sections are as stored, and lack the names from the string table.
    /// [`adjust_section`](crate::header::adjust_section) adjusts a section to the stripped file.
    ///
    /// # Errors
    /// As [`TeHeader::sections`], but never [`Error::Memory`].
    #[tactic(auto, unfolding(crate::specs::TeHeader::te_sections_at))]
    pub fn section_records<'a>(
        &self,
        bytes: &'a [u8],
        offset: &mut usize,
    ) -> Result<SectionRecords<'a>>
        ensures value { let moved = section_moved (displacement self.now) in
            Reads (λ r. map moved (recorded_sections r)) result
            (mapped (map unnamed) (reading.te_sections_at self.now offset.old)) bytes.now }
        ensures ok { OnOk result (offset.new ≡ offset.old + 40 * self.now.number_of_sections) }
        ensures err { OnErr result (offset.new ≡ offset.old) }
    {
        let count = self.number_of_sections as usize;
        if bytes.len() / SIZEOF_SECTION_TABLE < count {
            return Err(Error::BufferTooShort(count, "sections"));
        }
        self.displacement()?;
        read_section_records(bytes, offset, count, &ParseOptions::default())
    }
}
