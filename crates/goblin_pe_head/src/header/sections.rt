//! The loops that read section tables.

ghost use Rattle.std.specs.Prelude.{◌≡◌, ◌+◌, ◌*◌, OnErr, OnOk};
ghost use Rattle.goblin_base.specs.Reading.{ReadsOrMemory};
ghost use Rattle.goblin_pe_sect.specs.Options.{is_strict};
ghost use Rattle.goblin_pe_head.specs.TeHeader as reading;

use crate::header::te::adjust_section;
use goblin_base::Result;
use goblin_pe_sect::options::ParseOptions;
use goblin_pe_sect::section_table::SectionTable;
use std::alloc::Global;

// Reads `count` sections, whose section headers follow one another from `offset` on, and moves
// `offset` past them. If there is a displacement, each section is adjusted to the stripped file.
pub(super) fn read_sections(
    alloc: Global,
    bytes: &[u8],
    offset: &mut usize,
    count: usize,
    string_table_offset: usize,
    opts: &ParseOptions,
    displacement: Option<u32>,
) -> Result<Vec<SectionTable>>
    ensures value { let strict = is_strict opts.now.parse_mode in
        ReadsOrMemory (λ v. v.items) result
        (reading.moved_sections displacement strict string_table_offset count offset.old)
        bytes.now }
    ensures ok { OnOk result (offset.new ≡ offset.old + 40 * count) }
    ensures err { OnErr result (offset.new ≡ offset.old) }
{
    let mut sections = Vec::with_capacity(alloc, count)?;
    let mut end = *offset;
    'records: for _ in 0..count {
        let mut section = SectionTable::parse_with_opts(
            alloc,
            bytes,
            &mut end,
            string_table_offset,
            opts,
        )?;
        adjust_section(&mut section, displacement);
        sections.push_reserved(section);
    }
    *offset = end;
    Ok(sections)
}
