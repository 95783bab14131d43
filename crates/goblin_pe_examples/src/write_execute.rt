//! Which sections may be written and executed.

ghost use Rattle.std.specs.Prelude.{◌≡◌, filter};
ghost use Rattle.goblin_pe.specs.base.Reading.{ReadsOrMemory};
ghost use Rattle.goblin_pe_examples.specs.Audits.{is_writable_code, writable_code};

use goblin_pe::header::Header;
use goblin_pe::options::ParseOptions;
use goblin_pe::section_table::{IMAGE_SCN_MEM_EXECUTE, IMAGE_SCN_MEM_WRITE, SectionTable};
use goblin_pe::{Result, sections_of};
use std::alloc::Global;

/// The sections of a file that may be written and executed, in the order of their section headers.
///
/// # Errors
/// As [`Header::parse`] and [`sections_of`] in strict mode.
#[tactic(auto, unfolding(goblin_pe::specs::Whole::layout))]
pub fn writable_code(alloc: Global, bytes: &[u8]) -> Result<Vec<SectionTable>>
    ensures { ReadsOrMemory (λ v. v.items) result writable_code bytes.now }
{
    let opts = ParseOptions::default();
    let header = Header::parse(bytes)?;
    let sections = sections_of(alloc, bytes, &header, &opts)?;
    Ok(kept(sections))
}

// Those of these sections that may be written and executed.
fn kept(mut sections: Vec<SectionTable>) -> Vec<SectionTable>
    ensures { result.items ≡ filter is_writable_code sections.items }
{
    sections.retain(|section| is_writable_code(section));
    sections
}

// Whether a section may be written and executed.
fn is_writable_code(section: &SectionTable) -> bool
    ensures { result ≡ is_writable_code section.now }
{
    section.characteristics & IMAGE_SCN_MEM_WRITE != 0
        && section.characteristics & IMAGE_SCN_MEM_EXECUTE != 0
}
