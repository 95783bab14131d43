//! Whether a program is entered in code.

ghost use Rattle.std.specs.Prelude.{◌≡◌};
ghost use Rattle.goblin_pe.specs.base.Reading.{ReadsOrMemory};
ghost use Rattle.goblin_pe_examples.specs.Audits.{enters_code, is_entered_in_code};

use goblin_pe::header::Header;
use goblin_pe::optional_header::OptionalHeader;
use goblin_pe::options::ParseOptions;
use goblin_pe::section_table::{IMAGE_SCN_MEM_EXECUTE, SectionTable};
use goblin_pe::{Result, section_at, sections_of};
use std::alloc::Global;

/// Whether the entry point of a file lies in a section that may be executed. It is `false` if the
/// entry point lies in no section, or if the file has no optional header.
///
/// # Errors
/// As [`Header::parse`] and [`sections_of`] in strict mode.
#[tactic(auto, unfolding(goblin_pe::specs::Whole::layout))]
pub fn enters_code(alloc: Global, bytes: &[u8]) -> Result<bool>
    ensures { ReadsOrMemory (λ b. b) result enters_code bytes.now }
{
    let opts = ParseOptions::default();
    let header = Header::parse(bytes)?;
    let sections = sections_of(alloc, bytes, &header, &opts)?;
    Ok(is_entered_in_code(&header.optional_header, &sections))
}

// Whether the entry point lies in a section that may be executed.
fn is_entered_in_code(header: &Option<OptionalHeader>, sections: &[SectionTable]) -> bool
    ensures { result ≡ is_entered_in_code header.now sections.now }
{
    let Some(header) = header else {
        return false;
    };
    let entry = header.standard_fields.address_of_entry_point as usize;
    match section_at(entry, sections, header.windows_fields.file_alignment) {
        Some(section) => section.characteristics & IMAGE_SCN_MEM_EXECUTE != 0,
        None => false,
    }
}
