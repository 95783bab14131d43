//! The map from file offsets back to addresses.

ghost use Rattle.std.specs.Prelude.{◌≡◌};
ghost use Rattle.goblin_pe_sect.specs.added.Backward.{rva_in};

use crate::options::Mapping;
use crate::section_table::SectionTable;
use crate::utils::{raw_begin, window_by};

/// The address that the window of this section has at the file offset `offset`, whatever other
/// sections map. `None` if the window has no address there, or if `file_alignment` is not a power
/// of two.
pub fn rva_in(
    offset: usize,
    section: &SectionTable,
    file_alignment: u32,
    mapping: Mapping,
) -> Option<usize>
    ensures { result ≡ rva_in mapping file_alignment offset section.now }
{
    let (first, end) = window_by(section, file_alignment, mapping.view)?;
    let begin = raw_begin(section, mapping) as usize;
    if offset < begin || end - first <= offset - begin {
        return None;
    }
    Some(first + (offset - begin))
}
