//! Where the address space is cut into pieces.

ghost use Rattle.std.specs.Prelude.{◌<◌, IfOk};
ghost use Rattle.goblin_pe_sect.specs.WindowIndex.{AreNear, IsCut};

use crate::options::View;
use crate::section_table::SectionTable;
use crate::utils::section_window;
use std::alloc::{AllocError, Global};

/// The addresses at which the address space is cut, in rising order: 0, and each start and end of a
/// window that is not empty.
pub(super) fn cuts_of(
    alloc: Global,
    sections: &[SectionTable],
    file_alignment: u32,
    view: View,
) -> Result<Vec<usize>, AllocError>
    requires { 0 < file_alignment }
    ensures cut { IfOk result (λ v. IsCut view sections.now file_alignment v.items) }
    ensures near { IfOk result (λ v. AreNear view sections.now file_alignment) }
{
    let mut points = Vec::with_capacity(alloc, 2 * sections.len() + 1)?;
    points.push(0)?;
    for section in sections {
        let (begin, end) = section_window(section, file_alignment, view);
        if begin < end {
            points.push(begin)?;
            points.push(end)?;
        }
    }
    points.sort_unstable();
    points.dedup();
    Ok(points)
}
