//! A Terse Executable.

ghost use Rattle.std.specs.Prelude.{◌≡◌};
ghost use Rattle.goblin_pe_c_headers.specs.Calls.{ReadsWithout};
ghost use Rattle.goblin_pe_c_headers.specs.TeImages.{SaysTe, TeRecords, TeRowsAreRead, te_file};

use crate::image::{PeImage, zero_image};
use crate::kind::Kind;
use crate::options::PeOptions;
use goblin_base::Result;
use goblin_pe_head::header::{CoffHeader, TeHeader};

/// Reads the header of a Terse Executable, and tests its section headers and their names.
///
/// # Errors
/// A file that is too short for the header or its section headers; a stripped size below 40; a
/// section name that strict mode refuses. Nothing is then changed.
#[tactic(auto, unfolding(crate::specs::TeImages::te_file, goblin_pe_head::specs::TeHeader::te_image), using(crate::proofs::NamedTe::te_rows))]
pub fn read<'a>(
    bytes: &'a [u8],
    options: &PeOptions,
    image: &mut PeImage<'a>,
    header: &mut TeHeader,
) -> Result<()>
    ensures read { let old : TeRecords = record { image = image.old; header = header.old } in
        let new : TeRecords = record { image = image.new; header = header.new } in
        ReadsWithout te_file bytes.now (λ x. SaysTe options.now bytes.now x new) (new ≡ old)
        result }
    ensures rows { TeRowsAreRead }
{
    let mut section_table = 0;
    let read = TeHeader::parse(bytes, &mut section_table)?;
    read.section_records(bytes, &mut { section_table })?;
    let coff_header = CoffHeader {
        machine: read.machine,
        number_of_sections: u16::from(read.number_of_sections),
        ..CoffHeader::default()
    };
    *image = PeImage {
        section_table,
        section_count: read.number_of_sections as usize,
        coff_header,
        // (What was stripped, beyond the 40 bytes of this header.)
        moved_by: read.stripped_size.saturating_sub(40),
        ..zero_image(bytes, options, Kind::Te as u32)
    };
    *header = read;
    Ok(())
}
