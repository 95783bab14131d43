//! An object.

ghost use Rattle.std.specs.Prelude.{◌≡◌};
ghost use Rattle.goblin_pe_sect.specs.Options.{is_strict};
ghost use Rattle.goblin_pe_c_headers.specs.{Calls.ReadsWithout, ImageRecords.IsImage};
ghost use Rattle.goblin_pe_c_headers.specs.Options.{header_options};
ghost use Rattle.goblin_pe_c_headers.specs.Objects.{ObjectRowsAreRead, object_file, object_image};

use crate::image::{PeImage, zero_image};
use crate::kind::Kind;
use crate::options::{PeOptions, header_options};
use goblin_base::Result;
use goblin_pe_head::header::{CoffHeader, SIZEOF_COFF_HEADER};

/// Reads the header of a COFF object, and tests its sections. The machine is not tested.
///
/// # Errors
/// A file that is too short for its section headers; a bad section name, as the mode says. Nothing
/// is then changed.
#[tactic(auto, unfolding(crate::specs::Objects::object_file), using(crate::proofs::NamedObject::object_rows))]
pub fn read<'a>(bytes: &'a [u8], options: &PeOptions, image: &mut PeImage<'a>) -> Result<()>
    ensures read { let strict = is_strict (header_options options.now).parse_mode in
        ReadsWithout (object_file strict) bytes.now
        (λ x. IsImage bytes.now image.new (object_image options.now x.header))
        (image.new ≡ image.old) result }
    ensures rows { ObjectRowsAreRead }
{
    let header = CoffHeader::parse(bytes, &mut 0)?;
    let section_table = SIZEOF_COFF_HEADER + header.size_of_optional_header as usize;
    header.section_records_with_opts(bytes, &mut { section_table }, &header_options(options))?;
    *image = PeImage {
        section_table,
        section_count: header.number_of_sections as usize,
        coff_header: header,
        ..zero_image(bytes, options, Kind::Object as u32)
    };
    Ok(())
}
