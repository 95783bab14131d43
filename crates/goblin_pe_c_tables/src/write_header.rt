//! A header, written from the record of an image.

ghost use Rattle.goblin_pe_c_headers.specs.Written.{Output, WritesHeader};
ghost use Rattle.goblin_pe_c_tables.specs.ReadImages.{ImageWritesBack};

use goblin_pe::{Endian, Result};
use goblin_pe_c_headers::given_header::{header_from_c, stub_of};
use goblin_pe_c_headers::image::PeImage;

/// Writes the header that the record says. Sets `written` to the size. Without any room it only
/// does the latter.
///
/// # Errors
/// Read if the file has no such DOS stub; an optional header of unknown magic, one for 32 bits with
/// a field that does not fit, and too little room. Nothing is then changed.
#[tactic(auto, using(crate::proofs::WrittenBack::image_back))]
pub fn write_header(image: &PeImage, out: &mut [u8], written: &mut usize) -> Result<()>
    ensures written { let old : Output = record { out = out.old; written = written.old } in
        let new : Output = record { out = out.new; written = written.new } in
        WritesHeader image.now old new result }
    ensures back { ImageWritesBack }
{
    let stub = stub_of(image)?;
    let header = header_from_c(image, stub);
    *written = if out.is_empty() {
        header.size_with(Endian::Little)?
    } else {
        header.try_into_ctx(out, Endian::Little)?
    };
    Ok(())
}
