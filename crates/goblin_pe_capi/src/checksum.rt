//! The call that computes the checksum of an image.

ghost use Rattle.std.specs.Prelude.{◌+◌, None, Some, if◌then◌else◌};
ghost use Rattle.goblin_pe.specs.added.Checksums.{image_checksum};
ghost use Rattle.goblin_pe_c_headers.specs.Found.{Puts};

use goblin_pe::added::checksum;
use goblin_pe_c_headers::image::PeImage;

/// Computes the checksum of `image.bytes`, for `optional_header.windows_fields.check_sum`. Windows
/// tests it in drivers. Compute it after all other changes to the bytes.
///
/// Returns whether the image has an optional header.
#[unsafe(no_mangle)]
pub extern "C" fn goblin_pe_raw_checksum(image: &PeImage, sum: &mut u32) -> bool
    ensures { Puts (λ s. s) result
        (if image.now.has_optional_header
        then Some (image_checksum image.now.bytes.now (image.now.dos_header.pe_pointer + 88))
        else None) sum.old sum.new }
{
    if !image.has_optional_header {
        return false;
    }
    *sum = checksum(image.bytes, image.dos_header.pe_pointer as usize + 88);
    true
}
