//! Another time stamp for a file.

ghost use Rattle.std.specs.Prelude.{◌≡◌, ◌⊎◌, IfErr, IfOk, IsSomeAnd, None, OnErr, Some};
ghost use Rattle.std.specs.Prelude.{length, option_and_then, true};
ghost use Rattle.goblin_pe.specs.base.Answers.{FirstFault, IsSliceFault};
ghost use Rattle.goblin_pe.specs.base.Bytes.{overwritten};
ghost use Rattle.goblin_pe.specs.head.HeaderReadings.{pe_header};
ghost use Rattle.goblin_pe.specs.head.PeHeader.{IsUnwrittenPart, header_bytes};
ghost use Rattle.goblin_pe.specs.base.Reading.{IsRefused};
ghost use Rattle.goblin_pe_examples.specs.Audits.{stamped};

use goblin_pe::header::Header;
use goblin_pe::{Endian, Result};

/// Writes the header of a file, with another time stamp, to the front of `out`, and returns its
/// size in bytes. What was written reads back as the header with that time stamp.
///
/// # Errors
/// As [`Header::parse`] and [`Header::try_into_ctx`]. `out` is then unchanged.
pub fn stamp(file: &[u8], time: u32, out: &mut [u8]) -> Result<usize>
    ensures again { IfOk result (λ _. IsSomeAnd ((pe_header true).value file.now)
        (λ h. (pe_header true).value out.new ≡ Some (stamped time h))) }
    ensures size { IfOk result (λ n. IsSomeAnd ((pe_header true).value file.now)
        (λ h. IsSomeAnd (header_bytes Endian.Little (stamped time h))
        (λ written. n ≡ length written))) }
    ensures written { IfOk result (λ _. IsSomeAnd ((pe_header true).value file.now)
        (λ h. option_and_then (overwritten out.old 0)
        (header_bytes Endian.Little (stamped time h)) ≡ Some out.new)) }
    ensures refused { IfErr result (λ e. IsRefused (pe_header true) file.now e
        ⊎ IsSomeAnd ((pe_header true).value file.now)
        (λ h. (option_and_then (overwritten out.old 0)
        (header_bytes Endian.Little (stamped time h)) ≡ None)
        × FirstFault (header_bytes Endian.Little (stamped time h))
        (IsUnwrittenPart h.optional_header)
        (λ written. IsSliceFault out.old 0 (length written)) e)) }
    ensures kept { OnErr result (out.new ≡ out.old) }
{
    let mut header = Header::parse(file)?;
    header.coff_header.time_date_stamp = time;
    header.try_into_ctx(out, Endian::Little)
}
