//! The optional header.

ghost use Rattle.std.specs.Prelude.{◌≡◌};
ghost use Rattle.goblin_pe_c_headers.specs.Headers.{optional_record};

use goblin_pe_head::optional_header::{OptionalHeader, StandardFields, WindowsFields};

/// The optional header without its data directories; zeros where there is none.
#[repr(C)]
#[derive(Copy, Clone, Default)]
pub struct PeOptionalHeader {
    /// The standard fields, whose magic is 0 where there is no optional header.
    pub standard_fields: StandardFields,
    /// The Windows fields; of an image for 32 bits as they are of one for 64 bits.
    pub windows_fields: WindowsFields,
}

/// Fills a record with the fields of an optional header, or with zeros.
#[inline(always)]
pub fn fill_optional(fields: &mut PeOptionalHeader, header: &Option<OptionalHeader>)
    ensures { fields.new ≡ optional_record header.now }
{
    match header {
        Some(header) => {
            fields.standard_fields = header.standard_fields;
            fields.windows_fields = header.windows_fields;
        }
        None => *fields = PeOptionalHeader::default(),
    }
}
