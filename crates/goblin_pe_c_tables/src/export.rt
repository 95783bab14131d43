//! The records of exports.

ghost use Rattle.std.specs.Prelude.{◌≡◌};
ghost use Rattle.goblin_pe_export.specs.added.ExportWalks.{walked_export};
ghost use Rattle.goblin_pe_c_tables.specs.Exports.{export_for_c, export_model, export_with};
ghost use Rattle.goblin_pe_c_tables.specs.Exports.{forwarder_model};

use crate::forwarder::{PeForwarder, forwarder_record, no_forwarder};
use goblin_pe::added::WalkedExport;
use goblin_pe_c_headers::name::cut_name;

/// An export that has a name pointer.
#[repr(C)]
#[derive(Copy, Clone)]
pub struct PeExport<'a> {
    /// The name.
    pub name: &'a [u8],
    /// Where it is forwarded to.
    pub forwarder: PeForwarder<'a>,
    /// The ordinal.
    pub ordinal: usize,
    /// The index of its name pointer, which imports give as a hint.
    pub hint: usize,
    /// The RVA; of a forwarder, that of its text.
    pub rva: usize,
    /// The RVA of the name.
    pub name_rva: usize,
    /// The file offset of `rva`, if it has one; else 0.
    pub offset: usize,
    /// Whether the name can be read.
    pub has_name: bool,
    /// Whether the name is cut.
    pub is_name_cut: bool,
    /// Whether `rva` has a file offset.
    pub has_offset: bool,
    /// Zeros.
    pub reserved: [u8; 5],
}

// The record of an export with this forwarder, which may be none.
#[inline(always)]
pub(crate) fn export_record<'a>(
    bytes: &'a [u8],
    walked: &WalkedExport<'a>,
    forwarder: PeForwarder<'a>,
    longest: Option<u32>,
) -> PeExport<'a>
    ensures { export_model result
        ≡ export_with longest (walked_export walked.now) (forwarder_model forwarder.entry) }
{
    let export = &walked.export;
    let name = match export.name {
        Some(name) => name.as_bytes(),
        None => &bytes[..0],
    };
    let (name, is_name_cut) = cut_name(name, longest);
    PeExport {
        name,
        forwarder,
        ordinal: walked.ordinal,
        hint: walked.hint,
        rva: export.rva,
        name_rva: walked.name_rva as usize,
        offset: export.offset.unwrap_or(0),
        has_name: export.name.is_some(),
        is_name_cut,
        has_offset: export.offset.is_some(),
        reserved: [0; 5],
    }
}

/// Puts the record of an export of these bytes into its place. (A record that is made for both
/// kinds at once would be cleared first for every export.)
#[inline(always)]
pub fn put_export<'a>(
    place: &mut PeExport<'a>,
    bytes: &'a [u8],
    walked: &WalkedExport<'a>,
    longest: Option<u32>,
)
    ensures { export_model place.new ≡ export_for_c longest (walked_export walked.now) }
{
    match &walked.export.reexport {
        None => *place = export_record(bytes, walked, no_forwarder(bytes), longest),
        Some(reexport) => {
            let forwarder = forwarder_record(bytes, reexport, longest);
            *place = export_record(bytes, walked, forwarder, longest);
        }
    }
}
