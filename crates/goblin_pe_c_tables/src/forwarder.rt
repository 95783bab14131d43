//! The forwarder at an RVA of an image.

ghost use Rattle.std.specs.Prelude.{◌≡◌, ◌++◌, ◌∷◌, Some};
ghost use Rattle.goblin_pe_export.specs.Forwarders.{Forwarder.ByName, forwarder_value, is_longer};
ghost use Rattle.goblin_pe_c_headers.specs.Calls.{ReadsWithout};
ghost use Rattle.goblin_pe_c_tables.specs.Exports.{forwarder_at_address, forwarder_for_c};
ghost use Rattle.goblin_pe_c_tables.specs.Exports.{forwarder_model, name_room, no_forwarder};
ghost use Rattle.goblin_pe_c_headers.specs.Options.{longest_of};

use goblin_pe::export::Reexport;
use goblin_pe::{Cause, Error, Result};
use goblin_pe_c_headers::address::part_of;
use goblin_pe_c_headers::image::PeImage;
use goblin_pe_c_headers::name::cut_name;
use goblin_pe_c_headers::options::longest_of;

/// How an export is forwarded.
#[derive(Copy, Clone)]
pub(crate) enum ForwarderKind {
    /// It is not.
    None = 0,
    /// To an export of another DLL, by its name.
    Name = 1,
    /// To an export of another DLL, by its ordinal.
    Ordinal = 2,
}

/// Where an export is forwarded to: the text `dll.name` or `dll.#ordinal`.
#[repr(C)]
#[derive(Copy, Clone)]
pub struct PeForwarder<'a> {
    /// The DLL: the text up to the first dot.
    pub dll: &'a [u8],
    /// The name of the export there.
    pub name: &'a [u8],
    /// The ordinal of the export there.
    pub ordinal: usize,
    /// A [`ForwarderKind`]; if it is [`ForwarderKind::None`], all else is zeros.
    pub kind: u32,
    /// Whether the text is cut. It then counts as a name, which may be empty.
    pub is_cut: bool,
    /// Zeros.
    pub reserved: [u8; 3],
}

// The record of an export that is not forwarded.
#[inline(always)]
pub(crate) fn no_forwarder<'a>(bytes: &'a [u8]) -> PeForwarder<'a>
    ensures { forwarder_model result ≡ no_forwarder }
{
    PeForwarder {
        dll: &bytes[..0],
        name: &bytes[..0],
        ordinal: 0,
        kind: ForwarderKind::None as u32,
        is_cut: false,
        reserved: [0; 3],
    }
}

// How many bytes the limit leaves for the name of a forwarder, after the library and a dot.
fn name_room(longest: Option<u32>, lib: &str) -> Option<u32>
    ensures { result ≡ name_room longest lib.now }
{
    let longest = longest? as usize;
    Some(longest.saturating_sub(lib.len()).saturating_sub(1) as u32)
}

// Whether the text of a forwarder is longer than the limit.
fn is_cut(longest: Option<u32>, lib: &str, name: &str) -> bool
    ensures { result ≡ is_longer longest (lib.now ++ 46 ∷ name.now) }
{
    match longest {
        Some(longest) => (longest as usize).saturating_sub(lib.len()) <= name.len(),
        None => false,
    }
}

// The record of a forwarder by name.
fn named_forwarder<'a>(
    bytes: &'a [u8],
    lib: &'a str,
    name: &'a str,
    longest: Option<u32>,
) -> PeForwarder<'a>
    ensures { forwarder_model result ≡ forwarder_for_c longest (Some (ByName name.now lib.now)) }
{
    PeForwarder {
        dll: cut_name(lib.as_bytes(), longest).0,
        name: cut_name(name.as_bytes(), name_room(longest, lib)).0,
        kind: ForwarderKind::Name as u32,
        is_cut: is_cut(longest, lib, name),
        ..no_forwarder(bytes)
    }
}

// The record of a forwarder.
pub(crate) fn forwarder_record<'a>(
    bytes: &'a [u8],
    reexport: &Reexport<'a>,
    longest: Option<u32>,
) -> PeForwarder<'a>
    ensures { forwarder_model result
        ≡ forwarder_for_c longest (Some (forwarder_value reexport.now)) }
{
    match reexport {
        Reexport::DLLName { export, lib } => named_forwarder(bytes, lib, export, longest),
        Reexport::DLLOrdinal { ordinal, lib } => PeForwarder {
            dll: lib.as_bytes(),
            ordinal: *ordinal,
            kind: ForwarderKind::Ordinal as u32,
            ..no_forwarder(bytes)
        },
    }
}

/// Reads the forwarder whose text is at an RVA, up to the limit that the image's options say.
///
/// # Errors
/// [`Error::Malformed`] with [`Cause::Unmapped`] if the RVA has no file offset, and as
/// [`Reexport::parse_within`]; nothing is then changed.
pub fn read_forwarder<'a>(
    image: &PeImage<'a>,
    rva: usize,
    forwarder: &mut PeForwarder<'a>,
) -> Result<()>
    ensures { ReadsWithout (forwarder_at_address image.now rva) image.now.bytes.now
        (λ f. forwarder_model forwarder.new
        ≡ forwarder_for_c (longest_of image.now.options) (Some f))
        (forwarder.new ≡ forwarder.old) result }
{
    let Some((part, offset)) = part_of(image, rva) else {
        return Err(Error::Malformed(Cause::Unmapped(rva)));
    };
    let longest = longest_of(&image.options);
    let found = Reexport::parse_in(part, offset, longest)?;
    *forwarder = forwarder_record(image.bytes, &found, longest);
    Ok(())
}
