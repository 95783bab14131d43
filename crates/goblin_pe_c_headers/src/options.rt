//! How a file is read, as a caller says it.

ghost use Rattle.std.specs.Prelude.{◌≡◌};
ghost use Rattle.goblin_pe_c_headers.specs.Options.{are_known, header_options, longest_of};
ghost use Rattle.goblin_pe_c_headers.specs.Options.{maps_addresses, name_limit, options_at, view_of};

use goblin_pe_sect::options::{ParseMode, ParseOptions, RawPointerRule, View};

/// How RVAs are mapped to file offsets, and where the raw data of a section begins. The first three
/// agree on sections whose raw pointer is a multiple of 512, as the specification asks for.
///
/// With the first two, what is read at an RVA ends where its section does in memory: zeros follow
/// the raw data, up to the end of the section's last page. Import tables alone are read on in the
/// file; so is all if the file alignment is below 512, because Windows then maps the file as it is.
pub enum PeMapping {
    /// As the Windows loader maps: the raw pointer is rounded down to 512 when the file alignment
    /// is at least 512, and the headers are mapped at RVA 0. The default: packers hide imports from
    /// readers that map otherwise.
    AsLoaded = 0,
    /// The same, without the headers. pefile maps so, but it also sorts the sections by their
    /// addresses, and ends each where the next begins.
    ByFileAlignment = 1,
    /// As goblin maps: the raw pointer is taken as stored; no headers. A section may reach up to
    /// 511 bytes too far if its raw pointer is not a multiple of 512.
    AsStored = 2,
    /// An RVA is a file offset: the bytes are a dump of the image in memory.
    Identity = 3,
}

/// How an image is read. Zeros are the defaults.
#[repr(C)]
#[derive(Copy, Clone)]
pub struct PeOptions {
    /// A [`PeMapping`]. If it is another number, calls that read a header or find a table by its
    /// address return [`Status::Options`](crate::fault::Status), and look-ups find nothing. The
    /// other walks look at no address, and do not test it.
    pub mapping: u32,
    /// Whether damaged parts are skipped, and not refused. Walks count what they skip. Neither
    /// mode reads a file that has one of these, but with `faults` the rest is filled: a header or a
    /// section table that is cut off, an optional header of an unknown magic, more than sixteen
    /// data directories, a section name of a slash and no number, or a marker Rich with no marker
    /// DanS before it or with a broken word between them.
    pub is_permissive: bool,
    /// Zeros, because later versions may have options here. Other bytes count as an unknown
    /// mapping.
    pub reserved: [u8; 3],
    /// How many bytes of a name are read at most; 0 means 4,096. GOBLIN_PE_NO_LIMIT, and any other
    /// number above 2^32 - 1, means no limit. A longer name is cut between two characters, and the
    /// row says so. Different names can be cut to the same bytes, so don't compare or hash a name
    /// that is cut. What follows the cut, except for the next character, is not tested: it may not
    /// be UTF-8.
    pub longest_name: usize,
}

/// Whether the options are known: a mapping with a number of its own, and zeros after it.
#[inline(always)]
pub fn are_known(options: &PeOptions) -> bool
    ensures { result ≡ are_known options.now }
{
    let [first, second, third] = options.reserved;
    options.mapping <= PeMapping::Identity as u32 && first == 0 && second == 0 && third == 0
}

/// The limit of a name's length that a number says, if it says one.
#[inline(always)]
pub fn name_limit(longest: usize) -> Option<u32>
    ensures { result ≡ name_limit longest }
{
    match longest {
        0 => Some(4096),
        1..=0xFFFF_FFFF => Some(longest as u32),
        _ => None,
    }
}

/// How many bytes of a name are read, if there is a limit.
#[inline(always)]
pub fn longest_of(options: &PeOptions) -> Option<u32>
    ensures { result ≡ longest_of options.now }
{
    name_limit(options.longest_name)
}

/// What the addresses of an image are mapped by.
#[inline(always)]
pub fn view_of(options: &PeOptions) -> View
    ensures { result ≡ view_of options.now }
{
    match options.mapping {
        0 => View::Loader,
        1 => View::LoadedSections,
        _ => View::Sections,
    }
}

/// The options by which the header and the sections of a file are read: only the mode matters
/// there.
#[inline(always)]
pub fn header_options(options: &PeOptions) -> ParseOptions
    ensures { result ≡ header_options options.now }
{
    let parse_mode = if options.is_permissive {
        ParseMode::Permissive
    } else {
        ParseMode::Strict
    };
    ParseOptions::default().with_parse_mode(parse_mode)
}

/// Whether RVAs are mapped to offsets; if not, they are offsets.
#[inline(always)]
pub fn maps_addresses(options: &PeOptions) -> bool
    ensures { result ≡ maps_addresses options.now }
{
    options.mapping != PeMapping::Identity as u32
}

/// The options that a caller says, of a file with this file alignment.
#[inline(always)]
pub fn options_at(options: &PeOptions, file_alignment: u32) -> ParseOptions
    ensures { result ≡ options_at options.now file_alignment }
{
    let raw_pointer_rule = match options.mapping {
        0 | 1 => RawPointerRule::by_file_alignment(file_alignment),
        _ => RawPointerRule::AsStored,
    };
    ParseOptions {
        resolve_rva: maps_addresses(options),
        raw_pointer_rule,
        ..header_options(options)
    }
}
