//! Readers in strict and in permissive mode.

ghost use Rattle.std.specs.Prelude.{false, true};
ghost use Rattle.goblin_base.specs.declared.permissive.ParseMode.TheVariants.{Permissive, Strict};
ghost use Rattle.goblin_base.specs.Reading.{InModes, Reads, ReadsOrMemory};
ghost use Rattle.goblin_pe_sect.specs.{Options.is_strict, Addresses.map_by};
ghost use Rattle.goblin_pe_head.specs.{HeaderReadings.pe_header, PeHeader.header_value};
ghost use Rattle.goblin_pe.specs.Modes.{ReadsInModes, in_mode, in_permissive_mode};
ghost use Rattle.goblin_pe.specs.{TableRuns.AreInModes, Whole.whole_file};

use crate::header::Header;
use crate::import::Bitfield;
use crate::laws::order::{Request, TablesOf, read_tables};
use crate::options::{ParseMode, ParseOptions};
use crate::section_table::SectionTable;
use crate::whole::Whole;
use goblin_base::{Result, TryFromCtx};
use std::alloc::Global;

fn header_in<'a>(bytes: &'a [u8], mode: ParseMode, opts: &ParseOptions) -> Result<Header<'a>>
    ensures { Reads header_value result (pe_header (is_strict mode)) bytes.now }
{
    Header::parse_with_opts(bytes, &opts.with_parse_mode(mode))
}

/// Reads the header of a file in strict and in permissive mode, with all other options from `opts`.
/// It takes no memory.
///
/// If strict mode has a header, permissive mode has the same.
#[tactic(auto, using(crate::proofs::PermissiveReads::header_in_modes))]
pub fn mode_header<'a>(
    bytes: &'a [u8],
    opts: &ParseOptions,
) -> (Result<Header<'a>>, Result<Header<'a>>)
    ensures { ReadsInModes header_value (λ header. header) (pe_header true) (pe_header false)
        bytes.now result }
{
    let strict = header_in(bytes, ParseMode::Strict, opts);
    let permissive = header_in(bytes, ParseMode::Permissive, opts);
    (strict, permissive)
}

fn whole_in<'a>(
    alloc: Global,
    bytes: &'a [u8],
    mode: ParseMode,
    opts: &ParseOptions,
) -> Result<Whole<'a>>
    ensures { ReadsOrMemory (λ whole. whole) result (whole_file (in_mode mode opts.now))
        bytes.now }
{
    Whole::read(alloc, bytes, &opts.with_parse_mode(mode))
}

/// Reads a whole file in strict and in permissive mode, with all other options from `opts`. A
/// refusal of one, even `Error::Memory`, is returned in its place, and the other still runs.
///
/// If strict mode has a value, permissive mode has the same, unless it returns `Error::Memory`. One
/// exception: an import directory at file offset 0 is an empty list in permissive mode, as
/// [`ParseOptions::parse_mode`] says.
#[tactic(auto, using(crate::proofs::PermissiveReads::whole_in_modes))]
pub fn mode_whole<'a>(
    alloc: Global,
    bytes: &'a [u8],
    opts: &ParseOptions,
) -> (Result<Whole<'a>>, Result<Whole<'a>>)
    ensures { InModes (λ whole. whole) (in_permissive_mode opts.now)
        (whole_file (in_mode Strict opts.now)) (whole_file (in_mode Permissive opts.now)) bytes.now
        result }
{
    let strict = whole_in(alloc, bytes, ParseMode::Strict, opts);
    let permissive = whole_in(alloc, bytes, ParseMode::Permissive, opts);
    (strict, permissive)
}

/// Runs the readers of [`Tables`](crate::laws::Tables) in strict and in permissive mode, with all
/// other options from `opts`. A refusal of one reader, even `Error::Memory`, is returned in its
/// place, and the others still run.
///
/// If a reader has a value in strict mode, it has the same in permissive mode, unless it returns
/// `Error::Memory`. One exception: an import directory at file offset 0 is an empty list in
/// permissive mode, as [`ParseOptions::parse_mode`] says.
pub fn mode_tables<'a, 'e, T: Bitfield<'a>, D: TryFromCtx<'a>>(
    alloc: Global,
    bytes: &'a [u8],
    sections: &[SectionTable],
    request: &Request,
    file_alignment: u32,
    opts: &ParseOptions,
) -> (TablesOf<'a, 'e, D>, TablesOf<'a, 'e, D>)
    ensures { let m = map_by opts.now sections.now file_alignment in
        AreInModes T.format D.model D.value_of D.refusal m.addressing request.now bytes.now
        result }
{
    let strictly = opts.with_parse_mode(ParseMode::Strict);
    let permissively = opts.with_parse_mode(ParseMode::Permissive);
    let strict = read_tables::<T, D>(alloc, bytes, sections, request, file_alignment, &strictly);
    let permissive = read_tables::<T, D>(
        alloc,
        bytes,
        sections,
        request,
        file_alignment,
        &permissively,
    );
    (strict, permissive)
}
