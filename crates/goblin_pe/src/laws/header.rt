//! The headers of two files.

ghost use Rattle.goblin_base.specs.Reading.{Twins};
ghost use Rattle.goblin_pe_sect.specs.Options.{is_strict};
ghost use Rattle.goblin_pe_head.specs.{HeaderReadings.pe_header, PeHeader.header_value};

use crate::header::Header;
use crate::options::ParseOptions;
use goblin_base::Result;

/// Reads the headers of two files. It takes no memory.
///
/// In both modes the footprint of the read has the record of the DOS header, the two bytes of its
/// signature, and the four bytes to which it points. If there is a DOS header, the footprint also
/// has the stub, the PE signature, the COFF header, and the magic, the fields and the data
/// directories of the optional header.
///
/// # Errors
/// For each file as [`Header::parse_with_opts`].
#[tactic(auto, using(goblin_base::proofs::Readings::twins))]
pub fn twin_header<'a>(
    a: &'a [u8],
    b: &'a [u8],
    opts: &ParseOptions,
) -> (Result<Header<'a>>, Result<Header<'a>>)
    ensures { Twins header_value (pe_header (is_strict opts.now.parse_mode)) a.now b.now result }
{
    let first = Header::parse_with_opts(a, opts);
    let second = Header::parse_with_opts(b, opts);
    (first, second)
}
