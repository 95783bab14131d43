//! How many exports of a file are forwarders.

ghost use Rattle.std.specs.Prelude.{◌≡◌, IfErr, IsSomeAnd, count_by};
ghost use Rattle.goblin_pe.specs.base.Answers.{IsMemory};
ghost use Rattle.goblin_pe.specs.added.Layouts.{layout_table, read_or};
ghost use Rattle.goblin_pe.specs.added.Layouts.{layout_bytes};
ghost use Rattle.goblin_pe.specs.export.added.ExportWalks.{exports_left};
ghost use Rattle.goblin_pe.specs.head.HeaderReadings.{pe_header};
ghost use Rattle.goblin_pe.specs.sect.Options.{is_strict};
ghost use Rattle.goblin_pe.specs.base.Reading.{Reads, ReadsOrMemory};
ghost use Rattle.goblin_pe.specs.readings.Reads.{mapped};
ghost use Rattle.goblin_pe.specs.added.Layouts.{TakesIndex};
ghost use Rattle.goblin_pe.specs.Whole.{export_part};
ghost use Rattle.goblin_pe_examples.specs.Audits.{forwarder_count, forwarders, is_forwarder};

use goblin_pe::added::{Exports, Layout};
use goblin_pe::header::Header;
use goblin_pe::options::ParseOptions;
use goblin_pe::{Part, Result};
use std::alloc::Global;

/// How many exports of a file are forwarders. The count is 0 if the exports are absent or refused.
///
/// # Errors
/// As [`Header::parse_with_opts`], [`Layout::of`] and [`Layout::exports`]. `Memory` only if the
/// file has more than 96 sections.
pub fn forwarders(alloc: Global, bytes: &[u8], opts: &ParseOptions) -> Result<usize>
    ensures value { ReadsOrMemory (λ n. n) result (forwarders opts.now) bytes.now }
    ensures grown { IfErr result
        (λ e. IsMemory e → IsSomeAnd ((pe_header (is_strict opts.now.parse_mode)).value bytes.now)
        TakesIndex) }
{
    let header = Header::parse_with_opts(bytes, opts)?;
    let layout = Layout::of(alloc, bytes, &header, opts)?;
    layout_forwarders(&layout)
}

/// How many exports of a layout are forwarders.
fn layout_forwarders(layout: &Layout) -> Result<usize>
    ensures { Reads (λ n. n) result
        (mapped (read_or 0 forwarder_count) (layout_table export_part layout.now))
        (layout_bytes layout.now) }
{
    match layout.exports()? {
        Part::Absent => Ok(0),
        Part::Read(exports) => Ok(count(exports)),
        Part::Refused => Ok(0),
    }
}

// How many of the exports that a walk yields are forwarders.
fn count(exports: Exports) -> usize
    ensures { result ≡ count_by (λ x. is_forwarder x.row) (exports_left exports.entry) }
{
    exports.count_exports(|export| export.export.reexport.is_some())
}
