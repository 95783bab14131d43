//! Whole files, read two at a time.

ghost use Rattle.goblin_base.specs.Reading.{TwinsOrMemory};
ghost use Rattle.goblin_pe.specs.Whole.{whole_file};

use crate::options::ParseOptions;
use crate::whole::Whole;
use goblin_base::Result;
use std::alloc::Global;

/// Reads two files, each as a whole.
///
/// The footprint of the read has that of the header. If the header can be read, it has that of the
/// sections, too. If these can be read, it also has the footprints of the imports (if the options
/// ask for them), of the exports and of the base relocations, each if its directory is present.
///
/// # Errors
/// For each file as [`Whole::read`].
#[tactic(auto, using(goblin_base::proofs::Readings::twins_or_memory))]
pub fn twin_whole<'a>(
    alloc: Global,
    a: &'a [u8],
    b: &'a [u8],
    opts: &ParseOptions,
) -> (Result<Whole<'a>>, Result<Whole<'a>>)
    ensures { TwinsOrMemory (λ x. x) (whole_file opts.now) a.now b.now result }
{
    let first = Whole::read(alloc, a, opts);
    let second = Whole::read(alloc, b, opts);
    (first, second)
}
