//! A run of the program: it reads the whole input, lists it, and writes the listing.

ghost use Rattle.std.specs.Prelude.{◌≡◌, ◌≢◌, ◌<◌, string_bytes, Err, IfErr, IfOk, IfSome};
ghost use Rattle.std.specs.Prelude.{IsSomeAnd, IsTrue, OnErr, OnOk, Some};
ghost use Rattle.std.specs.Io.KnownBytes.{Appends, Keeps};
ghost use Rattle.goblin_pe.specs.base.Reading.{IsRefused};
ghost use Rattle.goblin_pe.specs.base.Answers.{IsMemory};
ghost use Rattle.pe_listing.specs.Listing.{listing_of};
ghost use Rattle.pe_list.specs.Run.{AppendsPart, IfRefused};

use crate::fault::RunFault;
use crate::transfer::{read_all, write_text};
use crate::watched::Watched;
use goblin_pe::options::ParseMode;
use pe_listing::listing::list;
use std::alloc::Global;
use std::io::{Read, Write};

// The listing of all bytes that the reader has left. The file is judged only when all of it was
// read.
fn read_listing<R: Read>(
    alloc: Global,
    reader: &mut Watched<R>,
    mode: ParseMode,
) -> Result<String, RunFault>
    ensures listed { IfOk result
        (λ text.
        IfSome (R.remaining reader.old.inner)
        (λ file. (listing_of mode).value file ≡ Some (string_bytes text))) }
    ensures refused { IfRefused result (λ cause. ¬ IsMemory cause
        → IfSome (R.remaining reader.old.inner) (λ file.
        IsRefused (listing_of mode) file cause)) }
    ensures output { IfErr result (λ fault. fault ≢ RunFault.Output) }
    ensures input { result ≡ Err RunFault.Input → IsTrue reader.new.failed }
    ensures once { result ≢ Err RunFault.Input → reader.new.failed ≡ reader.old.failed }
    ensures ended { OnOk result (IsTrue reader.new.ended) }
    ensures judged { IfRefused result (λ cause. ¬ IsMemory cause → IsTrue reader.new.ended) }
{
    let bytes = read_all(alloc, reader)?;
    match list(alloc, &bytes, mode) {
        Ok(text) => Ok(text),
        Err(cause) => Err(RunFault::Refused(cause)),
    }
}

/// Reads to the end, and writes the listing of what was read.
///
/// # Errors
/// [`RunFault::Refused`] if the bytes have no listing, or if memory is refused. [`RunFault::Input`]
/// if a read fails, and [`RunFault::Output`] if a write fails or takes no byte; neither is tried
/// again. Nothing is written before the whole listing is there. On `Output` only a beginning of it
/// was written, perhaps nothing.
pub fn run<R: Read, W: Write>(
    alloc: Global,
    reader: &mut Watched<R>,
    writer: &mut Watched<W>,
    mode: ParseMode,
) -> Result<(), RunFault>
    ensures listed { OnOk result (IfSome (R.remaining reader.old.inner) (λ file.
        IsSomeAnd ((listing_of mode).value file)
        (Appends (W.contents writer.old.inner) (W.contents writer.new.inner)))) }
    ensures cut { result ≡ Err RunFault.Output → IfSome (R.remaining reader.old.inner) (λ file.
        IsSomeAnd ((listing_of mode).value file)
        (AppendsPart (W.contents writer.old.inner) (W.contents writer.new.inner))) }
    ensures refused { IfRefused result (λ cause. ¬ IsMemory cause
        → IfSome (R.remaining reader.old.inner) (λ file.
        IsRefused (listing_of mode) file cause)) }

    // Nothing is written before the listing is whole.
    ensures nothing_out { OnErr result (result ≢ Err RunFault.Output →
        Keeps (W.contents writer.old.inner) (W.contents writer.new.inner)) }

    // A fault of the reader or the writer is returned only if one of its calls showed it.
    ensures input { result ≡ Err RunFault.Input → IsTrue reader.new.failed }
    ensures output { result ≡ Err RunFault.Output → IsTrue writer.new.failed }

    // A fault that a call showed ends the run.
    ensures read_once { result ≢ Err RunFault.Input → reader.new.failed ≡ reader.old.failed }
    ensures written_once { result ≢ Err RunFault.Output → writer.new.failed ≡ writer.old.failed }

    // The file is judged only when all of it was read.
    ensures ended { OnOk result (IsTrue reader.new.ended) }
    ensures judged { IfRefused result (λ cause. ¬ IsMemory cause → IsTrue reader.new.ended) }
{
    let text = read_listing(alloc, reader, mode)?;
    write_text(writer, text.as_bytes())
}
