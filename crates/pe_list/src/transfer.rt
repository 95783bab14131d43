//! A whole input and a whole output, each moved by a loop. A call that fails isn't tried again.

ghost use Rattle.std.specs.Prelude.{◌≡◌, ◌≢◌, ◌<◌, ◌≤◌, Err, IfErr, IfOk, IfSome, IsTrue};
ghost use Rattle.std.specs.Prelude.{OnErr, OnOk, length, take};
ghost use Rattle.std.specs.Io.KnownBytes.{Appends, Keeps};
ghost use Rattle.pe_list.specs.Run.{AppendsPart, IsOutOfMemory};

use crate::fault::RunFault;
use crate::watched::Watched;
use goblin_pe::Error;
use std::alloc::Global;
use std::io::{Read, Write};

// How many bytes are asked for at once.
const CHUNK: usize = 65536;

/// Reads all bytes that the reader has left.
///
/// # Errors
/// [`RunFault::Input`] if a read fails. [`RunFault::Refused`] if memory is refused, as it is at
/// last for a reader that never ends.
pub fn read_all<R: Read>(alloc: Global, reader: &mut Watched<R>) -> Result<Vec<u8>, RunFault>
    ensures bytes { IfOk result
        (λ bytes. IfSome (R.remaining reader.old.inner) (λ file. bytes.items ≡ file)) }
    ensures ended { OnOk result (IsTrue reader.new.ended) }
    ensures refused { IfErr result (λ fault. fault ≢ RunFault.Input → IsOutOfMemory fault) }
    ensures input { result ≡ Err RunFault.Input → IsTrue reader.new.failed }
    ensures once { result ≢ Err RunFault.Input → reader.new.failed ≡ reader.old.failed }
{
    let mut bytes = Vec::new(alloc);
    let mut chunk = [0; CHUNK];
    'reading: loop {
        match reader.read(&mut chunk) {
            Ok(0) => return Ok(bytes),
            Ok(n) => match bytes.extend_from_slice(&chunk[..n]) {
                Ok(()) => {}
                Err(e) => return Err(RunFault::Refused(Error::Memory(e))),
            },
            Err(_) => return Err(RunFault::Input),
        }
    }
}

/// Writes all of the text.
///
/// # Errors
/// [`RunFault::Output`] if a write fails or takes no byte. Only a beginning of the text was then
/// written, perhaps nothing.
pub fn write_text<W: Write>(writer: &mut Watched<W>, text: &[u8]) -> Result<(), RunFault>
    ensures written { OnOk result
        (Appends (W.contents writer.old.inner) (W.contents writer.new.inner) text.now) }
    ensures fault { IfErr result (λ fault. fault ≡ RunFault.Output) }
    ensures failed { OnErr result (IsTrue writer.new.failed) }
    ensures cut { OnErr result
        (AppendsPart (W.contents writer.old.inner) (W.contents writer.new.inner) text.now) }
    ensures once { OnOk result (writer.new.failed ≡ writer.old.failed) }
{
    let mut rest = text;
    'writing: while !rest.is_empty() {
        let n = write_front(writer, rest)?;
        rest = &rest[n..];
    }
    Ok(())
}

// One write, which must take some of the bytes.
fn write_front<W: Write>(writer: &mut Watched<W>, bytes: &[u8]) -> Result<usize, RunFault>
    requires { 0 < length bytes.now }
    ensures some { IfOk result (λ n. 0 < n) }
    ensures within { IfOk result (λ n. n ≤ length bytes.now) }
    ensures took { IfOk result
        (λ n.
        Appends (W.contents writer.old.inner) (W.contents writer.new.inner)
        (take n bytes.now)) }
    ensures fault { IfErr result (λ fault. fault ≡ RunFault.Output) }
    ensures failed { OnErr result (IsTrue writer.new.failed) }
    ensures kept { OnErr result
        (Keeps (W.contents writer.old.inner) (W.contents writer.new.inner)) }
    ensures once { OnOk result (writer.new.failed ≡ writer.old.failed) }
{
    match writer.write(bytes) {
        Ok(0) | Err(_) => Err(RunFault::Output),
        Ok(n) => Ok(n),
    }
}
