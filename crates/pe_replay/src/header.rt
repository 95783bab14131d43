//! The header of an image.

ghost use Rattle.std.specs.Prelude.{◌≤◌, IfOk, length};

use crate::refused;
use goblin_base::Endian;
use goblin_pe_head::Header;
use std::io;
use std::io::Write;

/// Shows the header, written as it was read.
pub fn show(rt: &HostRuntime, file: &[u8]) -> io::Result<()> {
    let mut written = [0; 4096];
    let size = write_header(file, &mut written).map_err(refused)?;
    rt.stdout().write_all(&written[..size])
}

// Writes the header of a file to the front of `written`, and answers how many bytes it takes.
fn write_header(file: &[u8], written: &mut [u8]) -> goblin_base::Result<usize>
    ensures { IfOk result (λ n. n ≤ length written.old) }
{
    let header = Header::parse(file)?;
    let size = header.try_into_ctx(written, Endian::Little)?;
    Ok(size)
}
