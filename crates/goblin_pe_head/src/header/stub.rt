//! The DOS stub: the program between the DOS header and the PE signature.

ghost use Rattle.std.specs.Prelude.{◌≡◌, length, IfOk};
ghost use Rattle.goblin_base.specs.{Reading.Reads, Bytes.overwritten};
ghost use Rattle.goblin_base.specs.Answers.{Writes, IsSliceFault};
ghost use Rattle.goblin_pe_head.specs.DosStub.{default_stub, stub_bytes};
ghost use Rattle.goblin_pe_head.specs.HeaderReadings as reading;

use goblin_base::{Cause, Endian, Error, Result, pwrite_slice};

/// The file offset at which the DOS stub begins, just past the DOS header.
pub const DOS_STUB_OFFSET: u32 = 0x40;

const _: () = prove!(DOS_STUB_OFFSET == 0x40);

// The program that most linkers put there: it prints its message and ends.
const DEFAULT_STUB: &[u8; 64] = b"\x0E\x1F\xBA\x0E\x00\xB4\x09\xCD\x21\xB8\x01\x4C\xCD\x21\
    This program cannot be run in DOS mode.\x0D\x0D\x0A\x24\0\0\0\0\0\0\0";

/// The program that runs if a PE file is started under DOS, and what the linker puts after it.
///
/// Source: PE Format, "MS-DOS Stub (Image Only)". No loader of PE files looks at it; the Rich
/// header lies in it.
#[derive(Debug, PartialEq, Copy, Clone)]
pub struct DosStub<'a> {
    /// The file's bytes from offset 0x40 to the PE signature, or those of the default stub.
    pub bytes: &'a [u8],
}

impl Default for DosStub<'_> {
    ghost is_default = { λ stub. stub_bytes stub ≡ default_stub };

    /// The 64 bytes that most linkers put there: a program that prints `This program cannot be run
    /// in DOS mode.` and ends.
    #[tactic(auto, unfolding(crate::specs::DosStub::default_stub))]
    fn default() -> Self {
        DosStub {
            bytes: DEFAULT_STUB,
        }
    }
}

impl<'a> DosStub<'a> {
    /// Borrows the stub of a file whose PE signature is at the file offset `pe_pointer`. It is
    /// empty if the signature follows the DOS header, at 0x40.
    ///
    /// # Errors
    /// [`Error::Malformed`] with [`Cause::StubBeforeStart`] if `pe_pointer` is below 0x40, else
    /// with [`Cause::StubPastEnd`] if it is past the end of the file.
    pub fn parse(bytes: &'a [u8], pe_pointer: u32) -> Result<Self>
        ensures { Reads stub_bytes result (reading.stub_at pe_pointer) bytes.now }
    {
        if pe_pointer < DOS_STUB_OFFSET {
            return Err(Error::Malformed(Cause::StubBeforeStart(pe_pointer)));
        }
        let end = pe_pointer as usize;
        if bytes.len() < end {
            return Err(Error::Malformed(Cause::StubPastEnd(bytes.len(), end)));
        }
        Ok(DosStub {
            bytes: &bytes[DOS_STUB_OFFSET as usize..end],
        })
    }

    /// Writes the stub to the front of `bytes`, in either byte order, and returns its size in
    /// bytes.
    ///
    /// # Errors
    /// [`Error::Read`] if there is no room for the stub, or if `bytes` is empty, even for an empty
    /// stub. `bytes` is then unchanged.
    pub fn try_into_ctx(self, bytes: &mut [u8], _endian: Endian) -> Result<usize>
        ensures size { IfOk result (λ n. n ≡ length (stub_bytes self.entry)) }
        ensures written { Writes result (overwritten bytes.old 0 (stub_bytes self.entry)) bytes.old
            bytes.new (IsSliceFault bytes.old 0 (length (stub_bytes self.entry))) }
    {
        pwrite_slice(bytes, 0, self.bytes)?;
        Ok(self.bytes.len())
    }
}
