//! The bytes of a file as they are in memory: those up to an end, and zeros behind it.

ghost use Rattle.std.specs.Prelude.{◌≡◌, ◌*◌, ◌<◌, ◌≤◌, IfSome, Some, length, slice_range};
ghost use Rattle.goblin_base.specs.Answers.{Answers, IsSliceFault, IsTextFaultWithin};
ghost use Rattle.goblin_base.specs.Bytes.{slice_at, text_within};
ghost use Rattle.goblin_base.specs.Parts.{bytes_in, in_memory, no_end, stored, stored_in};

use crate::error::{Error, ReadFault, ResultOf};
use crate::read::{any_text, ascii_within, no_text, pread_ascii_str_within};
use crate::record::field_array;
use crate::write::put_bytes;

/// Where the bytes of a file end that are mapped at an address, and how many zeros follow them in
/// memory.
#[derive(Debug, PartialEq, Copy, Clone, Default)]
pub struct MappedEnd {
    /// The file offset of the last byte that is mapped.
    pub last: usize,
    /// How many zeros follow it. If the file ends before it, none do.
    pub zeros: u32,
}

impl MappedEnd {
    /// No end: a read goes on to the end of the file.
    pub const NONE: MappedEnd = MappedEnd {
        last: usize::MAX,
        zeros: 0,
    };
}

/// Bytes of a file, and zeros that follow them in memory. In contracts, `bytes_in` is the
/// list of all of them, and `stored_in` that of the bytes of the file.
#[derive(Debug, Copy, Clone)]
pub struct MappedBytes<'a> {
    bytes: &'a [u8],
    zeros: u32,
}

impl<'a> MappedBytes<'a> {
    /// The bytes of a file up to an end, and the zeros behind it. Offsets in them are file offsets.
    #[inline(always)]
    pub fn of(bytes: &'a [u8], end: MappedEnd) -> MappedBytes<'a>
        ensures value { bytes_in result ≡ in_memory (Some end) bytes.now }
        ensures stored { stored_in result ≡ in_memory (Some (stored end)) bytes.now }
        ensures whole { end ≡ no_end → bytes_in result ≡ bytes.now }
        ensures whole_stored { end ≡ no_end → stored_in result ≡ bytes.now }
    {
        if end.last < bytes.len() {
            MappedBytes {
                bytes: &bytes[..end.last + 1],
                zeros: end.zeros,
            }
        } else {
            MappedBytes { bytes, zeros: 0 }
        }
    }

    /// All bytes of a file, with no zeros behind them.
    #[inline(always)]
    pub fn whole(bytes: &'a [u8]) -> MappedBytes<'a>
        ensures value { bytes_in result ≡ bytes.now }
        ensures stored { stored_in result ≡ bytes.now }
    {
        MappedBytes { bytes, zeros: 0 }
    }

    /// The bytes of the file alone.
    #[inline(always)]
    pub fn stored(self) -> &'a [u8]
        ensures { result.now ≡ stored_in self.entry }
    {
        self.bytes
    }

    /// How many bytes and zeros there are.
    #[inline(always)]
    pub fn len(self) -> usize
        ensures { result ≡ length (bytes_in self.entry) }
    {
        self.bytes.len() + self.zeros as usize
    }

    /// Those from `begin` up to, but not including, `end`.
    #[inline(always)]
    #[tactic(auto, using(crate::proofs::InMemory::slice_is))]
    pub fn range(self, begin: usize, end: usize) -> MappedBytes<'a>
        requires ordered { begin ≤ end }
        requires within { end ≤ length (bytes_in self) }
        ensures { bytes_in result ≡ slice_range (bytes_in self.entry) begin end }
    {
        let stored = self.bytes.len();
        if end <= stored {
            return MappedBytes {
                bytes: &self.bytes[begin..end],
                zeros: 0,
            };
        }
        let first = begin.min(stored);
        MappedBytes {
            bytes: &self.bytes[first..],
            zeros: (end - begin.max(stored)) as u32,
        }
    }

    /// The text at `offset`, if it is ASCII and within the limit, as [`pread_ascii_str_within`]
    /// reads it. `None` says nothing about the text.
    #[inline(always)]
    #[tactic(auto, using(crate::proofs::InMemory::text_within_stored))]
    pub fn ascii_str_within(self, offset: usize, longest: Option<u32>) -> Option<&'a str>
        ensures { IfSome result
            (λ s. text_within longest (bytes_in self.entry) offset ≡ Some s.now) }
    {
        pread_ascii_str_within(self.bytes, offset, longest)
    }

    // The text at `offset`, ASCII or not, cut if there is a limit.
    #[inline(never)]
    #[tactic(auto, using(crate::proofs::InMemory::texts))]
    fn any_text<'e>(self, offset: usize, longest: Option<u32>) -> ResultOf<'e, &'a str>
        ensures { Answers (λ s. s.now) result (text_within longest (bytes_in self.entry) offset)
            (IsTextFaultWithin longest (bytes_in self.entry) offset) }
    {
        if offset < self.bytes.len() {
            return any_text(self.bytes, offset, longest);
        }
        if offset < self.len() {
            return Ok(no_text(self.bytes));
        }
        Err(Error::Read(ReadFault::BadOffset))
    }

    /// The text at `offset`, as [`pread_str_within`](crate::pread_str_within) reads it: the bytes
    /// before the first NUL, or up to the end. It is empty if it begins in the zeros.
    ///
    /// # Errors
    /// As [`pread_str_within`](crate::pread_str_within).
    #[inline(always)]
    #[tactic(auto, using(crate::proofs::InMemory::text_within_stored))]
    pub fn text_within<'e>(self, offset: usize, longest: Option<u32>) -> ResultOf<'e, &'a str>
        ensures { Answers (λ s. s.now) result (text_within longest (bytes_in self.entry) offset)
            (IsTextFaultWithin longest (bytes_in self.entry) offset) }
    {
        match ascii_within(self.bytes, offset, longest) {
            Some(text) => Ok(text),
            None => self.any_text(offset, longest),
        }
    }

    // The `N` bytes at `offset`, with the zeros among them.
    #[inline(never)]
    #[tactic(auto, using(crate::proofs::InMemory::array_padded))]
    fn padded_array<'e, const N: usize>(self, offset: usize) -> ResultOf<'e, [u8; N]>
        ensures { Answers (λ a. a) result (slice_at (bytes_in self.entry) offset N)
            (IsSliceFault (bytes_in self.entry) offset N) }
    {
        let size = self.len();
        if size <= offset {
            return Err(Error::Read(ReadFault::BadOffset));
        }
        if size - offset < N {
            return Err(Error::Read(ReadFault::TooBig));
        }
        let mut array = [0; N];
        let stored = self.bytes.len();
        let begin = offset.min(stored);
        let end = (offset + N).min(stored);
        put_bytes(&mut array, 0, &self.bytes[begin..end]);
        Ok(array)
    }

    /// The `N` bytes at `offset`, with the zeros among them: the bytes of a number or of a record.
    ///
    /// # Errors
    /// As [`pread_slice`](crate::pread_slice).
    #[inline(always)]
    #[tactic(auto, using(crate::proofs::InMemory::array_stored))]
    pub fn array_at<'e, const N: usize>(self, offset: usize) -> ResultOf<'e, [u8; N]>
        ensures { Answers (λ a. a) result (slice_at (bytes_in self.entry) offset N)
            (IsSliceFault (bytes_in self.entry) offset N) }
    {
        if offset < self.bytes.len() && N <= self.bytes.len() - offset {
            return Ok(field_array(self.bytes, offset));
        }
        self.padded_array(offset)
    }

    // The entry at an index, with the zeros among its bytes.
    #[inline(never)]
    #[tactic(auto, using(crate::proofs::InMemory::entries))]
    fn padded_entry<const N: usize>(self, index: usize) -> Option<[u8; N]>
        requires { 0 < N }
        ensures { result ≡ slice_at (bytes_in self.entry) (N * index) N }
    {
        if index < self.len() / N {
            self.padded_array(N * index).ok()
        } else {
            None
        }
    }

    /// The entry at an index of a table of entries of `N` bytes, with the zeros among its bytes, if
    /// all of it is there.
    #[inline(always)]
    #[tactic(auto, using(crate::proofs::InMemory::entries))]
    pub fn entry_at<const N: usize>(self, index: usize) -> Option<[u8; N]>
        requires { 0 < N }
        ensures { result ≡ slice_at (bytes_in self.entry) (N * index) N }
    {
        match self.stored_entry_at(index) {
            Some(entry) => Some(entry),
            None => self.padded_entry(index),
        }
    }

    /// The entry at an index of a table of entries of `N` bytes, if all of it is among the bytes of
    /// the file. `None` says nothing about the entry.
    #[inline(always)]
    #[tactic(auto, using(crate::proofs::InMemory::entries))]
    pub fn stored_entry_at<const N: usize>(self, index: usize) -> Option<[u8; N]>
        requires { 0 < N }
        ensures { IfSome result (λ a. slice_at (bytes_in self.entry) (N * index) N ≡ Some a) }
    {
        if index < self.bytes.len() / N {
            Some(field_array(self.bytes, N * index))
        } else {
            None
        }
    }
}
