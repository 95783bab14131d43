//! Forwarders: exports that refer to an export of another library.

ghost use Rattle.std.specs.Prelude.{◌≡◌, ◌↔◌, List, ℕ, Some};
ghost use Rattle.goblin_base.specs.{Answers.Answers, Parts.bytes_in, Reading.Reads};
ghost use Rattle.goblin_pe_export.specs.ForwarderLaws.{forwarder_in-within};
ghost use Rattle.goblin_pe_export.specs.Forwarders.{Forwarder, IsForwarder, forwarder_in_text};
ghost use Rattle.goblin_pe_export.specs.Forwarders.{forwarder_within, is_longer};
ghost use Rattle.goblin_pe_export.specs.Forwarders.{IsForwarderFault, forwarder_at, forwarder_in};
ghost use Rattle.goblin_pe_export.specs.Forwarders.{forwarder_of, forwarder_value, ordinal_of};

use goblin_base::{Cause, Endian, Error, MappedBytes, Result, TryFromCtx, no_text, pread_str};

/// What an export that is a forwarder refers to: an export of another library.
///
/// Source: PE Format, "Export Address Table". The text is the library's name, a dot, and the
/// export's name or `#` and its ordinal, as in `MYDLL.expfunc` and `MYDLL.#27`.
#[derive(Debug, PartialEq, Copy, Clone)]
pub enum Reexport<'a> {
    /// An export by its name.
    DLLName {
        /// The export's name.
        export: &'a str,
        /// The library's name, without its file extension. It may be empty.
        lib: &'a str,
    },
    /// An export by its ordinal.
    DLLOrdinal {
        /// The export's ordinal, below 2^32.
        ordinal: usize,
        /// The library's name, without its file extension. It may be empty.
        lib: &'a str,
    },
}

// The ordinal in a text: an optional `+` and decimal digits.
#[tactic(auto, using(crate::proofs::Grammar::parsed_ordinal))]
fn ordinal_of(text: &str) -> Option<u32>
    ensures { result ≡ ordinal_of text.now }
{
    text.parse::<u32>().ok()
}

// Whether a text has more bytes than the limit, if there is one.
#[inline(always)]
fn is_longer(text: &str, longest: Option<u32>) -> bool
    ensures { result ≡ is_longer longest text.now }
{
    match longest {
        None => false,
        Some(longest) => (longest as usize) < text.len(),
    }
}

impl<'a> Reexport<'a> {
    // The forwarder in a text, which is the front of a longer text if `is_longer`.
    fn of_text(text: &'a str, is_longer: bool) -> Result<Reexport<'a>>
        ensures { Answers forwarder_value result (forwarder_in_text is_longer text.now)
            (IsForwarderFault text.now) }
    {
        let Some((lib, tail)) = text.split_once('.') else {
            if is_longer {
                let export = no_text(text.as_bytes());
                return Ok(Reexport::DLLName { export, lib: text });
            }
            return Err(Error::Malformed(Cause::Forwarder));
        };
        if is_longer {
            return Ok(Reexport::DLLName { export: tail, lib });
        }
        if let Some(digits) = tail.strip_prefix('#') {
            return match ordinal_of(digits) {
                Some(ordinal) => Ok(Reexport::DLLOrdinal {
                    ordinal: ordinal as usize,
                    lib,
                }),
                None => Err(Error::Malformed(Cause::ForwarderOrdinal)),
            };
        }
        if tail.is_empty() {
            return Err(Error::Malformed(Cause::Forwarder));
        }
        Ok(Reexport::DLLName { export: tail, lib })
    }

    /// Reads the forwarder whose text is at the file offset `offset`, as [`Reexport::parse`]. But a
    /// text with more than `longest` bytes is cut, as [`pread_str_within`] cuts it; `None` is no
    /// limit.
    ///
    /// In a text that is cut, the library's name is everything before the first dot, or all if
    /// there is no dot. What follows the dot counts as a name, even if it is empty or begins with
    /// `#`, because an ordinal that is cut would be another ordinal. Library, dot and name together
    /// are then longer than `longest` bytes.
    ///
    /// # Errors
    /// As [`Reexport::parse`] for a text that is not cut; [`Error::Read`] if a text is not UTF-8 up
    /// to the cut.
    pub fn parse_within(
        bytes: &'a [u8],
        offset: usize,
        longest: Option<u32>,
    ) -> Result<Reexport<'a>>
        ensures { Reads forwarder_value result (forwarder_within longest offset) bytes.now }
    {
        Reexport::parse_in(MappedBytes::whole(bytes), offset, longest)
    }

    /// Reads the forwarder whose text is at an offset of what a read at an address sees, as
    /// [`Reexport::parse_within`] does in a file.
    ///
    /// # Errors
    /// As [`Reexport::parse_within`].
    pub fn parse_in(
        part: MappedBytes<'a>,
        offset: usize,
        longest: Option<u32>,
    ) -> Result<Reexport<'a>>
        ensures { let bytes = bytes_in part.entry in
            Reads forwarder_value result (forwarder_within longest offset) bytes }
    {
        let text = part.text_within(offset, longest)?;
        Reexport::of_text(text, is_longer(text, longest))
    }

    /// Reads the forwarder whose text is at the file offset `offset`. The library's name ends at
    /// the first dot. What follows the dot is the export's name, unless it begins with `#`. Then an
    /// optional `+` and the decimal digits of the ordinal follow the `#`.
    ///
    /// # Errors
    /// [`Error::Read`] if there is no text; [`Error::Malformed`] with [`Cause::Forwarder`] if the
    /// text has no dot with something after it, or with [`Cause::ForwarderOrdinal`] if no ordinal
    /// below 2^32 follows the `#`.
    #[tactic(auto, using(crate::proofs::Grammar::by_grammar))]
    pub fn parse(bytes: &'a [u8], offset: usize) -> Result<Reexport<'a>>
        ensures value { Reads forwarder_value result (forwarder_at offset) bytes.now }
        ensures grammar { (text : List ℕ) (f : Forwarder) → (forwarder_of text ≡ Some f)
            ↔ IsForwarder text f }
    {
        Reexport::parse_within(bytes, offset, None)
    }
}

impl<'a> TryFromCtx<'a> for Reexport<'a> {
    ghost Modelled = { Forwarder };

    ghost model = { forwarder_value };

    ghost value_of = { forwarder_in };

    ghost refusal = { λ _ bytes e. (forwarder_at 0).IsCause bytes e };

    ghost within = { forwarder_in-within };

    /// Reads the forwarder at the front of `bytes`, and returns the pair (forwarder, its size in
    /// bytes). The size is that of the text, and of the NUL after it if there is one. The byte
    /// order makes no difference.
    ///
    /// # Errors
    /// As [`Reexport::parse`].
    fn try_from_ctx(bytes: &'a [u8], _endian: Endian) -> Result<(Reexport<'a>, usize)> {
        let text = pread_str(bytes, 0)?;
        let reexport = Reexport::of_text(text, false)?;
        Ok((reexport, (text.len() + 1).min(bytes.len())))
    }
}
