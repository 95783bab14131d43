//! The listing of a file.

ghost use Rattle.std.specs.Prelude.{string_bytes};
ghost use Rattle.goblin_pe.specs.base.Reading.{ReadsOrMemory};
ghost use Rattle.pe_listing.specs.Listing.{listing_of};

use crate::lines::push_whole;
use goblin_pe::options::{ParseMode, ParseOptions};
use goblin_pe::{Error, Whole};
use std::alloc::Global;

/// The listing of a file: a line for the header, for each section, and for each table of the file
/// with its entries.
///
/// # Errors
/// As [`Whole::read`] in this mode.
pub fn list(alloc: Global, bytes: &[u8], mode: ParseMode) -> Result<String, Error>
    ensures { ReadsOrMemory (λ text. string_bytes text) result (listing_of mode) bytes.now }
{
    let opts = ParseOptions::default().with_parse_mode(mode);
    let whole = Whole::read(alloc, bytes, &opts)?;
    let mut text = String::new(alloc);
    push_whole(&mut text, &whole)?;
    Ok(text)
}
