//! The calls for texts of the string table, and for auxiliary records.

ghost use Rattle.std.specs.Prelude.{◌≡◌};
ghost use Rattle.goblin_pe_c_headers.specs.Auxiliary.{AuxiliaryModel, auxiliary_kind};
ghost use Rattle.goblin_pe_c_headers.specs.Auxiliary.{auxiliary_number};
ghost use Rattle.goblin_pe_c_headers.specs.{Found.Puts, Images.slice_model, Symbols.string_at};
ghost use Rattle.goblin_pe_c_headers.specs.Options.{longest_of};

use goblin_pe_c_headers::auxiliary::{PeAuxiliary, read_auxiliary};
use goblin_pe_c_headers::found::put_found;
use goblin_pe_c_headers::image::{PeImage, PeSlice, slice_record};
use goblin_pe_c_headers::symbol::{PeSymbol, string_at};

/// Sets `text` to the text at an offset of the string table, up to a NUL. A text that is longer
/// than `options.longest_name` ends with the character that passes the limit. The offset counts
/// from the table's length field, as stored offsets do.
///
/// Returns whether there is one, and it is UTF-8.
#[unsafe(no_mangle)]
#[tactic(auto, using(goblin_pe_c_headers::proofs::Puts::puts_model))]
pub extern "C" fn goblin_pe_raw_string_at<'a>(
    image: &PeImage<'a>,
    offset: usize,
    text: &mut PeSlice<'a>,
) -> bool
    ensures { Puts slice_model result (string_at image.now offset) text.old text.new }
{
    put_found(text, slice_record(string_at(image, offset)))
}

/// Reads the auxiliary records of a symbol, and returns their kind, one of
/// [`AuxiliaryKind`](goblin_pe_c_headers::auxiliary::AuxiliaryKind). The kind is NONE if the symbol
/// has none, or they are cut, or its class and type name no kind. The raw bytes are in
/// `symbol.auxiliary`.
#[unsafe(no_mangle)]
pub extern "C" fn goblin_pe_raw_read_auxiliary<'a>(
    image: &PeImage<'a>,
    symbol: &PeSymbol<'a>,
    auxiliary: &mut PeAuxiliary<'a>,
) -> u32
    ensures kind { let s = symbol.now in
        result ≡ auxiliary_number (auxiliary_kind s.record s.auxiliary.now) }
    ensures value { let s = symbol.now in
        AuxiliaryModel (longest_of image.now.options) (auxiliary_kind s.record s.auxiliary.now)
        s.auxiliary.now auxiliary.new }
{
    read_auxiliary(&image.options, symbol, auxiliary) as u32
}
