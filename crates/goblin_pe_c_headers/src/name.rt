//! Names that are cut at the limit of the options, as rows have them.

ghost use Rattle.std.specs.Prelude.{◌≡◌, ◌<◌, length, take};
ghost use Rattle.goblin_base.specs.Bytes.{begins_character};
ghost use Rattle.goblin_pe_c_headers.specs.Names.{NamesOfWhole, cut_end, cut_name};

// Whether a byte may begin a character of UTF-8.
fn begins_character(byte: u8) -> bool
    ensures { result ≡ begins_character byte }
{
    byte < 128 || 192 <= byte
}

// The longest front of whole characters that has no more bytes than the limit.
#[inline(never)]
fn front_of(text: &[u8], limit: usize) -> &[u8]
    requires { limit < length text.now }
    ensures { result.now ≡ take (cut_end text.now limit) text.now }
{
    let mut end = limit;
    'bytes: while 0 < end {
        if begins_character(text[end]) {
            return &text[..end];
        }
        end -= 1;
    }
    &text[..0]
}

/// The name that a row has of a text, and whether it is cut.
#[inline(always)]
#[tactic(auto, using(crate::proofs::CutNames::names_of_whole))]
pub fn cut_name(text: &[u8], longest: Option<u32>) -> (&[u8], bool)
    ensures value { (result.0.now, result.1) ≡ cut_name longest text.now }
    ensures whole { NamesOfWhole }
{
    let limit = match longest {
        Some(longest) => longest as usize,
        None => usize::MAX,
    };
    if text.len() <= limit {
        return (text, false);
    }
    (front_of(text, limit), true)
}
