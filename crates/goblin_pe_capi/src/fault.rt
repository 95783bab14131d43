//! The call that gives the text of a refusal.

ghost use Rattle.std.specs.Prelude.{◌≡◌, ◌≤◌, List, ℕ, length};
ghost use Rattle.goblin_pe_c_headers.specs.{Faults.IsTextOf, Filled.Filled};

use goblin_pe_c_headers::fault::{PeFault, put_text, text_of};

/// Writes the text of the refusal with these numbers, as far as there is room, and answers how long
/// the whole text is, 160 bytes at most; 0 where the numbers are of no refusal. The whole text is
/// the refusal's, or one that was cut and ends in three dots. It takes no memory.
#[unsafe(no_mangle)]
pub extern "C" fn goblin_pe_raw_fault_text(fault: &PeFault, text: &mut [u8]) -> usize
    ensures text { (whole : List ℕ) × IsTextOf fault.now whole × (result ≡ length whole)
        × Filled (λ b. b) whole text.old text.new }
    ensures short { result ≤ 160 }
{
    let whole = text_of(fault);
    put_text(text, whole.as_str().as_bytes())
}
