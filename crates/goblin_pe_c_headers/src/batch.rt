//! What a call of a walk did.

ghost use Rattle.std.specs.Prelude.{◌≡◌, false, true};
ghost use Rattle.goblin_pe_c_headers.specs.Onward.{batch_of, rows_given};

/// What a call of a walk did. The numbers are of this call alone: add them up. After a fault, and
/// with room 0, they are 0.
#[repr(C)]
#[derive(Copy, Clone)]
pub struct PeBatch {
    /// How many records the call gave.
    pub count: usize,
    /// How many entries permissive mode skipped. Strict mode refuses these, or of a library its
    /// imports. A record whose name can't be read does not count. If the table is skipped as a
    /// whole, the call that begins the walk counts 1.
    pub skipped: usize,
    /// How many entries lead nowhere. Neither mode gives a record for them, nor a fault.
    pub unmapped: usize,
    /// Whether to stop: nothing is left, or the call returned a fault. If it is false, there is no
    /// more room, or no steps are left, or what comes next is refused.
    pub is_done: bool,
    pub reserved: [u8; 7],
}

/// A batch with these numbers.
#[inline(always)]
pub fn batch_of(count: usize, skipped: usize, unmapped: usize, is_done: bool) -> PeBatch
    ensures { result ≡ batch_of count skipped unmapped is_done }
{
    let reserved = [0; 7];
    PeBatch {
        count,
        skipped,
        unmapped,
        is_done,
        reserved,
    }
}

/// A batch of `count` records that is not the last, and counts nothing else.
#[inline(always)]
pub fn goes_on(count: usize) -> PeBatch
    ensures { result ≡ rows_given count false }
{
    batch_of(count, 0, 0, false)
}

/// The batch where it is.
#[inline(always)]
pub fn ended(count: usize) -> PeBatch
    ensures { result ≡ rows_given count true }
{
    batch_of(count, 0, 0, true)
}
