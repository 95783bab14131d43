//! Runs of ASCII, found sixteen bytes at a time.

ghost use Rattle.std.specs.Prelude.{◌≡◌, ◌⊎◌, ◌<◌, ◌≤◌, ◌*◌, ◌/◌, ℕ, IfSome, IsTrue, None, length};
ghost use Rattle.std.specs.Prelude.{slice_index};

use std::simd::prelude::*;

// How many of the first 16 bytes come before the first one that is a NUL or is not ASCII. `None` if
// there is no such byte among them.
#[inline(always)]
fn stop_in_lanes(bytes: &[u8]) -> Option<usize>
    requires { 16 ≤ length bytes.now }
    ensures none { result ≡ None → (k : ℕ) → k < 16
        → (0 < slice_index bytes.now k) × (slice_index bytes.now k < 128) }
    ensures within { IfSome result (λ run. run < 16) }
    ensures ascii { IfSome result (λ run. (k : ℕ) → k < run
        → (0 < slice_index bytes.now k) × (slice_index bytes.now k < 128)) }
    ensures stops { IfSome result (λ run. (slice_index bytes.now run ≡ 0)
        ⊎ (128 ≤ slice_index bytes.now run)) }
{
    let marks = (u8x16::from_slice(bytes) - u8x16::splat(1))
        .simd_ge(u8x16::splat(127))
        .to_bitmask();
    if marks == 0 {
        None
    } else {
        Some(marks.trailing_zeros() as usize)
    }
}

// Whether a byte is ASCII and not a NUL.
fn is_nonzero_ascii(byte: u8) -> bool
    ensures yes { IsTrue result → (0 < byte) × (byte < 128) }
    ensures no { ¬ (IsTrue result) → (byte ≡ 0) ⊎ (128 ≤ byte) }
{
    0 < byte && byte < 128
}

// How many bytes come before the first one that is a NUL or is not ASCII. Only whole lanes of 16
// bytes, counted from the front, are searched. `None` if they have no such byte.
#[inline(always)]
fn first_stop(bytes: &[u8]) -> Option<usize>
    ensures none { result ≡ None → (k : ℕ) → k < length bytes.now / 16 * 16
        → (0 < slice_index bytes.now k) × (slice_index bytes.now k < 128) }
    ensures within { IfSome result (λ run. run < length bytes.now) }
    ensures ascii { IfSome result (λ run. (k : ℕ) → k < run
        → (0 < slice_index bytes.now k) × (slice_index bytes.now k < 128)) }
    ensures stops { IfSome result (λ run. (slice_index bytes.now run ≡ 0)
        ⊎ (128 ≤ slice_index bytes.now run)) }
{
    let mut at = 0;
    'lanes: while 16 <= bytes.len() - at {
        if let Some(run) = stop_in_lanes(&bytes[at..]) {
            return Some(at + run);
        }
        at += 16;
    }
    None
}

// How many bytes come before the first NUL, if they are all ASCII and the NUL lies in a whole lane.
// `None` says nothing about the bytes.
#[inline(always)]
pub(crate) fn run_in_lanes(bytes: &[u8]) -> Option<usize>
    ensures within { IfSome result (λ run. run < length bytes.now) }
    ensures ascii { IfSome result (λ run. (k : ℕ) → k < run
        → (0 < slice_index bytes.now k) × (slice_index bytes.now k < 128)) }
    ensures stops { IfSome result (λ run. slice_index bytes.now run ≡ 0) }
{
    match first_stop(bytes) {
        Some(run) if bytes[run] == 0 => Some(run),
        _ => None,
    }
}

// How many bytes come before the first NUL, or before the end if there is no NUL, if they are all
// ASCII. `None` if one of them is not ASCII.
#[inline(always)]
pub(crate) fn ascii_run(bytes: &[u8]) -> Option<usize>
    ensures within { IfSome result (λ run. run ≤ length bytes.now) }
    ensures ascii { IfSome result (λ run. (k : ℕ) → k < run
        → (0 < slice_index bytes.now k) × (slice_index bytes.now k < 128)) }
    ensures stops { IfSome result (λ run. run < length bytes.now → slice_index bytes.now run ≡ 0) }
{
    let mut at = match first_stop(bytes) {
        Some(run) if bytes[run] == 0 => return Some(run),
        Some(_) => return None,
        None => bytes.len() / 16 * 16,
    };
    'bytes: while at < bytes.len() && is_nonzero_ascii(bytes[at]) {
        at += 1;
    }
    if at < bytes.len() && bytes[at] != 0 {
        return None;
    }
    Some(at)
}
