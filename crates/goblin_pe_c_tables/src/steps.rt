//! The steps of a call.

ghost use Rattle.std.specs.Prelude.{◌≡◌};
ghost use Rattle.goblin_pe_c_tables.specs.Steps.{look_price, looks_for, or_fault, steps_after};
ghost use Rattle.goblin_pe_c_tables.specs.Steps.{steps_fault, walk_fault};

use goblin_pe_c_headers::fault::{PeFault, no_fault, out_of_steps, refused_call};
use goblin_pe_c_headers::image::PeImage;

// A look takes one step for each of these.
const SECTIONS_FOR_A_STEP: usize = 96;

/// The first of two faults, if there is one.
pub(crate) fn or_fault(first: PeFault, second: PeFault) -> PeFault
    ensures { result ≡ or_fault first second }
{
    if first.status == 0 { second } else { first }
}

// How many steps a look takes.
#[inline(always)]
fn look_price(image: &PeImage) -> usize
    ensures { result ≡ look_price image.now }
{
    image.section_count.saturating_sub(1) / SECTIONS_FOR_A_STEP + 1
}

/// How many looks a call with these steps may make: at least one.
#[inline(always)]
pub(crate) fn looks_for(image: &PeImage, steps: usize) -> usize
    ensures { result ≡ looks_for image.now steps }
{
    (steps / look_price(image)).max(1)
}

/// The steps that are left when `left` of these looks are.
#[inline(always)]
pub(crate) fn steps_after(image: &PeImage, steps: usize, left: usize) -> usize
    ensures { result ≡ steps_after image.now steps left }
{
    let looked = looks_for(image, steps).saturating_sub(left);
    steps.saturating_sub(look_price(image).saturating_mul(looked))
}

/// That no steps are left, if there is room.
pub(crate) fn steps_fault(room: usize, steps: usize) -> PeFault
    ensures { result ≡ steps_fault room steps }
{
    if room != 0 && steps == 0 {
        out_of_steps()
    } else {
        no_fault()
    }
}

/// Why a walk that counts steps is refused before it begins.
pub fn refused_walk(image: &PeImage, room: usize, steps: usize) -> PeFault
    ensures { result ≡ walk_fault image.now room steps }
{
    or_fault(refused_call(&image.options), steps_fault(room, steps))
}
