//! A table in batches: as many of its records as there is room for, from where a caller left off.

ghost use Rattle.std.specs.Prelude.{◌≡◌, ◌≢◌, MatchResult, OnErr, ℕ};
ghost use Rattle.goblin_pe.specs.added.Layouts.{layout_bytes, layout_map, layout_places};
ghost use Rattle.goblin_pe_c_tables.specs.Batches.{SaysBatch, SaysRefused, WalksOver, after_skip};
ghost use Rattle.goblin_pe_c_tables.specs.Batches.{at_room, skip_batch};
ghost use Rattle.goblin_pe_c_headers.specs.Onward.{batch_at};
ghost use Rattle.goblin_pe_c_tables.specs.Steps.{SpendsSteps};

use crate::places::layout_of;
use crate::steps::{looks_for, steps_after};
use goblin_pe::ResultOf;
use goblin_pe::added::Layout;
use goblin_pe_c_headers::batch::{PeBatch, batch_of, ended};
use goblin_pe_c_headers::fault::{PeFault, fault_of, no_fault};
use goblin_pe_c_headers::image::PeImage;

/// A record of a table that comes in batches.
pub trait Batched<'a>: Sized {
    /// Where the next batch begins.
    type Position;

    /// How many looks there may be and are left, what a batch holds, as its caller passes it and as
    /// it is filled, where the next one begins, and what is said of it.
    ghost gives: { ℕ → ℕ → SaysBatch Self.Position Self };

    /// Why a batch is refused.
    ghost is_fault: { SaysRefused Self.Position Self };

    /// Fills records with those of a file that come next, as far as there is room, leaves in
    /// `position` where the others come, and answers what it did. A table whose entries may give no
    /// record takes a step for each look. If it is refused, all stays.
    fn next<'e>(
        layout: &Layout<'a>,
        position: &mut Self::Position,
        steps: &mut usize,
        records: &mut [Self],
    ) -> ResultOf<'e, PeBatch>
        ensures filled { let m = layout_map layout.now in
            let places = layout_places layout.now in
            let bytes = layout_bytes layout.now in
            let old = batch_at position.old records.old in
            let new = batch_at position.new records.new in
            MatchResult result (gives steps.old steps.new m places bytes old new)
            (λ e. is_fault m places bytes old e × (new ≡ old)) }
        ensures kept { OnErr result (steps.new ≡ steps.old) };
}

// What a call says that gave `count` records: without room it does not say that it is done.
#[inline(always)]
pub(crate) fn at_room(room: usize, count: usize, unmapped: usize, is_done: bool) -> PeBatch
    ensures { result ≡ at_room room count unmapped is_done }
{
    batch_of(count, 0, unmapped, is_done && room != 0)
}

// What a call says of a table that is skipped as a whole. It counts where the walk begins, if there
// is room; the walk is then at its end.
pub(crate) fn skip_table(position: &mut usize, room: usize) -> PeBatch
    ensures batch { result ≡ skip_batch position.old room }
    ensures moved { position.new ≡ after_skip position.old room }
{
    let begins = *position == 0 && room != 0;
    if begins {
        *position = usize::MAX;
    }
    batch_of(0, usize::from(begins), 0, room != 0)
}

/// Fills `records` with those of an image that come next, as many as there is room for, says in
/// `batch` what it did, and leaves in `position` where the next call goes on. A table that takes
/// steps makes as many looks as they allow. With a fault for `refusal` the call is refused by that.
///
/// After a fault only `batch` is changed.
pub fn walk<'a, T: Batched<'a>>(
    image: &PeImage<'a>,
    refusal: PeFault,
    position: &mut T::Position,
    records: &mut [T],
    steps: &mut usize,
    batch: &mut PeBatch,
) -> PeFault
    ensures given { let old = batch_at position.old records.old in
        let new = batch_at position.new records.new in
        SpendsSteps image.now steps.old steps.new (λ looks left.
        WalksOver refusal result image.now (T.gives looks left) T.is_fault old new batch.new) }
    ensures kept { result.status ≢ 0 → steps.new ≡ steps.old }
{
    *batch = ended(0);
    if refusal.status != 0 {
        return refusal;
    }
    let layout = match layout_of(image) {
        Ok(layout) => layout,
        Err(error) => return fault_of(&error),
    };
    let mut left = looks_for(image, *steps);
    match T::next(&layout, position, &mut left, records) {
        Ok(given) => {
            *batch = given;
            *steps = steps_after(image, *steps, left);
            no_fault()
        }
        Err(error) => fault_of(&error),
    }
}
