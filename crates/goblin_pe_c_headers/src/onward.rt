//! A list from a position on, as far as there is room.

ghost use Rattle.std.specs.Prelude.{◌≡◌, ◌<◌, ◌^◌, List, length, slice_get};
ghost use Rattle.goblin_pe_c_headers.specs.Onward.{GivesOnward, batch_at};

use crate::batch::{PeBatch, ended, goes_on};

/// Fills records with the items of a list from the index `position` on, as far as there is room,
/// moves the index past them, and answers how many these are and whether they are the last. `item`
/// answers the item at an index, where there is one.
pub fn fill_onward<W: Copy, F: Fn(usize) -> Option<W>>(
    item: F,
    position: &mut usize,
    records: &mut [W],
) -> PeBatch
    requires { (index : _) → F.pre item index }
    ensures { (items : List W) → length items < 2 ^ 64
        → ((index : _) (found : _) → F.post item index found → found ≡ slice_get items index)
        → GivesOnward items (batch_at position.old records.old)
        (batch_at position.new records.new) result }
{
    let mut index = *position;
    'records: for count in 0..records.len() {
        let Some(found) = item(index) else {
            *position = index;
            return ended(count);
        };
        records[count] = found;
        // (an item is there, so the index is not the greatest)
        index = index.wrapping_add(1);
    }
    *position = index;
    goes_on(records.len())
}
