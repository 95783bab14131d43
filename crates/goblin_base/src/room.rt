//! Room in a list whose length is not known when it is begun.

ghost use Rattle.std.specs.Prelude.{◌≡◌, ◌<◌, OnOk, vec_capacity, vec_len};

use std::alloc::AllocError;

// The least number of items for which a list gets room, if it has items already, or if none are
// expected.
const LEAST_MORE: usize = 32;

/// Makes room for one more item, if the list has none.
///
/// An empty list gets room for as many items as are expected. If the list has items, or if none are
/// expected, it gets room for half as many more as it has, but at least for 32 more.
///
/// # Errors
/// If memory is refused.
#[inline]
pub fn make_room<T: Drop>(items: &mut Vec<T>, expected: usize) -> Result<(), AllocError>
    ensures kept { items.new.items ≡ items.old.items }
    ensures spare { OnOk result (vec_len items.new < vec_capacity items.new) }
{
    let count = items.len();
    if count == items.capacity() {
        let more = if count == 0 && expected > 0 {
            expected
        } else {
            LEAST_MORE.max(count / 2)
        };
        items.reserve_exact(more)?;
    }
    Ok(())
}
