//! Tests of address tables, whose numbers are not kept.

ghost use Rattle.std.specs.Prelude.{◌≡◌};
ghost use Rattle.goblin_pe_sect.specs.Addresses.{map_of};
ghost use Rattle.goblin_pe_import.specs.{LookupReadings.address_table};
ghost use Rattle.goblin_pe_import.specs.added.TestedTables.{TestsPiece, tested_slots, tested_table};
ghost use Rattle.goblin_pe_import.specs.Steps.{slots_ahead};

use crate::import::bitfield::{Bitfield, read_entry};
use goblin_base::{Cause, Error, ResultOf};
use goblin_pe_sect::address_map::Finder;

// How many slots of an address table are tested in one step.
const PIECE: usize = 64;

// Tests the next 64 slots of an address table, from the one at an offset on, or those up to its
// end. Returns where the table goes on, if it does.
fn test_slots<'a, 'e, T: Bitfield<'a>>(
    bytes: &'a [u8],
    offset: usize,
) -> ResultOf<'e, Option<usize>>
    ensures { TestsPiece T.format bytes.now (address_table T.format offset)
        (slots_ahead T.format bytes.now (Some offset)) result }
{
    let size = T::size_of();
    let mut place = offset;
    let mut count = 0;
    'slots: while count < PIECE {
        let entry = match read_entry::<T>(bytes, place) {
            Ok(entry) => entry,
            Err(error) => return Err(error),
        };
        if entry.is_zero() {
            return Ok(None);
        }
        place += size;
        count += 1;
    }
    Ok(Some(place))
}

// Tests a piece of the address table at an address: its first slots or, where a part of it has been
// tested, those from `tested` on.
pub(super) fn test_table<'a, 'e, T: Bitfield<'a>>(
    bytes: &'a [u8],
    tested: Option<usize>,
    rva: u32,
    finder: &mut Finder<'_>,
) -> ResultOf<'e, Option<usize>>
    ensures tests { let addressing = (map_of finder.old).addressing in
        TestsPiece T.format bytes.now (tested_table T.format addressing tested rva)
        (tested_slots T.format addressing bytes.now tested rva) result }
    ensures same { finder.new ≡ finder.old }
{
    if let Some(place) = tested {
        return test_slots::<T>(bytes, place);
    }
    let Some(offset) = finder.offset_of(rva) else {
        return Err(Error::Malformed(Cause::Unmapped(rva as usize)));
    };
    test_slots::<T>(bytes, offset)
}
