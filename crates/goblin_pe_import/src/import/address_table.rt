//! Import address tables. Their numbers are addresses once an image is bound.
ghost use Rattle.goblin_base.specs.Reading.{ReadsOrMemory};
ghost use Rattle.goblin_pe_import.specs.LookupReadings.{address_table};

use crate::import::bitfield::{Bitfield, read_entry};
use goblin_base::ResultOf;
use goblin_pe_sect::table::Table;
use std::alloc::Global;

/// The numbers of an address table, in order, without the 0 that ends it. In a file as it is
/// linked, they repeat the lookup table. In a bound file, they are the addresses of what is
/// imported.
///
/// Source: PE Format, "Import Address Table".
pub type ImportAddressTable = Table<u64>;

// The numbers of the address table at an offset, up to its zero.
pub(crate) fn address_table<'a, 'e, T: Bitfield<'a>>(
    alloc: Global,
    bytes: &'a [u8],
    offset: usize,
) -> ResultOf<'e, ImportAddressTable>
    ensures { ReadsOrMemory (λ t. t) result (address_table T.format offset) bytes.now }
{
    let size = T::size_of();
    let mut addresses = Vec::new(alloc);
    let mut place = offset;
    'slots: loop {
        let entry = read_entry::<T>(bytes, place)?;
        if entry.is_zero() {
            return Ok(Table::from(addresses));
        }
        addresses.push(entry.number())?;
        place += size;
    }
}
