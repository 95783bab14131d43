//! The relocations of a section of an object, in batches.

ghost use Rattle.std.specs.Prelude.{◌≡◌, ◌<◌, ◌^◌, IfOk, length, slice_get};
ghost use Rattle.goblin_base.specs.Reading.{Reads};
ghost use Rattle.goblin_pe_sect.specs.Relocations.{relocations_in};
ghost use Rattle.goblin_pe_c_headers.specs.Calls.{ReadsWithout};
ghost use Rattle.goblin_pe_c_headers.specs.Onward.{GivesOnward, no_batch, batch_at};
ghost use Rattle.goblin_pe_c_headers.specs.Relocations.{all_relocations, record_count};

use crate::batch::{PeBatch, ended};
use crate::cursor::PeCoffRelocationCursor;
use crate::image::PeImage;
use crate::onward::fill_onward;
use goblin_base::read::{pread_slice, pread_u32};
use goblin_base::{Endian, Record, Result};
use goblin_pe_sect::relocation::{COFF_RELOCATION_SIZE, Relocation};

// How many relocations there are: the first one says it if there are more than a section header can
// say.
fn record_count(bytes: &[u8], cursor: &PeCoffRelocationCursor) -> Result<usize>
    ensures value { Reads (λ n. n) result (record_count cursor.now) bytes.now }
    ensures small { IfOk result (λ n. n < 2 ^ 32) }
{
    if !cursor.is_extended {
        return Ok(cursor.count as usize);
    }
    Ok(pread_u32(bytes, cursor.offset as usize, Endian::Little)? as usize)
}

// The bytes of all relocations, 10 for each.
#[tactic(auto, unfolding(crate::specs::Relocations::all_relocations, goblin_base::specs::Tables::records_in))]
fn all_records<'a>(bytes: &'a [u8], cursor: &PeCoffRelocationCursor) -> Result<&'a [u8]>
    ensures value { Reads (λ table. relocations_in table.now) result (all_relocations cursor.now)
        bytes.now }
    ensures short { IfOk result (λ table. length table.now < 2 ^ 63) }
{
    let count = record_count(bytes, cursor)?;
    if count == 0 {
        return Ok(&bytes[..0]);
    }
    Ok(pread_slice(bytes, cursor.offset as usize, COFF_RELOCATION_SIZE * count)?)
}

#[tactic(auto, using(crate::proofs::GivenOnward::record_inside, crate::proofs::GivenOnward::record_outside))]
fn relocation_at(table: &[u8], index: usize) -> Option<Relocation>
    ensures { result ≡ slice_get (relocations_in table.now) index }
{
    if table.len() / COFF_RELOCATION_SIZE <= index {
        return None;
    }
    let begin = COFF_RELOCATION_SIZE * index;
    let record = &table[begin..begin + COFF_RELOCATION_SIZE];
    Some(Relocation::in_record(record, Endian::Little))
}

/// Gives the next relocations of a section of an object. If the section has more than 65,535, the
/// first one holds their number, and is none itself: the cursor of the section's row is after it.
///
/// # Errors
/// Read if the file is too short for them; nothing but `batch` is then changed.
pub fn next_relocations(
    image: &PeImage,
    cursor: &mut PeCoffRelocationCursor,
    records: &mut [Relocation],
    batch: &mut PeBatch,
) -> Result<()>
    ensures given { let old = batch_at cursor.old.index records.old in
        let new = batch_at cursor.new.index records.new in
        ReadsWithout (all_relocations cursor.old) image.now.bytes.now
        (λ all. GivesOnward all old new batch.new)
        ((new ≡ old) × (batch.new ≡ no_batch)) result }
    ensures table { cursor.new ≡ record (cursor.old) { index = cursor.new.index } }
{
    *batch = ended(0);
    let table = all_records(image.bytes, cursor)?;
    *batch = fill_onward(|i| relocation_at(table, i), &mut cursor.index, records);
    Ok(())
}
