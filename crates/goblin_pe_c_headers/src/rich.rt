//! The entries of the Rich header, in batches.

ghost use Rattle.std.specs.Prelude.{◌≡◌, ◌<◌, ◌^◌, IfOk, MatchResult, length, slice_get};
ghost use Rattle.goblin_base.specs.{Reading.Reads, Tables.records_in};
ghost use Rattle.goblin_pe_head.specs.RichMetadata.{metadata_at};
ghost use Rattle.goblin_pe_c_headers.specs.Onward.{batch_at};
ghost use Rattle.goblin_pe_c_headers.specs.RichHeaders.{GivesEntries, GivesEntriesOf};
ghost use Rattle.goblin_pe_c_headers.specs.RichHeaders.{HeaderIsWalked, IsRefusedEntry};
ghost use Rattle.goblin_pe_c_headers.specs.RichHeaders.{RichIsWalked, is_rest, rich_stretch};

use crate::batch::{PeBatch, batch_of, ended, goes_on};
use crate::image::{PeImage, PeRichHeader};
use goblin_base::read::pread_slice;
use goblin_base::{Endian, Error, ReadFault, Result, field_u32};
use goblin_pe_head::header::RichMetadata;

// The size of an entry, in bytes.
const SIZE: usize = 8;

// The size of a marker, in bytes.
const MARKER_SIZE: usize = 4;

// The entries of a Rich header, as stored: what lies between the padding and the marker Rich.
fn stretch_of<'a>(bytes: &'a [u8], rich: &PeRichHeader) -> Result<&'a [u8]>
    ensures value { Reads (λ s. s.now) result (rich_stretch rich.now) bytes.now }
    ensures short { IfOk result (λ s. length s.now < 2 ^ 63) }
{
    let begin = rich.start_offset as usize + MARKER_SIZE + rich.padding_size as usize;
    let end = rich.end_offset as usize;
    if end <= begin {
        return Ok(&bytes[..0]);
    }
    Ok(pread_slice(bytes, begin, end - begin)?)
}

// The entry that these bytes are, which are stored under a key.
fn entry_of(bytes: &[u8], key: u32) -> RichMetadata
    requires { length bytes.now ≡ 8 }
    ensures { result ≡ metadata_at key bytes.now 0 }
{
    let tool = field_u32(bytes, 0, Endian::Little) ^ key;
    let use_count = field_u32(bytes, 4, Endian::Little) ^ key;
    RichMetadata {
        build: (tool & 0xFFFF) as u16,
        product: (tool >> 16) as u16,
        use_count,
    }
}

#[tactic(auto, using(crate::proofs::GivenOnward::record_inside, crate::proofs::GivenOnward::record_outside))]
fn entry_at(key: u32, stretch: &[u8], index: usize) -> Option<RichMetadata>
    ensures { result ≡ slice_get (records_in 8 (λ e. metadata_at key e 0) stretch.now) index }
{
    if stretch.len() / SIZE <= index {
        return None;
    }
    let begin = SIZE * index;
    Some(entry_of(&stretch[begin..begin + SIZE], key))
}

// Whether bytes that are no whole entry are at this index.
fn is_rest(stretch: &[u8], index: usize) -> bool
    ensures { result ≡ is_rest stretch.now index }
{
    stretch.len() / SIZE == index && !stretch.len().is_multiple_of(SIZE)
}

// Fills records with entries from the index `position` on, as far as there is room, and moves the
// index past them. Bytes that are no whole entry are refused when they come first.
fn fill_entries(
    key: u32,
    stretch: &[u8],
    position: &mut usize,
    records: &mut [RichMetadata],
) -> Result<PeBatch>
    requires { length stretch.now < 2 ^ 63 }
    ensures { let old = batch_at position.old records.old in
        let new = batch_at position.new records.new in
        MatchResult result (GivesEntriesOf key stretch.now old new)
        (λ e. IsRefusedEntry key stretch.now old e × (new ≡ old)) }
{
    let mut index = *position;
    'records: for count in 0..records.len() {
        let Some(entry) = entry_at(key, stretch, index) else {
            let has_rest = is_rest(stretch, index);
            if has_rest && count == 0 {
                return Err(Error::Read(ReadFault::TooBig));
            }
            *position = index;
            return Ok(batch_of(count, 0, 0, !has_rest));
        };
        records[count] = entry;
        index = index.wrapping_add(1); // (an entry is there, so the index is not the greatest)
    }
    *position = index;
    Ok(goes_on(records.len()))
}

/// Gives the next entries of the Rich header.
///
/// # Errors
/// Read if the entries run past the end of the file, or the last bytes are no whole entry; nothing
/// but `batch` is then changed.
#[tactic(auto, using(crate::proofs::RichWalks::rich_is_walked, crate::proofs::RichWalks::header_is_walked))]
pub fn next_entries(
    image: &PeImage,
    position: &mut usize,
    records: &mut [RichMetadata],
    batch: &mut PeBatch,
) -> Result<()>
    ensures given { GivesEntries image.now (batch_at position.old records.old)
        (batch_at position.new records.new) batch.new result }

    // The entries of a Rich header that was read are its own.
    ensures found { RichIsWalked }
    ensures read { HeaderIsWalked }
{
    *batch = ended(0);
    let stretch = stretch_of(image.bytes, &image.rich_header)?;
    *batch = fill_entries(image.rich_header.key, stretch, position, records)?;
    Ok(())
}
