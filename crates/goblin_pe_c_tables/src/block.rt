//! The base relocation blocks of an image, in batches.

ghost use Rattle.std.specs.Prelude.{◌≡◌, ◌+◌, ◌<◌, ◌≤◌, ◌^◌, MatchResult, length};
ghost use Rattle.goblin_pe_sect.specs.BaseRelocations.{block_value, relocation_bytes};
ghost use Rattle.goblin_pe.specs.declared.whole.Part.TheVariants.{Read};
ghost use Rattle.goblin_pe_c_tables.specs.Batches.{GivesBlocks, GivesBlocksIn, IsBlockCause};
ghost use Rattle.goblin_pe_c_tables.specs.Batches.{IsBlocksFault, block_for_c, blocks_from};
ghost use Rattle.goblin_pe_c_headers.specs.Onward.{batch_at, IsRefusedNext};

use crate::batch::{Batched, at_room, skip_table};
use goblin_pe::added::Layout;
use goblin_pe::relocation::{RelocationBlock, RelocationData};
use goblin_pe::{Part, ResultOf};
use goblin_pe_c_headers::batch::{PeBatch, ended, goes_on};
use goblin_pe_c_headers::cursor::PeBaseRelocationCursor;

/// A block of base relocations, for one page.
#[repr(C)]
#[derive(Copy, Clone)]
pub struct PeRelocationBlock {
    /// The RVA of the page.
    pub rva: usize,
    /// The size of the block, with the 8 bytes of its header.
    pub size: u32,
    /// Zero.
    pub reserved: u32,
    /// Where its base relocations begin.
    pub relocations: PeBaseRelocationCursor,
}

// The record of a block at a file offset.
fn block_record(block: &RelocationBlock, place: usize) -> PeRelocationBlock
    requires { place + block.now.size < 2 ^ 63 }
    ensures { result ≡ block_for_c (place, block_value block.now) }
{
    let page_rva = block.rva as usize;
    PeRelocationBlock {
        rva: page_rva,
        size: block.size,
        reserved: 0,
        relocations: PeBaseRelocationCursor {
            offset: place + 8,
            end: place + block.size as usize,
            page_rva,
        },
    }
}

// Fills records with the blocks from an offset of their directory on, as far as there is room,
// leaves in `position` where the next one begins, and answers what it did. The directory begins at
// the offset `begin` of the file's bytes.
fn fill_blocks<'a, 'e>(
    bytes: &'a [u8],
    relocations: &RelocationData<'a>,
    begin: usize,
    position: &mut usize,
    records: &mut [PeRelocationBlock],
) -> ResultOf<'e, PeBatch>
    requires { begin + length (relocation_bytes relocations.now) ≤ length bytes.now }
    ensures { let p = Read (relocation_bytes relocations.now) in
        let old = batch_at position.old records.old in
        let new = batch_at position.new records.new in
        MatchResult result (GivesBlocksIn begin p old new)
        (λ e. IsRefusedNext (blocks_from begin p position.old) × IsBlockCause position.old p e
        × (0 < length old.records) × (new ≡ old)) }
{
    let mut count = 0;
    let mut offset = *position; // (a place behind a pointer is stored for each block)
    'items: while count < records.len() {
        match relocations.block_at(offset) {
            Some(Ok(block)) => {
                records[count] = block_record(&block, begin + offset);
                offset += block.size as usize;
                count += 1;
            }
            Some(Err(error)) if count == 0 => return Err(error),
            Some(Err(_)) => {
                *position = offset;
                return Ok(goes_on(count));
            }
            None => {
                *position = offset;
                return Ok(ended(count));
            }
        }
    }
    *position = offset;
    Ok(goes_on(count))
}

impl<'a> Batched<'a> for PeRelocationBlock {
    type Position = usize;

    ghost gives = { λ before after. GivesBlocks };

    ghost is_fault = { IsBlocksFault };

    fn next<'e>(
        layout: &Layout<'a>,
        position: &mut usize,
        _steps: &mut usize,
        records: &mut [PeRelocationBlock],
    ) -> ResultOf<'e, PeBatch> {
        let (offset, relocations) = layout.placed_relocations();
        match relocations? {
            Part::Read(relocations) => {
                let begin = offset.unwrap_or(0);
                fill_blocks(layout.bytes(), &relocations, begin, position, records)
            }
            Part::Absent => Ok(at_room(records.len(), 0, 0, true)),
            Part::Refused => Ok(skip_table(position, records.len())),
        }
    }
}
