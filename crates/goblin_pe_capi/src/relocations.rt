//! The call that walks over blocks of base relocations.

ghost use Rattle.goblin_pe_c_headers.specs.{Faults.options_fault, Onward.batch_at};
ghost use Rattle.goblin_pe_c_tables.specs.Batches.{GivesBlocks, IsBlocksFault, WalksOver};

use goblin_pe_c_headers::batch::PeBatch;
use goblin_pe_c_headers::cursor::PeRelocationBlockCursor;
use goblin_pe_c_headers::fault::{PeFault, refused_call};
use goblin_pe_c_headers::image::PeImage;
use goblin_pe_c_tables::batch::walk;
use goblin_pe_c_tables::block::PeRelocationBlock;

/// Gives the next blocks of base relocations.
///
/// Faults: in strict mode a damaged directory; in both modes bytes that are no block, after the
/// blocks before them; else as `goblin_pe_read_export_directory`.
#[unsafe(no_mangle)]
pub extern "C" fn goblin_pe_raw_next_relocation_blocks<'a>(
    image: &PeImage<'a>,
    cursor: &mut PeRelocationBlockCursor,
    blocks: &mut [PeRelocationBlock],
    batch: &mut PeBatch,
) -> PeFault
    ensures { let old = batch_at cursor.old.offset blocks.old in
        let new = batch_at cursor.new.offset blocks.new in
        WalksOver (options_fault image.now.options) result image.now GivesBlocks IsBlocksFault old
        new
        batch.new }
{
    let refusal = refused_call(&image.options);
    let position = &mut cursor.offset;
    walk::<PeRelocationBlock>(image, refusal, position, blocks, &mut 0, batch)
}
