//! The calls that walk over exports and the export address table, and read the export directory and
//! forwarders.

ghost use Rattle.std.specs.Prelude.{◌≡◌, ◌≢◌, Some, length};
ghost use Rattle.goblin_pe_c_headers.specs.Calls.{ReadsWithout, ReportedAfter};
ghost use Rattle.goblin_pe_c_headers.specs.{Faults.options_fault, Onward.batch_at};
ghost use Rattle.goblin_pe_c_headers.specs.Options.{longest_of};
ghost use Rattle.goblin_pe_c_tables.specs.Batches.{GivesAddresses, GivesBatch, GivesExports};
ghost use Rattle.goblin_pe_c_tables.specs.Batches.{IsAddressesFault, IsExportBatchFault};
ghost use Rattle.goblin_pe_c_tables.specs.Batches.{SaysDirectory, WalksOver};
ghost use Rattle.goblin_pe_c_tables.specs.ExportDirectories.{directory_model};
ghost use Rattle.goblin_pe_c_tables.specs.Exports.{forwarder_at_address, forwarder_for_c};
ghost use Rattle.goblin_pe_c_tables.specs.Exports.{forwarder_model};
ghost use Rattle.goblin_pe_c_tables.specs.Steps.{SpendsSteps, walk_fault};

use goblin_pe_c_headers::batch::PeBatch;
use goblin_pe_c_headers::cursor::{PeExportAddressCursor, PeExportCursor};
use goblin_pe_c_headers::fault::{PeFault, refused_call, status_of};
use goblin_pe_c_headers::image::PeImage;
use goblin_pe_c_tables::batch::walk;
use goblin_pe_c_tables::export::PeExport;
use goblin_pe_c_tables::export_directory::{PeExportAddress, PeExportDirectory, give_directory};
use goblin_pe_c_tables::forwarder::{PeForwarder, read_forwarder};
use goblin_pe_c_tables::steps::refused_walk;

/// Gives the next exports that have a name pointer, in the order of these. Counts steps: one for
/// each name pointer.
///
/// `unmapped` counts name pointers without an ordinal, with an ordinal past the address table, and
/// with a forwarder that can't be read.
///
/// Faults: STEPS; in strict mode a damaged export directory; else as `goblin_pe_next_imports`.
#[unsafe(no_mangle)]
pub extern "C" fn goblin_pe_raw_next_exports<'a>(
    image: &PeImage<'a>,
    cursor: &mut PeExportCursor,
    exports: &mut [PeExport<'a>],
    steps: &mut usize,
    batch: &mut PeBatch,
) -> PeFault
    ensures given { let old = batch_at cursor.old.index exports.old in
        let new = batch_at cursor.new.index exports.new in
        let refusal = walk_fault image.now (length exports.old) steps.old in
        SpendsSteps image.now steps.old steps.new (λ looks left.
        WalksOver refusal result image.now (GivesExports looks left) IsExportBatchFault old new
        batch.new) }
    ensures kept { result.status ≢ 0 → steps.new ≡ steps.old }
{
    let refusal = refused_walk(image, exports.len(), *steps);
    walk::<PeExport>(image, refusal, &mut cursor.index, exports, steps, batch)
}

/// Reads the export directory table. It is not present if the image has none, or if permissive mode
/// skips a damaged one.
///
/// Faults: in strict mode a damaged export directory (too many name pointers are no damage here);
/// else as `goblin_pe_next_imports`, but no STEPS.
#[unsafe(no_mangle)]
pub extern "C" fn goblin_pe_raw_read_export_directory<'a>(
    image: &PeImage<'a>,
    directory: &mut PeExportDirectory<'a>,
) -> PeFault
    ensures { ReportedAfter (options_fault image.now.options) result
        (directory.new ≡ directory.old)
        (GivesBatch image.now
        (λ m places. SaysDirectory m places image.now.bytes.now (directory_model directory.new))
        (λ m places. IsAddressesFault m places image.now.bytes.now)
        (directory.new ≡ directory.old)) }
{
    let refusal = refused_call(&image.options);
    if refusal.status != 0 {
        return refusal;
    }
    status_of(give_directory(image, directory))
}

/// Gives the next entries of the export address table: all ordinals, also those without a name.
///
/// Faults: as `goblin_pe_read_export_directory`.
#[unsafe(no_mangle)]
pub extern "C" fn goblin_pe_raw_next_export_addresses<'a>(
    image: &PeImage<'a>,
    cursor: &mut PeExportAddressCursor,
    addresses: &mut [PeExportAddress],
    batch: &mut PeBatch,
) -> PeFault
    ensures { let old = batch_at cursor.old.index addresses.old in
        let new = batch_at cursor.new.index addresses.new in
        WalksOver (options_fault image.now.options) result image.now GivesAddresses
        (λ m places bytes _. IsAddressesFault m places bytes) old new batch.new }
{
    let refusal = refused_call(&image.options);
    let position = &mut cursor.index;
    walk::<PeExportAddress>(image, refusal, position, addresses, &mut 0, batch)
}

/// Reads the forwarder whose text is at an RVA.
///
/// Faults: UNMAPPED; READ if there is no text; FORWARDER and FORWARDER_ORDINAL; OPTIONS.
#[unsafe(no_mangle)]
pub extern "C" fn goblin_pe_raw_forwarder_at<'a>(
    image: &PeImage<'a>,
    rva: usize,
    forwarder: &mut PeForwarder<'a>,
) -> PeFault
    ensures { ReportedAfter (options_fault image.now.options) result
        (forwarder.new ≡ forwarder.old)
        (ReadsWithout (forwarder_at_address image.now rva) image.now.bytes.now
        (λ f. forwarder_model forwarder.new
        ≡ forwarder_for_c (longest_of image.now.options) (Some f))
        (forwarder.new ≡ forwarder.old)) }
{
    let refusal = refused_call(&image.options);
    if refusal.status != 0 {
        return refusal;
    }
    status_of(read_forwarder(image, rva, forwarder))
}
