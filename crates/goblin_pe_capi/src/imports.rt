//! The calls that walk over imports and libraries.

ghost use Rattle.std.specs.Prelude.{◌≡◌, ◌≢◌, length};
ghost use Rattle.goblin_pe_c_headers.specs.{Onward.batch_at};
ghost use Rattle.goblin_pe_c_tables.specs.Batches.{GivesImports, IsImportsFault, WalksOver};
ghost use Rattle.goblin_pe_c_tables.specs.Libraries.{GivesLibraries, IsLibrariesFault};
ghost use Rattle.goblin_pe_c_tables.specs.Libraries.{LibrariesEnd, LibrariesSum};
ghost use Rattle.goblin_pe_c_tables.specs.Steps.{SpendsSteps, walk_fault};

use goblin_pe_c_headers::batch::PeBatch;
use goblin_pe_c_headers::fault::PeFault;
use goblin_pe_c_headers::image::PeImage;
use goblin_pe_c_tables::batch::walk;
use goblin_pe_c_tables::import::PeImport;
use goblin_pe_c_tables::library::PeLibrary;
use goblin_pe_c_tables::next::PeImportCursor;
use goblin_pe_c_tables::steps::refused_walk;

/// Gives the next imports, in the order of the import directory. Counts steps.
///
/// `skipped` counts libraries without an address table, imports whose hint can't be read, tables
/// that the file cuts short, and a directory that is skipped as a whole, each once. `unmapped`
/// counts imports whose name has no offset.
///
/// As a loader maps, a hint or a name ends where its section does in memory. The tables of imports
/// do not: they are read on in the file.
///
/// Faults: STEPS; in strict mode damage, after the imports that come before it; READ if the file
/// has no room for the section headers; OPTIONS.
#[unsafe(no_mangle)]
pub extern "C" fn goblin_pe_raw_next_imports<'a>(
    image: &PeImage<'a>,
    cursor: &mut PeImportCursor,
    imports: &mut [PeImport<'a>],
    steps: &mut usize,
    batch: &mut PeBatch,
) -> PeFault
    ensures given { let old = batch_at cursor.old imports.old in
        let new = batch_at cursor.new imports.new in
        let refusal = walk_fault image.now (length imports.old) steps.old in
        SpendsSteps image.now steps.old steps.new (λ looks left.
        WalksOver refusal result image.now (GivesImports looks left) IsImportsFault old new
        batch.new) }
    ensures kept { result.status ≢ 0 → steps.new ≡ steps.old }
{
    let refusal = refused_walk(image, imports.len(), *steps);
    walk::<PeImport>(image, refusal, cursor, imports, steps, batch)
}

/// Gives the next libraries: one for each entry of the import directory, also the skipped ones,
/// which `skipped` counts. A walk over the imports of such a library does not count it again. So
/// this walk and those over the imports of its rows count together what one walk over all imports
/// counts. Counts steps: one for each library, and one more for each 64 entries of its address
/// table.
///
/// Faults: as `goblin_pe_next_imports`. In strict mode the walk ends with a fault where the file
/// ends before the import directory does.
#[unsafe(no_mangle)]
#[tactic(auto, using(goblin_pe_c_tables::proofs::LibraryEnds::libraries_end, goblin_pe_c_tables::proofs::LibraryEnds::libraries_sum))]
pub extern "C" fn goblin_pe_raw_next_libraries<'a>(
    image: &PeImage<'a>,
    cursor: &mut PeImportCursor,
    libraries: &mut [PeLibrary<'a>],
    steps: &mut usize,
    batch: &mut PeBatch,
) -> PeFault
    ensures given { let old = batch_at cursor.old libraries.old in
        let new = batch_at cursor.new libraries.new in
        let refusal = walk_fault image.now (length libraries.old) steps.old in
        SpendsSteps image.now steps.old steps.new (λ looks left.
        WalksOver refusal result image.now (GivesLibraries looks left) IsLibrariesFault old new
        batch.new) }
    ensures kept { result.status ≢ 0 → steps.new ≡ steps.old }
    ensures ends { LibrariesEnd }
    ensures sums { LibrariesSum }
{
    let refusal = refused_walk(image, libraries.len(), *steps);
    walk::<PeLibrary>(image, refusal, cursor, libraries, steps, batch)
}
