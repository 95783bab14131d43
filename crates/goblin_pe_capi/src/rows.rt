//! The calls that walk over sections, Rich entries, symbols, and the relocations of one section or
//! block. A row is a record of the file, so they look at as many as there is room for.

ghost use Rattle.std.specs.Prelude.{◌≡◌};
ghost use Rattle.goblin_pe_c_headers.specs.{Calls.ReadsWithout, Calls.Reported, Faults.no_fault};
ghost use Rattle.goblin_pe_c_headers.specs.{Options.longest_of, Relocations.all_relocations};
ghost use Rattle.goblin_pe_c_headers.specs.{Sections.ReadsSections, Words.GivesWords};
ghost use Rattle.goblin_pe_c_headers.specs.Onward.{GivesOnward, no_batch, batch_at};
ghost use Rattle.goblin_pe_c_headers.specs.RichHeaders.{GivesEntries, HeaderIsWalked, RichIsWalked};
ghost use Rattle.goblin_pe_c_headers.specs.Symbols.{FindsTables, GivesSymbols, NamesOfText};
ghost use Rattle.goblin_pe_c_headers.specs.Symbols.{found_tables};

use goblin_pe::header::RichMetadata;
use goblin_pe::relocation::Relocation;
use goblin_pe_c_headers::batch::PeBatch;
use goblin_pe_c_headers::cursor::{
    PeBaseRelocationCursor, PeCoffRelocationCursor, PeRichCursor, PeSectionCursor, PeSymbolCursor,
};
use goblin_pe_c_headers::fault::{PeFault, no_fault, status_of};
use goblin_pe_c_headers::image::PeImage;
use goblin_pe_c_headers::relocation::next_relocations;
use goblin_pe_c_headers::rich::next_entries;
use goblin_pe_c_headers::section::{PeSection, next_sections};
use goblin_pe_c_headers::symbol::{PeSymbol, next_symbols};
use goblin_pe_c_headers::word::{PeBaseRelocation, next_words};

/// Gives the next section headers. Never faults on a name: a read of the image has tested them, and
/// after a fault a bad one is its eight bytes.
///
/// Faults: READ if the file has no room for `image.section_count` headers.
#[unsafe(no_mangle)]
pub extern "C" fn goblin_pe_raw_next_sections<'a>(
    image: &PeImage<'a>,
    cursor: &mut PeSectionCursor,
    sections: &mut [PeSection<'a>],
    batch: &mut PeBatch,
) -> PeFault
    ensures { let old = batch_at cursor.old.index sections.old in
        let new = batch_at cursor.new.index sections.new in
        Reported result (ReadsSections image.now old new batch.new) }
{
    status_of(next_sections(image, &mut cursor.index, sections, batch))
}

/// Gives the next entries of the Rich header.
///
/// Faults: READ if the entries run past the end of the file, or the last bytes are no whole entry.
#[unsafe(no_mangle)]
#[tactic(auto, using(goblin_pe_c_headers::proofs::RichWalks::rich_is_walked, goblin_pe_c_headers::proofs::RichWalks::header_is_walked))]
pub extern "C" fn goblin_pe_raw_next_rich_entries(
    image: &PeImage,
    cursor: &mut PeRichCursor,
    entries: &mut [RichMetadata],
    batch: &mut PeBatch,
) -> PeFault
    ensures given { let old = batch_at cursor.old.index entries.old in
        let new = batch_at cursor.new.index entries.new in
        Reported result (GivesEntries image.now old new batch.new) }
    ensures found { RichIsWalked }
    ensures read { HeaderIsWalked }
{
    status_of(next_entries(image, &mut cursor.index, entries, batch))
}

/// Gives the next symbols of an image or an object, and steps over their auxiliary records.
///
/// Faults: a file that is too short for the symbol table or the string table; COFF_LENGTH.
#[unsafe(no_mangle)]
pub extern "C" fn goblin_pe_raw_next_symbols<'a>(
    image: &PeImage<'a>,
    cursor: &mut PeSymbolCursor,
    symbols: &mut [PeSymbol<'a>],
    batch: &mut PeBatch,
) -> PeFault
    ensures given { let old = batch_at cursor.old.index symbols.old in
        let new = batch_at cursor.new.index symbols.new in
        Reported result
        (ReadsWithout (found_tables image.now.coff_header) image.now.bytes.now
        (λ t. GivesSymbols (longest_of image.now.options) t.0 t.1 old new batch.new)
        ((new ≡ old) × (batch.new ≡ no_batch))) }
    ensures same { FindsTables }
    ensures names { NamesOfText }
{
    status_of(next_symbols(image, &mut cursor.index, symbols, batch))
}

/// Gives the next relocations of a section of an object. If the section has more than 65,535, the
/// first one holds their number, and is none itself: the cursor of the section's row is after it.
///
/// Faults: READ if the file is too short for them.
#[unsafe(no_mangle)]
pub extern "C" fn goblin_pe_raw_next_coff_relocations(
    image: &PeImage,
    cursor: &mut PeCoffRelocationCursor,
    relocations: &mut [Relocation],
    batch: &mut PeBatch,
) -> PeFault
    ensures given { let old = batch_at cursor.old.index relocations.old in
        let new = batch_at cursor.new.index relocations.new in
        Reported result
        (ReadsWithout (all_relocations cursor.old) image.now.bytes.now
        (λ all. GivesOnward all old new batch.new)
        ((new ≡ old) × (batch.new ≡ no_batch))) }
    ensures table { cursor.new ≡ record (cursor.old) { index = cursor.new.index } }
{
    status_of(next_relocations(image, cursor, relocations, batch))
}

/// Gives the next base relocations of a block. A last odd byte is no relocation. Never faults.
#[unsafe(no_mangle)]
pub extern "C" fn goblin_pe_raw_next_base_relocations(
    image: &PeImage,
    cursor: &mut PeBaseRelocationCursor,
    relocations: &mut [PeBaseRelocation],
    batch: &mut PeBatch,
) -> PeFault
    ensures given { let old = batch_at cursor.old relocations.old in
        let new = batch_at cursor.new relocations.new in
        GivesWords image.now.bytes.now old new batch.new }
    ensures none { result ≡ no_fault }
{
    *batch = next_words(image, cursor, relocations);
    no_fault()
}
