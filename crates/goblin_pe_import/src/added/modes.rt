//! Walks over imports and libraries in strict and in permissive mode.

ghost use Rattle.std.specs.Prelude.{◌≡◌, false, true};
ghost use Rattle.goblin_pe_sect.specs.Addresses.{map_of, reads_strictly};
ghost use Rattle.goblin_base.specs.Answers.{all_of};
ghost use Rattle.goblin_pe_import.specs.Passed.Count.{Skipped};
ghost use Rattle.goblin_pe_import.specs.added.ImportCursors.{BeginsAt, first_import};
ghost use Rattle.goblin_pe_import.specs.added.Libraries.{AreLibrariesAt, entries_by};
ghost use Rattle.goblin_pe_import.specs.added.Libraries.{libraries_ahead, libraries_left, tested_at};
ghost use Rattle.goblin_pe_import.specs.added.WholeReads.{AreWhole, SkipsLeftOut};

use crate::added::imports::{ImportCursor, Imports};
use crate::added::library_walk::Libraries;
use crate::import::Bitfield;
use goblin_base::ResultOf;
use goblin_pe_sect::address_map::{AddressMap, Finder};
use goblin_pe_sect::data_directories::DataDirectory;

/// Begins a walk over the imports of one directory in strict mode, and one in permissive mode. The
/// two maps have the same sections and differ in the mode.
///
/// The strict walk has no error exactly if the permissive walk skips nothing, as
/// [`Imports::passed`] says at its end, and the name of each library and of each import by name can
/// be read. One exception: permissive mode skips a directory at file offset 0 as a whole, whatever
/// strict mode says of it.
pub fn mode_imports<'a, 'm, 'e, T: Bitfield<'a>>(
    bytes: &'a [u8],
    directory: DataDirectory,
    strict: &'m AddressMap,
    permissive: &'m AddressMap,
) -> (
    ResultOf<'e, Imports<'a, 'm, 'e, T>>,
    ResultOf<'e, Imports<'a, 'm, 'e, T>>,
)
    ensures begin { let m = map_of strict.now in
        let n = map_of permissive.now in
        let rva = directory.virtual_address in
        BeginsAt m bytes.now (first_import (reads_strictly m) m.addressing rva) result.0
        × BeginsAt n bytes.now (first_import (reads_strictly n) n.addressing rva) result.1 }
    ensures whole { let m = map_of strict.now in
        let n = map_of permissive.now in
        reads_strictly m ≡ true → reads_strictly n ≡ false → n.addressing ≡ m.addressing
        → AreWhole T.format m.addressing bytes.now directory.virtual_address result.0 result.1 }
{
    let strictly = Imports::of(bytes, directory, strict);
    let permissively = Imports::of(bytes, directory, permissive);
    (strictly, permissively)
}

/// Begins a walk over the libraries at one cursor in strict mode, and one in permissive mode. The
/// maps of both finders have the same sections and differ in the mode. The cursor is before an
/// import descriptor, of whose address table nothing has been tested.
///
/// The permissive walk skips the libraries whose
/// [`is_left_out`](crate::added::WalkedLibrary::is_left_out) is true, and one more exactly if the
/// strict walk has an error.
pub fn mode_libraries<'a, 'm>(
    bytes: &'a [u8],
    at: ImportCursor,
    is_narrow: bool,
    strict: Finder<'m>,
    permissive: Finder<'m>,
) -> (Libraries<'a, 'm>, Libraries<'a, 'm>)
    ensures begin { let format = entries_by is_narrow in
        AreLibrariesAt (map_of strict.entry) format bytes.now at result.0
        × AreLibrariesAt (map_of permissive.entry) format bytes.now at result.1 }
    ensures whole { let m = map_of strict.entry in
        let n = map_of permissive.entry in
        reads_strictly m ≡ true → reads_strictly n ≡ false → n.addressing ≡ m.addressing
        → tested_at at ≡ None → SkipsLeftOut (libraries_ahead result.1 Skipped) (all_of (libraries_left result.0))
        (all_of (libraries_left result.1)) }
{
    let strictly = Libraries::at_cursor(bytes, at, is_narrow, strict);
    let permissively = Libraries::at_cursor(bytes, at, is_narrow, permissive);
    (strictly, permissively)
}
