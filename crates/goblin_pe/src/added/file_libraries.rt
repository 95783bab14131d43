//! A walk over the libraries of a file.

ghost use Rattle.std.specs.Prelude.{◌≡◌, IfOk};
ghost use Rattle.goblin_base.specs.Reading.{Reads};
ghost use Rattle.goblin_pe_import.specs.added.Libraries.{AreLibrariesAt, libraries_cursor};
ghost use Rattle.goblin_pe_import.specs.{Passed.nothing_passed, added.Libraries.libraries_passed};
ghost use Rattle.goblin_pe.specs.added.Layouts.{import_begin};
ghost use Rattle.goblin_pe.specs.added.Layouts.{layout_bytes, layout_map, layout_places};
ghost use Rattle.goblin_pe.specs.Whole.{entry_format};

use crate::added::{ImportCursor, Layout, Libraries};
use goblin_base::ResultOf;

impl<'a> Layout<'a> {
    /// A walk over the libraries that the import directory lists, one for each import descriptor.
    /// It also yields the libraries that permissive mode leaves out of the imports, with one
    /// exception: in permissive mode a directory at file offset 0 yields none. The walk is empty if
    /// the file has no import directory, or if the options do not ask for imports. In permissive
    /// mode it is also empty if the directory's address has no file offset. [`Libraries::passed`]
    /// counts what the walk skips, also a directory as a whole.
    ///
    /// [`Layout::imports_at`] gives the imports of each library.
    ///
    /// # Errors
    /// As [`Layout::imports_begin`].
    pub fn libraries<'m, 'e>(&'m self) -> ResultOf<'e, Libraries<'a, 'm>>
        ensures begins { let m = layout_map self.now in
            Reads libraries_cursor result
            (import_begin m.opts m.addressing (layout_places self.now)) (layout_bytes self.now) }
        ensures over { IfOk result (λ it.
            AreLibrariesAt (layout_map self.now) (entry_format (layout_places self.now).magic)
            (layout_bytes self.now) (libraries_cursor it) it) }
        ensures fresh { IfOk result (λ it. libraries_passed it ≡ nothing_passed) }
    {
        let at = self.imports_begin()?;
        Ok(self.libraries_at(at))
    }

    /// A walk over the libraries whose import descriptors come next at a cursor, which
    /// [`Libraries::cursor`] or [`FileImports::cursor`](crate::added::FileImports::cursor)
    /// returned.
    #[tactic(auto, unfolding(crate::specs::Whole::entry_format))]
    pub fn libraries_at<'m>(&'m self, at: ImportCursor) -> Libraries<'a, 'm>
        ensures at { AreLibrariesAt (layout_map self.now)
            (entry_format (layout_places self.now).magic) (layout_bytes self.now) at result }
        ensures fresh { libraries_passed result ≡ nothing_passed }
    {
        let is_narrow = self.places.has_narrow_entries();
        Libraries::at_cursor(self.bytes(), at, is_narrow, self.finder())
    }
}
