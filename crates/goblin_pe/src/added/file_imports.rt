//! A walk over the imports of a file.

ghost use Rattle.std.specs.Prelude.{◌≡◌, ◌<◌, ◌^◌, ℕ, Bool, IfSome, IsSome, List, find, option_map};
ghost use Rattle.std.specs.{Fn.FnReturnsAt, Iterator.SizeHint.IsWithinCount};
ghost use Rattle.std.specs.Iterator.{UpTo, at_most};
ghost use Rattle.goblin_base.specs.Answers.{Answers, all_of};
ghost use Rattle.readings.specs.{Tests.IsTest, added.Questions.counted, added.Questions.has_any};
ghost use Rattle.goblin_pe_import.specs.{added.ImportWalks.walked_value, Imports.NumberedImport};
ghost use Rattle.goblin_pe_sect.specs.Addresses.{MapOfAddresses, map_of};
ghost use Rattle.goblin_pe.specs.added.Layouts.{GivesFileImport, file_cursor_left, file_map};
ghost use Rattle.goblin_pe.specs.added.Layouts.{GivesFileWithin, IsImportWalk, file_cursor};
ghost use Rattle.goblin_pe.specs.added.Layouts.{IsFileImportsCause, file_imports_bound};
ghost use Rattle.goblin_pe.specs.added.Layouts.{file_imports_left, file_passed};

use crate::added::{ImportCursor, Imports, Passed, WalkedImport};
use goblin_base::ResultOf;
use goblin_pe_sect::address_map::Finder;
use std::iter::FusedIterator;

/// A walk over the imports of a file, library by library and entry by entry. It takes no memory.
/// The entries of its tables have four bytes if the magic is that of PE32, else eight.
///
/// In strict mode, if the import data is refused, the walk yields the imports that come before the
/// damage, then one error, and ends. In permissive mode it yields no error.
#[derive(Debug, Drop)]
pub enum FileImports<'a, 'm, 'e> {
    /// A walk over entries of four bytes.
    Narrow(Imports<'a, 'm, 'e, u32>),
    /// A walk over entries of eight bytes.
    Wide(Imports<'a, 'm, 'e, u64>),
}

impl<'a, 'm, 'e> FileImports<'a, 'm, 'e> {
    /// Where the walk is. [`Layout::imports_at`](crate::added::Layout::imports_at) yields at this
    /// cursor what this walk has yet to yield.
    pub fn cursor(&self) -> ImportCursor
        ensures left { (m : MapOfAddresses) (magic : ℕ) (bytes : List ℕ)
            → IsImportWalk m magic bytes self.now
            → file_imports_left self.now ≡ file_cursor_left m magic bytes result }
        ensures is { result ≡ file_cursor self.now }
    {
        match self {
            FileImports::Narrow(imports) => imports.cursor(),
            FileImports::Wide(imports) => imports.cursor(),
        }
    }

    /// What the walk has passed over since it was made. After an error, what it says is not known.
    pub fn passed(&self) -> Passed
        ensures { result ≡ file_passed self.now }
    {
        match self {
            FileImports::Narrow(imports) => imports.passed(),
            FileImports::Wide(imports) => imports.passed(),
        }
    }

    /// The next import within a budget of steps, as
    /// [`Imports::next_within`](crate::added::Imports::next_within) returns it. Each step looks at
    /// one slot of a lookup table, at one import descriptor of the directory, or at 64 slots of an
    /// address table.
    ///
    /// `None` means one of two things. If the [`cursor`](FileImports::cursor) is at the end, so is
    /// the walk. Else the budget has run out.
    #[inline(always)]
    #[tactic(auto, using(crate::proofs::added::ImportStarts::narrow_within, crate::proofs::added::ImportStarts::wide_within))]
    pub fn next_within(
        &mut self,
        steps: &mut Option<usize>,
    ) -> Option<ResultOf<'e, WalkedImport<'a>>>
        ensures { GivesFileWithin self.old steps.old result self.new steps.new }
    {
        match self {
            FileImports::Narrow(imports) => imports.next_within(steps),
            FileImports::Wide(imports) => imports.next_within(steps),
        }
    }

    /// Whether one of the imports that are still to come passes a test. The walk goes on after the
    /// first that does, because a later one may be refused.
    ///
    /// # Errors
    /// In strict mode the error that ends the walk, if one does.
    pub fn any_import<F: Fn(&WalkedImport<'a>) -> bool>(self, test: F) -> ResultOf<'e, bool>
        requires { F.IsAlwaysCallable test }
        ensures { (p : NumberedImport → Bool) → IsTest walked_value (FnReturnsAt F.Fn test) p
            → Answers (λ b. b) result
            (option_map (has_any p) (all_of (file_imports_left self.entry)))
            (IsFileImportsCause self.entry) }
    {
        let found = self.find_import(test)?;
        Ok(found.is_some())
    }

    /// How many of the imports that are still to come pass a test. The count stops at `usize::MAX`,
    /// because few bytes can list very many imports.
    ///
    /// # Errors
    /// In strict mode the error that ends the walk, if one does.
    pub fn count_imports<F: Fn(&WalkedImport<'a>) -> bool>(self, test: F) -> ResultOf<'e, usize>
        requires { F.IsAlwaysCallable test }
        ensures { (p : NumberedImport → Bool) → IsTest walked_value (FnReturnsAt F.Fn test) p
            → Answers (λ n. n) result
            (option_map (counted p) (all_of (file_imports_left self.entry)))
            (IsFileImportsCause self.entry) }
    {
        let mut count = 0usize;
        'imports: for import in self {
            let import = import?;
            if test(&import) {
                count = count.saturating_add(1);
            }
        }
        Ok(count)
    }

    /// The first of the imports still to come that passes a test, or `None` if none does. The walk
    /// goes on after it, because a later one may be refused.
    ///
    /// # Errors
    /// In strict mode the error that ends the walk, if one does.
    pub fn find_import<F: Fn(&WalkedImport<'a>) -> bool>(
        self,
        test: F,
    ) -> ResultOf<'e, Option<WalkedImport<'a>>>
        requires { F.IsAlwaysCallable test }
        ensures { (p : NumberedImport → Bool) → IsTest walked_value (FnReturnsAt F.Fn test) p
            → Answers (option_map walked_value) result
            (option_map (find p) (all_of (file_imports_left self.entry)))
            (IsFileImportsCause self.entry) }
    {
        let mut found = None;
        'imports: for import in self {
            let import = import?;
            if found.is_none() && test(&import) {
                found = Some(import);
            }
        }
        Ok(found)
    }

    /// A copy of the walk's finder of file offsets, with the addresses that it has at hand.
    #[inline(always)]
    pub fn finder(&self) -> Finder<'m>
        ensures { map_of result ≡ file_map self.now }
    {
        match self {
            FileImports::Narrow(imports) => imports.finder(),
            FileImports::Wide(imports) => imports.finder(),
        }
    }
}

impl<'a, 'm, 'e> Iterator for FileImports<'a, 'm, 'e> {
    type Item = ResultOf<'e, WalkedImport<'a>>;

    ghost next_gives = { GivesFileImport };

    ghost remaining = { λ it. at_most (file_imports_bound it) };

    #[inline(always)]
    #[tactic(auto, using(crate::proofs::added::ImportStarts::file_given))]
    fn next(&mut self) -> Option<ResultOf<'e, WalkedImport<'a>>> {
        self.next_within(&mut None)
    }

    fn size_hint(&self) -> (usize, Option<usize>)
        ensures lower { IsWithinCount result.0 (at_most (file_imports_bound self.now)) }
        ensures upper { IfSome result.1 (UpTo (at_most (file_imports_bound self.now))) }
        ensures fits { file_imports_bound self.now < 2 ^ 64 → IsSome result.1 }
        ensures least { result.0 ≡ 0 }
        ensures most { IfSome result.1 (λ n. n ≡ file_imports_bound self.now) }
    {
        match self {
            FileImports::Narrow(imports) => imports.size_hint(),
            FileImports::Wide(imports) => imports.size_hint(),
        }
    }
}

impl<'a, 'm, 'e> FusedIterator for FileImports<'a, 'm, 'e> {}
