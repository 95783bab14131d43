//! From which libraries a file imports.

ghost use Rattle.std.specs.Prelude.{IfErr, IsSomeAnd, false, option_map, true};
ghost use Rattle.goblin_pe.specs.base.Answers.{Answers, IsMemory, all_of};
ghost use Rattle.goblin_pe.specs.added.Layouts.{layout_table, read_or};
ghost use Rattle.goblin_pe.specs.head.HeaderReadings.{pe_header};
ghost use Rattle.goblin_pe.specs.added.Layouts.{IsFileImportsCause, file_imports_left};
ghost use Rattle.goblin_pe.specs.added.Layouts.{layout_bytes};
ghost use Rattle.goblin_pe.specs.base.Reading.{Reads, ReadsOrMemory};
ghost use Rattle.goblin_pe.specs.readings.Reads.{mapped};
ghost use Rattle.goblin_pe.specs.added.Layouts.{TakesIndex};
ghost use Rattle.goblin_pe.specs.readings.added.Questions.{counted, has_any};
ghost use Rattle.goblin_pe.specs.Whole.{import_list};
ghost use Rattle.goblin_pe_examples.specs.Audits.{imports_from, is_from};

use goblin_pe::added::{FileImports, Layout};
use goblin_pe::header::Header;
use goblin_pe::options::ParseOptions;
use goblin_pe::{Part, Result, ResultOf};
use std::alloc::Global;

/// Whether a file, read in strict mode, imports something from the library of this name. The case
/// of the name counts.
///
/// # Errors
/// As [`Header::parse`], [`Layout::of`], [`Layout::imports`] and the walk over the imports.
/// `Memory` only if the file has more than 96 sections.
pub fn imports_from(alloc: Global, bytes: &[u8], library: &str) -> Result<bool>
    ensures value { ReadsOrMemory (λ b. b) result (imports_from library.now) bytes.now }
    ensures grown { IfErr result (λ e. IsMemory e → IsSomeAnd ((pe_header true).value bytes.now)
        TakesIndex) }
{
    let opts = ParseOptions::default();
    let header = Header::parse(bytes)?;
    let layout = Layout::of(alloc, bytes, &header, &opts)?;
    layout_imports_from(&layout, library)
}

/// Whether a layout has an import from the library of this name. The walk goes on after the first
/// one, because a later import may be refused.
fn layout_imports_from<'e>(layout: &Layout, library: &str) -> ResultOf<'e, bool>
    ensures { Reads (λ b. b) result
        (mapped (read_or false (has_any (is_from library.now)))
        (layout_table import_list layout.now)) (layout_bytes layout.now) }
{
    match layout.imports()? {
        Part::Absent => Ok(false),
        Part::Read(imports) => {
            let found = any_from(imports, library)?;
            Ok(found)
        }
        Part::Refused => Ok(false),
    }
}

// Whether a walk yields an import from the library of this name.
fn any_from<'a, 'm, 'e>(imports: FileImports<'a, 'm, 'e>, library: &str) -> ResultOf<'e, bool>
    ensures { Answers (λ b. b) result
        (option_map (has_any (is_from library.now)) (all_of (file_imports_left imports.entry)))
        (IsFileImportsCause imports.entry) }
{
    imports.any_import(|import| import.dll == library)
}

/// How many functions a file imports from the library of this name. The count stops at
/// `usize::MAX`, because few bytes can list very many imports. It is 0 if the imports are absent or
/// refused.
///
/// # Errors
/// As [`Layout::imports`], and in strict mode as the walk over the imports.
pub fn count_imports_from<'e>(layout: &Layout, library: &str) -> ResultOf<'e, usize>
    ensures { Reads (λ n. n) result
        (mapped (read_or 0 (counted (is_from library.now))) (layout_table import_list layout.now))
        (layout_bytes layout.now) }
{
    match layout.imports()? {
        Part::Absent => Ok(0),
        Part::Read(imports) => {
            let count = count_from(imports, library)?;
            Ok(count)
        }
        Part::Refused => Ok(0),
    }
}

// How many imports from the library of this name a walk yields.
fn count_from<'a, 'm, 'e>(imports: FileImports<'a, 'm, 'e>, library: &str) -> ResultOf<'e, usize>
    ensures { Answers (λ n. n) result
        (option_map (counted (is_from library.now)) (all_of (file_imports_left imports.entry)))
        (IsFileImportsCause imports.entry) }
{
    imports.count_imports(|import| import.dll == library)
}
