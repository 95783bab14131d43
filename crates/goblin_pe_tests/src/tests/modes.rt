//! Readers in both modes, under two tables of sections, and of two files at once.

use super::rows::RECORD;
use super::sample::{COFF_HEADER, OfSample, are_both_samples, are_samples, has_tables, is_section};
use fixture::sample::{
    ALIGNMENT, EXPORTS, IMPORTS, LOOKUP, TABLE, directory, in_mode, put_all, sample,
    sample_section, sample_with, section,
};
use goblin_base::{CauseOf, ErrorOf, ParseMode, ResultOf};
use goblin_pe::import::{Import, ImportData, ImportDirectoryEntry};
use goblin_pe::laws::{
    PartsOf, Request, TablesOf, mode_header, mode_tables, mode_whole, reorder_whole_tables,
    twin_parts,
};
use goblin_pe::options::{ParseOptions, RawPointerRule};
use goblin_pe::{Part, Whole};
use goblin_pe_sect::DataDirectory;
use goblin_pe_sect::relocation::RelocationData;
use std::alloc::Global;

/// The bytes of the sample file's library name.
const NAME: DataDirectory = DataDirectory {
    virtual_address: 0x1080,
    size: 5,
};

/// Where the tables of the sample file lie. The name's bytes are read as base relocations, too, and
/// the import record as a value.
const REQUEST: Request = Request {
    lookup: LOOKUP,
    imports: IMPORTS,
    exports: EXPORTS,
    relocations: NAME,
    value: IMPORTS,
    name: 0x1080,
};

/// Whether a file has the sample's imports and exports by this rule.
fn has_tables_by(alloc: Global, file: &[u8], rule: RawPointerRule) -> bool {
    let opts = ParseOptions::default().with_raw_pointer_rule(rule);
    matches!(&Whole::read(alloc, file, &opts), Ok(whole) if has_tables(whole))
}

/// Whether strict mode refuses a file in which permissive mode reads no table.
fn has_no_tables(alloc: Global, file: &[u8]) -> bool {
    matches!(
        &Whole::read(alloc, file, &in_mode(ParseMode::Strict)),
        Err(_)
    ) && matches!(
            &Whole::read(alloc, file, &in_mode(ParseMode::Permissive)),
            Ok(whole) if lacks_tables(whole)
        )
}

fn lacks_tables(whole: &Whole) -> bool {
    matches!((&whole.imports, &whole.exports), (Part::Read(rows), Part::Refused) if rows.is_empty())
}

#[test]
fn a_raw_pointer_is_rounded_by_a_rule(rt: HostRuntime) {
    let file = sample_with(0x14C, b"\x10\x02");
    assert!(rt; has_tables_by(rt.alloc(), &file, RawPointerRule::RoundedTo512));
    assert!(rt; has_no_tables(rt.alloc(), &file));
}

#[test]
fn both_modes_read_the_same_header(rt: HostRuntime) {
    let file = sample();
    let headers = mode_header(&file, &ParseOptions::default());
    assert!(rt; matches!(&headers, (Ok(strict), Ok(permissive)) if strict == permissive));
}

#[test]
fn both_modes_read_the_same_file(rt: HostRuntime) {
    let file = sample();
    assert!(rt; are_samples(mode_whole(rt.alloc(), &file, &ParseOptions::default())));
}

/// Whether an answer is the sample file's.
fn is_read<'e, A: OfSample>(answer: &ResultOf<'e, A>) -> bool {
    matches!(answer, Ok(value) if value.is_sample())
}

impl OfSample for RelocationData<'_> {
    /// No whole block: they are the bytes of a name.
    fn is_sample(&self) -> bool {
        matches!(self.blocks().next(), Some(Err(_)))
    }
}

impl OfSample for ImportDirectoryEntry {
    fn is_sample(&self) -> bool {
        *self == RECORD
    }
}

impl OfSample for TablesOf<'_, '_, ImportDirectoryEntry> {
    fn is_sample(&self) -> bool {
        is_read(&self.lookup)
            && is_read(&self.imports)
            && is_read(&self.exports)
            && is_read(&self.relocations)
            && matches!(&self.name, Ok(Some("a.dll")))
            && is_read(&self.value)
    }
}

#[test]
fn sections_may_stand_in_any_order(rt: HostRuntime) {
    let file = sample();
    let first = [sample_section(), section(0x3000, 0x100, 0x100, 0x100)];
    let second = [section(0x3000, 0x100, 0x100, 0x100), sample_section()];
    assert!(rt;
        are_both_samples(reorder_whole_tables::<u32, ImportDirectoryEntry>(
            rt.alloc(),
            &file,
            &first,
            &second,
            &REQUEST,
            ALIGNMENT,
            &ParseOptions::default(),
        ))
    );
}

/// What the readers make of a file with an import directory at its front.
trait OfFront<'a> {
    /// Whether the imports are one by the ordinal 1.
    fn has_one(&self, alloc: Global, file: &'a [u8]) -> bool;

    /// Whether there are none.
    fn has_none(&self) -> bool;
}

impl<'a> OfFront<'a> for TablesOf<'a, '_, ImportDirectoryEntry> {
    fn has_one(&self, alloc: Global, file: &'a [u8]) -> bool {
        matches!(&self.imports, Ok(data) if is_front_listed(alloc, file, data))
    }

    fn has_none(&self) -> bool {
        matches!(&self.imports, Ok(data) if data.import_data.is_empty())
    }
}

/// Whether only the first of them has that import. It takes them, as `are_samples` does.
fn has_first_alone<'a, A: OfFront<'a> + Drop>(alloc: Global, file: &'a [u8], both: (A, A)) -> bool {
    both.0.has_one(alloc, file) && both.1.has_none()
}

fn is_front_import(imports: &[Import]) -> bool {
    matches!(imports, [import]
        if (&import.name[..], import.dll, import.offset) == ("ORDINAL 1", "x", 0x1028))
}

fn is_front_listed<'a>(alloc: Global, file: &'a [u8], data: &ImportData<'a>) -> bool {
    let sections = [section(0x1000, 0x200, 0x200, 0)];
    let read = Import::parse::<u32>(alloc, file, data, &sections);
    matches!(&read, Ok(imports) if is_front_import(imports))
}

/// A file with an import directory at its front.
fn front_file() -> [u8; 0x40] {
    let mut file = [0; 0x40];
    put_all(
        &mut file,
        &[
            (0x00, b"\x28\x10"),
            (0x0C, b"\x30\x10\x00\x00\x28\x10"),
            (0x28, b"\x01\x00\x00\x80"),
            (0x30, b"x"),
        ],
    );
    file
}

#[test]
fn permissive_mode_has_no_imports_from_the_front_of_the_file(rt: HostRuntime) {
    let file = front_file();
    let sections = [section(0x1000, 0x200, 0x200, 0)];
    let request = Request {
        imports: directory(0x1000, 0),
        ..REQUEST
    };
    let opts = ParseOptions::default();
    let tables = mode_tables::<u32, ImportDirectoryEntry>(
        rt.alloc(),
        &file,
        &sections,
        &request,
        ALIGNMENT,
        &opts,
    );
    assert!(rt; has_first_alone(rt.alloc(), &file, tables));
}

/// Whether these are the sample file's headers: without a DOS header its first four bytes are the
/// signature, and the section's name says that less was stripped than a Terse Executable's header.
fn are_headers(parts: &PartsOf<ImportDirectoryEntry>) -> bool {
    matches!(&parts.header, Ok(header) if header.signature == 0x5A4D)
        && matches!(&parts.sections, Ok(sections) if is_section(sections))
        && matches!(&parts.te, Err(ErrorOf::Malformed(CauseOf::StrippedSize(0))))
}

impl OfSample for PartsOf<'_, '_, ImportDirectoryEntry> {
    fn is_sample(&self) -> bool {
        are_headers(self)
            && matches!((&self.symbols, &self.strings), (Ok(None), Ok(None)))
            && is_read(&self.relocations)
            && is_read(&self.value)
    }
}

#[test]
fn single_tables_of_two_files_are_what_their_readers_give(rt: HostRuntime) {
    let (file, again) = (sample(), sample());
    assert!(rt;
        are_both_samples(twin_parts::<ImportDirectoryEntry>(
            rt.alloc(),
            &file,
            &again,
            COFF_HEADER,
            TABLE,
            NAME,
            IMPORTS,
            &[sample_section()],
            ALIGNMENT,
            &ParseOptions::default(),
        ))
    );
}
