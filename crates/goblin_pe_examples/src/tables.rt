//! Short calls of one table each.

ghost use Rattle.std.specs.Prelude.{◌≡◌, ◌↔◌, ◌*◌, [], IfOk, IsTrue, count_by, length, slice_get};
ghost use Rattle.std.specs.List.{Contains};
ghost use Rattle.goblin_pe.specs.sect.AddressReadings.{data_at};
ghost use Rattle.goblin_pe.specs.base.Answers.{IsSliceFault, Writes};
ghost use Rattle.goblin_pe.specs.sect.BaseRelocations.{block_items, relocation_bytes, word_items};
ghost use Rattle.goblin_pe.specs.head.CoffHeader.{coff_fields, coff_header};
ghost use Rattle.goblin_pe.specs.sect.DataDirectories.{present_from};
ghost use Rattle.goblin_pe.specs.added.Layouts.{read_or};
ghost use Rattle.goblin_pe.specs.sect.Mapping.{file_offset};
ghost use Rattle.goblin_pe.specs.sect.Options.{default_options, mapping_by};
ghost use Rattle.goblin_pe.specs.base.Reading.{Reads, ReadsOrMemory};
ghost use Rattle.goblin_pe.specs.base.Record.{ReadsBack, encoding, record_over};
ghost use Rattle.goblin_pe.specs.sect.Relocations.{relocations_left};
ghost use Rattle.goblin_pe.specs.symbol.Symbols.{symbol_bytes, symbols_in};
ghost use Rattle.goblin_pe.specs.declared.endian.Endian.{Endian};
ghost use Rattle.goblin_pe.specs.declared.error.CauseOf.TheVariants.{Message};
ghost use Rattle.goblin_pe.specs.declared.error.ErrorOf.TheVariants.{Malformed};
ghost use Rattle.goblin_pe_examples.specs.Counts.{import_count, leads_to_forwarder};
ghost use Rattle.goblin_pe_examples.specs.Counts.{rich_entry_count};

use goblin_pe::data_directories::{DataDirectories, DataDirectory};
use goblin_pe::export::{
    ExportAddressTable, ExportAddressTableEntry, ExportNamePointerTable, ExportOrdinalTable,
};
use goblin_pe::header::{CoffHeader, RichHeader};
use goblin_pe::options::{ParseMode, ParseOptions};
use goblin_pe::relocation::{RelocationBlock, RelocationData, Relocations};
use goblin_pe::section_table::SectionTable;
use goblin_pe::symbol::{Symbol, SymbolTable};
use goblin_pe::table::*;
use goblin_pe::utils::get_data;
use goblin_pe::{Cause, Endian, Error, Part, Result, ResultOf, TryFromCtx, Whole};
use std::alloc::Global;

/// How many blocks there are. If bytes that are no block are left over, their error counts, too.
pub fn count_blocks(relocations: &RelocationData) -> usize
    ensures { result ≡ length (block_items (relocation_bytes relocations.now) 0) }
{
    relocations.blocks().count()
}

/// How many words a block has. If a byte is left over, its error counts, too.
pub fn count_words(block: &RelocationBlock) -> usize
    ensures { result ≡ length (word_items block.now.bytes.now) }
{
    block.words().count()
}

/// How many relocations are left.
pub fn count_relocations(relocations: Relocations) -> usize
    ensures { result ≡ length (relocations_left relocations.entry) }
{
    relocations.count()
}

/// How many symbols a table has, without the auxiliary records.
pub fn count_symbols(table: &SymbolTable) -> usize
    ensures { result ≡ length (symbols_in (symbol_bytes table.now)) }
{
    table.iter().count()
}

/// How many data directories are present, of those that have a kind.
pub fn count_directories(directories: &DataDirectories) -> usize
    ensures { result ≡ length (present_from 0 directories.now.data_directories) }
{
    directories.dirs().count()
}

/// How many entries a file's Rich header has, or `None` if there is no Rich header. If bytes that
/// are no entry are left over, their error counts, too.
///
/// # Errors
/// As [`RichHeader::parse`].
pub fn count_entries(bytes: &[u8]) -> Result<Option<usize>>
    ensures { Reads (λ n. n) result rich_entry_count bytes.now }
{
    match RichHeader::parse(bytes)? {
        Some(rich) => Ok(Some(rich.metadatas().count())),
        None => Ok(None),
    }
}

/// How many functions a file imports in permissive mode, which passes over damaged parts. The count
/// is 0 if the imports are absent or refused.
///
/// # Errors
/// As [`Whole::read`] in permissive mode.
pub fn count_imports(alloc: Global, bytes: &[u8]) -> Result<usize>
    ensures { ReadsOrMemory (λ n. n) result import_count bytes.now }
{
    let opts = ParseOptions::default().with_parse_mode(ParseMode::Permissive);
    let whole = Whole::read(alloc, bytes, &opts)?;
    Ok(imports_in(&whole))
}

/// How many imports were read; 0 if none were.
fn imports_in(whole: &Whole) -> usize
    ensures { result ≡ read_or 0 length whole.now.imports }
{
    match &whole.imports {
        Part::Read(imports) => imports.len(),
        _ => 0,
    }
}

/// A refusal with a text of the caller.
pub fn refusal(text: &'static str) -> Error
    ensures { result ≡ Malformed (Message text.entry) }
{
    Error::Malformed(Cause::Message(text))
}

/// The value at an address in an image with a file alignment of 512. It may be of any type that is
/// read from bytes.
///
/// # Errors
/// As [`get_data`].
pub fn value_at<'a, 'e, T: TryFromCtx<'a>>(
    bytes: &'a [u8],
    sections: &[SectionTable],
    virtual_address: u32,
) -> ResultOf<'e, T>
    ensures { let m = file_offset (mapping_by default_options) sections.now 0x200 in
        Reads T.model result (data_at m T.value_of T.refusal virtual_address) bytes.now }
{
    let directory = DataDirectory {
        virtual_address,
        size: 0,
    };
    let value = get_data(bytes, sections, directory, 0x200)?;
    Ok(value)
}

/// Writes a COFF header to the front of `bytes`, in little-endian byte order, and returns its size.
///
/// # Errors
/// As [`CoffHeader::try_into_ctx`].
pub fn write_header(header: CoffHeader, bytes: &mut [u8]) -> Result<usize>
    ensures size { IfOk result (λ n. n ≡ 20) }
    ensures written { let after = record_over 20 (encoding Endian.Little (coff_fields header))
        bytes.old in
        Writes result after bytes.old bytes.new (IsSliceFault bytes.old 0 20) }
    ensures again { IfOk result (λ n. ReadsBack 20 coff_header coff_fields header) }
{
    header.try_into_ctx(bytes, Endian::Little)
}

/// The size of `count` symbol table records, in bytes.
pub fn symbols_size(count: u32) -> usize
    ensures { result ≡ 18 * count }
{
    Symbol::size_with(&Endian::Little) * count as usize
}

/// How many addresses of a table lead to forwarders.
pub fn count_forwarders(table: &ExportAddressTable) -> usize
    ensures { result ≡ count_by leads_to_forwarder table.now }
{
    table
        .iter()
        .filter(|entry| matches!(entry, ExportAddressTableEntry::ForwarderRVA(_)))
        .count()
}

/// The name pointer at `index`, or `None` if the table has none there.
pub fn name_pointer(table: &ExportNamePointerTable, index: usize) -> Option<u32>
    ensures { result ≡ slice_get table.now index }
{
    if index < table.len() {
        Some(table[index])
    } else {
        None
    }
}

/// Whether a table has this ordinal.
pub fn has_ordinal(table: &ExportOrdinalTable, ordinal: u16) -> bool
    ensures { IsTrue result ↔ Contains table.now ordinal }
{
    table.iter().any(|entry| *entry == ordinal)
}

/// Whether nothing is exported by name.
pub fn is_without_names(table: &ExportNamePointerTable) -> bool
    ensures { IsTrue result ↔ (table.now ≡ []) }
{
    table.is_empty()
}
