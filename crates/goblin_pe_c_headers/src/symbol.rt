//! The symbols of an image or an object.

ghost use Rattle.std.specs.Prelude.{◌≡◌, ◌+◌, ◌/◌, ◌<◌, ◌≤◌, IfSome, None, length, option_map};
ghost use Rattle.goblin_base.specs.{Reading.Reads, Strtab.is_in_piece};
ghost use Rattle.goblin_pe_head.specs.CoffHeader.{symbols_end};
ghost use Rattle.goblin_pe_symbol.specs.Symbols.{name_and_symbol, named_value, record_of};
ghost use Rattle.goblin_pe_symbol.specs.Symbols.{symbol_of};
ghost use Rattle.goblin_pe_c_headers.specs.{Calls.ReadsWithout, Options.longest_of};
ghost use Rattle.goblin_pe_c_headers.specs.Onward.{no_batch, batch_at};
ghost use Rattle.goblin_pe_c_headers.specs.Symbols.{FindsTables, GivesSymbols, NamesOfText};
ghost use Rattle.goblin_pe_c_headers.specs.Symbols.{auxiliary_of, found_tables, name_in};
ghost use Rattle.goblin_pe_c_headers.specs.Symbols.{name_in_piece, named_symbol};
ghost use Rattle.goblin_pe_c_headers.specs.Symbols.{named_symbol_model, string_at, strings_from_c};
ghost use Rattle.goblin_pe_c_headers.specs.Symbols.{texts_of};

use crate::batch::{PeBatch, ended, goes_on};
use crate::image::PeImage;
use crate::name::cut_name;
use crate::options::longest_of;
use goblin_base::read::{
    no_text, pread_ascii_str_within, pread_slice, pread_str_within, pread_u32,
};
use goblin_base::{Cause, Endian, Error, Result};
use goblin_pe_head::header::CoffHeader;
use goblin_pe_symbol::symbol::{COFF_SYMBOL_SIZE, Symbol};

// The size of the length at the front of a string table, in bytes.
const LENGTH_FIELD_SIZE: usize = 4;

/// A symbol.
#[repr(C)]
#[derive(Copy, Clone)]
pub struct PeSymbol<'a> {
    /// The name; empty, and `has_name` is false, if it can't be read or is not UTF-8.
    pub name: &'a [u8],
    /// Its auxiliary records, 18 bytes each.
    pub auxiliary: &'a [u8],
    /// The index of its record in the symbol table, where auxiliary records count.
    pub index: usize,
    /// The symbol record, as stored.
    pub record: Symbol,
    /// Whether it has a name.
    pub has_name: bool,
    /// Whether the name is cut.
    pub is_name_cut: bool,
    /// Zeros.
    pub reserved: [u8; 2],
}

// The bytes of a symbol table, those of the texts of a string table, and how many bytes of a name
// are read, if there is a limit.
#[derive(Copy, Clone)]
struct Tables<'a> {
    records: &'a [u8],
    strings: &'a [u8],
    longest: Option<u32>,
}

// Whether a piece of a string table begins at or before an offset and ends at or after it.
fn is_in_piece(strings: &[u8], offset: usize) -> bool
    ensures { result ≡ is_in_piece strings.now offset }
{
    offset < strings.len() || offset == strings.len() && 0 < offset && strings[offset - 1] != 0
}

// The name at an offset of the bytes of a string table, also if it is not ASCII, is long or ends
// within the last bytes.
#[inline(never)]
fn any_name_in_piece(strings: &[u8], offset: usize, longest: Option<u32>) -> Option<&str>
    ensures { option_map (λ s. s.now) result ≡ name_in_piece longest strings.now offset }
{
    if offset != strings.len() {
        return pread_str_within(strings, offset, longest).ok();
    }
    if is_in_piece(strings, offset) {
        Some(no_text(&strings[offset..])) // (where it lies)
    } else {
        None
    }
}

// The same of a name that is ASCII and ends before the last bytes, and not long after the limit;
// else `None`, which says nothing about it.
#[inline(always)]
fn ascii_name_in_piece(strings: &[u8], offset: usize, longest: Option<u32>) -> Option<&str>
    ensures { IfSome result (λ s. name_in_piece longest strings.now offset ≡ Some s.now) }
{
    pread_ascii_str_within(strings, offset, longest)
}

// The name at an offset of the bytes of a string table.
#[inline(always)]
fn name_in_piece(strings: &[u8], offset: usize, longest: Option<u32>) -> Option<&str>
    ensures { option_map (λ s. s.now) result ≡ name_in_piece longest strings.now offset }
{
    match ascii_name_in_piece(strings, offset, longest) {
        Some(name) => Some(name),
        None => any_name_in_piece(strings, offset, longest),
    }
}

// The name of a symbol: the text of the string table, if the record has an offset in place of a
// name, or else the name in the record.
#[inline(always)]
fn name_in<'a>(inline_name: Option<&'a str>, symbol: &Symbol, tables: Tables<'a>) -> Option<&'a str>
    ensures { option_map (λ s. s.now) result
        ≡ name_in (name_in_piece tables.entry.longest tables.entry.strings.now)
        (option_map (λ s. s.now) inline_name.entry) symbol.now }
{
    if symbol.name[0] == 0 {
        let offset = symbol.name_offset()? as usize;
        name_in_piece(tables.strings, offset, tables.longest)
    } else {
        inline_name
    }
}

#[tactic(auto, using(crate::proofs::Symbols::all_left))]
fn auxiliary_of<'a>(table: &'a [u8], index: usize, symbol: &Symbol) -> &'a [u8]
    requires { index < length table.now / 18 }
    ensures { result.now ≡ auxiliary_of table.now index symbol.now }
{
    let rest = &table[COFF_SYMBOL_SIZE * (index + 1)..];
    let size = COFF_SYMBOL_SIZE * symbol.number_of_aux_symbols as usize;
    if size <= rest.len() {
        &rest[..size]
    } else {
        rest
    }
}

// The record at an index of a table, read as a symbol, after the name in it.
#[inline(always)]
fn record_at(table: &[u8], index: usize) -> Option<(Option<&str>, Symbol)>
    ensures inside { IfSome result (λ s. index < length table.now / 18) }
    ensures some { IfSome result
        (λ s. named_value s ≡ name_and_symbol (record_of table.now index)) }
    ensures none { result ≡ None → length table.now / 18 ≤ index }
{
    if table.len() / COFF_SYMBOL_SIZE <= index {
        return None;
    }
    let begin = COFF_SYMBOL_SIZE * index;
    Some(Symbol::named(&table[begin..begin + COFF_SYMBOL_SIZE]))
}

// Fills a record with what was found at an index of a table. (It takes the place, as a record that
// is moved has its unused bytes copied, too.)
#[inline(always)]
fn fill_symbol<'a>(
    place: &mut PeSymbol<'a>,
    bytes: &'a [u8],
    tables: Tables<'a>,
    index: usize,
    found: (Option<&'a str>, Symbol),
)
    requires inside { index < length tables.records.now / 18 }
    requires found { named_value found ≡ name_and_symbol (record_of tables.records.now index) }
    ensures { named_symbol_model place.new
        ≡ named_symbol tables.entry.longest tables.entry.records.now tables.entry.strings.now
        (symbol_of tables.entry.records.now index) }
{
    let (inline_name, symbol) = found;
    let name = name_in(inline_name, &symbol, tables);
    place.has_name = name.is_some();
    let name = match name {
        Some(name) => name.as_bytes(),
        None => &bytes[..0],
    };
    let (name, is_name_cut) = cut_name(name, tables.longest);
    place.name = name;
    place.is_name_cut = is_name_cut;
    place.reserved = [0; 2];
    place.auxiliary = auxiliary_of(tables.records, index, &symbol);
    place.index = index;
    place.record = symbol;
}

// Fills the records of the symbols of a table from an index on, as far as there is room, moves the
// index past them, and answers what it did.
fn fill_symbols_at<'a>(
    bytes: &'a [u8],
    tables: Tables<'a>,
    position: &mut usize,
    records: &mut [PeSymbol<'a>],
) -> PeBatch
    ensures { GivesSymbols tables.entry.longest tables.entry.records.now tables.entry.strings.now
        (batch_at position.old records.old) (batch_at position.new records.new) result }
{
    let mut index = *position; // (a place behind a pointer is stored for each symbol)
    'symbols: for count in 0..records.len() {
        let Some(found) = record_at(tables.records, index) else {
            *position = index;
            return ended(count);
        };
        fill_symbol(&mut records[count], bytes, tables, index, found);
        index += 1 + found.1.number_of_aux_symbols as usize;
    }
    *position = index;
    goes_on(records.len())
}

// The texts of a string table: its bytes at an offset; there may be none.
fn strings_from_c(bytes: &[u8], offset: usize, length: usize) -> Result<&[u8]>
    ensures { Reads (λ s. s.now) result (strings_from_c offset length) bytes.now }
{
    if bytes.len() < offset || bytes.len() - offset < length {
        return Err(Error::Malformed(Cause::StringTable(offset, length)));
    }
    Ok(&bytes[offset..offset + length])
}

// Where the texts of the string table that follows a symbol table begin: after its length.
fn texts_begin(header: &CoffHeader) -> usize
    ensures { result ≡ symbols_end header.now + 4 }
{
    let symbols = header.number_of_symbol_table as usize;
    header.pointer_to_symbol_table as usize + COFF_SYMBOL_SIZE * symbols + LENGTH_FIELD_SIZE
}

// How many bytes the texts of the string table that a header leads to have, if there is one.
#[tactic(auto, unfolding(crate::specs::Symbols::texts_of))]
fn texts_of(bytes: &[u8], header: &CoffHeader) -> Result<Option<usize>>
    ensures { Reads (λ n. n) result (texts_of header.now) bytes.now }
{
    let Some(offset) = header.string_table_offset() else {
        return Ok(None);
    };
    let length = pread_u32(bytes, offset, Endian::Little)? as usize;
    if length < LENGTH_FIELD_SIZE {
        return Err(Error::Malformed(Cause::CoffLength));
    }
    Ok(Some(length - LENGTH_FIELD_SIZE))
}

// The tables that a header leads to, whatever their bytes are; no bytes if there are none.
#[tactic(auto, unfolding(crate::specs::Symbols::found_tables))]
fn find_tables<'a>(bytes: &'a [u8], header: &CoffHeader) -> Result<(&'a [u8], &'a [u8])>
    ensures { Reads (λ t. (t.0.now, t.1.now)) result (found_tables header.now) bytes.now }
{
    let Some(length) = texts_of(bytes, header)? else {
        return Ok((&bytes[..0], &bytes[..0]));
    };
    let size = COFF_SYMBOL_SIZE * header.number_of_symbol_table as usize;
    let records = pread_slice(bytes, header.pointer_to_symbol_table as usize, size)?;
    Ok((records, strings_from_c(bytes, texts_begin(header), length)?))
}

/// Gives the next symbols of an image or an object, and steps over their auxiliary records.
///
/// # Errors
/// A file that is too short for the symbol table or the string table, and a string table that says
/// a length below 4; nothing but `batch` is then changed.
#[tactic(auto, using(crate::proofs::SymbolTables::finds_tables, crate::proofs::Names::names_of_text))]
pub fn next_symbols<'a>(
    image: &PeImage<'a>,
    position: &mut usize,
    records: &mut [PeSymbol<'a>],
    batch: &mut PeBatch,
) -> Result<()>
    ensures given { let old = batch_at position.old records.old in
        let new = batch_at position.new records.new in
        ReadsWithout (found_tables image.now.coff_header) image.now.bytes.now
        (λ t. GivesSymbols (longest_of image.now.options) t.0 t.1 old new batch.new)
        ((new ≡ old) × (batch.new ≡ no_batch)) result }
    ensures same { FindsTables }
    ensures names { NamesOfText }
{
    *batch = ended(0);
    let (table, strings) = find_tables(image.bytes, &image.coff_header)?;
    let tables = Tables {
        records: table,
        strings,
        longest: longest_of(&image.options),
    };
    *batch = fill_symbols_at(image.bytes, tables, position, records);
    Ok(())
}

/// The text at an offset of the string table, up to a NUL or `longest_name`, if there is one, and
/// it is UTF-8. The offset counts from the table's length field, as stored offsets do.
#[tactic(auto, unfolding(crate::specs::Symbols::string_bytes))]
pub fn string_at<'a>(image: &PeImage<'a>, offset: usize) -> Option<&'a str>
    ensures { option_map (λ s. s.now) result ≡ string_at image.now offset }
{
    let header = &image.coff_header;
    let length = texts_of(image.bytes, header).ok()??;
    let strings = strings_from_c(image.bytes, texts_begin(header), length).ok()?;
    let offset = offset.checked_sub(LENGTH_FIELD_SIZE)?;
    name_in_piece(strings, offset, longest_of(&image.options))
}
