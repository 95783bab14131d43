//! The symbols of a COFF file: their records and names, and the table of them.

ghost use Rattle.std.specs.Prelude.{◌≡◌, ◌↔◌, ◌+◌, ◌-◌, ◌*◌, ◌/◌, ◌%◌, ◌^◌, ◌<◌, ◌≤◌, ◌<ℤ◌, pos};
ghost use Rattle.std.specs.Prelude.{Some, IfOk, IfSome, IsTrue, length, option_map};
ghost use Rattle.std.specs.Iterator.{UpTo, YieldsFirstBy, at_most};
ghost use Rattle.std.specs.Iterator.SizeHint.{IsWithinCount};
ghost use Rattle.goblin_base.specs.Answers.{Answers, IsSliceFault, Writes};
ghost use Rattle.goblin_base.specs.Bytes.{bounded_text_at, overwritten, slice_at};
ghost use Rattle.goblin_base.specs.{Reading.Reads, Record.WritesRecord, Record.record_at};
ghost use Rattle.goblin_pe_symbol.specs.Symbols.{Symbol};
ghost use Rattle.goblin_pe_symbol.specs.AuxiliarySymbols.{begin_and_end_function_record};
ghost use Rattle.goblin_pe_symbol.specs.AuxiliarySymbols.{function_definition_record};
ghost use Rattle.goblin_pe_symbol.specs.AuxiliarySymbols.{section_definition_record};
ghost use Rattle.goblin_pe_symbol.specs.AuxiliarySymbols.{weak_external_record};
ghost use Rattle.goblin_pe_symbol.specs.Symbols.{AreSymbolsOf, IsNoSymbolName, file_name_at};
ghost use Rattle.goblin_pe_symbol.specs.Symbols.{inline_name, name_offset_of, name_and_symbol};
ghost use Rattle.goblin_pe_symbol.specs.Symbols.{named_value, offset_name, stored_number};
ghost use Rattle.goblin_pe_symbol.specs.Symbols.{stored_offset, symbol_fields, symbol_item};
ghost use Rattle.goblin_pe_symbol.specs.Symbols.{symbol_name, symbol_record, symbols_in, symbol_at};
ghost use Rattle.goblin_pe_symbol.specs.Symbols.{symbol_table, symbols_left, symbol_bytes};

use goblin_base::{
    Cause, Endian, Error, Field, Record, Result, Strtab, encode_fields, field_array, field_i16,
    field_u8, field_u16, field_u32, pread_ascii_str_until, pread_slice, pread_str_until,
    put_fields, pwrite_slice,
};

mod auxiliary;
mod constants;

pub use auxiliary::{
    AuxBeginAndEndFunction, AuxFunctionDefinition, AuxSectionDefinition, AuxWeakExternal,
};
pub use constants::{
    IMAGE_COMDAT_SELECT_ANY, IMAGE_COMDAT_SELECT_ASSOCIATIVE, IMAGE_COMDAT_SELECT_EXACT_MATCH,
    IMAGE_COMDAT_SELECT_LARGEST, IMAGE_COMDAT_SELECT_NODUPLICATES, IMAGE_COMDAT_SELECT_SAME_SIZE,
    IMAGE_SYM_ABSOLUTE, IMAGE_SYM_CLASS_ARGUMENT, IMAGE_SYM_CLASS_AUTOMATIC,
    IMAGE_SYM_CLASS_BIT_FIELD, IMAGE_SYM_CLASS_BLOCK, IMAGE_SYM_CLASS_CLR_TOKEN,
    IMAGE_SYM_CLASS_END_OF_FUNCTION, IMAGE_SYM_CLASS_END_OF_STRUCT, IMAGE_SYM_CLASS_ENUM_TAG,
    IMAGE_SYM_CLASS_EXTERNAL, IMAGE_SYM_CLASS_EXTERNAL_DEF, IMAGE_SYM_CLASS_FILE,
    IMAGE_SYM_CLASS_FUNCTION, IMAGE_SYM_CLASS_LABEL, IMAGE_SYM_CLASS_MEMBER_OF_ENUM,
    IMAGE_SYM_CLASS_MEMBER_OF_STRUCT, IMAGE_SYM_CLASS_MEMBER_OF_UNION, IMAGE_SYM_CLASS_NULL,
    IMAGE_SYM_CLASS_REGISTER, IMAGE_SYM_CLASS_REGISTER_PARAM, IMAGE_SYM_CLASS_SECTION,
    IMAGE_SYM_CLASS_STATIC, IMAGE_SYM_CLASS_STRUCT_TAG, IMAGE_SYM_CLASS_TYPE_DEFINITION,
    IMAGE_SYM_CLASS_UNDEFINED_LABEL, IMAGE_SYM_CLASS_UNDEFINED_STATIC, IMAGE_SYM_CLASS_UNION_TAG,
    IMAGE_SYM_CLASS_WEAK_EXTERNAL, IMAGE_SYM_DEBUG, IMAGE_SYM_DTYPE_ARRAY,
    IMAGE_SYM_DTYPE_FUNCTION, IMAGE_SYM_DTYPE_NULL, IMAGE_SYM_DTYPE_POINTER, IMAGE_SYM_DTYPE_SHIFT,
    IMAGE_SYM_TYPE_BYTE, IMAGE_SYM_TYPE_CHAR, IMAGE_SYM_TYPE_DOUBLE, IMAGE_SYM_TYPE_DWORD,
    IMAGE_SYM_TYPE_ENUM, IMAGE_SYM_TYPE_FLOAT, IMAGE_SYM_TYPE_INT, IMAGE_SYM_TYPE_LONG,
    IMAGE_SYM_TYPE_MASK, IMAGE_SYM_TYPE_MOE, IMAGE_SYM_TYPE_NULL, IMAGE_SYM_TYPE_SHORT,
    IMAGE_SYM_TYPE_STRUCT, IMAGE_SYM_TYPE_UINT, IMAGE_SYM_TYPE_UNION, IMAGE_SYM_TYPE_VOID,
    IMAGE_SYM_TYPE_WORD, IMAGE_SYM_UNDEFINED, IMAGE_WEAK_EXTERN_SEARCH_ALIAS,
    IMAGE_WEAK_EXTERN_SEARCH_LIBRARY, IMAGE_WEAK_EXTERN_SEARCH_NOLIBRARY,
};

/// The size of a record of the symbol table, in bytes.
pub const COFF_SYMBOL_SIZE: usize = 18;

const _: () = prove!(COFF_SYMBOL_SIZE == 18);

// The size of the length field at the front of a string table, in bytes. The offsets that symbols
// store count these bytes.
const LENGTH_FIELD_SIZE: u32 = 4;

/// A symbol, as its record describes it.
///
/// Source: PE Format, "COFF Symbol Table". Numbers are as stored; a record has 18 bytes, and `at`
/// gives a field's offset in it.
#[repr(C)]
#[derive(Debug, PartialEq, Copy, Clone, Default)]
pub struct Symbol {
    /// The eight bytes of the name, padded with NULs, at 0. If the first byte is 0, the name is in
    /// the string table, and the last four bytes are its offset there, counted from the table's
    /// length field.
    pub name: [u8; 8],
    /// The value of the symbol, at 8. Its section and class say what it means; mostly it is an
    /// offset in the section, in bytes.
    pub value: u32,
    /// The number of its section, counted from 1, at 12; or [`IMAGE_SYM_UNDEFINED`] (0),
    /// [`IMAGE_SYM_ABSOLUTE`] (-1) or [`IMAGE_SYM_DEBUG`] (-2).
    pub section_number: i16,
    /// Its type, at 14: an `IMAGE_SYM_TYPE_*` in the low four bits, an `IMAGE_SYM_DTYPE_*` above
    /// them. Microsoft's tools store 0x20 for a function, else 0.
    pub typ: u16,
    /// Its class, an `IMAGE_SYM_CLASS_*`, at 16.
    pub storage_class: u8,
    /// How many auxiliary records follow it, at 17. The next symbol follows these.
    pub number_of_aux_symbols: u8,
}

impl Record for Symbol {
    ghost width = { 18 };

    ghost value = { symbol_record };

    ghost fields = { symbol_fields };

    fn size() -> usize {
        COFF_SYMBOL_SIZE
    }

    fn in_record(bytes: &[u8], endian: Endian) -> Symbol {
        Symbol {
            name: field_array(bytes, 0),
            value: field_u32(bytes, 8, endian),
            section_number: field_i16(bytes, 12, endian),
            typ: field_u16(bytes, 14, endian),
            storage_class: field_u8(bytes, 16),
            number_of_aux_symbols: field_u8(bytes, 17),
        }
    }

    #[tactic(auto, using(crate::proofs::SymbolsRoundTrip::round_trip))]
    fn put(self, bytes: &mut [u8], endian: Endian) {
        let fields = [
            Field::Bytes(&self.name),
            Field::U32(self.value),
            Field::I16(self.section_number),
            Field::U16(self.typ),
            Field::U8(self.storage_class),
            Field::U8(self.number_of_aux_symbols),
        ];
        put_fields(bytes, COFF_SYMBOL_SIZE, &fields, endian);
    }
}

impl Symbol {
    /// Reads the record at the file offset `offset`, and returns the pair (name in it, symbol). The
    /// name is the text of the record's first eight bytes. It is `None` if the first byte is 0,
    /// since the name is then in the string table, or if the bytes are not UTF-8 up to a NUL.
    ///
    /// Source: PE Format, "Symbol Name Representation".
    ///
    /// # Errors
    /// [`Error::Read`] if the 18 bytes run past the end of the file.
    #[inline(always)]
    pub fn parse<'a>(bytes: &'a [u8], offset: usize) -> Result<(Option<&'a str>, Symbol)>
        ensures { Reads named_value result (symbol_at offset) bytes.now }
    {
        let record = pread_slice(bytes, offset, COFF_SYMBOL_SIZE)?;
        Ok(Symbol::named(record))
    }

    /// The symbol in `bytes`, which are the 18 bytes of a record, as the pair that
    /// [`Symbol::parse`] returns: (name in it, symbol).
    #[inline(always)]
    pub fn named(bytes: &[u8]) -> (Option<&str>, Symbol)
        requires { length bytes.now ≡ 18 }
        ensures { named_value result ≡ name_and_symbol bytes.now }
    {
        (inline_name(bytes), Symbol::in_record(bytes, Endian::Little))
    }

    // The number that is stored in place of a name, if there is one.
    fn stored_number(&self) -> Option<u32>
        ensures { result ≡ stored_number self.now.name }
    {
        if self.name[0] == 0 {
            Some(field_u32(&self.name, 4, Endian::Little))
        } else {
            None
        }
    }

    /// The symbol's name. If the first of the eight bytes is 0, it is the text that `strtab` has at
    /// [`Symbol::name_offset`]. Else it is the text of the eight bytes.
    ///
    /// Source: PE Format, "Symbol Name Representation".
    ///
    /// # Errors
    /// [`Error::Malformed`] with [`Cause::SymbolName`], which holds the stored number if that is
    /// below 4, or the offset if `strtab` has no text there; [`Error::Read`] with `BadInput` if the
    /// eight bytes are the name and are not UTF-8 up to a NUL.
    pub fn name<'a>(&'a self, strtab: &'a Strtab) -> Result<&'a str>
        ensures { Answers (λ s. s.now) result (symbol_name strtab.now self.now.name)
            (IsNoSymbolName strtab.now self.now.name) }
    {
        let Some(stored) = self.stored_number() else {
            return pread_str_until(&self.name, 0, 8);
        };
        let Some(offset) = stored.checked_sub(LENGTH_FIELD_SIZE) else {
            return Err(Error::Malformed(Cause::SymbolName(stored)));
        };
        match strtab.get_at(offset as usize) {
            Some(name) => Ok(name),
            None => Err(Error::Malformed(Cause::SymbolName(offset))),
        }
    }

    /// The offset of the symbol's name in the string table, in bytes after the four of the table's
    /// length, as [`Strtab::get_at`] expects it. It is `None` if the first byte of the name is not
    /// 0, since the name is then in the record, or if the stored number, which counts those four
    /// bytes, is below 4.
    pub fn name_offset(&self) -> Option<u32>
        ensures { result ≡ name_offset_of self.now.name }
    {
        self.stored_number()?.checked_sub(LENGTH_FIELD_SIZE)
    }

    /// Stores `offset` in place of the name. `offset` counts the four bytes of the string table's
    /// length, so [`Symbol::name_offset`] is then 4 less, or `None` if `offset` is below 4.
    #[tactic(auto, using(crate::proofs::SymbolsRoundTrip::offset_names))]
    pub fn set_name_offset(&mut self, offset: u32)
        ensures name { self.new ≡ record self.old { name = offset_name offset } }
        ensures says { name_offset_of self.new.name ≡ stored_offset offset }
    {
        self.name = encode_fields(&[Field::U32(0), Field::U32(offset)], Endian::Little);
    }

    /// The symbol's base type, an `IMAGE_SYM_TYPE_*`: the low four bits of its type.
    pub fn base_type(&self) -> u16
        ensures { result ≡ self.now.typ % 16 }
    {
        self.typ & IMAGE_SYM_TYPE_MASK
    }

    /// The symbol's derived type, an `IMAGE_SYM_DTYPE_*`: its type shifted right by four bits.
    pub fn derived_type(&self) -> u16
        ensures { result ≡ self.now.typ / 16 }
    {
        self.typ >> IMAGE_SYM_DTYPE_SHIFT
    }

    /// Whether the symbol defines a function: its storage class is external (2), its derived type
    /// is a function (2), and it has a section (number above 0). An [`AuxFunctionDefinition`] may
    /// follow.
    ///
    /// Source: PE Format, "Auxiliary Format 1: Function Definitions".
    pub fn is_function_definition(&self) -> bool
        ensures { IsTrue result
            ↔ ((self.now.storage_class ≡ 2) × (self.now.typ / 16 ≡ 2)
            × (pos 0 <ℤ self.now.section_number)) }
    {
        self.storage_class == IMAGE_SYM_CLASS_EXTERNAL
            && self.derived_type() == IMAGE_SYM_DTYPE_FUNCTION
            && self.section_number > 0
    }

    /// Whether the symbol's storage class is weak external (105). If such a symbol is not found,
    /// another one replaces it. An [`AuxWeakExternal`] then follows.
    ///
    /// Source: PE Format, "Storage Class".
    pub fn is_weak_external(&self) -> bool
        ensures { IsTrue result ↔ (self.now.storage_class ≡ 105) }
    {
        self.storage_class == IMAGE_SYM_CLASS_WEAK_EXTERNAL
    }

    /// Whether the symbol's storage class is file (103). Such a symbol represents a source file,
    /// whose name is in the auxiliary records that follow; [`SymbolTable::aux_file`] reads it.
    ///
    /// Source: PE Format, "Auxiliary Format 4: Files".
    pub fn is_file(&self) -> bool
        ensures { IsTrue result ↔ (self.now.storage_class ≡ 103) }
    {
        self.storage_class == IMAGE_SYM_CLASS_FILE
    }

    /// Whether the symbol defines a section: its storage class is static (3), and auxiliary records
    /// follow, the first an [`AuxSectionDefinition`].
    ///
    /// Source: PE Format, "Auxiliary Format 5: Section Definitions".
    pub fn is_section_definition(&self) -> bool
        ensures { IsTrue result
            ↔ ((self.now.storage_class ≡ 3) × (0 < self.now.number_of_aux_symbols)) }
    {
        self.storage_class == IMAGE_SYM_CLASS_STATIC && self.number_of_aux_symbols > 0
    }

    /// Writes the record to the front of `bytes`, and returns its size, 18. A record that was read
    /// is written back unchanged, and any record reads back from what was written, in the same byte
    /// order.
    ///
    /// # Errors
    /// [`Error::Read`] if there is no room for 18 bytes; `bytes` is then unchanged.
    pub fn try_into_ctx(self, bytes: &mut [u8], endian: Endian) -> Result<usize>
        ensures { WritesRecord 18 symbol_record symbol_fields
            endian self result bytes.old bytes.new }
    {
        Record::try_into_ctx(self, bytes, endian)
    }

    /// The size of the record in bytes: 18 in either byte order.
    pub fn size_with(endian: &Endian) -> usize
        ensures { result ≡ 18 }
    {
        <Symbol as Record>::size_with(endian)
    }
}

// The name in the first eight bytes of a record, even if it is not ASCII.
#[inline(never)]
fn any_name(bytes: &[u8]) -> Option<&str>
    requires { length bytes.now ≡ 18 }
    ensures { option_map (λ s. s.now) result ≡ bounded_text_at bytes.now 0 8 }
{
    pread_str_until(bytes, 0, 8).ok()
}

// The name in a record.
#[inline(always)]
fn inline_name(bytes: &[u8]) -> Option<&str>
    requires { length bytes.now ≡ 18 }
    ensures { option_map (λ s. s.now) result ≡ inline_name bytes.now }
{
    if bytes[0] == 0 {
        return None;
    }
    match pread_ascii_str_until(bytes, 0, 8) {
        Some(name) => Some(name),
        None => any_name(bytes),
    }
}

/// The symbol table of a file: records of 18 bytes, one after the other. Each symbol is followed by
/// its auxiliary records.
///
/// Source: PE Format, "COFF Symbol Table" and "Auxiliary Symbol Records". Indexes count all
/// records, auxiliary ones included.
#[derive(Drop)]
pub struct SymbolTable<'a> {
    symbols: &'a [u8],
}

impl<'a> SymbolTable<'a> {
    /// The table of the `number` records at the file offset `offset`.
    ///
    /// # Errors
    /// [`Error::Read`] if the records begin at or past the end of the file, even if there are none,
    /// or run past it; [`Error::Malformed`] with [`Cause::Overflow`] if their size overflows 64
    /// bits.
    pub fn parse(bytes: &'a [u8], offset: usize, number: usize) -> Result<SymbolTable<'a>>
        ensures { Reads symbol_bytes result (symbol_table offset number) bytes.now }
    {
        let Some(size) = number.checked_mul(COFF_SYMBOL_SIZE) else {
            return Err(Error::Malformed(Cause::Overflow));
        };
        let symbols = pread_slice(bytes, offset, size)?;
        Ok(SymbolTable { symbols })
    }

    /// The size of `number` records in bytes, which must fit 64 bits.
    pub fn size(number: usize) -> usize
        requires { 18 * number < 2 ^ 64 }
        ensures { result ≡ 18 * number }
    {
        COFF_SYMBOL_SIZE * number
    }

    // The bytes of the record at an index.
    fn record_at(&self, index: usize) -> Option<&'a [u8]>
        ensures len { IfSome result (λ r. length r.now ≡ 18) }
        ensures value { option_map (λ r. r.now) result
            ≡ slice_at (symbol_bytes self.now) (18 * index) 18 }
    {
        let offset = index.checked_mul(COFF_SYMBOL_SIZE)?;
        pread_slice(self.symbols, offset, COFF_SYMBOL_SIZE).ok()
    }

    /// The record at `index`, read as a symbol even if it is an auxiliary record: the pair (name in
    /// it, symbol), as [`Symbol::parse`] returns it. `None` if the table has no such record.
    pub fn get(&self, index: usize) -> Option<(Option<&'a str>, Symbol)>
        ensures { option_map named_value result
            ≡ record_at 18 name_and_symbol (symbol_bytes self.now) (18 * index) }
    {
        Some(Symbol::named(self.record_at(index)?))
    }

    /// The record at `index`, whatever it is, as an auxiliary record of a function definition.
    /// `None` if the table has no such record.
    pub fn aux_function_definition(&self, index: usize) -> Option<AuxFunctionDefinition>
        ensures { result
            ≡ record_at 18 (function_definition_record Endian.Little) (symbol_bytes self.now)
            (18 * index) }
    {
        let record = self.record_at(index)?;
        Some(AuxFunctionDefinition::in_record(record, Endian::Little))
    }

    /// The record at `index`, whatever it is, as an auxiliary record of a function's start or end.
    /// `None` if the table has no such record.
    pub fn aux_begin_and_end_function(&self, index: usize) -> Option<AuxBeginAndEndFunction>
        ensures { result
            ≡ record_at 18 (begin_and_end_function_record Endian.Little) (symbol_bytes self.now)
            (18 * index) }
    {
        let record = self.record_at(index)?;
        Some(AuxBeginAndEndFunction::in_record(record, Endian::Little))
    }

    /// The record at `index`, whatever it is, as an auxiliary record of a weak external. `None` if
    /// the table has no such record.
    pub fn aux_weak_external(&self, index: usize) -> Option<AuxWeakExternal>
        ensures { result
            ≡ record_at 18 (weak_external_record Endian.Little) (symbol_bytes self.now)
            (18 * index) }
    {
        let record = self.record_at(index)?;
        Some(AuxWeakExternal::in_record(record, Endian::Little))
    }

    /// The record at `index`, whatever it is, as an auxiliary record of a section definition.
    /// `None` if the table has no such record.
    pub fn aux_section_definition(&self, index: usize) -> Option<AuxSectionDefinition>
        ensures { result
            ≡ record_at 18 (section_definition_record Endian.Little) (symbol_bytes self.now)
            (18 * index) }
    {
        let record = self.record_at(index)?;
        Some(AuxSectionDefinition::in_record(record, Endian::Little))
    }

    /// The name of a source file: the text, up to a NUL, in the `number` records from `index` on.
    /// `None` if the records begin at or past the end of the table or run past it, or if the text
    /// is not UTF-8.
    ///
    /// Source: PE Format, "Auxiliary Format 4: Files".
    pub fn aux_file(&self, index: usize, number: usize) -> Option<&'a str>
        ensures { option_map (λ s. s.now) result
            ≡ file_name_at (symbol_bytes self.now) index number }
    {
        let offset = index.checked_mul(COFF_SYMBOL_SIZE)?;
        let size = number.checked_mul(COFF_SYMBOL_SIZE)?;
        pread_str_until(self.symbols, offset, size).ok()
    }

    /// A walk over the symbols in order, without the auxiliary records, as triples (index of the
    /// record, name in it, symbol). The name is `None` if it is in the string table, where
    /// [`Symbol::name`] finds it, or if it is not UTF-8.
    pub fn iter(&self) -> SymbolIterator<'a>
        ensures items { symbols_left result ≡ symbols_in (symbol_bytes self.now) }
        ensures heads { AreSymbolsOf (symbol_bytes self.now) (symbols_in (symbol_bytes self.now)) }
    {
        SymbolIterator {
            symbols: self.symbols,
            index: 0,
        }
    }

    /// Writes the records to the front of `bytes` unchanged, whatever the byte order, and returns
    /// their size in bytes.
    ///
    /// # Errors
    /// [`Error::Read`] if there is no room, or if `bytes` is empty. `bytes` is then unchanged.
    pub fn try_into_ctx(self, bytes: &mut [u8], _endian: Endian) -> Result<usize>
        ensures size { IfOk result (λ n. n ≡ length (symbol_bytes self.entry)) }
        ensures written { Writes result (overwritten bytes.old 0 (symbol_bytes self.entry))
            bytes.old bytes.new (IsSliceFault bytes.old 0 (length (symbol_bytes self.entry))) }
    {
        pwrite_slice(bytes, 0, self.symbols)?;
        Ok(self.symbols.len())
    }
}

/// A walk over the symbols of a table in order, as triples (index of the record, name in it,
/// symbol).
#[derive(Default, Drop)]
pub struct SymbolIterator<'a> {
    symbols: &'a [u8],
    index: usize,
}

impl<'a> Iterator for SymbolIterator<'a> {
    type Item = (usize, Option<&'a str>, Symbol);

    ghost next_gives = { YieldsFirstBy symbol_item symbols_left };

    ghost remaining = { λ it. at_most (length it.symbols.now / 18 - it.index) };

    #[tactic(auto, using(crate::proofs::SymbolHeads::symbols))]
    fn next(&mut self) -> Option<(usize, Option<&'a str>, Symbol)> {
        let index = self.index;
        if self.symbols.len() / COFF_SYMBOL_SIZE <= index {
            return None;
        }
        let offset = COFF_SYMBOL_SIZE * index;
        let (name, symbol) = Symbol::named(&self.symbols[offset..offset + COFF_SYMBOL_SIZE]);
        self.index = index + 1 + symbol.number_of_aux_symbols as usize;
        Some((index, name, symbol))
    }

    /// At most as many symbols come as there are records left.
    #[tactic(auto, using(crate::proofs::SymbolHeads::symbols_most))]
    fn size_hint(&self) -> (usize, Option<usize>)
        ensures lower { IsWithinCount result.0
            (at_most (length self.now.symbols.now / 18 - self.now.index)) }
        ensures upper { IfSome result.1
            (UpTo (at_most (length self.now.symbols.now / 18 - self.now.index))) }
        ensures most { IfSome result.1 (λ n. length (symbols_left self.now) ≤ n) }
        ensures value { result ≡ (0, Some (length self.now.symbols.now / 18 - self.now.index)) }
    {
        let records = self.symbols.len() / COFF_SYMBOL_SIZE;
        (0, Some(records.saturating_sub(self.index)))
    }
}
