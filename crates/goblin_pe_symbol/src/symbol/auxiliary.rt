//! The auxiliary records of a symbol table, which follow the symbols that they describe.

ghost use Rattle.std.specs.Prelude.{length, ◌≡◌};
ghost use Rattle.goblin_base.specs.Record.{WritesRecord};
ghost use Rattle.goblin_pe_symbol.specs.AuxiliarySymbols.{AuxBeginAndEndFunction};
ghost use Rattle.goblin_pe_symbol.specs.AuxiliarySymbols.{AuxFunctionDefinition};
ghost use Rattle.goblin_pe_symbol.specs.AuxiliarySymbols.{AuxSectionDefinition, AuxWeakExternal};
ghost use Rattle.goblin_pe_symbol.specs.AuxiliarySymbols.{begin_and_end_function_fields};
ghost use Rattle.goblin_pe_symbol.specs.AuxiliarySymbols.{begin_and_end_function_record};
ghost use Rattle.goblin_pe_symbol.specs.AuxiliarySymbols.{function_definition_fields};
ghost use Rattle.goblin_pe_symbol.specs.AuxiliarySymbols.{function_definition_record};
ghost use Rattle.goblin_pe_symbol.specs.AuxiliarySymbols.{section_definition_fields};
ghost use Rattle.goblin_pe_symbol.specs.AuxiliarySymbols.{section_definition_record};
ghost use Rattle.goblin_pe_symbol.specs.AuxiliarySymbols.{weak_external_fields};
ghost use Rattle.goblin_pe_symbol.specs.AuxiliarySymbols.{weak_external_record};

use super::COFF_SYMBOL_SIZE;
use goblin_base::{
    Endian, Field, Record, Result, field_array, field_u8, field_u16, field_u32, put_fields,
};

/// The auxiliary record of a symbol that defines a function.
///
/// Source: PE Format, "Auxiliary Format 1: Function Definitions". Numbers are as stored; the record
/// has 18 bytes, and `at` gives a field's offset in it.
#[repr(C)]
#[derive(Debug, PartialEq, Copy, Clone, Default)]
pub struct AuxFunctionDefinition {
    /// The index in the symbol table of the function's start, a record of class
    /// [`IMAGE_SYM_CLASS_FUNCTION`](super::IMAGE_SYM_CLASS_FUNCTION), at 0.
    pub tag_index: u32,
    /// The size of the function's code, in bytes, at 4.
    pub total_size: u32,
    /// The file offset of the function's first line number, at 8; 0 if it has none.
    pub pointer_to_line_number: u32,
    /// The index in the symbol table of the next function's record, at 12; 0 if this is the last.
    pub pointer_to_next_function: u32,
    /// Not used, at 16.
    pub unused: [u8; 2],
}

impl Record for AuxFunctionDefinition {
    ghost width = { 18 };

    ghost value = { function_definition_record };

    ghost fields = { function_definition_fields };

    fn size() -> usize {
        COFF_SYMBOL_SIZE
    }

    fn in_record(bytes: &[u8], endian: Endian) -> AuxFunctionDefinition {
        AuxFunctionDefinition {
            tag_index: field_u32(bytes, 0, endian),
            total_size: field_u32(bytes, 4, endian),
            pointer_to_line_number: field_u32(bytes, 8, endian),
            pointer_to_next_function: field_u32(bytes, 12, endian),
            unused: field_array(bytes, 16),
        }
    }

    #[tactic(auto, using(crate::proofs::AuxiliarySymbolsRoundTrip::round_trips))]
    fn put(self, bytes: &mut [u8], endian: Endian) {
        let fields = [
            Field::U32(self.tag_index),
            Field::U32(self.total_size),
            Field::U32(self.pointer_to_line_number),
            Field::U32(self.pointer_to_next_function),
            Field::Bytes(&self.unused),
        ];
        put_fields(bytes, COFF_SYMBOL_SIZE, &fields, endian);
    }
}

impl AuxFunctionDefinition {
    /// Writes the record to the front of `bytes`, and returns its size, 18. A record that was read
    /// is written back unchanged, and any record reads back from what was written, in the same byte
    /// order.
    ///
    /// # Errors
    /// [`Error::Read`](goblin_base::Error::Read) if there is no room for 18 bytes; `bytes` is then
    /// unchanged.
    pub fn try_into_ctx(self, bytes: &mut [u8], endian: Endian) -> Result<usize>
        ensures { WritesRecord 18 function_definition_record function_definition_fields
            endian self result bytes.old bytes.new }
    {
        Record::try_into_ctx(self, bytes, endian)
    }

    /// The size of the record in bytes: 18 in either byte order.
    pub fn size_with(endian: &Endian) -> usize
        ensures { result ≡ 18 }
    {
        <AuxFunctionDefinition as Record>::size_with(endian)
    }
}

/// The auxiliary record of a symbol for the start or the end of a function.
///
/// Source: PE Format, "Auxiliary Format 2: .bf and .ef Symbols". Numbers are as stored; the record
/// has 18 bytes, and `at` gives a field's offset in it.
#[repr(C)]
#[derive(Debug, PartialEq, Copy, Clone, Default)]
pub struct AuxBeginAndEndFunction {
    /// Not used, at 0.
    pub unused1: [u8; 4],
    /// The line in the source file, counted from 1, at 4.
    pub line_number: u16,
    /// Not used, at 6.
    pub unused2: [u8; 6],
    /// The index in the symbol table of the next function's start, at 12; 0 if this is the last. It
    /// counts only in the record of a start.
    pub pointer_to_next_function: u32,
    /// Not used, at 16.
    pub unused3: [u8; 2],
}

impl Record for AuxBeginAndEndFunction {
    ghost width = { 18 };

    ghost value = { begin_and_end_function_record };

    ghost fields = { begin_and_end_function_fields };

    fn size() -> usize {
        COFF_SYMBOL_SIZE
    }

    fn in_record(bytes: &[u8], endian: Endian) -> AuxBeginAndEndFunction {
        AuxBeginAndEndFunction {
            unused1: field_array(bytes, 0),
            line_number: field_u16(bytes, 4, endian),
            unused2: field_array(bytes, 6),
            pointer_to_next_function: field_u32(bytes, 12, endian),
            unused3: field_array(bytes, 16),
        }
    }

    #[tactic(auto, using(crate::proofs::AuxiliarySymbolsRoundTrip::round_trips))]
    fn put(self, bytes: &mut [u8], endian: Endian) {
        let fields = [
            Field::Bytes(&self.unused1),
            Field::U16(self.line_number),
            Field::Bytes(&self.unused2),
            Field::U32(self.pointer_to_next_function),
            Field::Bytes(&self.unused3),
        ];
        put_fields(bytes, COFF_SYMBOL_SIZE, &fields, endian);
    }
}

impl AuxBeginAndEndFunction {
    /// Writes the record to the front of `bytes`, and returns its size, 18. A record that was read
    /// is written back unchanged, and any record reads back from what was written, in the same byte
    /// order.
    ///
    /// # Errors
    /// [`Error::Read`](goblin_base::Error::Read) if there is no room for 18 bytes; `bytes` is then
    /// unchanged.
    pub fn try_into_ctx(self, bytes: &mut [u8], endian: Endian) -> Result<usize>
        ensures { WritesRecord 18 begin_and_end_function_record begin_and_end_function_fields
            endian self result bytes.old bytes.new }
    {
        Record::try_into_ctx(self, bytes, endian)
    }

    /// The size of the record in bytes: 18 in either byte order.
    pub fn size_with(endian: &Endian) -> usize
        ensures { result ≡ 18 }
    {
        <AuxBeginAndEndFunction as Record>::size_with(endian)
    }
}

/// The auxiliary record of a weak external, a symbol that another may replace.
///
/// Source: PE Format, "Auxiliary Format 3: Weak Externals". Numbers are as stored; the record has
/// 18 bytes, and `at` gives a field's offset in it.
#[repr(C)]
#[derive(Debug, PartialEq, Copy, Clone, Default)]
pub struct AuxWeakExternal {
    /// The index in the symbol table of the symbol that replaces this one if it is not found, at 0.
    pub tag_index: u32,
    /// Where the linker looks for this symbol, an `IMAGE_WEAK_EXTERN_SEARCH_*`, at 4.
    pub characteristics: u32,
    /// Not used, at 8.
    pub unused: [u8; 10],
}

impl Record for AuxWeakExternal {
    ghost width = { 18 };

    ghost value = { weak_external_record };

    ghost fields = { weak_external_fields };

    fn size() -> usize {
        COFF_SYMBOL_SIZE
    }

    fn in_record(bytes: &[u8], endian: Endian) -> AuxWeakExternal {
        AuxWeakExternal {
            tag_index: field_u32(bytes, 0, endian),
            characteristics: field_u32(bytes, 4, endian),
            unused: field_array(bytes, 8),
        }
    }

    #[tactic(auto, using(crate::proofs::AuxiliarySymbolsRoundTrip::round_trips))]
    fn put(self, bytes: &mut [u8], endian: Endian) {
        let fields = [
            Field::U32(self.tag_index),
            Field::U32(self.characteristics),
            Field::Bytes(&self.unused),
        ];
        put_fields(bytes, COFF_SYMBOL_SIZE, &fields, endian);
    }
}

impl AuxWeakExternal {
    /// Writes the record to the front of `bytes`, and returns its size, 18. A record that was read
    /// is written back unchanged, and any record reads back from what was written, in the same byte
    /// order.
    ///
    /// # Errors
    /// [`Error::Read`](goblin_base::Error::Read) if there is no room for 18 bytes; `bytes` is then
    /// unchanged.
    pub fn try_into_ctx(self, bytes: &mut [u8], endian: Endian) -> Result<usize>
        ensures { WritesRecord 18 weak_external_record weak_external_fields
            endian self result bytes.old bytes.new }
    {
        Record::try_into_ctx(self, bytes, endian)
    }

    /// The size of the record in bytes: 18 in either byte order.
    pub fn size_with(endian: &Endian) -> usize
        ensures { result ≡ 18 }
    {
        <AuxWeakExternal as Record>::size_with(endian)
    }
}

/// The auxiliary record of a symbol that defines a section.
///
/// Source: PE Format, "Auxiliary Format 5: Section Definitions". Numbers are as stored; the record
/// has 18 bytes, and `at` gives a field's offset in it.
#[repr(C)]
#[derive(Debug, PartialEq, Copy, Clone, Default)]
pub struct AuxSectionDefinition {
    /// The size of the section's data, in bytes, at 0: the same as in its section header.
    pub length: u32,
    /// How many relocations the section has, at 4.
    pub number_of_relocations: u16,
    /// How many line numbers the section has, at 6.
    pub number_of_line_numbers: u16,
    /// The checksum of COMDAT data, at 8.
    pub checksum: u32,
    /// The number, counted from 1, of the section that this one is associated with, at 12. It
    /// counts only if `selection` is `IMAGE_COMDAT_SELECT_ASSOCIATIVE`.
    pub number: u16,
    /// Which of several COMDAT sections of one name the linker keeps, an `IMAGE_COMDAT_SELECT_*`,
    /// at 14.
    pub selection: u8,
    /// Not used, at 15.
    pub unused: [u8; 3],
}

impl Record for AuxSectionDefinition {
    ghost width = { 18 };

    ghost value = { section_definition_record };

    ghost fields = { section_definition_fields };

    fn size() -> usize {
        COFF_SYMBOL_SIZE
    }

    fn in_record(bytes: &[u8], endian: Endian) -> AuxSectionDefinition {
        AuxSectionDefinition {
            length: field_u32(bytes, 0, endian),
            number_of_relocations: field_u16(bytes, 4, endian),
            number_of_line_numbers: field_u16(bytes, 6, endian),
            checksum: field_u32(bytes, 8, endian),
            number: field_u16(bytes, 12, endian),
            selection: field_u8(bytes, 14),
            unused: field_array(bytes, 15),
        }
    }

    #[tactic(auto, using(crate::proofs::AuxiliarySymbolsRoundTrip::round_trips))]
    fn put(self, bytes: &mut [u8], endian: Endian) {
        let fields = [
            Field::U32(self.length),
            Field::U16(self.number_of_relocations),
            Field::U16(self.number_of_line_numbers),
            Field::U32(self.checksum),
            Field::U16(self.number),
            Field::U8(self.selection),
            Field::Bytes(&self.unused),
        ];
        put_fields(bytes, COFF_SYMBOL_SIZE, &fields, endian);
    }
}

impl AuxSectionDefinition {
    /// Writes the record to the front of `bytes`, and returns its size, 18. A record that was read
    /// is written back unchanged, and any record reads back from what was written, in the same byte
    /// order.
    ///
    /// # Errors
    /// [`Error::Read`](goblin_base::Error::Read) if there is no room for 18 bytes; `bytes` is then
    /// unchanged.
    pub fn try_into_ctx(self, bytes: &mut [u8], endian: Endian) -> Result<usize>
        ensures { WritesRecord 18 section_definition_record section_definition_fields
            endian self result bytes.old bytes.new }
    {
        Record::try_into_ctx(self, bytes, endian)
    }

    /// The size of the record in bytes: 18 in either byte order.
    pub fn size_with(endian: &Endian) -> usize
        ensures { result ≡ 18 }
    {
        <AuxSectionDefinition as Record>::size_with(endian)
    }
}
