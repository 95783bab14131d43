//! The auxiliary records of a symbol.

ghost use Rattle.std.specs.Prelude.{◌≡◌, ◌≤◌, [], length};
ghost use Rattle.goblin_pe_c_headers.specs.Auxiliary.{AuxiliaryModel, auxiliary_kind};
ghost use Rattle.goblin_pe_c_headers.specs.Auxiliary.{kind_by_class, offset_in_strings};
ghost use Rattle.goblin_pe_c_headers.specs.{Auxiliary.zero_auxiliary, Options.longest_of};

use crate::name::cut_name;
use crate::options::{PeOptions, longest_of};
use crate::symbol::PeSymbol;
use goblin_base::read::before_nul;
use goblin_base::{Endian, Record, field_u32};
use goblin_pe_symbol::symbol::{
    AuxBeginAndEndFunction, AuxFunctionDefinition, AuxSectionDefinition, AuxWeakExternal,
    COFF_SYMBOL_SIZE, IMAGE_SYM_CLASS_EXTERNAL, IMAGE_SYM_CLASS_FILE, IMAGE_SYM_CLASS_FUNCTION,
    IMAGE_SYM_CLASS_STATIC, IMAGE_SYM_CLASS_WEAK_EXTERNAL, IMAGE_SYM_DTYPE_FUNCTION,
    IMAGE_SYM_UNDEFINED, Symbol,
};

/// Which auxiliary records a symbol has, by its class and type. An undefined external symbol of
/// value 0 has those of a weak external.
#[derive(Copy, Clone)]
pub enum AuxiliaryKind {
    /// The symbol has no auxiliary record of a kind below.
    None = 0,
    /// The definition of a function.
    FunctionDefinition = 1,
    /// The beginning or the end of a function.
    BeginAndEndFunction = 2,
    /// A symbol that another one may replace.
    WeakExternal = 3,
    /// The name of a source file.
    File = 4,
    /// The definition of a section.
    SectionDefinition = 5,
}

/// The first auxiliary record of a symbol: the fields of its kind; all others are zeros.
#[repr(C)]
#[derive(Copy, Clone)]
pub struct PeAuxiliary<'a> {
    /// FUNCTION_DEFINITION: the index of the symbol at the function's beginning. WEAK_EXTERNAL: the
    /// index of the symbol that replaces it.
    pub tag_index: u32,
    /// FUNCTION_DEFINITION.
    pub total_size: u32,
    /// FUNCTION_DEFINITION.
    pub pointer_to_line_number: u32,
    /// FUNCTION_DEFINITION, BEGIN_AND_END_FUNCTION.
    pub pointer_to_next_function: u32,
    /// BEGIN_AND_END_FUNCTION.
    pub line_number: u16,
    /// SECTION_DEFINITION: the section that this one goes with, from 1.
    pub number: u16,
    /// SECTION_DEFINITION.
    pub length: u32,
    /// SECTION_DEFINITION.
    pub checksum: u32,
    /// SECTION_DEFINITION.
    pub number_of_relocations: u16,
    /// SECTION_DEFINITION.
    pub number_of_line_numbers: u16,
    /// SECTION_DEFINITION: an `IMAGE_COMDAT_SELECT_*`.
    pub selection: u8,
    /// FILE: whether the name is cut.
    pub is_file_cut: bool,
    /// Zeros.
    pub reserved: [u8; 2],
    /// WEAK_EXTERNAL: an `IMAGE_WEAK_EXTERN_SEARCH_*`.
    pub characteristics: u32,
    /// FILE: the name of the source file. If it begins with four zeros it is in the string table,
    /// at `string_offset`.
    pub file: &'a [u8],
    /// FILE: where the name is in the string table; else 0.
    pub string_offset: u32,
    /// Zero.
    pub reserved2: u32,
}

// The kind of the auxiliary records of such a symbol, if it has any.
fn kind_by_class(symbol: &Symbol) -> AuxiliaryKind
    ensures { result ≡ kind_by_class symbol.now }
{
    let is_function = symbol.derived_type() == IMAGE_SYM_DTYPE_FUNCTION;
    match symbol.storage_class {
        IMAGE_SYM_CLASS_EXTERNAL if is_function && 0 < symbol.section_number => {
            AuxiliaryKind::FunctionDefinition
        }
        IMAGE_SYM_CLASS_EXTERNAL
            if symbol.section_number == IMAGE_SYM_UNDEFINED && symbol.value == 0 => {
            AuxiliaryKind::WeakExternal
        }
        IMAGE_SYM_CLASS_WEAK_EXTERNAL => AuxiliaryKind::WeakExternal,
        IMAGE_SYM_CLASS_FUNCTION => AuxiliaryKind::BeginAndEndFunction,
        IMAGE_SYM_CLASS_FILE => AuxiliaryKind::File,
        IMAGE_SYM_CLASS_STATIC => AuxiliaryKind::SectionDefinition,
        _ => AuxiliaryKind::None,
    }
}

// The kind of the auxiliary records of a symbol: none if there are none, or they are cut.
fn auxiliary_kind(symbol: &Symbol, records: &[u8]) -> AuxiliaryKind
    ensures kind { result ≡ auxiliary_kind symbol.now records.now }
{
    let count = symbol.number_of_aux_symbols as usize;
    if count == 0 || records.len() < COFF_SYMBOL_SIZE * count {
        return AuxiliaryKind::None;
    }
    kind_by_class(symbol)
}

fn zero_auxiliary(bytes: &[u8]) -> PeAuxiliary<'_>
    ensures file { result.file.now ≡ [] }
    ensures zeros { result ≡ zero_auxiliary result }
{
    PeAuxiliary {
        tag_index: 0,
        total_size: 0,
        pointer_to_line_number: 0,
        pointer_to_next_function: 0,
        line_number: 0,
        number: 0,
        length: 0,
        checksum: 0,
        number_of_relocations: 0,
        number_of_line_numbers: 0,
        selection: 0,
        is_file_cut: false,
        reserved: [0; 2],
        characteristics: 0,
        file: &bytes[..0],
        string_offset: 0,
        reserved2: 0,
    }
}

// The number in the place of a file's name, if that begins with four zeros.
fn offset_in_strings(records: &[u8]) -> u32
    requires { 18 ≤ length records.now }
    ensures { result ≡ offset_in_strings records.now }
{
    if field_u32(records, 0, Endian::Little) == 0 {
        field_u32(records, 4, Endian::Little)
    } else {
        0
    }
}

// The record that these bytes are for a symbol of this kind.
fn auxiliary_for_c(kind: AuxiliaryKind, records: &[u8], longest: Option<u32>) -> PeAuxiliary<'_>
    requires { 18 ≤ length records.now }
    ensures { AuxiliaryModel longest kind records.now result }
{
    let zeros = zero_auxiliary(records);
    let record = &records[..COFF_SYMBOL_SIZE];
    match kind {
        AuxiliaryKind::None => zeros,
        AuxiliaryKind::FunctionDefinition => {
            let read = AuxFunctionDefinition::in_record(record, Endian::Little);
            PeAuxiliary {
                tag_index: read.tag_index,
                total_size: read.total_size,
                pointer_to_line_number: read.pointer_to_line_number,
                pointer_to_next_function: read.pointer_to_next_function,
                ..zeros
            }
        }
        AuxiliaryKind::BeginAndEndFunction => {
            let read = AuxBeginAndEndFunction::in_record(record, Endian::Little);
            PeAuxiliary {
                pointer_to_next_function: read.pointer_to_next_function,
                line_number: read.line_number,
                ..zeros
            }
        }
        AuxiliaryKind::WeakExternal => {
            let read = AuxWeakExternal::in_record(record, Endian::Little);
            PeAuxiliary {
                tag_index: read.tag_index,
                characteristics: read.characteristics,
                ..zeros
            }
        }
        AuxiliaryKind::File => {
            let (file, is_file_cut) = cut_name(before_nul(records), longest);
            PeAuxiliary {
                file,
                is_file_cut,
                string_offset: offset_in_strings(records),
                ..zeros
            }
        }
        AuxiliaryKind::SectionDefinition => {
            let read = AuxSectionDefinition::in_record(record, Endian::Little);
            PeAuxiliary {
                number: read.number,
                length: read.length,
                checksum: read.checksum,
                number_of_relocations: read.number_of_relocations,
                number_of_line_numbers: read.number_of_line_numbers,
                selection: read.selection,
                ..zeros
            }
        }
    }
}

/// Reads the auxiliary records of a symbol, and returns their kind. It is none if the symbol has
/// none, or they are cut, or its class and type name no kind.
pub fn read_auxiliary<'a>(
    options: &PeOptions,
    symbol: &PeSymbol<'a>,
    auxiliary: &mut PeAuxiliary<'a>,
) -> AuxiliaryKind
    ensures kind { result ≡ auxiliary_kind symbol.now.record symbol.now.auxiliary.now }
    ensures value { AuxiliaryModel (longest_of options.now) result symbol.now.auxiliary.now
        auxiliary.new }
{
    let records = symbol.auxiliary;
    let kind = auxiliary_kind(&symbol.record, records);
    *auxiliary = if records.len() < COFF_SYMBOL_SIZE {
        zero_auxiliary(records)
    } else {
        auxiliary_for_c(kind, records, longest_of(options))
    };
    kind
}
