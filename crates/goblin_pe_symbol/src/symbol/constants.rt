//! The values of the fields of symbols and of their auxiliary records.
//!
//! Source: PE Format, "Section Number Values", "Type Representation", "Storage Class", "Auxiliary
//! Format 3: Weak Externals" and "COMDAT Sections (Object Only)".

/// A symbol's section: none. The symbol is defined elsewhere, or is common if its value is not 0.
pub const IMAGE_SYM_UNDEFINED: i16 = 0;
/// A symbol's section: none; the value is not an address.
pub const IMAGE_SYM_ABSOLUTE: i16 = -1;
/// A symbol's section: none; the symbol is for debuggers.
pub const IMAGE_SYM_DEBUG: i16 = -2;

const _: () = prove!(IMAGE_SYM_UNDEFINED == 0 && IMAGE_SYM_ABSOLUTE == -1 && IMAGE_SYM_DEBUG == -2);

/// A symbol's base type: none, or unknown.
pub const IMAGE_SYM_TYPE_NULL: u16 = 0;
/// A symbol's base type: no valid type, as for a function that returns nothing.
pub const IMAGE_SYM_TYPE_VOID: u16 = 1;
/// A symbol's base type: a character, a signed byte.
pub const IMAGE_SYM_TYPE_CHAR: u16 = 2;
/// A symbol's base type: a signed number of 2 bytes.
pub const IMAGE_SYM_TYPE_SHORT: u16 = 3;
/// A symbol's base type: a number of the machine's natural size.
pub const IMAGE_SYM_TYPE_INT: u16 = 4;
/// A symbol's base type: a signed number of 4 bytes.
pub const IMAGE_SYM_TYPE_LONG: u16 = 5;
/// A symbol's base type: a floating-point number of 4 bytes.
pub const IMAGE_SYM_TYPE_FLOAT: u16 = 6;
/// A symbol's base type: a floating-point number of 8 bytes.
pub const IMAGE_SYM_TYPE_DOUBLE: u16 = 7;
/// A symbol's base type: a structure.
pub const IMAGE_SYM_TYPE_STRUCT: u16 = 8;
/// A symbol's base type: a union.
pub const IMAGE_SYM_TYPE_UNION: u16 = 9;
/// A symbol's base type: an enumeration.
pub const IMAGE_SYM_TYPE_ENUM: u16 = 10;
/// A symbol's base type: a member of an enumeration.
pub const IMAGE_SYM_TYPE_MOE: u16 = 11;
/// A symbol's base type: an unsigned byte.
pub const IMAGE_SYM_TYPE_BYTE: u16 = 12;
/// A symbol's base type: an unsigned number of 2 bytes.
pub const IMAGE_SYM_TYPE_WORD: u16 = 13;
/// A symbol's base type: an unsigned number of the machine's natural size.
pub const IMAGE_SYM_TYPE_UINT: u16 = 14;
/// A symbol's base type: an unsigned number of 4 bytes.
pub const IMAGE_SYM_TYPE_DWORD: u16 = 15;

const _: () = prove!(
    IMAGE_SYM_TYPE_NULL == 0
        && IMAGE_SYM_TYPE_VOID == 1
        && IMAGE_SYM_TYPE_CHAR == 2
        && IMAGE_SYM_TYPE_SHORT == 3
        && IMAGE_SYM_TYPE_INT == 4
        && IMAGE_SYM_TYPE_LONG == 5
        && IMAGE_SYM_TYPE_FLOAT == 6
        && IMAGE_SYM_TYPE_DOUBLE == 7
        && IMAGE_SYM_TYPE_STRUCT == 8
        && IMAGE_SYM_TYPE_UNION == 9
        && IMAGE_SYM_TYPE_ENUM == 10
        && IMAGE_SYM_TYPE_MOE == 11
        && IMAGE_SYM_TYPE_BYTE == 12
        && IMAGE_SYM_TYPE_WORD == 13
        && IMAGE_SYM_TYPE_UINT == 14
        && IMAGE_SYM_TYPE_DWORD == 15
);

/// The bits of a symbol's type that are its base type.
pub const IMAGE_SYM_TYPE_MASK: u16 = 15;
/// How many bits of a symbol's type are below its derived type.
pub const IMAGE_SYM_DTYPE_SHIFT: usize = 4;

const _: () = prove!(IMAGE_SYM_TYPE_MASK == 15 && IMAGE_SYM_DTYPE_SHIFT == 4);

/// A symbol's derived type: none.
pub const IMAGE_SYM_DTYPE_NULL: u16 = 0;
/// A symbol's derived type: a pointer to the base type.
pub const IMAGE_SYM_DTYPE_POINTER: u16 = 1;
/// A symbol's derived type: a function that returns the base type.
pub const IMAGE_SYM_DTYPE_FUNCTION: u16 = 2;
/// A symbol's derived type: an array of the base type.
pub const IMAGE_SYM_DTYPE_ARRAY: u16 = 3;

const _: () = prove!(
    IMAGE_SYM_DTYPE_NULL == 0
        && IMAGE_SYM_DTYPE_POINTER == 1
        && IMAGE_SYM_DTYPE_FUNCTION == 2
        && IMAGE_SYM_DTYPE_ARRAY == 3
);

/// A symbol's class: none.
pub const IMAGE_SYM_CLASS_NULL: u8 = 0;
/// A symbol's class: a variable on the stack.
pub const IMAGE_SYM_CLASS_AUTOMATIC: u8 = 1;
/// A symbol's class: visible to other files.
pub const IMAGE_SYM_CLASS_EXTERNAL: u8 = 2;
/// A symbol's class: visible only in its own file; with the value 0 it may represent a section.
pub const IMAGE_SYM_CLASS_STATIC: u8 = 3;
/// A symbol's class: a variable in a register.
pub const IMAGE_SYM_CLASS_REGISTER: u8 = 4;
/// A symbol's class: defined elsewhere.
pub const IMAGE_SYM_CLASS_EXTERNAL_DEF: u8 = 5;
/// A symbol's class: a label.
pub const IMAGE_SYM_CLASS_LABEL: u8 = 6;
/// A symbol's class: a label that is not defined.
pub const IMAGE_SYM_CLASS_UNDEFINED_LABEL: u8 = 7;
/// A symbol's class: a member of a structure.
pub const IMAGE_SYM_CLASS_MEMBER_OF_STRUCT: u8 = 8;
/// A symbol's class: a function's argument.
pub const IMAGE_SYM_CLASS_ARGUMENT: u8 = 9;
/// A symbol's class: a structure's name.
pub const IMAGE_SYM_CLASS_STRUCT_TAG: u8 = 10;
/// A symbol's class: a member of a union.
pub const IMAGE_SYM_CLASS_MEMBER_OF_UNION: u8 = 11;
/// A symbol's class: a union's name.
pub const IMAGE_SYM_CLASS_UNION_TAG: u8 = 12;
/// A symbol's class: a type's name.
pub const IMAGE_SYM_CLASS_TYPE_DEFINITION: u8 = 13;
/// A symbol's class: static data that is not defined.
pub const IMAGE_SYM_CLASS_UNDEFINED_STATIC: u8 = 14;
/// A symbol's class: an enumeration's name.
pub const IMAGE_SYM_CLASS_ENUM_TAG: u8 = 15;
/// A symbol's class: a member of an enumeration.
pub const IMAGE_SYM_CLASS_MEMBER_OF_ENUM: u8 = 16;
/// A symbol's class: an argument in a register.
pub const IMAGE_SYM_CLASS_REGISTER_PARAM: u8 = 17;
/// A symbol's class: a bit field.
pub const IMAGE_SYM_CLASS_BIT_FIELD: u8 = 18;
/// A symbol's class: the start or the end of a block.
pub const IMAGE_SYM_CLASS_BLOCK: u8 = 100;
/// A symbol's class: the start or the end of a function, or its number of lines.
pub const IMAGE_SYM_CLASS_FUNCTION: u8 = 101;
/// A symbol's class: the end of a structure.
pub const IMAGE_SYM_CLASS_END_OF_STRUCT: u8 = 102;
/// A symbol's class: a source file, whose name is in the records that follow it.
pub const IMAGE_SYM_CLASS_FILE: u8 = 103;
/// A symbol's class: a section.
pub const IMAGE_SYM_CLASS_SECTION: u8 = 104;
/// A symbol's class: defined elsewhere; if it is not found, another symbol replaces it.
pub const IMAGE_SYM_CLASS_WEAK_EXTERNAL: u8 = 105;
/// A symbol's class: a token of the common language runtime.
pub const IMAGE_SYM_CLASS_CLR_TOKEN: u8 = 107;
/// A symbol's class: the end of a function.
pub const IMAGE_SYM_CLASS_END_OF_FUNCTION: u8 = 255;

const _: () = prove!(
    IMAGE_SYM_CLASS_NULL == 0
        && IMAGE_SYM_CLASS_AUTOMATIC == 1
        && IMAGE_SYM_CLASS_EXTERNAL == 2
        && IMAGE_SYM_CLASS_STATIC == 3
        && IMAGE_SYM_CLASS_REGISTER == 4
        && IMAGE_SYM_CLASS_EXTERNAL_DEF == 5
        && IMAGE_SYM_CLASS_LABEL == 6
        && IMAGE_SYM_CLASS_UNDEFINED_LABEL == 7
        && IMAGE_SYM_CLASS_MEMBER_OF_STRUCT == 8
        && IMAGE_SYM_CLASS_ARGUMENT == 9
        && IMAGE_SYM_CLASS_STRUCT_TAG == 10
        && IMAGE_SYM_CLASS_MEMBER_OF_UNION == 11
        && IMAGE_SYM_CLASS_UNION_TAG == 12
        && IMAGE_SYM_CLASS_TYPE_DEFINITION == 13
        && IMAGE_SYM_CLASS_UNDEFINED_STATIC == 14
        && IMAGE_SYM_CLASS_ENUM_TAG == 15
        && IMAGE_SYM_CLASS_MEMBER_OF_ENUM == 16
        && IMAGE_SYM_CLASS_REGISTER_PARAM == 17
        && IMAGE_SYM_CLASS_BIT_FIELD == 18
        && IMAGE_SYM_CLASS_BLOCK == 100
        && IMAGE_SYM_CLASS_FUNCTION == 101
        && IMAGE_SYM_CLASS_END_OF_STRUCT == 102
        && IMAGE_SYM_CLASS_FILE == 103
        && IMAGE_SYM_CLASS_SECTION == 104
        && IMAGE_SYM_CLASS_WEAK_EXTERNAL == 105
        && IMAGE_SYM_CLASS_CLR_TOKEN == 107
        && IMAGE_SYM_CLASS_END_OF_FUNCTION == 255
);

/// Where a weak symbol is looked for: not in libraries.
pub const IMAGE_WEAK_EXTERN_SEARCH_NOLIBRARY: u32 = 1;
/// Where a weak symbol is looked for: in libraries too.
pub const IMAGE_WEAK_EXTERN_SEARCH_LIBRARY: u32 = 2;
/// Where a weak symbol is looked for: nowhere; it is an alias of the other symbol.
pub const IMAGE_WEAK_EXTERN_SEARCH_ALIAS: u32 = 3;

const _: () = prove!(
    IMAGE_WEAK_EXTERN_SEARCH_NOLIBRARY == 1
        && IMAGE_WEAK_EXTERN_SEARCH_LIBRARY == 2
        && IMAGE_WEAK_EXTERN_SEARCH_ALIAS == 3
);

/// Which of several COMDAT sections is kept: only one may exist.
pub const IMAGE_COMDAT_SELECT_NODUPLICATES: u8 = 1;
/// Which of several COMDAT sections is kept: any.
pub const IMAGE_COMDAT_SELECT_ANY: u8 = 2;
/// Which of several COMDAT sections is kept: any, and all must have one size.
pub const IMAGE_COMDAT_SELECT_SAME_SIZE: u8 = 3;
/// Which of several COMDAT sections is kept: any, and all must be equal.
pub const IMAGE_COMDAT_SELECT_EXACT_MATCH: u8 = 4;
/// Which of several COMDAT sections is kept: this one if the section that it is associated with is
/// kept.
pub const IMAGE_COMDAT_SELECT_ASSOCIATIVE: u8 = 5;
/// Which of several COMDAT sections is kept: the largest.
pub const IMAGE_COMDAT_SELECT_LARGEST: u8 = 6;

const _: () = prove!(
    IMAGE_COMDAT_SELECT_NODUPLICATES == 1
        && IMAGE_COMDAT_SELECT_ANY == 2
        && IMAGE_COMDAT_SELECT_SAME_SIZE == 3
        && IMAGE_COMDAT_SELECT_EXACT_MATCH == 4
        && IMAGE_COMDAT_SELECT_ASSOCIATIVE == 5
        && IMAGE_COMDAT_SELECT_LARGEST == 6
);
