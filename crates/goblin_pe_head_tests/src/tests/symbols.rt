//! What callers in Rattle alone see of symbols: sizes of 64 bits, why a name is refused, and how
//! long a name is good.

use goblin_base::{Cause, Error, Strtab};
use goblin_pe_symbol::symbol::{Symbol, SymbolTable};
use std::alloc::Global;

/// The record of a symbol that holds its name.
const ODD: &[u8; 18] = b"odd\0\0\0\0\00\0\0\0\x01\0 \0\x02\0";

#[test]
fn a_table_of_more_than_all_bytes_is_refused(rt: HostRuntime) {
    assert!(rt; SymbolTable::parse(ODD, 0, 1 << 63).is_err());
    let table = SymbolTable::parse(ODD, 0, 1);
    assert!(rt; matches!(&table, Ok(table) if table.get(1 << 63).is_none()));
}

/// A symbol with this name.
fn named(name: &[u8; 8]) -> Symbol {
    Symbol {
        name: *name,
        ..Symbol::default()
    }
}

/// Whether this is the name of a symbol.
fn is_name(symbol: &Symbol, strings: &Strtab, want: &str) -> bool {
    matches!(symbol.name(strings), Ok(name) if name == want)
}

/// Whether the number that a symbol stores in place of a name is 3, and refused.
fn has_no_name(symbol: &Symbol, strings: &Strtab) -> bool {
    matches!(
        symbol.name(strings),
        Err(Error::Malformed(Cause::SymbolName(3)))
    )
}

/// Whether names are read from a record and from the string table, and a number below 4 is refused.
fn are_names(strings: &Strtab) -> bool {
    is_name(&named(b"odd\0\0\0\0\0"), strings, "odd")
        && is_name(&named(b"\0\0\0\0\x04\0\0\0"), strings, "__imp_GetTickCount")
        && has_no_name(&named(b"\0\0\0\0\x03\0\0\0"), strings)
}

/// Whether that is so of a string table of one text.
fn are_names_by(alloc: Global) -> bool {
    let strings = Strtab::parse(alloc, b"__imp_GetTickCount\0", 0, 19, 0);
    matches!(&strings, Ok(strings) if are_names(strings))
}

#[test]
fn names_are_read_and_a_stored_number_below_4_is_none(rt: HostRuntime) {
    assert!(rt; are_names_by(rt.alloc()));
}

/// Whether one text that is not UTF-8 has the whole string table refused.
fn is_refused_whole(alloc: Global) -> bool {
    let strings = Strtab::parse(alloc, b"text\0\xFF\0", 0, 7, 0);
    matches!(&strings, Err(Error::Read(_)))
}

#[test]
fn a_string_table_with_a_text_that_is_not_utf_8_is_refused_whole(rt: HostRuntime) {
    assert!(rt; is_refused_whole(rt.alloc()));
}

/// The name in the first record of a file, whose table is gone when it is read.
fn first_name(file: &[u8]) -> Option<&str> {
    let mut symbols = SymbolTable::parse(file, 0, 1).ok()?.iter();
    match symbols.next() {
        Some((_, name, _)) => name,
        None => None,
    }
}

#[test]
fn a_name_outlives_its_table(rt: HostRuntime) {
    assert!(rt; first_name(ODD) == Some("odd"));
}
