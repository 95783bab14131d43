//! The ASCII steps of walks give what they can, which their contracts leave open.

use fixture::sample::{put, sample};
use goblin_pe::Part;
use goblin_pe::added::{Exports, FileImports, Imports, Layout, WalkedImport};
use goblin_pe::header::Header;
use goblin_pe::import::SyntheticImportLookupTableEntry;
use goblin_pe::options::ParseOptions;
use std::alloc::Global;

/// Whether an import is by the name `Go`, where `is_named`; else by the ordinal 7.
fn is_wanted(import: &WalkedImport, is_named: bool) -> bool {
    match &import.entry {
        SyntheticImportLookupTableEntry::OrdinalNumber(ordinal) => !is_named && *ordinal == 7,
        SyntheticImportLookupTableEntry::HintNameTableRVA((_, named)) => {
            is_named && named.name == "Go"
        }
    }
}

/// Whether the second import of a walk comes by an ASCII step, and is this.
fn is_second_ascii(mut imports: Imports<u32>, is_named: bool) -> bool {
    if imports.next().is_none() {
        return false;
    }
    let Some(mut ascii) = imports.ascii() else {
        return false;
    };
    matches!(&ascii.next_import(), Some(import) if is_wanted(import, is_named))
}

/// Whether a file has a second import that comes so, and is this.
fn has_ascii_import(layout: &Layout, is_named: bool) -> bool {
    match layout.imports() {
        Ok(Part::Read(FileImports::Narrow(imports))) => is_second_ascii(imports, is_named),
        _ => false,
    }
}

/// Whether the second export of a walk comes by an ASCII step, and is named so.
fn is_second_named(mut exports: Exports, name: &str) -> bool {
    if exports.next().is_none() {
        return false;
    }
    matches!(&exports.next_ascii(), Some(second) if second.export.name == Some(name))
}

/// Whether a file has a second export that comes so, of this name.
fn has_ascii_export(layout: &Layout, name: &str) -> bool {
    match layout.exports() {
        Ok(Part::Read(exports)) => is_second_named(exports, name),
        _ => false,
    }
}

fn has_both(layout: &Layout, is_named: bool) -> bool {
    has_ascii_import(layout, is_named) && has_ascii_export(layout, "a.dll")
}

fn has_both_by(alloc: Global, file: &[u8], header: &Header, is_named: bool) -> bool {
    let opts = ParseOptions::default();
    matches!(&Layout::of(alloc, file, header, &opts), Ok(layout) if has_both(layout, is_named))
}

/// Whether a file has a second import, by name or by ordinal, and a second export that come so.
fn has_ascii(alloc: Global, file: &[u8], is_named: bool) -> bool {
    let header = Header::parse(file);
    matches!(&header, Ok(header) if has_both_by(alloc, file, header, is_named))
}

#[test]
fn ascii_imports_and_exports_come_by_the_ascii_steps(rt: HostRuntime) {
    let mut file = sample();
    // The second export has the address of the first, so it is no forwarder.
    put(&mut file, 0x2DA, b"\0");
    assert!(rt; has_ascii(rt.alloc(), &file, false));
    // The second import is by the name of the first.
    put(&mut file, 0x244, b"\x90\x10\0\0");
    assert!(rt; has_ascii(rt.alloc(), &file, true));
}
