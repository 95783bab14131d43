//! Calls without options.

use crate::answer::show_answer;
use crate::laws;
use crate::sample::{LIBRARY, counting, no_exports, terse};
use fixture::sample::{
    ALIGNMENT, EXPORTS, IMPORTS, LOOKUP, TABLE, TABLE_END, import_name, put, sample_section,
    section,
};
use goblin_base::Strtab;
use goblin_pe::export::{Export, ExportData};
use goblin_pe::import::{
    Import, ImportData, SyntheticImportDirectoryEntry as Library,
    SyntheticImportLookupTableEntry as Lookup,
};
use goblin_pe_head::CoffHeader;
use goblin_pe_sect::{ParseOptions, SectionTable};
use std::alloc::Global;
use std::io;

/// Makes the call of this name without options, and shows its answer.
pub fn show_call(
    rt: &HostRuntime,
    call: &str,
    file: &[u8],
    sections: &[SectionTable],
) -> io::Result<()> {
    let alloc = rt.alloc();
    match call {
        "nothing" => rt.println("0"),
        "section" => show_answer(rt, SectionTable::parse(alloc, file, &mut TABLE, 0)),
        "section_with_empty_name" => show_answer(
            rt,
            SectionTable::parse(alloc, file, &mut TABLE_END, 0),
        ),
        "sections" => show_answer(rt, counting(1).sections(alloc, file, &mut TABLE)),
        "no_sections" => show_answer(rt, counting(0).sections(alloc, file, &mut TABLE)),
        "te_sections" => show_answer(rt, terse(1, 40).sections(alloc, file, &mut TABLE)),
        "te_sections_moved" => show_answer(rt, terse(1, 0x128).sections(alloc, file, &mut TABLE)),
        "no_te_sections" => show_answer(rt, terse(0, 40).sections(alloc, file, &mut TABLE)),
        _ => show_parts(rt, call, file, sections),
    }
}

// Those of single sections, their data and their strings.
fn show_parts(
    rt: &HostRuntime,
    call: &str,
    file: &[u8],
    sections: &[SectionTable],
) -> io::Result<()> {
    let alloc = rt.alloc();
    match call {
        "clone" => show_clone(rt, import_name(alloc)?),
        "clone_with_empty_name" => show_clone(rt, Some(String::new(alloc))),
        "clone_with_short_name" => show_clone(rt, None),
        "data" => show_data(rt, 6, 4),
        "data_of_32_mib" => show_data(rt, 1 << 25, 4),
        "data_without_zeros" => show_data(rt, 4, 4),
        "data_past_the_file" => show_data(rt, 6, 13),
        "strings" => show_strings(rt, 1),
        "no_strings" => show_strings(rt, 0),
        "string_table" => show_answer(rt, Strtab::parse(alloc, b"abc", 0, 3, 0)),
        _ => show_imports(rt, call, file, sections),
    }
}

// A copy of a section with this name.
fn show_clone(rt: &HostRuntime, real_name: Option<String>) -> io::Result<()> {
    let original = SectionTable {
        real_name,
        ..sample_section()
    };
    show_answer(rt, original.clone(rt.alloc()))
}

// The data of a section with four bytes of them at `pointer`.
fn show_data(rt: &HostRuntime, virtual_size: u32, pointer: u32) -> io::Result<()> {
    let section = section(0, virtual_size, 4, pointer);
    show_answer(rt, section.data(rt.alloc(), &[0; 16]))
}

// The string table of three bytes after no symbols at offset 1, if a header points there.
fn show_strings(rt: &HostRuntime, pointer_to_symbol_table: u32) -> io::Result<()> {
    let header = CoffHeader {
        pointer_to_symbol_table,
        ..CoffHeader::default()
    };
    let mut file = [0; 8];
    put(&mut file, 1, b"\x07\0\0\0abc");
    show_answer(rt, header.strings(rt.alloc(), &file))
}

// Those of imports.
fn show_imports(
    rt: &HostRuntime,
    call: &str,
    file: &[u8],
    sections: &[SectionTable],
) -> io::Result<()> {
    let alloc = rt.alloc();
    match call {
        "lookup" => show_answer(
            rt,
            Lookup::parse::<u32>(alloc, file, LOOKUP, sections, ALIGNMENT),
        ),
        "library" => show_answer(
            rt,
            Library::parse::<u32>(alloc, file, LIBRARY, sections, ALIGNMENT),
        ),
        "import_data" => show_answer(
            rt,
            ImportData::parse::<u32>(alloc, file, IMPORTS, sections, ALIGNMENT),
        ),
        "imports" => show_answer(rt, imports_of(alloc, file, sections)),
        "no_imports" => {
            let import_data = Vec::new(alloc);
            let data = ImportData { import_data };
            show_answer(rt, Import::parse::<u32>(alloc, file, &data, &[]))
        }
        _ => show_exports(rt, call, file, sections),
    }
}

// Those of exports; laws take options, here the default ones.
fn show_exports(
    rt: &HostRuntime,
    call: &str,
    file: &[u8],
    sections: &[SectionTable],
) -> io::Result<()> {
    let alloc = rt.alloc();
    match call {
        "export_data" => show_answer(
            rt,
            ExportData::parse(alloc, file, EXPORTS, sections, ALIGNMENT),
        ),
        "exports" => show_answer(rt, exports_of(alloc, file, sections)),
        "exports_of_no_bytes" => show_answer(
            rt,
            Export::parse(alloc, &[], &no_exports(alloc), sections, ALIGNMENT),
        ),
        _ => laws::show_call(rt, call, file, sections, &ParseOptions::default()),
    }
}

// The imports of the sample file, by its import data.
fn imports_of<'a>(
    alloc: Global,
    file: &'a [u8],
    sections: &[SectionTable],
) -> goblin_base::Result<Vec<Import<'a>>> {
    let data = ImportData::parse::<u32>(alloc, file, IMPORTS, sections, ALIGNMENT)?;
    Import::parse::<u32>(alloc, file, &data, &[])
}

// Its exports, by its export data.
fn exports_of<'a>(
    alloc: Global,
    file: &'a [u8],
    sections: &[SectionTable],
) -> goblin_base::Result<Vec<Export<'a>>> {
    let data = ExportData::parse(alloc, file, EXPORTS, sections, ALIGNMENT)?;
    Export::parse(alloc, file, &data, sections, ALIGNMENT)
}
