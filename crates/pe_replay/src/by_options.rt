//! Calls by options.

use crate::answer::show_answer;
use crate::sample::{LIBRARY, counting, no_exports};
use crate::{laws, refused};
use fixture::sample::{ALIGNMENT, EXPORTS, IMPORTS, LOOKUP, TABLE, TABLE_END, section};
use goblin_pe::added::Layout;
use goblin_pe::export::{Export, ExportData};
use goblin_pe::import::{
    ImportData, SyntheticImportDirectoryEntry as Library, SyntheticImportLookupTableEntry as Lookup,
};
use goblin_pe::laws::footprint_imports;
use goblin_pe::{Places, Whole};
use goblin_pe_export::laws::read_exports;
use goblin_pe_head::Header;
use goblin_pe_sect::address_map::{AddressMap, MappedRecords};
use goblin_pe_sect::section_table::{SIZEOF_SECTION_TABLE, SectionRecords};
use goblin_pe_sect::{ParseOptions, SectionTable, View, WindowIndex};
use std::alloc::Global;
use std::io;

// So many sections that their windows have an index.
const MANY: usize = 97;

/// Makes the call of this name by options, and shows its answer.
pub fn show_call(
    rt: &HostRuntime,
    call: &str,
    file: &[u8],
    sections: &[SectionTable],
    opts: &ParseOptions,
) -> io::Result<()> {
    let alloc = rt.alloc();
    match call {
        "section" => show_answer(
            rt,
            SectionTable::parse_with_opts(alloc, file, &mut TABLE, 0, opts),
        ),
        "section_with_empty_name" => show_answer(
            rt,
            SectionTable::parse_with_opts(alloc, file, &mut TABLE_END, 0, opts),
        ),
        "sections" => show_answer(
            rt,
            counting(1).sections_with_opts(alloc, file, &mut TABLE, opts),
        ),
        "no_sections" => show_answer(
            rt,
            counting(0).sections_with_opts(alloc, file, &mut TABLE, opts),
        ),
        "index" => show_index(rt, ALIGNMENT, opts),
        "index_of_no_alignment" => show_index(rt, 0, opts),
        "index_of_offsets" => show_index(rt, ALIGNMENT, &ParseOptions::te()),
        "whole" => show_answer(rt, Whole::read(alloc, file, opts)),
        "layout" => show_layout(rt, file, opts),
        "layout_of_many" => show_layout_of_many(rt, opts),
        _ => show_imports(rt, call, file, sections, opts),
    }
}

// What all tables of the file are read by.
fn show_layout(rt: &HostRuntime, file: &[u8], opts: &ParseOptions) -> io::Result<()> {
    let header = Header::parse_with_opts(file, opts).map_err(refused)?;
    show_answer(rt, Layout::of(rt.alloc(), file, &header, opts))
}

// The same of a file with many sections.
fn show_layout_of_many(rt: &HostRuntime, opts: &ParseOptions) -> io::Result<()> {
    let records = [0; SIZEOF_SECTION_TABLE * MANY];
    show_answer(
        rt,
        layout_by(rt.alloc(), SectionRecords::of(&records), opts),
    )
}

// The layout of an empty file with these sections.
fn layout_by<'a>(
    alloc: Global,
    records: SectionRecords<'a>,
    opts: &ParseOptions,
) -> goblin_base::Result<Layout<'a>> {
    let mapped = MappedRecords {
        records,
        front: None,
    };
    let address_map = AddressMap::of_records(alloc, mapped, View::Sections, ALIGNMENT, opts)?;
    Ok(Layout::by(&[], Places::of(&None), records, address_map))
}

// The index of two sections; the second lies around the first.
fn show_index(rt: &HostRuntime, alignment: u32, opts: &ParseOptions) -> io::Result<()> {
    let inner = section(0x1200, 0x200, 0x200, 0x400);
    let outer = section(0x1000, 0x800, 0x800, 0x800);
    show_answer(
        rt,
        WindowIndex::prepare(rt.alloc(), &[inner, outer], alignment, opts),
    )
}

// Those of imports.
fn show_imports(
    rt: &HostRuntime,
    call: &str,
    file: &[u8],
    sections: &[SectionTable],
    opts: &ParseOptions,
) -> io::Result<()> {
    let alloc = rt.alloc();
    match call {
        "lookup" => show_answer(
            rt,
            Lookup::parse_with_opts::<u32>(alloc, file, LOOKUP, sections, ALIGNMENT, opts),
        ),
        "slots" => show_answer(
            rt,
            Lookup::parse_with_slots::<u32>(alloc, file, LOOKUP, sections, ALIGNMENT, opts),
        ),
        "no_slots" => show_answer(
            rt,
            Lookup::parse_with_slots::<u32>(alloc, file, LOOKUP + 8, sections, ALIGNMENT, opts),
        ),
        "library" => show_answer(
            rt,
            Library::parse_with_opts::<u32>(alloc, file, LIBRARY, sections, ALIGNMENT, opts),
        ),
        "import_data" => show_answer(
            rt,
            ImportData::parse_with_opts::<u32>(alloc, file, IMPORTS, sections, ALIGNMENT, opts),
        ),
        "footprint_imports" => show_answer(
            rt,
            footprint_imports::<u32>(alloc, file, IMPORTS, sections, ALIGNMENT, opts),
        ),
        _ => show_exports(rt, call, file, sections, opts),
    }
}

// Those of exports.
fn show_exports(
    rt: &HostRuntime,
    call: &str,
    file: &[u8],
    sections: &[SectionTable],
    opts: &ParseOptions,
) -> io::Result<()> {
    let alloc = rt.alloc();
    match call {
        "export_data" => show_answer(
            rt,
            ExportData::parse_with_opts(alloc, file, EXPORTS, sections, ALIGNMENT, opts),
        ),
        "exports" => show_answer(
            rt,
            read_exports(alloc, file, EXPORTS, sections, ALIGNMENT, opts),
        ),
        "exports_of_no_bytes" => show_answer(
            rt,
            Export::parse_with_opts(alloc, &[], &no_exports(alloc), sections, ALIGNMENT, opts),
        ),
        _ => laws::show_call(rt, call, file, sections, opts),
    }
}
