//! Laws about two answers.

use crate::answer::show_answers;
use crate::sample::{other_section, put_other};
use fixture::sample::{
    ALIGNMENT, EXPORTS, IMPORTS, LOOKUP, SAMPLE_LEN, directory, put_all, sample_section,
};
use goblin_pe::import::ImportDirectoryEntry;
use goblin_pe::laws::{
    Request, mode_tables, mode_whole, reorder_whole_tables, twin_exports, twin_imports,
    twin_lookup, twin_parts, twin_whole,
};
use goblin_pe_head::CoffHeader;
use goblin_pe_sect::{DataDirectory, ParseOptions, SectionTable};
use std::io;
use std::io::ErrorKind;

// Where the tables of the sample file lie; its library's name is asked for by its address.
const REQUEST: Request = Request {
    lookup: LOOKUP,
    imports: IMPORTS,
    exports: EXPORTS,
    relocations: IMPORTS,
    value: IMPORTS,
    name: 0x1080,
};

/// Runs the law of this name, and shows both of its answers.
pub fn show_call(
    rt: &HostRuntime,
    law: &str,
    file: &[u8],
    sections: &[SectionTable],
    opts: &ParseOptions,
) -> io::Result<()> {
    let alloc = rt.alloc();
    match law {
        "mode_whole" => show_answers(rt, mode_whole(alloc, file, opts)),
        "mode_tables" => show_answers(
            rt,
            mode_tables::<u32, ImportDirectoryEntry>(
                alloc, file, sections, &REQUEST, ALIGNMENT, opts,
            ),
        ),
        "reorder_whole_tables" => show_orders(rt, file, sections, opts),
        "twin_parts" => show_parts(rt, opts),
        _ => show_twins(rt, law, file, sections, opts),
    }
}

// The laws about two files. The second has fewer bytes, and none for the law about import data.
fn show_twins(
    rt: &HostRuntime,
    law: &str,
    a: &[u8],
    sections: &[SectionTable],
    opts: &ParseOptions,
) -> io::Result<()> {
    let alloc = rt.alloc();
    let mut b = [0; SAMPLE_LEN];
    put_other(&mut b);
    match law {
        "twin_lookup" => show_answers(
            rt,
            twin_lookup::<u32>(alloc, a, &b, LOOKUP, sections, ALIGNMENT, opts),
        ),
        "twin_imports" => show_answers(
            rt,
            twin_imports::<u32>(alloc, a, &[], IMPORTS, sections, ALIGNMENT, opts),
        ),
        "twin_exports" => show_answers(
            rt,
            twin_exports(alloc, a, &b, EXPORTS, sections, ALIGNMENT, opts),
        ),
        "twin_whole" => show_answers(rt, twin_whole(alloc, a, &b, opts)),
        _ => Err(ErrorKind::InvalidInput.into()),
    }
}

// The tables by these sections in either order.
fn show_orders(
    rt: &HostRuntime,
    file: &[u8],
    sections: &[SectionTable],
    opts: &ParseOptions,
) -> io::Result<()> {
    let reversed = [other_section(), sample_section()];
    show_answers(
        rt,
        reorder_whole_tables::<u32, ImportDirectoryEntry>(
            rt.alloc(),
            file,
            sections,
            &reversed,
            &REQUEST,
            ALIGNMENT,
            opts,
        ),
    )
}

// Parts of a Terse Executable with one section and a string table; its header is taken for a
// section, too. Both have names.
fn show_parts(rt: &HostRuntime, opts: &ParseOptions) -> io::Result<()> {
    let mut file = [0; 0x58];
    put_all(
        &mut file,
        &[
            (0x00, b"ab\0\0\x01\0\x28"),
            (0x28, b"cde"),
            (0x50, b"\x07\0\0\0abc"),
        ],
    );
    let header = CoffHeader {
        number_of_sections: 1,
        pointer_to_symbol_table: 0x50,
        ..CoffHeader::default()
    };
    let strings = directory(0x50, 7);
    let opts = ParseOptions::te().with_parse_mode(opts.parse_mode);
    show_answers(
        rt,
        twin_parts::<DataDirectory>(
            rt.alloc(),
            &file,
            &file,
            header,
            0,
            strings,
            strings,
            &[],
            ALIGNMENT,
            &opts,
        ),
    )
}
