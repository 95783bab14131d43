//! What each law of two files answers for files like the sample file, as texts of their values.

use fixture::sample::{
    ALIGNMENT, EXPORTS, IMPORTS, LOOKUP, SAMPLE_LEN, directory, sample, sample_section,
};
use goblin_pe::import::ImportDirectoryEntry;
use goblin_pe::laws::{
    PartsOf, footprint_imports, twin_exports, twin_header, twin_imports, twin_lookup, twin_parts,
    twin_whole,
};
use goblin_pe_head::CoffHeader;
use goblin_pe_sect::ParseOptions;
use std::fmt::Debug;
use std::io;

/// Shows the answers of each law for the sample file and a file that differs from it, and for the
/// same two the other way round. `changes` says by 0x300 bytes a file which bits are other ones.
/// Sections, and the header of a Terse Executable, are read at `offset`.
pub fn show(rt: &HostRuntime, changes: &[u8], offset: usize) -> io::Result<()> {
    for change in changes.chunks(SAMPLE_LEN) {
        let (original, mut changed) = (sample(), sample());
        for (byte, bits) in changed.iter_mut().zip(change) {
            *byte ^= *bits;
        }
        show_laws(rt, &original, &changed, offset)?;
        show_laws(rt, &changed, &original, offset)?;
    }
    Ok(())
}

fn show_laws<'a>(rt: &HostRuntime, a: &'a [u8], b: &'a [u8], offset: usize) -> io::Result<()> {
    let (alloc, sections) = (rt.alloc(), [sample_section()]);
    let opts = ParseOptions::default();
    show_both(
        rt,
        "lookup",
        twin_lookup::<u32>(alloc, a, b, LOOKUP, &sections, ALIGNMENT, &opts),
    )?;
    show_both(
        rt,
        "imports",
        twin_imports::<u32>(alloc, a, b, IMPORTS, &sections, ALIGNMENT, &opts),
    )?;
    show_both(
        rt,
        "exports",
        twin_exports(alloc, a, b, EXPORTS, &sections, ALIGNMENT, &opts),
    )?;
    show_both(rt, "header", twin_header(a, b, &opts))?;
    show_both(rt, "whole", twin_whole(alloc, a, b, &opts))?;
    show_parts(rt, a, b, offset)?;
    show_footprint(rt, a)?;
    show_footprint(rt, b)
}

fn show_footprint(rt: &HostRuntime, file: &[u8]) -> io::Result<()> {
    let (alloc, sections) = (rt.alloc(), [sample_section()]);
    let opts = ParseOptions::default();
    println!(rt;
        "footprint of imports: {:?}",
        footprint_imports::<u32>(alloc, file, IMPORTS, &sections, ALIGNMENT, &opts)
    )
}

fn show_parts<'a>(rt: &HostRuntime, a: &'a [u8], b: &'a [u8], offset: usize) -> io::Result<()> {
    let header = CoffHeader {
        number_of_sections: 1,
        pointer_to_symbol_table: 0x1FF,
        number_of_symbol_table: 1,
        ..CoffHeader::default()
    };
    let (relocations, sections) = (directory(0x1080, 5), [sample_section()]);
    let opts = ParseOptions::default();
    show_fields_of_both(
        rt,
        twin_parts::<ImportDirectoryEntry>(
            rt.alloc(),
            a,
            b,
            header,
            offset,
            relocations,
            IMPORTS,
            &sections,
            ALIGNMENT,
            &opts,
        ),
    )
}

// What several readers answer, which is shown field by field.
trait Fields {
    fn show(&self, rt: &HostRuntime) -> io::Result<()>;
}

impl Fields for PartsOf<'_, '_, ImportDirectoryEntry> {
    fn show(&self, rt: &HostRuntime) -> io::Result<()> {
        println!(rt; "header without DOS header: {:?}", self.header)?;
        println!(rt; "sections: {:?}", self.sections)?;
        match &self.symbols {
            Ok(Some(table)) => println!(rt; "symbols: Ok({:?})", table.get(0))?,
            _ => println!(rt; "symbols: refused")?,
        }
        println!(rt; "strings: {:?}", self.strings)?;
        println!(rt; "terse: {:?}", self.te)?;
        println!(rt; "relocations: {:?}", self.relocations)?;
        println!(rt; "value: {:?}", self.value)
    }
}

fn show_fields_of_both<F: Fields + Drop>(rt: &HostRuntime, both: (F, F)) -> io::Result<()> {
    both.0.show(rt)?;
    both.1.show(rt)
}

fn show_both<A: Debug + Drop>(rt: &HostRuntime, law: &str, answers: (A, A)) -> io::Result<()> {
    println!(rt; "{law}: {:?}", answers.0)?;
    println!(rt; "{law}: {:?}", answers.1)
}
