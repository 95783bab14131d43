//! The tables of a file, walked over in constant memory.

use crate::refused;
use goblin_base::{Error, ErrorOf};
use goblin_pe::Part;
use goblin_pe::added::{Exports, FileImports, Layout};
use goblin_pe_head::Header;
use goblin_pe_sect::ParseOptions;
use std::io;

/// Shows how many imports or exports a file has, and in a second line why they end, where a refusal
/// ends them.
pub fn show(rt: &HostRuntime, file: &[u8], word: &str) -> io::Result<()> {
    let opts = ParseOptions::default();
    let header = Header::parse_with_opts(file, &opts).map_err(refused)?;
    let layout = Layout::of(rt.alloc(), file, &header, &opts).map_err(refused)?;
    let (count, end) = if word == "imports" {
        imports_of(&layout)
    } else {
        exports_of(&layout)
    };
    show_count(rt, count, &end)
}

fn imports_of(layout: &Layout) -> (usize, Option<Error>) {
    let (count, end) = match layout.imports() {
        Ok(Part::Read(imports)) => counted(imports),
        Ok(_) => (0, None),
        Err(error) => (0, Some(error)),
    };
    (count, end)
}

fn exports_of(layout: &Layout) -> (usize, Option<Error>) {
    match layout.exports() {
        Ok(Part::Read(exports)) => (count_of(exports), None),
        Ok(_) => (0, None),
        Err(error) => (0, Some(error)),
    }
}

// How many exports a walk gives. Apart from what prepares it, the walk stays in registers.
#[inline(never)]
fn count_of(exports: Exports) -> usize {
    exports.count()
}

// How many imports a walk gives, and the refusal that ends it, if one does.
#[inline(never)]
fn counted<'a, 'm, 'e>(imports: FileImports<'a, 'm, 'e>) -> (usize, Option<ErrorOf<'e>>) {
    let mut count = 0usize;
    for import in imports {
        match import {
            Ok(_) => count = count.wrapping_add(1),
            Err(error) => return (count, Some(error)),
        }
    }
    (count, None)
}

fn show_count(rt: &HostRuntime, count: usize, end: &Option<Error>) -> io::Result<()> {
    println!(rt; "{count}")?;
    match end {
        Some(error) => println!(rt; "{error}"),
        None => Ok(()),
    }
}
