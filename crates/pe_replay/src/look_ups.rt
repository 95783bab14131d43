//! Look-ups of many addresses among the sections of an object.

use crate::refused;
use fixture::sample::ALIGNMENT;
use goblin_pe_head::CoffHeader;
use goblin_pe_sect::utils::find_offset;
use goblin_pe_sect::{ParseOptions, SectionTable, WindowIndex};
use std::alloc::Global;
use std::io;

// How far the addresses lie apart, all below `SPAN`.
const STEP: usize = 0x9E37_79B1;

const SPAN: usize = 1 << 28;

/// Shows the file offsets of `count` addresses, added up: by a walk over the sections for each.
pub fn show_walk(
    rt: &HostRuntime,
    file: &[u8],
    count: usize,
    opts: &ParseOptions,
) -> io::Result<()> {
    let sections = sections_of(rt.alloc(), file).map_err(refused)?;
    let sum = sum_of(
        count,
        |address| find_offset(address, &sections, ALIGNMENT, opts),
    );
    println!(rt; "{sum:#x}")
}

/// Shows the same by an index of the sections.
pub fn show_index(
    rt: &HostRuntime,
    file: &[u8],
    count: usize,
    opts: &ParseOptions,
) -> io::Result<()> {
    let index = index_of(rt.alloc(), file, opts).map_err(refused)?;
    let sum = sum_of(count, |address| index.find(address));
    println!(rt; "{sum:#x}")
}

fn index_of(alloc: Global, file: &[u8], opts: &ParseOptions) -> goblin_base::Result<WindowIndex> {
    let sections = sections_of(alloc, file)?;
    WindowIndex::prepare(alloc, &sections, ALIGNMENT, opts)
}

/// The sections of an object.
pub fn sections_of(alloc: Global, file: &[u8]) -> goblin_base::Result<Vec<SectionTable>> {
    let mut offset = 0;
    let header = CoffHeader::parse(file, &mut offset)?;
    header.sections(alloc, file, &mut offset)
}

// The offsets of `count` addresses, added up.
fn sum_of<F: Fn(usize) -> Option<usize>>(count: usize, find: F) -> usize
    requires { F.IsAlwaysCallable find }
{
    let mut sum = 0usize;
    for i in 0..count {
        let found = find(i.wrapping_mul(STEP) % SPAN);
        sum = sum.wrapping_add(found.unwrap_or(0));
    }
    sum
}
