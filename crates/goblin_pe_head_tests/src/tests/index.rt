//! An index of twenty windows beside the walk over their sections.

use fixture::sample::section;
use goblin_pe_sect::utils::find_offset;
use goblin_pe_sect::{ParseOptions, RawPointerRule, SectionTable, WindowIndex};
use std::alloc::{AllocError, Global};

/// How far each section begins from the one before, in units of half a window, and whether the last
/// of the table begins first.
const ORDERS: [(u8, bool); 7] = [
    // Apart, touching, overlapping, and all at one place.
    (3, false),
    (2, false),
    (1, false),
    (0, false),
    (3, true),
    (2, true),
    (1, true),
];

/// Twenty sections in an order, each with a window of 0x200 bytes. Their raw pointers are no
/// multiples of 512.
fn table(alloc: Global, (step, is_falling): (u8, bool)) -> Result<Vec<SectionTable>, AllocError> {
    let mut sections = Vec::with_capacity(alloc, 20)?;
    for index in 0..20u32 {
        let place = if is_falling { 20 - index } else { index + 1 };
        let address = 0x100 * place * u32::from(step);
        sections.push(section(address, 0x200, 0x1F0, 0x410 + 0x200 * index))?;
    }
    Ok(sections)
}

/// Whether an index of these sections finds what a walk over them finds, for each address.
fn agrees(index: &WindowIndex, sections: &[SectionTable], opts: &ParseOptions) -> bool {
    for rva in 0..0x4400 {
        if index.find(rva) != find_offset(rva, sections, 0x200, opts) {
            return false;
        }
    }
    true
}

fn is_prepared(alloc: Global, sections: &[SectionTable], rule: RawPointerRule) -> bool {
    let opts = ParseOptions::default().with_raw_pointer_rule(rule);
    let index = WindowIndex::prepare(alloc, sections, 0x200, &opts);
    matches!(&index, Ok(index) if agrees(index, sections, &opts))
}

/// Whether that is so of the sections in an order, by each rule.
fn order_agrees(alloc: Global, order: (u8, bool)) -> bool {
    matches!(&table(alloc, order), Ok(sections)
        if is_prepared(alloc, sections, RawPointerRule::AsStored)
            && is_prepared(alloc, sections, RawPointerRule::RoundedTo512))
}

#[test]
fn an_index_and_a_walk_find_the_same(rt: HostRuntime) {
    for order in ORDERS {
        assert!(rt; order_agrees(rt.alloc(), order), "{order:?}");
    }
}
