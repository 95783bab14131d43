//! The sections of a file.

ghost use Rattle.std.specs.Prelude.{◌+◌, ◌/◌, ◌<◌, ◌≡◌, IsErrAnd, length};
ghost use Rattle.goblin_base.specs.Reading.{ReadsOrMemory};
ghost use Rattle.goblin_pe_sect.specs.Options.{is_strict};
ghost use Rattle.goblin_pe_head.specs.{CoffHeader.IsTooManySections, PeHeader.header_value};
ghost use Rattle.goblin_pe.specs.Whole.{section_table_offset, sections_after};

use goblin_base::Result;
use goblin_pe_head::header::{Header, SIZEOF_COFF_HEADER, SIZEOF_PE_MAGIC};
use goblin_pe_sect::{ParseOptions, SectionTable};
use std::alloc::Global;

// The file offset of the section table that follows an optional header of this size.
fn section_table_after(pe_pointer: u32, size_of_optional_header: u16) -> usize
    ensures { result ≡ pe_pointer + 24 + size_of_optional_header }
{
    pe_pointer as usize + SIZEOF_PE_MAGIC + SIZEOF_COFF_HEADER + size_of_optional_header as usize
}

/// The file offset of the section table. It follows the optional header, whose size the COFF header
/// gives.
///
/// Source: PE Format, "Section Table (Section Headers)".
#[inline(always)]
pub fn section_table_offset(header: &Header) -> usize
    ensures { result ≡ section_table_offset (header_value header.now) }
{
    let size = header.coff_header.size_of_optional_header;
    section_table_after(header.dos_header.pe_pointer, size)
}

/// The sections of a file with this header, in the order of their section headers, with their names
/// from the string table. They take memory, as much as
/// [`CoffHeader::sections_with_opts`](goblin_pe_head::CoffHeader::sections_with_opts) says.
///
/// Source: PE Format, "Section Table (Section Headers)".
///
/// # Errors
/// As [`CoffHeader::sections_with_opts`](goblin_pe_head::CoffHeader::sections_with_opts).
#[inline(always)]
#[tactic(auto, unfolding(crate::specs::Whole::sections_after))]
pub fn sections_of(
    alloc: Global,
    bytes: &[u8],
    header: &Header,
    opts: &ParseOptions,
) -> Result<Vec<SectionTable>>
    ensures value { let strict = is_strict opts.now.parse_mode in
        ReadsOrMemory (λ v. v.items) result (sections_after strict (header_value header.now))
        bytes.now }
    ensures first { let count = header.now.coff_header.number_of_sections in
        length bytes.now / 40 < count → IsErrAnd result (IsTooManySections count bytes.now) }
{
    let mut offset = section_table_offset(header);
    header
        .coff_header
        .sections_with_opts(alloc, bytes, &mut offset, opts)
}
