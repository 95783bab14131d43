//! The rows of sections, and their headers written back.

ghost use Rattle.std.specs.Prelude.{◌≡◌, ◌+◌, ◌*◌, ◌<◌, ◌/◌, length, option_map, slice_range, take};
ghost use Rattle.goblin_base.specs.{declared.endian.Endian.TheVariants.Little, Bytes.before_nul};
ghost use Rattle.goblin_pe_sect.specs.SectionReadings.{SectionWritesBack};
ghost use Rattle.goblin_pe_sect.specs.SectionTable.{section_record, unnamed};
ghost use Rattle.goblin_pe_head.specs.TeHeader.{section_moved};
ghost use Rattle.goblin_pe_c_headers.specs.Onward.{GivesRows, batch_at};
ghost use Rattle.goblin_pe_c_headers.specs.Relocations.{relocations_begin};
ghost use Rattle.goblin_pe_c_headers.specs.Sections.{ReadsSections, displacement_of, long_name};
ghost use Rattle.goblin_pe_c_headers.specs.Sections.{row_model, row_of, section_model};
ghost use Rattle.goblin_pe_c_headers.specs.Sections.{section_rows};
ghost use Rattle.goblin_pe_c_headers.specs.Written.{Output, WritesSection};

use crate::batch::{PeBatch, ended, goes_on};
use crate::cursor::PeCoffRelocationCursor;
use crate::image::PeImage;
use crate::kind::Kind;
use crate::name::cut_name;
use crate::options::{header_options, longest_of};
use crate::places::section_headers;
use goblin_base::read::{before_nul, pread_ascii_str, pread_str_within};
use goblin_base::{Endian, Result};
use goblin_pe_head::header::adjust_section;
use goblin_pe_sect::section_table::{
    IMAGE_SCN_LNK_NRELOC_OVFL, SIZEOF_SECTION_TABLE, SectionRecords, SectionTable,
};

/// A section header. The numbers are as stored, but in a TE file, where they are moved.
///
/// Source: PE Format, "Section Table (Section Headers)".
#[repr(C)]
#[derive(Copy, Clone)]
pub struct PeSection<'a> {
    /// The name: from the string table if `stored_name` is a slash and a number, else the bytes of
    /// `stored_name` before the first NUL. It need not be UTF-8.
    pub name: &'a [u8],
    /// The index in the section table; a symbol's `section_number` is one more.
    pub index: usize,
    /// Where the walk over its relocations begins.
    pub relocations: PeCoffRelocationCursor,
    /// The eight bytes of the name, padded with NULs.
    pub stored_name: [u8; 8],
    /// The size in memory. If it is above the raw size, zeros follow the raw data.
    pub virtual_size: u32,
    /// An RVA.
    pub virtual_address: u32,
    /// The size of the raw data in the file.
    pub size_of_raw_data: u32,
    /// The file offset of the raw data, as stored.
    pub pointer_to_raw_data: u32,
    /// The file offset of the relocations, 0 if there are none.
    pub pointer_to_relocations: u32,
    /// The file offset of the line numbers, 0 if there are none.
    pub pointer_to_linenumbers: u32,
    /// How many relocations the section header counts.
    pub number_of_relocations: u16,
    /// How many line numbers there are.
    pub number_of_linenumbers: u16,
    /// Bits `IMAGE_SCN_*`.
    pub characteristics: u32,
    /// Whether the name is from the string table.
    pub has_long_name: bool,
    /// Whether the name is cut.
    pub is_name_cut: bool,
    /// Zeros.
    pub reserved: [u8; 6],
}

/// The section of a row, without its name from the string table, which would take memory.
pub(crate) fn section_of(section: &PeSection) -> SectionTable
    ensures { result ≡ unnamed (section_model section.now) }
{
    SectionTable {
        name: section.stored_name,
        real_name: None,
        virtual_size: section.virtual_size,
        virtual_address: section.virtual_address,
        size_of_raw_data: section.size_of_raw_data,
        pointer_to_raw_data: section.pointer_to_raw_data,
        pointer_to_relocations: section.pointer_to_relocations,
        pointer_to_linenumbers: section.pointer_to_linenumbers,
        number_of_relocations: section.number_of_relocations,
        number_of_linenumbers: section.number_of_linenumbers,
        characteristics: section.characteristics,
    }
}

// The name of a section from the string table, by the number in its eight bytes.
#[inline(never)]
#[tactic(auto, unfolding(crate::specs::Sections::real_name_in))]
fn any_long_name<'a>(image: &PeImage<'a>, section: &SectionTable) -> Option<&'a str>
    ensures { option_map (λ s. s.now) result ≡ long_name image.now section.now.name }
{
    let opts = header_options(&image.options);
    let offset = section.name_offset_with_opts(&opts).ok()??;
    let place = image.coff_header.symbols_end().checked_add(offset)?;
    pread_str_within(image.bytes, place, longest_of(&image.options)).ok()
}

// The same, without a call if the name begins with no slash, as most names do.
#[inline(always)]
#[tactic(auto, unfolding(crate::specs::Sections::real_name_in, goblin_pe_sect::specs::SectionName::name_value))]
fn long_name<'a>(image: &PeImage<'a>, section: &SectionTable) -> Option<&'a str>
    ensures { option_map (λ s. s.now) result ≡ long_name image.now section.now.name }
{
    if section.name[0] == b'/' {
        any_long_name(image, section)
    } else {
        None
    }
}

// Where the walk over the relocations of a section begins.
fn relocations_begin(section: &SectionTable) -> PeCoffRelocationCursor
    ensures { result ≡ relocations_begin section.now }
{
    let is_full = section.number_of_relocations == 0xFFFF;
    let is_extended = is_full && section.characteristics & IMAGE_SCN_LNK_NRELOC_OVFL != 0;
    PeCoffRelocationCursor {
        index: usize::from(is_extended),
        offset: section.pointer_to_relocations,
        count: section.number_of_relocations,
        is_extended,
        reserved: 0,
    }
}

// The bytes of a stored name before its first NUL; it is at the front of the section header.
#[inline(always)]
#[tactic(auto, using(crate::proofs::Named::name_shorter, crate::proofs::Named::name_longer))]
fn raw_name(header: &[u8]) -> &[u8]
    requires { length header.now ≡ 40 }
    ensures { result.now ≡ before_nul (take 8 header.now) }
{
    match pread_ascii_str(header, 0) {
        Some(name) if name.len() < 8 => name.as_bytes(),
        Some(_) => &header[..8],
        None => any_raw_name(header),
    }
}

// The same of a name that need not be ASCII.
#[inline(never)]
fn any_raw_name(header: &[u8]) -> &[u8]
    requires { length header.now ≡ 40 }
    ensures { result.now ≡ before_nul (take 8 header.now) }
{
    before_nul(&header[..8])
}

// The section of a section header, where it is in the file.
#[inline(always)]
#[tactic(auto, using(crate::proofs::Named::section_inside, crate::proofs::Named::section_there))]
fn stored_section(headers: &[u8], index: usize, displacement: Option<u32>) -> SectionTable
    requires { index < length headers.now / 40 }
    ensures { let header = slice_range headers.now (40 * index) (40 * index + 40) in
        result ≡ section_moved displacement (section_record Little header) }
{
    let mut section = SectionRecords::of(headers).at(index);
    adjust_section(&mut section, displacement);
    section
}

// How far the sections of an image moved to the front, if they did.
fn displacement_of(image: &PeImage) -> Option<u32>
    ensures { result ≡ displacement_of image.now }
{
    (image.kind == Kind::Te as u32).then_some(u32::from(image.moved_by))
}

// Puts the row of the section header at an index, which is there, into its place.
#[inline(always)]
fn put_row<'a>(place: &mut PeSection<'a>, image: &PeImage<'a>, headers: &'a [u8], index: usize)
    requires { index < length headers.now / 40 }
    ensures { let header = slice_range headers.now (40 * index) (40 * index + 40) in
        row_model place.new ≡ row_of image.now index header }
{
    let begin = SIZEOF_SECTION_TABLE * index;
    let header = &headers[begin..begin + SIZEOF_SECTION_TABLE];
    let section = stored_section(headers, index, displacement_of(image));
    let long_name = long_name(image, &section);
    let name = match long_name {
        Some(name) => name.as_bytes(),
        None => raw_name(header),
    };
    let (name, is_name_cut) = cut_name(name, longest_of(&image.options));
    *place = PeSection {
        name,
        index,
        relocations: relocations_begin(&section),
        stored_name: section.name,
        virtual_size: section.virtual_size,
        virtual_address: section.virtual_address,
        size_of_raw_data: section.size_of_raw_data,
        pointer_to_raw_data: section.pointer_to_raw_data,
        pointer_to_relocations: section.pointer_to_relocations,
        pointer_to_linenumbers: section.pointer_to_linenumbers,
        number_of_relocations: section.number_of_relocations,
        number_of_linenumbers: section.number_of_linenumbers,
        characteristics: section.characteristics,
        has_long_name: long_name.is_some(),
        is_name_cut,
        reserved: [0; 6],
    };
}

// Fills rows with section headers from the index `position` on, as far as there is room, and moves
// the index past them.
fn fill_sections<'a>(
    image: &PeImage<'a>,
    headers: &'a [u8],
    position: &mut usize,
    records: &mut [PeSection<'a>],
) -> PeBatch
    ensures { GivesRows row_model (section_rows image.now headers.now)
        (batch_at position.old records.old) (batch_at position.new records.new) result }
{
    let there = headers.len() / SIZEOF_SECTION_TABLE;
    let mut index = *position;
    'records: for count in 0..records.len() {
        if there <= index {
            *position = index;
            return ended(count);
        }
        put_row(&mut records[count], image, headers, index);
        index += 1;
    }
    *position = index;
    goes_on(records.len())
}

/// Gives the next section headers. Never faults on a name: a read of an image has tested them, and
/// after a fault a bad one is its eight bytes.
///
/// # Errors
/// Read if the file has no room for `section_count` headers; nothing but `batch` is then changed.
pub fn next_sections<'a>(
    image: &PeImage<'a>,
    position: &mut usize,
    records: &mut [PeSection<'a>],
    batch: &mut PeBatch,
) -> Result<()>
    ensures { ReadsSections image.now (batch_at position.old records.old)
        (batch_at position.new records.new) batch.new result }
{
    *batch = ended(0);
    let headers = section_headers(image.bytes, image.section_table, image.section_count)?;
    *batch = fill_sections(image, headers, position, records);
    Ok(())
}

/// Writes the 40 bytes of a section header. Writes `stored_name`, and not `name`. Sets `written` to
/// 40.
///
/// # Errors
/// Read if `out` has fewer than 40 bytes; nothing is then changed.
pub fn write_section(section: &PeSection, out: &mut [u8], written: &mut usize) -> Result<()>
    ensures written { let old : Output = record { out = out.old; written = written.old } in
        let new : Output = record { out = out.new; written = written.new } in
        WritesSection section.now old new result }
    ensures back { SectionWritesBack }
{
    *written = section_of(section).try_into_ctx(out, Endian::Little)?;
    Ok(())
}
