//! Where the sections and the tables of an image lie.

ghost use Rattle.std.specs.Prelude.{◌<◌, ◌^◌, IfOk, length};
ghost use Rattle.goblin_base.specs.Reading.{Reads};
ghost use Rattle.goblin_pe_sect.specs.SectionTable.{recorded_sections};
ghost use Rattle.goblin_pe_c_headers.specs.Places.{headers_there, placed_sections};

use goblin_base::read::pread_slice;
use goblin_base::{Error, ReadFault, ResultOf};
use goblin_pe_sect::data_directories::DataDirectory;
use goblin_pe_sect::section_table::{SIZEOF_SECTION_TABLE, SectionRecords};

/// Where the sections and the tables of an image lie, and how the tables are read.
#[derive(Copy, Clone)]
pub struct PePlaces {
    /// The file offset of the section table.
    pub section_table: usize,
    /// The data directories by index; zeros where there is none.
    pub directories: [DataDirectory; 16],
    /// The file alignment of the sections' raw data, in bytes; 0 without an optional header.
    pub file_alignment: u32,
    /// How many bytes the headers have, as the optional header says; 0 without one.
    pub size_of_headers: u32,
    /// How many section headers there are.
    pub number_of_sections: usize,
    /// The magic of the optional header; 0 without one.
    pub magic: u16,
}

/// The bytes of `count` section headers at an offset. If there are none, the offset does not
/// matter.
///
/// # Errors
/// [`Error::Read`] if they run past the end of the file.
#[inline(always)]
pub fn section_headers<'a, 'e>(
    bytes: &'a [u8],
    offset: usize,
    count: usize,
) -> ResultOf<'e, &'a [u8]>
    ensures value { Reads (λ s. s.now) result (headers_there count offset) bytes.now }
    ensures short { IfOk result (λ s. length s.now < 2 ^ 63) }
{
    if count == 0 {
        return Ok(&bytes[..0]);
    }
    if bytes.len() <= offset {
        return Err(Error::Read(ReadFault::BadOffset));
    }
    if bytes.len() / SIZEOF_SECTION_TABLE < count {
        return Err(Error::Read(ReadFault::TooBig));
    }
    pread_slice(bytes, offset, SIZEOF_SECTION_TABLE * count)
}

/// The sections at these places, without their names from the string table.
///
/// # Errors
/// As [`section_headers`].
#[inline(always)]
#[tactic(auto, using(goblin_pe_sect::proofs::SectionRecords::sections_none))]
pub fn section_records<'a, 'e>(
    bytes: &'a [u8],
    places: &PePlaces,
) -> ResultOf<'e, SectionRecords<'a>>
    ensures { Reads recorded_sections result (placed_sections places.now) bytes.now }
{
    let headers = section_headers(bytes, places.section_table, places.number_of_sections)?;
    Ok(SectionRecords::of(headers))
}
