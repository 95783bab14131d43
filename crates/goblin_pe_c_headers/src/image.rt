//! The record of an image, which all calls on it take.

ghost use Rattle.std.specs.Prelude.{◌≡◌, option_map};
ghost use Rattle.goblin_pe_c_headers.specs.{ImageRecords.zero_image, Images.slice_model};
ghost use Rattle.goblin_pe_c_headers.specs.Places.{image_places, number_if};

use crate::headers::PeOptionalHeader;
use crate::options::PeOptions;
use crate::places::PePlaces;
use goblin_pe_head::header::{CoffHeader, DosHeader};
use goblin_pe_sect::data_directories::DataDirectory;

/// Bytes of the file. A slice without bytes has the length 0, and a pointer that is not null but
/// means nothing. Where a comment says zeros, a slice is such a one. The offset of a slice with
/// bytes is `slice.bytes - image.bytes.bytes`.
#[repr(C)]
#[derive(Copy, Clone)]
pub struct PeSlice<'a> {
    /// The bytes.
    pub bytes: &'a [u8],
}

/// The slice of a text, if there is one.
pub fn slice_record<'a>(text: Option<&'a str>) -> Option<PeSlice<'a>>
    ensures { option_map slice_model result ≡ option_map (λ s. s.now) text.entry }
{
    Some(PeSlice {
        bytes: text?.as_bytes(),
    })
}

/// Where the Rich header is; zeros if there is none. Its entries lie between the padding and the
/// marker Rich.
#[repr(C)]
#[derive(Copy, Clone, Default)]
pub struct PeRichHeader {
    /// The key, under which each word is stored: as its exclusive or with the key.
    pub key: u32,
    /// The offset of the marker DanS.
    pub start_offset: u32,
    /// The offset of the marker Rich.
    pub end_offset: u32,
    /// How many bytes lie between DanS and the entries.
    pub padding_size: u32,
    /// Whether there is a Rich header.
    pub is_present: bool,
    /// Zeros.
    pub reserved: [u8; 3],
}

/// An image, an object or a TE file. What an object or a TE file does not have is zeros; of a TE
/// file `coff_header` has only the machine and the number of sections.
#[repr(C)]
#[derive(Copy, Clone)]
pub struct PeImage<'a> {
    /// The file's bytes.
    pub bytes: &'a [u8],
    /// How it is read. You may change this in a copy, but `is_permissive` says nothing of the
    /// header, which was read already.
    pub options: PeOptions,
    /// The file offset of the section table.
    pub section_table: usize,
    /// How many section headers the walks and the mapping use. After a fault it may be less than
    /// `coff_header.number_of_sections`: the file ends before the others.
    pub section_count: usize,
    /// The DOS header.
    pub dos_header: DosHeader,
    /// The COFF header.
    pub coff_header: CoffHeader,
    /// Whether there is an optional header; after a fault, whether all its fields before the
    /// directories were read. If not, no address has an offset, except with
    /// [`PeMapping::Identity`](crate::options::PeMapping).
    pub has_optional_header: bool,
    /// Whether permissive mode replaced an unreadable stub with a built-in one of `dos_stub_size`
    /// bytes, which a written header has.
    pub is_dos_stub_replaced: bool,
    /// How many bytes a TE file lost at its front, beyond the size of its TE header; else 0.
    pub moved_by: u16,
    /// The optional header.
    pub optional_header: PeOptionalHeader,
    /// The data directories, by their index; zeros where the file has fewer.
    pub directories: [DataDirectory; 16],
    /// How many bytes the DOS stub has; it begins at offset 0x40.
    pub dos_stub_size: usize,
    /// The Rich header.
    pub rich_header: PeRichHeader,
    /// Which call filled the record: a [`Kind`](crate::kind::Kind).
    pub kind: u32,
}

/// An image of zeros, except its bytes, its options and its kind.
pub fn zero_image<'a>(bytes: &'a [u8], options: &PeOptions, kind: u32) -> PeImage<'a>
    ensures bytes { result.bytes.now ≡ bytes.now }
    ensures zeros { result ≡ zero_image options.now kind result }
{
    PeImage {
        bytes,
        options: *options,
        section_table: 0,
        section_count: 0,
        dos_header: DosHeader::default(),
        coff_header: CoffHeader::default(),
        has_optional_header: false,
        is_dos_stub_replaced: false,
        moved_by: 0,
        optional_header: PeOptionalHeader::default(),
        directories: [DataDirectory::default(); 16],
        dos_stub_size: 0,
        rich_header: PeRichHeader::default(),
        kind,
    }
}

// A number of the optional header; 0 without one.
fn number_if(is_there: bool, number: u32) -> u32
    ensures { result ≡ number_if is_there number }
{
    if is_there { number } else { 0 }
}

/// Where the sections and the tables of an image lie.
#[inline(always)]
pub fn places_of(image: &PeImage) -> PePlaces
    ensures { result ≡ image_places image.now }
{
    let has_header = image.has_optional_header;
    let fields = &image.optional_header.windows_fields;
    PePlaces {
        section_table: image.section_table,
        directories: image.directories,
        file_alignment: number_if(has_header, fields.file_alignment),
        size_of_headers: number_if(has_header, fields.size_of_headers),
        number_of_sections: image.section_count,
        magic: if has_header {
            image.optional_header.standard_fields.magic
        } else {
            0
        },
    }
}
