//! The header that a record says.

ghost use Rattle.std.specs.Prelude.{◌≡◌, map};
ghost use Rattle.goblin_base.specs.Reading.{Reads};
ghost use Rattle.goblin_pe_head.specs.PeHeader.{header_value};
ghost use Rattle.goblin_pe_c_headers.specs.Written.{entry_from_c, header_from_c, image_stub};
ghost use Rattle.goblin_pe_c_headers.specs.Written.{optional_from_c};

use crate::image::PeImage;
use goblin_base::Result;
use goblin_base::read::pread_slice;
use goblin_pe_head::header::{DOS_STUB_OFFSET, DosStub, Header, PE_MAGIC};
use goblin_pe_head::optional_header::OptionalHeader;
use goblin_pe_sect::data_directories::{DataDirectories, DataDirectory};

// The entry of a directory. Where its record ends does not matter to who writes it.
fn entry_from_c(directory: DataDirectory) -> Option<(usize, DataDirectory)>
    ensures { result ≡ entry_from_c directory }
{
    Some((0, directory))
}

fn optional_from_c(image: &PeImage) -> Option<OptionalHeader>
    ensures { result ≡ optional_from_c image.now }
{
    if !image.has_optional_header {
        return None;
    }
    let data_directories = DataDirectories {
        data_directories: image.directories.map(entry_from_c),
    };
    Some(OptionalHeader {
        standard_fields: image.optional_header.standard_fields,
        windows_fields: image.optional_header.windows_fields,
        data_directories,
    })
}

/// The DOS stub of an image: bytes of the file, or the built-in one.
///
/// # Errors
/// Read if the file has no such bytes.
#[tactic(auto, unfolding(goblin_pe_head::specs::DosStub::default_stub))]
pub fn stub_of<'a>(image: &PeImage<'a>) -> Result<&'a [u8]>
    ensures { Reads (λ s. s.now) result (image_stub image.now) image.now.bytes.now }
{
    if image.is_dos_stub_replaced {
        return Ok(DosStub::default().bytes);
    }
    if image.dos_stub_size == 0 {
        return Ok(&image.bytes[..0]);
    }
    Ok(pread_slice(image.bytes, DOS_STUB_OFFSET as usize, image.dos_stub_size)?)
}

/// The header that an image and the bytes of its DOS stub say, its Rich header part of the stub.
pub fn header_from_c<'a>(image: &PeImage, stub: &'a [u8]) -> Header<'a>
    ensures value { header_value result ≡ header_from_c image.now stub.now }
    ensures optional { result.optional_header ≡ optional_from_c image.now }
{
    Header {
        dos_header: image.dos_header,
        dos_stub: DosStub { bytes: stub },
        rich_header: None,
        signature: PE_MAGIC,
        coff_header: image.coff_header,
        optional_header: optional_from_c(image),
    }
}
