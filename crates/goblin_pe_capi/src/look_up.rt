//! The calls that look up an RVA or a file offset of an image. They look the sections up in the
//! file, and take no memory.
//!
//! They find nothing in an object or a TE file, at an RVA from 2^32 on, or if the options are
//! unknown. With [`PeMapping::Identity`](goblin_pe_c_headers::options::PeMapping) any other RVA is
//! its own offset, whatever the header says. With another mapping they also find nothing if the
//! file has no room for the section headers, or if the file alignment is no power of two.

ghost use Rattle.std.specs.Prelude.{◌≡◌, ◌==◌};
ghost use Rattle.goblin_pe_c_headers.specs.Addresses.{image_address, image_map};
ghost use Rattle.goblin_pe_c_headers.specs.{Found.Puts, Places.image_places};
ghost use Rattle.goblin_pe_c_headers.specs.{Sections.section_model};
ghost use Rattle.goblin_pe_c_headers.specs.Memory.{SeesFile, memory_at, memory_model, section_data};

use goblin_pe_c_headers::address::{offset_of, rva_of};
use goblin_pe_c_headers::found::put_found;
use goblin_pe_c_headers::image::{PeImage, places_of};
use goblin_pe_c_headers::memory::{self, PeMemory};
use goblin_pe_c_headers::section::PeSection;

/// Sets `*offset` to the file offset of an RVA, as `image->options.mapping` says. If several
/// sections hold it, the first one counts. The offset may lie past the end of the file.
///
/// Returns whether the RVA has an offset. If sections map RVAs, it has none outside of them and of
/// mapped headers, and in the zeros after raw data.
#[unsafe(no_mangle)]
pub extern "C" fn goblin_pe_raw_find_offset(image: &PeImage, rva: usize, offset: &mut usize) -> bool
    ensures { Puts (λ o. o) result (image_map image.now rva) offset.old offset.new }
{
    put_found(offset, offset_of(image, rva))
}

/// Sets `*rva` to an RVA that `goblin_pe_find_offset` maps to this offset: that in the first
/// section whose raw data holds the offset, or else in the headers.
///
/// Returns whether there is one. There is none if an earlier section hides it at that RVA; later
/// sections are not tried.
#[unsafe(no_mangle)]
pub extern "C" fn goblin_pe_raw_find_rva(image: &PeImage, offset: usize, rva: &mut usize) -> bool
    ensures { Puts (λ a. a) result (image_address image.now offset) rva.old rva.new }
{
    put_found(rva, rva_of(image, offset))
}

/// Tells what a loader puts at an RVA: the region and section, and the first `size` bytes as far as
/// they are known. Fills `*memory` in any case. With `size` 0 it only looks up the region and the
/// section; with `SIZE_MAX` it gives all bytes up to the end of the section's memory, which has whole
/// pages as a loader maps it.
///
///     if (goblin_pe_memory_at(&image, rva, 16, &memory) && memory.bytes.length == 16)
///         use(memory.bytes.bytes);
///
/// A section whose raw data holds the RVA comes first, then the mapped headers, then a section
/// whose memory reaches it. As a loader maps, memory goes on with zeros up to the end of a page; as
/// goblin maps, up to the virtual size. So if `goblin_pe_find_offset` finds an offset inside the
/// file, the first byte is the byte there, except in uninitialized data without a raw pointer,
/// which is zeros.
///
/// Returns whether nothing is missing; with `size` 0 so always true.
#[unsafe(no_mangle)]
pub extern "C" fn goblin_pe_raw_memory_at<'a>(
    image: &PeImage<'a>,
    rva: usize,
    size: usize,
    memory: &mut PeMemory<'a>,
) -> bool
    ensures value { memory_model memory.new ≡ memory_at image.now rva size }
    ensures file { SeesFile image.now }
    ensures all { result ≡ (memory.new.missing == 0) }
{
    *memory = memory::memory_at(image, rva, size);
    memory.missing == 0
}

/// Gives the contents of a section: its raw data, and the zeros that the loader adds up to the
/// virtual size. Raw data that is longer than the virtual size is given whole. Uninitialized data
/// without a raw pointer (an object's .bss) has no bytes, and is zeros. If the file ends too early,
/// `missing` says how many bytes it lacks, and no zeros follow.
///
/// The raw data begins as `image->options.mapping` says, with
/// [`PeMapping::Identity`](goblin_pe_c_headers::options::PeMapping) at the stored raw pointer. In a
/// dump that is another place: use [`goblin_pe_memory_at`]. `section` may be made by hand. With an
/// unknown mapping all is missing. Fills `*memory` in any case.
///
/// Returns whether nothing is missing.
#[unsafe(no_mangle)]
pub extern "C" fn goblin_pe_raw_section_data<'a>(
    image: &PeImage<'a>,
    section: &PeSection,
    memory: &mut PeMemory<'a>,
) -> bool
    ensures value { let i = image.now in
        memory_model memory.new
        ≡ section_data i.options (image_places i).file_alignment i.bytes.now section.now.index
        (section_model section.now) }
    ensures all { result ≡ (memory.new.missing == 0) }
{
    let alignment = places_of(image).file_alignment;
    *memory = memory::section_data(image.bytes, &image.options, alignment, section);
    memory.missing == 0
}
