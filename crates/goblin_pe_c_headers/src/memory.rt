//! What is in memory at an RVA of an image, and the contents of a section: as a loader maps them.

ghost use Rattle.std.specs.Prelude.{◌≡◌, ◌+◌, ◌^◌, ◌<◌, ◌≤◌, Some, length, option_map};
ghost use Rattle.std.specs.Option.{unwrap_or};
ghost use Rattle.goblin_pe_c_headers.specs.{Addresses.mapped_model, Sections.section_model};
ghost use Rattle.goblin_pe_c_headers.specs.Memory.{SeesFile, addressed, available, front_at};
ghost use Rattle.goblin_pe_c_headers.specs.Memory.{holder, holder_index, is_among, is_unstored};
ghost use Rattle.goblin_pe_c_headers.specs.Memory.{known, memory_at, memory_by, memory_in_file};
ghost use Rattle.goblin_pe_c_headers.specs.Memory.{maps_pages, memory_length, memory_model};
ghost use Rattle.goblin_pe_c_headers.specs.Memory.{memory_of, memory_size, region_in, section_data};
ghost use Rattle.goblin_pe_c_headers.specs.Memory.{stored_in_memory, stored_size, unknown};
ghost use Rattle.goblin_pe_c_headers.specs.Memory.{window_size};

use crate::address::{Mapped, mapped_by};
use crate::image::PeImage;
use crate::options::{PeOptions, are_known, options_at, view_of};
use crate::section::{PeSection, section_of};
use goblin_pe_sect::SectionTable;
use goblin_pe_sect::options::{Mapping, View};
use goblin_pe_sect::section_table::IMAGE_SCN_CNT_UNINITIALIZED_DATA;
use goblin_pe_sect::utils::{raw_begin, window_by};

/// Where memory of an image comes from.
#[derive(Copy, Clone)]
pub enum Region {
    /// The loader maps nothing there.
    Unmapped = 0,
    /// The headers.
    Headers = 1,
    /// The raw data of a section, in whole file blocks. With
    /// [`PeMapping::Identity`](crate::options::PeMapping), the file.
    RawData = 2,
    /// The zeros that follow the raw data of a section.
    Zeros = 3,
}

/// The bytes that a loader puts somewhere: `bytes`, then `zeros` zeros. `missing` more were asked
/// for, and are unknown: they lie past the section's memory, or the file ends before them.
#[repr(C)]
#[derive(Copy, Clone)]
pub struct PeMemory<'a> {
    /// The bytes of the file.
    pub bytes: &'a [u8],
    /// How many zeros follow them.
    pub zeros: usize,
    /// How many bytes are missing after these.
    pub missing: usize,
    /// The index of the section; the image's `section_count` outside of sections.
    pub section_index: usize,
    /// What is at the first byte: a [`Region`].
    pub region: u32,
    /// Zero.
    pub reserved: u32,
}

fn known<'a>(
    found: (&'a [u8], usize),
    missing: usize,
    section_index: usize,
    region: Region,
) -> PeMemory<'a>
    ensures { memory_model result
        ≡ known (found.entry.0.now, found.entry.1) missing section_index region }
{
    PeMemory {
        bytes: found.0,
        zeros: found.1,
        missing,
        section_index,
        region: region as u32,
        reserved: 0,
    }
}

fn unknown(bytes: &[u8], missing: usize, section_index: usize) -> PeMemory<'_>
    ensures { memory_model result ≡ unknown missing section_index }
{
    known((&bytes[..0], 0), missing, section_index, Region::Unmapped)
}

// The first `size` bytes from an offset on, as far as the file has them.
fn front_at(bytes: &[u8], offset: usize, size: usize) -> &[u8]
    ensures value { result.now ≡ front_at bytes.now offset size }
    ensures few { length result.now ≤ size }
{
    let end = bytes.len().min(offset.saturating_add(size));
    &bytes[offset.min(bytes.len())..end]
}

// These, and the zeros that follow if the file has all of them.
fn available(bytes: &[u8], offset: usize, size: usize, zeros: usize) -> (&[u8], usize)
    ensures value { (result.0.now, result.1) ≡ available bytes.now offset size zeros }
    ensures few { length result.0.now ≤ size }
    ensures zeros { result.1 ≤ zeros }
{
    let found = front_at(bytes, offset, size);
    (found, if found.len() == size { zeros } else { 0 })
}

// The size of a section in memory: its virtual size, and its raw size if that is 0.
fn memory_size(section: &SectionTable) -> usize
    ensures value { result ≡ memory_size section.now }
    ensures small { result < 2 ^ 32 }
{
    if section.virtual_size == 0 {
        section.size_of_raw_data as usize
    } else {
        section.virtual_size as usize
    }
}

// Whether a section is one of uninitialized data that has no place in the file.
fn is_unstored(section: &SectionTable) -> bool
    ensures { result ≡ is_unstored section.now }
{
    section.characteristics & IMAGE_SCN_CNT_UNINITIALIZED_DATA != 0
        && section.pointer_to_raw_data == 0
}

// How many bytes of a section are raw data: from where they begin, by the rule of `mapping`, to
// where they end as stored.
fn stored_size(section: &SectionTable, mapping: Mapping) -> usize
    ensures value { result ≡ stored_size mapping section.now }
    ensures small { result < 2 ^ 33 }
{
    if is_unstored(section) {
        return 0;
    }
    let end = section.pointer_to_raw_data as usize + section.size_of_raw_data as usize;
    end.saturating_sub(raw_begin(section, mapping) as usize)
}

/// The contents of a section of an image: its raw data, and the zeros that the loader adds up to
/// the virtual size.
pub fn section_data<'a>(
    bytes: &'a [u8],
    options: &PeOptions,
    file_alignment: u32,
    section: &PeSection,
) -> PeMemory<'a>
    ensures { memory_model result
        ≡ section_data options.now file_alignment bytes.now section.now.index
        (section_model section.now) }
{
    let index = section.index;
    let section = section_of(section);
    let mapping = view_of(options).mapping(&options_at(options, file_alignment));
    let stored = stored_size(&section, mapping);
    let zeros = memory_size(&section).saturating_sub(stored);
    if !are_known(options) {
        return unknown(bytes, stored + zeros, index);
    }
    let found = available(bytes, raw_begin(&section, mapping) as usize, stored, zeros);
    let region = if stored == 0 {
        Region::Zeros
    } else {
        Region::RawData
    };
    known(found, stored - found.0.len(), index, region)
}

#[tactic(auto, using(goblin_pe_sect::proofs::Mapped::read_size_le))]
fn window_size(mapped: &Mapped, section: &SectionTable) -> usize
    ensures value { result ≡ window_size (mapped_model mapped.now) section.now }
    ensures small { result < 2 ^ 33 }
{
    match window_by(section, mapped.file_alignment, mapped.mapping.view) {
        Some((begin, end)) => {
            let raw_size = section.size_of_raw_data as usize;
            prove!(end - begin < raw_size + 4096);
            end - begin
        }
        None => 0,
    }
}

// Whether sections are mapped in whole pages.
#[tactic(auto, unfolding(crate::specs::Memory::maps_pages))]
fn maps_pages(mapped: &Mapped) -> bool
    ensures { result ≡ maps_pages (mapped_model mapped.now) }
{
    match mapped.mapping.view {
        View::Sections => false,
        View::LoadedSections | View::Loader => {
            512 <= mapped.file_alignment && 4096 <= mapped.section_alignment
        }
    }
}

// How many bytes a section has in memory: whole pages, or those of its size or of its window.
fn memory_length(mapped: &Mapped, section: &SectionTable) -> usize
    ensures value { result ≡ memory_length (mapped_model mapped.now) section.now }
    ensures small { result < 2 ^ 33 }
{
    let size = memory_size(section);
    if maps_pages(mapped) {
        return (size + 4095) / 4096 * 4096;
    }
    size.max(window_size(mapped, section))
}

// Whether an RVA is one of `size` from the section's address on.
fn is_among(rva: usize, section: &SectionTable, size: usize) -> bool
    requires { size < 2 ^ 33 }
    ensures { result ≡ is_among size rva section.now }
{
    let begin = section.virtual_address as usize;
    begin <= rva && rva < begin + size
}

// How many bytes of a section's memory are those of a file with this end.
fn stored_in_memory(mapped: &Mapped, section: &SectionTable, end: usize) -> usize
    ensures value { result ≡ stored_in_memory (mapped_model mapped.now) end section.now }
    ensures small { result < 2 ^ 33 }
{
    if is_unstored(section) {
        return 0;
    }
    let left = end.saturating_sub(raw_begin(section, mapped.mapping) as usize);
    let data = memory_length(mapped, section).min(stored_size(section, mapped.mapping));
    window_size(mapped, section).min(left).max(data)
}

// What holds an RVA, with its index: the first section whose window does, or else the first whose
// memory does. The file's front comes last.
fn holder(mapped: &Mapped, rva: usize) -> Option<(usize, SectionTable)>
    ensures index { option_map (λ both. both.0) result
        ≡ holder_index (mapped_model mapped.now) rva }
    ensures section { option_map (λ both. both.1) result ≡ holder (mapped_model mapped.now) rva }
{
    let mut first = None;
    let mut rest = mapped.records;
    'sections: for index in 0..mapped.records.records.len() + 1 {
        let Some((section, later)) = rest.split_first() else {
            return first;
        };
        if is_among(rva, &section, memory_length(mapped, &section)) {
            if is_among(rva, &section, window_size(mapped, &section)) {
                return Some((index, section));
            }
            first = first.or(Some((index, section)));
        }
        rest = later;
    }
    first
}

// How many of `size` bytes from an RVA on have an RVA below 2^32.
fn addressed(rva: usize, size: usize) -> usize
    ensures value { result ≡ addressed rva size }
    ensures few { result ≤ size }
{
    size.min((1_usize << 32).saturating_sub(rva))
}

// The first bytes of a section's memory, at most `size`, from an RVA in it on.
fn memory_of<'a>(
    bytes: &'a [u8],
    mapped: &Mapped,
    section: &SectionTable,
    rva: usize,
    size: usize,
) -> (&'a [u8], usize)
    ensures value { (result.0.now, result.1)
        ≡ memory_of (mapped_model mapped.now) bytes.now rva size section.now }
    ensures few { length result.0.now + result.1 ≤ size }
{
    let distance = rva.saturating_sub(section.virtual_address as usize);
    let most = memory_length(mapped, section).saturating_sub(distance);
    let most = addressed(rva, size).min(most);
    let stored = stored_in_memory(mapped, section, bytes.len()).saturating_sub(distance);
    let stored = most.min(stored);
    let begin = raw_begin(section, mapped.mapping) as usize;
    available(bytes, begin.saturating_add(distance), stored, most - stored)
}

// What is at an RVA in a section's memory.
fn region_in(bytes: &[u8], mapped: &Mapped, section: &SectionTable, rva: usize) -> Region
    ensures { result ≡ region_in (mapped_model mapped.now) bytes.now rva section.now }
{
    let distance = rva.saturating_sub(section.virtual_address as usize);
    if distance < stored_in_memory(mapped, section, bytes.len()) {
        Region::RawData
    } else {
        Region::Zeros
    }
}

// The first `size` bytes from an RVA on, by what holds it.
fn memory_by<'a>(
    bytes: &'a [u8],
    mapped: &Mapped,
    outside: usize,
    rva: usize,
    size: usize,
) -> PeMemory<'a>
    ensures { let m = mapped_model mapped.now in
        memory_model result
        ≡ memory_by m bytes.now outside rva size (unwrap_or (holder_index m rva) outside)
        (holder m rva) }
{
    let Some((index, section)) = holder(mapped, rva) else {
        return unknown(bytes, size, outside);
    };
    let found = memory_of(bytes, mapped, &section, rva, size);
    let missing = size - (found.0.len() + found.1);
    if index == outside {
        return known(found, missing, index, Region::Headers);
    }
    known(
        found,
        missing,
        index,
        region_in(bytes, mapped, &section, rva),
    )
}

// The first `size` bytes from an offset on, where RVAs are offsets.
fn memory_in_file(bytes: &[u8], outside: usize, rva: usize, size: usize) -> PeMemory<'_>
    ensures { memory_model result ≡ memory_in_file bytes.now outside rva size }
{
    let found = front_at(bytes, rva, addressed(rva, size));
    let region = if rva < bytes.len() {
        Region::RawData
    } else {
        Region::Unmapped
    };
    known((found, 0), size - found.len(), outside, region)
}

/// What a loader puts at an RVA: the first `size` bytes as far as they are known, the region and
/// the section. Where the RVA has an offset inside the file, the first byte is the byte there,
/// except in uninitialized data without a raw pointer, which is zeros.
#[tactic(auto, unfolding(crate::specs::Memory::memory_at))]
pub fn memory_at<'a>(image: &PeImage<'a>, rva: usize, size: usize) -> PeMemory<'a>
    ensures value { memory_model result ≡ memory_at image.now rva size }
    ensures file { SeesFile image.now }
{
    let (bytes, outside) = (image.bytes, image.section_count);
    match mapped_by(image) {
        Some(mapped) if rva < 1 << 32 => if mapped.mapping.resolve_rva {
            memory_by(bytes, &mapped, outside, rva, size)
        } else {
            memory_in_file(bytes, outside, rva, size)
        },
        _ => unknown(bytes, size, outside),
    }
}
