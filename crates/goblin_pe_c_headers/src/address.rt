//! The file offset of an RVA, and the RVA of a file offset.

ghost use Rattle.std.specs.Prelude.{◌≡◌, IfSome, option_map};
ghost use Rattle.goblin_base.specs.Parts.{bytes_in, in_memory};
ghost use Rattle.goblin_pe_c_headers.specs.Addresses.{first_address, image_address, image_map};
ghost use Rattle.goblin_pe_c_headers.specs.Addresses.{image_addressing, mapped_image};
ghost use Rattle.goblin_pe_c_headers.specs.Addresses.{mapped_model, mapped_offset};

use crate::image::{PeImage, places_of};
use crate::kind::Kind;
use crate::options::{are_known, maps_addresses, options_at, view_of};
use crate::places::section_records;
use goblin_base::MappedBytes;
use goblin_pe_sect::added::{offset_by_records, part_by_records, rva_in};
use goblin_pe_sect::address_map::MappedRecords;
use goblin_pe_sect::options::Mapping;
use goblin_pe_sect::section_table::SectionRecords;

// What maps the RVAs of an image.
#[derive(Copy, Clone)]
pub(crate) struct Mapped<'a> {
    // The section headers in the file, and the file's front if it is mapped.
    pub(crate) records: MappedRecords<'a>,
    // The file alignment of the raw data.
    pub(crate) file_alignment: u32,
    // The alignment of the sections in memory.
    pub(crate) section_alignment: u32,
    // How addresses are mapped by these.
    pub(crate) mapping: Mapping,
}

// What maps the RVAs of an image. Nothing does in an object or a TE file, or if the options are not
// known. Section headers, and a file alignment that is a power of two, are not needed if RVAs are
// offsets.
#[tactic(auto, unfolding(crate::specs::Addresses::mapped_image), using(goblin_pe_sect::proofs::SectionRecords::sections_none))]
pub(crate) fn mapped_by<'a>(image: &PeImage<'a>) -> Option<Mapped<'a>>
    ensures { option_map mapped_model result ≡ mapped_image image.now }
{
    let (options, places) = (&image.options, places_of(image));
    if image.kind != Kind::Image as u32 || !are_known(options) {
        return None;
    }
    let records = if !maps_addresses(options) {
        SectionRecords::of(&image.bytes[..0])
    } else if places.file_alignment.is_power_of_two() {
        section_records(image.bytes, &places).ok()?
    } else {
        return None;
    };
    let view = view_of(options);
    let front = view.front(places.size_of_headers);
    Some(Mapped {
        records: MappedRecords { records, front },
        file_alignment: places.file_alignment,
        section_alignment: image.optional_header.windows_fields.section_alignment,
        mapping: view.mapping(&options_at(options, places.file_alignment)),
    })
}

fn mapped_offset(mapped: &Mapped, rva: usize) -> Option<usize>
    ensures { result ≡ mapped_offset (mapped_model mapped.now) rva }
{
    let rva = u32::try_from(rva).ok()?;
    offset_by_records(mapped.records, mapped.file_alignment, mapped.mapping, rva)
}

/// The file offset of an RVA, as the options map. If several sections hold it, the first one
/// counts.
pub fn offset_of(image: &PeImage, rva: usize) -> Option<usize>
    ensures { result ≡ image_map image.now rva }
{
    mapped_offset(&mapped_by(image)?, rva)
}

/// What a read at an RVA sees, and the RVA's file offset, if it has one. Offsets in it are file
/// offsets. In a loader's view it ends with the section's window, and zeros follow, up to the end
/// of the section's last page; in goblin's view it is all bytes of the file.
pub fn part_of<'a>(image: &PeImage<'a>, rva: usize) -> Option<(MappedBytes<'a>, usize)>
    ensures part { let end = (image_addressing image.now).end rva in
        IfSome result (λ part. bytes_in part.0 ≡ in_memory end image.now.bytes.now) }
    ensures offset { option_map (λ part. part.1) result ≡ image_map image.now rva }
{
    let mapped = mapped_by(image)?;
    let rva = u32::try_from(rva).ok()?;
    let (part, offset) = part_by_records(
        image.bytes,
        mapped.records,
        mapped.file_alignment,
        mapped.mapping,
        rva,
    );
    Some((part, offset?))
}

// The RVA that the first section whose raw data holds the offset has there.
fn first_address(mapped: &Mapped, offset: usize) -> Option<usize>
    ensures { result ≡ first_address (mapped_model mapped.now) offset }
{
    if !mapped.mapping.resolve_rva {
        return Some(offset);
    }
    let (records, alignment, mapping) = (mapped.records, mapped.file_alignment, mapped.mapping);
    let (_, section) = records.find(|it| rva_in(offset, it, alignment, mapping).is_some())?;
    rva_in(offset, &section, alignment, mapping)
}

/// The RVA of a file offset: that in the first section whose raw data holds the offset, or else in
/// the headers, if they are mapped. `None` if it is not mapped back to the offset, because an
/// earlier section hides it.
pub fn rva_of(image: &PeImage, offset: usize) -> Option<usize>
    ensures { result ≡ image_address image.now offset }
{
    let mapped = mapped_by(image)?;
    let rva = first_address(&mapped, offset)?;
    match mapped_offset(&mapped, rva) {
        Some(found) if found == offset => Some(rva),
        _ => None,
    }
}
