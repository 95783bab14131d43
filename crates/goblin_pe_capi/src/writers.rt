//! The calls that write a header and section headers. Numbers are little-endian.

ghost use Rattle.std.specs.Prelude.{◌≡◌};
ghost use Rattle.goblin_pe_sect.specs.SectionReadings.{SectionWritesBack};
ghost use Rattle.goblin_pe_c_headers.specs.{Calls.Reported, Calls.ReportedAfter, Faults.kind_fault};
ghost use Rattle.goblin_pe_c_headers.specs.Written.{Output, WritesHeader, WritesSection};
ghost use Rattle.goblin_pe_c_tables.specs.ReadImages.{ImageWritesBack};

use goblin_pe_c_headers::fault::{PeFault, refused_kind, status_of};
use goblin_pe_c_headers::image::PeImage;
use goblin_pe_c_headers::section::{PeSection, write_section};
use goblin_pe_c_tables::write_header::write_header;

/// Writes the header that the record says: DOS header, stub, PE signature, COFF header, and an
/// optional header with sixteen directories, if it has one. Sets `written` to the size. With room
/// 0 it writes nothing, and sets `written` to the size that is needed.
///
/// The bytes of a header that strict mode read are those of the file, up to the last of its
/// directories. If the file has fewer than sixteen, zeros follow, where the file may have its
/// section table. So write elsewhere, and copy at most `image.section_table` bytes into the file.
/// The PE signature follows the stub, whatever `pe_pointer` says.
///
/// Faults: BAD_MAGIC; FIELD_TOO_WIDE; KIND; READ if room is not 0 and too little, or the file has
/// no stub of `dos_stub_size` bytes. Nothing is written then.
#[unsafe(no_mangle)]
#[tactic(auto, using(goblin_pe_c_tables::proofs::WrittenBack::image_back))]
pub extern "C" fn goblin_pe_raw_write_header(
    image: &PeImage,
    out: &mut [u8],
    written: &mut usize,
) -> PeFault
    ensures written { let old : Output = record { out = out.old; written = written.old } in
        let new : Output = record { out = out.new; written = written.new } in
        ReportedAfter (kind_fault image.now.kind) result (new ≡ old)
        (WritesHeader image.now old new) }
    ensures back { ImageWritesBack }
{
    let refusal = refused_kind(image.kind);
    if refusal.status != 0 {
        return refusal;
    }
    status_of(write_header(image, out, written))
}

/// Writes the 40 bytes of a section header. Writes `stored_name`, and not `name`. Sets `written` to
/// 40.
///
/// Faults: READ if room is below 40, and nothing is written.
#[unsafe(no_mangle)]
pub extern "C" fn goblin_pe_raw_write_section(
    section: &PeSection,
    out: &mut [u8],
    written: &mut usize,
) -> PeFault
    ensures written { let old : Output = record { out = out.old; written = written.old } in
        let new : Output = record { out = out.new; written = written.new } in
        Reported result (WritesSection section.now old new) }
    ensures back { SectionWritesBack }
{
    status_of(write_section(section, out, written))
}
