//! The header of an image, in the record that all calls take.

ghost use Rattle.std.specs.Prelude.{◌≡◌, option_map};
ghost use Rattle.goblin_pe_head.specs.{PeHeader.header_value, RichHeader.rich_value};
ghost use Rattle.goblin_pe.specs.Whole.{layout as file_layout};
ghost use Rattle.goblin_pe_c_headers.specs.{Calls.ReadsWithout, ImageRecords.IsImage};
ghost use Rattle.goblin_pe_c_headers.specs.{Options.header_options, RichHeaders.rich_of};
ghost use Rattle.goblin_pe_c_tables.specs.ReadImages.{ImageLeadsBack, ImageRowsAreRead, image_of};

use goblin_pe::added::section_records_of;
use goblin_pe::header::{DOS_STUB_OFFSET, Header, RichHeader};
use goblin_pe::{Places, Result, section_table_offset};
use goblin_pe_c_headers::headers::fill_optional;
use goblin_pe_c_headers::image::{PeImage, PeRichHeader};
use goblin_pe_c_headers::kind::Kind;
use goblin_pe_c_headers::options::{PeOptions, header_options};

// So many numbers have 32 bits.
const WORDS: usize = 1 << 32;

// Where the Rich header is; zeros if there is none.
pub(crate) fn rich_record(rich: &Option<RichHeader>) -> PeRichHeader
    ensures { result ≡ rich_of (option_map rich_value rich.now) }
{
    match rich {
        Some(rich) => PeRichHeader {
            key: rich.key,
            start_offset: rich.start_offset,
            end_offset: rich.end_offset,
            padding_size: (rich.padding_size % WORDS) as u32,
            is_present: true,
            reserved: [0; 3],
        },
        None => PeRichHeader::default(),
    }
}

// Fills the record of a file with this header.
fn fill_image<'a>(
    image: &mut PeImage<'a>,
    bytes: &'a [u8],
    options: &PeOptions,
    header: &Header<'a>,
)
    ensures { IsImage bytes.now image.new (image_of options.now (header_value header.now)) }
{
    image.bytes = bytes;
    image.options = *options;
    image.kind = Kind::Image as u32;
    image.section_table = section_table_offset(header);
    image.section_count = header.coff_header.number_of_sections as usize;
    image.dos_header = header.dos_header;
    image.coff_header = header.coff_header;
    image.has_optional_header = header.optional_header.is_some();
    image.is_dos_stub_replaced = header.dos_header.pe_pointer < DOS_STUB_OFFSET;
    image.moved_by = 0;
    fill_optional(&mut image.optional_header, &header.optional_header);
    let directories = Places::of(&header.optional_header).directories;
    image.directories = directories;
    image.dos_stub_size = header.dos_stub.bytes.len();
    image.rich_header = rich_record(&header.rich_header);
}

/// Reads the header of an image: the DOS header and stub, the Rich header, the COFF and the
/// optional header, the data directories and the section table. The tables are not looked at.
///
/// # Errors
/// A damaged header, section table or section name, as `is_permissive` says; nothing is then
/// changed.
#[tactic(auto, unfolding(goblin_pe::specs::Whole::layout), using(crate::proofs::Placed::image_leads_back, crate::proofs::Named::image_rows))]
pub fn read<'a>(bytes: &'a [u8], options: &PeOptions, image: &mut PeImage<'a>) -> Result<()>
    ensures read { ReadsWithout (file_layout (header_options options.now)) bytes.now
        (λ l. IsImage bytes.now image.new (image_of options.now l.0)) (image.new ≡ image.old)
        result }
    ensures rows { ImageRowsAreRead }
    ensures back { ImageLeadsBack }
{
    let opts = header_options(options);
    let mut header = Header::default();
    header.read_with_opts(bytes, &opts)?;
    section_records_of(bytes, &header, &opts)?;
    fill_image(image, bytes, options, &header);
    Ok(())
}
