//! The header of an image as far as it goes.

ghost use Rattle.std.specs.Prelude.{◌≡◌, unwrap_or};
ghost use Rattle.goblin_base.specs.Reading.{Reads};
ghost use Rattle.goblin_pe_sect.specs.{Options.is_strict, SectionTable.recorded_sections};
ghost use Rattle.goblin_pe_head.specs.{CoffHeader.symbols_end, CoffReadings.sections_at};
ghost use Rattle.goblin_pe_head.specs.{DosStub.stub_bytes, added.HeaderParts.unnamed_sections};
ghost use Rattle.goblin_pe_c_headers.specs.{Faults.status_of, ImageRecords.IsImage};
ghost use Rattle.goblin_pe_c_headers.specs.ImageRecords.{zero_image};
ghost use Rattle.goblin_pe_c_tables.specs.PartialImages.{AreTableFaults, SaysPartial, Tests};
ghost use Rattle.goblin_pe_c_tables.specs.PartialImages.{directories_fault, faults_of, file_stub};
ghost use Rattle.goblin_pe_c_tables.specs.PartialImages.{given_count, given_or, has_fields};
ghost use Rattle.goblin_pe_c_tables.specs.PartialImages.{is_replaced, partial_image, same_faults};
ghost use Rattle.goblin_pe_c_tables.specs.PartialImages.{sections_of, stub_size};

use crate::read::{read, rich_record};
use goblin_pe::added::{HeaderParts, unnamed_records};
use goblin_pe::header::{CoffHeader, DosHeader, DosStub, RichHeader};
use goblin_pe::options::ParseOptions;
use goblin_pe::section_table::SectionRecords;
use goblin_pe::{Cause, Error, Places, Result};
use goblin_pe_c_headers::fault::{PeFault, fault_of, no_fault};
use goblin_pe_c_headers::headers::fill_optional;
use goblin_pe_c_headers::image::{PeImage, zero_image};
use goblin_pe_c_headers::kind::Kind;
use goblin_pe_c_headers::options::{PeOptions, header_options};
use goblin_pe_sect::data_directories::NUM_DATA_DIRECTORIES;

/// Which parts of a header can't be read. A part that is there, or that the file does not have, has
/// the status 0. If only another part tells where a part is, it has the fault of that part.
#[repr(C)]
#[derive(Copy, Clone)]
pub struct PeHeaderFaults {
    /// With the PE signature.
    pub dos_header: PeFault,
    /// The DOS stub.
    pub dos_stub: PeFault,
    /// The Rich header.
    pub rich_header: PeFault,
    /// The COFF header.
    pub coff_header: PeFault,
    /// The standard fields of the optional header.
    pub standard_fields: PeFault,
    /// The Windows fields of the optional header.
    pub windows_fields: PeFault,
    /// The data directories. If there are more than sixteen, the first sixteen are still read.
    pub directories: PeFault,
    /// The section table. The complete section headers are read.
    pub section_table: PeFault,
    /// The section names. A section with a bad name keeps its eight bytes.
    pub section_names: PeFault,
}

// The fault of a part.
fn fault_in<T>(part: &Result<T>) -> PeFault
    ensures { result ≡ status_of part.now }
{
    match part {
        Ok(_) => no_fault(),
        Err(error) => fault_of(error),
    }
}

// A header that is given, or zeros.
fn given_or_zeros<T: Copy>(header: &Result<T>, zeros: T) -> T
    ensures { result ≡ given_or zeros header.now }
{
    match header {
        Ok(header) => *header,
        Err(_) => zeros,
    }
}

// The DOS stub of a file.
fn file_stub(bytes: &[u8]) -> Result<DosStub<'_>>
    ensures { Reads stub_bytes result file_stub bytes.now }
{
    let header = DosHeader::parse(bytes)?;
    DosStub::parse(bytes, header.pe_pointer)
}

// How many bytes the stub has; those of the built-in one if that replaces it.
fn stub_size(stub: &Result<DosStub>, is_replaced: bool) -> usize
    ensures { result ≡ stub_size stub.now is_replaced }
{
    match stub {
        Ok(stub) => stub.bytes.len(),
        Err(_) if is_replaced => DosStub::default().bytes.len(),
        Err(_) => 0,
    }
}

// The section headers that are given.
#[tactic(auto, using(goblin_pe_sect::proofs::SectionRecords::sections_none))]
fn records_or_none<'a>(records: &Result<SectionRecords<'a>>) -> SectionRecords<'a>
    ensures { recorded_sections result ≡ sections_of records.now }
{
    match records {
        Ok(records) => *records,
        Err(_) => SectionRecords::of(&[]),
    }
}

// How many sections are given.
fn count_given(parts: &HeaderParts) -> u16
    ensures { result ≡ given_count parts.now }
{
    let count = given_or_zeros(&parts.coff_header, CoffHeader::default()).number_of_sections;
    let there = records_or_none(&parts.section_records).len();
    if there < count as usize {
        there as u16
    } else {
        count
    }
}

// Tests that the file has all section headers that its COFF header counts.
fn test_table(bytes: &[u8], coff_header: CoffHeader, section_table: usize) -> Result<()>
    ensures { Tests (unnamed_sections coff_header.number_of_sections section_table) bytes.now
        result }
{
    unnamed_records(bytes, section_table, coff_header.number_of_sections)?;
    Ok(())
}

// Tests the names of the first section headers, as many as the file has.
fn test_names(
    bytes: &[u8],
    coff_header: CoffHeader,
    section_table: usize,
    count: u16,
    opts: &ParseOptions,
) -> Result<()>
    ensures { let table = symbols_end coff_header in
        Tests (sections_at (is_strict opts.now.parse_mode) table count section_table) bytes.now
        result }
{
    let header = CoffHeader {
        number_of_sections: count,
        ..coff_header
    };
    header.section_records_with_opts(bytes, &mut { section_table }, opts)?;
    Ok(())
}

// The faults of the section table and of the names in it.
fn table_faults(
    bytes: &[u8],
    parts: &HeaderParts,
    count: u16,
    opts: &ParseOptions,
) -> (PeFault, PeFault)
    ensures { let table = unwrap_or parts.now.section_table 0 in
        AreTableFaults bytes.now parts.now.coff_header table count (is_strict opts.now.parse_mode)
        result }
{
    let Ok(coff_header) = parts.coff_header else {
        let fault = fault_in(&parts.coff_header);
        return (fault, fault);
    };
    let table = parts.section_table.unwrap_or(0);
    (
        fault_in(&test_table(bytes, coff_header, table)),
        fault_in(&test_names(bytes, coff_header, table, count, opts)),
    )
}

// Whether all fields of the optional header before its directories are given.
fn has_fields(parts: &HeaderParts) -> bool
    ensures { result ≡ has_fields parts.now }
{
    matches!(
        (&parts.standard_fields, &parts.windows_fields),
        (Ok(Some(_)), Ok(Some(_)))
    )
}

// Whether permissive mode replaces the stub: the DOS header is there, and the stub is not.
fn is_replaced(options: &PeOptions, parts: &HeaderParts, stub: &Result<DosStub>) -> bool
    ensures { result ≡ is_replaced options.now parts.now stub.now }
{
    options.is_permissive && parts.dos_header.is_ok() && stub.is_err()
}

// The record of these parts.
fn partial_image<'a>(
    bytes: &'a [u8],
    options: &PeOptions,
    parts: &HeaderParts,
    stub: &Result<DosStub>,
    rich: &Result<Option<RichHeader>>,
) -> PeImage<'a>
    ensures { IsImage bytes.now result (partial_image options.now parts.now stub.now rich.now) }
{
    let optional = parts.optional_header();
    let directories = Places::of(&optional).directories;
    let is_replaced = is_replaced(options, parts, stub);
    let zeros = zero_image(bytes, options, Kind::Image as u32);
    let mut optional_header = zeros.optional_header;
    fill_optional(&mut optional_header, &optional);
    PeImage {
        section_table: parts.section_table.unwrap_or(0),
        section_count: count_given(parts) as usize,
        dos_header: given_or_zeros(&parts.dos_header, zeros.dos_header),
        coff_header: given_or_zeros(&parts.coff_header, zeros.coff_header),
        has_optional_header: has_fields(parts),
        is_dos_stub_replaced: is_replaced,
        optional_header,
        directories,
        dos_stub_size: stub_size(stub, is_replaced),
        rich_header: rich_record(&given_or_zeros(rich, None)),
        ..zeros
    }
}

// The fault of the data directories. There may be at most sixteen.
fn directories_fault(parts: &HeaderParts) -> PeFault
    ensures { let found = status_of parts.now.data_directories in
        result ≡ directories_fault parts.now.windows_fields found }
{
    let found = fault_in(&parts.data_directories);
    let Ok(Some(fields)) = &parts.windows_fields else {
        return found;
    };
    let count = fields.number_of_rva_and_sizes as usize;
    if NUM_DATA_DIRECTORIES < count {
        return fault_of(&Error::Malformed(Cause::DirectoryCount(count)));
    }
    found
}

// The faults of these parts.
fn faults_of(
    parts: &HeaderParts,
    stub: &Result<DosStub>,
    rich: &Result<Option<RichHeader>>,
    table: (PeFault, PeFault),
) -> PeHeaderFaults
    ensures { result ≡ faults_of parts.now stub.now rich.now table }
{
    PeHeaderFaults {
        dos_header: fault_in(&parts.dos_header),
        dos_stub: fault_in(stub),
        rich_header: fault_in(rich),
        coff_header: fault_in(&parts.coff_header),
        standard_fields: fault_in(&parts.standard_fields),
        windows_fields: fault_in(&parts.windows_fields),
        directories: directories_fault(parts),
        section_table: table.0,
        section_names: table.1,
    }
}

/// Reads the header of an image as far as it goes. Fills `image` whatever the file holds, with
/// zeros where a part can't be read, and says in `faults` why. If a read of the image is not
/// refused, `image` is what that read fills.
///
/// # Errors
/// What a read of the image refuses; both records are filled all the same.
pub fn read_parts<'a>(
    bytes: &'a [u8],
    options: &PeOptions,
    image: &mut PeImage<'a>,
    faults: &mut PeHeaderFaults,
) -> Result<()>
    ensures { SaysPartial options.now bytes.now (image.new, faults.new) result }
{
    let opts = header_options(options);
    let parts = HeaderParts::read(bytes);
    let stub = file_stub(bytes);
    let rich = RichHeader::parse(bytes);
    let table = table_faults(bytes, &parts, count_given(&parts), &opts);
    *image = partial_image(bytes, options, &parts, &stub, &rich);
    *faults = faults_of(&parts, &stub, &rich, table);
    read(bytes, options, image)
}

/// Fills `image` with zeros, and gives each part the same fault, because none is read.
pub fn read_nothing<'a>(
    bytes: &'a [u8],
    options: &PeOptions,
    fault: PeFault,
    image: &mut PeImage<'a>,
    faults: &mut PeHeaderFaults,
)
    ensures image { IsImage bytes.now image.new (zero_image options.now 1) }
    ensures faults { faults.new ≡ same_faults fault }
{
    *image = zero_image(bytes, options, Kind::Image as u32);
    *faults = PeHeaderFaults {
        dos_header: fault,
        dos_stub: fault,
        rich_header: fault,
        coff_header: fault,
        standard_fields: fault,
        windows_fields: fault,
        directories: fault,
        section_table: fault,
        section_names: fault,
    };
}
