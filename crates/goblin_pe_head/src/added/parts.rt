//! The parts of a file's header, each read by itself.

ghost use Rattle.std.specs.Prelude.{◌≡◌, ◌≤◌, ◌-◌, ◌/◌, IfOk, length, min, option_map, unwrap_or};
ghost use Rattle.goblin_base.specs.Reading.{Reads};
ghost use Rattle.goblin_pe_sect.specs.SectionTable.{recorded_sections};
ghost use Rattle.goblin_pe_head.specs.HeaderReadings.{dos_header as file_dos_header, optional_with};
ghost use Rattle.goblin_pe_head.specs.added.HeaderParts as reading;
ghost use Rattle.goblin_pe_head.specs.added.HeaderParts.{AreOfWhole, ArePartsOf, known_optional};
ghost use Rattle.goblin_pe_head.specs.added.HeaderParts.{zero_windows_fields, part_given};
ghost use Rattle.goblin_pe_head.specs.added.HeaderParts.{sections_there, unnamed_sections};

use crate::header::{CoffHeader, DosHeader, SIZEOF_PE_MAGIC};
use crate::optional_header::{
    OptionalHeader, StandardFields, WindowsFields, fields_size, standard_by, windows_by,
};
use goblin_base::{Endian, Error, Result, ResultOf, pread_slice, pread_u16};
use goblin_pe_sect::DataDirectories;
use goblin_pe_sect::data_directories::NUM_DATA_DIRECTORIES;
use goblin_pe_sect::section_table::{SIZEOF_SECTION_TABLE, SectionRecords};

/// The parts of a file's header, and its section headers, each read by itself. They show what is
/// there in a file whose header is refused as a whole.
///
/// A part that is refused has its own cause, or the cause of a part that it depends on. All parts
/// depend on the DOS header. The parts after the COFF header depend on that, too. The data
/// directories also depend on the Windows fields.
///
/// Source: PE Format, "File Headers".
#[derive(Drop)]
pub struct HeaderParts<'a> {
    /// The DOS header, with the PE signature where it points.
    pub dos_header: Result<DosHeader>,
    /// The COFF header.
    pub coff_header: Result<CoffHeader>,
    /// The standard fields of the optional header, or `None` if the COFF header says that its size
    /// is 0. Without a known magic they are refused, and so are the Windows fields and the data
    /// directories.
    pub standard_fields: Result<Option<StandardFields>>,
    /// The Windows fields, which follow the standard fields; `None` under the same condition.
    pub windows_fields: Result<Option<WindowsFields>>,
    /// The data directories, which follow the Windows fields; `None` under the same condition. If
    /// the last Windows field counts more than sixteen, these are the first sixteen. The offset in
    /// an entry counts from the front of the optional header.
    pub data_directories: Result<Option<DataDirectories>>,
    /// The file offset of the section table, or `None` if the COFF header is refused.
    pub section_table: Option<usize>,
    /// The section headers: as many as the COFF header counts, or as the file has, if it has fewer.
    /// No name is tested.
    pub section_records: Result<SectionRecords<'a>>,
}

// The same error once more, for a part that depends on the refused one.
fn again(error: &Error) -> Error
    ensures { result ≡ error.now }
{
    match error {
        Error::Malformed(cause) => Error::Malformed(*cause),
        Error::BadMagic(magic) => Error::BadMagic(*magic),
        Error::BufferTooShort(count, what) => Error::BufferTooShort(*count, what),
        Error::Read(fault) => Error::Read(*fault),
        Error::Memory(error) => Error::Memory(*error),
    }
}

#[tactic(auto, unfolding(crate::specs::added::HeaderParts::placed_coff))]
fn placed_coff(bytes: &[u8], dos_header: &Result<DosHeader>) -> Result<(usize, CoffHeader)>
    requires { Reads (λ h. h) dos_header.now file_dos_header bytes.now }
    ensures value { Reads (λ p. p) result reading.placed_coff bytes.now }
    ensures inside { IfOk result (λ p. p.0 ≤ length bytes.now) }
{
    match dos_header {
        Ok(dos_header) => {
            let mut offset = dos_header.pe_pointer as usize + SIZEOF_PE_MAGIC;
            let coff_header = CoffHeader::parse(bytes, &mut offset)?;
            Ok((offset, coff_header))
        }
        Err(error) => Err(again(error)),
    }
}

#[tactic(auto, unfolding(crate::specs::added::HeaderParts::standard_front))]
fn standard_fields(bytes: &[u8], offset: usize, size: u16) -> Result<Option<StandardFields>>
    requires { offset ≤ length bytes.now }
    ensures { Reads (λ f. f) result (optional_with (λ x. x) reading.standard_front size offset)
        bytes.now }
{
    if size == 0 {
        return Ok(None);
    }
    let rest = &bytes[offset..];
    let magic = pread_u16(rest, 0, Endian::Little)?;
    let fields = standard_by(rest, magic)?;
    Ok(Some(fields))
}

#[tactic(auto, unfolding(crate::specs::added::HeaderParts::windows_front))]
fn windows_fields(bytes: &[u8], offset: usize, size: u16) -> Result<Option<WindowsFields>>
    requires { offset ≤ length bytes.now }
    ensures { Reads (λ f. f) result (optional_with (λ x. x) reading.windows_front size offset)
        bytes.now }
{
    if size == 0 {
        return Ok(None);
    }
    let rest = &bytes[offset..];
    let magic = pread_u16(rest, 0, Endian::Little)?;
    let fields = windows_by(rest, magic)?;
    Ok(Some(fields))
}

#[tactic(auto, unfolding(crate::specs::added::HeaderParts::directories_front))]
fn data_directories(bytes: &[u8], offset: usize, size: u16) -> Result<Option<DataDirectories>>
    requires { offset ≤ length bytes.now }
    ensures { Reads (option_map (λ d. d.data_directories)) result
        (optional_with (λ x. x) reading.directories_front size offset) bytes.now }
{
    if size == 0 {
        return Ok(None);
    }
    let rest = &bytes[offset..];
    let magic = pread_u16(rest, 0, Endian::Little)?;
    let fields = windows_by(rest, magic)?;
    let count = (fields.number_of_rva_and_sizes as usize).min(NUM_DATA_DIRECTORIES);
    let directories = DataDirectories::parse(rest, count, &mut fields_size(magic))?;
    Ok(Some(directories))
}

// The `count` section headers at the file offset `offset`. If `count` is 0, the offset does not
// matter.
#[tactic(auto, using(goblin_pe_sect::proofs::SectionRecords::sections_none))]
fn section_records_at<'a, 'e>(
    bytes: &'a [u8],
    offset: usize,
    count: u16,
) -> ResultOf<'e, SectionRecords<'a>>
    ensures { Reads recorded_sections result (sections_there count offset) bytes.now }
{
    if count == 0 {
        return Ok(SectionRecords::of(&[]));
    }
    let records = pread_slice(bytes, offset, SIZEOF_SECTION_TABLE * count as usize)?;
    Ok(SectionRecords::of(records))
}

/// The `count` section headers at the file offset `offset`, whatever their names are, because the
/// loader of an image looks at no name. The call tests only that the file has the section headers.
///
/// # Errors
/// [`Error::BufferTooShort`] with the number of sections if the whole file has no room for that
/// many section headers, which is tested first; [`Error::Read`] if they run past the end of the
/// file.
pub fn unnamed_records(bytes: &[u8], offset: usize, count: u16) -> Result<SectionRecords<'_>>
    ensures { Reads recorded_sections result (unnamed_sections count offset) bytes.now }
{
    if bytes.len() / SIZEOF_SECTION_TABLE < count as usize {
        return Err(Error::BufferTooShort(count as usize, "sections"));
    }
    section_records_at(bytes, offset, count)
}

fn section_records(bytes: &[u8], offset: usize, count: u16) -> Result<SectionRecords<'_>>
    ensures { Reads recorded_sections result (reading.whole_sections count offset) bytes.now }
{
    let room = bytes.len().saturating_sub(offset) / SIZEOF_SECTION_TABLE;
    section_records_at(bytes, offset, room.min(count as usize) as u16)
}

impl<'a> HeaderParts<'a> {
    /// Reads each part of a file's header by itself. If the header is read as a whole, these are
    /// its parts.
    #[tactic(auto, unfolding(crate::specs::added::HeaderParts::sections_part), using(crate::proofs::added::WholeParts::whole_parts))]
    pub fn read(bytes: &'a [u8]) -> HeaderParts<'a>
        ensures parts { ArePartsOf bytes.now result }
        ensures whole { AreOfWhole bytes.now result }
    {
        let dos_header = DosHeader::parse(bytes);
        match placed_coff(bytes, &dos_header) {
            Ok((offset, coff_header)) => {
                let size = coff_header.size_of_optional_header;
                let table = offset + size as usize;
                HeaderParts {
                    dos_header,
                    coff_header: Ok(coff_header),
                    standard_fields: standard_fields(bytes, offset, size),
                    windows_fields: windows_fields(bytes, offset, size),
                    data_directories: data_directories(bytes, offset, size),
                    section_table: Some(table),
                    section_records: section_records(bytes, table, coff_header.number_of_sections),
                }
            }
            Err(error) => HeaderParts {
                dos_header,
                coff_header: Err(again(&error)),
                standard_fields: Err(again(&error)),
                windows_fields: Err(again(&error)),
                data_directories: Err(again(&error)),
                section_table: None,
                section_records: Err(error),
            },
        }
    }

    /// The optional header, made of the parts that could be read. It is `None` if the standard
    /// fields are `None` or refused. If the Windows fields are refused, they are zeros here. If the
    /// data directories are refused, there are none here.
    pub fn optional_header(&self) -> Option<OptionalHeader>
        ensures { result ≡ known_optional self.now }
    {
        let none = DataDirectories {
            data_directories: [None; NUM_DATA_DIRECTORIES],
        };
        Some(OptionalHeader {
            standard_fields: given(&self.standard_fields)?,
            windows_fields: windows_or_zeros(given(&self.windows_fields)),
            data_directories: given(&self.data_directories).unwrap_or(none),
        })
    }
}

fn windows_or_zeros(fields: Option<WindowsFields>) -> WindowsFields
    ensures { result ≡ unwrap_or fields zero_windows_fields }
{
    fields.unwrap_or_default()
}

fn given<T: Copy>(part: &Result<Option<T>>) -> Option<T>
    ensures { result ≡ part_given part.now }
{
    match part {
        Ok(part) => *part,
        Err(_) => None,
    }
}
