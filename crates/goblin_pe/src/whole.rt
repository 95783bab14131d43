//! A whole file: its header, its sections, and the tables that its directories lead to.

ghost use Rattle.std.specs.Prelude.{◌≡◌, ◌<◌, ◌/◌, IfOk, IfSome, IsErrAnd, Some, length};
ghost use Rattle.goblin_base.specs.Reading.{ReadsOrMemory};
ghost use Rattle.goblin_pe_sect.specs.Options.{is_strict};
ghost use Rattle.goblin_pe_head.specs.{HeaderReadings.pe_header, CoffHeader.IsTooManySections};
ghost use Rattle.goblin_pe.specs.Whole.{import_data_part, listed_imports_part, places_in};
ghost use Rattle.goblin_pe.specs.Whole.{file_table, whole_file};

use crate::export::{Export, ExportData};
use crate::import::{Import, ImportData};
use goblin_base::Result;
use goblin_pe_head::header::Header;
use goblin_pe_sect::address_map::AddressMap;
use goblin_pe_sect::relocation::RelocationData;
use goblin_pe_sect::{ParseOptions, SectionTable};
use std::alloc::Global;
use std::marker::Model;

mod listed;
pub(crate) mod places;
pub(crate) mod sections;

use listed::{ListedTables, export_parts};
pub use places::{Places, size_of_headers};
pub use sections::{section_table_offset, sections_of};

/// A table of a file, as [`Whole::read`] found it.
#[derive(Debug, Drop)]
pub enum Part<T> {
    /// The file has no such table, since it has no optional header or no data directory for it. Or
    /// the options do not ask for the table.
    Absent,
    /// The table, which may be empty.
    Read(T),
    /// The file has such a table, and it is damaged. Only permissive mode returns this. The table's
    /// own reader returns the error.
    Refused,
}

/// A whole file: its header, its sections, and the tables for a loader.
///
/// Names and data borrow from the file, except section names from the string table and the names of
/// imports by ordinal, which are copies. Together the section names may have as many bytes as the
/// longest of them, times the number of sections.
///
/// Source: PE Format, "Overview".
#[derive(Debug, Drop)]
pub struct Whole<'a> {
    /// The header: everything before the section table.
    pub header: Header<'a>,
    /// The sections, in the order of their section headers. They map addresses to file offsets.
    pub sections: Vec<SectionTable>,
    /// The import data, library by library. It is never [`Part::Refused`]: permissive mode keeps
    /// what it can read, which may be nothing.
    pub import_data: Part<ImportData<'a>>,
    /// The imports of the import data, one for each lookup table entry that is kept.
    pub imports: Part<Vec<Import<'a>>>,
    /// What the export directory leads to.
    pub export_data: Part<ExportData<'a>>,
    /// The exports of the export data, one for each name pointer that leads to an address.
    pub exports: Part<Vec<Export<'a>>>,
    /// The base relocations: the bytes of their directory. Its blocks are read one at a time.
    pub relocations: Part<RelocationData<'a>>,
}

impl<'a> Model for Whole<'a> {
    ghost use Rattle.goblin_pe_sect.specs.BaseRelocations.{relocation_bytes};
    ghost use Rattle.goblin_pe_head.specs.PeHeader.{header_value};
    ghost use Rattle.goblin_pe.specs.Whole.{WholeFile, items_part, part_map};

    ghost Value = { WholeFile };

    ghost view = { λ x. record {
      header = header_value x.header;
      sections = x.sections.items;
      import_data = x.import_data;
      imports = items_part x.imports;
      export_data = x.export_data;
      exports = items_part x.exports;
      relocations = part_map relocation_bytes x.relocations;
    } };
}

impl<'a> Whole<'a> {
    /// Reads a whole file: its header, its sections, its imports, exports and base relocations.
    ///
    /// The section table follows the optional header, whose size the COFF header gives. Entries of
    /// the import tables have four bytes if the magic is that of PE32, else eight. Addresses are
    /// mapped by one index of the sections' windows, made with the file alignment of the header.
    ///
    /// A table is [`Part::Absent`] if there is no optional header or no data directory for it. The
    /// imports are also absent if the options do not ask for them. In permissive mode a table that
    /// is refused is [`Part::Refused`], and so is the list that would be made from it.
    ///
    /// # Errors
    /// As [`Header::parse_with_opts`], as
    /// [`CoffHeader::sections_with_opts`](goblin_pe_head::CoffHeader::sections_with_opts), and in
    /// strict mode as the readers of the tables. In both modes [`Error::Memory`] if memory is
    /// refused.
    #[tactic(auto, unfolding(crate::specs::Whole::whole_in, crate::specs::Whole::whole_with))]
    pub fn read(alloc: Global, bytes: &'a [u8], opts: &ParseOptions) -> Result<Whole<'a>>
        ensures value { ReadsOrMemory (λ x. x) result (whole_file opts.now) bytes.now }
        ensures libraries { IfOk result (λ w.
            (file_table import_data_part opts.now).value bytes.now ≡ Some w.import_data) }
        ensures listed { IfOk result (λ w.
            let places = places_in w.header.optional_header in
            listed_imports_part opts.now places w.import_data ≡ Some w.imports) }
        ensures first { let found = (pe_header (is_strict opts.now.parse_mode)).value bytes.now in
            IfSome found (λ header.
            let count = header.coff_header.number_of_sections in
            length bytes.now / 40 < count → IsErrAnd result (IsTooManySections count bytes.now)) }
    {
        let header = Header::parse_with_opts(bytes, opts)?;
        let sections = sections_of(alloc, bytes, &header, opts)?;
        let places = Places::of(&header.optional_header);
        let address_map = AddressMap::prepare(alloc, &sections, places.file_alignment, opts)?;
        let ListedTables {
            imports,
            exports,
            relocations,
        } = places.listed(alloc, bytes, &address_map, &sections)?;
        let (import_data, imports) = imports;
        let (export_data, exports) = export_parts(exports);
        Ok(Whole {
            header,
            sections,
            import_data,
            imports,
            export_data,
            exports,
            relocations,
        })
    }
}
