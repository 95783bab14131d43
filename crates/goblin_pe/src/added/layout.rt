//! What a reader of any table of a file needs.

ghost use Rattle.std.specs.Prelude.{◌/◌, ◌<◌, ◌≡◌, IfOk, IsErrAnd, Option, length, map};
ghost use Rattle.std.specs.List.{flat_map};
ghost use Rattle.goblin_base.specs.{declared.error.ErrorOf.ErrorOf, Reading.Reads};
ghost use Rattle.readings.specs.{Reads.mapped, Walks.Walks};
ghost use Rattle.goblin_pe_sect.specs.declared.options.ParseOptions.{ParseOptions};
ghost use Rattle.goblin_pe_sect.specs.declared.options.View.TheVariants.{Loader, Sections};
ghost use Rattle.goblin_pe_sect.specs.Addresses.{map_of, reads_strictly, with_longest};
ghost use Rattle.goblin_pe_sect.specs.BaseRelocations.{relocation_bytes};
ghost use Rattle.goblin_pe_sect.specs.Options.{is_strict, rule_by_alignment};
ghost use Rattle.goblin_pe_sect.specs.SectionTable.{recorded_sections, unnamed};
ghost use Rattle.goblin_pe_head.specs.{CoffHeader.IsTooManySections, PeHeader.header_value};
ghost use Rattle.goblin_pe_import.specs.added.ImportCursors.{first_import};
ghost use Rattle.goblin_pe_import.specs.{ImportReadings.numbered_data, Imports.numbered_imports};
ghost use Rattle.goblin_pe.specs.added.Layouts.{GivesFirst, IsFileCursorCause, IsImportWalkAt};
ghost use Rattle.goblin_pe.specs.added.Layouts.{PartBegins, file_cursor_left, file_map};
ghost use Rattle.goblin_pe.specs.added.Layouts.{file_passed};
ghost use Rattle.goblin_pe_import.specs.Passed.{nothing_passed};
ghost use Rattle.goblin_pe.specs.added.Layouts.{import_begin, IsExportWalk, IsFileImportsCause};
ghost use Rattle.goblin_pe.specs.added.Layouts.{PartWalks, file_imports_left, layout_bytes};
ghost use Rattle.goblin_pe.specs.added.Layouts.{layout_map, layout_places, layout_sections};
ghost use Rattle.goblin_pe.specs.added.Layouts.{GivesLayout, address_part, directory_data};
ghost use Rattle.goblin_pe.specs.added.Layouts.{directory_part, layout_table, walked_exports};
ghost use Rattle.goblin_pe_export.specs.added.ExportWalks.{walked_tables};
ghost use Rattle.goblin_pe.specs.Whole.{BecomesPart, IfRead, directory_offset, entry_format};
ghost use Rattle.goblin_pe.specs.Whole.{export_part, import_list, part_map, places_in};
ghost use Rattle.goblin_pe.specs.Whole.{relocation_part, section_table_offset, sections_after};
ghost use Rattle.goblin_pe.specs.Whole.{table_places};

use crate::added::{Exports, FileImports, ImportCursor, Imports};
use crate::whole::Part;
use crate::whole::places::{
    EXPORT_TABLE, IMPORT_TABLE, Places, file_alignment, part_of, size_of_headers,
};
use crate::whole::sections::section_table_offset;
use goblin_base::{Cause, Error, Result, ResultOf, pread_slice};
use goblin_pe_head::header::Header;
use goblin_pe_sect::address_map::{AddressMap, Finder, MappedRecords};
use goblin_pe_sect::relocation::RelocationData;
use goblin_pe_sect::section_table::SectionRecords;
use goblin_pe_sect::{DataDirectory, ParseOptions, RawPointerRule, View};
use std::alloc::Global;
use std::fmt;

/// What a reader of any table of a file needs: the bytes of the file, where its tables lie, its
/// section headers, and the map from addresses to file offsets.
///
/// A layout lists nothing. Each table is read when you ask for it: imports and exports one at a
/// time, without memory.
///
/// Source: PE Format, "Overview".
#[derive(Drop)]
pub struct Layout<'a> {
    bytes: &'a [u8],
    pub(super) places: Places,
    records: SectionRecords<'a>,
    pub(super) address_map: AddressMap<'a>,
}

impl<'a> fmt::Debug for Layout<'a> {
    fn fmt<W: fmt::Write>(&self, f: &mut fmt::Formatter<W>) -> fmt::Result {
        f.debug_struct("Layout")
            .field("places", &self.places)
            .finish_non_exhaustive()
    }
}

/// The section headers of a file with this header, as they lie in its bytes. They take no memory.
/// Their sections lack the names from the string table.
///
/// Source: PE Format, "Section Table (Section Headers)".
///
/// # Errors
/// As [`CoffHeader::sections_with_opts`](goblin_pe_head::CoffHeader::sections_with_opts), but never
/// [`Error::Memory`](goblin_base::Error::Memory).
#[inline(always)]
#[tactic(auto, unfolding(crate::specs::Whole::sections_after))]
pub fn section_records_of<'a>(
    bytes: &'a [u8],
    header: &Header,
    opts: &ParseOptions,
) -> Result<SectionRecords<'a>>
    ensures value { let strict = is_strict opts.now.parse_mode in
        Reads recorded_sections result
        (mapped (map unnamed) (sections_after strict (header_value header.now))) bytes.now }
    ensures first { let count = header.now.coff_header.number_of_sections in
        length bytes.now / 40 < count → IsErrAnd result (IsTooManySections count bytes.now) }
{
    let mut offset = section_table_offset(header);
    header
        .coff_header
        .section_records_with_opts(bytes, &mut offset, opts)
}

impl<'a> Layout<'a> {
    /// The layout of a file with this header. Addresses are mapped as goblin maps them: by the
    /// sections alone. See [`Layout::in_view`].
    ///
    /// # Errors
    /// As [`Layout::in_view`].
    #[inline(always)]
    pub fn of(
        alloc: Global,
        bytes: &'a [u8],
        header: &Header,
        opts: &ParseOptions,
    ) -> Result<Layout<'a>>
        ensures { GivesLayout Sections opts.now bytes.now header.now result }
    {
        Layout::in_view(alloc, bytes, header, View::Sections, opts)
    }

    /// The layout of a file with this header. Addresses are mapped as the Windows loader maps them:
    ///
    /// - Raw pointers follow the file alignment ([`RawPointerRule::by_file_alignment`]), whatever
    ///   rule `opts` name.
    /// - If the file alignment is below 512, a section's window has no more bytes than its raw
    ///   data, rounded up to that alignment.
    /// - The front of the file is mapped at the image's base: as many bytes as the header says that
    ///   the headers have, in whole file blocks, but no more than whole pages of 4,096 bytes.
    ///
    /// So this layout finds names and tables in the headers, where packers hide them.
    ///
    /// # Errors
    /// As [`Layout::in_view`].
    pub fn as_loaded(
        alloc: Global,
        bytes: &'a [u8],
        header: &Header,
        opts: &ParseOptions,
    ) -> Result<Layout<'a>>
        ensures { let alignment = (places_in header.now.optional_header).file_alignment in
            let loaded = record opts.now { raw_pointer_rule = rule_by_alignment alignment } in
            GivesLayout Loader loaded bytes.now header.now result }
    {
        let alignment = file_alignment(&header.optional_header);
        let rule = RawPointerRule::by_file_alignment(alignment);
        let opts = opts.with_raw_pointer_rule(rule);
        Layout::in_view(alloc, bytes, header, View::Loader, &opts)
    }

    /// The layout of a file with this header, with addresses mapped as `view` says. It refuses the
    /// sections that [`Whole::read`](crate::Whole::read) refuses. It takes memory only for an index
    /// of more than 96 sections.
    ///
    /// # Errors
    /// As [`CoffHeader::sections_with_opts`](goblin_pe_head::CoffHeader::sections_with_opts). But
    /// [`Error::Memory`](goblin_base::Error::Memory) can come only if there are more than 96
    /// sections.
    #[inline(always)]
    #[tactic(auto, using(crate::proofs::added::SectionNames::mapped_by_names))]
    pub fn in_view(
        alloc: Global,
        bytes: &'a [u8],
        header: &Header,
        view: View,
        opts: &ParseOptions,
    ) -> Result<Layout<'a>>
        ensures { GivesLayout view opts.now bytes.now header.now result }
    {
        let records = section_records_of(bytes, header, opts)?;
        let front = view.front(size_of_headers(&header.optional_header));
        let places = Places::of(&header.optional_header);
        let mapped = MappedRecords { records, front };
        let alignment = places.file_alignment;
        let address_map = AddressMap::of_records(alloc, mapped, view, alignment, opts)?;
        Ok(Layout::by(bytes, places, records, address_map))
    }

    /// The layout of a file whose tables lie at `places`, whose section headers are `records`, and
    /// whose addresses `address_map` maps, whatever its header says.
    #[inline(always)]
    pub fn by(
        bytes: &'a [u8],
        places: Places,
        records: SectionRecords<'a>,
        address_map: AddressMap<'a>,
    ) -> Layout<'a>
        ensures mapped { layout_map result ≡ map_of address_map.entry }
        ensures over { layout_bytes result ≡ bytes.now }
        ensures placed { layout_places result ≡ table_places places }
        ensures recorded { layout_sections result ≡ recorded_sections records.entry }
    {
        Layout {
            bytes,
            places,
            records,
            address_map,
        }
    }

    /// Sets a limit, in bytes, on the names of imports, libraries and exports. A longer name is cut
    /// as [`pread_str_within`](goblin_base::pread_str_within) says: what is left of it is longer
    /// than the limit by up to four bytes. The text of a forwarder is cut as
    /// [`Reexport::parse_within`](crate::export::Reexport::parse_within) says. `None` is no limit.
    ///
    /// With a limit, the tables are no longer those of [`Whole::read`](crate::Whole::read), since
    /// the text after a cut is not tested.
    #[inline(always)]
    pub fn set_longest_name(&mut self, longest: Option<u32>)
        ensures over { layout_bytes self.new ≡ layout_bytes self.old }
        ensures placed { layout_places self.new ≡ layout_places self.old }
        ensures recorded { layout_sections self.new ≡ layout_sections self.old }
        ensures mapped { layout_map self.new ≡ with_longest longest (layout_map self.old) }
    {
        self.address_map.set_longest_name(longest);
    }

    /// Where the tables of the file lie.
    #[inline(always)]
    pub fn places(&self) -> &Places
        ensures { table_places result.now ≡ layout_places self.now }
    {
        &self.places
    }

    /// The bytes of the file.
    pub fn bytes(&self) -> &'a [u8]
        ensures { result.now ≡ layout_bytes self.now }
    {
        self.bytes
    }

    /// The section headers, by which addresses are mapped. Their sections lack the names from the
    /// string table.
    pub fn section_records(&self) -> SectionRecords<'a>
        ensures { recorded_sections result ≡ layout_sections self.now }
    {
        self.records
    }

    /// A walk over the imports, which yields them one at a time. The table is
    /// [absent](Part::Absent) if the file has no import directory, or if the options do not ask for
    /// imports.
    ///
    /// [`FileImports::passed`] counts what the walk passes over.
    ///
    /// # Errors
    /// In strict mode as [`Imports::of`](crate::added::Imports::of).
    #[inline(always)]
    #[tactic(auto, unfolding(crate::specs::added::Layouts::import_begin))]
    pub fn imports<'m, 'e>(&'m self) -> ResultOf<'e, Part<FileImports<'a, 'm, 'e>>>
        ensures walks { PartWalks file_imports_left IsFileImportsCause (λ xs. xs) result
            (layout_table import_list self.now) (layout_bytes self.now) }
        ensures starts { let m = layout_map self.now in
            let places = layout_places self.now in
            GivesFirst (PartBegins m places.magic (layout_bytes self.now))
            (import_begin m.opts m.addressing places) (layout_bytes self.now) result }
        ensures over { IfOk result (IfRead (λ walk. file_map walk ≡ layout_map self.now)) }
        ensures fresh { IfOk result (IfRead (λ walk. file_passed walk ≡ nothing_passed)) }
    {
        let opts = self.address_map.opts();
        match self.places.directory(IMPORT_TABLE) {
            Some(directory) if opts.parse_imports => {
                let imports = self.imports_in(directory)?;
                Ok(Part::Read(imports))
            }
            _ => Ok(Part::Absent),
        }
    }

    /// The cursor before the first import. If the file has no import directory, or if the options
    /// do not ask for imports, it is the cursor at the end.
    ///
    /// # Errors
    /// In strict mode as [`ImportCursor::first`].
    #[tactic(auto, unfolding(crate::specs::added::Layouts::import_begin))]
    pub fn imports_begin<'e>(&self) -> ResultOf<'e, ImportCursor>
        ensures { let m = layout_map self.now in
            Reads (λ c. c) result (import_begin m.opts m.addressing (layout_places self.now))
            (layout_bytes self.now) }
    {
        match self.places.directory(IMPORT_TABLE) {
            Some(directory) if self.address_map.opts().parse_imports => {
                ImportCursor::first(directory, &mut self.finder())
            }
            _ => Ok(ImportCursor::end()),
        }
    }

    /// The walk over the imports from a cursor on. At a cursor that [`FileImports::cursor`]
    /// returned, it yields what that walk had yet to yield.
    #[inline(always)]
    #[tactic(auto, unfolding(crate::specs::Whole::entry_format))]
    pub fn imports_at<'m, 'e>(&'m self, at: ImportCursor) -> FileImports<'a, 'm, 'e>
        ensures walk { let m = layout_map self.now in
            IsImportWalkAt m (layout_places self.now).magic (layout_bytes self.now) at result }
        ensures left { let m = layout_map self.now in
            file_imports_left result
            ≡ file_cursor_left m (layout_places self.now).magic (layout_bytes self.now) at }
        ensures cause { let m = layout_map self.now in
            (e : ErrorOf) → IsFileImportsCause result e
            → IsFileCursorCause m (layout_places self.now).magic (layout_bytes self.now) at e }
        ensures fresh { file_passed result ≡ nothing_passed }
    {
        if self.places.has_narrow_entries() {
            FileImports::Narrow(Imports::at_cursor(self.bytes, at, self.finder()))
        } else {
            FileImports::Wide(Imports::at_cursor(self.bytes, at, self.finder()))
        }
    }

    /// A walk over the exports, which yields them one at a time, each with its ordinal, its hint
    /// and the address of its name. The table is [absent](Part::Absent) if the file has no export
    /// directory.
    ///
    /// # Errors
    /// In strict mode as [`Exports::of`](crate::added::Exports::of).
    #[inline(always)]
    #[tactic(auto, unfolding(crate::specs::Whole::export_part))]
    pub fn exports<'m>(&'m self) -> Result<Part<Exports<'a, 'm>>>
        ensures value { Reads (part_map walked_exports) result
            (layout_table export_part self.now) (layout_bytes self.now) }
        ensures walk { IfOk result
            (IfRead (IsExportWalk (layout_map self.now) (layout_bytes self.now))) }
    {
        let Some(directory) = self.places.directory(EXPORT_TABLE) else {
            return Ok(Part::Absent);
        };
        self.part(Exports::by(self.bytes, directory, self.finder()))
    }

    /// The export directory without the names of the exports: its export directory table, the name
    /// of the library, and the address table, in which a loader finds an export by its ordinal. As
    /// a walk it yields no exports.
    ///
    /// If [`Layout::exports`] reads the exports, the addresses are theirs. If it refuses them only
    /// because of the number of their name pointers, this call reads the addresses all the same.
    ///
    /// # Errors
    /// In strict mode as [`Exports::addresses_of`](crate::added::Exports::addresses_of).
    #[tactic(auto, unfolding(crate::specs::added::Layouts::address_part))]
    pub fn export_addresses<'m>(&'m self) -> Result<Part<Exports<'a, 'm>>>
        ensures value { Reads (part_map walked_tables) result
            (layout_table address_part self.now) (layout_bytes self.now) }
        ensures walk { IfOk result
            (IfRead (IsExportWalk (layout_map self.now) (layout_bytes self.now))) }
    {
        let Some(directory) = self.places.directory(EXPORT_TABLE) else {
            return Ok(Part::Absent);
        };
        self.part(Exports::addresses_of(self.bytes, directory, &self.address_map))
    }

    /// A finder of file offsets, over the address map of this layout.
    #[inline(always)]
    pub fn finder<'m>(&'m self) -> Finder<'m>
        ensures { map_of result ≡ layout_map self.now }
    {
        Finder::of(&self.address_map)
    }

    /// The base relocations: the bytes of their directory. Its blocks are read one at a time.
    ///
    /// # Errors
    /// In strict mode as [`RelocationData::parse_at`].
    pub fn relocations(&self) -> Result<Part<RelocationData<'a>>>
        ensures { Reads (part_map relocation_bytes) result
            (layout_table relocation_part self.now) (layout_bytes self.now) }
    {
        self.places.relocations(self.bytes, &self.address_map)
    }

    /// The same, after the file offset of the directory. The offset is `None` if the directory's
    /// address has none, or if there is no directory.
    pub fn placed_relocations(&self) -> (Option<usize>, Result<Part<RelocationData<'a>>>)
        ensures offset { result.0
            ≡ directory_offset (layout_map self.now).addressing (layout_places self.now) 5 }
        ensures value { Reads (part_map relocation_bytes) result.1
            (layout_table relocation_part self.now) (layout_bytes self.now) }
    {
        self.places
            .placed_relocations(self.bytes, &self.address_map)
    }

    /// The bytes of the data directory at an index, which lie at its address. The certificate
    /// directory has a file offset in place of an address, so these are not the bytes of the
    /// certificates.
    ///
    /// # Errors
    /// In strict mode [`Error::Malformed`] with [`Cause::Unmapped`] if the address has no file
    /// offset, and [`Error::Read`] if the bytes begin at or past the end of the file, or run past
    /// it; in a loader's view, also if they run past the window of their section.
    #[tactic(auto, unfolding(crate::specs::added::Layouts::directory_part))]
    pub fn directory(&self, index: usize) -> Result<Part<&'a [u8]>>
        requires { index < 16 }
        ensures { Reads (part_map (λ b. b.now)) result
            (layout_table (directory_part index) self.now) (layout_bytes self.now) }
    {
        let Some(directory) = self.places.directory(index) else {
            return Ok(Part::Absent);
        };
        self.part(self.bytes_of(directory))
    }

    fn part<'e, T: Drop>(&self, table: ResultOf<'e, T>) -> ResultOf<'e, Part<T>>
        ensures { BecomesPart (reads_strictly (layout_map self.now)) table.entry result }
    {
        part_of(table, self.address_map.opts())
    }

    fn bytes_of(&self, directory: DataDirectory) -> Result<&'a [u8]>
        ensures { let m = layout_map self.now in
            Reads (λ b. b.now) result (directory_data m.addressing directory)
            (layout_bytes self.now) }
    {
        let rva = directory.virtual_address;
        let (part, offset) = self.address_map.part_of(self.bytes, rva);
        match offset {
            Some(offset) => pread_slice(part.stored(), offset, directory.size as usize),
            None => Err(Error::Malformed(Cause::Unmapped(rva as usize))),
        }
    }

    #[inline(always)]
    #[tactic(auto, unfolding(crate::specs::Whole::entry_format))]
    fn imports_in<'m, 'e>(
        &'m self,
        directory: DataDirectory,
    ) -> ResultOf<'e, FileImports<'a, 'm, 'e>>
        ensures walks { let m = layout_map self.now in
            let format = entry_format (layout_places self.now).magic in
            let rva = directory.virtual_address in
            Walks file_imports_left IsFileImportsCause (λ xs. xs) result
            (mapped (flat_map (numbered_imports format.width))
            (numbered_data (reads_strictly m) format m.addressing rva))
            (layout_bytes self.now) }
        ensures first { let m = layout_map self.now in
            let rva = directory.virtual_address in
            GivesFirst (IsImportWalkAt m (layout_places self.now).magic (layout_bytes self.now))
            (first_import (reads_strictly m) m.addressing rva) (layout_bytes self.now) result }
        ensures over { IfOk result (λ walk. file_map walk ≡ layout_map self.now) }
        ensures fresh { IfOk result (λ walk. file_passed walk ≡ nothing_passed) }
    {
        if self.places.has_narrow_entries() {
            let imports = Imports::<u32>::of(self.bytes, directory, &self.address_map)?;
            Ok(FileImports::Narrow(imports))
        } else {
            let imports = Imports::<u64>::of(self.bytes, directory, &self.address_map)?;
            Ok(FileImports::Wide(imports))
        }
    }
}
