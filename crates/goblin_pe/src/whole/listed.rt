//! The tables that a file's data directories lead to, as lists.

ghost use Rattle.std.specs.Prelude.{◌≡◌, ◌<◌, IfOk, Some};
ghost use Rattle.goblin_base.specs.{Answers.AnswersOrMemory, Reading.ReadsOrMemory};
ghost use Rattle.readings.specs.Reads.{mapped};
ghost use Rattle.goblin_pe_sect.specs.Addresses.{IsIndexed, map_of, reads_strictly};
ghost use Rattle.goblin_pe_export.specs.ExportRecords.{export_read_model, read_rows};
ghost use Rattle.goblin_pe_import.specs.ImportReadings.{import_data};
ghost use Rattle.goblin_pe_import.specs.Imports.{IsImportListFault, imports_of};
ghost use Rattle.goblin_pe.specs.Whole.{IsListedImportsFault, both_lists, entry_format};
ghost use Rattle.goblin_pe.specs.Whole.{export_part, import_data_part, import_read_model};
ghost use Rattle.goblin_pe.specs.Whole.{items_part, listed_imports_part, listed_tables};
ghost use Rattle.goblin_pe.specs.Whole.{listed_model, numbered_data_part, part_map, table_places};

use crate::export::{Export, ExportData};
use crate::import::{Import, ImportData};
use crate::whole::Part;
use crate::whole::places::{EXPORT_TABLE, IMPORT_TABLE, Places, part_of};
use goblin_base::Result;
use goblin_pe_export::laws::{ExportRead, read_exports_by};
use goblin_pe_sect::address_map::AddressMap;
use goblin_pe_sect::relocation::RelocationData;
use goblin_pe_sect::{DataDirectory, ParseOptions, SectionTable};
use std::alloc::Global;

impl Places {
    #[tactic(auto, unfolding(crate::specs::Whole::entry_format))]
    fn import_data_of<'a>(
        &self,
        alloc: Global,
        bytes: &'a [u8],
        directory: DataDirectory,
        address_map: &AddressMap,
    ) -> Result<ImportData<'a>>
        ensures { let m = map_of address_map.now in
            let format = entry_format self.now.magic in
            let rva = directory.virtual_address in
            ReadsOrMemory (λ x. x) result
            (import_data (reads_strictly m) format m.addressing rva) bytes.now }
    {
        if self.has_narrow_entries() {
            ImportData::parse_by::<u32>(alloc, bytes, directory, address_map)
        } else {
            ImportData::parse_by::<u64>(alloc, bytes, directory, address_map)
        }
    }

    // The import data, if the options ask for it.
    #[tactic(auto, unfolding(crate::specs::Whole::import_data_part), using(crate::proofs::Parts::becomes_same))]
    fn import_data<'a>(
        &self,
        alloc: Global,
        bytes: &'a [u8],
        address_map: &AddressMap,
    ) -> Result<Part<ImportData<'a>>>
        ensures { let m = map_of address_map.now in
            let places = table_places self.now in
            ReadsOrMemory (λ x. x) result (import_data_part m.opts m.addressing places) bytes.now }
    {
        let opts = address_map.opts();
        match self.directory(IMPORT_TABLE) {
            Some(directory) if opts.parse_imports => part_of(
                self.import_data_of(alloc, bytes, directory, address_map),
                opts,
            ),
            _ => Ok(Part::Absent),
        }
    }

    #[tactic(auto, unfolding(crate::specs::Whole::entry_format))]
    fn imports_of<'a>(
        &self,
        alloc: Global,
        bytes: &'a [u8],
        libraries: &ImportData<'a>,
        sections: &[SectionTable],
    ) -> Result<Vec<Import<'a>>>
        ensures { AnswersOrMemory (λ v. v.items) result
            (imports_of (entry_format self.now.magic).width libraries.now)
            (IsImportListFault libraries.now) }
    {
        if self.has_narrow_entries() {
            Import::parse::<u32>(alloc, bytes, libraries, sections)
        } else {
            Import::parse::<u64>(alloc, bytes, libraries, sections)
        }
    }

    // The list of imports, as a part.
    #[tactic(auto, unfolding(crate::specs::Whole::listed_imports_part), using(crate::proofs::Parts::becomes_answered))]
    fn imports<'a>(
        &self,
        alloc: Global,
        bytes: &'a [u8],
        import_data: &Part<ImportData<'a>>,
        sections: &[SectionTable],
        opts: &ParseOptions,
    ) -> Result<Part<Vec<Import<'a>>>>
        ensures { AnswersOrMemory items_part result
            (listed_imports_part opts.now (table_places self.now) import_data.now)
            (IsListedImportsFault import_data.now) }
    {
        match import_data {
            Part::Absent => Ok(Part::Absent),
            Part::Read(data) => part_of(self.imports_of(alloc, bytes, data, sections), opts),
            Part::Refused => Ok(Part::Refused),
        }
    }

    // The import data, and the list of imports made from it.
    fn import_lists<'a>(
        &self,
        alloc: Global,
        bytes: &'a [u8],
        address_map: &AddressMap,
        sections: &[SectionTable],
    ) -> Result<ImportRead<'a>>
        ensures made { let m = map_of address_map.now in
            let places = table_places self.now in
            ReadsOrMemory import_read_model result
            (mapped (both_lists places.magic) (numbered_data_part m.opts m.addressing places))
            bytes.now }
        ensures libraries { let m = map_of address_map.now in
            let part = import_data_part m.opts m.addressing (table_places self.now) in
            IfOk result (λ read. part.value bytes.now ≡ Some read.0) }
        ensures listed { let m = map_of address_map.now in
            IfOk result (λ read.
            listed_imports_part m.opts (table_places self.now) read.0 ≡ Some (items_part read.1)) }
    {
        let import_data = self.import_data(alloc, bytes, address_map)?;
        let imports = self.imports(alloc, bytes, &import_data, sections, address_map.opts())?;
        Ok((import_data, imports))
    }

    // The export data, and the exports that it lists.
    #[tactic(auto, unfolding(crate::specs::Whole::export_part, goblin_pe_export::specs::ExportReadings::export_read), using(crate::proofs::Parts::becomes_mapped))]
    fn exports<'a>(
        &self,
        alloc: Global,
        bytes: &'a [u8],
        address_map: &AddressMap,
    ) -> Result<Part<ExportRead<'a>>>
        ensures { let m = map_of address_map.now in
            let places = table_places self.now in
            ReadsOrMemory (part_map export_read_model) result
            (mapped (part_map read_rows) (export_part m.opts m.addressing places)) bytes.now }
    {
        let Some(directory) = self.directory(EXPORT_TABLE) else {
            return Ok(Part::Absent);
        };
        part_of(
            read_exports_by(alloc, bytes, directory, address_map),
            address_map.opts(),
        )
    }

    // All tables, with addresses mapped by this index of the sections.
    pub(crate) fn listed<'a>(
        &self,
        alloc: Global,
        bytes: &'a [u8],
        address_map: &AddressMap,
        sections: &[SectionTable],
    ) -> Result<ListedTables<'a>>
        requires { IsIndexed address_map.now }
        ensures made { let m = map_of address_map.now in
            let places = table_places self.now in
            ReadsOrMemory listed_model result (listed_tables m.opts m.addressing places) bytes.now }
        ensures libraries { let m = map_of address_map.now in
            let part = import_data_part m.opts m.addressing (table_places self.now) in
            IfOk result (λ t. part.value bytes.now ≡ Some t.imports.0) }
        ensures listed { let m = map_of address_map.now in
            IfOk result (λ t. listed_imports_part m.opts (table_places self.now) t.imports.0
            ≡ Some (items_part t.imports.1)) }
    {
        let imports = self.import_lists(alloc, bytes, address_map, sections)?;
        let exports = self.exports(alloc, bytes, address_map)?;
        let relocations = self.relocations(bytes, address_map)?;
        Ok(ListedTables {
            imports,
            exports,
            relocations,
        })
    }
}

// Import data, and the imports made from it.
pub(crate) type ImportRead<'a> = (Part<ImportData<'a>>, Part<Vec<Import<'a>>>);

pub(crate) struct ListedTables<'a> {
    pub(crate) imports: ImportRead<'a>,
    pub(crate) exports: Part<ExportRead<'a>>,
    pub(crate) relocations: Part<RelocationData<'a>>,
}

// Export data and the exports that it lists, each as a part of its own.
pub(crate) fn export_parts<'a>(
    read: Part<ExportRead<'a>>,
) -> (Part<ExportData<'a>>, Part<Vec<Export<'a>>>)
    ensures data { result.0 ≡ part_map (λ x. x.0) (part_map export_read_model read.entry) }
    ensures rows { items_part result.1
        ≡ part_map (λ x. x.1) (part_map export_read_model read.entry) }
{
    match read {
        Part::Absent => (Part::Absent, Part::Absent),
        Part::Read((data, exports)) => (Part::Read(data), Part::Read(exports)),
        Part::Refused => (Part::Refused, Part::Refused),
    }
}
