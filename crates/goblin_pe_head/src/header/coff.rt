//! The COFF header, and the tables that it leads to: the section table, the symbol table and the
//! string table.

ghost use Rattle.std.specs.Prelude.{◌≡◌, ◌+◌, ◌*◌, ◌/◌, ◌<◌, length, option_map, true, OnOk};
ghost use Rattle.std.specs.Prelude.{OnErr, IsErrAnd};
ghost use Rattle.goblin_base.specs.{Reading.Reads, Reading.ReadsOrMemory, Record.WritesRecord};
ghost use Rattle.readings.specs.Reads.{record_at};
ghost use Rattle.goblin_pe_sect.specs.Options.{is_strict};
ghost use Rattle.goblin_pe_symbol.specs.Symbols.{symbol_bytes};
ghost use Rattle.goblin_pe_head.specs.CoffHeader.{CoffHeader, IsTooManySections, coff_fields};
ghost use Rattle.goblin_pe_head.specs.CoffHeader.{coff_header, string_table_offset, symbols_end};
ghost use Rattle.goblin_pe_head.specs.CoffReadings as reading;

use crate::header::sections::read_sections;
use goblin_base::{
    Cause, Endian, Error, Field, Record, Result, Strtab, field_u16, field_u32, gread_slice,
    pread_u32, put_fields,
};
use goblin_pe_sect::options::ParseOptions;
use goblin_pe_sect::section_table::{SIZEOF_SECTION_TABLE, SectionTable};
use goblin_pe_symbol::symbol::{COFF_SYMBOL_SIZE, SymbolTable};
use std::alloc::Global;

/// The size of a COFF header, in bytes.
pub const SIZEOF_COFF_HEADER: usize = 20;

const _: () = prove!(SIZEOF_COFF_HEADER == 20);

// The size of the length at the front of a string table, in bytes.
const LENGTH_FIELD_SIZE: usize = 4;

/// The header of a COFF file, or of the COFF part of an image.
///
/// Source: PE Format, "COFF File Header (Object and Image)". Numbers are as stored; the record has
/// 20 bytes, and `at` gives a field's offset in it. An object begins with it; in an image it
/// follows the PE signature.
#[repr(C)]
#[derive(Debug, PartialEq, Copy, Clone, Default)]
pub struct CoffHeader {
    /// The machine that the file is for, a `COFF_MACHINE_*`, at 0. No reader looks at it, because
    /// the magic of the optional header gives the width of an image.
    pub machine: u16,
    /// How many section headers follow the optional header, at 2. The specification says that the
    /// Windows loader accepts at most 96; newer versions of Windows accept more.
    pub number_of_sections: u16,
    /// When the file was made, in seconds since the start of 1970, at 4. Some makers store
    /// something else there, such as a hash.
    pub time_date_stamp: u32,
    /// The file offset of the symbol table, at 8; 0 if there is none, as in most images. The string
    /// table follows the symbol table.
    pub pointer_to_symbol_table: u32,
    /// How many records the symbol table has, at 12. Auxiliary records are counted.
    pub number_of_symbol_table: u32,
    /// The size of the optional header, in bytes, at 16; 0 if there is none, as in an object. This
    /// field alone says where the section table begins. It says nothing about the layout of the
    /// optional header.
    pub size_of_optional_header: u16,
    /// The characteristics of the file, as bits `IMAGE_FILE_*` (PE Format, "Characteristics"), at
    /// 18.
    pub characteristics: u16,
}

impl Record for CoffHeader {
    ghost width = { 20 };

    ghost value = { coff_header };

    ghost fields = { coff_fields };

    fn size() -> usize {
        SIZEOF_COFF_HEADER
    }

    fn in_record(bytes: &[u8], endian: Endian) -> CoffHeader {
        CoffHeader {
            machine: field_u16(bytes, 0, endian),
            number_of_sections: field_u16(bytes, 2, endian),
            time_date_stamp: field_u32(bytes, 4, endian),
            pointer_to_symbol_table: field_u32(bytes, 8, endian),
            number_of_symbol_table: field_u32(bytes, 12, endian),
            size_of_optional_header: field_u16(bytes, 16, endian),
            characteristics: field_u16(bytes, 18, endian),
        }
    }

    #[tactic(auto, using(crate::proofs::CoffHeaderRoundTrip::round_trip))]
    fn put(self, bytes: &mut [u8], endian: Endian) {
        let fields = [
            Field::U16(self.machine),
            Field::U16(self.number_of_sections),
            Field::U32(self.time_date_stamp),
            Field::U32(self.pointer_to_symbol_table),
            Field::U32(self.number_of_symbol_table),
            Field::U16(self.size_of_optional_header),
            Field::U16(self.characteristics),
        ];
        put_fields(bytes, SIZEOF_COFF_HEADER, &fields, endian);
    }
}

impl CoffHeader {
    /// Reads the record at the file offset `offset` and moves `offset` past it.
    ///
    /// # Errors
    /// [`Error::Read`] if the 20 bytes run past the end of the file; `offset` is then unchanged.
    #[inline(always)]
    pub fn parse(bytes: &[u8], offset: &mut usize) -> Result<CoffHeader>
        ensures value { Reads (λ h. h) result (record_at 20 (coff_header Endian.Little) offset.old)
            bytes.now }
        ensures ok { OnOk result (offset.new ≡ offset.old + 20) }
        ensures err { OnErr result (offset.new ≡ offset.old) }
    {
        let record = gread_slice(bytes, offset, SIZEOF_COFF_HEADER)?;
        Ok(CoffHeader::in_record(record, Endian::Little))
    }

    /// Reads the section table, as [`CoffHeader::sections_with_opts`] with the default options.
    ///
    /// # Errors
    /// As [`CoffHeader::sections_with_opts`] in strict mode.
    pub fn sections(
        &self,
        alloc: Global,
        bytes: &[u8],
        offset: &mut usize,
    ) -> Result<Vec<SectionTable>>
        ensures value { let table = symbols_end self.now in
            let count = self.now.number_of_sections in
            ReadsOrMemory (λ v. v.items) result
            (reading.sections_at true table count offset.old) bytes.now }
        ensures first { length bytes.now / 40 < self.now.number_of_sections
            → IsErrAnd result (IsTooManySections self.now.number_of_sections bytes.now) }
        ensures ok { OnOk result (offset.new ≡ offset.old + 40 * self.now.number_of_sections) }
        ensures err { OnErr result (offset.new ≡ offset.old) }
    {
        self.sections_with_opts(alloc, bytes, offset, &ParseOptions::default())
    }

    /// Reads the section table, whose section headers follow one another from the file offset
    /// `offset` on, and moves `offset` past it. In an image the section table follows the optional
    /// header.
    ///
    /// An indirect name is looked up in the string table after the symbol table, and copied. All
    /// names together may take as many bytes as the longest of them has, times the number of
    /// sections.
    ///
    /// Source: PE Format, "Section Table (Section Headers)".
    ///
    /// # Errors
    /// [`Error::BufferTooShort`] with the number of sections if the whole file has no room for that
    /// many section headers, which is tested first; as [`SectionTable::parse_with_opts`] if a
    /// section header runs past the end or its name is refused; [`Error::Memory`] if memory is
    /// refused. `offset` is then unchanged.
    pub fn sections_with_opts(
        &self,
        alloc: Global,
        bytes: &[u8],
        offset: &mut usize,
        opts: &ParseOptions,
    ) -> Result<Vec<SectionTable>>
        ensures value { let strict = is_strict opts.now.parse_mode in
            let table = symbols_end self.now in
            let count = self.now.number_of_sections in
            ReadsOrMemory (λ v. v.items) result
            (reading.sections_at strict table count offset.old) bytes.now }
        ensures first { length bytes.now / 40 < self.now.number_of_sections
            → IsErrAnd result (IsTooManySections self.now.number_of_sections bytes.now) }
        ensures ok { OnOk result (offset.new ≡ offset.old + 40 * self.now.number_of_sections) }
        ensures err { OnErr result (offset.new ≡ offset.old) }
    {
        let count = self.number_of_sections as usize;
        if bytes.len() / SIZEOF_SECTION_TABLE < count {
            return Err(Error::BufferTooShort(count, "sections"));
        }
        let table = self.symbols_end();
        read_sections(alloc, bytes, offset, count, table, opts, None)
    }

    /// The symbol table, or `None` if the pointer to it is 0.
    ///
    /// Source: PE Format, "COFF Symbol Table".
    ///
    /// # Errors
    /// [`Error::Read`] if the records begin at or past the end of the file, even if there are none,
    /// or run past it.
    #[tactic(auto, unfolding(crate::specs::CoffReadings::symbols_of))]
    pub fn symbols<'a>(&self, bytes: &'a [u8]) -> Result<Option<SymbolTable<'a>>>
        ensures { Reads (option_map symbol_bytes) result (reading.symbols_of self.now) bytes.now }
    {
        if self.pointer_to_symbol_table == 0 {
            return Ok(None);
        }
        let offset = self.pointer_to_symbol_table as usize;
        let symbols = SymbolTable::parse(bytes, offset, self.number_of_symbol_table as usize)?;
        Ok(Some(symbols))
    }

    /// The string table, which follows the symbol table, or `None` if the pointer to the symbol
    /// table is 0. The first four bytes give the length of the table, these four included. They are
    /// not part of the result, so offsets count from after them. The result borrows the file's
    /// bytes and takes no memory.
    ///
    /// Source: PE Format, "COFF String Table".
    ///
    /// # Errors
    /// [`Error::Read`] if the four bytes run past the end of the file; [`Error::Malformed`] with
    /// [`Cause::CoffLength`] if the length is below 4; and as [`Strtab::parse`].
    #[tactic(auto, unfolding(crate::specs::CoffReadings::strings_of))]
    pub fn strings<'a>(&self, alloc: Global, bytes: &'a [u8]) -> Result<Option<Strtab<'a>>>
        ensures { Reads (λ t. t) result (reading.strings_of self.now) bytes.now }
    {
        let Some(offset) = self.string_table_offset() else {
            return Ok(None);
        };
        let length = pread_u32(bytes, offset, Endian::Little)? as usize;
        if length < LENGTH_FIELD_SIZE {
            return Err(Error::Malformed(Cause::CoffLength));
        }
        let begin = offset + LENGTH_FIELD_SIZE;
        let strings = Strtab::parse(alloc, bytes, begin, length - LENGTH_FIELD_SIZE, 0)?;
        Ok(Some(strings))
    }

    /// The file offset of the string table, which follows the symbol table, or `None` if the
    /// pointer to the symbol table is 0. The four bytes of the length lie there, and the texts
    /// follow. The offset may lie past the end of the file.
    ///
    /// Source: PE Format, "COFF String Table".
    #[tactic(auto, unfolding(crate::specs::CoffHeader::string_table_offset))]
    pub fn string_table_offset(&self) -> Option<usize>
        ensures { result ≡ string_table_offset self.now }
    {
        if self.pointer_to_symbol_table == 0 {
            return None;
        }
        Some(self.symbols_end())
    }

    /// The file offset after the last record of the symbol table: the pointer to the table, plus 18
    /// bytes for each record. If there is a string table, it begins there. The names of sections
    /// are looked up from there on in any case, even if the pointer is 0.
    pub fn symbols_end(&self) -> usize
        ensures { result ≡ symbols_end self.now }
    {
        let symbols = self.number_of_symbol_table as usize;
        self.pointer_to_symbol_table as usize + COFF_SYMBOL_SIZE * symbols
    }

    /// Writes the record to the front of `bytes`, and returns its size, 20. A record that was read
    /// is written back unchanged, and any record reads back from what was written, in the same byte
    /// order.
    ///
    /// # Errors
    /// [`Error::Read`] if there is no room for 20 bytes; `bytes` is then unchanged.
    pub fn try_into_ctx(self, bytes: &mut [u8], endian: Endian) -> Result<usize>
        ensures { WritesRecord 20 coff_header coff_fields endian self result bytes.old bytes.new }
    {
        Record::try_into_ctx(self, bytes, endian)
    }

    /// The size of the record in bytes: 20 in either byte order.
    pub fn size_with(endian: &Endian) -> usize
        ensures { result ≡ 20 }
    {
        <CoffHeader as Record>::size_with(endian)
    }
}
