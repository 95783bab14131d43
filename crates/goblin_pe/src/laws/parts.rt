//! The readers of headers and of single tables, run on two files.

ghost use Rattle.std.specs.Prelude.{ℕ, List};
ghost use Rattle.goblin_base.specs.Reading.{ReadsOrMemory};
ghost use Rattle.goblin_pe_head.specs.TeHeader.{te_image};
ghost use Rattle.goblin_pe_sect.specs.Addresses.{map_by, reads_strictly};
ghost use Rattle.goblin_pe.specs.TwinParts.{AreParts, AreTwinParts, asked_by, te_model};

use crate::data_directories::DataDirectory;
use crate::header::{CoffHeader, Header, TeHeader};
use crate::options::ParseOptions;
use crate::relocation::RelocationData;
use crate::section_table::SectionTable;
use crate::symbol::SymbolTable;
use crate::utils::get_data_with_opts;
use goblin_base::{Result, ResultOf, Strtab, TryFromCtx, answer_for};
use std::alloc::Global;

/// The answers of the readers of headers and of single tables, with errors whose texts live for
/// `'e`. Use it under its name [`Parts`].
#[derive(Drop)]
pub struct PartsOf<'a, 'e, D> {
    /// The header of bytes that begin with a signature, as [`Header::parse_without_dos`] reads it.
    pub header: ResultOf<'e, Header<'a>>,
    /// The sections of a COFF header, at an offset.
    pub sections: ResultOf<'e, Vec<SectionTable>>,
    /// The symbol table of that COFF header.
    pub symbols: ResultOf<'e, Option<SymbolTable<'a>>>,
    /// The string table of that COFF header.
    pub strings: ResultOf<'e, Option<Strtab<'a>>>,
    /// The header of a Terse Executable at the same offset, and the sections after it.
    pub te: ResultOf<'e, (TeHeader, Vec<SectionTable>)>,
    /// The base relocations of a directory.
    pub relocations: ResultOf<'e, RelocationData<'a>>,
    /// The value at the address of a directory.
    pub value: ResultOf<'e, D>,
}

/// The answers of the readers of headers and of single tables.
pub type Parts<'a, D> = PartsOf<'a, 'static, D>;

// The header of a Terse Executable at an offset, and the sections after it.
#[tactic(auto, unfolding(goblin_pe_head::specs::TeHeader::te_image))]
fn read_te(alloc: Global, bytes: &[u8], offset: usize) -> Result<(TeHeader, Vec<SectionTable>)>
    ensures { ReadsOrMemory te_model result (te_image offset) bytes.now }
{
    let mut end = offset;
    let header = TeHeader::parse(bytes, &mut end)?;
    let sections = header.sections(alloc, bytes, &mut end)?;
    Ok((header, sections))
}

// The answers of the readers for one file.
fn read_parts<'a, 'e, D: TryFromCtx<'a>>(
    alloc: Global,
    bytes: &'a [u8],
    coff_header: CoffHeader,
    offset: usize,
    relocations: DataDirectory,
    value: DataDirectory,
    sections: &[SectionTable],
    file_alignment: u32,
    opts: &ParseOptions,
) -> PartsOf<'a, 'e, D>
    ensures { let m = map_by opts.now sections.now file_alignment in
        let asked = asked_by coff_header offset relocations value in
        AreParts D.model D.value_of D.refusal (reads_strictly m) m.addressing asked
        bytes.now result }
{
    let mut end = offset;
    PartsOf {
        header: answer_for(Header::parse_without_dos(bytes)),
        sections: answer_for(coff_header.sections_with_opts(alloc, bytes, &mut end, opts)),
        symbols: answer_for(coff_header.symbols(bytes)),
        strings: answer_for(coff_header.strings(alloc, bytes)),
        te: answer_for(read_te(alloc, bytes, offset)),
        relocations: answer_for(RelocationData::parse_with_opts(
            bytes,
            relocations,
            sections,
            file_alignment,
            opts,
        )),
        value: get_data_with_opts(bytes, sections, value, file_alignment, opts),
    }
}

// A reader of a file into an answer. The answer is a type parameter for its users, because the
// proof that two answers that own as much as `PartsOf` may be moved is too large for the checker.
trait Reader<'a, T> {
    ghost is_answer: { Self → List ℕ → T → Type 0 };

    fn read(&self, bytes: &'a [u8]) -> T
        ensures { is_answer self.now bytes.now result };
}

// A reader's answers for two files.
fn both_of<'a, T, R: Reader<'a, T>>(reader: &R, a: &'a [u8], b: &'a [u8]) -> (T, T)
    ensures first { R.is_answer reader.now a.now result.0 }
    ensures second { R.is_answer reader.now b.now result.1 }
{
    let first = reader.read(a);
    let second = reader.read(b);
    (first, second)
}

// The arguments of the readers.
#[derive(Copy, Clone)]
struct Asked<'s> {
    alloc: Global,
    coff_header: CoffHeader,
    offset: usize,
    relocations: DataDirectory,
    value: DataDirectory,
    sections: &'s [SectionTable],
    file_alignment: u32,
    opts: &'s ParseOptions,
}

impl<'a, 'e, 's, D: TryFromCtx<'a>> Reader<'a, PartsOf<'a, 'e, D>> for Asked<'s> {
    ghost is_answer = { λ reader bytes parts.
        let m = map_by reader.opts.now reader.sections.now reader.file_alignment in
        let asked = asked_by reader.coff_header reader.offset reader.relocations reader.value in
        AreParts D.model D.value_of D.refusal (reads_strictly m) m.addressing asked bytes parts };

    fn read(&self, bytes: &'a [u8]) -> PartsOf<'a, 'e, D> {
        read_parts(
            self.alloc,
            bytes,
            self.coff_header,
            self.offset,
            self.relocations,
            self.value,
            self.sections,
            self.file_alignment,
            self.opts,
        )
    }
}

/// Runs the readers of [`Parts`] on two files. `coff_header` leads to its sections, whose headers
/// begin at `offset`, and to its symbols and strings. A Terse Executable is read at `offset`, too.
/// `relocations` is the directory of the base relocations, and `value` is a directory at whose
/// address a value is read. `sections` map these addresses. A refusal of one reader, even
/// `Error::Memory`, is returned in its place, and the others still run.
///
/// Each reader has a footprint of its own:
///
/// - The header: the signature, the COFF header, and of an optional header the parts that
///   [`twin_header`](crate::laws::twin_header) names.
/// - The sections: each section header, and the text to which its name points.
/// - The symbol table: its bytes.
/// - The string table: its length and its bytes.
/// - The Terse Executable: its header and, if that can be read, its sections.
/// - The base relocations: the bytes of their directory.
/// - The value: all bytes from its file offset on.
///
/// # Errors
/// For each file as the readers that the fields of [`PartsOf`] name.
pub fn twin_parts<'a, 'e, D: TryFromCtx<'a>>(
    alloc: Global,
    a: &'a [u8],
    b: &'a [u8],
    coff_header: CoffHeader,
    offset: usize,
    relocations: DataDirectory,
    value: DataDirectory,
    sections: &[SectionTable],
    file_alignment: u32,
    opts: &ParseOptions,
) -> (PartsOf<'a, 'e, D>, PartsOf<'a, 'e, D>)
    ensures { let m = map_by opts.now sections.now file_alignment in
        let asked = asked_by coff_header offset relocations value in
        AreTwinParts D.model D.value_of D.refusal (reads_strictly m) m.addressing asked
        a.now b.now result }
{
    let asked = Asked {
        alloc,
        coff_header,
        offset,
        relocations,
        value,
        sections,
        file_alignment,
        opts,
    };
    both_of(&asked, a, b)
}
