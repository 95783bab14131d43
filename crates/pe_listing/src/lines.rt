//! The lines that list a file, as the [crate's root](crate) says.

ghost use Rattle.std.specs.Prelude.{◌≡◌, ◌++◌, ℕ, List, OnOk, codes, length, option_map};
ghost use Rattle.std.specs.Prelude.{string_bytes, flat_map};
ghost use Rattle.goblin_pe.specs.head.PeHeader.{header_value};
ghost use Rattle.goblin_pe.specs.sect.BaseRelocations.{block_item, block_items, relocation_bytes};
ghost use Rattle.goblin_pe.specs.export.Forwarders.{forwarder_value};
ghost use Rattle.goblin_pe.specs.Whole.{items_part, part_map};
ghost use Rattle.pe_listing.specs.Lines.{block_count, block_line, export_line, forward_field};
ghost use Rattle.pe_listing.specs.Lines.{header_line, if_there, import_line, optional_fields};
ghost use Rattle.pe_listing.specs.Lines.{part_lines, relocation_lines, section_line, shown_name};
ghost use Rattle.pe_listing.specs.Lines.{whole_lines};
ghost use Rattle.pe_listing.specs.Text.{hex_field, name_field};

use crate::text::{push_decimal, push_hex, push_name, push_name_bytes};
use goblin_pe::export::{Export, Reexport};
use goblin_pe::header::Header;
use goblin_pe::import::Import;
use goblin_pe::optional_header::OptionalHeader;
use goblin_pe::read::before_nul;
use goblin_pe::relocation::{RelocationBlock, RelocationData};
use goblin_pe::section_table::SectionTable;
use goblin_pe::{Error, Part, Whole};
use std::alloc::AllocError;

/// A value that the listing has a line for.
trait Listed {
    ghost line: { Self → List ℕ };

    fn push_line(&self, text: &mut String) -> Result<(), AllocError>
        ensures { OnOk result (string_bytes text.new ≡ string_bytes text.old ++ line self.now) };
}

/// Appends the lines of a whole file.
///
/// # Errors
/// If memory is refused.
pub fn push_whole(text: &mut String, whole: &Whole) -> Result<(), AllocError>
    ensures { OnOk result (string_bytes text.new ≡ string_bytes text.old ++ whole_lines whole.now) }
{
    push_header(text, &whole.header)?;
    push_lines(text, &whole.sections)?;
    push_part(text, "imports", &whole.imports)?;
    push_part(text, "exports", &whole.exports)?;
    push_relocations(text, &whole.relocations)?;
    Ok(())
}

fn push_header(text: &mut String, header: &Header) -> Result<(), AllocError>
    ensures { OnOk result
        (string_bytes text.new ≡ string_bytes text.old ++ header_line (header_value header.now)) }
{
    let coff_header = &header.coff_header;
    push_hex(text, "header machine=", coff_header.machine as u64)?;
    push_decimal(text, " sections=", coff_header.number_of_sections as u64)?;
    push_optional_header(text, &header.optional_header)?;
    text.push_str("\n")?;
    Ok(())
}

fn push_optional_header(
    text: &mut String,
    header: &Option<OptionalHeader>,
) -> Result<(), AllocError>
    ensures { OnOk result
        (string_bytes text.new ≡ string_bytes text.old ++ if_there optional_fields header.now) }
{
    if let Some(header) = header {
        let fields = &header.standard_fields;
        push_hex(text, " magic=", fields.magic as u64)?;
        push_hex(text, " entry=", fields.address_of_entry_point as u64)?;
    }
    Ok(())
}

impl Listed for SectionTable {
    ghost line = { λ s. section_line s };

    fn push_line(&self, text: &mut String) -> Result<(), AllocError> {
        push_hex(text, "section va=", self.virtual_address as u64)?;
        push_hex(text, " vsize=", self.virtual_size as u64)?;
        push_hex(text, " raw=", self.size_of_raw_data as u64)?;
        push_hex(text, " ptr=", self.pointer_to_raw_data as u64)?;
        push_name_bytes(text, " name=", shown_name(self))?;
        text.push_str("\n")?;
        Ok(())
    }
}

/// The name of a section that is printed: the one from the string table, or else the eight bytes of
/// the section header up to a NUL.
#[tactic(auto, unfolding(crate::specs::Lines::shown_name))]
pub fn shown_name(section: &SectionTable) -> &[u8]
    ensures { result.now ≡ shown_name section.now }
{
    match &section.real_name {
        Some(name) => name.as_bytes(),
        None => before_nul(&section.name),
    }
}

impl Listed for Import<'_> {
    ghost line = { λ i. import_line i };

    fn push_line(&self, text: &mut String) -> Result<(), AllocError> {
        push_hex(text, "import offset=", self.offset as u64)?;
        push_decimal(text, " ordinal=", self.ordinal as u64)?;
        push_hex(text, " rva=", self.rva as u64)?;
        push_decimal(text, " size=", self.size as u64)?;
        push_decimal(text, " slot=", self.slot as u64)?;
        push_name(text, " dll=", self.dll)?;
        push_name(text, " name=", self.name.as_str())?;
        text.push_str("\n")?;
        Ok(())
    }
}

impl Listed for Export<'_> {
    ghost line = { λ e. export_line e };

    fn push_line(&self, text: &mut String) -> Result<(), AllocError> {
        push_hex(text, "export rva=", self.rva as u64)?;
        push_offset(text, self.offset)?;
        push_reexport(text, self.reexport)?;
        push_export_name(text, self.name)?;
        text.push_str("\n")?;
        Ok(())
    }
}

fn push_offset(text: &mut String, offset: Option<usize>) -> Result<(), AllocError>
    ensures { OnOk result
        (string_bytes text.new
        ≡ string_bytes text.old ++ if_there (hex_field (codes " offset=")) offset) }
{
    if let Some(offset) = offset {
        push_hex(text, " offset=", offset as u64)?;
    }
    Ok(())
}

fn push_export_name(text: &mut String, name: Option<&str>) -> Result<(), AllocError>
    ensures { OnOk result
        (string_bytes text.new
        ≡ string_bytes text.old
        ++ if_there (name_field (codes " name=")) (option_map (λ n. n.now) name.entry)) }
{
    if let Some(name) = name {
        push_name(text, " name=", name)?;
    }
    Ok(())
}

#[tactic(auto, unfolding(crate::specs::Lines::forward_field))]
fn push_reexport(text: &mut String, reexport: Option<Reexport>) -> Result<(), AllocError>
    ensures { OnOk result
        (string_bytes text.new
        ≡ string_bytes text.old
        ++ if_there forward_field (option_map forwarder_value reexport.entry)) }
{
    match reexport {
        Some(Reexport::DLLName { export, lib }) => {
            push_name(text, " forward=", lib)?;
            push_name(text, ".", export)?;
        }
        Some(Reexport::DLLOrdinal { ordinal, lib }) => {
            push_name(text, " forward=", lib)?;
            push_decimal(text, ".#", ordinal as u64)?;
        }
        None => {}
    }
    Ok(())
}

fn push_lines<T: Listed>(text: &mut String, items: &[T]) -> Result<(), AllocError>
    ensures { OnOk result
        (string_bytes text.new ≡ string_bytes text.old ++ flat_map T.line items.now) }
{
    'lines: for item in items {
        item.push_line(text)?;
    }
    Ok(())
}

#[tactic(auto, unfolding(crate::specs::Lines::part_lines))]
fn push_part<T: Listed>(
    text: &mut String,
    label: &str,
    part: &Part<Vec<T>>,
) -> Result<(), AllocError>
    ensures { OnOk result
        (string_bytes text.new
        ≡ string_bytes text.old
        ++ part_lines label.now length (flat_map T.line) (items_part part.now)) }
{
    text.push_str(label)?;
    match part {
        Part::Absent => text.push_str(" absent\n")?,
        Part::Read(items) => {
            push_decimal(text, " ", items.len() as u64)?;
            text.push_str("\n")?;
            push_lines(text, items)?;
        }
        Part::Refused => text.push_str(" refused\n")?,
    }
    Ok(())
}

#[tactic(auto, unfolding(crate::specs::Lines::part_lines))]
fn push_relocations(text: &mut String, part: &Part<RelocationData>) -> Result<(), AllocError>
    ensures { OnOk result
        (string_bytes text.new
        ≡ string_bytes text.old ++ relocation_lines (part_map relocation_bytes part.now)) }
{
    text.push_str("relocations")?;
    match part {
        Part::Absent => text.push_str(" absent\n")?,
        Part::Read(relocations) => {
            push_decimal(text, " ", block_count(relocations) as u64)?;
            text.push_str("\n")?;
            push_blocks(text, relocations)?;
        }
        Part::Refused => text.push_str(" refused\n")?,
    }
    Ok(())
}

// How many blocks are read without an error.
#[tactic(auto, unfolding(crate::specs::Lines::block_count), using(crate::proofs::Blocks::block_count_below))]
fn block_count(relocations: &RelocationData) -> usize
    ensures { result ≡ block_count (block_items (relocation_bytes relocations.now) 0) }
{
    let mut count = 0;
    'blocks: for block in relocations.blocks() {
        if let Ok(_) = block {
            count += 1;
        }
    }
    count
}

fn push_blocks(text: &mut String, relocations: &RelocationData) -> Result<(), AllocError>
    ensures { OnOk result
        (string_bytes text.new
        ≡ string_bytes text.old
        ++ flat_map block_line (block_items (relocation_bytes relocations.now) 0)) }
{
    'blocks: for block in relocations.blocks() {
        push_block(text, block)?;
    }
    Ok(())
}

#[tactic(auto, unfolding(crate::specs::Lines::block_line))]
fn push_block(text: &mut String, block: Result<RelocationBlock, Error>) -> Result<(), AllocError>
    ensures { OnOk result
        (string_bytes text.new ≡ string_bytes text.old ++ block_line (block_item block.entry)) }
{
    match block {
        Ok(block) => {
            push_hex(text, "block rva=", block.rva as u64)?;
            push_hex(text, " size=", block.size as u64)?;
            push_decimal(text, " words=", (block.bytes.len() / 2) as u64)?;
            text.push_str("\n")?;
        }
        Err(_) => text.push_str("block refused\n")?,
    }
    Ok(())
}
