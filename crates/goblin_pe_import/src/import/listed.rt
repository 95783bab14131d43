//! The list of imports.

ghost use Rattle.std.specs.Prelude.{◌≡◌, ◌+◌, ◌<◌, ◌++◌, ◌∷◌, [], IfErr, IfOk, None, OnOk, length};
ghost use Rattle.std.specs.Prelude.{map, option_map, string_bytes, true, option_copied};
ghost use Rattle.goblin_base.specs.Answers.{AnswersOrMemory, GivesOrMemory, IsMemory};
ghost use Rattle.goblin_pe_import.specs.{ImportBound.AreFew, ImportLookup.entry_model};
ghost use Rattle.goblin_pe_import.specs.Imports.{IsImportListFault, IsOverflow, has_slots};
ghost use Rattle.goblin_pe_import.specs.Imports.{first_without_slots, import_of, import_offset};
ghost use Rattle.goblin_pe_import.specs.Imports.{imports_by, imports_of, kept_entries};
ghost use Rattle.goblin_pe_import.specs.Imports.{library_imports, ordinal_name};

use crate::import::ImportData;
use crate::import::bitfield::Bitfield;
use crate::import::library::SyntheticImportDirectoryEntry;
use crate::import::lookup_table::SyntheticImportLookupTableEntry;
use goblin_base::{Cause, Error, ResultOf};
use goblin_pe_sect::section_table::SectionTable;
use std::alloc::Global;
use std::borrow::CowStr;
use std::marker::Model;

// The length of the longest name of an import by ordinal, in bytes.
const ORDINAL_NAME_MAX: usize = 13;

/// An import: what is imported, from which library, and where the loader writes its address.
/// Addresses are RVAs, relative to the image's base.
///
/// Source: PE Format, "The .idata Section".
#[derive(Debug, Drop)]
pub struct Import<'a> {
    /// The name that is imported, borrowed from the file. For an import by ordinal, the name is
    /// made: `ORDINAL ` and the ordinal in decimal digits. A file may name an import like that,
    /// too, but only a name from the file is borrowed.
    pub name: CowStr<'a>,
    /// The name of the library. It is empty if permissive mode could not read it.
    pub dll: &'a str,
    /// The ordinal. For an import by name, it is the hint: the index in the library's name pointer
    /// table at which the loader looks for the name first. A wrong hint does no harm.
    pub ordinal: u16,
    /// The address (not the file offset) of the import's entry in the address table, where the
    /// loader writes the address of what is imported. It is the address of the table plus `slot`
    /// times `size`.
    pub offset: usize,
    /// The address of the hint and the name; 0 for an import by ordinal.
    pub rva: usize,
    /// The size of an entry of the address table, in bytes: 4 in a PE32 image, else 8.
    pub size: usize,
    /// The index of the import's entry in the tables of the file: the lookup table and the address
    /// table. Entries that are left out are counted.
    pub slot: usize,
}

impl<'a> Model for Import<'a> {
    ghost use Rattle.std.specs.Cow.{cow_str_bytes};
    ghost use Rattle.goblin_pe_import.specs.ImportLookup.{is_borrowed_str};
    ghost use Rattle.goblin_pe_import.specs.Imports.{ImportValue};

    ghost Value = { ImportValue };

    ghost view = { λ import. record {
      name = cow_str_bytes import.name;
      is_borrowed = is_borrowed_str import.name;
      dll = import.dll.now;
      ordinal = import.ordinal;
      offset = import.offset;
      rva = import.rva;
      size = import.size;
      slot = import.slot;
    } };
}

// The name of an import by ordinal.
fn ordinal_name<'e>(alloc: Global, ordinal: u16) -> ResultOf<'e, String>
    ensures { GivesOrMemory string_bytes result (ordinal_name ordinal) }
{
    let mut name = String::with_capacity(alloc, ORDINAL_NAME_MAX)?;
    write!(name, "ORDINAL {ordinal}")?;
    Ok(name)
}

// The address of a slot of an address table, if it does not overflow 64 bits.
fn import_offset(rva: u32, size: usize, slot: usize) -> Option<usize>
    ensures { result ≡ import_offset rva size slot }
{
    let distance = size.checked_mul(slot)?;
    distance.checked_add(rva as usize)
}

impl<'a> Import<'a> {
    /// Lists the imports of `import_data`, whose address tables have entries of type `T`. There is
    /// one for each lookup table entry that is kept, in the order of the libraries and of the
    /// entries. The file and the sections are not looked at.
    ///
    /// If the import data was read from a file of N bytes, there are at most (N / 20) * (N / k)
    /// imports, for entries of k bytes. The file has room for no more import descriptors, and for
    /// no more entries of each.
    ///
    /// # Errors
    /// [`Error::Malformed`] with [`Cause::SlotCount`] if the entries and slots of a library made by
    /// hand differ in number. The cause has the counts of the first such library. Otherwise
    /// [`Error::Malformed`] with [`Cause::Overflow`] if an import's offset overflows 64 bits.
    /// [`Error::Memory`] if memory is refused.
    #[tactic(auto, using(crate::proofs::ImportBound::are_few))]
    pub fn parse<'e, T: Bitfield<'a>>(
        alloc: Global,
        _bytes: &'a [u8],
        import_data: &ImportData<'a>,
        _sections: &[SectionTable],
    ) -> ResultOf<'e, Vec<Import<'a>>>
        ensures value { AnswersOrMemory (λ v. v.items) result
            (imports_of T.format.width import_data.now) (IsImportListFault import_data.now) }
        ensures bound { IfOk result (λ v. AreFew T.format import_data.now v.items) }
    {
        Ok(imports_of(alloc, &import_data.import_data, T::size_of())?)
    }
}

// The entries that a library's lookup table keeps.
fn kept_entries<'b, 'a>(
    library: &'b SyntheticImportDirectoryEntry<'a>,
) -> &'b [SyntheticImportLookupTableEntry<'a>]
    ensures entries { map entry_model result.now ≡ kept_entries library.now }
    ensures count { length result.now ≡ length (kept_entries library.now) }
{
    match &library.import_lookup_table {
        Some(table) => table.as_slice(),
        None => &[],
    }
}

// How many slots a library has.
fn slot_count(library: &SyntheticImportDirectoryEntry) -> usize
    ensures { result ≡ length library.now.import_lookup_slots }
{
    library.import_lookup_slots.len()
}

// Whether a library has as many entries as slots.
fn has_slots(library: &SyntheticImportDirectoryEntry) -> bool
    ensures { result ≡ has_slots library.now }
{
    kept_entries(library).len() == slot_count(library)
}

// The first library whose entries and slots differ in number.
fn first_without_slots<'b, 'a>(
    libraries: &'b [SyntheticImportDirectoryEntry<'a>],
) -> Option<&'b SyntheticImportDirectoryEntry<'a>>
    ensures { option_copied result ≡ first_without_slots libraries.now }
{
    libraries.iter().find(|library| !has_slots(library))
}

// How many entries the lookup tables of libraries keep, or `usize::MAX` if that overflows.
fn count_of(libraries: &[SyntheticImportDirectoryEntry]) -> usize {
    let mut count = 0usize;
    'libraries: for library in libraries {
        count = count.saturating_add(kept_entries(library).len());
    }
    count
}

// Appends the import of an entry.
fn push_entry<'a, 'e>(
    alloc: Global,
    imports: &mut Vec<Import<'a>>,
    entry: &SyntheticImportLookupTableEntry<'a>,
    dll: &'a str,
    slot: usize,
    offset: usize,
    size: usize,
) -> ResultOf<'e, ()>
    ensures added { OnOk result
        (imports.new.items
        ≡ imports.old.items ++ import_of dll.now slot offset size (entry_model entry.now) ∷ []) }
    ensures refused { IfErr result IsMemory }
{
    match entry {
        SyntheticImportLookupTableEntry::OrdinalNumber(ordinal) => {
            let name = ordinal_name(alloc, *ordinal)?;
            imports.push(Import {
                name: CowStr::Owned(name),
                dll,
                ordinal: *ordinal,
                offset,
                rva: 0,
                size,
                slot,
            })?;
        }
        SyntheticImportLookupTableEntry::HintNameTableRVA((rva, named)) => {
            imports.push(Import {
                name: CowStr::Borrowed(named.name),
                dll,
                ordinal: named.hint,
                offset,
                rva: *rva as usize,
                size,
                slot,
            })?;
        }
    }
    Ok(())
}

// Appends the imports of a table's entries, each in its slot of `size` bytes of the address table
// at `rva`.
fn push_entries<'a, 'e>(
    alloc: Global,
    imports: &mut Vec<Import<'a>>,
    entries: &[SyntheticImportLookupTableEntry<'a>],
    slots: &[usize],
    dll: &'a str,
    rva: u32,
    size: usize,
) -> ResultOf<'e, ()>
    requires { length slots.now ≡ length entries.now }
    ensures { let entries = map entry_model entries.now in
        let made = imports_by size dll.now rva entries slots.now in
        AnswersOrMemory (λ _. imports.new.items) result
        (option_map (λ more. imports.old.items ++ more) made) IsOverflow }
{
    'entries: for (position, entry) in entries.iter().enumerate() {
        let slot = slots[position];
        let Some(offset) = import_offset(rva, size, slot) else {
            return Err(Error::Malformed(Cause::Overflow));
        };
        push_entry(alloc, imports, entry, dll, slot, offset, size)?;
    }
    Ok(())
}

// Appends the imports from a library, whose address table has entries of `size` bytes.
fn push_imports<'a, 'e>(
    alloc: Global,
    imports: &mut Vec<Import<'a>>,
    library: &SyntheticImportDirectoryEntry<'a>,
    size: usize,
) -> ResultOf<'e, ()>
    requires { has_slots library.now ≡ true }
    ensures { AnswersOrMemory (λ _. imports.new.items) result
        (option_map (λ made. imports.old.items ++ made) (library_imports size library.now))
        IsOverflow }
{
    push_entries(
        alloc,
        imports,
        kept_entries(library),
        &library.import_lookup_slots,
        library.name,
        library.import_directory_entry.import_address_table_rva,
        size,
    )
}

// The imports from all libraries, whose address tables have entries of `size` bytes.
#[tactic(auto, unfolding(crate::specs::Imports::imports_of))]
fn imports_of<'a, 'e>(
    alloc: Global,
    libraries: &[SyntheticImportDirectoryEntry<'a>],
    size: usize,
) -> ResultOf<'e, Vec<Import<'a>>>
    ensures { AnswersOrMemory (λ v. v.items) result (imports_of size libraries.now)
        (IsImportListFault libraries.now) }
{
    if let Some(library) = first_without_slots(libraries) {
        let entries = kept_entries(library).len();
        let slots = slot_count(library);
        return Err(Error::Malformed(Cause::SlotCount(entries, slots)));
    }
    let mut imports = Vec::with_capacity(alloc, count_of(libraries))?;
    'libraries: for library in libraries {
        push_imports(alloc, &mut imports, library, size)?;
    }
    Ok(imports)
}
