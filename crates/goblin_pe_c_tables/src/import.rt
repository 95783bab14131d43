//! The records of imports.

ghost use Rattle.std.specs.Prelude.{◌≡◌, false, true};
ghost use Rattle.goblin_pe_import.specs.added.ImportWalks.{walked_value};
ghost use Rattle.goblin_pe_c_headers.specs.Names.{cut_name};
ghost use Rattle.goblin_pe_c_tables.specs.Imports.{cut_import, import_for_c, import_model};
ghost use Rattle.goblin_pe_c_tables.specs.Imports.{whole_import};

use goblin_pe::added::WalkedImport;
use goblin_pe::import::SyntheticImportLookupTableEntry as Entry;
use goblin_pe_c_headers::name::cut_name;

/// An import.
#[repr(C)]
#[derive(Copy, Clone)]
pub struct PeImport<'a> {
    /// The name; empty if it is imported by ordinal, or permissive mode could not read the name.
    /// To see the bytes of such a name, look up the file offset of `hint_name_rva` + 2.
    pub name: &'a [u8],
    /// The name of the DLL; empty if it can't be read, in permissive mode or in a walk over one
    /// library.
    pub dll: &'a [u8],
    /// The RVA of its thunk in the import address table, where the loader puts the address.
    pub iat_rva: usize,
    /// The RVA of its hint and name; 0 if it is imported by ordinal.
    pub hint_name_rva: usize,
    /// The index of the DLL's entry in the import directory. Skipped entries count.
    pub library_index: usize,
    /// The index of its entry in the lookup table. Skipped entries count.
    pub thunk_index: usize,
    /// The hint if it is imported by name, else the ordinal.
    pub hint_or_ordinal: u16,
    /// Whether it is imported by name.
    pub is_by_name: bool,
    /// Whether it has a name: it is imported by name, and the name can be read and is not empty.
    pub has_name: bool,
    /// Whether the name is cut.
    pub is_name_cut: bool,
    /// Whether the name of the DLL is cut.
    pub is_library_cut: bool,
    /// Zeros.
    pub reserved: [u8; 2],
}

// The record of an import of these bytes, its names whole.
#[inline(always)]
fn whole_import<'a>(bytes: &'a [u8], import: &WalkedImport<'a>) -> PeImport<'a>
    ensures { import_model result ≡ whole_import (walked_value import.now) }
{
    let (name, rva, hint_or_ordinal, is_by_name) = match &import.entry {
        Entry::OrdinalNumber(ordinal) => (&bytes[..0], 0, *ordinal, false),
        Entry::HintNameTableRVA((rva, named)) => (named.name.as_bytes(), *rva, named.hint, true),
    };
    PeImport {
        name,
        dll: import.dll.as_bytes(),
        iat_rva: import.slot_rva,
        hint_name_rva: rva as usize,
        library_index: import.library,
        thunk_index: import.slot,
        hint_or_ordinal,
        is_by_name,
        has_name: !name.is_empty(),
        is_name_cut: false,
        is_library_cut: false,
        reserved: [0; 2],
    }
}

// Cuts the names of a record at the limit. (In `put_import` they would be cut for every import.)
#[inline(never)]
fn cut_import(place: &mut PeImport, longest: Option<u32>)
    ensures { import_model place.new ≡ cut_import longest (import_model place.old) }
{
    (place.name, place.is_name_cut) = cut_name(place.name, longest);
    (place.dll, place.is_library_cut) = cut_name(place.dll, longest);
}

// Whether the limit cuts neither of two names.
#[inline(always)]
fn are_whole(name: &[u8], dll: &[u8], longest: Option<u32>) -> bool
    ensures { result ≡ true → (cut_name longest name.now ≡ (name.now, false))
        × (cut_name longest dll.now ≡ (dll.now, false)) }
{
    let limit = match longest {
        Some(longest) => longest as usize,
        None => usize::MAX,
    };
    name.len() <= limit && dll.len() <= limit
}

/// Puts the record of an import of these bytes into its place.
#[inline(always)]
pub fn put_import<'a>(
    place: &mut PeImport<'a>,
    bytes: &'a [u8],
    import: &WalkedImport<'a>,
    longest: Option<u32>,
)
    ensures { import_model place.new ≡ import_for_c longest (walked_value import.now) }
{
    *place = whole_import(bytes, import);
    if !are_whole(place.name, place.dll, longest) {
        cut_import(place, longest);
    }
}
