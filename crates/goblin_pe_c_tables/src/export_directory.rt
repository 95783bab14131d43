//! The records of what an export directory says, and of the export address table, in batches.

ghost use Rattle.std.specs.Prelude.{◌≡◌, slice_get};
ghost use Rattle.goblin_pe_sect.specs.Addresses.{map_of};
ghost use Rattle.goblin_pe_export.specs.added.ExportWalks.{walked_tables};
ghost use Rattle.goblin_pe_c_tables.specs.Batches.{GivesAddresses, GivesBatch, SaysDirectory};
ghost use Rattle.goblin_pe_c_tables.specs.Batches.{IsAddressesFault};
ghost use Rattle.goblin_pe.specs.added.Layouts.{read_or};
ghost use Rattle.goblin_pe_c_headers.specs.Onward.{batch_at, GivesOnward};
ghost use Rattle.goblin_pe.specs.Whole.{part_map};
ghost use Rattle.goblin_pe_c_tables.specs.ExportDirectories.{address_for_c, addresses_for_c};
ghost use Rattle.goblin_pe_c_tables.specs.ExportDirectories.{directory_for_c, directory_model};
ghost use Rattle.goblin_pe_c_tables.specs.ExportDirectories.{no_export_directory};

use crate::batch::{Batched, at_room, skip_table};
use crate::next::longest_in;
use crate::places::layout_of;
use goblin_pe::added::{Exports, Layout};
use goblin_pe::export::{ExportAddressTableEntry as Entry, ExportDirectoryTable};
use goblin_pe::{Part, Result, ResultOf};
use goblin_pe_c_headers::batch::PeBatch;
use goblin_pe_c_headers::image::PeImage;
use goblin_pe_c_headers::name::cut_name;
use goblin_pe_c_headers::onward::fill_onward;
use goblin_pe_sect::address_map::{AddressMap, Finder};

/// An entry of the export address table.
#[repr(C)]
#[derive(Copy, Clone)]
pub struct PeExportAddress {
    /// The ordinal.
    pub ordinal: usize,
    /// The RVA; of a forwarder, that of its text; 0 if the ordinal is unused.
    pub rva: usize,
    /// The file offset of `rva`, if it has one; else 0.
    pub offset: usize,
    /// Whether it is forwarded: `rva` lies in the export directory. `goblin_pe_forwarder_at` reads
    /// where to.
    pub is_forwarder: bool,
    /// Whether `rva` has a file offset.
    pub has_offset: bool,
    /// Zeros.
    pub reserved: [u8; 6],
}

/// What the export directory says.
#[repr(C)]
#[derive(Copy, Clone)]
pub struct PeExportDirectory<'a> {
    /// The image's own name as a DLL.
    pub name: &'a [u8],
    /// The export directory table, as stored.
    pub record: ExportDirectoryTable,
    /// Whether the name can be read.
    pub has_name: bool,
    /// Whether the name is cut.
    pub is_name_cut: bool,
    /// Whether the image has an export directory that is read. If not, all else is zeros.
    pub is_present: bool,
    /// Zeros.
    pub reserved: [u8; 5],
}

// The record of an entry with an ordinal.
fn address_record(entry: Entry, ordinal: usize, address_map: &AddressMap) -> PeExportAddress
    ensures { result ≡ address_for_c (map_of address_map.now).addressing ordinal entry }
{
    let (rva, is_forwarder) = match entry {
        Entry::ExportRVA(rva) => (rva, false),
        Entry::ForwarderRVA(rva) => (rva, true),
    };
    let offset = address_map.offset_of(rva);
    PeExportAddress {
        ordinal,
        rva: rva as usize,
        offset: offset.unwrap_or(0),
        is_forwarder,
        has_offset: offset.is_some(),
        reserved: [0; 6],
    }
}

// The record of an export directory; zeros if none is read.
fn directory_record<'a>(
    bytes: &'a [u8],
    exports: &Part<Exports<'a, '_>>,
    longest: Option<u32>,
) -> PeExportDirectory<'a>
    ensures { directory_model result
        ≡ read_or no_export_directory (directory_for_c longest)
        (part_map walked_tables exports.now) }
{
    let Part::Read(exports) = exports else {
        return PeExportDirectory {
            name: &bytes[..0],
            record: ExportDirectoryTable::default(),
            has_name: false,
            is_name_cut: false,
            is_present: false,
            reserved: [0; 5],
        };
    };
    let whole = match exports.name() {
        Some(name) => name.as_bytes(),
        None => &bytes[..0],
    };
    let (name, is_name_cut) = cut_name(whole, longest);
    PeExportDirectory {
        name,
        record: *exports.directory_table(),
        has_name: exports.name().is_some(),
        is_name_cut,
        is_present: true,
        reserved: [0; 5],
    }
}

/// Puts into `directory` the export directory of an image; zeros if none is read. How many name
/// pointers it counts does not matter.
///
/// # Errors
/// As [`layout_of`]; in strict mode the export directory. Nothing is then changed.
pub fn give_directory<'a>(image: &PeImage<'a>, directory: &mut PeExportDirectory<'a>) -> Result<()>
    ensures { GivesBatch image.now
        (λ m places. SaysDirectory m places image.now.bytes.now (directory_model directory.new))
        (λ m places. IsAddressesFault m places image.now.bytes.now)
        (directory.new ≡ directory.old) result }
{
    let layout = layout_of(image)?;
    let exports = layout.export_addresses()?;
    *directory = directory_record(image.bytes, &exports, longest_in(&layout));
    Ok(())
}

// The record of the entry at an index, if there is one.
fn address_at(exports: &Exports, index: usize, address_map: &AddressMap) -> Option<PeExportAddress>
    ensures { result
        ≡ slice_get
        (addresses_for_c (map_of address_map.now).addressing (walked_tables exports.now))
        index }
{
    if exports.address_count() <= index {
        return None;
    }
    let Some(entry) = exports.address(index) else {
        return None;
    };
    let base = exports.directory_table().ordinal_base;
    Some(address_record(entry, base as usize + index, address_map))
}

// Fills records with the entries from the index `position` on, as far as there is room, moves the
// index past them, and answers what it did.
fn fill_addresses(
    exports: &Exports,
    finder: &Finder,
    position: &mut usize,
    records: &mut [PeExportAddress],
) -> PeBatch
    ensures { let m = map_of finder.now in
        let old = batch_at position.old records.old in
        let new = batch_at position.new records.new in
        GivesOnward (addresses_for_c m.addressing (walked_tables exports.now)) old new result }
{
    if exports.address_count() <= *position {
        return at_room(records.len(), 0, 0, true);
    }
    let address_map = finder.address_map();
    fill_onward(
        |index| address_at(exports, index, address_map),
        position,
        records,
    )
}

impl<'a> Batched<'a> for PeExportAddress {
    type Position = usize;

    ghost gives = { λ before after. GivesAddresses };

    ghost is_fault = { λ m places bytes old. IsAddressesFault m places bytes };

    fn next<'e>(
        layout: &Layout<'a>,
        position: &mut usize,
        _steps: &mut usize,
        records: &mut [PeExportAddress],
    ) -> ResultOf<'e, PeBatch> {
        match layout.export_addresses()? {
            Part::Read(exports) => {
                Ok(fill_addresses(&exports, &layout.finder(), position, records))
            }
            Part::Absent => Ok(at_room(records.len(), 0, 0, true)),
            Part::Refused => Ok(skip_table(position, records.len())),
        }
    }
}
