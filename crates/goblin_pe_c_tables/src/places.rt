//! What all tables of an image are read by.

ghost use Rattle.std.specs.Prelude.{◌≡◌, ◌<◌, IfOk};
ghost use Rattle.goblin_base.specs.Reading.{Reads};
ghost use Rattle.goblin_pe.specs.added.Layouts.{layout_bytes, layout_map, layout_places};
ghost use Rattle.goblin_pe.specs.added.Layouts.{layout_sections};
ghost use Rattle.goblin_pe.specs.Whole.{table_places};
ghost use Rattle.goblin_pe_c_tables.specs.Places.{map_at, places_from_c};
ghost use Rattle.goblin_pe_c_headers.specs.Places.{image_places, placed_sections};

use goblin_pe::added::Layout;
use goblin_pe::address_map::{AddressMap, MappedRecords};
use goblin_pe::{Places, ResultOf};
use goblin_pe_c_headers::image::{PeImage, places_of};
use goblin_pe_c_headers::options::{longest_of, options_at, view_of};
use goblin_pe_c_headers::places::{PePlaces, section_records};

// Where the tables lie by a record.
#[inline(always)]
fn places_from_c(places: &PePlaces) -> Places
    ensures { table_places result ≡ places_from_c places.now }
{
    Places {
        magic: places.magic,
        file_alignment: places.file_alignment,
        directories: places.directories,
    }
}

/// What all tables of an image are read by. The tables and the sections lie where the image says,
/// and addresses are mapped and names read as its options say, whatever the file's header says. Of
/// the sections' records nothing is tested but that the file has them.
///
/// # Errors
/// [`Error::Read`](goblin_pe::Error::Read) where there are sections and the file is too short for
/// their records.
#[inline(always)]
pub fn layout_of<'a, 'e>(image: &PeImage<'a>) -> ResultOf<'e, Layout<'a>>
    ensures value { let places = image_places image.now in
        Reads layout_sections result (placed_sections places) image.now.bytes.now }
    ensures over { IfOk result (λ l. layout_bytes l ≡ image.now.bytes.now) }
    ensures placed { let places = image_places image.now in
        IfOk result (λ l. layout_places l ≡ places_from_c places) }
    ensures mapped { let places = image_places image.now in
        IfOk result (λ l. layout_map l ≡ map_at image.now.options places (layout_sections l)) }
{
    let places = places_of(image);
    let records = section_records(image.bytes, &places)?;
    let view = view_of(&image.options);
    let front = view.front(places.size_of_headers);
    let mapped = MappedRecords { records, front };
    let alignment = places.file_alignment;
    let opts = options_at(&image.options, alignment);
    let mut address_map = AddressMap::walking(mapped, view, alignment, &opts);
    address_map.set_longest_name(longest_of(&image.options));
    let places = places_from_c(&places_of(image));
    Ok(Layout::by(image.bytes, places, records, address_map))
}
