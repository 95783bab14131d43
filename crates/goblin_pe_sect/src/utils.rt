//! The map from addresses in memory to file offsets, and the texts and values at an address.
//!
//! Addresses are relative to the image's base (RVAs); offsets are file offsets. Both are in bytes.

ghost use Rattle.std.specs.Prelude.{◌≡◌, ◌+◌, ◌^◌, ◌<◌, ◌≤◌, ◌↔◌, ℕ, IfSome, IsTrue};
ghost use Rattle.std.specs.Prelude.{find, MatchOption, None};
ghost use Rattle.std.specs.{Int.is_power_of_two, Option.option_copied, Option.option_map};
ghost use Rattle.goblin_base.specs.{Answers.Answers, Parts.bytes_in, Reading.Reads};
ghost use Rattle.goblin_pe_sect.specs.Addresses.{Addressing, with_whole_names};
ghost use Rattle.goblin_pe_sect.specs.AddressReadings.{data_at, name_or_none, text_at_address};
ghost use Rattle.goblin_pe_sect.specs.Mapping.{blocks_size, read_size, window_end, window_of};
ghost use Rattle.goblin_pe_sect.specs.Mapping.{file_offset, InWindow, is_in_window, MapsTo};
ghost use Rattle.goblin_pe_sect.specs.Mapping.{mapped_end, offset_in, raw_begin, section_at};
ghost use Rattle.goblin_pe_sect.specs.Mapping.{MapsNowhere, OffsetsApart, IsMessage};
ghost use Rattle.goblin_pe_sect.specs.Multiples.{greatest_multiple, least_multiple};
ghost use Rattle.goblin_pe_sect.specs.Options.{default_options, is_strict, mapping_by};
ghost use Rattle.goblin_pe_sect.specs.declared.options.View.TheVariants.{Sections};

use crate::data_directories::DataDirectory;
use crate::options::{Mapping, ParseOptions, RawPointerRule, View};
use crate::section_table::SectionTable;
use goblin_base::{
    Cause, CauseOf, Endian, Error, ErrorOf, MappedBytes, MappedEnd, Result, ResultOf, TryFromCtx,
    pread_str, pread_with,
};

/// Whether the address `rva` lies in the range from `r1` up to, but not including, `r2`. The range
/// is empty if `r2` is at most `r1`.
pub fn is_in_range(rva: usize, r1: usize, r2: usize) -> bool
    ensures { IsTrue result ↔ ((r1 ≤ rva) × (rva < r2)) }
{
    r1 <= rva && rva < r2
}

// The greatest multiple of `step` that is at most `size`.
#[tactic(auto, using(crate::proofs::Multiples::down))]
fn round_down(size: usize, step: usize) -> usize
    requires { 0 < step }
    ensures value { result ≡ greatest_multiple step size }
    ensures bound { result ≤ size }
{
    size / step * step
}

// The least multiple of `step` that is at least `size`.
#[tactic(auto, using(crate::proofs::Multiples::up))]
fn round_up(size: usize, step: usize) -> usize
    requires some { 0 < step }
    requires room { size + step ≤ usize.MAX }
    ensures value { result ≡ least_multiple step size }
    ensures bound { (size ≤ result) × (result < size + step) }
{
    (size + (step - 1)) / step * step
}

// How many bytes the section's raw data has in whole file blocks.
#[inline(always)]
fn blocks_size(section: &SectionTable, file_alignment: u32, view: View) -> usize
    requires { 0 < file_alignment }
    ensures { result ≡ blocks_size view file_alignment
        section.now.pointer_to_raw_data section.now.size_of_raw_data }
{
    let pointer = section.pointer_to_raw_data as usize;
    let raw_size = section.size_of_raw_data as usize;
    match view {
        View::LoadedSections | View::Loader if file_alignment < 512 => {
            round_up(raw_size, file_alignment as usize)
        }
        _ => round_up(pointer + raw_size, file_alignment as usize) - round_down(pointer, 512),
    }
}

// How many bytes of the section are read from the file, in whole file blocks and pages.
#[tactic(auto, unfolding(crate::specs::Mapping::read_size))]
fn read_size(section: &SectionTable, file_alignment: u32, view: View) -> usize
    requires { 0 < file_alignment }
    ensures value { result ≡ read_size view section.now file_alignment }
    ensures bound { result < 2 ^ 33 }
{
    let raw_size = section.size_of_raw_data as usize;
    if raw_size == 0 {
        return 0;
    }
    let blocks = blocks_size(section, file_alignment, view);
    let stored = blocks.min(round_up(raw_size, 4096));
    match section.virtual_size as usize {
        0 => stored,
        virtual_size => stored.min(round_up(virtual_size, 4096)),
    }
}

// The start and the end of the section's window. The end is the first address after it.
pub(crate) fn section_window(
    section: &SectionTable,
    file_alignment: u32,
    view: View,
) -> (usize, usize)
    requires { 0 < file_alignment }
    ensures begin { result.0 ≡ section.now.virtual_address }
    ensures end { result.1 ≡ window_end view section.now file_alignment }
    ensures near { result.1 < result.0 + 2 ^ 33 }
{
    let begin = section.virtual_address as usize;
    (begin, begin + read_size(section, file_alignment, view))
}

// An upper bound of the end of the section's window, for any view and file alignment. It holds
// because no more than the raw size in whole pages is read. It takes fewer steps than the window
// itself.
#[inline(always)]
#[tactic(auto, using(crate::proofs::Mapped::window_below))]
pub(crate) fn past_window(section: &SectionTable) -> usize
    ensures past { (view : View) (alignment : ℕ)
        → window_end view section.now alignment ≤ result }
    ensures near { result < section.now.virtual_address + 2 ^ 33 }
{
    section.virtual_address as usize + round_up(section.size_of_raw_data as usize, 4096)
}

/// The window of the section: the addresses that it maps, as the pair (start, end). The end is the
/// first address after the window. `None` if `file_alignment` is not a power of two.
///
/// The window begins at the section's address. It is empty if the raw size is 0. Otherwise its size
/// is the least of these:
///
/// - the end of the raw data rounded up to `file_alignment`, minus its start rounded down to 512;
/// - the raw size rounded up to 4,096;
/// - if the virtual size is not 0, the virtual size rounded up to 4,096.
///
/// The window may extend past the raw data and past the end of the file.
///
/// Source: none; PE Format leaves the mapping to loaders. These are goblin's windows.
pub fn window(section: &SectionTable, file_alignment: u32) -> Option<(usize, usize)>
    ensures { result ≡ window_of Sections section.now file_alignment }
{
    window_by(section, file_alignment, View::Sections)
}

/// As [`window`], in a view. In the views of a loader, if `file_alignment` is below
/// 512, the first of the three sizes is the raw size rounded up to `file_alignment`.
#[tactic(auto, using(crate::proofs::Mapped::power_positive))]
pub fn window_by(section: &SectionTable, file_alignment: u32, view: View) -> Option<(usize, usize)>
    ensures { result ≡ window_of view section.now file_alignment }
{
    if file_alignment.is_power_of_two() {
        Some(section_window(section, file_alignment, view))
    } else {
        None
    }
}

// Whether the section's window holds the address.
#[tactic(auto, unfolding(crate::specs::Mapping::read_size))]
fn is_in_window(rva: usize, section: &SectionTable, file_alignment: u32, view: View) -> bool
    requires { 0 < file_alignment }
    ensures { result ≡ is_in_window view file_alignment rva section.now }
{
    let (begin, end) = section_window(section, file_alignment, view);
    is_in_range(rva, begin, end)
}

// The first section whose window holds the address.
#[tactic(auto, using(crate::proofs::Mapped::found_in_window))]
fn first_in_window<'s>(
    rva: usize,
    sections: &'s [SectionTable],
    file_alignment: u32,
    view: View,
) -> Option<&'s SectionTable>
    requires { 0 < file_alignment }
    ensures value { option_copied result
        ≡ find (is_in_window view file_alignment rva) sections.now }
    ensures holds { IfSome result (λ s. InWindow view file_alignment rva s.now) }
{
    sections
        .iter()
        .find(|section| is_in_window(rva, section, file_alignment, view))
}

/// The section in which an address lies: the first whose window holds it. If addresses are mapped,
/// [`find_offset`] maps the address by this section. `None` if no window holds the address, or
/// `file_alignment` is not a power of two.
#[tactic(auto, using(crate::proofs::Mapped::power_positive))]
pub fn section_at<'s>(
    rva: usize,
    sections: &'s [SectionTable],
    file_alignment: u32,
) -> Option<&'s SectionTable>
    ensures value { option_copied result ≡ section_at Sections file_alignment rva sections.now }
    ensures holds { IfSome result (λ s. InWindow Sections file_alignment rva s.now) }
{
    if file_alignment.is_power_of_two() {
        first_in_window(rva, sections, file_alignment, View::Sections)
    } else {
        None
    }
}

/// The file offset at which the section's raw data begins when addresses are mapped. It is the raw
/// pointer, as stored or rounded down to a multiple of 512, by the rule of `mapping`.
///
/// Source: none; [`RawPointerRule`] says for which images each rule is right.
pub fn raw_begin(section: &SectionTable, mapping: Mapping) -> u32
    ensures { result ≡ raw_begin mapping section.now }
{
    let pointer = section.pointer_to_raw_data;
    match mapping.raw_pointer_rule {
        RawPointerRule::AsStored => pointer,
        RawPointerRule::RoundedTo512 => round_down(pointer as usize, 512) as u32,
    }
}

// Where the bytes that the section's window maps end in the file, and the zeros that follow them in
// memory; nowhere if the alignment is below 512. `size` is the size of the window.
#[inline(always)]
#[tactic(auto, using(crate::proofs::Mapped::within_pages, crate::proofs::Multiples::pages_fit))]
pub(crate) fn mapped_end(
    section: &SectionTable,
    file_alignment: u32,
    mapping: Mapping,
    size: usize,
) -> MappedEnd
    requires some { 0 < size }
    requires is { size ≡ read_size mapping.view section.now file_alignment }
    ensures { result ≡ mapped_end mapping file_alignment section.now }
{
    if file_alignment < 512 {
        return MappedEnd::NONE;
    }
    let in_memory = match section.virtual_size {
        0 => section.size_of_raw_data,
        virtual_size => virtual_size,
    };
    let pages = round_up(in_memory as usize, 4096);
    MappedEnd {
        last: raw_begin(section, mapping) as usize + size - 1,
        zeros: (pages - size) as u32,
    }
}

// The file offset of an address in the section's window.
#[tactic(auto, using(crate::proofs::Mapped::read_size_le))]
fn offset_in(rva: usize, section: &SectionTable, file_alignment: u32, mapping: Mapping) -> usize
    requires { InWindow mapping.view file_alignment rva section.now }
    ensures { result ≡ offset_in mapping section.now rva }
{
    let distance = rva - section.virtual_address as usize;
    let raw_size = section.size_of_raw_data as usize;
    prove!(distance < raw_size + 4096);
    raw_begin(section, mapping) as usize + distance
}

// The file offset of an address, by the first section whose window holds it.
#[tactic(auto, unfolding(crate::specs::Mapping::file_offset))]
fn offset_by(
    rva: usize,
    sections: &[SectionTable],
    file_alignment: u32,
    opts: &ParseOptions,
) -> Option<usize>
    ensures { result ≡ file_offset (mapping_by opts.now) sections.now file_alignment rva }
{
    if !opts.resolve_rva {
        return Some(rva);
    }
    let section = section_at(rva, sections, file_alignment)?;
    let mapping = View::Sections.mapping(opts);
    Some(offset_in(rva, section, file_alignment, mapping))
}

/// The file offset of the address `rva`, by the first section, in the order of the table, whose
/// window holds the address. If windows overlap, the first hides the others.
///
/// The windows are those that [`window`] returns. The offset is the raw pointer, as
/// stored or rounded down to a multiple of 512 by the rule of `opts`, plus the distance of `rva`
/// from the section's address. It may lie past the end of the file, so test it before you read
/// there.
///
/// If `opts` says that addresses are offsets, the result is the address itself. Otherwise it is
/// `None` if no window holds the address, or if `file_alignment` is not a power of two.
///
/// Source: none, as for [`window`]; [`RawPointerRule`] says for which images each rule for raw
/// pointers is right.
#[tactic(auto, using(crate::proofs::Mapped::file_offset_first))]
pub fn find_offset(
    rva: usize,
    sections: &[SectionTable],
    file_alignment: u32,
    opts: &ParseOptions,
) -> Option<usize>
    ensures value { result ≡ file_offset (mapping_by opts.now) sections.now file_alignment rva }
    ensures first { IsTrue opts.now.resolve_rva → IsTrue (is_power_of_two file_alignment) →
        MatchOption result (MapsNowhere Sections sections.now file_alignment rva)
        (MapsTo (mapping_by opts.now) sections.now file_alignment rva) }
    ensures apart { OffsetsApart (mapping_by opts.now) sections.now file_alignment }
{
    offset_by(rva, sections, file_alignment, opts)
}

/// The file offset of the address `rva`, as [`find_offset`] returns it.
///
/// # Errors
/// [`Error::Malformed`] with [`Cause::Message`] of `msg` if the address has no file offset.
pub fn find_offset_or(
    rva: usize,
    sections: &[SectionTable],
    file_alignment: u32,
    opts: &ParseOptions,
    msg: &'static str,
) -> Result<usize>
    ensures { let mapping = mapping_by opts.now in
        Answers (λ p. p) result (file_offset mapping sections.now file_alignment rva)
        (IsMessage msg.now) }
{
    find_offset(rva, sections, file_alignment, opts).ok_or(Error::Malformed(Cause::Message(msg)))
}

/// The text at the address `rva`, up to its first NUL or the end of the file.
///
/// # Errors
/// In both modes: [`Error::Malformed`] with [`Cause::Unmapped`] if the address has no file offset,
/// and [`Error::Read`] if there is no text.
#[tactic(auto, unfolding(crate::specs::AddressReadings::text_at_address))]
pub fn try_name<'a>(
    bytes: &'a [u8],
    rva: usize,
    sections: &[SectionTable],
    file_alignment: u32,
    opts: &ParseOptions,
) -> Result<&'a str>
    ensures { let m = file_offset (mapping_by opts.now) sections.now file_alignment in
        Reads (λ s. s.now) result (text_at_address m rva) bytes.now }
{
    match find_offset(rva, sections, file_alignment, opts) {
        Some(offset) => pread_str(bytes, offset),
        None => Err(Error::Malformed(Cause::Unmapped(rva))),
    }
}

/// The text at the address `rva`, as [`try_name`] returns it. In permissive mode it is `None` if
/// there is no text.
///
/// # Errors
/// In strict mode [`Error::Malformed`]: [`Cause::Unmapped`] if the address has no file offset,
/// [`Cause::NameRead`] if there is no text at that offset.
#[tactic(auto, unfolding(crate::specs::AddressReadings::name_at))]
pub fn safe_try_name<'a>(
    bytes: &'a [u8],
    rva: usize,
    sections: &[SectionTable],
    file_alignment: u32,
    opts: &ParseOptions,
) -> Result<Option<&'a str>>
    ensures { let mapping = mapping_by opts.now in
        let m = with_whole_names (file_offset mapping sections.now file_alignment) in
        Reads (option_map (λ s. s.now)) result
        (name_or_none (is_strict opts.now.parse_mode) m rva) bytes.now }
{
    let offset = find_offset(rva, sections, file_alignment, opts);
    safe_name_at(bytes, rva, offset, opts)
}

/// The text at `offset`, the file offset of the address `rva`, as [`safe_try_name`] returns it. It
/// is for callers that have already mapped the address. If `offset` is `None`, the address has no
/// file offset and so no text.
///
/// # Errors
/// As [`safe_try_name`].
#[inline(always)]
pub fn safe_name_at<'a, 'e>(
    bytes: &'a [u8],
    rva: usize,
    offset: Option<usize>,
    opts: &ParseOptions,
) -> ResultOf<'e, Option<&'a str>>
    ensures { let m = with_whole_names (λ _. offset) in
        Reads (option_map (λ s. s.now)) result
        (name_or_none (is_strict opts.now.parse_mode) m rva) bytes.now }
{
    name_within(MappedBytes::whole(bytes), rva, offset, None, opts)
}

// The text at an offset, as `safe_name_at` returns it, but cut if there is a limit.
#[inline(always)]
#[tactic(auto, unfolding(crate::specs::AddressReadings::name_at))]
pub(crate) fn name_within<'a, 'e>(
    bytes: MappedBytes<'a>,
    rva: usize,
    offset: Option<usize>,
    longest: Option<u32>,
    opts: &ParseOptions,
) -> ResultOf<'e, Option<&'a str>>
    ensures { let m : Addressing =
        record { offset = λ _. offset; end = λ _. None; longest = longest } in
        Reads (option_map (λ s. s.now)) result
        (name_or_none (is_strict opts.now.parse_mode) m rva) (bytes_in bytes.entry) }
{
    let cause = match offset {
        Some(offset) => match bytes.text_within(offset, longest) {
            Ok(name) => return Ok(Some(name)),
            Err(_) => CauseOf::NameRead(offset),
        },
        None => CauseOf::Unmapped(rva),
    };
    if opts.parse_mode.is_permissive() {
        Ok(None)
    } else {
        Err(ErrorOf::Malformed(cause))
    }
}

/// The value at the address of `directory`, as [`get_data_with_opts`] reads it with the default
/// options.
///
/// # Errors
/// As [`get_data_with_opts`].
pub fn get_data<'a, 'e, T: TryFromCtx<'a>>(
    bytes: &'a [u8],
    sections: &[SectionTable],
    directory: DataDirectory,
    file_alignment: u32,
) -> ResultOf<'e, T>
    ensures { let m = file_offset (mapping_by default_options) sections.now file_alignment in
        let rva = directory.virtual_address in
        Reads T.model result (data_at m T.value_of T.refusal rva) bytes.now }
{
    get_data_with_opts(
        bytes,
        sections,
        directory,
        file_alignment,
        &ParseOptions::default(),
    )
}

/// The value at the address of `directory`, read in little-endian order from the file offset of the
/// address on. It may take all bytes up to the end of the file, whatever the size of the data
/// directory.
///
/// # Errors
/// In both modes: [`Error::Malformed`] with [`Cause::Unmapped`] if the address has no file offset,
/// [`Error::Read`] with `BadOffset` if the offset lies at or past the end of the file, otherwise
/// the error with which `T` refuses the bytes.
#[tactic(auto, unfolding(crate::specs::AddressReadings::data_at))]
pub fn get_data_with_opts<'a, 'e, T: TryFromCtx<'a>>(
    bytes: &'a [u8],
    sections: &[SectionTable],
    directory: DataDirectory,
    file_alignment: u32,
    opts: &ParseOptions,
) -> ResultOf<'e, T>
    ensures { let m = file_offset (mapping_by opts.now) sections.now file_alignment in
        let rva = directory.virtual_address in
        Reads T.model result (data_at m T.value_of T.refusal rva) bytes.now }
{
    let rva = directory.virtual_address as usize;
    let Some(offset) = find_offset(rva, sections, file_alignment, opts) else {
        return Err(Error::Malformed(Cause::Unmapped(rva)));
    };
    pread_with(bytes, offset, Endian::Little)
}
