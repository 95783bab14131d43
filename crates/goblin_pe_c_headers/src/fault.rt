//! Refusals as numbers, and their texts by these.

ghost use Rattle.std.specs.Prelude.{◌≡◌, ◌≤◌, Some, length, option_map, slice_get};
ghost use Rattle.std.specs.Fmt.InlineText.{inline_text};
ghost use Rattle.goblin_base.specs.declared.error.ErrorOf.TheVariants.{Malformed, Read};
ghost use Rattle.goblin_base.specs.ErrorText.{error_text};
ghost use Rattle.goblin_pe_c_headers.specs.Faults.{IsNumbered, IsTextOf, call_text, cause_of};
ghost use Rattle.goblin_pe_c_headers.specs.Faults.{causes, fault, fault_of, file_text, image_fault};
ghost use Rattle.goblin_pe_c_headers.specs.Faults.{kind_fault, no_fault, options_fault};
ghost use Rattle.goblin_pe_c_headers.specs.Faults.{read_fault_of, refusal_text, status_of};
ghost use Rattle.goblin_pe_c_headers.specs.Faults.{word_number, word_of};
ghost use Rattle.goblin_pe_c_headers.specs.Filled.{Filled};

use crate::kind::Kind;
use crate::options::{PeOptions, are_known};
use CauseNumber as Number;
use goblin_base::{Cause, Error, ReadFault, Result};
use std::alloc::AllocError;
use std::fmt::InlineText;

// The number of a refusal of memory. It is no status, because no call takes memory.
const REFUSED_MEMORY: u32 = 5;

fn item_at<T: Copy>(table: &[T], index: u32) -> Option<T>
    ensures { result ≡ slice_get table.now index }
{
    table.get(index as usize).copied()
}

/// What kind of refusal it is. A later version may add numbers, here and to the causes, but changes
/// none.
#[derive(Copy, Clone)]
pub enum Status {
    /// Nothing is refused.
    Ok = 0,
    /// The bytes are not what the format says: the cause is a [`Cause`](CauseNumber).
    Malformed = 1,
    /// An optional header has the magic number `first`, neither of the two that are read.
    BadMagic = 2,
    /// The file is too short for `first` entries: the cause is a [`Counted`].
    BufferTooShort = 3,
    /// A read at an offset was refused: the cause is a [`ReadFault`](ReadRefusal).
    Read = 4,
    /// The options have an unknown mapping, `first`, or reserved bytes that are not zero.
    Options = 6,
    /// There are no steps left, and the table may have more rows.
    Steps = 7,
    /// The call is for images, and the record is of an object or a TE file: its kind is `first`.
    Kind = 8,
}

/// What a file is too short for.
#[derive(Copy, Clone)]
enum Counted {
    /// Something else, which the text calls entries.
    Other = 0,
    /// Section records.
    Sections = 1,
    /// Entries of the export name pointer table.
    NamePointers = 2,
    /// Entries of the export address table.
    AddressTableEntries = 3,
}

/// Why a read was refused.
#[derive(Copy, Clone)]
enum ReadRefusal {
    /// It begins at or past the end.
    BadOffset = 1,
    /// There are not enough bytes from there on.
    TooBig = 2,
    /// The bytes are not UTF-8.
    BadInput = 3,
}

/// What is wrong with a file. `first` and `second` are the two numbers of the cause; offsets are
/// file offsets in bytes. No call returns MESSAGE, DIRECTORY_INDEX, SYMBOL_NAME or SLOT_COUNT,
/// which are errors in Rattle alone.
#[derive(Copy, Clone)]
enum CauseNumber {
    /// A message of a caller's own.
    Message = 1,
    /// The file is too short for the DOS signature.
    NoDosSignature = 2,
    /// The file begins with `first` in place of the DOS signature.
    DosMagic = 3,
    /// The file is too short for the DOS header.
    NoPePointer = 4,
    /// The file has no four bytes at offset `first`, where the PE signature is placed.
    NoPeSignature = 5,
    /// The four bytes at the place of the PE signature are `first`.
    PeMagic = 6,
    /// The PE signature is placed at offset `first`, before 0x40, where the DOS stub begins.
    StubBeforeStart = 7,
    /// The DOS stub would pass the file's `first` bytes: it would end at offset `second`.
    StubPastEnd = 8,
    /// The DOS stub has the marker `Rich` with a key, but under that key no marker `DanS`.
    NoDans = 9,
    /// The data of the Rich header would begin at `first` and end at `second`, not after it, in
    /// bytes counted from offset 0x40.
    RichBounds = 10,
    /// The header of a Terse Executable says that `first` bytes were stripped, fewer than its
    /// own 40.
    StrippedSize = 11,
    /// The length of a string table is below 4, the size of the field that says it.
    CoffLength = 12,
    /// No kind of data directory has the index `first`.
    DirectoryIndex = 13,
    /// There are `first` data directories, more than sixteen.
    DirectoryCount = 14,
    /// The bytes after the slash of a section's indirect name are not UTF-8.
    NameText = 15,
    /// A section's indirect name has a character that is no digit of base 64.
    NameBase64 = 16,
    /// A section's name has no decimal number after its slash.
    NameDecimal = 17,
    /// No section name can hold `first`, an offset in a string table.
    NameOffset = 18,
    /// A symbol has no name: there is no text at offset `first` of the string table, or the stored
    /// offset is `first`, below 4.
    SymbolName = 19,
    /// The texts of a string table, `second` bytes at offset `first`, would pass the file.
    StringTable = 20,
    /// A Windows field of 64 bits has a value that does not fit 32.
    FieldTooWide = 21,
    /// The address `first` has no file offset.
    Unmapped = 22,
    /// There is no text at offset `first`, to which the address of a name is mapped.
    NameRead = 23,
    /// The two bytes of a hint would pass the file at offset `first`.
    HintEntry = 24,
    /// A lookup table of imports meets the file's end at offset `first`, before its last entry.
    LookupEnd = 25,
    /// An import directory meets the file's end at offset `first`, before its last record.
    ImportRecordEnd = 26,
    /// An export directory's record would pass the file at offset `first`.
    ExportTable = 27,
    /// A forwarder's text has no dot, or nothing after its first dot.
    Forwarder = 28,
    /// A forwarder's text has no decimal number below 2^32 after its `#`.
    ForwarderOrdinal = 29,
    /// A base relocation directory at offset `first`, of `second` bytes, would pass the file,
    /// or begins at or past its end.
    RelocRange = 30,
    /// A base relocation block says that it has `first` bytes, below the 8 of its own head.
    BlockSize = 31,
    /// The words of a base relocation block, `second` bytes at `first` from the directory's
    /// front, would pass the directory, or begin at its end.
    BlockRange = 32,
    /// A sum or a product of offsets passes 64 bits.
    Overflow = 33,
    /// A library of imports made by hand has `first` entries, but `second` slots.
    SlotCount = 34,
}

/// Why a call gave no value, in numbers; the status 0 is that it gave one.
#[repr(C)]
#[derive(Copy, Clone)]
pub struct PeFault {
    /// What kind of refusal it is, by the numbers of [`Status`]; 0 where nothing is refused.
    pub status: u32,
    /// By the status a [`Cause`](CauseNumber), a [`Counted`] or a [`ReadFault`](ReadRefusal); else
    /// 0.
    pub cause: u32,
    /// The number that the cause, or else the status, calls `first`; else 0.
    pub first: u64,
    /// The number that the cause calls `second`; else 0.
    pub second: u64,
}

fn fault(status: u32, cause: u32, first: u64, second: u64) -> PeFault
    ensures { result ≡ fault status cause first second }
{
    PeFault {
        status,
        cause,
        first,
        second,
    }
}

fn malformed(cause: u32, first: usize, second: usize) -> PeFault
    ensures { result ≡ fault 1 cause first second }
{
    fault(Status::Malformed as u32, cause, first as u64, second as u64)
}

// The number of what a file is too short for.
fn word_number(what: &str) -> u32
    ensures { result ≡ word_number what.now }
{
    let counted = match what {
        "sections" => Counted::Sections,
        "name pointers" => Counted::NamePointers,
        "address table entries" => Counted::AddressTableEntries,
        _ => Counted::Other,
    };
    counted as u32
}

fn read_number(refused: &ReadFault) -> u32
    ensures { fault_of (Read refused.now) ≡ fault 4 result 0 0 }
{
    let refusal = match refused {
        ReadFault::BadOffset => ReadRefusal::BadOffset,
        ReadFault::TooBig => ReadRefusal::TooBig,
        ReadFault::BadInput => ReadRefusal::BadInput,
    };
    refusal as u32
}

/// That nothing is refused.
pub fn no_fault() -> PeFault
    ensures { result ≡ no_fault }
{
    fault(Status::Ok as u32, 0, 0, 0)
}

/// Why a call with these options is refused before it begins; no fault if they are known.
pub fn refused_call(options: &PeOptions) -> PeFault
    ensures { result ≡ options_fault options.now }
{
    if are_known(options) {
        no_fault()
    } else {
        fault(Status::Options as u32, 0, u64::from(options.mapping), 0)
    }
}

/// Why a call for images alone is refused, by the kind of its record.
pub fn refused_kind(kind: u32) -> PeFault
    ensures { result ≡ kind_fault kind }
{
    if kind == Kind::Image as u32 {
        no_fault()
    } else {
        fault(Status::Kind as u32, 0, u64::from(kind), 0)
    }
}

/// Both, for a call that looks at both.
pub fn refused_image(kind: u32, options: &PeOptions) -> PeFault
    ensures { result ≡ image_fault kind options.now }
{
    if kind == Kind::Image as u32 {
        refused_call(options)
    } else {
        refused_kind(kind)
    }
}

/// That no steps are left.
pub fn out_of_steps() -> PeFault
    ensures { result ≡ fault 7 0 0 0 }
{
    fault(Status::Steps as u32, 0, 0, 0)
}

fn cause_for_c(cause: &Cause) -> PeFault
    ensures value { result ≡ fault_of (Malformed cause.now) }
    ensures text { IsNumbered (Malformed cause.now)
        → refusal_text result ≡ Some (error_text (Malformed cause.now)) }
{
    match cause {
        Cause::Message(_) => malformed(Number::Message as u32, 0, 0),
        Cause::NoDosSignature => malformed(Number::NoDosSignature as u32, 0, 0),
        Cause::DosMagic(magic) => malformed(Number::DosMagic as u32, usize::from(*magic), 0),
        Cause::NoPePointer => malformed(Number::NoPePointer as u32, 0, 0),
        Cause::NoPeSignature(offset) => malformed(Number::NoPeSignature as u32, *offset, 0),
        Cause::PeMagic(magic) => malformed(Number::PeMagic as u32, *magic as usize, 0),
        Cause::StubBeforeStart(at) => malformed(Number::StubBeforeStart as u32, *at as usize, 0),
        Cause::StubPastEnd(length, end) => malformed(Number::StubPastEnd as u32, *length, *end),
        Cause::NoDans => malformed(Number::NoDans as u32, 0, 0),
        Cause::RichBounds(begin, end) => malformed(Number::RichBounds as u32, *begin, *end),
        Cause::StrippedSize(size) => malformed(Number::StrippedSize as u32, *size as usize, 0),
        Cause::CoffLength => malformed(Number::CoffLength as u32, 0, 0),
        Cause::DirectoryIndex(index) => malformed(Number::DirectoryIndex as u32, *index, 0),
        Cause::DirectoryCount(count) => malformed(Number::DirectoryCount as u32, *count, 0),
        Cause::NameText => malformed(Number::NameText as u32, 0, 0),
        Cause::NameBase64 => malformed(Number::NameBase64 as u32, 0, 0),
        Cause::NameDecimal => malformed(Number::NameDecimal as u32, 0, 0),
        Cause::NameOffset(offset) => malformed(Number::NameOffset as u32, *offset, 0),
        Cause::SymbolName(offset) => malformed(Number::SymbolName as u32, *offset as usize, 0),
        Cause::StringTable(at, length) => malformed(Number::StringTable as u32, *at, *length),
        Cause::FieldTooWide => malformed(Number::FieldTooWide as u32, 0, 0),
        Cause::Unmapped(rva) => malformed(Number::Unmapped as u32, *rva, 0),
        Cause::NameRead(offset) => malformed(Number::NameRead as u32, *offset, 0),
        Cause::HintEntry(offset) => malformed(Number::HintEntry as u32, *offset, 0),
        Cause::LookupEnd(offset) => malformed(Number::LookupEnd as u32, *offset, 0),
        Cause::ImportRecordEnd(offset) => malformed(Number::ImportRecordEnd as u32, *offset, 0),
        Cause::ExportTable(offset) => malformed(Number::ExportTable as u32, *offset, 0),
        Cause::Forwarder => malformed(Number::Forwarder as u32, 0, 0),
        Cause::ForwarderOrdinal => malformed(Number::ForwarderOrdinal as u32, 0, 0),
        Cause::RelocRange(at, size) => malformed(Number::RelocRange as u32, *at, *size as usize),
        Cause::BlockSize(size) => malformed(Number::BlockSize as u32, *size as usize, 0),
        Cause::BlockRange(begin, size) => malformed(Number::BlockRange as u32, *begin, *size),
        Cause::Overflow => malformed(Number::Overflow as u32, 0, 0),
        Cause::SlotCount(entries, slots) => malformed(Number::SlotCount as u32, *entries, *slots),
    }
}

/// The numbers of a refusal.
pub fn fault_of(error: &Error) -> PeFault
    ensures value { result ≡ fault_of error.now }
    ensures text { IsNumbered error.now → refusal_text result ≡ Some (error_text error.now) }
{
    match error {
        Error::Malformed(cause) => cause_for_c(cause),
        Error::BadMagic(magic) => fault(Status::BadMagic as u32, 0, *magic, 0),
        Error::BufferTooShort(count, what) => {
            let status = Status::BufferTooShort as u32;
            fault(status, word_number(what), *count as u64, 0)
        }
        Error::Read(refused) => fault(Status::Read as u32, read_number(refused), 0, 0),
        Error::Memory(_) => fault(REFUSED_MEMORY, 0, 0, 0),
    }
}

/// The numbers of what a call answers: those of its refusal, or that nothing is refused.
pub fn status_of(answer: Result<()>) -> PeFault
    ensures { result ≡ status_of answer.entry }
{
    match answer {
        Ok(()) => no_fault(),
        Err(error) => fault_of(&error),
    }
}

// The causes from the second on, in the order of their numbers, with these numbers of their own.
// The first is a message of the caller's, which no numbers say.
fn causes(first: u64, second: u64) -> [Cause; 33]
    ensures { result ≡ causes first second }
{
    let number = first as usize;
    let other = second as usize;
    let short = (first % 0x1_0000) as u16;
    let half = (first % 0x1_0000_0000) as u32;
    let other_half = (second % 0x1_0000_0000) as u32;
    [
        Cause::NoDosSignature,
        Cause::DosMagic(short),
        Cause::NoPePointer,
        Cause::NoPeSignature(number),
        Cause::PeMagic(half),
        Cause::StubBeforeStart(half),
        Cause::StubPastEnd(number, other),
        Cause::NoDans,
        Cause::RichBounds(number, other),
        Cause::StrippedSize(half),
        Cause::CoffLength,
        Cause::DirectoryIndex(number),
        Cause::DirectoryCount(number),
        Cause::NameText,
        Cause::NameBase64,
        Cause::NameDecimal,
        Cause::NameOffset(number),
        Cause::SymbolName(half),
        Cause::StringTable(number, other),
        Cause::FieldTooWide,
        Cause::Unmapped(number),
        Cause::NameRead(number),
        Cause::HintEntry(number),
        Cause::LookupEnd(number),
        Cause::ImportRecordEnd(number),
        Cause::ExportTable(number),
        Cause::Forwarder,
        Cause::ForwarderOrdinal,
        Cause::RelocRange(number, other_half),
        Cause::BlockSize(half),
        Cause::BlockRange(number, other),
        Cause::Overflow,
        Cause::SlotCount(number, other),
    ]
}

fn cause_of(fault: &PeFault) -> Option<Cause>
    ensures { result ≡ cause_of fault.now }
{
    let index = fault.cause.checked_sub(Number::NoDosSignature as u32)?;
    item_at(&causes(fault.first, fault.second), index)
}

// What a file is too short for, by the numbers of `Counted`.
fn word_of(number: u32) -> Option<&'static str>
    ensures { option_map (λ s. s.now) result ≡ word_of number }
{
    match number {
        0 => Some("entries"),
        1 => Some("sections"),
        2 => Some("name pointers"),
        3 => Some("address table entries"),
        _ => None,
    }
}

// Why a read was refused, by the numbers of `ReadRefusal`.
fn read_fault_of(number: u32) -> Option<ReadFault>
    ensures { result ≡ read_fault_of number }
{
    match number {
        1 => Some(ReadFault::BadOffset),
        2 => Some(ReadFault::TooBig),
        3 => Some(ReadFault::BadInput),
        _ => None,
    }
}

// The text of a fault of a call, which is not of the file.
fn call_text(status: u32) -> Option<&'static str>
    ensures { option_map (λ s. s.now) result ≡ call_text status }
{
    match status {
        6 => Some("the options have an unknown mapping, or reserved bytes that are not zero"),
        7 => Some("no steps are left"),
        8 => Some("the record is not of an image, but of an object or a TE file"),
        _ => None,
    }
}

// The refusal with these numbers: those of `Status`, and by it of a cause.
fn error_of(fault: &PeFault) -> Option<Error>
    ensures { option_map error_text result ≡ file_text fault.now }
{
    Some(match fault.status {
        1 => Error::Malformed(cause_of(fault)?),
        2 => Error::BadMagic(fault.first),
        3 => Error::BufferTooShort(fault.first as usize, word_of(fault.cause)?),
        4 => Error::Read(read_fault_of(fault.cause)?),
        5 => Error::Memory(AllocError),
        _ => return None,
    })
}

/// The text of the refusal with these numbers, whole, or cut and ended by three dots, in 160 bytes
/// at most; none where they are of no refusal.
pub fn text_of(fault: &PeFault) -> InlineText<160>
    ensures text { IsTextOf fault.now (inline_text result) }
    ensures short { length (inline_text result) ≤ 160 }
{
    if let Some(text) = call_text(fault.status) {
        return InlineText::of(text);
    }
    match error_of(fault) {
        Some(error) => InlineText::of(error),
        None => InlineText::new(),
    }
}

/// Puts a text where there is room for it, and answers how long it is.
pub fn put_text(text: &mut [u8], whole: &[u8]) -> usize
    ensures filled { Filled (λ b. b) whole.now text.old text.new }
    ensures length { result ≡ length whole.now }
{
    let count = whole.len().min(text.len());
    text[..count].copy_from_slice(&whole[..count]);
    whole.len()
}
