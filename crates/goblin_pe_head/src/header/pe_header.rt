//! The whole header of a PE file.

ghost use Rattle.std.specs.Prelude.{◌≡◌, ◌+◌, ◌≤◌, IfOk, IfSome, IsSomeAnd, None, OnErr};
ghost use Rattle.std.specs.Prelude.{OnOk, Some, length, option_and_then, option_map, true};
ghost use Rattle.goblin_base.specs.{declared.endian.Endian.Endian, Reading.Reads, Record.ReadsBack};
ghost use Rattle.goblin_base.specs.Answers.{Answers, Writes, IsSliceFault, FirstFault};
ghost use Rattle.goblin_base.specs.Bytes.{overwritten, replaced};
ghost use Rattle.goblin_pe_sect.specs.Options.{is_strict};
ghost use Rattle.goblin_pe_head.specs.{DosStub.stub_bytes, OptionalHeader.written_bytes};
ghost use Rattle.goblin_pe_head.specs.CoffHeader.{coff_fields, coff_header};
ghost use Rattle.goblin_pe_head.specs.DosHeader.{dos_fields, dos_record};
ghost use Rattle.goblin_pe_head.specs.HeaderLaws.{FieldsReadBack, HeaderReadsBack};
ghost use Rattle.goblin_pe_head.specs.HeaderLaws.{HeaderWritesBack, IsConsistent};
ghost use Rattle.goblin_pe_head.specs.HeaderReadings as reading;
ghost use Rattle.goblin_pe_head.specs.PeHeader.{IsUnwrittenPart, default_header, header_bytes};
ghost use Rattle.goblin_pe_head.specs.PeHeader.{header_parts, header_value, written_part};
ghost use Rattle.goblin_pe_head.specs.RichHeader.{PaddingFits, rich_value};

use crate::header::{
    CoffHeader, DosHeader, DosStub, RichHeader, SIZEOF_COFF_HEADER, SIZEOF_DOS_HEADER,
    SIZEOF_PE_MAGIC,
};
use crate::optional_header::{FixedFields, OptionalHeader, WrittenHeader, tested_fields};
use goblin_base::{
    Cause, Endian, Error, Field, Permissive, Result, encode, encode_fields, pread_slice, pread_u32,
    put_bytes,
};
use goblin_pe_sect::ParseOptions;

// The size of the parts of a header whose size is fixed, in bytes.
const SIZEOF_HEADERS: usize = SIZEOF_DOS_HEADER + SIZEOF_PE_MAGIC + SIZEOF_COFF_HEADER;

/// The header of a PE file: everything before its section table.
///
/// Source: PE Format, "File Headers". Its parts are in the file in the order of the fields, except
/// for the Rich header, which lies in the stub.
#[derive(Debug, PartialEq, Copy, Clone)]
pub struct Header<'a> {
    /// The DOS header, at file offset 0.
    pub dos_header: DosHeader,
    /// The DOS stub, from file offset 0x40 to the PE signature, or the default stub in its place.
    pub dos_stub: DosStub<'a>,
    /// The Rich header in the stub, or `None` if the stub has no marker `Rich` with a key after it.
    pub rich_header: Option<RichHeader<'a>>,
    /// The PE signature, to which the DOS header points. [`DosHeader::parse`] tests it;
    /// [`Header::parse_without_dos`] accepts any four bytes.
    pub signature: u32,
    /// The COFF header, 4 bytes after the signature's start.
    pub coff_header: CoffHeader,
    /// The optional header, 24 bytes after the signature's start, or `None` if the COFF header says
    /// that its size is 0.
    pub optional_header: Option<OptionalHeader>,
}

impl Default for Header<'_> {
    ghost is_default = { λ header. header_value header ≡ default_header };

    /// Zeros, the default stub, and neither a Rich header nor an optional header.
    #[tactic(auto, unfolding(crate::specs::PeHeader::default_header))]
    fn default() -> Self {
        Header {
            dos_header: DosHeader::default(),
            dos_stub: DosStub::default(),
            rich_header: None,
            signature: 0,
            coff_header: CoffHeader::default(),
            optional_header: None,
        }
    }
}

// The stub before the PE signature. If it is refused, permissive mode gives the default stub.
#[inline(always)]
#[tactic(auto, unfolding(crate::specs::HeaderReadings::stub_in))]
fn stub_in<'a>(bytes: &'a [u8], pe_pointer: u32, opts: &ParseOptions) -> Result<DosStub<'a>>
    ensures { Reads stub_bytes result (reading.stub_in (is_strict opts.now.parse_mode) pe_pointer)
        bytes.now }
{
    let is_permissive = opts.parse_mode.is_permissive();
    DosStub::parse(bytes, pe_pointer).or_permissive_and_default(is_permissive, "DOS stub")
}

// Stores an optional header with these fields in `place`, and reads its data directories there.
#[inline(always)]
fn put_optional(place: &mut Option<OptionalHeader>, bytes: &[u8], fields: &FixedFields)
    requires { reading.AreThere bytes.now fields.now }
    ensures { option_map (λ entries. Some (reading.with_entries fields.now entries))
        ((reading.entries_after fields.now).value bytes.now) ≡ Some place.new }
{
    *place = Some(OptionalHeader::of_fields(*fields));
    if let Some(header) = place {
        header.read_directories(bytes, fields);
    }
}

// Reads the optional header at `offset` into `place`. If `size` is 0, there is none.
#[inline(always)]
#[tactic(auto, unfolding(crate::specs::HeaderReadings::optional_at))]
fn read_optional(
    place: &mut Option<OptionalHeader>,
    bytes: &[u8],
    offset: usize,
    size: u16,
) -> Result<()>
    requires { offset ≤ length bytes.now }
    ensures value { Reads (λ _. place.new) result (reading.optional_at size offset) bytes.now }
    ensures kept { OnErr result (place.new ≡ place.old) }
{
    if size == 0 {
        *place = None;
        return Ok(());
    }
    let rest = &bytes[offset..];
    let fields = tested_fields(rest)?;
    put_optional(place, rest, &fields);
    Ok(())
}

impl<'a> Header<'a> {
    /// Reads the header of a file, as [`Header::parse_with_opts`] with the default options. The
    /// parts of the result agree with each other.
    ///
    /// # Errors
    /// As [`Header::parse_with_opts`] in strict mode.
    #[tactic(auto, using(crate::proofs::ConsistentHeaders::read_consistent))]
    pub fn parse(bytes: &'a [u8]) -> Result<Self>
        ensures value { Reads header_value result (reading.pe_header true) bytes.now }
        ensures padding { IfOk result (λ header. IfSome header.rich_header PaddingFits) }
        ensures rich { IfOk result (λ header.
            reading.rich_header.value bytes.now ≡ Some (option_map rich_value header.rich_header)) }
        ensures consistent { IfOk result (λ header. IsConsistent (header_value header)) }
    {
        Header::parse_with_opts(bytes, &ParseOptions::default())
    }

    /// Reads the header of a file. If the DOS stub is refused, permissive mode puts the default
    /// stub in its place. It replaces no other part.
    ///
    /// # Errors
    /// As [`DosHeader::parse`]; in strict mode as [`DosStub::parse`]; as [`RichHeader::parse`];
    /// [`Error::Read`] if the COFF header runs past the end of the file; as the reader of
    /// [`OptionalHeader`].
    #[inline(always)]
    pub fn parse_with_opts(bytes: &'a [u8], opts: &ParseOptions) -> Result<Self>
        ensures value { Reads header_value result
            (reading.pe_header (is_strict opts.now.parse_mode)) bytes.now }
        ensures padding { IfOk result (λ header. IfSome header.rich_header PaddingFits) }
        ensures rich { IfOk result (λ header.
            reading.rich_header.value bytes.now ≡ Some (option_map rich_value header.rich_header)) }
    {
        let mut header = Header::default();
        header.read_with_opts(bytes, opts)?;
        Ok(header)
    }

    /// Reads the header of a file into this one, as [`Header::parse_with_opts`]. So the header,
    /// which is large, is not moved.
    ///
    /// # Errors
    /// As [`Header::parse_with_opts`]; this header is then unchanged.
    #[inline(always)]
    #[tactic(auto, unfolding(crate::specs::HeaderReadings::pe_header, crate::specs::HeaderReadings::header_at, crate::specs::HeaderReadings::rich_header))]
    pub fn read_with_opts(&mut self, bytes: &'a [u8], opts: &ParseOptions) -> Result<()>
        ensures value { Reads (λ _. header_value self.new) result
            (reading.pe_header (is_strict opts.now.parse_mode)) bytes.now }
        ensures padding { OnOk result (IfSome self.new.rich_header PaddingFits) }
        ensures rich { OnOk result
            (reading.rich_header.value bytes.now
            ≡ Some (option_map rich_value self.new.rich_header)) }
        ensures kept { OnErr result (self.new ≡ self.old) }
    {
        let dos_header = DosHeader::parse(bytes)?;
        let dos_stub = stub_in(bytes, dos_header.pe_pointer, opts)?;
        let rich_header = RichHeader::parse_at(bytes, dos_header.pe_pointer)?;
        let offset = dos_header.pe_pointer as usize;
        self.read_at(bytes, offset, dos_header, dos_stub, rich_header)
    }

    /// Reads a header without a DOS header. Its signature is the first four bytes of `bytes`,
    /// whatever they are. In the result the DOS header is all zeros, the stub is the default one,
    /// and there is no Rich header.
    ///
    /// # Errors
    /// [`Error::Malformed`] with [`Cause::NoPeSignature`] if there are no four bytes;
    /// [`Error::Read`] if the COFF header runs past the end; as the reader of [`OptionalHeader`].
    #[tactic(auto, unfolding(crate::specs::HeaderReadings::header_without_dos))]
    pub fn parse_without_dos(bytes: &'a [u8]) -> Result<Self>
        ensures { Reads header_value result reading.header_without_dos bytes.now }
    {
        let mut header = Header::default();
        header.read_at(bytes, 0, DosHeader::default(), DosStub::default(), None)?;
        Ok(header)
    }

    // Reads the parts from the signature at `offset` on.
    #[inline(always)]
    #[tactic(auto, unfolding(crate::specs::HeaderReadings::header_at, crate::specs::HeaderReadings::parts_at))]
    fn read_at(
        &mut self,
        bytes: &'a [u8],
        offset: usize,
        dos_header: DosHeader,
        dos_stub: DosStub<'a>,
        rich_header: Option<RichHeader<'a>>,
    ) -> Result<()>
        ensures value { let stub = stub_bytes dos_stub.entry in
            let rich = option_map rich_value rich_header.entry in
            Reads (λ _. header_value self.new) result
            (reading.header_at dos_header stub rich offset) bytes.now }
        ensures rich { OnOk result (self.new.rich_header ≡ rich_header.entry) }
        ensures kept { OnErr result (self.new ≡ self.old) }
    {
        let Ok(signature) = pread_u32(bytes, offset, Endian::Little) else {
            return Err(Error::Malformed(Cause::NoPeSignature(offset)));
        };
        let mut end = offset + SIZEOF_PE_MAGIC;
        let coff_header = CoffHeader::parse(bytes, &mut end)?;
        // This is the last part that can be refused, so the other fields are set after it.
        let size = coff_header.size_of_optional_header;
        read_optional(&mut self.optional_header, bytes, end, size)?;
        self.dos_header = dos_header;
        self.dos_stub = dos_stub;
        self.rich_header = rich_header;
        self.signature = signature;
        self.coff_header = coff_header;
        Ok(())
    }

    /// Writes the header to the front of `bytes` and returns its size in bytes. It writes the DOS
    /// header, the stub, the signature, the COFF header and, if there is one, the optional header,
    /// always with sixteen data directories. The signature is little-endian in either byte order.
    /// The Rich header is part of the stub.
    ///
    /// In little-endian order, a header that [`Header::parse`] read is written back unchanged,
    /// followed by zeros for the missing data directories, and reads back from what was written. A
    /// header whose numbers you changed reads back, too, as long as its parts agree.
    ///
    /// # Errors
    /// In this order: [`Error::BadMagic`] if the magic of the optional header is unknown;
    /// [`Error::Malformed`] with [`Cause::FieldTooWide`] if a Windows field does not fit an
    /// optional header for 32 bits; [`Error::Read`] if there is no room. `bytes` is then unchanged.
    #[tactic(auto, unfolding(crate::specs::PeHeader::header_bytes), using(crate::proofs::PeHeaderRoundTrip::header_back, crate::proofs::PeHeaderRoundTrip::header_again))]
    pub fn try_into_ctx(self, bytes: &mut [u8], endian: Endian) -> Result<usize>
        ensures size { IfOk result
            (λ n.
            IsSomeAnd (header_bytes endian (header_value self.entry))
            (λ written. n ≡ length written)) }
        ensures written { let made = header_bytes endian (header_value self.entry) in
            let IsFault = FirstFault made (IsUnwrittenPart self.entry.optional_header)
            (λ written. IsSliceFault bytes.old 0 (length written)) in
            Writes result (option_and_then (overwritten bytes.old 0) made) bytes.old bytes.new
            IsFault }
        ensures back { HeaderWritesBack }
        ensures again { HeaderReadsBack }
        ensures itself { IfOk result
            (λ _. endian ≡ Endian.Little → IsConsistent (header_value self.entry)
            → (reading.pe_header true).value bytes.new ≡ Some (header_value self.entry)) }
    {
        let optional = optional_bytes(&self.optional_header, endian)?;
        let optional = optional.as_slice();
        let size = self.written_size(optional);
        // There must be room for all of it.
        pread_slice(bytes, 0, size)?;
        self.put(bytes, optional, endian);
        Ok(size)
    }

    /// How many bytes [`Header::try_into_ctx`] writes. Unlike the size of a record, which is fixed,
    /// this size depends on the header, so the call can fail.
    ///
    /// # Errors
    /// As `try_into_ctx` if the optional header can't be written.
    #[tactic(auto, unfolding(crate::specs::PeHeader::header_bytes))]
    pub fn size_with(&self, endian: Endian) -> Result<usize>
        ensures { Answers (λ n. n) result
            (option_map (λ written. length written) (header_bytes endian (header_value self.now)))
            (IsUnwrittenPart self.now.optional_header) }
    {
        let optional = optional_bytes(&self.optional_header, endian)?;
        Ok(self.written_size(optional.as_slice()))
    }

    // The size of all parts in bytes, with `optional` as the written optional header.
    #[tactic(auto, using(crate::proofs::WrittenForm::length_header_parts))]
    fn written_size(&self, optional: &[u8]) -> usize
        requires { length optional.now ≤ 240 }
        ensures value { (endian : Endian)
            → result ≡ length (header_parts endian (header_value self.now) optional.now) }
        ensures room { result ≡ 88 + length (stub_bytes self.now.dos_stub) + length optional.now }
    {
        SIZEOF_HEADERS + self.dos_stub.bytes.len() + optional.len()
    }

    // Writes the parts one after the other, with `optional` as the written optional header. There
    // must be room for them.
    #[tactic(auto, unfolding(crate::specs::PeHeader::header_parts))]
    fn put(&self, bytes: &mut [u8], optional: &[u8], endian: Endian)
        requires { 88 + length (stub_bytes self.now.dos_stub) + length optional.now
            ≤ length bytes.old }
        ensures written { bytes.new
            ≡ replaced bytes.old 0 (header_parts endian (header_value self.now) optional.now) }
        ensures dos { ReadsBack 64 dos_record dos_fields self.now.dos_header }
        ensures coff { ReadsBack 20 coff_header coff_fields self.now.coff_header }
    {
        let stub = self.dos_stub.bytes;
        let signature: [u8; SIZEOF_PE_MAGIC] = encode_fields(
            &[Field::U32(self.signature)],
            Endian::Little,
        );
        let coff: [u8; SIZEOF_COFF_HEADER] = encode(self.coff_header, endian);
        let pe_header = SIZEOF_DOS_HEADER + stub.len();
        put_bytes(bytes, 0, &self.dos_header.to_bytes(endian));
        put_bytes(bytes, SIZEOF_DOS_HEADER, stub);
        put_bytes(bytes, pe_header, &signature);
        put_bytes(bytes, pe_header + 4, &coff);
        put_bytes(bytes, pe_header + 24, optional);
    }
}

// The written form of the optional header, if there is one.
fn optional_bytes(header: &Option<OptionalHeader>, endian: Endian) -> Result<WrittenHeader>
    ensures made { Answers written_bytes result (written_part endian header.now)
        (IsUnwrittenPart header.now) }
    ensures again { OnOk result (IfSome header.now FieldsReadBack) }
{
    match header {
        Some(header) => header.to_bytes(endian),
        None => Ok(WrittenHeader::Absent),
    }
}
