//! How a PE file is read.

ghost use Rattle.std.specs.Prelude.{◌≡◌, Some};
ghost use Rattle.goblin_base.specs.Parts.{end_or_none};
ghost use Rattle.goblin_pe_sect.specs.Mapping.{ends_in};
ghost use Rattle.goblin_pe_sect.specs.Options.{default_options, front_of, mapping_in};
ghost use Rattle.goblin_pe_sect.specs.Options.{rule_by_alignment, te_options};

use goblin_base::MappedEnd;
pub use goblin_base::ParseMode;

/// The rule for where the raw data of a section begins when addresses are mapped.
///
/// Both rules give the same offset if the raw pointer is a multiple of 512, as the PE/COFF
/// specification requires for the usual file alignments. For other raw pointers the right rule
/// depends on `section_alignment`. If it is 4,096 or more, rounding is right. If it is less, the
/// pointer as stored is right, because the Windows loader maps such an image as one flat view of
/// the file. For a lawful image, [`RawPointerRule::by_file_alignment`] gives the right rule.
#[derive(Debug, PartialEq, Copy, Clone)]
pub enum RawPointerRule {
    /// The raw data begins at the raw pointer, as in goblin.
    AsStored,
    /// The raw data begins at the raw pointer rounded down to a multiple of 512.
    RoundedTo512,
}

impl RawPointerRule {
    /// The rule that is right for an image with this file alignment: rounded if the alignment is
    /// 512 or more, else as stored. It is the right rule for every lawful image, because there the
    /// file alignment is below 512 only if it equals a `section_alignment` below 4,096. The rule
    /// says where raw data begins, and not how long a window is: that is up to the [`View`].
    pub fn by_file_alignment(file_alignment: u32) -> RawPointerRule
        ensures { result ≡ rule_by_alignment file_alignment }
    {
        if file_alignment < 512 {
            RawPointerRule::AsStored
        } else {
            RawPointerRule::RoundedTo512
        }
    }
}

/// What maps the addresses of an image, and how long the window of a section is.
#[derive(Debug, PartialEq, Copy, Clone)]
pub enum View {
    /// The sections, as in goblin. The size of a window is measured from the raw pointer rounded
    /// down to a multiple of 512. So if the raw data begins at the pointer as stored, the window
    /// may reach past the data, and past the next section's address.
    Sections,
    /// The sections, with a loader's windows. If the file alignment is below 512, a window has no
    /// more bytes than the raw data, rounded up to the file alignment. Otherwise it is as long as
    /// in goblin; [`window_by`](crate::utils::window_by) has both sizes. No view says where raw
    /// data begins: [`RawPointerRule`] does.
    LoadedSections,
    /// As [`View::LoadedSections`] and, for an address that no section's window holds, the front of
    /// the file, since the Windows loader maps the headers at the image's base. The window of the
    /// front has `size_of_headers` bytes, rounded up to the file alignment, but to no more than
    /// whole pages of 4,096 bytes. An address 0 in a table still means that there is nothing.
    Loader,
}

/// How addresses are mapped to file offsets by sections.
#[derive(Debug, PartialEq, Copy, Clone)]
pub struct Mapping {
    /// Whether addresses are mapped. If it is false, an address is a file offset itself.
    pub resolve_rva: bool,
    /// Where the raw data of a section begins.
    pub raw_pointer_rule: RawPointerRule,
    /// How long the window of a section is.
    pub view: View,
}

impl View {
    /// The size of the headers, if the file's front is mapped, or `None` if it is not.
    /// [`front_section`](crate::address_map::front_section) says how many bytes of the front are
    /// mapped for this size.
    #[inline(always)]
    pub fn front(self, size_of_headers: u32) -> Option<u32>
        ensures { result ≡ front_of self size_of_headers }
    {
        match self {
            View::Sections | View::LoadedSections => None,
            View::Loader => Some(size_of_headers),
        }
    }

    /// Where a read of bytes that a window maps ends: at `end` in a loader's view, and at the end
    /// of the file in goblin's.
    #[inline(always)]
    pub(crate) fn ends(self, end: MappedEnd) -> MappedEnd
        ensures { result ≡ end_or_none (ends_in self (Some end)) }
    {
        match self {
            View::Sections => MappedEnd::NONE,
            View::LoadedSections | View::Loader => end,
        }
    }

    /// How addresses are mapped in this view, with these options.
    #[inline(always)]
    pub fn mapping(self, opts: &ParseOptions) -> Mapping
        ensures { result ≡ mapping_in self opts.now }
    {
        Mapping {
            resolve_rva: opts.resolve_rva,
            raw_pointer_rule: opts.raw_pointer_rule,
            view: self,
        }
    }
}

/// What a reader reads, and how.
#[derive(Debug, Copy, Clone)]
pub struct ParseOptions {
    /// Whether addresses are mapped to file offsets by the sections; true by default. If it is
    /// false, an address is a file offset itself, as in a memory image or a Terse Executable.
    pub resolve_rva: bool,
    /// Whether attribute certificates are read; true by default. The option changes no answer,
    /// because no reader of these crates reads them.
    pub parse_attribute_certificates: bool,
    /// Whether thread local storage is read; true by default. The option changes no answer, because
    /// no reader of these crates reads it.
    pub parse_tls_data: bool,
    /// Whether resources are read; true by default. The option changes no answer, because no reader
    /// of these crates reads them.
    pub parse_resources: bool,
    /// What to do with damaged parts; strict by default. Strict mode refuses the whole because of
    /// the first damaged part. Permissive mode passes over damaged parts.
    ///
    /// In permissive mode, an import directory at file offset 0 is an empty list, whatever it
    /// holds. Walks over imports count what permissive mode leaves out.
    ///
    /// Some damage is refused in both modes, for example:
    ///
    /// - a header or a section table that the end of the file cuts;
    /// - an optional header whose magic is unknown;
    /// - more than sixteen data directories;
    /// - a section name such as `/abc`, which is a slash and a text that is no number;
    /// - the marker `Rich` without the marker `DanS` before it, or with no data or no whole 4-byte
    ///   words between the two.
    pub parse_mode: ParseMode,
    /// Whether the reader of a whole file reads the imports; true by default.
    pub parse_imports: bool,
    /// Where a section's raw data begins when addresses are mapped. By default it begins at the raw
    /// pointer as stored, as in goblin. [`RawPointerRule`] says for which images each rule is
    /// right. Every reader that maps addresses uses this rule.
    /// [`SectionTable::data`](crate::SectionTable::data) maps none.
    pub raw_pointer_rule: RawPointerRule,
}

impl Default for ParseOptions {
    ghost is_default = { λ options. options ≡ default_options };

    /// Everything is read in strict mode. Addresses are mapped by the sections, from their raw
    /// pointers as stored.
    fn default() -> ParseOptions {
        ParseOptions {
            resolve_rva: true,
            parse_attribute_certificates: true,
            parse_tls_data: true,
            parse_resources: true,
            parse_mode: ParseMode::Strict,
            parse_imports: true,
            raw_pointer_rule: RawPointerRule::AsStored,
        }
    }
}

impl ParseOptions {
    /// The options for a Terse Executable. Its addresses are file offsets already, and it has no
    /// certificates.
    pub fn te() -> ParseOptions
        ensures { result ≡ te_options }
    {
        ParseOptions {
            resolve_rva: false,
            parse_attribute_certificates: false,
            ..ParseOptions::default()
        }
    }

    /// The same options with this parse mode.
    pub fn with_parse_mode(mut self, parse_mode: ParseMode) -> ParseOptions
        ensures { result ≡ record self { parse_mode = parse_mode } }
    {
        self.parse_mode = parse_mode;
        self
    }

    /// The same options, with thread local storage read or not.
    pub fn with_parse_tls_data(mut self, parse_tls_data: bool) -> ParseOptions
        ensures { result ≡ record self { parse_tls_data = parse_tls_data } }
    {
        self.parse_tls_data = parse_tls_data;
        self
    }

    /// The same options, with resources read or not.
    pub fn with_parse_resources(mut self, parse_resources: bool) -> ParseOptions
        ensures { result ≡ record self { parse_resources = parse_resources } }
    {
        self.parse_resources = parse_resources;
        self
    }

    /// The same options, with the imports of a whole file read or not.
    pub fn with_parse_imports(mut self, parse_imports: bool) -> ParseOptions
        ensures { result ≡ record self { parse_imports = parse_imports } }
    {
        self.parse_imports = parse_imports;
        self
    }

    /// The same options with this rule for raw pointers.
    pub fn with_raw_pointer_rule(mut self, raw_pointer_rule: RawPointerRule) -> ParseOptions
        ensures { result ≡ record self { raw_pointer_rule = raw_pointer_rule } }
    {
        self.raw_pointer_rule = raw_pointer_rule;
        self
    }
}
