//! The data directories of an optional header, which say where the tables of an image lie.

ghost use Rattle.std.specs.Prelude.{◌≡◌, ◌+◌, ◌-◌, ◌*◌, ◌<◌, ◌≤◌, Some, length, slice_get};
ghost use Rattle.std.specs.Prelude.{None, option_map, replicate, IfErr, IfOk, IfSome, OnOk, OnErr};
ghost use Rattle.std.specs.Iterator.{UpTo, YieldsFirst, at_most};
ghost use Rattle.std.specs.Iterator.SizeHint.{IsWithinCount};
ghost use Rattle.goblin_base.specs.{Reading.Reads, Bytes.overwritten};
ghost use Rattle.goblin_base.specs.Answers.{Answers, Writes, IsSliceFault};
ghost use Rattle.goblin_base.specs.Record.{WritesRecord, encoding};
ghost use Rattle.readings.specs.Reads.{record_at};
ghost use Rattle.goblin_pe_sect.specs.DataDirectories.{DataDirectory};
ghost use Rattle.goblin_pe_sect.specs.DataDirectories.{IsNoKind, dirs_left, directory_fields};
ghost use Rattle.goblin_pe_sect.specs.DataDirectories.{directory_in, directory_or_zeros};
ghost use Rattle.goblin_pe_sect.specs.DataDirectories.{directory_record, entries_fields};
ghost use Rattle.goblin_pe_sect.specs.DataDirectories.{entry_ending, kinds, present_from};
ghost use Rattle.goblin_pe_sect.specs.DirectoryReadings.{EntriesWriteBack, directories_at};

use goblin_base::{
    Cause, Endian, Error, Field, ReadFault, Record, Result, encode, field_u32, gread_slice,
    put_bytes, put_fields, pwrite_slice,
};

/// The size of a data directory's record, in bytes.
pub const SIZEOF_DATA_DIRECTORY: usize = 8;

const _: () = prove!(SIZEOF_DATA_DIRECTORY == 8);

/// How many entries the table of data directories has.
pub const NUM_DATA_DIRECTORIES: usize = 16;

// The kinds of data directories, each at its index.
const KINDS: [DataDirectoryType; 15] = [
    DataDirectoryType::ExportTable,
    DataDirectoryType::ImportTable,
    DataDirectoryType::ResourceTable,
    DataDirectoryType::ExceptionTable,
    DataDirectoryType::CertificateTable,
    DataDirectoryType::BaseRelocationTable,
    DataDirectoryType::DebugTable,
    DataDirectoryType::Architecture,
    DataDirectoryType::GlobalPtr,
    DataDirectoryType::TlsTable,
    DataDirectoryType::LoadConfigTable,
    DataDirectoryType::BoundImportTable,
    DataDirectoryType::ImportAddressTable,
    DataDirectoryType::DelayImportDescriptor,
    DataDirectoryType::ClrRuntimeHeader,
];

/// A data directory: where a table of an image lies.
///
/// Source: PE Format, "Optional Header Data Directories (Image Only)". Numbers are as stored. The
/// record has 8 bytes, and `at` gives the offset of a field in it.
#[repr(C)]
#[derive(Debug, PartialEq, Copy, Clone, Default)]
pub struct DataDirectory {
    /// The table's address, relative to the image's base, at 0. For the certificates it is a file
    /// offset, because they are not loaded.
    pub virtual_address: u32,
    /// The table's size in bytes, at 4. In an export directory it says which addresses are
    /// forwarders, and in a base relocation directory where the blocks end. An import directory
    /// ends at its own last record, and the type of a value at an address says where the value
    /// ends, whatever the size.
    pub size: u32,
}

impl Record for DataDirectory {
    ghost width = { 8 };

    ghost value = { directory_record };

    ghost fields = { directory_fields };

    fn size() -> usize {
        SIZEOF_DATA_DIRECTORY
    }

    fn in_record(bytes: &[u8], endian: Endian) -> DataDirectory {
        DataDirectory {
            virtual_address: field_u32(bytes, 0, endian),
            size: field_u32(bytes, 4, endian),
        }
    }

    #[tactic(auto, using(crate::proofs::DataDirectoriesRoundTrip::round_trip))]
    fn put(self, bytes: &mut [u8], endian: Endian) {
        let fields = [Field::U32(self.virtual_address), Field::U32(self.size)];
        put_fields(bytes, SIZEOF_DATA_DIRECTORY, &fields, endian);
    }
}

impl DataDirectory {
    /// Reads the record at the file offset `offset` and moves `offset` past it.
    ///
    /// # Errors
    /// [`Error::Read`] if the 8 bytes run past the end of the file; `offset` is then unchanged.
    pub fn parse(bytes: &[u8], offset: &mut usize) -> Result<DataDirectory>
        ensures value { Reads (λ d. d) result
            (record_at 8 (directory_record Endian.Little) offset.old) bytes.now }
        ensures ok { OnOk result (offset.new ≡ offset.old + 8) }
        ensures err { OnErr result (offset.new ≡ offset.old) }
    {
        let record = gread_slice(bytes, offset, SIZEOF_DATA_DIRECTORY)?;
        Ok(DataDirectory::in_record(record, Endian::Little))
    }

    /// Writes the record to the front of `bytes`, and returns its size, 8. A record that was read
    /// is written back unchanged, and any record reads back from what was written, in the same byte
    /// order.
    ///
    /// # Errors
    /// [`Error::Read`] if there is no room for 8 bytes; `bytes` is then unchanged.
    pub fn try_into_ctx(self, bytes: &mut [u8], endian: Endian) -> Result<usize>
        ensures { WritesRecord 8 directory_record directory_fields
            endian self result bytes.old bytes.new }
    {
        Record::try_into_ctx(self, bytes, endian)
    }

    /// The size of the record in bytes: 8 in either byte order.
    pub fn size_with(endian: &Endian) -> usize
        ensures { result ≡ 8 }
    {
        <DataDirectory as Record>::size_with(endian)
    }
}

/// The kind of table that a data directory locates. The kinds are in the order of their indexes, 0
/// to 14.
///
/// Source: PE Format, "Optional Header Data Directories (Image Only)". The sixteenth entry is
/// reserved and has no kind.
#[derive(Debug, PartialEq, Copy, Clone)]
pub enum DataDirectoryType {
    /// The exports (`.edata`), at index 0: what other images may import from this one.
    ExportTable,
    /// The import directory (`.idata`), at index 1: what this image imports, and from which
    /// libraries.
    ImportTable,
    /// The resources (`.rsrc`), at index 2.
    ResourceTable,
    /// The exception table (`.pdata`), at index 3: how exceptions are handled.
    ExceptionTable,
    /// The attribute certificates, at index 4. They are not part of the image in memory, so the
    /// address is a file offset.
    CertificateTable,
    /// The base relocations (`.reloc`), at index 5: what the loader changes if it can't load the
    /// image at its preferred address.
    BaseRelocationTable,
    /// The debug data (`.debug`), at index 6.
    DebugTable,
    /// Reserved, at index 7.
    Architecture,
    /// The address of the value for the global pointer register, at index 8. The size must be 0.
    GlobalPtr,
    /// The thread local storage (`.tls`), at index 9. Its callbacks run before the entry point.
    TlsTable,
    /// The load configuration, at index 10.
    LoadConfigTable,
    /// The bound imports, at index 11.
    BoundImportTable,
    /// The import address table, at index 12, which the loader fills. Readers find it through the
    /// import directory.
    ImportAddressTable,
    /// The delayed imports, at index 13: libraries that are loaded at the first call.
    DelayImportDescriptor,
    /// The header of the common language runtime, at index 14: an image with it has managed code.
    ClrRuntimeHeader,
}

const _: () = prove!(
    DataDirectoryType::ExportTable as u8 == 0
        && DataDirectoryType::ImportTable as u8 == 1
        && DataDirectoryType::ResourceTable as u8 == 2
        && DataDirectoryType::ExceptionTable as u8 == 3
        && DataDirectoryType::CertificateTable as u8 == 4
        && DataDirectoryType::BaseRelocationTable as u8 == 5
        && DataDirectoryType::DebugTable as u8 == 6
        && DataDirectoryType::Architecture as u8 == 7
        && DataDirectoryType::GlobalPtr as u8 == 8
        && DataDirectoryType::TlsTable as u8 == 9
        && DataDirectoryType::LoadConfigTable as u8 == 10
        && DataDirectoryType::BoundImportTable as u8 == 11
        && DataDirectoryType::ImportAddressTable as u8 == 12
        && DataDirectoryType::DelayImportDescriptor as u8 == 13
        && DataDirectoryType::ClrRuntimeHeader as u8 == 14
);

impl TryFrom<usize> for DataDirectoryType {
    type Error = Error;

    ghost try_from_gives = { λ i r. Answers (λ kind. kind) r (slice_get kinds i) (IsNoKind i) };

    /// The kind of data directory with this index.
    ///
    /// # Errors
    /// [`Error::Malformed`] with [`Cause::DirectoryIndex`] if no kind has this index.
    #[tactic(auto, unfolding(crate::specs::DataDirectories::kinds))]
    fn try_from(index: usize) -> Result<DataDirectoryType> {
        match KINDS.get(index) {
            Some(kind) => Ok(*kind),
            None => Err(Error::Malformed(Cause::DirectoryIndex(index))),
        }
    }
}

/// The data directories of an optional header: sixteen entries in the order of their indexes.
///
/// Source: PE Format, "Optional Header Data Directories (Image Only)". A file may have fewer
/// entries; the others are then `None`. An entry of zeros is `None` too.
#[derive(Debug, PartialEq, Copy, Clone, Default)]
pub struct DataDirectories {
    /// The data directories by their indexes, each as (the offset just past its record, the
    /// record). Offsets count like the one passed to [`DataDirectories::parse`]: inside an optional
    /// header, from its front. An entry is `None` if the file does not have it or it is all zeros.
    pub data_directories: [Option<(usize, DataDirectory)>; 16],
}

// Refuses entries that run past the end, with the error of a read of the first one that does.
#[tactic(auto, using(crate::proofs::DirectoryReadings::refusals))]
fn test_room(bytes: &[u8], count: usize, offset: usize) -> Result<()>
    requires { count ≤ 16 }
    ensures room { OnOk result (0 < count → offset + 8 * count ≤ length bytes.now) }
    ensures none { OnErr result ((directories_at count offset).value bytes.now ≡ None) }
    ensures cause { IfErr result ((directories_at count offset).IsCause bytes.now) }
{
    let left = bytes.len().saturating_sub(offset);
    if SIZEOF_DATA_DIRECTORY * count <= left {
        return Ok(());
    }
    if left.is_multiple_of(SIZEOF_DATA_DIRECTORY) {
        return Err(Error::Read(ReadFault::BadOffset));
    }
    Err(Error::Read(ReadFault::TooBig))
}

// Fills an entry that is `None` with `directory`, whose record ends at `end`, unless it is all
// zeros.
#[inline(always)]
fn fill_entry(entry: &mut Option<(usize, DataDirectory)>, end: usize, directory: DataDirectory)
    requires { entry.old ≡ None }
    ensures { entry.new ≡ entry_ending end directory }
{
    // Both fields are tested as one number.
    let both = u64::from(directory.virtual_address) + (u64::from(directory.size) << 32);
    if both != 0 {
        *entry = Some((end, directory));
    }
}

// Fills entries that are all `None` with the `count` directories that follow one another from
// `offset` on.
#[inline(always)]
#[tactic(auto, using(crate::proofs::DirectoryReadings::absences))]
fn fill(
    entries: &mut [Option<(usize, DataDirectory)>; 16],
    bytes: &[u8],
    count: usize,
    offset: usize,
)
    requires few { count ≤ 16 }
    requires room { offset + 8 * count ≤ length bytes.now }
    requires empty { entries.old ≡ replicate 16 None }
    ensures { (directories_at count offset).value bytes.now ≡ Some entries.new }
{
    let table = &bytes[offset..];
    'entries: for i in 0..count {
        let at = SIZEOF_DATA_DIRECTORY * i;
        let record = &table[at..at + SIZEOF_DATA_DIRECTORY];
        let directory = DataDirectory::in_record(record, Endian::Little);
        fill_entry(
            &mut entries[i],
            offset + at + SIZEOF_DATA_DIRECTORY,
            directory,
        );
    }
}

// The directory of an entry, or zeros if the entry is `None`.
fn directory(entry: Option<(usize, DataDirectory)>) -> DataDirectory
    ensures { result ≡ directory_or_zeros entry }
{
    match entry {
        Some((_, directory)) => directory,
        None => DataDirectory::default(),
    }
}

impl DataDirectories {
    /// Reads `count` entries, which follow one another from `offset` on, and moves `offset` past
    /// them. If `count` is 0, any offset will do.
    ///
    /// # Errors
    /// [`Error::Malformed`] with [`Cause::DirectoryCount`] if `count` is above sixteen;
    /// [`Error::Read`] if the entries run past the end. `offset` is then unchanged.
    #[inline(always)]
    pub fn parse(bytes: &[u8], count: usize, offset: &mut usize) -> Result<DataDirectories>
        ensures value { Reads (λ d. d.data_directories) result
            (directories_at count offset.old) bytes.now }
        ensures ok { OnOk result (offset.new ≡ offset.old + 8 * count) }
        ensures err { OnErr result (offset.new ≡ offset.old) }
    {
        DataDirectories::test(bytes, count, *offset)?;
        let mut directories = DataDirectories::default();
        directories.read(bytes, count, *offset);
        *offset += SIZEOF_DATA_DIRECTORY * count;
        Ok(directories)
    }

    /// Tests whether `count` entries, which follow one another from `offset` on, can be read.
    ///
    /// # Errors
    /// As [`DataDirectories::parse`].
    #[inline(always)]
    #[tactic(auto, using(crate::proofs::DirectoryReadings::refusals))]
    pub fn test(bytes: &[u8], count: usize, offset: usize) -> Result<()>
        ensures few { OnOk result (count ≤ 16) }
        ensures room { OnOk result (0 < count → offset + 8 * count ≤ length bytes.now) }
        ensures none { OnErr result ((directories_at count offset).value bytes.now ≡ None) }
        ensures cause { IfErr result ((directories_at count offset).IsCause bytes.now) }
    {
        if count > NUM_DATA_DIRECTORIES {
            return Err(Error::Malformed(Cause::DirectoryCount(count)));
        }
        test_room(bytes, count, offset)
    }

    /// Replaces these entries with the `count` entries that follow one another from `offset` on. So
    /// the entries, which are large, need not be moved. There must be at most sixteen, all inside
    /// `bytes`; [`DataDirectories::test`] tests that.
    // (This is not inlined, because a caller has no registers left for its pointers.)
    #[inline(never)]
    #[tactic(auto, using(crate::proofs::DirectoryReadings::absences))]
    pub fn read(&mut self, bytes: &[u8], count: usize, offset: usize)
        requires few { count ≤ 16 }
        requires room { 0 < count → offset + 8 * count ≤ length bytes.now }
        ensures { (directories_at count offset).value bytes.now ≡ Some self.new.data_directories }
    {
        self.data_directories = [None; NUM_DATA_DIRECTORIES];
        match count {
            // If there are no entries, `offset` may lie past the end.
            0 => {}
            // Most files have sixteen entries. A loop over a constant count is unrolled, which
            // takes fewer steps.
            NUM_DATA_DIRECTORIES => {
                fill(
                    &mut self.data_directories,
                    bytes,
                    NUM_DATA_DIRECTORIES,
                    offset,
                )
            }
            _ => fill(&mut self.data_directories, bytes, count, offset),
        }
    }

    /// The 128 bytes of all sixteen entries. An entry that is `None` is written as zeros. In
    /// little-endian order, entries that were read are written back unchanged.
    #[tactic(auto, using(crate::proofs::DataDirectoriesRoundTrip::entries_back))]
    pub fn to_bytes(self, endian: Endian) -> [u8; 128]
        ensures bytes { result ≡ encoding endian (entries_fields self.data_directories) }
        ensures back { EntriesWriteBack }
    {
        let mut table = [0; 128];
        'entries: for i in 0..NUM_DATA_DIRECTORIES {
            let record: [u8; SIZEOF_DATA_DIRECTORY] = encode(
                directory(self.data_directories[i]),
                endian,
            );
            put_bytes(&mut table, SIZEOF_DATA_DIRECTORY * i, &record);
        }
        table
    }

    /// Writes all sixteen entries to the front of `bytes`, and returns their size, 128. An entry
    /// that is `None` is written as zeros.
    ///
    /// # Errors
    /// [`Error::Read`] if there is no room for 128 bytes; `bytes` is then unchanged.
    pub fn try_into_ctx(self, bytes: &mut [u8], endian: Endian) -> Result<usize>
        ensures size { IfOk result (λ n. n ≡ 128) }
        ensures written { Writes result
            (overwritten bytes.old 0 (encoding endian (entries_fields self.data_directories)))
            bytes.old bytes.new (IsSliceFault bytes.old 0 128) }
    {
        let table = self.to_bytes(endian);
        pwrite_slice(bytes, 0, &table)?;
        Ok(table.len())
    }

    // The data directory at an index, or `None` if the entry is `None`.
    fn get(&self, index: usize) -> Option<&DataDirectory>
        requires { index < 16 }
        ensures { option_map (λ d. d.now) result ≡ directory_in self.now.data_directories index }
    {
        match &self.data_directories[index] {
            Some((_, directory)) => Some(directory),
            None => None,
        }
    }

    /// Where the exports lie (index 0). This getter and the others return `None` if the file does
    /// not have the entry or it is all zeros.
    pub fn get_export_table(&self) -> Option<&DataDirectory>
        ensures { option_map (λ d. d.now) result ≡ directory_in self.now.data_directories 0 }
    {
        self.get(0)
    }

    /// Where the import directory lies (index 1).
    pub fn get_import_table(&self) -> Option<&DataDirectory>
        ensures { option_map (λ d. d.now) result ≡ directory_in self.now.data_directories 1 }
    {
        self.get(1)
    }

    /// Where the resources lie (index 2).
    pub fn get_resource_table(&self) -> Option<&DataDirectory>
        ensures { option_map (λ d. d.now) result ≡ directory_in self.now.data_directories 2 }
    {
        self.get(2)
    }

    /// Where the exception table lies (index 3).
    pub fn get_exception_table(&self) -> Option<&DataDirectory>
        ensures { option_map (λ d. d.now) result ≡ directory_in self.now.data_directories 3 }
    {
        self.get(3)
    }

    /// Where the attribute certificates lie (index 4); the address is a file offset.
    pub fn get_certificate_table(&self) -> Option<&DataDirectory>
        ensures { option_map (λ d. d.now) result ≡ directory_in self.now.data_directories 4 }
    {
        self.get(4)
    }

    /// Where the base relocations lie (index 5).
    pub fn get_base_relocation_table(&self) -> Option<&DataDirectory>
        ensures { option_map (λ d. d.now) result ≡ directory_in self.now.data_directories 5 }
    {
        self.get(5)
    }

    /// Where the debug data lies (index 6).
    pub fn get_debug_table(&self) -> Option<&DataDirectory>
        ensures { option_map (λ d. d.now) result ≡ directory_in self.now.data_directories 6 }
    {
        self.get(6)
    }

    /// The entry for architecture data (index 7), which is reserved.
    pub fn get_architecture(&self) -> Option<&DataDirectory>
        ensures { option_map (λ d. d.now) result ≡ directory_in self.now.data_directories 7 }
    {
        self.get(7)
    }

    /// The address of the value for the global pointer register (index 8).
    pub fn get_global_ptr(&self) -> Option<&DataDirectory>
        ensures { option_map (λ d. d.now) result ≡ directory_in self.now.data_directories 8 }
    {
        self.get(8)
    }

    /// Where the thread local storage lies (index 9).
    pub fn get_tls_table(&self) -> Option<&DataDirectory>
        ensures { option_map (λ d. d.now) result ≡ directory_in self.now.data_directories 9 }
    {
        self.get(9)
    }

    /// Where the load configuration lies (index 10).
    pub fn get_load_config_table(&self) -> Option<&DataDirectory>
        ensures { option_map (λ d. d.now) result ≡ directory_in self.now.data_directories 10 }
    {
        self.get(10)
    }

    /// Where the bound imports lie (index 11).
    pub fn get_bound_import_table(&self) -> Option<&DataDirectory>
        ensures { option_map (λ d. d.now) result ≡ directory_in self.now.data_directories 11 }
    {
        self.get(11)
    }

    /// Where the import address table lies (index 12).
    pub fn get_import_address_table(&self) -> Option<&DataDirectory>
        ensures { option_map (λ d. d.now) result ≡ directory_in self.now.data_directories 12 }
    {
        self.get(12)
    }

    /// Where the delayed imports lie (index 13).
    pub fn get_delay_import_descriptor(&self) -> Option<&DataDirectory>
        ensures { option_map (λ d. d.now) result ≡ directory_in self.now.data_directories 13 }
    {
        self.get(13)
    }

    /// Where the header of the common language runtime lies (index 14).
    pub fn get_clr_runtime_header(&self) -> Option<&DataDirectory>
        ensures { option_map (λ d. d.now) result ≡ directory_in self.now.data_directories 14 }
    {
        self.get(14)
    }

    /// The data directories that are there, as pairs (kind, data directory), in the order of their
    /// indexes. The sixteenth entry has no kind and is left out.
    pub fn dirs(&self) -> Dirs
        ensures { dirs_left result ≡ present_from 0 self.now.data_directories }
    {
        Dirs {
            directories: *self,
            index: 0,
        }
    }
}

/// The data directories that are there, as pairs (kind, data directory), in the order of their
/// indexes.
#[derive(Debug, Clone, Drop)]
pub struct Dirs {
    directories: DataDirectories,
    index: usize,
}

impl Iterator for Dirs {
    type Item = (DataDirectoryType, DataDirectory);

    ghost next_gives = { YieldsFirst dirs_left };

    ghost remaining = { λ it. at_most (15 - it.index) };

    fn next(&mut self) -> Option<(DataDirectoryType, DataDirectory)> {
        'entries: for index in self.index..KINDS.len() {
            self.index = index + 1;
            if let Some((_, directory)) = self.directories.data_directories[index] {
                return Some((KINDS[index], directory));
            }
        }
        None
    }

    /// The upper bound is the number of kinds that are left.
    #[tactic(auto, using(crate::proofs::Entries::walk_most))]
    fn size_hint(&self) -> (usize, Option<usize>)
        ensures lower { IsWithinCount result.0 (at_most (15 - self.now.index)) }
        ensures upper { IfSome result.1 (UpTo (at_most (15 - self.now.index))) }
        ensures most { IfSome result.1 (λ n. length (dirs_left self.now) ≤ n) }
        ensures value { result ≡ (0, Some (15 - self.now.index)) }
    {
        (0, Some(KINDS.len().saturating_sub(self.index)))
    }
}
