//! The records that say where a walk is. A cursor of zeros begins a walk over a whole table.

/// Where a walk over sections is: the index of the next one.
#[repr(C)]
#[derive(Copy, Clone)]
pub struct PeSectionCursor {
    /// The index in the section table.
    pub index: usize,
}

/// Where a walk over the relocations of one section of an object is; a section row holds the
/// beginning.
#[repr(C)]
#[derive(Copy, Clone)]
pub struct PeCoffRelocationCursor {
    /// The index of the next relocation.
    pub index: usize,
    /// The file offset of the first record.
    pub offset: u32,
    /// How many relocations the section header counts.
    pub count: u16,
    /// Whether the first one is no relocation: it holds their number, itself counted, because there
    /// are more than 65,534 (`IMAGE_SCN_LNK_NRELOC_OVFL`). The cursor of the section's row is then
    /// at index 1, after it.
    pub is_extended: bool,
    /// Zero.
    pub reserved: u8,
}

/// Where a walk over the entries of the Rich header is.
#[repr(C)]
#[derive(Copy, Clone)]
pub struct PeRichCursor {
    /// The index of the next entry.
    pub index: usize,
}

/// Where a walk over symbols is: the index of a record. To look up a symbol by its index, as
/// relocations name it, set the index, and room to 1. The index of an auxiliary record gives that
/// record as if it were a symbol.
#[repr(C)]
#[derive(Copy, Clone)]
pub struct PeSymbolCursor {
    /// The index of the next record.
    pub index: usize,
}

/// Where a walk over exports is: the index of a name pointer.
#[repr(C)]
#[derive(Copy, Clone)]
pub struct PeExportCursor {
    /// The index of the next name pointer.
    pub index: usize,
}

/// Where a walk over the export address table is: an index in it. To look up an ordinal, set the
/// index to `ordinal - ordinal_base`, and room to 1.
#[repr(C)]
#[derive(Copy, Clone)]
pub struct PeExportAddressCursor {
    /// The index of the next entry.
    pub index: usize,
}

/// Where a walk over blocks is: an offset in the base relocation directory.
#[repr(C)]
#[derive(Copy, Clone)]
pub struct PeRelocationBlockCursor {
    /// The offset of the next block.
    pub offset: usize,
}

/// Where a walk over the base relocations of one block is; a block row holds the beginning.
#[repr(C)]
#[derive(Copy, Clone)]
pub struct PeBaseRelocationCursor {
    /// The offset of the next entry; an entry has two bytes.
    pub offset: usize,
    /// The offset past the last entry.
    pub end: usize,
    /// The RVA of the page.
    pub page_rva: usize,
}
