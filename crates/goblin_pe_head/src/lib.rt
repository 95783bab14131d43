//! The headers of a PE file, and its section table.
#![tactic(auto)]

pub mod added;
pub mod characteristic;
pub mod dll_characteristic;
pub mod header;
pub mod optional_header;
pub mod subsystem;

pub use header::{
    CoffHeader, DosHeader, DosStub, Header, RichHeader, RichMetadata, RichMetadataIterator,
    TeHeader,
};
pub use optional_header::OptionalHeader;
