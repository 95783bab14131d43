//! What callers that are not written in Rattle call on an image: for each call a function that
//! fills its records, or is refused. The crate `goblin_pe_c_headers` has the records of headers,
//! sections, symbols and relocations, the calls for such parts of a file, and those for objects and
//! Terse Executables. The crate `goblin_pe_capi` has all of these as calls for C, which tell a
//! refusal as numbers.
//!
//! A call borrows the caller's bytes. Each text in a record is a slice of those bytes, as tests
//! check, so no text is copied. Calls fill the caller's records, or write to its bytes, and hand over
//! no memory. Headers and tables have the libraries' own records where these are plain.
#![tactic(auto)]

pub mod batch;
pub mod block;
pub mod export;
pub mod export_directory;
pub mod forwarder;
pub mod import;
pub mod library;
pub mod next;
pub mod partial;
pub mod places;
pub mod read;
pub mod steps;
pub mod write_header;
