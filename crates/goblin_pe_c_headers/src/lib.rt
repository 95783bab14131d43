//! What callers that are not written in Rattle see of the parts of a file, except its imports and
//! exports: the records of headers, sections, symbols, relocations and refusals, and the functions
//! that fill or write them. Objects and Terse Executables are here too: they have neither imports
//! nor exports.
//!
//! Each text in a record is a slice of the caller's bytes, as tests check, so no text is copied.
//! The crate `goblin_pe_c_tables` reads images as a whole into these records and its own. It needs
//! the readers of imports and exports; this crate does not, and is proved beside them.
#![tactic(auto)]

pub mod address;
pub mod auxiliary;
pub mod batch;
pub mod cursor;
pub mod fault;
pub mod found;
pub mod given_header;
pub mod headers;
pub mod image;
pub mod kind;
pub mod memory;
pub mod name;
pub mod object;
pub mod onward;
pub mod options;
pub mod places;
pub mod relocation;
pub mod rich;
pub mod section;
pub mod symbol;
pub mod te;
pub mod word;
