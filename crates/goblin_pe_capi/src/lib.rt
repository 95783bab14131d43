//! PE files for callers that are not written in Rattle: a static library with a flat interface.
//!
//! A call borrows the caller's bytes. Each text in a record is a slice of those bytes, as tests
//! check, so no text is copied. Calls fill the caller's records, or write to its bytes, and hand over
//! no memory. Headers and tables have the libraries' own records where these are plain. The crates
//! `goblin_pe_c_headers` and `goblin_pe_c_tables` have the other records, and what each call does;
//! a call of this crate tells its refusal as numbers.
#![tactic(auto)]

mod checksum;
mod exports;
mod fault;
mod imports;
mod interface;
mod look_up;
mod read;
mod relocations;
mod rows;
mod symbol;
mod writers;
