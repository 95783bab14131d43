//! Reads the exports of a PE file, and their forwarders. This crate does not depend on
//! `goblin_pe_head` or `goblin_pe_import`, so it is proved beside them. `goblin_pe` re-exports
//! `export`.
#![tactic(auto)]

pub mod added;
pub mod export;
pub mod laws;
