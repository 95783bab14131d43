//! Examples of programs over `goblin_pe` alone, whose code and clauses name no crate below it.
//! docs/CALLERS.md shows their code.
#![tactic(auto)]

pub mod entry;
pub mod forwarders;
pub mod imports;
pub mod report;
pub mod stamp;
pub mod tables;
pub mod write_execute;
