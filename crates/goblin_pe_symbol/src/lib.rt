//! The symbols of objects and PE files: their records, names and tables. This crate does not depend
//! on `goblin_pe_sect`, so the two are proved side by side.
#![tactic(auto)]

pub mod symbol;
