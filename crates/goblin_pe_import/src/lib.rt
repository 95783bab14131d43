//! Reads the imports of a PE file. It does not depend on `goblin_pe_head`, and is proved beside
//! `goblin_pe_export`. `goblin_pe` re-exports `import`.
#![tactic(auto)]

pub mod added;
pub mod import;
pub mod laws;
