//! Laws about two reads of imports, and the positions of a file on which these depend.
//! `goblin_pe::laws` explains them.

mod footprint;
mod imports;

pub use footprint::footprint_imports;
pub use imports::{twin_imports, twin_lookup};
