//! What goblin does not have: walks over imports and libraries, which list nothing, and count what
//! they pass over.

mod ascii;
mod imports;
mod library_walk;
mod modes;
mod tested;

pub use crate::import::passed::Passed;
pub use imports::{AsciiImports, ImportCursor, Imports, WalkedImport};
pub use library_walk::{Libraries, WalkedLibrary};
pub use modes::{mode_imports, mode_libraries};
