//! What goblin does not have: walks over exports, which list nothing.

mod exports;

pub use exports::{Exports, WalkedExport};
