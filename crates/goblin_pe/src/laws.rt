//! Laws over two reads, and the positions of a file on which a read depends.
//!
//! The footprint of a read is the set of positions of the file that it depends on, whether or not
//! the read has a value. The definition of each reader includes it, as a list of ranges: each
//! record whose offset the layout gives, each slot of a table up to and including the one that ends
//! it, and each text through its NUL, or to the end of what is mapped or of the file. Positions
//! outside the file add nothing.
//!
//! Two files agree on a footprint if they have the same length and the same byte at every position
//! in it. Each call here with two files, `a` and `b`, returns what the reader returns for each of
//! them. A refusal of one is returned in its place, and the other still runs. It is proved that the
//! two are equal values or both refusals if the files agree on the footprint of the read in `a` and
//! neither is `Error::Memory`. Nothing is said about equal causes.
//!
//! [`footprint_imports`] lists the footprint of a read of imports, as ranges.
//!
//! The calls whose names begin with `mode` read one file in both modes. Permissive mode repeats
//! what strict mode reads, with one exception: an import directory at file offset 0 is an empty
//! list there, as [`ParseOptions::parse_mode`](crate::options::ParseOptions::parse_mode) says.
//!
//! [`reorder_whole_tables`] reads one file with two tables of sections. The order of sections
//! changes nothing if their windows are disjoint.

mod header;
mod modes;
mod order;
mod parts;
mod whole;

pub use goblin_pe_export::laws::{ExportRead, twin_exports};
pub use goblin_pe_import::laws::{footprint_imports, twin_imports, twin_lookup};
pub use header::twin_header;
pub use modes::{mode_header, mode_tables, mode_whole};
pub use order::{Request, Tables, TablesOf, reorder_whole_tables};
pub use parts::{Parts, PartsOf, twin_parts};
pub use whole::twin_whole;
