//! The listing of a PE file as text: its header, its sections, imports, exports and base
//! relocations, a line each, in this order:
//!
//! | Line | When |
//! |---|---|
//! | `header machine=H sections=D magic=H entry=H` | always |
//! | `section va=H vsize=H raw=H ptr=H name=N` | for each section |
//! | `imports absent` or `imports D` | always |
//! | `import offset=H ordinal=D rva=H size=D slot=D dll=N name=N` | for each import |
//! | `exports absent`, `exports refused` or `exports D` | always |
//! | `export rva=H offset=H forward=N name=N` | for each export |
//! | `relocations absent`, `relocations refused` or `relocations D` | always |
//! | `block rva=H size=H words=D` | for each block |
//! | `block refused` | if bytes that are no block follow the blocks |
//!
//! H is `0x` and lower-case hexadecimal digits, and D is decimal digits. N is a name, in which each
//! byte outside printable ASCII, and the backslash, is `\x` and two such hexadecimal digits. The
//! fields are those of `Header`, `SectionTable`, `Import`, `Export` and `RelocationBlock` of the
//! library. A line ends with a line feed.
//!
//! - Without an optional header, the line of the header ends after `sections=D`.
//! - The name of a section is the one from the string table, or else the eight bytes of the section
//!   header up to a NUL.
//! - `imports 0` is also printed for a directory that permissive mode treats as empty.
//! - Only permissive mode prints `exports refused` and `relocations refused`, since strict mode
//!   refuses the file.
//! - The line of an export leaves out the fields that the export lacks. A forwarder is
//!   `library.name` or `library.#D`.
//! - The number of relocations is the number of blocks that are read without an error.
#![tactic(auto)]

mod lines;
pub mod listing;
mod text;
