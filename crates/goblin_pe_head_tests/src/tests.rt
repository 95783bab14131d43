//! What only a caller in Rattle sees of bytes, sections, addresses, relocations and headers.

mod addresses;
mod base;
mod directories;
mod index;
mod optional_header;
mod relocations;
mod sections;
mod stub;
mod symbols;
mod te;
