//! Footprints, readers of two files or in two modes, and calls that C lacks.
//!
//! A [`Whole`](goblin_pe::Whole) ends in `drop`: what is proved of its parts is then proved once,
//! and not in each function that has one. What owns memory is looked at by a function that borrows
//! it, or takes it.

mod ascii;
mod directories;
mod examples;
mod exports;
mod footprints;
mod imports;
mod modes;
mod overlapping;
mod rows;
mod sample;
