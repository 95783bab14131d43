//! The definitions with which contracts specify readers of a file. This crate has no code.
//!
//! A `Reading` (in `goblin_base`) defines the result of a read: its value, the causes that are true
//! if there is no value, and the positions of the file that it reaches. It also carries three laws.
//! Files that agree on the positions reached have the same value. Every position reached lies in
//! the file. No cause is `Memory`.
//!
//! `specs/Reads` defines readings, from a number at an offset to a table of slots, and ways to
//! combine them. Each definition proves the laws, so a reader that is specified with these needs no
//! proof of its own. `specs/Walks` has the definitions for calls that return the items of a table
//! one at a time, `specs/Tests` the one for tests of items, and `specs/added/Questions` those for
//! questions that callers ask about the items.
//!
//! The proofs are in `proofs/`:
//!
//! - `Loops`: what a loop over the slots of a table returns at each of its exits.
//! - `Modes`: what strict and permissive mode have in common.
//! - `Walks`: how a walk moves from slot to slot.
//! - `WalkValues`: what collecting the items of a walk gives.
//! - `Walked`: what a loop over a walk has made.
//! - `Pairs`: equal pairs of values.
//! - `added/Questions`: if the first item that passes a test is found, some item passes it.
#![tactic(auto)]
