//! The tests of goblin_pe: what only a caller in Rattle can ask, footprints, and readers that have
//! two answers.
#![tactic(auto)]

#[cfg(test)]
mod tests;
