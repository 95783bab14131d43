//! The tests of goblin_pe_head, and of goblin_pe_symbol, goblin_pe_sect and goblin_base below it.
#![tactic(auto)]

#[cfg(test)]
mod tests;
