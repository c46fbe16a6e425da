//! Tests of how parts of an archive are written anew, by public calls alone: plans, maps without the
//! messages of some numbers, epochs without some entries, and purges and edits of a store.
#![tactic(auto)]

#[cfg(test)]
mod command_tests;
#[cfg(test)]
mod entries_tests;
#[cfg(test)]
mod map_tests;
#[cfg(test)]
mod plan_tests;
#[cfg(test)]
mod store_tests;
