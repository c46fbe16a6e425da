//! Tests of a node that serves many connections (`node_serve`), by its public calls alone: over
//! archives in memory and on disks that fail, and hosts in memory.
#![tactic(auto)]

#[cfg(test)]
mod browsing_tests;
#[cfg(test)]
mod crowd_tests;
#[cfg(test)]
mod fault_tests;
#[cfg(test)]
mod idling_tests;
#[cfg(test)]
mod reading_tests;
#[cfg(test)]
mod served;
