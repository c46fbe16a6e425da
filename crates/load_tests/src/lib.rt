//! Tests of load runs by their public calls alone: their messages byte by byte, their counts over
//! archives in memory and on disks, whole and failing, and searches among their messages.
#![tactic(auto)]

#[cfg(test)]
mod archives;
#[cfg(test)]
mod fault_tests;
#[cfg(test)]
mod mail_tests;
#[cfg(test)]
mod run_tests;
#[cfg(test)]
mod search_tests;
