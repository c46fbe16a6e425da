//! Tests of stores on disks in memory, by their public calls alone, beside archives in memory.
#![tactic(auto)]

#[cfg(test)]
mod adopt_tests;
#[cfg(test)]
mod convert_tests;
#[cfg(test)]
mod damage_tests;
#[cfg(test)]
mod epoch_reading_tests;
#[cfg(test)]
mod fault_tests;
#[cfg(test)]
mod form_tests;
#[cfg(test)]
mod joining_tests;
#[cfg(test)]
mod making_tests;
#[cfg(test)]
mod opening_tests;
#[cfg(test)]
mod removal_tests;
