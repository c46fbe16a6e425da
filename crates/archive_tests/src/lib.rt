//! Tests of archives in memory and on disks, by their public calls alone: `arch_model`,
//! `arch_judge`, `mem_archive`, `archive_core` and `mirror_wire`.
#![tactic(auto)]

#[cfg(test)]
mod convert_tests;
#[cfg(test)]
mod core_tests;
#[cfg(test)]
mod counting_tests;
#[cfg(test)]
mod engine_tests;
#[cfg(test)]
mod form_tests;
#[cfg(test)]
mod list_tests;
#[cfg(test)]
mod model_tests;
#[cfg(test)]
mod reading_tests;
#[cfg(test)]
mod removal_tests;
