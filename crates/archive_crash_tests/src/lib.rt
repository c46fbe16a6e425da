//! Tests of what faults of a disk and crashes leave of commands on archives, by their public calls
//! alone.
#![tactic(auto)]

#[cfg(test)]
mod convert_tests;
#[cfg(test)]
mod course;
#[cfg(test)]
mod course_tests;
#[cfg(test)]
mod doubt_tests;
