//! Tests of the door of mail systems that hand over mail, by its public calls alone.
#![tactic(auto)]

#[cfg(test)]
mod connection;
#[cfg(test)]
mod failure_tests;
#[cfg(test)]
mod limit_tests;
#[cfg(test)]
mod plain;
#[cfg(test)]
mod random_tests;
#[cfg(test)]
mod stream_tests;
#[cfg(test)]
mod table_tests;
