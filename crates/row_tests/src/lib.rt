//! Tests of the forms in which a text is sent, of rows, of ranked sets and of the overview, by their
//! public calls alone.
#![tactic(auto)]

#[cfg(test)]
mod form_tests;
#[cfg(test)]
mod overview_tests;
#[cfg(test)]
mod ranked_tests;
#[cfg(test)]
mod row_cases;
#[cfg(test)]
mod row_tests;
