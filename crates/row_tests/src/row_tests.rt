//! Rows against the rules.
use crate::row_cases::{ARRIVED, CASES, RowCase};
use arch_base::Form;
use git_objects::blob_id;
use mail_commits::text_ids;
use mail_reader::{content_id, is_stored};
use mail_rows::row_of;
use std::alloc::Global;

/// Returns whether a mail has the row that was worked out.
fn has_row(alloc: Global, case: &RowCase) -> bool {
    if !is_stored(case.text) {
        return false;
    }
    match row_of(
        alloc,
        7,
        &text_ids(case.text, Form::Sha1),
        case.text,
        ARRIVED,
    ) {
        Ok(row) => row.number == 7 && case.is_shown_by(&row),
        Err(_) => false,
    }
}

/// Returns whether the row of a mail has its blob id, in the form that is asked for, and its content id.
fn has_ids(alloc: Global, case: &RowCase, form: Form) -> bool {
    if !is_stored(case.text) {
        return false;
    }
    match row_of(alloc, 7, &text_ids(case.text, form), case.text, ARRIVED) {
        Ok(row) => row.blob == blob_id(case.text, form) && row.content == content_id(case.text),
        Err(_) => false,
    }
}

#[test]
fn mails_have_the_rows_that_were_worked_out(rt: HostRuntime) {
    for case in &CASES {
        assert!(rt; has_row(rt.alloc(), case));
    }
}

#[test]
fn rows_have_the_ids_of_their_texts(rt: HostRuntime) {
    for case in &CASES {
        assert!(rt; has_ids(rt.alloc(), case, Form::Sha1));
        assert!(rt; has_ids(rt.alloc(), case, Form::Sha256));
    }
}
