//! Rows of mails, and what pages are.
use arch_base::{Bytes, Form, Name};
use mail_commits::text_ids;
use mail_forms::Row;
use mail_reader::is_stored;
use mail_rows::row_of;
use std::alloc::Global;

/// Returns the name of the list.
pub(crate) fn list() -> Option<Name> {
    Name::read(b"list")
}

/// Returns the row of a mail that arrived at 2024-02-01 10:01:40, or `None` if the mail is not in
/// storage form.
pub(crate) fn row(alloc: Global, text: &[u8]) -> Option<Row> {
    if !is_stored(text) {
        return None;
    }
    row_of(alloc, 1, &text_ids(text, Form::Sha1), text, 1_706_781_700).ok()
}

/// Returns whether a page is the wanted one.
pub(crate) fn is(page: Option<Bytes>, wanted: &[u8]) -> bool {
    match page {
        Some(made) => made.as_slice() == wanted,
        None => false,
    }
}

/// Returns the length of a page, or 0 if there is none.
pub(crate) fn length(page: Option<Bytes>) -> usize {
    match page {
        Some(made) => made.as_slice().len(),
        None => 0,
    }
}
