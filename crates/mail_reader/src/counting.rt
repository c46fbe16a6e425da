//! Finds the fields that count for the content id, in one pass over a header.
//! Pure.
ghost use Rattle.std.specs.Prelude.{[], ◌∷◌, List};
ghost use Rattle.mail_reader.specs.Fields.{FieldText, fields_of};
ghost use Rattle.mail_reader.specs.Reading.{shown};
ghost use Rattle.mail_reader.specs.Counting.{AreFound, IsFoundField};

use crate::header::{Field, Fields};
use crate::reading::is_same_name;

/// What is found of the fields with a name.
#[derive(Clone, Copy, Drop)]
pub(crate) enum Found<'a> {
    /// There is none.
    Nothing,
    /// There is one, with this value.
    Value(&'a [u8]),
    /// There are more than one.
    Several,
}

impl<'a> Found<'a> {
    /// Returns what is found of the fields with a name after one more field.
    fn after(self, name: &[u8], field: &Field<'a>) -> Found<'a>
        ensures { (fields rest : List FieldText)
            → IsFoundField name.now self.entry fields (shown field.now ∷ rest)
            → IsFoundField name.now result fields rest }
    {
        if !is_same_name(field.name, name) {
            return self;
        }
        match self {
            Found::Nothing => Found::Value(field.value),
            Found::Value(_) | Found::Several => Found::Several,
        }
    }
}

/// What is found of the fields with each name that counts.
#[derive(Clone, Copy, Drop)]
pub(crate) struct FoundFields<'a> {
    /// `Subject`.
    pub(crate) subject: Found<'a>,
    /// `From`.
    pub(crate) authors: Found<'a>,
    /// `Date`.
    pub(crate) date: Found<'a>,
    /// `References`.
    pub(crate) references: Found<'a>,
    /// `In-Reply-To`.
    pub(crate) replied: Found<'a>,
    /// `To`.
    pub(crate) recipients: Found<'a>,
    /// `Cc`.
    pub(crate) copied: Found<'a>,
}

impl<'a> FoundFields<'a> {
    /// Returns what is found before the first field.
    fn nothing() -> FoundFields<'a>
        ensures { (fields : List FieldText) → AreFound result fields fields }
    {
        FoundFields {
            subject: Found::Nothing,
            authors: Found::Nothing,
            date: Found::Nothing,
            references: Found::Nothing,
            replied: Found::Nothing,
            recipients: Found::Nothing,
            copied: Found::Nothing,
        }
    }

    /// Returns what is found after one more field.
    fn after(&self, field: &Field<'a>) -> FoundFields<'a>
        ensures { (fields rest : List FieldText)
            → AreFound self.now fields (shown field.now ∷ rest) → AreFound result fields rest }
    {
        FoundFields {
            subject: self.subject.after(b"Subject", field),
            authors: self.authors.after(b"From", field),
            date: self.date.after(b"Date", field),
            references: self.references.after(b"References", field),
            replied: self.replied.after(b"In-Reply-To", field),
            recipients: self.recipients.after(b"To", field),
            copied: self.copied.after(b"Cc", field),
        }
    }

    /// Returns what is found of a text's fields.
    pub(crate) fn of(text: &'a [u8]) -> FoundFields<'a>
        ensures { AreFound result (fields_of text.now) [] }
    {
        let mut found = FoundFields::nothing();
        for field in Fields::of(text) {
            found = found.after(&field);
        }
        found
    }
}
