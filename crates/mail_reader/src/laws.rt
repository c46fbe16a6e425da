//! Laws of the storage form, and of the fields and ids of any text.
//! Pure.
//!
//! Each function does nothing: its contract is the law.
ghost use Rattle.mail_reader.specs.Laws.{StoredOnce, FormsAreClean, FieldsAreFront, FormIsParts, FieldInFront, FormsAreShort, OwnIdInFront, IdLineIsKept, IdsArePieces, IdsInOrder, PartsLieIn, OwnIdIsFirst};

/// Shows that the storage form of a storage form is that form.
///
/// `stored` may refuse it all the same, by its length.
pub fn stored_once()
    ensures { StoredOnce }
{}

/// Shows that a storage form has a field, ends with a line feed, and has no carriage return
/// directly before a line feed.
pub fn forms_are_clean()
    ensures { FormsAreClean }
{}

/// Shows that the fields of any text, one after another, are its front.
pub fn fields_are_front()
    ensures { FieldsAreFront }
{}

/// Shows that the fields of a storage form in order, an empty line and the body are the form.
pub fn form_is_parts()
    ensures { FormIsParts }
{}

/// Shows that a storage form with a kept field on one line at its front is a storage form.
pub fn field_in_front()
    ensures { FieldInFront }
{}

/// Shows that a storage form is at most two bytes longer than the bytes that it is made of.
pub fn forms_are_short()
    ensures { FormsAreShort }
{}

/// Shows that the own id of a text that starts with a Message-ID field on one line is the id in
/// that field.
pub fn own_id_in_front()
    ensures { OwnIdInFront }
{}

/// Shows that the line of a Message-ID field with an id is a field that is kept as it is.
pub fn id_line_is_kept()
    ensures { IdLineIsKept }
{}

/// Shows that the ids of a value are just its pieces that are ids.
///
/// Each such piece is one of the ids, and each id is such a piece.
pub fn ids_are_pieces()
    ensures { IdsArePieces }
{}

/// Shows that the ids of a value come in the order of these pieces, and as often.
pub fn ids_in_order()
    ensures { IdsInOrder }
{}

/// Shows that the fields, the body and the own id of any text are pieces of it.
///
/// A field's name is one or more printable bytes, and each line feed in its value has a space or a
/// tab after it.
pub fn parts_lie_in()
    ensures { PartsLieIn }
{}

/// Shows that the own id of a text is just the first id of its first Message-ID field.
///
/// The field's name may be in letters of any case.
pub fn own_id_is_first()
    ensures { OwnIdIsFirst }
{}
