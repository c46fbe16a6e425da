//! Reads messages of mail: their storage form, fields, body, ids and references.
//! Allocates.
//!
//! Lines, fields and folding are those of RFC 5322.
#![tactic(auto)]

mod checking;
mod content;
mod counting;
mod header;
mod ids;
mod laws;
mod lines;
mod reading;
mod references;
mod storing;
mod values;

pub use checking::{is_stored, stored_id};
pub use content::content_id;
pub use header::{Field, Fields, line_len};
pub use ids::Ids;
pub use laws::{
    field_in_front, fields_are_front, form_is_parts, forms_are_clean, forms_are_short,
    id_line_is_kept, ids_are_pieces, ids_in_order, own_id_in_front, own_id_is_first, parts_lie_in,
    stored_once,
};
pub use reading::{body, fields, first_value, is_same_name, own_id};
pub use references::refs_of;
pub use storing::{StoredRefusal, stored};
pub use values::flat;
