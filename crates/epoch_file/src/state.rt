//! The state of a walk.
//! Pure.
use crate::entry::SeenList;
use crate::window::{Part, Window};
use arch_base::{Form, ObjectId};

/// The state of a walk over an epoch's file.
#[derive(Drop)]
pub(crate) struct State {
    /// The part of the file that is left.
    pub(crate) part: Part,
    /// Bytes that were read of that part.
    pub(crate) window: Window,
    /// The commit of the entry before it.
    pub(crate) parent: Option<ObjectId>,
    /// The entries that were found.
    pub(crate) seen: SeenList,
    /// The form of the epoch.
    pub(crate) form: Form,
}
