//! The commands of an archive.
//! Pure.

/// A command on an archive.
#[derive(Clone, Copy, Debug, Drop)]
pub enum Command<'a> {
    /// Delivers the message with these bytes.
    Deliver(&'a [u8]),
    /// Removes the message with this number from view.
    Remove(u32),
    /// Drops each entry with the text of the message with this number, live or not.
    Purge(u32),
    /// Purges the live message with this number, and delivers the message with these bytes.
    Edit(u32, &'a [u8]),
}
