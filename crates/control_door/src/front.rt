//! The front of a session's bytes: a whole request, or the beginning of one.
//! Pure.

/// What a message is delivered for.
#[derive(Clone, Copy, Drop)]
pub(crate) enum Aim {
    /// It is a new one.
    New,
    /// It takes the place of the message with this number.
    InPlaceOf(u32),
}

/// What a message of which a part is held is for, and the offsets in what a session holds at which it
/// starts and ends.
#[derive(Clone, Copy, Drop)]
pub(crate) struct Payload {
    pub(crate) aim: Aim,
    pub(crate) start: usize,
    pub(crate) end: usize,
}

/// A whole request.
#[derive(Clone, Copy, Drop)]
pub(crate) enum Requested<'a> {
    /// Delivers this message.
    Message(Aim, &'a [u8]),
    /// Delivers the message that starts at this offset of what is held, and ends with these bytes.
    Joined(Aim, usize, &'a [u8]),
    /// Shows the text of this number.
    Text(u32),
    /// Removes the message with this number.
    Removal(u32),
    /// Purges the text of this number.
    Purge(u32),
    /// Shows the thread of this number.
    Thread(u32),
    /// Lists the epochs.
    Epochs,
    /// Reindexes the archive.
    Reindexing,
    /// Ends the connection.
    Quit,
    /// A line that is not an order.
    Mistake,
    /// A line that is too long, or that announces too many bytes.
    Excess,
}

/// The front of what is held and a piece.
#[derive(Clone, Copy, Drop)]
pub(crate) enum Front<'a> {
    /// The beginning of a request, and where its message is.
    Rest(Option<Payload>),
    /// A whole request, and the number of bytes that it takes from the piece.
    Whole(Requested<'a>, usize),
}
