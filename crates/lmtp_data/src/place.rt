//! Where the next octet of the data stands in its line.
//! Pure.

/// Where the next octet of the data stands in its line.
#[derive(Clone, Copy, Debug, Drop, PartialEq, Eq)]
pub enum Place {
    /// It is the first one of a line.
    LineStart,
    /// It follows a dot at the line's start, which is dropped.
    Dot,
    /// It follows such a dot and a carriage return, which belongs to the data unless a line feed
    /// comes now.
    DotReturn,
    /// It follows other octets of the line.
    Within,
    /// It follows a carriage return of the line.
    Return,
}
