//! The answers to commands.
//! Pure.
use arch_base::ObjectId;
use disk_model::FileName;

/// The answer to a command.
///
/// `Ok` changes the archive. After `DiskFault` and `Damaged` the archive has to be reopened, and
/// after `DiskFault` only that shows whether the command was carried out. Any other answer leaves
/// the archive unchanged.
#[derive(Clone, Copy, Debug, PartialEq, Eq, Drop)]
pub enum Answer {
    /// The message was kept with this number, or it was removed or purged. Its text has this blob
    /// id.
    Ok {
        number: u32,
        id: ObjectId,
    },
    /// The message with this number is the same.
    Duplicate(u32),
    /// The message has no field left.
    NoFields,
    /// The message has this many bytes, which are too many.
    TooLarge(u64),
    /// No number is left. This is the greatest.
    Full(u32),
    /// The message with this number has the same blob id, and another text.
    Collision(u32),
    /// This number is not live.
    NotLive(u32),
    /// No entry is the message with this number, live or not.
    NoText(u32),
    /// The archive mirrors another one, and takes no commands.
    IsMirror,
    /// A call of the disk failed.
    DiskFault,
    /// A file of the archive is malformed.
    Damaged {
        /// The file.
        file: FileName,
        /// The offset of the first malformed part, in bytes.
        at: u64,
    },
    /// An allocation failed.
    NoMemory,
}
