//! The answers to a fetch.
//! Pure.
use arch_base::{NoMemory, ObjectId};

/// The answer to a fetch.
///
/// `Ok` adopts the archive that the peer lists. After `DiskFault` the archive has to be reopened, and
/// only that shows whether it was adopted. Any other answer leaves the archive unchanged.
#[derive(Clone, Copy, Debug, PartialEq, Eq, Drop)]
pub enum FetchAnswer {
    /// The archive is the one that the peer lists.
    Ok {
        /// Whether it differs from the one before.
        changed: bool,
    },
    /// The archive is no mirror.
    NotMirror,
    /// The peer failed.
    PeerFault,
    /// The peer answered with this status.
    BadReply(u16),
    /// From this line on, counted from 1, the text is no valid list, or it is that of another archive; or
    /// the text of this line's entry doesn't fit the line.
    BadList(u64),
    /// A blob that was asked for has another id.
    WrongId {
        /// The id that is listed.
        listed: ObjectId,
        /// The id of the bytes that came.
        found: ObjectId,
    },
    /// The peer lists this blob, and no longer has it.
    Changed {
        /// The id that is listed.
        id: ObjectId,
    },
    /// The list has another text for the message with a number.
    Renamed {
        /// The number.
        number: u32,
        /// The blob id that the archive has for it.
        had: ObjectId,
        /// The blob id that is listed.
        offered: ObjectId,
    },
    /// The list has a message with this number, which the archive has given and has no message for any more.
    Revived(u32),
    /// The list has a lesser next number.
    Behind {
        /// The next number of the archive.
        had: u32,
        /// The next number that is listed.
        offered: u32,
    },
    /// An entry has another commit.
    BadCommit {
        /// The id that is listed.
        listed: ObjectId,
        /// The id of the commit that keeps the entry.
        computed: ObjectId,
    },
    /// A call of the disk failed.
    DiskFault,
    /// An allocation failed.
    NoMemory,
}

impl From<NoMemory> for FetchAnswer {
    ghost use Rattle.std.specs.Prelude.{◌≡◌};
    ghost use Rattle.fetch_course.specs.declared.answer.FetchAnswer.TheVariants.{NoMemory};

    ghost from_gives = { λ _ e. e ≡ NoMemory };

    fn from(_refused: NoMemory) -> FetchAnswer {
        FetchAnswer::NoMemory
    }
}
