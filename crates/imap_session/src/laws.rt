//! The laws of the door, which hold for every archive and all bytes.
//! Pure.
ghost use Rattle.imap_session.specs.Laws.{ImapLaws};

/// Shows that the replies to a client do not depend on how the bytes are cut, and what its updates are.
///
/// * However the bytes of a connection are cut into pieces, the same is said, and the same session is
///   left; also where the session is given an update after each piece.
/// * The acts of one piece and then of another are acts of both at once, even if allocations, the
///   disk or sends fail.
/// * Acts without such failures do what the plain function does.
/// * An update leaves a session alone that doesn't idle, and tells nothing a second time.
/// * What a client knows suits the archive in a new session, and goes on doing so after each act, each
///   update, and each change of the archive in which no number that is gone comes back.
/// * A part that announces octets is answered by `+ go`. While a session idles no line announces any.
pub fn door_laws()
    ensures { ImapLaws }
{}
