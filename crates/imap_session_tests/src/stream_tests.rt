//! Streams worked out by hand, each fed whole, byte by byte, and cut in two at every offset. The session
//! is given its update after each piece.
use crate::connection::Connection;
use arch_model::Next;
use imap_session::door_laws;
use std::alloc::Global;

/// A stream, the lines that it gets after the greeting, and whether the connection then continues.
type Stream = (&'static [u8], &'static [&'static [u8]], Next);

/// The first line of the reply to SELECT.
const FLAGS: &[u8] = b"* FLAGS ()";

/// The line that says that no message is recent.
const NO_RECENT: &[u8] = b"* 0 RECENT";

/// The line of the archive's own number.
const VALIDITY: &[u8] = b"* OK [UIDVALIDITY 1706780000] uidvalidity";

/// The line that says that no flag can be set.
const NO_FLAGS: &[u8] = b"* OK [PERMANENTFLAGS ()] no flags";

/// Streams to an archive whose mailboxes have two numbers.
static STREAMS: [Stream; 16] = [
    (b"", &[], Next::Go),
    (b"a NOOP", &[], Next::Go),
    (
        b"\n\r\n a NOOP\r\na\r\na NOOP\r\r\n",
        &[
            b"* BAD syntax",
            b"* BAD syntax",
            b"* BAD syntax",
            b"a BAD syntax",
            b"a BAD syntax",
        ],
        Next::Go,
    ),
    (
        b"a LOGOUT\r\nb NOOP\r\n",
        &[b"* BYE bye", b"a OK LOGOUT done"],
        Next::Close,
    ),
    (
        b"a1 LOGIN u p\r\na2 SELECT list.1\r\na3 SELECT list.2\r\na4 FETCH 1 (UID)\r\n",
        &[
            b"a1 OK LOGIN done",
            FLAGS,
            b"* 1 EXISTS",
            NO_RECENT,
            VALIDITY,
            b"* OK [UIDNEXT 4] uidnext",
            NO_FLAGS,
            b"a2 OK [READ-ONLY] SELECT done",
            b"a3 NO no such mailbox",
            b"a4 BAD syntax",
        ],
        Next::Go,
    ),
    (
        b"a1 LOGIN {1}\r\nu p\r\n",
        &[b"+ go", b"a1 OK LOGIN done"],
        Next::Go,
    ),
    (
        b"a1 LOGIN {3+}\r\na2 LOGIN {0}\n {2}\r\n\r\n\r\na3 NOOP\n",
        &[
            b"a1 BAD syntax",
            b"+ go",
            b"+ go",
            b"a2 OK LOGIN done",
            b"a3 OK NOOP done",
        ],
        Next::Go,
    ),
    (
        b"a LOGIN {2}\r\n{5}\r\nb NOOP{2}\r\nxyz\r\n{1}\r\n\n\r\n",
        &[
            b"+ go",
            b"a BAD syntax",
            b"+ go",
            b"b BAD syntax",
            b"+ go",
            b"* BAD syntax",
        ],
        Next::Go,
    ),
    (
        b"a1 LOGIN {99999}\r\na2 NOOP\r\n",
        &[b"* BYE command too long"],
        Next::Close,
    ),
    (
        b"a1 LOGIN {4294967296}\r\n",
        &[b"* BYE command too long"],
        Next::Close,
    ),
    (
        b"a1 IDLE\r\na2 LOGIN u p\r\na4 IDLE\r\nDONE\r\n",
        &[
            b"a1 BAD syntax",
            b"a2 OK LOGIN done",
            b"+ idling",
            b"a4 OK IDLE done",
        ],
        Next::Go,
    ),
    (
        b"a1 LOGIN u p\na2 IDLE\n{3}\na3 IDLE\ndOnE \na4 IDLE\nDONE\r\r\na5 IDLE\r\ndone\na6 NOOP\n",
        &[
            b"a1 OK LOGIN done",
            b"+ idling",
            b"a2 BAD syntax",
            b"+ idling",
            b"a3 BAD syntax",
            b"+ idling",
            b"a4 BAD syntax",
            b"+ idling",
            b"a5 OK IDLE done",
            b"a6 OK NOOP done",
        ],
        Next::Go,
    ),
    (
        b"a1 LOGIN u p\r\na2 SELECT list.0\r\na3 IDLE\r\na4 NOOP\r\na5 CLOSE\r\n",
        &[
            b"a1 OK LOGIN done",
            FLAGS,
            b"* 2 EXISTS",
            NO_RECENT,
            VALIDITY,
            b"* OK [UIDNEXT 3] uidnext",
            NO_FLAGS,
            b"a2 OK [READ-ONLY] SELECT done",
            b"+ idling",
            b"a3 BAD syntax",
            b"a5 OK CLOSE done",
        ],
        Next::Go,
    ),
    (
        b"a1 LOGIN u p\r\na2 EXAMINE {6}\r\nlist.0\r\na3 FETCH 1:* (UID RFC822.SIZE)\r\n",
        &[
            b"a1 OK LOGIN done",
            b"+ go",
            FLAGS,
            b"* 2 EXISTS",
            NO_RECENT,
            VALIDITY,
            b"* OK [UIDNEXT 3] uidnext",
            NO_FLAGS,
            b"a2 OK [READ-ONLY] EXAMINE done",
            b"* 1 FETCH (UID 1 RFC822.SIZE 109)",
            b"* 2 FETCH (UID 2 RFC822.SIZE 109)",
            b"a3 OK FETCH done",
        ],
        Next::Go,
    ),
    (
        b"a1 LOGIN u p\na2 SELECT list.1\na3 UID SEARCH SUBJECT {5}\nfirst\na4 FETCH 1 BODY[TEXT]\n",
        &[
            b"a1 OK LOGIN done",
            FLAGS,
            b"* 1 EXISTS",
            NO_RECENT,
            VALIDITY,
            b"* OK [UIDNEXT 4] uidnext",
            NO_FLAGS,
            b"a2 OK [READ-ONLY] SELECT done",
            b"+ go",
            b"* SEARCH 3",
            b"a3 OK UID SEARCH done",
            b"* 1 FETCH (BODY[TEXT] {5}",
            b"one",
            b")",
            b"a4 OK FETCH done",
        ],
        Next::Go,
    ),
    (
        b"a STATUS list.0 (MESSAGES)\r\nb LOGIN u p\r\nc STATUS list.1 (MESSAGES UIDNEXT)\r\nd STORE 1 FLAGS ()\r\ne CREATE x\r\n",
        &[
            b"a BAD syntax",
            b"b OK LOGIN done",
            b"* STATUS list.1 (MESSAGES 1 UIDNEXT 4)",
            b"c OK STATUS done",
            b"d BAD syntax",
            b"e NO read only",
        ],
        Next::Go,
    ),
];

/// Returns whether the stream is answered when it is cut in two at each offset.
fn is_answered_cut(connection: &mut Connection, stream: &Stream) -> bool {
    for at in 0..stream.0.len() + 1 {
        connection.begin();
        connection.hear_cut(stream.0, at);
        if !connection.has_answered(stream.1, stream.2) {
            return false;
        }
    }
    true
}

/// Returns whether the stream is answered when it comes byte by byte.
fn is_answered_by_byte(connection: &mut Connection, stream: &Stream) -> bool {
    connection.begin();
    connection.hear_bytes(stream.0);
    connection.has_answered(stream.1, stream.2)
}

/// Returns the number of the first stream that isn't answered however it is cut.
fn first_unanswered(alloc: Global) -> Option<usize> {
    let mut connection = Connection::to(alloc, 2)?;
    for index in 0..STREAMS.len() {
        let stream = &STREAMS[index];
        if !is_answered_cut(&mut connection, stream)
            || !is_answered_by_byte(&mut connection, stream)
        {
            return Some(index);
        }
    }
    Some(STREAMS.len())
}

#[test]
fn streams_are_answered_however_they_are_cut(rt: HostRuntime) {
    assert!(rt; first_unanswered(rt.alloc()) == Some(STREAMS.len()));
}

#[test]
fn replies_are_the_same_however_bytes_are_cut(rt: HostRuntime) {
    door_laws();
    assert!(rt; true);
}
