//! Streams worked out by hand from the rules of the control door, each fed in every way that its
//! length allows.
use crate::connection::Connection;
use arch_model::Next;
use control_door::{Order, cut_laws, read_order};
use std::alloc::Global;

/// A stream and what it gets.
struct Stream {
    bytes: &'static [u8],
    answers: &'static [u8],
    /// Whether the connection then continues.
    next: Next,
}

/// Lines of every kind.
const LINES: [Stream; 32] = [
    Stream {
        bytes: b"",
        answers: b"",
        next: Next::Go,
    },
    Stream {
        bytes: b"\n",
        answers: b"13 bad line\n",
        next: Next::Go,
    },
    Stream {
        bytes: b"\r\n",
        answers: b"13 bad line\n",
        next: Next::Go,
    },
    Stream {
        bytes: b"show 1",
        answers: b"",
        next: Next::Go,
    },
    Stream {
        bytes: b"show 1\n",
        answers: b"7 not live 1\n",
        next: Next::Go,
    },
    Stream {
        bytes: b"show 1\r\n",
        answers: b"7 not live 1\n",
        next: Next::Go,
    },
    Stream {
        bytes: b"show 1\r\r\n",
        answers: b"13 bad line\n",
        next: Next::Go,
    },
    Stream {
        bytes: b"Show 12\n",
        answers: b"7 not live 12\n",
        next: Next::Go,
    },
    Stream {
        bytes: b"show  1\n",
        answers: b"13 bad line\n",
        next: Next::Go,
    },
    Stream {
        bytes: b" show 1\n",
        answers: b"13 bad line\n",
        next: Next::Go,
    },
    Stream {
        bytes: b"show 1 \n",
        answers: b"13 bad line\n",
        next: Next::Go,
    },
    Stream {
        bytes: b"show\t1\n",
        answers: b"13 bad line\n",
        next: Next::Go,
    },
    Stream {
        bytes: b"show 1\0\n",
        answers: b"13 bad line\n",
        next: Next::Go,
    },
    Stream {
        bytes: b"\0\0\n",
        answers: b"13 bad line\n",
        next: Next::Go,
    },
    Stream {
        bytes: b"show 0\n",
        answers: b"13 bad line\n",
        next: Next::Go,
    },
    Stream {
        bytes: b"show 01\n",
        answers: b"13 bad line\n",
        next: Next::Go,
    },
    Stream {
        bytes: b"show 2147483647\n",
        answers: b"7 not live 2147483647\n",
        next: Next::Go,
    },
    Stream {
        bytes: b"show 2147483648\n",
        answers: b"13 bad line\n",
        next: Next::Go,
    },
    Stream {
        bytes: b"show\nshow \n",
        answers: b"13 bad line\n13 bad line\n",
        next: Next::Go,
    },
    Stream {
        bytes: b"quit",
        answers: b"",
        next: Next::Go,
    },
    Stream {
        bytes: b"quit\n",
        answers: b"",
        next: Next::Close,
    },
    Stream {
        bytes: b"QUIT\r\n",
        answers: b"",
        next: Next::Close,
    },
    Stream {
        bytes: b"quit \n",
        answers: b"13 bad line\n",
        next: Next::Go,
    },
    Stream {
        bytes: b"quitt\nqui\n",
        answers: b"13 bad line\n13 bad line\n",
        next: Next::Go,
    },
    Stream {
        bytes: b"x\nquit\nshow 1\n",
        answers: b"13 bad line\n",
        next: Next::Close,
    },
    Stream {
        bytes: b"epochs\nEpochs\r\n",
        answers: b"end\nend\n",
        next: Next::Go,
    },
    Stream {
        bytes: b"epochs \nreindex \n",
        answers: b"13 bad line\n13 bad line\n",
        next: Next::Go,
    },
    Stream {
        bytes: b"reindex\nthread 1\n",
        answers: b"reindexed 0\n7 not live 1\n",
        next: Next::Go,
    },
    Stream {
        bytes: b"purge 1\nshow 2\n",
        answers: b"8 no text 1\n7 not live 2\n",
        next: Next::Go,
    },
    Stream {
        bytes: b"edit 1 5\nquit\nshow 1\n",
        answers: b"7 not live 1\n7 not live 1\n",
        next: Next::Go,
    },
    Stream {
        bytes: b"edit 1 9000001\nabc\n",
        answers: b"13 bad line\n",
        next: Next::Close,
    },
    Stream {
        bytes: b"show 1\nshow 2\r\nsh",
        answers: b"7 not live 1\n7 not live 2\n",
        next: Next::Go,
    },
];

/// Deliveries.
const DELIVERIES: [Stream; 19] = [
    Stream {
        bytes: b"deliver 0\n",
        answers: b"3 no fields\n",
        next: Next::Go,
    },
    Stream {
        bytes: b"deliver 0\r\nshow 1\n",
        answers: b"3 no fields\n7 not live 1\n",
        next: Next::Go,
    },
    Stream {
        bytes: b"DELIVER 5\nab\r\ncshow 1\n",
        answers: b"3 no fields\n7 not live 1\n",
        next: Next::Go,
    },
    Stream {
        bytes: b"deliver 4\nA: bshow 1\n",
        answers: b"1 ok 1 643b40cf5ec22998a0ee39916ec6b11c61de1e73\ntext 76\nMessage-ID: <be25730bed17f9c3e312a182c2ee7060dd7be817.0@list.invalid>\nA: b\n\n",
        next: Next::Go,
    },
    Stream {
        bytes: b"deliver 5\nquit\n",
        answers: b"3 no fields\n",
        next: Next::Go,
    },
    Stream {
        bytes: b"deliver 2\n\0\0quit\nx\n",
        answers: b"3 no fields\n",
        next: Next::Close,
    },
    Stream {
        bytes: b"deliver 5\nquit",
        answers: b"",
        next: Next::Go,
    },
    Stream {
        bytes: b"deliver 9000000\nquit\n",
        answers: b"",
        next: Next::Go,
    },
    Stream {
        bytes: b"deliver 9000001\nquit\n",
        answers: b"13 bad line\n",
        next: Next::Close,
    },
    Stream {
        bytes: b"deliver 18446744073709551615\nx\n",
        answers: b"13 bad line\n",
        next: Next::Close,
    },
    Stream {
        bytes: b"deliver 18446744073709551616\nx\n",
        answers: b"13 bad line\n13 bad line\n",
        next: Next::Go,
    },
    Stream {
        bytes: b"deliver 01\nx\n",
        answers: b"13 bad line\n13 bad line\n",
        next: Next::Go,
    },
    Stream {
        bytes: b"deliver x\nshow 1\n",
        answers: b"13 bad line\n7 not live 1\n",
        next: Next::Go,
    },
    Stream {
        bytes: b"deliver\ndeliver \n",
        answers: b"13 bad line\n13 bad line\n",
        next: Next::Go,
    },
    Stream {
        bytes: b"deliver  5\nquit\n",
        answers: b"13 bad line\n",
        next: Next::Close,
    },
    Stream {
        bytes: b"deliver 22\nMessage-ID: <a@x>\n\nhi\nshow 1\n",
        answers: b"1 ok 1 fd45734adf4c71bc58d917e4834ace95f6a75a7e\ntext 22\nMessage-ID: <a@x>\n\nhi\n",
        next: Next::Go,
    },
    Stream {
        bytes: b"deliver 19\nMessage-ID: <b@x>\r\nShow 1\r\nquit\n",
        answers: b"1 ok 1 932aef3c2f53dcc65475837ae327c57b7d4d2fc6\ntext 19\nMessage-ID: <b@x>\n\n",
        next: Next::Close,
    },
    Stream {
        bytes: b"deliver 18\nMessage-ID: <a@x>\ndeliver 18\nMessage-ID: <a@x>\nshow 2\n",
        answers: b"1 ok 1 df7a16e6b23ee491f39d84e89298f10b0d4ae4e0\n2 duplicate 1\n7 not live 2\n",
        next: Next::Go,
    },
    Stream {
        bytes: b"deliver 18\nMessage-ID: <a@x>\ndeliver 18\nmessage-id: <c@x>\nshow 2\nshow 1\n",
        answers: b"1 ok 1 df7a16e6b23ee491f39d84e89298f10b0d4ae4e0\n1 ok 2 f4cd56120b7a68a2a06bec4088ccc24910532e06\ntext 19\nmessage-id: <c@x>\n\ntext 19\nMessage-ID: <a@x>\n\n",
        next: Next::Go,
    },
];

/// Removals.
const REMOVALS: [Stream; 9] = [
    Stream {
        bytes: b"remove 1",
        answers: b"",
        next: Next::Go,
    },
    Stream {
        bytes: b"remove 1\r\nRemove 2147483647\n",
        answers: b"7 not live 1\n7 not live 2147483647\n",
        next: Next::Go,
    },
    Stream {
        bytes: b"remove 0\nremove x\nremove\nremove 01\n",
        answers: b"13 bad line\n13 bad line\n13 bad line\n13 bad line\n",
        next: Next::Go,
    },
    Stream {
        bytes: b"remove \nremove  1\n remove 1\nremove 1 \nremove 2147483648\nremover 1\n",
        answers: b"13 bad line\n13 bad line\n13 bad line\n13 bad line\n13 bad line\n13 bad line\n",
        next: Next::Go,
    },
    Stream {
        bytes: b"deliver 18\nMessage-ID: <a@x>\nremove 1\nremove 1\nshow 1\n",
        answers: b"1 ok 1 df7a16e6b23ee491f39d84e89298f10b0d4ae4e0\n1 ok 1 df7a16e6b23ee491f39d84e89298f10b0d4ae4e0\n7 not live 1\n7 not live 1\n",
        next: Next::Go,
    },
    Stream {
        bytes: b"deliver 18\nMessage-ID: <a@x>\nremove 2\nshow 1\n",
        answers: b"1 ok 1 df7a16e6b23ee491f39d84e89298f10b0d4ae4e0\n7 not live 2\ntext 19\nMessage-ID: <a@x>\n\n",
        next: Next::Go,
    },
    Stream {
        bytes: b"deliver 18\nMessage-ID: <a@x>\nremove 1\ndeliver 18\nMessage-ID: <a@x>\nremove 1\nshow 2\n",
        answers: b"1 ok 1 df7a16e6b23ee491f39d84e89298f10b0d4ae4e0\n1 ok 1 df7a16e6b23ee491f39d84e89298f10b0d4ae4e0\n1 ok 2 df7a16e6b23ee491f39d84e89298f10b0d4ae4e0\n7 not live 1\ntext 19\nMessage-ID: <a@x>\n\n",
        next: Next::Go,
    },
    Stream {
        bytes: b"deliver 18\nMessage-ID: <a@x>\ndeliver 18\nmessage-id: <c@x>\nREMOVE 1\nshow 2\nshow 1\ndeliver 18\nmessage-id: <c@x>\n",
        answers: b"1 ok 1 df7a16e6b23ee491f39d84e89298f10b0d4ae4e0\n1 ok 2 f4cd56120b7a68a2a06bec4088ccc24910532e06\n1 ok 1 df7a16e6b23ee491f39d84e89298f10b0d4ae4e0\ntext 19\nmessage-id: <c@x>\n\n7 not live 1\n2 duplicate 2\n",
        next: Next::Go,
    },
    Stream {
        bytes: b"deliver 18\nMessage-ID: <a@x>\nremove 1\nquit\nremove 1\n",
        answers: b"1 ok 1 df7a16e6b23ee491f39d84e89298f10b0d4ae4e0\n1 ok 1 df7a16e6b23ee491f39d84e89298f10b0d4ae4e0\n",
        next: Next::Close,
    },
];

/// Threads: lines that ask for one; three messages with a ghost, of which the third is then removed; a
/// loop of two; brothers under a ghost that a later message fills.
const THREADS: [Stream; 4] = [
    Stream {
        bytes: b"thread 0\nthread\nThread 7\nthread  1\nthread 2147483648\nthread 2147483647\n",
        answers: b"13 bad line\n13 bad line\n7 not live 7\n13 bad line\n13 bad line\n7 not live 2147483647\n",
        next: Next::Go,
    },
    Stream {
        bytes: b"deliver 56\nMessage-ID: <a@x>\nDate: Mon, 01 Jan 2024 00:00:01 +0000\ndeliver 56\nMessage-ID: <b@x>\nDate: Mon, 01 Jan 2024 00:00:02 +0000\ndeliver 86\nMessage-ID: <c@x>\nDate: Mon, 01 Jan 2024 00:00:03 +0000\nReferences: <g@x> <a@x> <b@x>\nthread 1\nremove 3\nthread 1\nthread 3\n",
        answers: b"1 ok 1 b4e0c83b1b8b4dee5d86b92b5661509c4a45047e\n1 ok 2 08b7b3f59647b9ebfeac5eb015a149dc99ef25aa\n1 ok 3 dafc0e9639a4ee7c8b86b2fd4b10c88d2ed45a74\nthread 4\n0 1 <a@x>\n0 2 <b@x>\n1 3 <c@x>\n0 - <g@x>\n1 ok 3 dafc0e9639a4ee7c8b86b2fd4b10c88d2ed45a74\nthread 1\n0 1 <a@x>\n7 not live 3\n",
        next: Next::Go,
    },
    Stream {
        bytes: b"deliver 74\nMessage-ID: <a@x>\nDate: Mon, 01 Jan 2024 00:00:01 +0000\nReferences: <b@x>\ndeliver 74\nMessage-ID: <b@x>\nDate: Mon, 01 Jan 2024 00:00:02 +0000\nReferences: <a@x>\ndeliver 74\nMessage-ID: <c@x>\nDate: Mon, 01 Jan 2024 00:00:03 +0000\nReferences: <b@x>\nthread 3\n",
        answers: b"1 ok 1 c21f0958db42c39d388243f9c9c0c8704a349c36\n1 ok 2 3c3fbe96b5960f62b4543b51f9b18d8c900c82e5\n1 ok 3 0ec5a126666861ae44ad9b2c9cdd7a84ee0875f7\nthread 3\n0 1 <a@x>\n0 2 <b@x>\n1 3 <c@x>\n",
        next: Next::Go,
    },
    Stream {
        bytes: b"deliver 56\nMessage-ID: <a@x>\nDate: Mon, 01 Jan 2024 00:00:01 +0000\ndeliver 74\nMessage-ID: <b@x>\nDate: Mon, 01 Jan 2024 00:00:02 +0000\nReferences: <q@x>\ndeliver 74\nMessage-ID: <c@x>\nDate: Mon, 01 Jan 2024 00:00:03 +0000\nReferences: <q@x>\nthread 2\ndeliver 56\nMessage-ID: <q@x>\nDate: Mon, 01 Jan 2024 00:00:04 +0000\nthread 2\nthread 1\n",
        answers: b"1 ok 1 b4e0c83b1b8b4dee5d86b92b5661509c4a45047e\n1 ok 2 9aa56c2f6de2d84feb2011d3e780fb80a4c74eba\n1 ok 3 cb76c6e18d2986dd48f1e300042451e7c8f0a19f\nthread 3\n0 - <q@x>\n1 2 <b@x>\n1 3 <c@x>\n1 ok 4 3a28f555a46765e50a5db419215ed12bb8be4ae6\nthread 3\n0 4 <q@x>\n1 2 <b@x>\n1 3 <c@x>\nthread 1\n0 1 <a@x>\n",
        next: Next::Go,
    },
];

/// Returns whether a stream cut in two at an offset is answered as its row says.
fn is_answered_cut(alloc: Global, stream: &Stream, at: usize) -> bool {
    match Connection::cut_at(alloc, stream.bytes, at) {
        Some(connection) => connection.was_answered(stream.answers, stream.next),
        None => false,
    }
}

/// Returns whether a stream that comes byte by byte is answered as its row says.
fn is_answered_by_bytes(alloc: Global, stream: &Stream) -> bool {
    let Some(mut connection) = Connection::new(alloc) else {
        return false;
    };
    for piece in stream.bytes.chunks(1) {
        connection.hear(piece);
    }
    connection.was_answered(stream.answers, stream.next)
}

/// Returns whether a stream is answered as its row says whole, byte by byte and cut in two at every
/// offset.
fn is_answered(alloc: Global, stream: &Stream) -> bool {
    for at in 0..stream.bytes.len() + 1 {
        if !is_answered_cut(alloc, stream, at) {
            return false;
        }
    }
    is_answered_by_bytes(alloc, stream)
}

#[test]
fn lines_are_answered_however_cut(rt: HostRuntime) {
    cut_laws();
    for stream in &LINES {
        assert!(rt; is_answered(rt.alloc(), stream), "{:?}", stream.bytes);
    }
}

#[test]
fn deliveries_are_answered_however_cut(rt: HostRuntime) {
    for stream in &DELIVERIES {
        assert!(rt; is_answered(rt.alloc(), stream), "{:?}", stream.bytes);
    }
}

#[test]
fn removals_are_answered_however_cut(rt: HostRuntime) {
    for stream in &REMOVALS {
        assert!(rt; is_answered(rt.alloc(), stream), "{:?}", stream.bytes);
    }
}

#[test]
fn threads_are_answered_however_cut(rt: HostRuntime) {
    for stream in &THREADS {
        assert!(rt; is_answered(rt.alloc(), stream), "{:?}", stream.bytes);
    }
}

/// Returns whether a mirror refuses commands and answers other lines.
fn mirror_is_answered(alloc: Global) -> bool {
    let Some(mut connection) = Connection::to_mirror(alloc) else {
        return false;
    };
    connection.hear(b"deliver 18\nMessage-ID: <a@x>\nremove 1\nremove 0\nshow 1\nepochs\n");
    connection.was_answered(
        b"9 is mirror\n9 is mirror\n13 bad line\n7 not live 1\nend\n",
        Next::Go,
    )
}

#[test]
fn a_mirror_takes_no_command(rt: HostRuntime) {
    assert!(rt; mirror_is_answered(rt.alloc()));
}

/// Returns whether an archive whose objects have ids of SHA-256 answers with ids of 64 digits.
fn sha_256_is_answered(alloc: Global) -> bool {
    let Some(mut connection) = Connection::to_sha_256(alloc) else {
        return false;
    };
    connection.hear(b"deliver 22\nMessage-ID: <a@x>\n\nhi\nshow 1\nremove 1\nshow 1\n");
    connection.was_answered(
        b"1 ok 1 15bce58c5843a3ca9a1c08c9be703e12d40296e11c477b13180bd883bbc3fd65\ntext 22\nMessage-ID: <a@x>\n\nhi\n1 ok 1 15bce58c5843a3ca9a1c08c9be703e12d40296e11c477b13180bd883bbc3fd65\n7 not live 1\n",
        Next::Go,
    )
}

#[test]
fn answers_have_the_digits_of_the_archives_form(rt: HostRuntime) {
    assert!(rt; sha_256_is_answered(rt.alloc()));
}

/// Lines without their line end, and their orders.
const ORDERS: [(&[u8], Order); 29] = [
    (b"deliver 0", Order::Deliver(0)),
    (b"dELIVER 9000000", Order::Deliver(9_000_000)),
    (b"deliver 9000001", Order::TooMuch),
    (b"deliver 18446744073709551616", Order::Bad),
    (b"show 1", Order::Show(1)),
    (b"sHOW 2147483647", Order::Show(2_147_483_647)),
    (b"show 0", Order::Bad),
    (b"remove 1", Order::Remove(1)),
    (b"REMOVE 2147483647", Order::Remove(2_147_483_647)),
    (b"remove 2147483648", Order::Bad),
    (b"remove", Order::Bad),
    (b"purge 1", Order::Purge(1)),
    (b"pURGE 2147483648", Order::Bad),
    (b"edit 1 0", Order::Edit(1, 0)),
    (
        b"EDIT 2147483647 9000000",
        Order::Edit(2_147_483_647, 9_000_000),
    ),
    (b"edit 7 9000001", Order::TooMuch),
    (b"edit 0 9000001", Order::Bad),
    (b"edit 7 18446744073709551616", Order::Bad),
    (b"edit 7", Order::Bad),
    (b"edit 7  1", Order::Bad),
    (b"thread 1", Order::Thread(1)),
    (b"tHREAD 2147483647", Order::Thread(2_147_483_647)),
    (b"thread 0", Order::Bad),
    (b"Epochs", Order::Epochs),
    (b"reindex", Order::Reindex),
    (b"REINDEX", Order::Reindex),
    (b"reindex 1", Order::Bad),
    (b"Quit", Order::Quit),
    (b"quit\r", Order::Bad),
];

#[test]
fn orders_are_read(rt: HostRuntime) {
    for (line, order) in &ORDERS {
        assert!(rt; read_order(line) == *order);
    }
}

/// The answer to two lines that are no orders.
const TWO_BAD_LINES: &[u8] = b"13 bad line\n13 bad line\n";

/// Returns whether a line of `len` bytes with its line feed, cut in two at an offset, and a line
/// feed after it get these answers.
fn long_line_is_answered(alloc: Global, len: usize, at: usize, answers: &[u8], next: Next) -> bool {
    let mut stream = [b'a'; 520];
    if len == 0 || len > 513 {
        return false;
    }
    stream[len - 1] = b'\n';
    stream[len] = b'\n';
    match Connection::cut_at(alloc, &stream, at) {
        Some(connection) => connection.was_answered(answers, next),
        None => false,
    }
}

/// Returns whether lines of 511 and of 512 bytes are read and a line of 513 bytes closes the
/// connection, each cut in two at an offset.
fn long_lines_are_answered(alloc: Global, at: usize) -> bool {
    let shorter = long_line_is_answered(alloc, 511, at, TWO_BAD_LINES, Next::Go);
    let longest = long_line_is_answered(alloc, 512, at, TWO_BAD_LINES, Next::Go);
    let longer = long_line_is_answered(alloc, 513, at, b"13 bad line\n", Next::Close);
    shorter && longest && longer
}

#[test]
fn lines_have_at_most_512_bytes(rt: HostRuntime) {
    for at in [0, 1, 300, 510, 511, 512, 513, 514, 520] {
        assert!(rt; long_lines_are_answered(rt.alloc(), at), "cut at {at}");
    }
}

/// Returns whether 511 bytes without a line feed, cut in two at an offset, get no answer, and one
/// byte more closes the connection.
fn closes_at_512_bytes(alloc: Global, at: usize) -> bool {
    let Some(mut connection) = Connection::cut_at(alloc, &[b'a'; 511], at) else {
        return false;
    };
    let waits = connection.was_answered(b"", Next::Go);
    connection.hear(b"a");
    waits && connection.was_answered(b"13 bad line\n", Next::Close)
}

#[test]
fn a_line_is_too_long_at_512_bytes(rt: HostRuntime) {
    for at in [0, 1, 511] {
        assert!(rt; closes_at_512_bytes(rt.alloc(), at), "cut at {at}");
    }
}
