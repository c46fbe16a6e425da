//! Streams to an archive whose disk fails or is damaged. A stale keeper is reopened before the next
//! whole request, and not before a part of one.
use crate::connection::archive;
use arch_base::Numbers;
use arch_model::Next;
use archive_fixtures::{Failing, FailingKeep, Unread};
use control_door::Session;
use edge_io::MemSink;
use std::alloc::Global;

/// A stream that comes in one piece, and what it gets from a keeper that fails.
struct Stream {
    bytes: &'static [u8],
    /// The call that fails.
    failing: Failing,
    answers: &'static [u8],
    /// Whether the connection then continues.
    next: Next,
}

/// Streams to keepers that fail.
const STREAMS: [Stream; 22] = [
    Stream {
        bytes: b"deliver 18\nMessage-ID: <a@x>\nshow 1\n",
        failing: Failing::Command(false),
        answers: b"10 disk fault\n7 not live 1\n",
        next: Next::Go,
    },
    Stream {
        bytes: b"deliver 18\nMessage-ID: <a@x>\nshow 1\n",
        failing: Failing::Command(true),
        answers: b"10 disk fault\ntext 19\nMessage-ID: <a@x>\n\n",
        next: Next::Go,
    },
    Stream {
        bytes: b"deliver 18\nMessage-ID: <a@x>\nshow 1\nshow 1\n",
        failing: Failing::Opening,
        answers: b"10 disk fault\n10 disk fault\n",
        next: Next::Close,
    },
    Stream {
        bytes: b"deliver 18\nMessage-ID: <a@x>\nx\n",
        failing: Failing::OpeningWithoutMemory,
        answers: b"10 disk fault\n12 no memory\n",
        next: Next::Close,
    },
    Stream {
        bytes: b"deliver 18\nMessage-ID: <a@x>\nquit\n",
        failing: Failing::Opening,
        answers: b"10 disk fault\n10 disk fault\n",
        next: Next::Close,
    },
    Stream {
        bytes: b"deliver 18\nMessage-ID: <a@x>\ndeliver 1\nxdeliver 1\nx",
        failing: Failing::Opening,
        answers: b"10 disk fault\n10 disk fault\n",
        next: Next::Close,
    },
    Stream {
        bytes: b"deliver 18\nMessage-ID: <a@x>\n",
        failing: Failing::Opening,
        answers: b"10 disk fault\n",
        next: Next::Go,
    },
    Stream {
        bytes: b"deliver 18\nMessage-ID: <a@x>\nshow 1",
        failing: Failing::Opening,
        answers: b"10 disk fault\n",
        next: Next::Go,
    },
    Stream {
        bytes: b"deliver 18\nMessage-ID: <a@x>\ndeliver 3\nxy",
        failing: Failing::Opening,
        answers: b"10 disk fault\n",
        next: Next::Go,
    },
    Stream {
        bytes: b"x\nshow 1\nepochs\nx\n",
        failing: Failing::Opening,
        answers: b"13 bad line\n7 not live 1\nend\n13 bad line\n",
        next: Next::Go,
    },
    Stream {
        bytes: b"deliver 18\nMessage-ID: <a@x>\nshow 1\nshow 2\n",
        failing: Failing::Text(Unread::Fault, 1),
        answers: b"1 ok 1 df7a16e6b23ee491f39d84e89298f10b0d4ae4e0\n10 disk fault\n7 not live 2\n",
        next: Next::Go,
    },
    Stream {
        bytes: b"epochs\nshow 1\n",
        failing: Failing::Epoch(Unread::Fault),
        answers: b"10 disk fault\n7 not live 1\n",
        next: Next::Go,
    },
    Stream {
        bytes: b"remove 1\nshow 1\n",
        failing: Failing::Command(false),
        answers: b"10 disk fault\n7 not live 1\n",
        next: Next::Go,
    },
    Stream {
        bytes: b"deliver 18\nMessage-ID: <a@x>\nremove 1\nshow 1\n",
        failing: Failing::Command(true),
        answers: b"10 disk fault\n10 disk fault\n7 not live 1\n",
        next: Next::Go,
    },
    Stream {
        bytes: b"remove 1\nremove 1\nshow 1\n",
        failing: Failing::Opening,
        answers: b"10 disk fault\n10 disk fault\n",
        next: Next::Close,
    },
    Stream {
        bytes: b"remove 1\nremove 1\n",
        failing: Failing::OpeningWithoutMemory,
        answers: b"10 disk fault\n12 no memory\n",
        next: Next::Close,
    },
    Stream {
        bytes: b"deliver 18\nMessage-ID: <a@x>\nshow 1\nshow 2\n",
        failing: Failing::Text(Unread::Damage, 1),
        answers: b"1 ok 1 df7a16e6b23ee491f39d84e89298f10b0d4ae4e0\n11 damaged df7a16e6b23ee491f39d84e89298f10b0d4ae4e0 1d023c572ccd6f3cc82ae855343346b043adaba5\n7 not live 2\n",
        next: Next::Go,
    },
    Stream {
        bytes: b"deliver 18\nMessage-ID: <a@x>\nepochs\nshow 2\n",
        failing: Failing::Epoch(Unread::Damage),
        answers: b"1 ok 1 df7a16e6b23ee491f39d84e89298f10b0d4ae4e0\n11 damaged df7a16e6b23ee491f39d84e89298f10b0d4ae4e0 1d023c572ccd6f3cc82ae855343346b043adaba5\n7 not live 2\n",
        next: Next::Go,
    },
    Stream {
        bytes: b"deliver 18\nMessage-ID: <a@x>\nshow 1\nshow 1\n",
        failing: Failing::OpeningWithoutArchive,
        answers: b"10 disk fault\n11 damaged root 0\n",
        next: Next::Close,
    },
    Stream {
        bytes: b"reindex\nshow 1\nx\n",
        failing: Failing::OpeningWithoutArchive,
        answers: b"11 damaged root 0\n11 damaged root 0\n",
        next: Next::Close,
    },
    Stream {
        bytes: b"deliver 18\nMessage-ID: <a@x>\nshow 1\nshow 1\n",
        failing: Failing::OpeningOfDamage,
        answers: b"11 damaged epoch 2 5\n11 damaged epoch 2 5\n",
        next: Next::Close,
    },
    Stream {
        bytes: b"reindex\nremove 1\nx\n",
        failing: Failing::OpeningOfDamage,
        answers: b"11 damaged epoch 2 5\n11 damaged epoch 2 5\n",
        next: Next::Close,
    },
];

/// Returns whether a stream is answered as its row says.
fn is_answered(alloc: Global, stream: &Stream) -> bool {
    let Some(archive) = archive(alloc) else {
        return false;
    };
    let mut keep = FailingKeep::new(archive, stream.failing);
    let mut session = Session::open(alloc);
    let mut out = MemSink::new(alloc, Numbers::new(alloc));
    let next = session.feed(stream.bytes, 1_706_781_700, &mut keep, &mut out);
    out.taken() == stream.answers && next == stream.next
}

#[test]
fn a_keeper_that_fails_is_told_and_reopened(rt: HostRuntime) {
    for stream in &STREAMS {
        assert!(rt; is_answered(rt.alloc(), stream), "{:?}", stream.bytes);
    }
}
