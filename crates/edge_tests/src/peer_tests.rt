//! Tests of the peer in memory: its replies in order, its faults, and the paths that it keeps.
use arch_base::{Bytes, NoMemory};
use edge_io::{MemPeer, Peer, PeerRefusal, Reply};
use std::alloc::Global;
use std::test::Fail;

/// A status and a body.
#[derive(Clone, Copy)]
struct Given {
    status: u16,
    body: &'static [u8],
}

/// A path that a peer is asked for, and the reply that it gives, or `None` for a fault.
#[derive(Clone, Copy)]
struct Exchange {
    path: &'static [u8],
    given: Option<Given>,
}

/// Replies with a fault between them.
const LISTED: [Exchange; 4] = [
    Exchange {
        path: b"/news/_/list",
        given: Some(Given {
            status: 200,
            body: b"one\ntwo\n",
        }),
    },
    Exchange {
        path: b"/news/_/blob/00",
        given: None,
    },
    Exchange {
        path: b"/news/_/blob/00",
        given: Some(Given {
            status: 404,
            body: b"",
        }),
    },
    Exchange {
        path: b"",
        given: Some(Given {
            status: 65_535,
            body: b"\x00\xff",
        }),
    },
];

/// What a peer is asked for past its list, in vain.
const PAST: [Exchange; 2] = [
    Exchange {
        path: b"/past/1",
        given: None,
    },
    Exchange {
        path: b"/past/2",
        given: None,
    },
];

/// Returns the answer that a peer is given for an exchange.
fn answer_of(alloc: Global, exchange: &Exchange) -> Result<Option<Reply>, NoMemory> {
    let Some(given) = exchange.given else {
        return Ok(None);
    };
    let mut body = Bytes::new(alloc);
    body.push_slice(given.body)?;
    Ok(Some(Reply {
        status: given.status,
        body,
    }))
}

/// Appends the answers of exchanges to those of a peer.
fn push_all(alloc: Global, peer: &mut MemPeer, exchanges: &[Exchange]) -> Result<(), NoMemory> {
    for exchange in exchanges {
        peer.push(answer_of(alloc, exchange)?)?;
    }
    Ok(())
}

/// Returns whether a peer answers a path as it should.
fn answers<P: Peer>(peer: &mut P, exchange: &Exchange) -> bool {
    match (peer.get(exchange.path), exchange.given) {
        (Ok(reply), Some(given)) => {
            reply.status == given.status && reply.body.as_slice() == given.body
        }
        (Err(refusal), None) => refusal == PeerRefusal::Fault,
        _ => false,
    }
}

/// Returns whether a peer answers all paths as it should, in order.
fn answers_all<P: Peer>(peer: &mut P, exchanges: &[Exchange]) -> bool {
    for exchange in exchanges {
        if !answers(peer, exchange) {
            return false;
        }
    }
    true
}

/// Returns whether the paths that a peer was asked for are those of exchanges, from an index on.
fn asked_from(peer: &MemPeer, index: usize, exchanges: &[Exchange]) -> bool {
    let asked = peer.asked().iter().skip(index);
    asked
        .zip(exchanges)
        .all(|(path, exchange)| path.as_slice() == exchange.path)
}

/// Returns a peer that has the answers of the list.
fn listed(alloc: Global) -> Result<MemPeer, NoMemory> {
    let mut peer = MemPeer::new(alloc);
    push_all(alloc, &mut peer, &LISTED)?;
    Ok(peer)
}

#[test]
fn a_peer_in_memory_gives_its_replies_in_order(rt: HostRuntime) -> Result<(), Fail> {
    let mut peer = listed(rt.alloc())?;
    assert!(rt; peer.asked().is_empty());
    assert!(rt; answers_all(&mut peer, &LISTED));
    assert!(rt; peer.starved() == 0);
    Ok(())
}

#[test]
fn past_its_list_a_peer_fails_until_it_has_more(rt: HostRuntime) -> Result<(), Fail> {
    let mut peer = MemPeer::new(rt.alloc());
    assert!(rt; answers_all(&mut peer, &PAST));
    push_all(rt.alloc(), &mut peer, &LISTED)?;
    assert!(rt; answers_all(&mut peer, &LISTED));
    assert!(rt; answers_all(&mut peer, &PAST));
    Ok(())
}

#[test]
fn a_peer_in_memory_keeps_each_path(rt: HostRuntime) -> Result<(), Fail> {
    let mut peer = listed(rt.alloc())?;
    let answered = answers_all(&mut peer, &LISTED) && answers_all(&mut peer, &PAST);
    assert!(rt; answered && peer.asked().len() == 6);
    assert!(rt; asked_from(&peer, 0, &LISTED) && asked_from(&peer, 4, &PAST));
    Ok(())
}
