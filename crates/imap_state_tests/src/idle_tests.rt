//! What a session says while it idles.
use crate::client::Client;
use arch_model::Next;
use imap_states::StateCommand;
use std::alloc::Global;

/// The reply to SELECT of the second mailbox.
const SELECTED: &[u8] =
    b"* FLAGS ()\r\n* 1 EXISTS\r\n* 0 RECENT\r\n* OK [UIDVALIDITY 7] uidvalidity\r\n* OK [UIDNEXT 4] uidnext\r\n* OK [PERMANENTFLAGS ()] no flags\r\na OK [READ-ONLY] SELECT done\r\n";

/// Returns a client that has selected the second mailbox, which has the message 3, and idles.
fn idling(alloc: Global) -> Option<Client> {
    let mut client = Client::to_three(alloc)?;
    if !client.asks(StateCommand::Login, b"a OK LOGIN done\r\n", Next::Go) {
        return None;
    }
    if !client.asks(StateCommand::Select(b"list.1"), SELECTED, Next::Go) {
        return None;
    }
    if client.asks(StateCommand::Idle, b"+ idling\r\n", Next::Go) && client.is_idle() {
        Some(client)
    } else {
        None
    }
}

/// Returns whether an update tells a removal and a delivery once, and `DONE` ends the idling.
fn is_told_once(alloc: Global) -> Option<bool> {
    let mut client = idling(alloc)?;
    let removed = client.is_updated(b"")
        && client.remove(3)
        && client.is_updated(b"* 1 EXPUNGE\r\n")
        && client.is_updated(b"");
    let delivered = client.deliver(b"Message-ID: <d@x>\n\n4\n")
        && client.is_updated(b"* 1 EXISTS\r\n")
        && client.ends(true, b"a OK IDLE done\r\n");
    Some(removed && delivered)
}

#[test]
fn an_update_tells_once(rt: HostRuntime) {
    assert!(rt; is_told_once(rt.alloc()) == Some(true));
}

/// Returns whether another line ends the idling, after what an update would tell.
fn ends_by_a_line(alloc: Global) -> Option<bool> {
    let mut client = idling(alloc)?;
    Some(client.remove(3) && client.ends(false, b"* 1 EXPUNGE\r\na BAD syntax\r\n"))
}

#[test]
fn another_line_ends_the_idling(rt: HostRuntime) {
    assert!(rt; ends_by_a_line(rt.alloc()) == Some(true));
}

/// Returns whether a line that is too long tells of changes only while the session idles.
fn tells_before_the_end(alloc: Global) -> Option<bool> {
    let mut client = idling(alloc)?;
    let mut other = Client::to_three(alloc)?;
    Some(
        client.remove(3)
            && client.is_too_long(b"* 1 EXPUNGE\r\n* BYE command too long\r\n")
            && other.is_too_long(b"* BYE command too long\r\n"),
    )
}

#[test]
fn a_line_that_is_too_long_tells_first(rt: HostRuntime) {
    assert!(rt; tells_before_the_end(rt.alloc()) == Some(true));
}
