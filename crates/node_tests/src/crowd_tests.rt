//! More connections than there may be sessions.
use crate::served::served_plain;
use arch_base::Bytes;
use edge_io::MemHost;
use node_serve::count_law;
use std::alloc::Global;

/// The first connection. All have three digits.
const FIRST: u32 = 100;

/// The 256th and the 257th.
const LAST: u32 = FIRST + 255;

const LATE: u32 = FIRST + 256;

/// Appends the line at which a connection of three digits opens at a door.
fn push_opening(text: &mut Bytes, conn: u32, door: &[u8]) -> Option<()> {
    text.push_slice(b"1 o ").ok()?;
    push_digit(text, conn / 100)?;
    push_digit(text, conn / 10)?;
    push_digit(text, conn)?;
    text.push(b' ').ok()?;
    text.push_slice(door).ok()?;
    text.push(b'\n').ok()
}

/// Appends the last digit of a number.
fn push_digit(text: &mut Bytes, number: u32) -> Option<()> {
    text.push(b'0' + (number % 10) as u8).ok()
}

/// Returns the script in which 256 connections open at the control door, and then one more at a
/// door.
fn crowd(alloc: Global, door: &[u8]) -> Option<Bytes> {
    let mut text = Bytes::new(alloc);
    for conn in FIRST..LATE {
        push_opening(&mut text, conn, b"control")?;
    }
    push_opening(&mut text, LATE, door)?;
    Some(text)
}

/// Serves that script, and then more of it, and returns the host.
fn crowded(alloc: Global, door: &[u8], more: &[u8]) -> Option<MemHost> {
    let mut text = crowd(alloc, door)?;
    text.push_slice(more).ok()?;
    let (_end, host) = served_plain(alloc, text.as_slice(), &[])?;
    Some(host)
}

/// Returns whether the 257th connection gets its door's word and is closed, and no other is.
fn is_refused(alloc: Global, door: &[u8], word: &[u8]) -> bool {
    match crowded(alloc, door, b"") {
        None => false,
        Some(host) => {
            host.taken(LATE) == word
                && host.is_closed(LATE)
                && !host.is_closed(LAST)
                && host.taken(LAST).is_empty()
        }
    }
}

#[test]
fn the_257th_session_is_refused(rt: HostRuntime) {
    assert!(rt; is_refused(rt.alloc(), b"control", b"14 busy\n"));
    assert!(rt; is_refused(rt.alloc(), b"nntp", b"400 busy\r\n"));
    assert!(rt; is_refused(rt.alloc(), b"imap", b"* BYE busy\r\n"));
}

/// What the 257th connection gets at the door of pages, at the moment of its opening.
const BUSY_PAGE: &[u8] =
    b"HTTP/1.1 429 Too Many Requests\r\nDate: Thu, 01 Jan 1970 00:00:01 GMT\r\nContent-Type: text/plain; charset=utf-8\r\nContent-Length: 5\r\nConnection: close\r\n\r\nbusy\n";

#[test]
fn the_257th_session_is_refused_at_the_door_of_pages(rt: HostRuntime) {
    assert!(rt; is_refused(rt.alloc(), b"http", BUSY_PAGE));
}

/// Returns whether a place is free again once a session ended, and one that opens again takes none.
fn has_place(alloc: Global) -> bool {
    match crowded(alloc, b"nntp", b"2 o 100 nntp\n2 e 101\n2 o 700 nntp\n") {
        None => false,
        Some(host) => {
            host.taken(100) == b"201 piv2 reader\r\n".as_slice()
                && host.taken(700) == b"201 piv2 reader\r\n".as_slice()
        }
    }
}

#[test]
fn a_session_that_ends_leaves_its_place(rt: HostRuntime) {
    count_law();
    assert!(rt; has_place(rt.alloc()));
}
