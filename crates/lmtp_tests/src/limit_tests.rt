//! Data of up to 9,000,000 octets, and more; and 100 recipients, and more.
use crate::connection::Connection;
use arch_base::{Bytes, NoMemory};
use arch_model::Next;
use std::alloc::Global;
use std::test::Fail;

/// A transaction for one recipient up to its data.
const TO_ONE: &[u8] = b"LHLO c\r\nMAIL FROM:<x@y>\r\nRCPT TO:<list@h>\r\nDATA\r\n";

/// Returns a line of 1,000 octets with its end, which starts with a text and goes on with one byte.
fn line(alloc: Global, front: &[u8], byte: u8) -> Result<Bytes, NoMemory> {
    let mut line = Bytes::new(alloc);
    line.push_slice(front)?;
    for _ in 0..998_usize.saturating_sub(front.len()) {
        line.push(byte)?;
    }
    line.push_slice(b"\r\n")?;
    Ok(line)
}

/// Returns data of `len` octets, 1,000 at least, and the line that ends it: a field, and lines of dots,
/// each with one dot more that is dropped.
fn data(alloc: Global, len: usize) -> Result<Bytes, NoMemory> {
    let mut bytes = line(alloc, b"Subject: ", b'a')?;
    let dots = line(alloc, b"", b'.')?;
    let left = len.saturating_sub(1000);
    for _ in 0..left / 1000 {
        bytes.push(b'.')?;
        bytes.push_slice(dots.as_slice())?;
    }
    let last = left % 1000;
    if last > 0 {
        let start = 1000_usize.saturating_sub(last);
        bytes.push(b'.')?;
        bytes.push_slice(dots.as_slice().get(start..).unwrap_or(&[]))?;
    }
    bytes.push_slice(b".\r\n")?;
    Ok(bytes)
}

/// Returns whether data of so many octets gets this line, in pieces of 70,001 bytes.
fn is_answered(alloc: Global, len: usize, line: &[u8]) -> Result<bool, Fail> {
    let data = data(alloc, len)?;
    let mut connection = Connection::to_empty(alloc).ok_or("no archive")?;
    connection.hear(TO_ONE);
    let said = connection.said().len();
    for piece in data.as_slice().chunks(70_001) {
        connection.hear(piece);
    }
    Ok(connection.has_said_after(said, &[line], Next::Go))
}

#[test]
fn data_of_9000000_octets_is_read(rt: HostRuntime) -> Result<(), Fail> {
    assert!(rt; is_answered(rt.alloc(), 9_000_000, b"552 too large 9000000")?);
    Ok(())
}

#[test]
fn a_message_has_at_most_8388608_octets(rt: HostRuntime) -> Result<(), Fail> {
    assert!(rt; is_answered(rt.alloc(), 8_388_610, b"552 too large 8388610")?);
    Ok(())
}

#[test]
fn more_is_counted_and_not_delivered(rt: HostRuntime) -> Result<(), Fail> {
    assert!(rt; is_answered(rt.alloc(), 9_000_003, b"552 too large 9000003")?);
    assert!(rt; is_answered(rt.alloc(), 20_000_000, b"552 too large 20000000")?);
    Ok(())
}

/// Returns whether 100 of 101 recipients are accepted, and answered.
fn recipients_are_answered(alloc: Global) -> Option<bool> {
    let mut connection = Connection::to_empty(alloc)?;
    connection.hear(b"LHLO c\r\nMAIL FROM:<x@y>\r\n");
    let before = connection.said().len();
    for _ in 0..100 {
        connection.hear(b"RCPT TO:<list>\r\n");
    }
    let accepted = connection.said().len().saturating_sub(before);
    let said = connection.said().len();
    connection.hear(b"RCPT TO:<list>\r\nRCPT TO:<x>\r\nDATA\r\n");
    let refused = connection.has_said_after(
        said,
        &[
            b"452 too many recipients",
            b"452 too many recipients",
            b"354 go ahead",
        ],
        Next::Go,
    );
    let last = connection.said().len();
    connection.hear(b".\r\n");
    let answered = connection.said().len().saturating_sub(last);
    Some(accepted == 800 && refused && answered == 1500)
}

#[test]
fn a_transaction_has_at_most_100_recipients(rt: HostRuntime) {
    assert!(rt; recipients_are_answered(rt.alloc()) == Some(true));
}
