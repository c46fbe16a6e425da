//! Clients of an archive that others change. Each stage of a course comes whole, byte by byte, and cut in
//! two at every offset.
use crate::connection::Connection;
use arch_model::Next;
use std::alloc::Global;

/// How the bytes of a stage come.
#[derive(Clone, Copy, Drop)]
enum Cut {
    /// In two pieces, the first of which has so many bytes.
    At(usize),
    /// Byte by byte.
    Bytes,
}

/// More bytes than any stage has.
const MOST_BYTES: usize = 40;

/// Feeds the bytes of a stage.
fn hear(connection: &mut Connection, bytes: &[u8], cut: Cut) {
    match cut {
        Cut::At(at) => connection.hear_cut(bytes, at),
        Cut::Bytes => connection.hear_bytes(bytes),
    }
}

/// Opens a connection whose client has selected the mailbox of all three messages.
fn selected(alloc: Global, cut: Cut) -> Option<Connection> {
    let mut connection = Connection::to(alloc, 1000)?;
    hear(
        &mut connection,
        b"a1 LOGIN u p\r\na2 SELECT list.0\r\n",
        cut,
    );
    let is_told = connection.has_answered(
        &[
            b"a1 OK LOGIN done",
            b"* FLAGS ()",
            b"* 3 EXISTS",
            b"* 0 RECENT",
            b"* OK [UIDVALIDITY 1706780000] uidvalidity",
            b"* OK [UIDNEXT 4] uidnext",
            b"* OK [PERMANENTFLAGS ()] no flags",
            b"a2 OK [READ-ONLY] SELECT done",
        ],
        Next::Go,
    );
    if is_told { Some(connection) } else { None }
}

/// Returns whether a removal by others moves the sequence numbers only after NOOP.
fn is_told_at_noop(alloc: Global, cut: Cut) -> Option<bool> {
    let mut connection = selected(alloc, cut)?;
    let removed = connection.remove(2);
    let before = connection.said();
    hear(&mut connection, b"a3 FETCH 3 (UID)\r\n", cut);
    hear(&mut connection, b"b3 FETCH 2:3 (UID)\r\n", cut);
    hear(&mut connection, b"a4 NOOP\r\n", cut);
    hear(&mut connection, b"a5 FETCH 2 (UID)\r\n", cut);
    let said = connection.has_said(
        before,
        &[
            b"* 3 FETCH (UID 3)",
            b"a3 OK FETCH done",
            b"* 3 FETCH (UID 3)",
            b"b3 NO some are gone",
            b"* 2 EXPUNGE",
            b"a4 OK NOOP done",
            b"* 2 FETCH (UID 3)",
            b"a5 OK FETCH done",
        ],
        Next::Go,
    );
    Some(removed && said)
}

/// Returns whether an idling client is told a removal and a delivery by others at once, and only once.
fn is_told_while_idling(alloc: Global, cut: Cut) -> Option<bool> {
    let mut connection = selected(alloc, cut)?;
    let before = connection.said();
    hear(&mut connection, b"a3 IDLE\r\n", cut);
    let idles = connection.is_idle();
    let removed = connection.remove(2);
    connection.update();
    connection.update();
    let told = connection.has_said(before, &[b"+ idling", b"* 2 EXPUNGE"], Next::Go);
    let delivered = connection.deliver();
    connection.update();
    hear(&mut connection, b"DONE\r\n", cut);
    let said = connection.has_said(
        before,
        &[
            b"+ idling",
            b"* 2 EXPUNGE",
            b"* 3 EXISTS",
            b"a3 OK IDLE done",
        ],
        Next::Go,
    );
    Some(idles && removed && told && delivered && said && !connection.is_idle())
}

/// Returns whether the line that ends idling is answered after what an update would have told, and a
/// client that doesn't idle is told nothing by updates.
fn is_told_at_the_end(alloc: Global, cut: Cut) -> Option<bool> {
    let mut connection = selected(alloc, cut)?;
    let before = connection.said();
    let removed = connection.remove(1);
    connection.update();
    let alone = connection.has_said(before, &[], Next::Go);
    hear(&mut connection, b"a3 IDLE\r\nx\r\n", cut);
    let said = connection.has_said(
        before,
        &[b"+ idling", b"* 1 EXPUNGE", b"a3 BAD syntax"],
        Next::Go,
    );
    Some(removed && alone && said)
}

/// Returns whether all three courses go as they should, however their bytes are cut.
fn all_are_told(alloc: Global, cut: Cut) -> bool {
    let at_noop = is_told_at_noop(alloc, cut) == Some(true);
    let while_idling = is_told_while_idling(alloc, cut) == Some(true);
    let at_the_end = is_told_at_the_end(alloc, cut) == Some(true);
    at_noop && while_idling && at_the_end
}

#[test]
fn changes_by_others_are_told(rt: HostRuntime) {
    for at in 0..MOST_BYTES {
        assert!(rt; all_are_told(rt.alloc(), Cut::At(at)), "cut at {at}");
    }
    assert!(rt; all_are_told(rt.alloc(), Cut::Bytes));
}
