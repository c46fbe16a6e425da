//! An archive without messages, and one whose messages go while they are read.
use crate::connection::Connection;
use arch_model::Next;
use std::alloc::Global;

/// Returns whether commands to an archive without messages get these lines, after the greeting.
fn empty_answers(alloc: Global, stream: &[u8], lines: &[&[u8]]) -> Option<bool> {
    let mut connection = Connection::to_empty(alloc)?;
    connection.hear(stream);
    Some(connection.has_said(0, lines, Next::Go))
}

#[test]
fn an_archive_without_messages_is_read(rt: HostRuntime) {
    assert!(rt;
        empty_answers(
            rt.alloc(),
            b"GROUP list\nARTICLE\nNEXT\nARTICLE 1\nLISTGROUP\nOVER 1-\nLIST\n",
            &[
                b"201 piv2 reader",
                b"211 0 1 0 list",
                b"420 no current article",
                b"420 no current article",
                b"423 no such number",
                b"211 0 1 0 list list follows",
                b".",
                b"423 no such number",
                b"215 list follows",
                b"list 0 1 n",
                b".",
            ],
        ) == Some(true)
    );
}

/// Returns whether a current article that is removed is gone, and NEXT and LAST go on from it.
fn goes_on_from_a_gone_number(alloc: Global) -> Option<bool> {
    let mut connection = Connection::to_two(alloc)?;
    connection.hear(b"GROUP list\nSTAT\n");
    let removed = connection.remove(1);
    let before = connection.said();
    connection.hear(b"STAT\nOVER\nHDR Subject\nBODY\nNEXT\nLAST\n");
    let said = connection.has_said(
        before,
        &[
            b"420 no current article",
            b"420 no current article",
            b"420 no current article",
            b"420 no current article",
            b"223 3 <c@x>",
            b"422 no previous article",
        ],
        Next::Go,
    );
    Some(removed && said)
}

#[test]
fn reading_goes_on_from_a_gone_number(rt: HostRuntime) {
    assert!(rt; goes_on_from_a_gone_number(rt.alloc()) == Some(true));
}

/// Returns whether the number before a removed message is left when none is live after it.
fn gone_at_the_end(alloc: Global) -> Option<bool> {
    let mut connection = Connection::to_two(alloc)?;
    connection.hear(b"GROUP list\nSTAT 3\n");
    let removed = connection.remove(3);
    let before = connection.said();
    connection.hear(b"NEXT\nSTAT\nLAST\nGROUP list\n");
    let said = connection.has_said(
        before,
        &[
            b"421 no next article",
            b"420 no current article",
            b"223 1 <a@x>",
            b"211 1 1 3 list",
        ],
        Next::Go,
    );
    Some(removed && said)
}

#[test]
fn the_greatest_number_may_be_gone(rt: HostRuntime) {
    assert!(rt; gone_at_the_end(rt.alloc()) == Some(true));
}
