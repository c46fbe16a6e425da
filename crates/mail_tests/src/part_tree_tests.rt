//! Mails and their entities, worked out by hand from RFC 2045 and RFC 2046, with ample memory.
use crate::shown_parts::{entities, pieces};
use arch_base::{Bytes, NoMemory};
use fixtures::{BytesCase, cases};
use std::alloc::Global;

/// The header of a multipart, and the empty line after it.
const HEADER: &[u8] = b"Content-Type: multipart/m; boundary=B\n\n";

/// Bodies of that multipart, and the entities below it as `pieces` writes them.
const BODIES: [BytesCase; 32] = cases![
    // Delimiter lines and closing lines.
    b"--B\n\nhi\n--B--\n" => b"2[|hi]",
    b"--B\n\nhi\n" => b"2[|hi\n]",
    b"--B \t\n\na\n--B-- \t\n" => b"2[|a]",
    b"--B\n\na\n--B" => b"2[|a]2[|]",
    b"--B--\n--B\n\na\n" => b"",
    b"a\n-B\n" => b"",
    b"" => b"",
    b"--B" => b"2[|]",
    b"--B\n--B--" => b"2[|]",
    b"pre\n--B\n\na\n--B--\npost\n--B\n\nb\n" => b"2[|a]",
    b"--B\n--B\n\na\n" => b"2[|]2[|a\n]",
    // Lines that are none.
    b"--BB\n--B\n\na\n--Bx\n--B-\n--B--\n" => b"2[|a\n--Bx\n--B-]",
    b"--B\n\na\n--B--x\n--B--" => b"2[|a\n--B--x]",
    b"--B\r\n--B\n\na\r\n--B--\n" => b"2[|a\r]",
    b"---B\n --B\n--B\n\na\n" => b"2[|a\n]",
    b"--b\n--B\n\na\n-- B\n" => b"2[|a\n-- B\n]",
    // Headers and bodies of parts.
    b"--B\nContent-Type: text/html\n--B--\n" => b"2[Content-Type: text/html|]",
    b"--B\nA: b\nc\n--B--\n" => b"2[A: b\n|c]",
    b"--B\nA: b\n\n--B--\n" => b"2[A: b\n|]",
    b"--B\nA: b\n\n\n--B--\n" => b"2[A: b\n|]",
    b"--B\n\n\na\n--B--\n" => b"2[|\na]",
    b"--B\n\n--B--\n" => b"2[|]",
    b"--B\na\n\n--B--\n" => b"2[|a\n]",
    b"--B\nA: b\n c\n\nd\n--B--\n" => b"2[A: b\n c\n|d]",
    b"--B\n a\n--B--\n" => b"2[| a]",
    // Parts with parts.
    b"--B\nContent-Type: multipart/m; boundary=C\n\n--C\n\nx\n--C--\n--B--\n"
        => b"2[Content-Type: multipart/m; boundary=C\n|--C\n\nx\n--C--]3[|x]",
    b"--B\nContent-Type: multipart/m; boundary=B\n\n--B\n\nx\n--B--\n"
        => b"2[Content-Type: multipart/m; boundary=B\n|]2[|x]",
    b"--B\nContent-Type: multipart/m; boundary=BB\n\n--BB\nx\n--B\ny\n--BB\n--B--\n"
        => b"2[Content-Type: multipart/m; boundary=BB\n|--BB\nx]3[|x]2[|y\n--BB]",
    b"--B\nContent-Type: message/rfc822\n\nSubject: s\n\nhi\n--B--\n"
        => b"2[Content-Type: message/rfc822\n|Subject: s\n\nhi]3[Subject: s\n|hi]",
    b"--B\nContent-Type: message/rfc822\nContent-Transfer-Encoding: base64\n\nQQ==\n--B--\n"
        => b"2[Content-Type: message/rfc822\nContent-Transfer-Encoding: base64\n|QQ==]",
    b"--B\nContent-Type: message/partial\n\nSubject: s\n--B--\n"
        => b"2[Content-Type: message/partial\n|Subject: s]",
    b"--B\nContent-Type: message/rfc822\n--B--\n" => b"2[Content-Type: message/rfc822|]3[|]",
];

/// Mails, and their entities as `entities` writes them.
const MAILS: [BytesCase; 12] = cases![
    b"" => b"1 leaf text/plain 0-0 0-0\n",
    b"\n" => b"1 leaf text/plain 0-0 1-1\n",
    b"A: b" => b"1 leaf text/plain 0-4 4-4\n",
    b"Subject: w\nMessage-ID: <w@x>\nContent-Type: multipart/mixed; boundary=B\n\n--B\n\
        Content-Type: text/plain\n\nhi\n--B--"
        => b"1 multipart multipart/mixed 0-71 72-110\n2 leaf text/plain 76-101 102-104\n",
    b"Content-Type: multipart/digest; boundary=B\n\n--B\n\nSubject: s\n\nx\n--B\n\
        Content-Type: text/plain\n\ny\n--B\nContent-Type: ?\n\nz\n--B--\n"
        => b"1 multipart multipart/digest 0-43 44-124\n2 message message/rfc822 48-48 49-62\n\
        3 leaf text/plain 49-60 61-62\n2 leaf text/plain 67-92 93-94\n\
        2 message message/rfc822 99-115 116-117\n3 leaf text/plain 116-116 116-117\n",
    b"Content-Type: multipart/digest; boundary=B\n\n--B\nContent-Type: multipart/m; boundary=C\n\n\
        --C\nx\n--C--\n--B--\n"
        => b"1 multipart multipart/digest 0-43 44-105\n2 multipart multipart/m 48-86 87-98\n\
        3 leaf text/plain 91-91 91-92\n",
    b"Content-Type: multipart/mixed\n\nx\n" => b"1 leaf application/octet-stream 0-30 31-33\n",
    b"Content-Type: multipart/; boundary=B\n\n--B\n" => b"1 leaf text/plain 0-37 38-42\n",
    b"Content-Type: message/rfc822\n\nContent-Type: message/rfc822\n\nhi\n"
        => b"1 message message/rfc822 0-29 30-63\n2 message message/rfc822 30-59 60-63\n\
        3 leaf text/plain 60-60 60-63\n",
    b"Content-Type: multipart/m; boundary=\"B \"\n\n--B\n--B \nx\n--B --\n"
        => b"1 multipart multipart/m 0-41 42-60\n2 leaf text/plain 51-51 51-52\n",
    b"Content-Type: multipart/m; boundary=B\nContent-Transfer-Encoding: base64\n\n--B\nx\n--B--\n"
        => b"1 multipart multipart/m 0-72 73-85\n2 leaf text/plain 77-77 77-78\n",
    b"Content-Type: MULTIPART/M; BOUNDARY=B\n\n--B\nx"
        => b"1 multipart multipart/m 0-38 39-44\n2 leaf text/plain 43-43 43-44\n",
];

/// Returns whether a multipart with a body has these entities below it.
fn has_pieces(alloc: Global, body: &[u8], wanted: &[u8]) -> Result<bool, NoMemory> {
    let mut text = Bytes::new(alloc);
    text.push_slice(HEADER)?;
    text.push_slice(body)?;
    let shown = pieces(alloc, text.as_slice())?;
    Ok(shown.as_slice() == wanted)
}

/// Returns whether a mail has these entities.
fn has_entities(alloc: Global, text: &[u8], wanted: &[u8]) -> Result<bool, NoMemory> {
    let shown = entities(alloc, text)?;
    Ok(shown.as_slice() == wanted)
}

#[test]
fn bodies_are_divided(rt: HostRuntime) -> Result<(), NoMemory> {
    for case in &BODIES {
        assert!(rt; has_pieces(rt.alloc(), case.given, case.wanted)?);
    }
    Ok(())
}

#[test]
fn mails_are_visited(rt: HostRuntime) -> Result<(), NoMemory> {
    for case in &MAILS {
        assert!(rt; has_entities(rt.alloc(), case.given, case.wanted)?);
    }
    Ok(())
}
