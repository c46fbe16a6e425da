//! Mails and the text of their bodies, worked out by hand, with ample memory.
use arch_base::NoMemory;
use fixtures::{BytesCase, cases};
use mime_parts::body_text;
use std::alloc::Global;

/// Mails, and the texts of their bodies.
const MAILS: [BytesCase; 17] = cases![
    b"A: b\n\nhi" => b"hi\n",
    b"A: b\n\nhi\n\n" => b"hi\n\n",
    b"A: b\n" => b"\n",
    b"" => b"\n",
    b"Content-Type: text/plain; charset=ISO-8859-1\n\n\xE9" => b"\xC3\xA9\n",
    b"Content-Type: text/plain; charset=koi8-r\n\n\xE9\xC3\xA9\n"
        => b"\xEF\xBF\xBD\xC3\xA9\n",
    b"Content-Type: text/plain; n=iso-8859-1\n\n\xE9\n" => b"\xEF\xBF\xBD\n",
    b"Content-Type: text/x; charset=iso-8859-1; charset=utf-8\n\
        Content-Transfer-Encoding: quoted-printable\n\n=E9=\n" => b"\xC3\xA9\n",
    b"Content-Transfer-Encoding: base64\n\nw6k=\n" => b"\xC3\xA9\n",
    b"Content-Type: image/png\nContent-Transfer-Encoding: base64\n\nAAAA\n"
        => b"[-- image/png, 3 bytes --]\n",
    b"Content-Disposition: attachment\n\nhi" => b"[-- text/plain, 2 bytes --]\n",
    b"Content-Type: multipart/m\n\n0123456789\n"
        => b"[-- application/octet-stream, 11 bytes --]\n",
    b"Content-Type: message/rfc822\nContent-Transfer-Encoding: base64\n\nQTogYg==\n"
        => b"[-- message/rfc822, 4 bytes --]\n",
    b"Content-Type: multipart/m; boundary=B\n\npre\n--B\n\na\n--B\nContent-Type: text/html\n\n<b>\n\
        --B\nContent-Type: x/y\n\n--B--\npost\n" => b"a\n<b>\n[-- x/y, 0 bytes --]\n",
    b"Content-Type: multipart/m; boundary=B\nContent-Disposition: attachment\n\n--B\n\na\n--B--\n"
        => b"a\n",
    b"Content-Type: message/rfc822\nContent-Disposition: attachment\n\nSubject: s\n\nb"
        => b"b\n",
    b"Content-Type: multipart/m; boundary=B\n\n--B\n--B--\n" => b"\n",
];

/// Returns whether a mail has this body text.
fn is_shown(alloc: Global, text: &[u8], wanted: &[u8]) -> Result<bool, NoMemory> {
    let shown = body_text(alloc, text)?;
    Ok(shown.as_slice() == wanted)
}

#[test]
fn bodies_are_shown(rt: HostRuntime) -> Result<(), NoMemory> {
    for case in &MAILS {
        assert!(rt; is_shown(rt.alloc(), case.given, case.wanted)?);
    }
    Ok(())
}
