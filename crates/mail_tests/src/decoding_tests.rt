//! Bodies and their decoded bytes, worked out by hand from RFC 2045, with ample memory.
use arch_base::{Bytes, NoMemory};
use fixtures::{BytesCase, cases};
use mime_parts::{decode_part, tree};
use std::alloc::Global;

/// Texts in quoted-printable, and the bytes that they encode.
const QUOTED: [BytesCase; 23] = cases![
    b"" => b"",
    b"a=3Db\n" => b"a=b\n",
    b"=e9=C3=A9" => b"\xE9\xC3\xA9",
    b"a=\nb" => b"ab",
    b"a= \t\nb" => b"ab",
    b"a \t\nb" => b"a\nb",
    b"a =\nb" => b"a b",
    b"=\n=\nx" => b"x",
    b"=20\n" => b" \n",
    b"=3D41" => b"=41",
    b"=3=\n41" => b"=341",
    b"a=" => b"a=",
    b"a \t" => b"a \t",
    b"a= " => b"a= ",
    b"=4" => b"=4",
    b"=XY=4\n" => b"=XY=4\n",
    b"==41" => b"=A",
    b"a==\nb" => b"a=b",
    b"a\r\n" => b"a\r\n",
    b"a=\r\nb" => b"a=\r\nb",
    b"a\n\n \nb" => b"a\n\n\nb",
    b"a_b" => b"a_b",
    b"\x00=00\xFF\n" => b"\x00\x00\xFF\n",
];

/// Texts in base64, and the bytes that they encode.
const BASE64: [BytesCase; 6] = cases![
    b"YWJj\nZGVm\n" => b"abcdef",
    b"w6k=" => b"\xC3\xA9",
    b"Y" => b"",
    b"YWJjZ" => b"abc",
    b"YQ==YQ==" => b"a",
    b"Y W J j!" => b"abc",
];

/// Returns whether the body of a mail in an encoding is decoded to bytes.
fn is_decoded(
    alloc: Global,
    encoding: &[u8],
    body: &[u8],
    wanted: &[u8],
) -> Result<bool, NoMemory> {
    let mut text = Bytes::new(alloc);
    text.push_slice(b"Content-Transfer-Encoding: ")?;
    text.push_slice(encoding)?;
    text.push_slice(b"\n\n")?;
    text.push_slice(body)?;
    let bytes = decode_first(alloc, text.as_slice())?;
    Ok(bytes.as_slice() == wanted)
}

/// Returns the decoded body of a mail.
fn decode_first(alloc: Global, text: &[u8]) -> Result<Bytes, NoMemory> {
    let parts = tree(alloc, text)?;
    for part in parts.as_slice() {
        return decode_part(alloc, text, part);
    }
    Ok(Bytes::new(alloc))
}

#[test]
fn quoted_printable_is_decoded(rt: HostRuntime) -> Result<(), NoMemory> {
    for case in &QUOTED {
        assert!(rt; is_decoded(rt.alloc(), b"quoted-printable", case.given, case.wanted)?);
    }
    Ok(())
}

#[test]
fn base64_is_decoded(rt: HostRuntime) -> Result<(), NoMemory> {
    for case in &BASE64 {
        assert!(rt; is_decoded(rt.alloc(), b"base64", case.given, case.wanted)?);
    }
    Ok(())
}

#[test]
fn other_bytes_are_themselves(rt: HostRuntime) -> Result<(), NoMemory> {
    for case in &QUOTED {
        assert!(rt; is_decoded(rt.alloc(), b"x-other", case.given, case.given)?);
    }
    Ok(())
}
