//! Headers of entities and what they say, worked out by hand from RFC 2045 and RFC 2183, with ample
//! memory.
use crate::shown_parts::heading;
use arch_base::{Bytes, NoMemory};
use fixtures::{BytesCase, cases};
use std::alloc::Global;

/// Headers, and what they say as `heading` writes it.
const HEADERS: [BytesCase; 34] = cases![
    // Types and parameters.
    b"" => b"text/plain plain 7bit",
    b"Content-Type: Text/HTML; Charset=UTF-8\n" => b"text/html|charset|UTF-8 plain 7bit",
    b"CONTENT-TYPE: a/b\nContent-Type: c/d\n" => b"a/b plain 7bit",
    b"Content-Type: ?\nContent-Type: a/b\n" => b"text/plain plain 7bit",
    b"Content-Type: a/b;\n" => b"a/b plain 7bit",
    b"Content-Type: a/b;;;\n" => b"a/b plain 7bit",
    b"Content-Type: a/b; (c)\n" => b"a/b plain 7bit",
    b"Content-Type: a/b; ;charset=x\n" => b"a/b|charset|x plain 7bit",
    b"Content-Type: a/b; n=1; N=2;\n" => b"a/b|n|1|n|2 plain 7bit",
    b"Content-Type: a/b;\n\tn=1\n" => b"a/b|n|1 plain 7bit",
    b"Content-Type: a.!#$%&'*+-^_`{|}~/9; n~=Z9\n" => b"a.!#$%&'*+-^_`{|}~/9|n~|Z9 plain 7bit",
    // Comments and quoted strings.
    b"Content-Type: a (x) / (y(z)) b (\\)) ; n (c) = (d) \"v;\\\"w\" (e)\n"
        => b"a/b|n|v;\"w plain 7bit",
    b"Content-Type: text/html (x; a=b\n" => b"text/html plain 7bit",
    b"Content-Type: a/b; n=\"B\n" => b"a/b|n|B plain 7bit",
    b"Content-Type: a/b; n=\"B\\\n" => b"a/b|n|B plain 7bit",
    b"Content-Type: a/b; n=\"\"\n" => b"a/b|n| plain 7bit",
    b"Content-Type: a/b; n=\"x\ty(z)\"\n" => b"a/b|n|x y(z) plain 7bit",
    b"Content-Type: (\"(\\(a/b) (\") c/d\n" => b"text/plain plain 7bit",
    b"Content-Type: (\")c/d\n" => b"c/d plain 7bit",
    // Encodings.
    b"Content-Transfer-Encoding: BASE64\n" => b"text/plain base64 base64",
    b"Content-Transfer-Encoding: (c) base64;\n" => b"text/plain base64 base64",
    b"Content-Transfer-Encoding: Quoted-Printable x\n" => b"text/plain quoted quoted-printable",
    b"Content-Transfer-Encoding: x-uuencode\n" => b"text/plain plain x-uuencode",
    b"Content-Transfer-Encoding: base64x\n" => b"text/plain plain base64x",
    b"Content-Transfer-Encoding: \"base64\"\n" => b"text/plain plain 7bit",
    b"Content-Transfer-Encoding: ;base64\n" => b"text/plain plain 7bit",
    b"Content-Transfer-Encoding:\nContent-Transfer-Encoding: base64\n" => b"text/plain plain 7bit",
    // Attachments.
    b"Content-Disposition: attachment; filename=x\n" => b"text/plain plain 7bit attached",
    b"content-disposition: ATTACHMENTs\n" => b"text/plain plain 7bit attached",
    b"Content-Disposition: inline\nContent-Disposition: attachment\n"
        => b"text/plain plain 7bit attached",
    b"Content-Disposition: (c)attachment\n" => b"text/plain plain 7bit",
    b"Content-Disposition: attach\n ment\n" => b"text/plain plain 7bit",
    b"Content-Disposition: attach\n" => b"text/plain plain 7bit",
    // The type alone changes of an entity that isn't divided.
    b"Content-Type: multipart/m; n=1\nContent-Disposition: attachment\n"
        => b"application/octet-stream|n|1 plain 7bit attached",
];

/// Values of Content-Type that can't be read.
const UNREADABLE: [&[u8]; 24] = [
    b"text/html; charset",
    b"text/html; charset=",
    b"text/html; x;",
    b"a/b; c=d=e",
    b"text/html charset=x",
    b"text/html; name=\xE9.txt",
    b"text/html; n=v w",
    b"text/html; n=\"v\"w",
    b"text/html; n=\"v\"\"w\"",
    b"text/html; \"n\"=v",
    b"text/html; =v",
    b"text/html x",
    b"text/html/x",
    b"text/html, c=d",
    b";text/html",
    b"text;/html",
    b"text/;html",
    b"text/",
    b"/html",
    b"text",
    b"\"text\"/html",
    b"text/\"html\"",
    b"(text/html",
    b"text/html\\",
];

/// Returns whether a header says this.
fn says(alloc: Global, header: &[u8], wanted: &[u8]) -> Result<bool, NoMemory> {
    let shown = heading(alloc, header)?;
    Ok(shown.as_slice() == wanted)
}

/// Returns whether a value of Content-Type is as none.
fn is_unreadable(alloc: Global, value: &[u8]) -> Result<bool, NoMemory> {
    let mut header = Bytes::new(alloc);
    header.push_slice(b"Content-Type: ")?;
    header.push_slice(value)?;
    says(alloc, header.as_slice(), b"text/plain plain 7bit")
}

#[test]
fn headers_are_read(rt: HostRuntime) -> Result<(), NoMemory> {
    for case in &HEADERS {
        assert!(rt; says(rt.alloc(), case.given, case.wanted)?);
    }
    Ok(())
}

#[test]
fn other_values_are_text(rt: HostRuntime) -> Result<(), NoMemory> {
    for value in &UNREADABLE {
        assert!(rt; is_unreadable(rt.alloc(), value)?);
    }
    Ok(())
}
