//! Values worked out by hand from RFC 2047 and RFC 4648, with ample memory.
use fixtures::{BytesCase, cases};
use mime_words::{decode, unbase64};
use std::alloc::Global;

/// Values, and the texts that are decoded from them.
const WORDS: [BytesCase; 12] = cases![
    b"" => b"",
    b"plain text" => b"plain text",
    b"=?utf-8?B?w6k=?=" => b"\xC3\xA9",
    b"=?utf-8?B?####?=" => b"",
    b"=?UTF-8?Q?Bj=C3=B6rn?=" => b"Bj\xC3\xB6rn",
    b"=?utf-8?Q??=" => b"",
    b"=?utf-8?Q?=XY=4?=" => b"=XY=4",
    b"=?iso-8859-1?Q?=E9_=e9?=" => b"\xC3\xA9 \xC3\xA9",
    b"=?ISO-8859-1?b?6Q?=" => b"\xC3\xA9",
    b"=?=?utf-8?Q?a?=" => b"=?a",
    b"a =?us-ascii?q?b?= c" => b"a b c",
    b"\xE9 =?utf-8?Q?=FF?=" => b"\xEF\xBF\xBD \xEF\xBF\xBD",
];

/// Values with encoded words beside each other, and the texts that are decoded from them.
const NEIGHBOURS: [BytesCase; 9] = cases![
    b"=?utf-8?Q?a?=   =?utf-8?q?b?= c" => b"ab c",
    b"=?utf-8?Q?a?=\t=?utf-8?Q?b?=" => b"a\tb",
    b"=?utf-8?Q?a?= \t=?utf-8?Q?b?=" => b"a \tb",
    b"=?utf-8?Q?a?==?us-ascii?Q?b?=" => b"ab",
    b"=?utf-8?Q?=C3?= =?UTF-8?B?qQ==?=" => b"\xC3\xA9",
    b"=?utf-8?Q?=C3?= =?us-ascii?Q?=A9?=" => b"\xEF\xBF\xBD\xEF\xBF\xBD",
    b"\xC3=?utf-8?Q?=A9?=" => b"\xEF\xBF\xBD\xEF\xBF\xBD",
    b"=?utf-8?Q?a?= =?koi8-r?Q?b?= =?utf-8?Q?c?=" => b"a =?koi8-r?Q?b?= c",
    b" =?utf-8?Q?a?= " => b" a ",
];

/// Values without an encoded word, some of which look like one.
const OTHER_VALUES: [&[u8]; 9] = [
    b"=?koi8-r?Q?a?=?utf-8?Q?b?=",
    b"=?utf-8*en?Q?a?=",
    b"=?utf-8?X?a?=",
    b"=??Q?a?=",
    b"=?utf-8?Q?a b?=",
    b"=?utf-8?Q?a\x7F?=",
    b"=?utf 8?Q?a?=",
    b"=?utf-8?Q?a?",
    b"=?utf-8?Q",
];

/// Base64 texts, and the bytes that they stand for.
const BASE64: [BytesCase; 12] = cases![
    b"" => b"",
    b"w6k=" => b"\xC3\xA9",
    b"####" => b"",
    b"YQ" => b"a",
    b"YQ==" => b"a",
    b"YR" => b"a",
    b"Y" => b"",
    b"YWI=" => b"ab",
    b"YW\nJj\r\n" => b"abc",
    b"YWI=YWI=" => b"ab",
    b"YWJjZ" => b"abc",
    b"+/8=" => b"\xFB\xFF",
];

/// Returns whether a value is decoded to a text.
fn is_decoded(alloc: Global, value: &[u8], text: &[u8]) -> bool {
    match decode(alloc, value) {
        Ok(decoded) => decoded.as_slice() == text,
        Err(_) => false,
    }
}

/// Returns whether a base64 text stands for bytes.
fn is_read(alloc: Global, text: &[u8], bytes: &[u8]) -> bool {
    match unbase64(alloc, text) {
        Ok(read) => read.as_slice() == bytes,
        Err(_) => false,
    }
}

#[test]
fn words_are_decoded(rt: HostRuntime) {
    for case in &WORDS {
        assert!(rt; is_decoded(rt.alloc(), case.given, case.wanted));
    }
}

#[test]
fn neighbours_are_joined(rt: HostRuntime) {
    for case in &NEIGHBOURS {
        assert!(rt; is_decoded(rt.alloc(), case.given, case.wanted));
    }
}

#[test]
fn other_text_stays(rt: HostRuntime) {
    for value in &OTHER_VALUES {
        assert!(rt; is_decoded(rt.alloc(), value, value));
    }
}

#[test]
fn base64_is_read(rt: HostRuntime) {
    for case in &BASE64 {
        assert!(rt; is_read(rt.alloc(), case.given, case.wanted));
    }
}
