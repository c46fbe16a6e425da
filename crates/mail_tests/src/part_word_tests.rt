//! Mails and their words, worked out by hand, with ample memory.
use mime_parts::words;
use std::alloc::Global;
use text_words::PackedWords;

/// A mail, and the words of its subject, of its first From field and of its text.
#[derive(Drop)]
struct MailCase {
    text: &'static [u8],
    subject: &'static [&'static [u8]],
    from: &'static [&'static [u8]],
    body: &'static [&'static [u8]],
}

/// Mails of all kinds.
static MAILS: [MailCase; 9] = [
    MailCase {
        text: b"From: Ann <ann@example.org>\nSubject: first\nMessage-ID: <a@x>\n\none\n",
        subject: &[b"first"],
        from: &[b"ann", b"example", b"org"],
        body: &[b"one"],
    },
    MailCase {
        text: b"",
        subject: &[],
        from: &[],
        body: &[],
    },
    MailCase {
        text: b"Subject: b a B\n c\nSubject: other\nFrom: x\nFrom: y\n\nz y\nz x y\n",
        subject: &[b"a", b"b", b"c"],
        from: &[b"x"],
        body: &[b"x", b"y", b"z"],
    },
    MailCase {
        text: b"Subject: =?UTF-8?B?w6k=?= =?us-ascii?Q?_one?=\nFrom: =?iso-8859-1?Q?J=F6rg?= <j@x>\n\n",
        subject: &[b"one", b"\xC3\xA9"],
        from: &[b"j", b"j\xC3\xB6rg", b"x"],
        body: &[],
    },
    MailCase {
        text: b"Content-Type: multipart/mixed; boundary=B\n\npre\n--B\n\none\n--B\nContent-Disposition: attachment\n\nhidden\n--B\nContent-Type: image/png\n\nimage\n--B\nContent-Type: text/html; charset=iso-8859-1\nContent-Transfer-Encoding: quoted-printable\n\ncaf=E9 <b>\n--B--\npost\n",
        subject: &[],
        from: &[],
        body: &[b"b", b"caf\xC3\xA9", b"one"],
    },
    MailCase {
        text: b"Content-Type: message/rfc822\n\nSubject: inner\nFrom: ann\n\ndeep\n",
        subject: &[],
        from: &[],
        body: &[b"deep"],
    },
    MailCase {
        text: b"Content-Transfer-Encoding: base64\n\nb25lIHR3bw==\n",
        subject: &[],
        from: &[],
        body: &[b"one", b"two"],
    },
    MailCase {
        text: b"Content-Type: multipart/mixed; boundary=B\n\n--B\n\none\n--B\n\ntwo\n--B--\n",
        subject: &[],
        from: &[],
        body: &[b"one", b"two"],
    },
    MailCase {
        text: b"Subject: x\n\n\xFF a\xC3\n",
        subject: &[b"x"],
        from: &[],
        body: &[b"a\xEF\xBF\xBD", b"\xEF\xBF\xBD"],
    },
];

/// Returns whether words are these.
fn are(words: &PackedWords, wanted: &[&[u8]]) -> bool {
    if words.len() != wanted.len() {
        return false;
    }
    for index in 0..words.len() {
        if words.get(index) != wanted[index] {
            return false;
        }
    }
    true
}

/// Returns whether a mail has its words.
fn has_words(alloc: Global, case: &MailCase) -> bool {
    match words(alloc, case.text) {
        Ok(found) => {
            are(&found.subject, case.subject)
                && are(&found.from, case.from)
                && are(&found.body, case.body)
        }
        Err(_) => false,
    }
}

#[test]
fn mails_have_their_words(rt: HostRuntime) {
    for case in &MAILS {
        assert!(rt; has_words(rt.alloc(), case));
    }
}
