//! Pages of messages.
use crate::rows::{is, list, row};
use arch_base::Bytes;
use fixtures::FIRST;
use html_pages::message_page;
use std::alloc::Global;

/// Returns the page of a message, by its text and the text of its body.
fn shown(alloc: Global, text: &[u8], body: &[u8]) -> Option<Bytes> {
    let row = row(alloc, text)?;
    let name = list()?;
    message_page(alloc, &name, &row, text, body).ok()
}

/// A mail, the text of its body, and its page.
#[derive(Drop)]
struct ShownMail {
    text: &'static [u8],
    body: &'static [u8],
    page: &'static [u8],
}

/// Mails with fields of all kinds.
static SHOWN: [ShownMail; 5] = [
    ShownMail {
        text: FIRST,
        body: b"one\n",
        page: b"<html><head><title>first</title></head><body><pre>From: Ann &lt;ann@example.org&gt;\nSubject: first\nDate: Thu, 1 Feb 2024 10:00:00 +0000\nMessage-ID: &lt;a@x&gt;\n\none\n\n<a href=\"/list/a@x/raw\">raw</a> <a href=\"/list/a@x/t/\">thread</a>\n</pre></body></html>\n",
    },
    ShownMail {
        text: b"From: Ann <ann@example.org>\nSubject: <b>&\nMessage-ID: <a@x>\n\n",
        body: b"\n",
        page: b"<html><head><title>&lt;b&gt;&amp;</title></head><body><pre>From: Ann &lt;ann@example.org&gt;\nSubject: &lt;b&gt;&amp;\nMessage-ID: &lt;a@x&gt;\n\n\n\n<a href=\"/list/a@x/raw\">raw</a> <a href=\"/list/a@x/t/\">thread</a>\n</pre></body></html>\n",
    },
    ShownMail {
        text: b"message-id: <n@x>\n\n",
        body: b"",
        page: b"<html><head><title>(no subject)</title></head><body><pre>Message-ID: &lt;n@x&gt;\n\n\n<a href=\"/list/n@x/raw\">raw</a> <a href=\"/list/n@x/t/\">thread</a>\n</pre></body></html>\n",
    },
    ShownMail {
        text: b"Subject:\nTO: one,\n two\nCc: =?iso-8859-1?Q?caf=E9?=\nMessage-ID: <e@x> and more\nTo: three\nX-Other: <hidden>\n\n",
        body: b"x\n",
        page: b"<html><head><title>(no subject)</title></head><body><pre>To: one, two\nCc: caf\xc3\xa9\nSubject: \nMessage-ID: &lt;e@x&gt; and more\n\nx\n\n<a href=\"/list/e@x/raw\">raw</a> <a href=\"/list/e@x/t/\">thread</a>\n</pre></body></html>\n",
    },
    ShownMail {
        text: b"Date: \xff\x00soon\nMessage-ID: <d@x>\n\n",
        body: b"a\r\n\x00\xff\xc3\xa9\xef\xbf\xbf\xc2\x85\n",
        page: b"<html><head><title>(no subject)</title></head><body><pre>Date: \xef\xbf\xbd soon\nMessage-ID: &lt;d@x&gt;\n\na\xef\xbf\xbd\n\xef\xbf\xbd\xef\xbf\xbd\xc3\xa9\xef\xbf\xbd\xc2\x85\n\n<a href=\"/list/d@x/raw\">raw</a> <a href=\"/list/d@x/t/\">thread</a>\n</pre></body></html>\n",
    },
];

#[test]
fn a_message_has_the_page_that_was_worked_out(rt: HostRuntime) {
    for case in &SHOWN {
        assert!(rt; is(shown(rt.alloc(), case.text, case.body), case.page));
    }
}
