//! Feeds, worked out from the rules.
ghost use Rattle.std.specs.Prelude.{IfSome};
ghost use Rattle.atom_mbox.specs.Feeds.{HasMoment};

use arch_base::{Bytes, Form, LAST_MOMENT, Name, NoMemory};
use atom_mbox::{Shown, feed, updated};
use mail_commits::text_ids;
use mail_reader::is_stored;
use mail_rows::row_of;
use std::alloc::Global;

/// A mail, when it arrived, the text of its body, and its entry in the feed of `list`.
#[derive(Drop)]
struct EntryCase {
    text: &'static [u8],
    arrived: u64,
    body: &'static [u8],
    entry: &'static [u8],
}

/// The lines before the entries, up to the moment.
const START: &[u8] =
    b"<?xml version=\"1.0\" encoding=\"utf-8\"?>\n<feed xmlns=\"http://www.w3.org/2005/Atom\">\n<title>list</title>\n<id>mid:list@piv2.invalid</id>\n<updated>";

/// Mails of all kinds.
static ENTRIES: [EntryCase; 6] = [
    EntryCase {
        text: b"From: Ann <ann@example.org>\nDate: Thu, 1 Feb 2024 10:00:00 +0000\nSubject: first\nMessage-ID: <a@x>\n\none\n",
        arrived: 1_706_781_700,
        body: b"one\n",
        entry: b"<entry><author><name>Ann</name></author><title>first</title><id>mid:a@x</id><updated>2024-02-01T10:01:40Z</updated><link href=\"/list/a@x/\"/><content type=\"text\">one\n</content></entry>\n",
    },
    EntryCase {
        text: b"Message-ID: <n@x>\n\n",
        arrived: 0,
        body: b"\n",
        entry: b"<entry><author><name>unknown</name></author><title>(no subject)</title><id>mid:n@x</id><updated>1970-01-01T00:00:00Z</updated><link href=\"/list/n@x/\"/><content type=\"text\">\n</content></entry>\n",
    },
    EntryCase {
        text: b"From: \"A & B\" <x@y>\nSubject: <b>]]>\nMessage-ID: <a+b/c%&'d@x>\n\nbody\n",
        arrived: 253_402_300_799,
        body: b"]]> \x00\x1b\xef\xbf\xbe\xff &lt;\n",
        entry: b"<entry><author><name>A &amp; B</name></author><title>&lt;b&gt;]]&gt;</title><id>mid:a%2Bb%2Fc%25%26%27d@x</id><updated>9999-12-31T23:59:59Z</updated><link href=\"/list/a%2Bb%2Fc%25%26%27d@x/\"/><content type=\"text\">]]&gt; \xef\xbf\xbd\xef\xbf\xbd\xef\xbf\xbd\xef\xbf\xbd &amp;lt;\n</content></entry>\n",
    },
    EntryCase {
        text: b"From: =?UTF-8?Q?Bj=C3=B6rn?= <bob@example.net>\nSubject: =?utf-8?Q?a=0Ab=07?=\nMessage-ID: <p1@example.net>\n\n",
        arrived: 951_782_399,
        body: b"",
        entry: b"<entry><author><name>Bj\xc3\xb6rn</name></author><title>a\nb\xef\xbf\xbd</title><id>mid:p1@example.net</id><updated>2000-02-28T23:59:59Z</updated><link href=\"/list/p1@example.net/\"/><content type=\"text\"></content></entry>\n",
    },
    EntryCase {
        text: b"From: ann@example.org\nSubject: \"\"\nMessage-ID: <\"@\">\n\n",
        arrived: 951_868_799,
        body: b"\"\t'\n",
        entry: b"<entry><author><name>ann@example.org</name></author><title>&quot;&quot;</title><id>mid:%22@%22</id><updated>2000-02-29T23:59:59Z</updated><link href=\"/list/%22@%22/\"/><content type=\"text\">&quot;\t'\n</content></entry>\n",
    },
    EntryCase {
        text: b"From: a@b\nSubject:\nMessage-ID: <z@x>\n\n",
        arrived: 951_868_800,
        body: b"",
        entry: b"<entry><author><name>a@b</name></author><title>(no subject)</title><id>mid:z@x</id><updated>2000-03-01T00:00:00Z</updated><link href=\"/list/z@x/\"/><content type=\"text\"></content></entry>\n",
    },
];

/// Returns a mail as a feed shows it.
fn shown(alloc: Global, case: &EntryCase) -> Option<Shown>
    ensures { IfSome result HasMoment }
{
    if !is_stored(case.text) {
        return None;
    }
    let row = row_of(
        alloc,
        1,
        &text_ids(case.text, Form::Sha1),
        case.text,
        case.arrived,
    )
    .ok()?;
    if row.arrived > LAST_MOMENT {
        return None;
    }
    let mut body = Bytes::new(alloc);
    body.push_slice(case.body).ok()?;
    Some(Shown { row, body })
}

/// Returns the feed of `list` that has one mail.
fn feed_of_one(alloc: Global, case: &EntryCase) -> Option<Bytes> {
    let name = Name::read(b"list")?;
    let mails = [shown(alloc, case)?];
    feed(alloc, &name, 1, &mails).ok()
}

/// Returns the feed of `list` that has two mails.
fn feed_of_two(alloc: Global, first: &EntryCase, second: &EntryCase) -> Option<Bytes> {
    let name = Name::read(b"list")?;
    let mails = [shown(alloc, first)?, shown(alloc, second)?];
    feed(alloc, &name, 1, &mails).ok()
}

/// Returns the feed of `list` without a mail.
fn empty_feed(alloc: Global, born: u32) -> Option<Bytes> {
    let name = Name::read(b"list")?;
    feed(alloc, &name, born, &[]).ok()
}

/// Returns whether a feed has the start, a moment of 20 bytes, and then this entry alone.
fn is_feed_of(made: &[u8], entry: &[u8]) -> bool {
    let Some(rest) = made.strip_prefix(START) else {
        return false;
    };
    if rest.len() < 20 {
        return false;
    }
    match rest[20..].strip_prefix(b"</updated>\n") {
        Some(rest) => rest.strip_suffix(b"</feed>\n") == Some(entry),
        None => false,
    }
}

/// Returns whether the feed of a mail has its entry.
fn has_entry(alloc: Global, case: &EntryCase) -> bool {
    match feed_of_one(alloc, case) {
        Some(made) => is_feed_of(made.as_slice(), case.entry),
        None => false,
    }
}

/// Returns whether bytes were made, and are these.
fn is_made(made: Option<Bytes>, bytes: &[u8]) -> bool {
    match made {
        Some(made) => made.as_slice() == bytes,
        None => false,
    }
}

#[test]
fn mails_have_the_entries_that_were_worked_out(rt: HostRuntime) {
    for case in &ENTRIES {
        assert!(rt; has_entry(rt.alloc(), case));
    }
}

#[test]
fn a_feed_without_mails_is_as_old_as_the_archive(rt: HostRuntime) {
    assert!(rt;
        is_made(
            empty_feed(rt.alloc(), 1),
            b"<?xml version=\"1.0\" encoding=\"utf-8\"?>\n<feed xmlns=\"http://www.w3.org/2005/Atom\">\n<title>list</title>\n<id>mid:list@piv2.invalid</id>\n<updated>1970-01-01T00:00:01Z</updated>\n</feed>\n"
        )
    );
    assert!(rt;
        is_made(
            empty_feed(rt.alloc(), 4_294_967_295),
            b"<?xml version=\"1.0\" encoding=\"utf-8\"?>\n<feed xmlns=\"http://www.w3.org/2005/Atom\">\n<title>list</title>\n<id>mid:list@piv2.invalid</id>\n<updated>2106-02-07T06:28:15Z</updated>\n</feed>\n"
        )
    );
}

#[test]
fn a_feed_has_its_mails_in_order_and_their_last_arrival(rt: HostRuntime) {
    let made = feed_of_two(rt.alloc(), &ENTRIES[0], &ENTRIES[1]);
    assert!(rt;
        is_made(
            made,
            b"<?xml version=\"1.0\" encoding=\"utf-8\"?>\n<feed xmlns=\"http://www.w3.org/2005/Atom\">\n<title>list</title>\n<id>mid:list@piv2.invalid</id>\n<updated>2024-02-01T10:01:40Z</updated>\n<entry><author><name>Ann</name></author><title>first</title><id>mid:a@x</id><updated>2024-02-01T10:01:40Z</updated><link href=\"/list/a@x/\"/><content type=\"text\">one\n</content></entry>\n<entry><author><name>unknown</name></author><title>(no subject)</title><id>mid:n@x</id><updated>1970-01-01T00:00:00Z</updated><link href=\"/list/n@x/\"/><content type=\"text\">\n</content></entry>\n</feed>\n"
        )
    );
}

/// Returns when feeds of a mail that arrived at 0, and of that one and a later one, were updated.
fn moments(alloc: Global) -> Option<(u64, u64)> {
    let one = [shown(alloc, &ENTRIES[1])?];
    let two = [shown(alloc, &ENTRIES[4])?, shown(alloc, &ENTRIES[1])?];
    Some((updated(7, &one), updated(7, &two)))
}

#[test]
fn only_a_feed_without_mails_is_as_old_as_the_archive(rt: HostRuntime) {
    assert!(rt; updated(7, &[]) == 7);
    assert!(rt; moments(rt.alloc()) == Some((0, 951_868_799)));
}
