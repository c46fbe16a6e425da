//! Mails for the tests, and what the door of pages shows of them. The bodies were worked out by hand
//! from the formats.
use arch_base::{Config, Form, Name, Numbers};
use arch_model::{Command, Keep, Next};
use archive_fixtures::in_memory;
use edge_io::MemSink;
use fixtures::{FIRST, LIMIT, MAX};
use http_front::HttpSession;
use mem_archive::MemArchive;
use std::alloc::Global;

/// A mail with a name, a date and a subject. It arrives at 2024-02-01 10:01:40.
pub(crate) const A: &[u8] = FIRST;

/// An answer to it and to a mail that the archive doesn't have. It arrives an hour later.
pub(crate) const B: &[u8] =
    b"From: Bob <bob@example.org>\nDate: Thu, 1 Feb 2024 11:00:00 +0000\nSubject: Re: <first> & more\nMessage-ID: <b/2@x>\nReferences: <g@x> <a@x>\n\nFrom here\n>From there\n";

/// A mail without a name and a date. It arrives an hour after that.
pub(crate) const C: &[u8] = b"Subject: lone\nMessage-ID: <c@x>\n\nthree\n";

/// The listing.
pub(crate) const LISTING: &[u8] =
    b"<html><head><title>list</title></head><body><pre>2024-02-01 12:01 <a href=\"/list/c@x/\">lone</a> unknown\n2024-02-01 11:00 <a href=\"/list/b%2F2@x/\">Re: &lt;first&gt; &amp; more</a> Bob\n2024-02-01 10:00 <a href=\"/list/a@x/\">first</a> Ann\n</pre></body></html>\n";

/// The listing after its first row.
pub(crate) const AFTER_ONE: &[u8] =
    b"<html><head><title>list</title></head><body><pre>2024-02-01 11:00 <a href=\"/list/b%2F2@x/\">Re: &lt;first&gt; &amp; more</a> Bob\n2024-02-01 10:00 <a href=\"/list/a@x/\">first</a> Ann\n</pre></body></html>\n";

/// The row of the first mail alone.
pub(crate) const LONE_A: &[u8] =
    b"<html><head><title>list</title></head><body><pre>2024-02-01 10:00 <a href=\"/list/a@x/\">first</a> Ann\n</pre></body></html>\n";

/// A listing without a row.
pub(crate) const AFTER_ALL: &[u8] =
    b"<html><head><title>list</title></head><body><pre></pre></body></html>\n";

/// The page of the first mail.
pub(crate) const MESSAGE_A: &[u8] =
    b"<html><head><title>first</title></head><body><pre>From: Ann &lt;ann@example.org&gt;\nSubject: first\nDate: Thu, 1 Feb 2024 10:00:00 +0000\nMessage-ID: &lt;a@x&gt;\n\none\n\n<a href=\"/list/a@x/raw\">raw</a> <a href=\"/list/a@x/t/\">thread</a>\n</pre></body></html>\n";

/// The page of the second mail.
pub(crate) const MESSAGE_B: &[u8] =
    b"<html><head><title>Re: &lt;first&gt; &amp; more</title></head><body><pre>From: Bob &lt;bob@example.org&gt;\nSubject: Re: &lt;first&gt; &amp; more\nDate: Thu, 1 Feb 2024 11:00:00 +0000\nMessage-ID: &lt;b/2@x&gt;\n\nFrom here\n&gt;From there\n\n<a href=\"/list/b%2F2@x/raw\">raw</a> <a href=\"/list/b%2F2@x/t/\">thread</a>\n</pre></body></html>\n";

/// The page of the third mail.
pub(crate) const MESSAGE_C: &[u8] =
    b"<html><head><title>lone</title></head><body><pre>Subject: lone\nMessage-ID: &lt;c@x&gt;\n\nthree\n\n<a href=\"/list/c@x/raw\">raw</a> <a href=\"/list/c@x/t/\">thread</a>\n</pre></body></html>\n";

/// The page of the first mail's thread.
pub(crate) const THREAD_A: &[u8] =
    b"<html><head><title>first</title></head><body><pre>2024-02-01 10:00 <a href=\"/list/a@x/\">first</a> Ann\n  2024-02-01 11:00 <a href=\"/list/b%2F2@x/\">Re: &lt;first&gt; &amp; more</a> Bob\n[not found] &lt;g@x&gt;\n</pre></body></html>\n";

/// The page of the second mail's thread.
pub(crate) const THREAD_B: &[u8] =
    b"<html><head><title>Re: &lt;first&gt; &amp; more</title></head><body><pre>2024-02-01 10:00 <a href=\"/list/a@x/\">first</a> Ann\n  2024-02-01 11:00 <a href=\"/list/b%2F2@x/\">Re: &lt;first&gt; &amp; more</a> Bob\n[not found] &lt;g@x&gt;\n</pre></body></html>\n";

/// The page of the third mail's thread.
pub(crate) const THREAD_C: &[u8] =
    b"<html><head><title>lone</title></head><body><pre>2024-02-01 12:01 <a href=\"/list/c@x/\">lone</a> unknown\n</pre></body></html>\n";

/// The feed of all three.
pub(crate) const FEED: &[u8] =
    b"<?xml version=\"1.0\" encoding=\"utf-8\"?>\n<feed xmlns=\"http://www.w3.org/2005/Atom\">\n<title>list</title>\n<id>mid:list@piv2.invalid</id>\n<updated>2024-02-01T12:01:40Z</updated>\n<entry><author><name>unknown</name></author><title>lone</title><id>mid:c@x</id><updated>2024-02-01T12:01:40Z</updated><link href=\"/list/c@x/\"/><content type=\"text\">three\n</content></entry>\n<entry><author><name>Bob</name></author><title>Re: &lt;first&gt; &amp; more</title><id>mid:b%2F2@x</id><updated>2024-02-01T11:01:40Z</updated><link href=\"/list/b%2F2@x/\"/><content type=\"text\">From here\n&gt;From there\n</content></entry>\n<entry><author><name>Ann</name></author><title>first</title><id>mid:a@x</id><updated>2024-02-01T10:01:40Z</updated><link href=\"/list/a@x/\"/><content type=\"text\">one\n</content></entry>\n</feed>\n";

/// The feed of the first two.
pub(crate) const THREAD_FEED: &[u8] =
    b"<?xml version=\"1.0\" encoding=\"utf-8\"?>\n<feed xmlns=\"http://www.w3.org/2005/Atom\">\n<title>list</title>\n<id>mid:list@piv2.invalid</id>\n<updated>2024-02-01T11:01:40Z</updated>\n<entry><author><name>Bob</name></author><title>Re: &lt;first&gt; &amp; more</title><id>mid:b%2F2@x</id><updated>2024-02-01T11:01:40Z</updated><link href=\"/list/b%2F2@x/\"/><content type=\"text\">From here\n&gt;From there\n</content></entry>\n<entry><author><name>Ann</name></author><title>first</title><id>mid:a@x</id><updated>2024-02-01T10:01:40Z</updated><link href=\"/list/a@x/\"/><content type=\"text\">one\n</content></entry>\n</feed>\n";

/// The feed of the third mail.
pub(crate) const LONE_FEED: &[u8] =
    b"<?xml version=\"1.0\" encoding=\"utf-8\"?>\n<feed xmlns=\"http://www.w3.org/2005/Atom\">\n<title>list</title>\n<id>mid:list@piv2.invalid</id>\n<updated>2024-02-01T12:01:40Z</updated>\n<entry><author><name>unknown</name></author><title>lone</title><id>mid:c@x</id><updated>2024-02-01T12:01:40Z</updated><link href=\"/list/c@x/\"/><content type=\"text\">three\n</content></entry>\n</feed>\n";

/// The mailbox file of all three.
pub(crate) const ALL_MBOX: &[u8] =
    b"From mboxrd@z Thu Jan  1 00:00:00 1970\nFrom: Ann <ann@example.org>\nDate: Thu, 1 Feb 2024 10:00:00 +0000\nSubject: first\nMessage-ID: <a@x>\n\none\n\nFrom mboxrd@z Thu Jan  1 00:00:00 1970\nFrom: Bob <bob@example.org>\nDate: Thu, 1 Feb 2024 11:00:00 +0000\nSubject: Re: <first> & more\nMessage-ID: <b/2@x>\nReferences: <g@x> <a@x>\n\n>From here\n>>From there\n\nFrom mboxrd@z Thu Jan  1 00:00:00 1970\nSubject: lone\nMessage-ID: <c@x>\n\nthree\n\n";

/// The mailbox file of the first two.
pub(crate) const THREAD_MBOX: &[u8] =
    b"From mboxrd@z Thu Jan  1 00:00:00 1970\nFrom: Ann <ann@example.org>\nDate: Thu, 1 Feb 2024 10:00:00 +0000\nSubject: first\nMessage-ID: <a@x>\n\none\n\nFrom mboxrd@z Thu Jan  1 00:00:00 1970\nFrom: Bob <bob@example.org>\nDate: Thu, 1 Feb 2024 11:00:00 +0000\nSubject: Re: <first> & more\nMessage-ID: <b/2@x>\nReferences: <g@x> <a@x>\n\n>From here\n>>From there\n\n";

/// The mailbox file of the third mail.
pub(crate) const LONE_MBOX: &[u8] =
    b"From mboxrd@z Thu Jan  1 00:00:00 1970\nSubject: lone\nMessage-ID: <c@x>\n\nthree\n\n";

/// The list of the entries of all three.
pub(crate) const ENTRIES: &[u8] =
    b"piv2 list 1\nlist\n4\nm 1 0 1706781700 1d023c572ccd6f3cc82ae855343346b043adaba5 103 d621b450ae1fbf27a31c9879d84eb9de5473a8b9\nm 2 0 1706785300 ac5059345d50ef7ae4d77e2e3ba0e01b2db1aeb9 160 7f0cf9761f145005eb1023b63f1d5532674303b0\nm 3 0 1706788900 cb07c39997994ff0909d92122107547598f01831 39 cefe08e5ad30ebdd2167497eacea142ea6be50e1\nend\n";

/// The moment of all replies, 2024-02-01 10:03:20.
pub(crate) const MOMENT: u64 = 1_706_781_800;

/// A connection with an archive of its own.
#[derive(Drop)]
pub(crate) struct Connection {
    session: HttpSession,
    archive: MemArchive,
    out: MemSink,
    next: Next,
}

impl Connection {
    /// Opens a connection to an archive without mails.
    pub(crate) fn to_nothing(alloc: Global) -> Option<Self> {
        Some(Connection::to(alloc, empty_archive(alloc)?))
    }

    /// Opens a connection to an archive with the three mails.
    pub(crate) fn to_three(alloc: Global) -> Option<Self> {
        Some(Connection::to(alloc, archive_of_three(alloc)?))
    }

    /// Opens a connection to an archive with the first mail, whose objects have ids of SHA-256.
    pub(crate) fn to_sha_256(alloc: Global) -> Option<Self> {
        let config = Config {
            name: Name::read(b"list")?,
            limit: LIMIT,
            slice: 50_000,
            max: MAX,
            mirror: false,
            born: 1,
            form: Form::Sha256,
        };
        let mut archive = MemArchive::new(alloc, config);
        archive.command(&Command::Deliver(A), 1_706_781_700);
        Some(Connection::to(alloc, archive))
    }

    /// Opens a connection to an archive.
    fn to(alloc: Global, archive: MemArchive) -> Self {
        Connection {
            session: HttpSession::open(alloc),
            archive,
            out: MemSink::new(alloc, Numbers::new(alloc)),
            next: Next::Go,
        }
    }

    /// Feeds a piece if the connection is still open.
    pub(crate) fn hear(&mut self, piece: &[u8]) {
        if self.next == Next::Go {
            self.next = self
                .session
                .feed(piece, MOMENT, &mut self.archive, &mut self.out);
        }
    }

    /// Removes the mail with a number.
    pub(crate) fn remove(&mut self, n: u32) {
        self.archive.command(&Command::Remove(n), MOMENT);
    }

    /// Purges the mail with a number.
    pub(crate) fn purge(&mut self, n: u32) {
        self.archive.command(&Command::Purge(n), MOMENT);
    }

    /// Returns whether the replies are these bytes and the connection then continues or is closed, as
    /// `next` says.
    pub(crate) fn was_answered(&self, words: &[u8], next: Next) -> bool {
        self.out.taken() == words && self.next == next
    }
}

/// Creates an archive of the name `list` with the three mails.
pub(crate) fn archive_of_three(alloc: Global) -> Option<MemArchive> {
    let mut archive = empty_archive(alloc)?;
    archive.command(&Command::Deliver(A), 1_706_781_700);
    archive.command(&Command::Deliver(B), 1_706_785_300);
    archive.command(&Command::Deliver(C), 1_706_788_900);
    Some(archive)
}

/// Creates an archive without mails of the name `list`.
pub(crate) fn empty_archive(alloc: Global) -> Option<MemArchive> {
    in_memory(alloc, LIMIT, MAX, false)
}
