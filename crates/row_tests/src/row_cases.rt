//! Mails and their rows, worked out by hand from the rules.
use arch_base::Texts;
use mail_forms::Row;

/// When each mail arrived, in seconds since 1970 UTC.
pub(crate) const ARRIVED: u64 = 1_706_781_700;

/// A mail in storage form, and what its row has to say of it.
#[derive(Drop)]
pub(crate) struct RowCase {
    /// The text.
    pub(crate) text: &'static [u8],
    /// Its own id.
    pub(crate) id: &'static [u8],
    /// The ids of the messages that it answers.
    pub(crate) refs: &'static [&'static [u8]],
    /// Its subject.
    pub(crate) subject: &'static [u8],
    /// The name of its author.
    pub(crate) from: &'static [u8],
    /// The seconds and the zone of its date.
    pub(crate) date: (u64, i16),
    /// The lengths of its wire form and of its piece of a mailbox file.
    pub(crate) lengths: (u64, u64),
    /// The number of line feeds in its body.
    pub(crate) lines: u64,
    /// Its overview line.
    pub(crate) over: &'static [u8],
}

/// Mails of all kinds.
pub(crate) static CASES: [RowCase; 21] = [
    RowCase {
        text: b"From: Ann <ann@example.org>\nDate: Thu, 1 Feb 2024 10:00:00 +0000\nSubject: first\nMessage-ID: <a@x>\n\none\n",
        id: b"<a@x>",
        refs: &[],
        subject: b"first",
        from: b"Ann",
        date: (1_706_781_600, 0),
        lengths: (109, 143),
        lines: 1,
        over: b"first\tAnn <ann@example.org>\tThu, 1 Feb 2024 10:00:00 +0000\t<a@x>\t\t109\t1",
    },
    RowCase {
        text: b"Received: from mx.example.net\n\tby lists.example.org; Thu, 1 Feb 2024 11:59:58 +0100\nFrom: =?UTF-8?Q?Bj=C3=B6rn?= <bob@example.net>\nTo: list@example.org\nSubject: [PATCH 1/2] fix\n\tthe build\nDate: Thu, 1 Feb 2024 11:59:57 +0100 (CET)\nMessage-ID: <p1@example.net>\nReferences: <a@x>\n <b@x>\n\n> quoted\ndiff\n",
        id: b"<p1@example.net>",
        refs: &[b"<a@x>", b"<b@x>"],
        subject: b"[PATCH 1/2] fix the build",
        from: b"Bj\xc3\xb6rn",
        date: (1_706_785_197, 60),
        lengths: (313, 340),
        lines: 2,
        over: b"[PATCH 1/2] fix the build\t=?UTF-8?Q?Bj=C3=B6rn?= <bob@example.net>\tThu, 1 Feb 2024 11:59:57 +0100 (CET)\t<p1@example.net>\t<a@x> <b@x>\t313\t2",
    },
    RowCase {
        text: b"Message-ID: <n@x>\n\n",
        id: b"<n@x>",
        refs: &[],
        subject: b"",
        from: b"unknown",
        date: (1_706_781_700, 0),
        lengths: (21, 59),
        lines: 0,
        over: b"\t\t\t<n@x>\t\t21\t0",
    },
    RowCase {
        text: b"From: root\nMessage-ID: <r@x>\n\n\n",
        id: b"<r@x>",
        refs: &[],
        subject: b"",
        from: b"root@",
        date: (1_706_781_700, 0),
        lengths: (35, 71),
        lines: 1,
        over: b"\troot\t\t<r@x>\t\t35\t1",
    },
    RowCase {
        text: b"From: ,\nFrom: Bob <b@c>\nMessage-ID: <f@x>\n\n\n\n\n",
        id: b"<f@x>",
        refs: &[],
        subject: b"",
        from: b"Bob",
        date: (1_706_781_700, 0),
        lengths: (53, 86),
        lines: 3,
        over: b"\t,\t\t<f@x>\t\t53\t3",
    },
    RowCase {
        text: b"From: =?utf-8?Q?=01?= <a@b>\nMessage-ID: <w@x>\n\nx\n",
        id: b"<w@x>",
        refs: &[],
        subject: b"",
        from: b"a@b",
        date: (1_706_781_700, 0),
        lengths: (53, 89),
        lines: 1,
        over: b"\t=?utf-8?Q?=01?= <a@b>\t\t<w@x>\t\t53\t1",
    },
    RowCase {
        text: b"Subject: =?utf-8?Q?a=0Ab?=\nMessage-ID: <s@x>\n\n",
        id: b"<s@x>",
        refs: &[],
        subject: b"a\nb",
        from: b"unknown",
        date: (1_706_781_700, 0),
        lengths: (49, 86),
        lines: 0,
        over: b"=?utf-8?Q?a=0Ab?=\t\t\t<s@x>\t\t49\t0",
    },
    RowCase {
        text: b"subject:  a\n\tb \n c\rd\0e \nmessage-id: <t@x>\n\n",
        id: b"<t@x>",
        refs: &[],
        subject: b"a b  c d e",
        from: b"unknown",
        date: (1_706_781_700, 0),
        lengths: (48, 83),
        lines: 0,
        over: b"a b  c d e\t\t\t<t@x>\t\t48\t0",
    },
    RowCase {
        text: b"Subject:\nSubject: second\nMessage-ID: <u@x>\n\n",
        id: b"<u@x>",
        refs: &[],
        subject: b"",
        from: b"unknown",
        date: (1_706_781_700, 0),
        lengths: (48, 84),
        lines: 0,
        over: b"\t\t\t<u@x>\t\t48\t0",
    },
    RowCase {
        text: b"Date: yesterday\nDate: Thu, 1 Feb 2024 10:00:00 +0000\nMessage-ID: <d@x>\n\n",
        id: b"<d@x>",
        refs: &[],
        subject: b"",
        from: b"unknown",
        date: (1_706_781_700, 0),
        lengths: (76, 112),
        lines: 0,
        over: b"\t\tyesterday\t<d@x>\t\t76\t0",
    },
    RowCase {
        text: b"Date: 31 Dec 2023 19:30 EST (winter)\nMessage-ID: <e@x>\n\n",
        id: b"<e@x>",
        refs: &[],
        subject: b"",
        from: b"unknown",
        date: (1_704_069_000, -300),
        lengths: (59, 96),
        lines: 0,
        over: b"\t\t31 Dec 2023 19:30 EST (winter)\t<e@x>\t\t59\t0",
    },
    RowCase {
        text: b"Message-ID: <q@x>\n\nFrom a\n>From b\n>>>From c\n From d\nfrom e\nFrom\nFrom:\n>\nFrom \n",
        id: b"<q@x>",
        refs: &[],
        subject: b"",
        from: b"unknown",
        date: (1_706_781_700, 0),
        lengths: (89, 122),
        lines: 9,
        over: b"\t\t\t<q@x>\t\t89\t9",
    },
    RowCase {
        text: b"Message-ID: <z@x>\n\na\rb\n\0\n\r\rc\n",
        id: b"<z@x>",
        refs: &[],
        subject: b"",
        from: b"unknown",
        date: (1_706_781_700, 0),
        lengths: (34, 69),
        lines: 3,
        over: b"\t\t\t<z@x>\t\t34\t3",
    },
    RowCase {
        text: b"References: <a@x>\n <b@x> <a@x>\nIn-Reply-To: <c@x> <b@x>\nMessage-ID: <v@x>\n\n",
        id: b"<v@x>",
        refs: &[b"<a@x>", b"<b@x>", b"<c@x>"],
        subject: b"",
        from: b"unknown",
        date: (1_706_781_700, 0),
        lengths: (80, 115),
        lines: 0,
        over: b"\t\t\t<v@x>\t<a@x> <b@x> <a@x>\t80\t0",
    },
    RowCase {
        text: b"In-Reply-To: <c@x>\nReferences: \nReferences: <b@x>\nMessage-ID: <y@x>\n\n",
        id: b"<y@x>",
        refs: &[b"<b@x>", b"<c@x>"],
        subject: b"",
        from: b"unknown",
        date: (1_706_781_700, 0),
        lengths: (74, 109),
        lines: 0,
        over: b"\t\t\t<y@x>\t\t74\t0",
    },
    RowCase {
        text: b"Message-ID: (<c@x>) <d@x>\nMessage-ID: <e@x>\n\n",
        id: b"<c@x>",
        refs: &[],
        subject: b"",
        from: b"unknown",
        date: (1_706_781_700, 0),
        lengths: (48, 85),
        lines: 0,
        over: b"\t\t\t<c@x>\t\t48\t0",
    },
    RowCase {
        text: b"From: Team: Ann <a@b>, c@d;\nMessage-ID: <g@x>\n\n",
        id: b"<g@x>",
        refs: &[],
        subject: b"",
        from: b"Ann",
        date: (1_706_781_700, 0),
        lengths: (50, 87),
        lines: 0,
        over: b"\tTeam: Ann <a@b>, c@d;\t\t<g@x>\t\t50\t0",
    },
    RowCase {
        text: b"From: \"A\\\"B\" C <a@b>\nMessage-ID: <h@x>\n\n",
        id: b"<h@x>",
        refs: &[],
        subject: b"",
        from: b"A\"B C",
        date: (1_706_781_700, 0),
        lengths: (43, 80),
        lines: 0,
        over: b"\t\"A\\\"B\" C <a@b>\t\t<h@x>\t\t43\t0",
    },
    RowCase {
        text: b"From: \"x <a@b\nMessage-ID: <i@x>\n\n",
        id: b"<i@x>",
        refs: &[],
        subject: b"",
        from: b"\"x a@b",
        date: (1_706_781_700, 0),
        lengths: (36, 73),
        lines: 0,
        over: b"\t\"x <a@b\t\t<i@x>\t\t36\t0",
    },
    RowCase {
        text: b"Subject: =?iso-8859-1?Q?caf=E9?= =?ISO-8859-1?B?6Q==?=\nMessage-ID: <j@x>\n\n",
        id: b"<j@x>",
        refs: &[],
        subject: b"caf\xc3\xa9\xc3\xa9",
        from: b"unknown",
        date: (1_706_781_700, 0),
        lengths: (77, 114),
        lines: 0,
        over: b"=?iso-8859-1?Q?caf=E9?= =?ISO-8859-1?B?6Q==?=\t\t\t<j@x>\t\t77\t0",
    },
    RowCase {
        text: b"Subject: a\xffb\nFrom: \xc3\xa9 <a@b>\nMessage-ID: <k@x>\n\n",
        id: b"<k@x>",
        refs: &[],
        subject: b"a\xef\xbf\xbdb",
        from: b"\xc3\xa9",
        date: (1_706_781_700, 0),
        lengths: (51, 87),
        lines: 0,
        over: b"a\xffb\t\xc3\xa9 <a@b>\t\t<k@x>\t\t51\t0",
    },
];

impl RowCase {
    /// Returns whether a row says what it has to.
    pub(crate) fn is_shown_by(&self, row: &Row) -> bool {
        self.names_are_shown_by(row) && self.numbers_are_shown_by(row)
    }

    /// Returns whether a row has the right texts.
    fn names_are_shown_by(&self, row: &Row) -> bool {
        row.id.as_slice() == self.id
            && are(&row.refs, self.refs)
            && row.subject.as_slice() == self.subject
            && row.from.as_slice() == self.from
            && row.over.as_slice() == self.over
    }

    /// Returns whether a row has the right numbers.
    fn numbers_are_shown_by(&self, row: &Row) -> bool {
        (row.date.secs, row.date.zone) == self.date
            && (row.wire, row.mbox) == self.lengths
            && row.lines == self.lines
            && row.size == self.text.len() as u64
            && row.arrived == ARRIVED
    }
}

/// Returns whether texts are the wanted ones.
fn are(texts: &Texts, wanted: &[&[u8]]) -> bool {
    let texts = texts.as_slice();
    texts.len() == wanted.len()
        && texts
            .iter()
            .zip(wanted.iter())
            .all(|(text, wanted)| text.as_slice() == *wanted)
}
