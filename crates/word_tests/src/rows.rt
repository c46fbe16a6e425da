//! A dozen messages, and an index of them.
use arch_base::NoMemory;
use mail_date::Moment;
use query_lang::utc_day;
use std::alloc::Global;
use text_words::{PackedWords, WordLists, push_words};
use word_index::WordIndex;

/// A message, as an index sees it: the texts of its fields, and its date.
#[derive(Drop)]
pub(crate) struct Row {
    /// Its number.
    pub(crate) number: u32,
    /// Its subject.
    pub(crate) subject: &'static [u8],
    /// The value of its From field.
    pub(crate) from: &'static [u8],
    /// The text of its body.
    pub(crate) body: &'static [u8],
    /// Its date.
    pub(crate) moment: Moment,
}

/// The messages. Those of 1 and 2 February 2024 that are `late` and `early` are of the other day in
/// the zone in which their date was written. The last words of the first two
/// bodies have one mark.
pub(crate) static ROWS: [Row; 12] = [
    Row {
        number: 2,
        subject: b"first",
        from: b"Ann <ann@example.org>",
        body: b"one mmoklnoogoonlkom\n",
        moment: Moment {
            secs: 1_706_781_600,
            zone: 0,
        },
    },
    Row {
        number: 3,
        subject: b"second",
        from: b"Bob <bob@example.org>",
        body: b"two mnkonlklslklnokn\n",
        moment: Moment {
            secs: 1_706_918_399,
            zone: 0,
        },
    },
    Row {
        number: 5,
        subject: b"Re: first",
        from: b"Ann <ann@example.org>",
        body: b"one-two and THREE\n",
        moment: Moment {
            secs: 1_706_918_400,
            zone: 0,
        },
    },
    Row {
        number: 7,
        subject: b"Gr\xC3\xB6\xC3\x9Fe",
        from: b"J\xC3\xB6rg <j@example.net>",
        body: b"Caf\xC3\xA9, ol\xC3\xA9!\n",
        moment: Moment {
            secs: 1_706_745_599,
            zone: 0,
        },
    },
    Row {
        number: 11,
        subject: b"aaaaaaaaaaaaaaaaaaaaaaaaaaaaaaaaaaaaaaaaaaaaaaaaaaaaaaaaaaaaaaaa",
        from: b"Ann <ann@example.org>",
        body: b"xxxxxxxxxxxxxxxxxxxxxxxxxxxxxxxxxxxxxxxxxxxxxxxxxxxxxxxxxxxxxxxxy tail\n",
        moment: Moment {
            secs: 1_707_048_000,
            zone: 0,
        },
    },
    Row {
        number: 13,
        subject: b"aaaaaaaaaaaaaaaaaaaaaaaaaaaaaaaaaaaaaaaaaaaaaaaaaaaaaaaaaaaaaaaaa",
        from: b"",
        body: b"xxxxxxxxxxxxxxxxxxxxxxxxxxxxxxxxxxxxxxxxxxxxxxxxxxxxxxxxxxxxxxxx y\n",
        moment: Moment {
            secs: 1_707_091_200,
            zone: 0,
        },
    },
    Row {
        number: 17,
        subject: b"",
        from: b"",
        body: b"\n",
        moment: Moment { secs: 0, zone: 0 },
    },
    Row {
        number: 19,
        subject: b"late",
        from: b"Bob <bob@example.org>",
        body: b"zone\n",
        moment: Moment {
            secs: 1_706_833_800,
            zone: -60,
        },
    },
    Row {
        number: 23,
        subject: b"early",
        from: b"bob@example.org",
        body: b"zone\n",
        moment: Moment {
            secs: 1_706_830_200,
            zone: 60,
        },
    },
    Row {
        number: 29,
        subject: b"d:20240201..20240201",
        from: b"\"s:first\" <q@example.org>",
        body: b"one one one\n",
        moment: Moment {
            secs: 1_709_164_800,
            zone: 0,
        },
    },
    Row {
        number: 31,
        subject: b"The END",
        from: b"end@example.org",
        body: b"under_score\ttab 3.14\n",
        moment: Moment {
            secs: 253_402_300_799,
            zone: 0,
        },
    },
    Row {
        number: 2_147_483_647,
        subject: b"2024 budget v2",
        from: b"Ann Two <two@example.org>",
        body: b"1 22 333 \xFF\xFE\x80\n",
        moment: Moment {
            secs: 1_704_067_199,
            zone: 0,
        },
    },
];

/// Returns the words of texts.
pub(crate) fn words_of(
    alloc: Global,
    subject: &[u8],
    from: &[u8],
    body: &[u8],
) -> Result<WordLists, NoMemory> {
    let mut words = WordLists {
        subject: PackedWords::new(alloc),
        from: PackedWords::new(alloc),
        body: PackedWords::new(alloc),
    };
    push_words(subject, &mut words.subject)?;
    push_words(from, &mut words.from)?;
    push_words(body, &mut words.body)?;
    Ok(words)
}

/// Adds a message to an index, unless its number has one.
pub(crate) fn add_row(alloc: Global, index: &mut WordIndex, row: &Row) -> Result<(), NoMemory> {
    if index.contains(row.number) {
        return Ok(());
    }
    let words = words_of(alloc, row.subject, row.from, row.body)?;
    index.add(row.number, &words, utc_day(&row.moment))
}

/// Returns an index of the messages. The last ones are added first.
pub(crate) fn index_of(alloc: Global) -> Result<WordIndex, NoMemory> {
    let mut index = WordIndex::new(alloc);
    for row in ROWS.iter().rev() {
        add_row(alloc, &mut index, row)?;
    }
    Ok(index)
}
