//! Queries over a dozen messages, worked out by the rules.
use crate::rows::{ROWS, Row, add_row, index_of, words_of};
use arch_base::NoMemory;
use fixtures::{Case, cases};
use mail_date::Moment;
use query_lang::{QueryRefusal, matches, read, utc_day};
use std::alloc::Global;
use std::test::Fail;
use word_index::WordIndex;

/// Queries, and the numbers that they find.
static QUERIES: [Case<&'static [u32]>; 91] = cases![
    b"" => &[2, 3, 5, 7, 11, 13, 17, 19, 23, 29, 31, 2_147_483_647],
    b" " => &[2, 3, 5, 7, 11, 13, 17, 19, 23, 29, 31, 2_147_483_647],
    b"   " => &[2, 3, 5, 7, 11, 13, 17, 19, 23, 29, 31, 2_147_483_647],
    b"first" => &[2, 5, 29],
    b"FIRST" => &[2, 5, 29],
    b"mmoklnoogoonlkom" => &[2],
    b"mnkonlklslklnokn" => &[3],
    b"firs" => &[],
    b"firstx" => &[],
    b"s:first" => &[2, 5],
    b"s:one" => &[],
    b"one d:20240201..20240201" => &[2],
    b"s:one d:20240201..20240201" => &[],
    b"S:first" => &[29],
    b"x:first" => &[],
    b"one" => &[2, 5, 29],
    b"b:one" => &[2, 5, 29],
    b"f:one" => &[],
    b"f:ann" => &[2, 5, 11, 2_147_483_647],
    b"f:ANN s:first" => &[2, 5],
    b"f:two" => &[2_147_483_647],
    b"two" => &[3, 5, 2_147_483_647],
    b"b:two" => &[3, 5],
    b"one-two" => &[5],
    b"two-one" => &[5],
    b"b:one-two" => &[5],
    b"one two" => &[5],
    b"one one" => &[2, 5, 29],
    b"one one one d:20240229..20240229" => &[29],
    b"s:b:one" => &[],
    b"s:re:first" => &[5],
    b"..." => &[2, 3, 5, 7, 11, 13, 17, 19, 23, 29, 31, 2_147_483_647],
    b"s:" => &[2, 3, 5, 7, 11, 13, 17, 19, 23, 29, 31, 2_147_483_647],
    b"s:... one" => &[2, 5, 29],
    b"first ..." => &[2, 5, 29],
    b"\tfirst\tre" => &[5],
    b"s:first\tre" => &[5],
    b"gr\xC3\xB6\xC3\x9Fe" => &[7],
    b"GR\xC3\xB6\xC3\x9FE" => &[7],
    b"GR\xC3\x96SSE" => &[],
    b"b:caf\xC3\xA9" => &[7],
    b"caf" => &[],
    b"ol\xC3\xA9 caf\xC3\xA9" => &[7],
    b"f:j\xC3\xB6rg" => &[7],
    b"\xC3\xB6" => &[],
    b"\xFF\xFE\x80" => &[2_147_483_647],
    b"\xFF" => &[],
    b"aaaaaaaaaaaaaaaaaaaaaaaaaaaaaaaaaaaaaaaaaaaaaaaaaaaaaaaaaaaaaaa" => &[],
    b"aaaaaaaaaaaaaaaaaaaaaaaaaaaaaaaaaaaaaaaaaaaaaaaaaaaaaaaaaaaaaaaa" => &[11, 13],
    b"aaaaaaaaaaaaaaaaaaaaaaaaaaaaaaaaaaaaaaaaaaaaaaaaaaaaaaaaaaaaaaaaa" => &[11, 13],
    b"aaaaaaaaaaaaaaaaaaaaaaaaaaaaaaaaaaaaaaaaaaaaaaaaaaaaaaaaaaaaaaaaazz" => &[11, 13],
    b"s:aaaaaaaaaaaaaaaaaaaaaaaaaaaaaaaaaaaaaaaaaaaaaaaaaaaaaaaaaaaaaaaa" => &[11, 13],
    b"b:aaaaaaaaaaaaaaaaaaaaaaaaaaaaaaaaaaaaaaaaaaaaaaaaaaaaaaaaaaaaaaaa" => &[],
    b"xxxxxxxxxxxxxxxxxxxxxxxxxxxxxxxxxxxxxxxxxxxxxxxxxxxxxxxxxxxxxxxx" => &[11, 13],
    b"xxxxxxxxxxxxxxxxxxxxxxxxxxxxxxxxxxxxxxxxxxxxxxxxxxxxxxxxxxxxxxxxy" => &[11, 13],
    b"b:xxxxxxxxxxxxxxxxxxxxxxxxxxxxxxxxxxxxxxxxxxxxxxxxxxxxxxxxxxxxxxxxz y" => &[13],
    b"y" => &[13],
    b"tail" => &[11],
    b"d:20240201..20240201" => &[2, 23],
    b"d:20240202..20240202" => &[3, 19],
    b"d:20240131..20240131" => &[7],
    b"d:20240229..20240229" => &[29],
    b"d:19700101..19700101" => &[17],
    b"d:99991231..99991231" => &[31],
    b"d:20240201..20240203" => &[2, 3, 5, 19, 23],
    b"d:19700101..99991231" => &[2, 3, 5, 7, 11, 13, 17, 19, 23, 29, 31, 2_147_483_647],
    b"d:20231231..20240131 d:20240101..20240229" => &[7],
    b"d:20240201..20240202 d:20240202..20240203" => &[3, 19],
    b"d:20240201..20240201 d:20240203..20240203" => &[],
    b"zone d:20240201..20240201" => &[23],
    b"zone d:20240202..20240202" => &[19],
    b"d:20230101..20230102" => &[],
    b"s:d:20240201..20240201" => &[29],
    b"20240201" => &[29],
    b"s:20240201" => &[29],
    b"D:20240201..20240201" => &[29],
    b"score" => &[31],
    b"under_score" => &[31],
    b"under score" => &[31],
    b"3.14" => &[31],
    b"3 14" => &[31],
    b"314" => &[],
    b"f:example f:org b:one" => &[2, 5, 29],
    b"example net" => &[7],
    b"2024 v2 333" => &[2_147_483_647],
    b"b:1 b:22 b:333" => &[2_147_483_647],
    b"1" => &[2_147_483_647],
    b"d" => &[29],
    b"missing first" => &[],
    b"first missing" => &[],
    b"s:the s:end f:end" => &[31],
];

/// What is no query.
const BAD_RANGES: [&[u8]; 27] = [
    b"d:20240201..20240101",
    b"d:20240230..20240301",
    b"d:20240201..20240230",
    b"d:20230229..20230301",
    b"d:20240201",
    b"d:20240201..",
    b"d:..20240201",
    b"d:",
    b"d:..",
    b"d:20240201...20240202",
    b"d:20240201..20240202x",
    b"d:2024-02-01..2024-02-02",
    b"d:19691231..19700101",
    b"d:20241301..20241302",
    b"d:20240001..20240101",
    b"d:20240100..20240101",
    b"d:0240201..20240202",
    b"d:20240201..2024020a",
    b"d:20240201.,20240202",
    b"d:20240201-20240202",
    b"d:d:20240201..20240202",
    b"first d:x",
    b"d:x first",
    b"d:20240201..20240202 d:20240202..20240201",
    b"d:00000101..19700101",
    b"d:20240201..20240202\t",
    b"d: 20240201..20240202",
];

/// Queries after three of the messages were taken.
static LATER: [Case<&'static [u32]>; 11] = cases![
    b"" => &[2, 3, 7, 11, 13, 17, 19, 29, 31],
    b"first" => &[2, 29],
    b"two" => &[3],
    b"zone" => &[19],
    b"f:ann" => &[2, 11],
    b"one-two" => &[],
    b"d:20240201..20240203" => &[2, 3, 19],
    b"d:20231231..20231231" => &[],
    b"333" => &[],
    b"s:re" => &[],
    b"three" => &[],
];

/// Returns whether a query finds these numbers.
fn finds(alloc: Global, index: &WordIndex, text: &[u8], wanted: &[u32]) -> bool {
    let Ok(query) = read(alloc, text) else {
        return false;
    };
    match index.find(&query) {
        Ok(numbers) => numbers.as_slice() == wanted,
        Err(_) => false,
    }
}

/// Returns whether a message matches a query, by its words and its day alone.
fn is_match(alloc: Global, row: &Row, text: &[u8]) -> bool {
    let Ok(query) = read(alloc, text) else {
        return false;
    };
    match words_of(alloc, row.subject, row.from, row.body) {
        Ok(words) => matches(&query, &words, utc_day(&row.moment)),
        Err(_) => false,
    }
}

/// Returns whether a text is refused as a bad range.
fn is_bad_range(alloc: Global, text: &[u8]) -> bool {
    match read(alloc, text) {
        Ok(_) => false,
        Err(refusal) => refusal == QueryRefusal::BadRange,
    }
}

/// Returns whether a message matches a query exactly if its number is wanted, for each message.
fn matches_alike(alloc: Global, text: &[u8], wanted: &[u32]) -> bool {
    ROWS.iter().all(|row| { is_match(alloc, row, text) == wanted.contains(&row.number) })
}

#[test]
fn queries_find_their_messages(rt: HostRuntime) -> Result<(), Fail> {
    let index = index_of(rt.alloc())?;
    for case in &QUERIES {
        assert!(rt; finds(rt.alloc(), &index, case.given, case.wanted));
    }
    Ok(())
}

#[test]
fn messages_match_their_queries(rt: HostRuntime) {
    for case in &QUERIES {
        assert!(rt; matches_alike(rt.alloc(), case.given, case.wanted));
    }
}

#[test]
fn other_ranges_are_refused(rt: HostRuntime) {
    for text in &BAD_RANGES {
        assert!(rt; is_bad_range(rt.alloc(), text));
    }
}

/// Returns the index after some of its messages were taken, and others twice.
fn index_after(alloc: Global) -> Result<WordIndex, NoMemory> {
    let mut index = index_of(alloc)?;
    let _ = index.take(2);
    let _ = index.take(5);
    let _ = index.take(2_147_483_647);
    let _ = index.take(5);
    let _ = index.take(23);
    add_row(alloc, &mut index, &ROWS[0])?;
    Ok(index)
}

#[test]
fn taken_messages_are_found_no_more(rt: HostRuntime) -> Result<(), Fail> {
    let index = index_after(rt.alloc())?;
    for case in &LATER {
        assert!(rt; finds(rt.alloc(), &index, case.given, case.wanted));
    }
    Ok(())
}

#[test]
fn a_number_is_taken_once(rt: HostRuntime) -> Result<(), Fail> {
    let mut index = index_of(rt.alloc())?;
    assert!(rt; index.take(7));
    assert!(rt; !index.take(7));
    assert!(rt; !index.take(8));
    Ok(())
}

#[test]
fn days_are_those_of_utc(rt: HostRuntime) {
    assert_eq!(rt;
        utc_day(&Moment {
            secs: 0,
            zone: 1439
        }),
        0
    );
    assert_eq!(rt;
        utc_day(&Moment {
            secs: 86_399,
            zone: 60
        }),
        0
    );
    assert_eq!(rt;
        utc_day(&Moment {
            secs: 86_400,
            zone: -60
        }),
        1
    );
    assert_eq!(rt;
        utc_day(&Moment {
            secs: 253_402_300_799,
            zone: 0
        }),
        2_932_896
    );
}
