//! Replies worked out by hand from the table of commands, to an archive of three messages of which
//! the second is gone.
use crate::connection::Connection;
use arch_model::Next;
use std::alloc::Global;

/// Commands that come before, a command, and the lines of its reply.
type Case = (&'static [u8], &'static [u8], &'static [&'static [u8]]);

/// Selects the group.
const GROUP: &[u8] = b"GROUP list\n";

/// Selects the group, and then the article with number 3.
const THIRD: &[u8] = b"GROUP list\nSTAT 3\n";

/// The overview line of the first message.
const OVER_1: &[u8] = b"1\tfirst\tAnn <ann@x>\tThu, 1 Feb 2024 09:50:00 +0000\t<a@x>\t\t105\t2";

/// The overview line of the third message.
const OVER_3: &[u8] = b"3\t[PATCH 1/2] fix the build\tBo <bo@x>\t\t<c@x>\t<a@x> <b@x>\t124\t2";

/// Commands on the session.
static SESSION: [Case; 21] = [
    (b"", b"MODE READER\n", &[b"201 no posting"]),
    (b"", b"mode reader\n", &[b"201 no posting"]),
    (b"", b"MODE\n", &[b"501 syntax"]),
    (b"", b"MODE STREAM\n", &[b"501 syntax"]),
    (b"", b"MODE READER x\n", &[b"501 syntax"]),
    (b"", b"DATE\n", &[b"111 20240201100140"]),
    (b"", b"DATE x\n", &[b"501 syntax"]),
    (b"", b"HELP\n", &[b"100 help", b"see RFC 3977", b"."]),
    (b"", b"HELP me\n", &[b"501 syntax"]),
    (b"", b"POST\n", &[b"440 no posting"]),
    (b"", b"POST x\n", &[b"501 syntax"]),
    (b"", b"QUIT now\n", &[b"501 syntax"]),
    (b"", b"IHAVE <a@x>\n", &[b"500 unknown"]),
    (b"", b"\n", &[b"500 unknown"]),
    (b"", b" \t \n", &[b"500 unknown"]),
    (b"", b"DATE\r\r\n", &[b"500 unknown"]),
    (b"", b"\t DaTe \t\r\n", &[b"111 20240201100140"]),
    (b"", b"DATE\0\n", &[b"500 unknown"]),
    (
        b"",
        b"CAPABILITIES\n",
        &[
            b"101 capabilities",
            b"VERSION 2",
            b"READER",
            b"LIST ACTIVE ACTIVE.TIMES HEADERS NEWSGROUPS OVERVIEW.FMT",
            b"OVER MSGID",
            b"HDR",
            b"NEWNEWS",
            b".",
        ],
    ),
    (b"", b"CAPABILITIES a b\n", &[b"501 syntax"]),
    (b"", b"SLAVE\n", &[b"500 unknown"]),
];

/// Commands on the group.
static GROUPS: [Case; 22] = [
    (b"", b"GROUP list\n", &[b"211 2 1 3 list"]),
    (b"", b"group list\n", &[b"211 2 1 3 list"]),
    (b"", b"GROUP List\n", &[b"411 no such group"]),
    (b"", b"GROUP\n", &[b"501 syntax"]),
    (b"", b"GROUP list x\n", &[b"501 syntax"]),
    (b"", b"LISTGROUP\n", &[b"412 no group selected"]),
    (
        b"",
        b"LISTGROUP list\n",
        &[b"211 2 1 3 list list follows", b"1", b"3", b"."],
    ),
    (
        b"",
        b"LISTGROUP list 2-\n",
        &[b"211 2 1 3 list list follows", b"3", b"."],
    ),
    (
        b"",
        b"LISTGROUP list 5-2\n",
        &[b"211 2 1 3 list list follows", b"."],
    ),
    (
        b"",
        b"LISTGROUP list 001\n",
        &[b"211 2 1 3 list list follows", b"1", b"."],
    ),
    (b"", b"LISTGROUP list -2\n", &[b"501 syntax"]),
    (b"", b"LISTGROUP nope\n", &[b"411 no such group"]),
    (b"", b"LISTGROUP nope x\n", &[b"501 syntax"]),
    (b"LISTGROUP list 3\n", b"STAT\n", &[b"223 1 <a@x>"]),
    (
        THIRD,
        b"LISTGROUP\n",
        &[b"211 2 1 3 list list follows", b"1", b"3", b"."],
    ),
    (
        b"GROUP list\nSTAT 3\nLISTGROUP\n",
        b"STAT\n",
        &[b"223 1 <a@x>"],
    ),
    (
        b"GROUP list\nSTAT 3\nGROUP list\n",
        b"STAT\n",
        &[b"223 1 <a@x>"],
    ),
    (
        b"GROUP list\nSTAT 3\nGROUP nope\n",
        b"STAT\n",
        &[b"223 3 <c@x>"],
    ),
    (GROUP, b"NEXT\n", &[b"223 3 <c@x>"]),
    (THIRD, b"NEXT\n", &[b"421 no next article"]),
    (THIRD, b"LAST\n", &[b"223 1 <a@x>"]),
    (GROUP, b"LAST\n", &[b"422 no previous article"]),
];

/// Commands on an article.
static ARTICLES: [Case; 29] = [
    (b"", b"NEXT\n", &[b"412 no group selected"]),
    (b"", b"LAST\n", &[b"412 no group selected"]),
    (b"", b"NEXT 1\n", &[b"501 syntax"]),
    (b"", b"STAT\n", &[b"412 no group selected"]),
    (b"", b"STAT 1\n", &[b"412 no group selected"]),
    (b"", b"STAT <c@x>\n", &[b"223 0 <c@x>"]),
    (b"", b"STAT <b@x>\n", &[b"430 no such article"]),
    (b"", b"STAT <>\n", &[b"501 syntax"]),
    (b"", b"STAT a@x\n", &[b"501 syntax"]),
    (GROUP, b"STAT\n", &[b"223 1 <a@x>"]),
    (GROUP, b"STAT 0003\n", &[b"223 3 <c@x>"]),
    (GROUP, b"STAT 0000000000000003\n", &[b"223 3 <c@x>"]),
    (GROUP, b"STAT 00000000000000003\n", &[b"501 syntax"]),
    (GROUP, b"STAT 2\n", &[b"423 no such number"]),
    (GROUP, b"STAT 0\n", &[b"423 no such number"]),
    (GROUP, b"STAT 2147483647\n", &[b"423 no such number"]),
    (GROUP, b"STAT 2147483648\n", &[b"501 syntax"]),
    (GROUP, b"STAT 1-3\n", &[b"501 syntax"]),
    (b"GROUP list\nSTAT <c@x>\n", b"STAT\n", &[b"223 1 <a@x>"]),
    (b"GROUP list\nSTAT 2\n", b"STAT\n", &[b"223 1 <a@x>"]),
    (
        GROUP,
        b"ARTICLE\n",
        &[
            b"220 1 <a@x>",
            b"Subject: first",
            b"From: Ann <ann@x>",
            b"Date: Thu, 1 Feb 2024 09:50:00 +0000",
            b"Message-ID: <a@x>",
            b"",
            b"one",
            b"..two",
            b".",
        ],
    ),
    (
        b"",
        b"HEAD <c@x>\n",
        &[
            b"221 0 <c@x>",
            b"Subject: [PATCH 1/2] fix",
            b"\tthe build",
            b"From: Bo <bo@x>",
            b"Message-ID: <c@x>",
            b"References: <a@x>",
            b" <b@x>",
            b"..Odd: dot",
            b".",
        ],
    ),
    (GROUP, b"BODY 3\n", &[b"222 3 <c@x>", b"...", b"last", b"."]),
    (b"GROUP list\nBODY 3\n", b"STAT\n", &[b"223 3 <c@x>"]),
    (GROUP, b"ARTICLE 2\n", &[b"423 no such number"]),
    (b"", b"ARTICLE 2\n", &[b"412 no group selected"]),
    (b"", b"BODY <zz@x>\n", &[b"430 no such article"]),
    (b"", b"HEAD 1 2\n", &[b"501 syntax"]),
    (GROUP, b"BODY\n", &[b"222 1 <a@x>", b"one", b"..two", b"."]),
];

/// Overviews and headers.
static HEADERS: [Case; 26] = [
    (b"", b"OVER\n", &[b"412 no group selected"]),
    (b"", b"OVER 1-\n", &[b"412 no group selected"]),
    (GROUP, b"OVER\n", &[b"224 overview follows", OVER_1, b"."]),
    (
        GROUP,
        b"OVER 1-\n",
        &[b"224 overview follows", OVER_1, OVER_3, b"."],
    ),
    (
        GROUP,
        b"XOVER 1-2147483647\n",
        &[b"224 overview follows", OVER_1, OVER_3, b"."],
    ),
    (GROUP, b"OVER 2\n", &[b"423 no such number"]),
    (GROUP, b"OVER 5-2\n", &[b"423 no such number"]),
    (GROUP, b"OVER 1-2147483648\n", &[b"501 syntax"]),
    (GROUP, b"OVER -\n", &[b"501 syntax"]),
    (
        b"",
        b"OVER <c@x>\n",
        &[
            b"224 overview follows",
            b"0\t[PATCH 1/2] fix the build\tBo <bo@x>\t\t<c@x>\t<a@x> <b@x>\t124\t2",
            b".",
        ],
    ),
    (b"", b"OVER <b@x>\n", &[b"430 no such article"]),
    (b"GROUP list\nOVER 3\n", b"STAT\n", &[b"223 1 <a@x>"]),
    (b"", b"HDR\n", &[b"501 syntax"]),
    (b"", b"HDR Subject\n", &[b"412 no group selected"]),
    (
        GROUP,
        b"HDR Subject\n",
        &[b"225 headers follow", b"1 first", b"."],
    ),
    (
        GROUP,
        b"hdr subject 1-9\n",
        &[
            b"225 headers follow",
            b"1 first",
            b"3 [PATCH 1/2] fix the build",
            b".",
        ],
    ),
    (
        GROUP,
        b"HDR Date 1-\n",
        &[
            b"225 headers follow",
            b"1 Thu, 1 Feb 2024 09:50:00 +0000",
            b"3 ",
            b".",
        ],
    ),
    (
        GROUP,
        b"HDR :bytes 1-\n",
        &[b"225 headers follow", b"1 105", b"3 124", b"."],
    ),
    (
        GROUP,
        b"HDR :Lines 3\n",
        &[b"225 headers follow", b"3 2", b"."],
    ),
    (
        b"",
        b"HDR Xref <a@x>\n",
        &[b"225 headers follow", b"0 ", b"."],
    ),
    (b"", b"HDR :foo <a@x>\n", &[b"501 syntax"]),
    (b"", b"HDR Subject <q@x>\n", &[b"430 no such article"]),
    (GROUP, b"HDR Subject 2\n", &[b"423 no such number"]),
    (GROUP, b"HDR Subject x\n", &[b"501 syntax"]),
    (GROUP, b"HDR :bytes 2-2\n", &[b"423 no such number"]),
    (GROUP, b"HDR Subject 1 2\n", &[b"501 syntax"]),
];

/// Lists.
static LISTS: [Case; 32] = [
    (b"", b"LIST\n", &[b"215 list follows", b"list 3 1 n", b"."]),
    (
        b"",
        b"LIST ACTIVE\n",
        &[b"215 list follows", b"list 3 1 n", b"."],
    ),
    (
        b"",
        b"list active l?s*\n",
        &[b"215 list follows", b"list 3 1 n", b"."],
    ),
    (b"", b"LIST ACTIVE *,!list\n", &[b"215 list follows", b"."]),
    (
        b"",
        b"LIST ACTIVE !list,*\n",
        &[b"215 list follows", b"list 3 1 n", b"."],
    ),
    (b"", b"LIST ACTIVE x\n", &[b"215 list follows", b"."]),
    (b"", b"LIST ACTIVE l[i]st\n", &[b"501 syntax"]),
    (b"", b"LIST ACTIVE * *\n", &[b"501 syntax"]),
    (
        b"",
        b"LIST ACTIVE.TIMES\n",
        &[b"215 list follows", b"list 1706780000 piv2", b"."],
    ),
    (
        b"",
        b"LIST NEWSGROUPS\n",
        &[b"215 list follows", b"list\tpublic-inbox archive", b"."],
    ),
    (
        b"",
        b"LIST NEWSGROUPS other\n",
        &[b"215 list follows", b"."],
    ),
    (
        b"",
        b"LIST OVERVIEW.FMT\n",
        &[
            b"215 list follows",
            b"Subject:",
            b"From:",
            b"Date:",
            b"Message-ID:",
            b"References:",
            b":bytes",
            b":lines",
            b".",
        ],
    ),
    (b"", b"LIST OVERVIEW.FMT *\n", &[b"501 syntax"]),
    (
        b"",
        b"LIST HEADERS\n",
        &[b"215 list follows", b":", b":bytes", b":lines", b"."],
    ),
    (
        b"",
        b"LIST HEADERS range\n",
        &[b"215 list follows", b":", b":bytes", b":lines", b"."],
    ),
    (
        b"",
        b"LIST HEADERS MSGID\n",
        &[b"215 list follows", b":", b":bytes", b":lines", b"."],
    ),
    (b"", b"LIST HEADERS x\n", &[b"501 syntax"]),
    (b"", b"LIST DISTRIB.PATS\n", &[b"501 syntax"]),
    (
        b"",
        b"NEWGROUPS 20240201 093320\n",
        &[b"231 list follows", b"list 3 1 n", b"."],
    ),
    (
        b"",
        b"NEWGROUPS 20240201 093321 GMT\n",
        &[b"231 list follows", b"."],
    ),
    (
        b"",
        b"NEWGROUPS 240201 000000 gmt\n",
        &[b"231 list follows", b"list 3 1 n", b"."],
    ),
    (
        b"",
        b"NEWGROUPS 250101 000000\n",
        &[b"231 list follows", b"list 3 1 n", b"."],
    ),
    (
        b"",
        b"NEWGROUPS 19000101 000000\n",
        &[b"231 list follows", b"list 3 1 n", b"."],
    ),
    (b"", b"NEWGROUPS 230229 000000\n", &[b"501 syntax"]),
    (b"", b"NEWGROUPS 20240201\n", &[b"501 syntax"]),
    (b"", b"NEWGROUPS 20240201 093320 EST\n", &[b"501 syntax"]),
    (
        b"",
        b"NEWNEWS * 20240201 095000\n",
        &[b"230 list follows", b"<a@x>", b"<c@x>", b"."],
    ),
    (
        b"",
        b"NEWNEWS list 20240201 095001 GMT\n",
        &[b"230 list follows", b"<c@x>", b"."],
    ),
    (
        b"",
        b"NEWNEWS list 20240201 095321\n",
        &[b"230 list follows", b"."],
    ),
    (
        b"",
        b"NEWNEWS other 20240201 000000\n",
        &[b"230 list follows", b"."],
    ),
    (b"", b"NEWNEWS l\\st 20240201 000000\n", &[b"501 syntax"]),
    (b"", b"NEWNEWS * 20240201\n", &[b"501 syntax"]),
];

/// A message with fields on two lines, and with a MIME word in the field of its author.
const FOLDED: &[u8] =
    b"Received: from mx.example.net\n\tby lists.example.org; Thu, 1 Feb 2024 11:59:58 +0100\nFrom: =?UTF-8?Q?Bj=C3=B6rn?= <bob@example.net>\nTo: list@example.org\nSubject: [PATCH 1/2] fix\n\tthe build\nDate: Thu, 1 Feb 2024 11:59:57 +0100 (CET)\nMessage-ID: <p1@example.net>\nReferences: <a@x>\n <b@x>\n\n> quoted\ndiff\n";

/// The reply to `OVER 1` where that is the only message.
const FOLDED_OVERVIEW: [&[u8]; 3] = [
    b"224 overview follows",
    b"1\t[PATCH 1/2] fix the build\t=?UTF-8?Q?Bj=C3=B6rn?= <bob@example.net>\tThu, 1 Feb 2024 11:59:57 +0100 (CET)\t<p1@example.net>\t<a@x> <b@x>\t313\t2",
    b".",
];

/// Returns whether a command gets its reply.
fn is_answered(alloc: Global, case: &Case) -> Option<bool> {
    let mut connection = Connection::to_two(alloc)?;
    connection.hear(case.0);
    let before = connection.said();
    connection.hear(case.1);
    Some(connection.has_said(before, case.2, Next::Go))
}

/// Returns whether `OVER 1` of the folded message, which is the only one, gets its reply.
fn is_unfolded(alloc: Global) -> Option<bool> {
    let mut connection = Connection::to_empty(alloc)?;
    if !connection.deliver(FOLDED) {
        return Some(false);
    }
    connection.hear(GROUP);
    let before = connection.said();
    connection.hear(b"OVER 1\n");
    Some(connection.has_said(before, &FOLDED_OVERVIEW, Next::Go))
}

#[test]
fn commands_on_the_session_are_answered(rt: HostRuntime) {
    for case in &SESSION {
        assert!(rt; is_answered(rt.alloc(), case) == Some(true));
    }
}

#[test]
fn commands_on_the_group_are_answered(rt: HostRuntime) {
    for case in &GROUPS {
        assert!(rt; is_answered(rt.alloc(), case) == Some(true));
    }
}

#[test]
fn commands_on_articles_are_answered(rt: HostRuntime) {
    for case in &ARTICLES {
        assert!(rt; is_answered(rt.alloc(), case) == Some(true));
    }
}

#[test]
fn overviews_and_headers_are_answered(rt: HostRuntime) {
    for case in &HEADERS {
        assert!(rt; is_answered(rt.alloc(), case) == Some(true));
    }
}

#[test]
fn lists_are_answered(rt: HostRuntime) {
    for case in &LISTS {
        assert!(rt; is_answered(rt.alloc(), case) == Some(true));
    }
}

#[test]
fn an_overview_unfolds_fields_and_keeps_mime_words(rt: HostRuntime) {
    assert!(rt; is_unfolded(rt.alloc()) == Some(true));
}
