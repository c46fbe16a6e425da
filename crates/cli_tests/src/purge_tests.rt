//! Runs of the program in which messages are purged and edited, over a disk in memory and by scripts.
use crate::disk_tests::{
    DELIVERED, ENOUGH, LATE, MAIL, Stopped, TAKEN, empty, is_done_or_not, printing_all,
    with_archive,
};
use crate::run_tests::{Due, is_as_due};
use disk_model::MemDisk;
use std::alloc::Global;
use std::test::Fail;

/// The message with another body.
const OTHER: &[u8] =
    b"From: Ann <ann@example.org>\nDate: Thu, 1 Feb 2024 10:00:00 +0000\nSubject: first\nMessage-ID: <a@x>\n\ntwo\n";

/// What the delivery of the message is answered under the number 2, and then its removal and its
/// purge.
const SECOND: &[u8] = b"1 ok 2 1d023c572ccd6f3cc82ae855343346b043adaba5\n";

/// Runs on an archive without messages. Messages are purged, live and removed, and no number is given
/// again; a reindexing counts none, and changes no check.
const PURGED: [Due<'_>; 12] = [
    Due {
        words: &["purge", "9"],
        input: b"",
        status: 1,
        printed: b"8 no text 9\n",
    },
    DELIVERED,
    Due {
        words: &["purge", "2"],
        input: b"",
        status: 1,
        printed: b"8 no text 2\n",
    },
    Due {
        words: &["purge", "1"],
        input: b"",
        status: 0,
        printed: TAKEN,
    },
    Due {
        words: &["check"],
        input: b"",
        status: 0,
        printed: b"entries 0 live 0 next 2\n",
    },
    Due {
        words: &["reindex"],
        input: b"",
        status: 0,
        printed: b"reindexed 0\n",
    },
    Due {
        words: &["check"],
        input: b"",
        status: 0,
        printed: b"entries 0 live 0 next 2\n",
    },
    Due {
        words: &["purge", "1"],
        input: b"",
        status: 1,
        printed: b"8 no text 1\n",
    },
    Due {
        words: &["deliver"],
        input: MAIL,
        status: 0,
        printed: SECOND,
    },
    Due {
        words: &["remove", "2"],
        input: b"",
        status: 0,
        printed: SECOND,
    },
    Due {
        words: &["purge", "2"],
        input: b"",
        status: 0,
        printed: SECOND,
    },
    Due {
        words: &["check"],
        input: b"",
        status: 0,
        printed: b"entries 0 live 0 next 3\n",
    },
];

/// Makes an archive, and the runs on it.
fn purged(alloc: Global) -> Option<MemDisk> {
    let disk = with_archive(alloc)?;
    printing_all(alloc, disk, &PURGED)
}

#[test]
fn a_purged_message_is_gone_and_its_number_with_it(rt: HostRuntime) {
    assert!(rt; purged(rt.alloc()).is_some());
}

/// Runs on an archive without messages. A message is edited: unchanged, without a field, to another body,
/// and where it isn't there any more.
const EDITED: [Due<'_>; 9] = [
    Due {
        words: &["edit", "1"],
        input: MAIL,
        status: 1,
        printed: b"7 not live 1\n",
    },
    DELIVERED,
    Due {
        words: &["edit", "1"],
        input: MAIL,
        status: 0,
        printed: b"2 duplicate 1\n",
    },
    Due {
        words: &["edit", "1"],
        input: b"",
        status: 1,
        printed: b"3 no fields\n",
    },
    Due {
        words: &["edit", "1"],
        input: OTHER,
        status: 0,
        printed: b"1 ok 2 939be2d6981fbe2900b8283be5936e32bb962cef\n",
    },
    Due {
        words: &["check"],
        input: b"",
        status: 0,
        printed: b"entries 1 live 1 next 3\n",
    },
    Due {
        words: &["edit", "1"],
        input: MAIL,
        status: 1,
        printed: b"7 not live 1\n",
    },
    Due {
        words: &["purge", "1"],
        input: b"",
        status: 1,
        printed: b"8 no text 1\n",
    },
    Due {
        words: &["reindex"],
        input: b"",
        status: 0,
        printed: b"reindexed 1\n",
    },
];

/// Makes an archive, and the runs on it.
fn edited(alloc: Global) -> Option<MemDisk> {
    let disk = with_archive(alloc)?;
    printing_all(alloc, disk, &EDITED)
}

#[test]
fn an_edited_message_has_a_number_of_its_own(rt: HostRuntime) {
    assert!(rt; edited(rt.alloc()).is_some());
}

/// Runs on a disk without an archive, and then on a mirror.
const REFUSED: [Due<'_>; 5] = [
    Due {
        words: &["purge", "1"],
        input: b"",
        status: 3,
        printed: b"no archive\n",
    },
    Due {
        words: &["edit", "1"],
        input: MAIL,
        status: 3,
        printed: b"no archive\n",
    },
    Due {
        words: &["init", "list", "mirror"],
        input: b"",
        status: 0,
        printed: b"made list\n",
    },
    Due {
        words: &["purge", "1"],
        input: b"",
        status: 1,
        printed: b"9 is mirror\n",
    },
    Due {
        words: &["edit", "1"],
        input: MAIL,
        status: 1,
        printed: b"9 is mirror\n",
    },
];

#[test]
fn nothing_is_purged_or_edited_without_an_archive_or_in_a_mirror(rt: HostRuntime) {
    assert!(rt; printing_all(rt.alloc(), empty(rt.alloc()), &REFUSED).is_some());
}

/// Runs that make an archive whose epochs take one entry each, and fill it so that one text stands in
/// three of them.
const IN_THREE: [Due<'_>; 4] = [
    Due {
        words: &["init", "list", "limit=1"],
        input: b"",
        status: 0,
        printed: b"made list\n",
    },
    DELIVERED,
    Due {
        words: &["remove", "1"],
        input: b"",
        status: 0,
        printed: TAKEN,
    },
    Due {
        words: &["deliver"],
        input: MAIL,
        status: 0,
        printed: SECOND,
    },
];

/// The purge of that text.
const PURGE: Stopped<'_> = Stopped {
    run: Due {
        words: &["purge", "2"],
        input: b"",
        status: 0,
        printed: SECOND,
    },
    before: b"entries 3 live 1 next 3\n",
    after: b"entries 0 live 0 next 3\n",
};

/// Makes that archive on a new disk.
fn in_three(alloc: Global) -> Option<MemDisk> {
    printing_all(alloc, empty(alloc), &IN_THREE)
}

#[test]
fn a_purge_that_is_stopped_early_is_done_or_not(rt: HostRuntime) -> Result<(), Fail> {
    for passes in 0..LATE {
        let filled = in_three(rt.alloc());
        let done = is_done_or_not(&rt, rt.alloc(), filled, &PURGE, passes)?;
        assert!(rt; !done);
    }
    Ok(())
}

#[test]
fn a_purge_that_is_stopped_late_is_done_or_not(rt: HostRuntime) -> Result<(), Fail> {
    for passes in LATE..ENOUGH {
        let filled = in_three(rt.alloc());
        if is_done_or_not(&rt, rt.alloc(), filled, &PURGE, passes)? {
            return Ok(());
        }
    }
    Ok(assert!(rt; false, "no run without a stop"))
}

/// Scripts worked out by hand: the first of two messages in one epoch is purged, and a number that has no
/// text; and a message is edited unchanged, without a field, and to another body.
const SCRIPTS: [Due<'_>; 3] = [
    Due {
        words: &["replay", "list", "limit=317"],
        input: b"1706781700 o 1 control\n1706781700 b 1 245\ndeliver 103\nFrom: Ann <ann@example.org>\nDate: Thu, 1 Feb 2024 10:00:00 +0000\nSubject: first\nMessage-ID: <a@x>\n\none\ndeliver 103\nFrom: Ann <ann@example.org>\nDate: Thu, 1 Feb 2024 10:00:00 +0000\nSubject: first\nMessage-ID: <b@x>\n\none\npurge 1\nepochs\n\n1706781900 s\n",
        status: 0,
        printed: b"1 477\n1 ok 1 1d023c572ccd6f3cc82ae855343346b043adaba5\n1 ok 2 71bad95e975640281da17cb561681235ca4c1f42\n1 ok 1 1d023c572ccd6f3cc82ae855343346b043adaba5\nepoch 0 316\nPIV2EP1\nblob 103\0From: Ann <ann@example.org>\nDate: Thu, 1 Feb 2024 10:00:00 +0000\nSubject: first\nMessage-ID: <b@x>\n\none\ntree 29\0100644 m\0q\xba\xd9^\x97V@(\x1d\xa1|\xb5ah\x125\xcaL\x1fBcommit 148\0tree d7ac61fd9609fdcc5f73f55f952a8ff4db1cd412\nauthor Ann <ann@example.org> 1706781600 +0000\ncommitter piv2 <piv2@localhost> 1706781700 +0000\n\nfirst\n\nend\n\n",
    },
    Due {
        words: &["replay", "list"],
        input: b"1706781700 o 1 control\n1706781700 b 1 40\npurge 9\nPURGE 1\npurge 0\npurge\npurge 1 2\n\n1706781701 s\n",
        status: 0,
        printed: b"1 60\n8 no text 9\n8 no text 1\n13 bad line\n13 bad line\n13 bad line\n\n",
    },
    Due {
        words: &["replay", "list"],
        input: b"1706781700 o 1 control\n1706781700 b 1 367\ndeliver 103\nFrom: Ann <ann@example.org>\nDate: Thu, 1 Feb 2024 10:00:00 +0000\nSubject: first\nMessage-ID: <a@x>\n\none\nedit 1 103\nFrom: Ann <ann@example.org>\nDate: Thu, 1 Feb 2024 10:00:00 +0000\nSubject: first\nMessage-ID: <a@x>\n\none\nedit 1 1\nxshow 1\nedit 1 103\nFrom: Ann <ann@example.org>\nDate: Thu, 1 Feb 2024 10:00:00 +0000\nSubject: first\nMessage-ID: <a@x>\n\ntwo\nshow 1\n\n1706781701 s\n",
        status: 0,
        printed: b"1 247\n1 ok 1 1d023c572ccd6f3cc82ae855343346b043adaba5\n2 duplicate 1\n3 no fields\ntext 103\nFrom: Ann <ann@example.org>\nDate: Thu, 1 Feb 2024 10:00:00 +0000\nSubject: first\nMessage-ID: <a@x>\n\none\n1 ok 2 939be2d6981fbe2900b8283be5936e32bb962cef\n7 not live 1\n\n",
    },
];

#[test]
fn scripts_that_purge_and_edit(rt: HostRuntime) {
    for due in &SCRIPTS {
        assert!(rt; is_as_due(rt.alloc(), due));
    }
}
