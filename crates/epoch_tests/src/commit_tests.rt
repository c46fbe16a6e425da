//! Commits and epochs against git, and authors against the rules.
use arch_base::{Bytes, Form, NoMemory, ObjectId, id_of_hex};
use fixtures::{FIRST, FIRST_COMMIT, FIRST_ID, MOMENT, SECOND, SECOND_COMMIT};
use git_objects::{Commit, EntryKind, blob_id, commit_bytes, object_id, tree_bytes};
use mail_commits::{EntryIds, EntryText, entry_commit, push_entry};
use mail_reader::stored;
use std::alloc::Global;
use std::test::Fail;

/// A mail as it was sent.
const MAIL: &[u8] =
    b"From bob@example.net Thu Feb  1 12:00:00 2024\r\nReceived: from mx.example.net\r\n\tby lists.example.org; Thu, 1 Feb 2024 11:59:58 +0100\r\nFrom: =?UTF-8?Q?Bj=C3=B6rn?= <bob@example.net>\r\nTo: list@example.org\r\nSubject: [PATCH 1/2] fix\r\n\tthe build\r\nDate: Thu, 1 Feb 2024 11:59:57 +0100 (CET)\r\nMessage-ID: <p1@example.net>\r\nReferences: <a@x>\r\n <b@x>\r\nStatus: RO\r\n\r\n> quoted\r\ndiff\r\n";

/// Returns the id of the tree of a message with a text.
fn tree_id(text: &[u8]) -> ObjectId {
    let tree = tree_bytes(EntryKind::Message, &blob_id(text, Form::Sha1));
    object_id(tree.as_slice(), Form::Sha1)
}

/// Returns the commit of a text without a parent, with the tree that has the text.
fn commit_alone(alloc: Global, text: &[u8], moment: u64) -> Result<Commit, NoMemory> {
    let tree = tree_id(text);
    entry_commit(alloc, text, &tree, None, moment)
}

/// Returns the id of the commit of `MAIL` in its storage form, or `None` out of memory.
fn commit_id_of_mail(alloc: Global) -> Option<ObjectId> {
    let text = stored(alloc, MAIL).ok()?;
    let tree = tree_id(text.as_slice());
    let commit = entry_commit(alloc, text.as_slice(), &tree, None, 1_706_785_200).ok()?;
    let spelling = commit_bytes(alloc, &commit).ok()?;
    Some(object_id(spelling.as_slice(), Form::Sha1))
}

#[test]
fn a_mail_has_the_commit_of_git(rt: HostRuntime) {
    let wanted = id_of_hex(b"51e540b2b6ca52ad17a770e97c87d3b703039485", Form::Sha1);
    assert!(rt; commit_id_of_mail(rt.alloc()) == wanted);
}

/// Appends an entry of a text to an epoch, and returns its ids.
fn push(
    alloc: Global,
    kind: EntryKind,
    text: &[u8],
    parent: Option<ObjectId>,
    epoch: &mut Bytes,
) -> Result<EntryIds, NoMemory> {
    let form = Form::Sha1;
    let entry = EntryText {
        form,
        kind,
        text,
        moment: MOMENT,
    };
    push_entry(alloc, &entry, &blob_id(text, form), parent, epoch)
}

/// Returns the ids of the commits of two entries of an epoch, each with the epoch's length after
/// it.
fn two_entries(alloc: Global) -> Result<(ObjectId, usize, ObjectId, usize), NoMemory> {
    let mut epoch = Bytes::new(alloc);
    epoch.push_slice(b"PIV2EP1\n")?;
    let first = push(alloc, EntryKind::Message, FIRST, None, &mut epoch)?.commit;
    let one = epoch.as_slice().len();
    let second = push(alloc, EntryKind::Message, SECOND, Some(first), &mut epoch)?.commit;
    Ok((first, one, second, epoch.as_slice().len()))
}

#[test]
fn an_epoch_has_the_objects_of_git(rt: HostRuntime) {
    match two_entries(rt.alloc()) {
        Ok((first, one, second, two)) => {
            assert!(rt; one == 316 && two == 672);
            assert!(rt; Some(first) == id_of_hex(FIRST_COMMIT, Form::Sha1));
            assert!(rt; Some(second) == id_of_hex(SECOND_COMMIT, Form::Sha1));
        }
        Err(NoMemory) => assert!(rt; false),
    }
}

/// Returns the ids of a deletion's entry after a message's, and the length of both entries.
fn deletion(alloc: Global) -> Result<(EntryIds, usize), NoMemory> {
    let mut epoch = Bytes::new(alloc);
    let message = push(alloc, EntryKind::Message, FIRST, None, &mut epoch)?;
    let ids = push(
        alloc,
        EntryKind::Deletion,
        FIRST,
        Some(message.commit),
        &mut epoch,
    )?;
    Ok((ids, epoch.as_slice().len()))
}

#[test]
fn a_deletion_has_the_objects_of_git(rt: HostRuntime) {
    match deletion(rt.alloc()) {
        Ok((ids, len)) => {
            assert!(rt; len == 664);
            assert!(rt; Some(ids.blob) == id_of_hex(FIRST_ID, Form::Sha1));
            assert!(rt;
                Some(ids.commit)
                    == id_of_hex(b"e253e69d44ecbc2174d67cdd415d3b3c1ebdef26", Form::Sha1)
            );
        }
        Err(NoMemory) => assert!(rt; false),
    }
}

/// A header, and the author that the rules give its commit.
#[derive(Drop)]
struct Author {
    header: &'static [u8],
    name: &'static [u8],
    email: &'static [u8],
}

/// Headers with and without a From field, and its forms.
const AUTHORS: [Author; 17] = [
    Author {
        header: b"From: Ann <a@b>\n",
        name: b"Ann",
        email: b"a@b",
    },
    Author {
        header: b"FROM: Ann\n\tLee <a@b>\n",
        name: b"Ann Lee",
        email: b"a@b",
    },
    Author {
        header: b"From: <a@b> (Ann)\n",
        name: b"a@b",
        email: b"a@b",
    },
    Author {
        header: b"From: (Ann) <a@b>\n",
        name: b"a@b",
        email: b"a@b",
    },
    Author {
        header: b"From: a@b (Ann)\n",
        name: b"Ann",
        email: b"a@b",
    },
    Author {
        header: b"From: a@b (x) ()\n",
        name: b"a@b",
        email: b"a@b",
    },
    Author {
        header: b"From: =?utf-8?Q?(x)?= <a@b>\n",
        name: b"a@b",
        email: b"a@b",
    },
    Author {
        header: b"From: =?utf-8?Q?=01?= <a@b>\n",
        name: b"a@b",
        email: b"a@b",
    },
    Author {
        header: b"From: =?utf-8?Q?a=3Cb=3E_?= <a@b>\n",
        name: b"ab",
        email: b"a@b",
    },
    Author {
        header: b"From: A <=?utf-8?Q?b?=@c>\n",
        name: b"A",
        email: b"=?utf-8?Q?b?=@c",
    },
    Author {
        header: b"From: root\n",
        name: b"root@",
        email: b"root@",
    },
    Author {
        header: b"From: Name <>\n",
        name: b"Name",
        email: b"@",
    },
    Author {
        header: b"From: <@>\n",
        name: b"@",
        email: b"@",
    },
    Author {
        header: b"From: \"a@b\"\n",
        name: b"\"a@b\"",
        email: b"\"a@b\"",
    },
    Author {
        header: b"From: us: Ann <a@b>, c@d;\n",
        name: b"Ann",
        email: b"a@b",
    },
    Author {
        header: b"From: ,\nFrom: Ann <a@b>\n",
        name: b"Ann",
        email: b"a@b",
    },
    Author {
        header: b"Subject: s\n",
        name: b"unknown",
        email: b"",
    },
];

/// Returns whether a text's commit has this author.
fn has_author(alloc: Global, row: &Author) -> Result<bool, NoMemory> {
    let commit = commit_alone(alloc, row.header, 5)?;
    Ok(commit.author.as_slice() == row.name && commit.email.as_slice() == row.email)
}

#[test]
fn authors_are_named_by_the_rules(rt: HostRuntime) -> Result<(), Fail> {
    for (index, row) in AUTHORS.iter().enumerate() {
        assert!(rt; has_author(rt.alloc(), row)?, "row {index}");
    }
    Ok(())
}

/// A header, and the subject, the seconds and the zone of its commit, which is made at second 5.
#[derive(Drop)]
struct Subject {
    header: &'static [u8],
    subject: &'static [u8],
    secs: u64,
    zone: i16,
}

/// Headers with and without a Subject field and a Date field.
const SUBJECTS: [Subject; 8] = [
    Subject {
        header: b"Subject:  one \nSubject: two\n",
        subject: b"one",
        secs: 5,
        zone: 0,
    },
    Subject {
        header: b"Subject: =?utf-8?Q?a=0Ab?=\n",
        subject: b"ab",
        secs: 5,
        zone: 0,
    },
    Subject {
        header: b"Subject: =?utf-8?Q?_?= <x>\n",
        subject: b"x",
        secs: 5,
        zone: 0,
    },
    Subject {
        header: b"From: Ann <a@b>\n",
        subject: b"",
        secs: 5,
        zone: 0,
    },
    Subject {
        header: b"Date: Thu, 1 Feb 2024 11:59:57 +0100\n",
        subject: b"",
        secs: 1_706_785_197,
        zone: 60,
    },
    Subject {
        header: b"date: 9 Mar 2021 07:08:09 -0330\n",
        subject: b"",
        secs: 1_615_286_289,
        zone: -210,
    },
    Subject {
        header: b"Date: soon\nDate: Thu, 1 Feb 2024 10:00:00 +0000\n",
        subject: b"",
        secs: 5,
        zone: 0,
    },
    Subject {
        header: b"Date:\n Thu, 1 Feb 2024\n\t11:59:57 +0100\n",
        subject: b"",
        secs: 1_706_785_197,
        zone: 60,
    },
];

/// Returns whether a text's commit has this subject and this time.
fn has_subject(alloc: Global, row: &Subject) -> Result<bool, NoMemory> {
    let commit = commit_alone(alloc, row.header, 5)?;
    let timed = commit.secs == row.secs && commit.zone == row.zone && commit.committed == 5;
    Ok(timed && commit.subject.as_slice() == row.subject)
}

#[test]
fn subjects_and_times_are_those_of_the_text(rt: HostRuntime) -> Result<(), Fail> {
    for (index, row) in SUBJECTS.iter().enumerate() {
        assert!(rt; has_subject(rt.alloc(), row)?, "row {index}");
    }
    Ok(())
}
