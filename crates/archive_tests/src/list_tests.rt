//! Lists of mirrors, of archives in memory, against lists whose ids git worked out.
use arch_base::{Config, Form, Name};
use arch_model::Command;
use fixtures::{FIRST, LATER, MOMENT};
use mem_archive::MemArchive;
use mirror_wire::{ListRefusal, MirrorList, read, write};
use std::alloc::Global;
use std::test::Fail;

/// The list of an archive with the first mail.
const LIST: &[u8] =
    b"piv2 list 1\nlist\n2\nm 1 0 1706781700 1d023c572ccd6f3cc82ae855343346b043adaba5 103 d621b450ae1fbf27a31c9879d84eb9de5473a8b9\nend\n";

/// The same list with ids of SHA-256.
const WIDE_LIST: &[u8] =
    b"piv2 list 2\nlist\n2\nm 1 0 1706781700 70b16dd75f8e20a6ef189426d439d7b42c747bf41f86ce4d7127c6e6fe19cd8f 103 d19879bb23cab42831fe17e24121a2dafff4923380bb817515cd88dce7c2f63d\nend\n";

/// The list of an archive from which the mail was removed.
const GONE_LIST: &[u8] =
    b"piv2 list 1\nlist\n2\nm 1 0 1706781700 1d023c572ccd6f3cc82ae855343346b043adaba5 103 d621b450ae1fbf27a31c9879d84eb9de5473a8b9\nd 1 0 1706781800 1d023c572ccd6f3cc82ae855343346b043adaba5 103 9bd6679b0a84e8d56dfbfdbd3183a1c7c5faeef3\nend\n";

/// Returns an archive with ids of a form and the first mail.
fn with_first(alloc: Global, form: Form) -> Option<MemArchive> {
    let config = Config {
        name: Name::read(b"list")?,
        limit: 1_073_741_824,
        slice: 50_000,
        max: 10,
        mirror: false,
        born: 1,
        form,
    };
    let mut archive = MemArchive::new(alloc, config);
    let _ = archive.command(&Command::Deliver(FIRST), MOMENT);
    Some(archive)
}

/// Returns whether the list of an archive with the first mail is this one, of so many bytes.
fn is_written(alloc: Global, form: Form, list: &[u8], len: usize) -> Result<bool, Fail> {
    let archive = with_first(alloc, form).ok_or("settings")?;
    let text = write(alloc, &archive)?;
    Ok(text.as_slice() == list && list.len() == len)
}

#[test]
fn the_list_of_a_mail_has_126_bytes(rt: HostRuntime) -> Result<(), Fail> {
    assert!(rt; is_written(rt.alloc(), Form::Sha1, LIST, 126)?);
    Ok(())
}

#[test]
fn with_ids_of_sha_256_it_has_174_bytes(rt: HostRuntime) -> Result<(), Fail> {
    assert!(rt; is_written(rt.alloc(), Form::Sha256, WIDE_LIST, 174)?);
    Ok(())
}

#[test]
fn a_list_has_removals(rt: HostRuntime) -> Result<(), Fail> {
    let mut archive = with_first(rt.alloc(), Form::Sha1).ok_or("settings")?;
    let _ = archive.command(&Command::Remove(1), LATER);
    let text = write(rt.alloc(), &archive)?;
    assert!(rt; text.as_slice() == GONE_LIST);
    Ok(())
}

/// Returns whether a list has the name `list`, the next number 2 and so many entries, of which the
/// first is the mail's.
fn has_entries(list: &MirrorList, count: usize) -> bool {
    let lines = list.lines.as_slice();
    let first = match lines.first() {
        Some(line) => line.number == 1 && line.secs == MOMENT && line.size == 103,
        None => false,
    };
    list.name.as_slice() == b"list".as_slice() && list.next == 2 && lines.len() == count && first
}

/// Returns whether a text is read as a list with so many entries.
fn is_read(alloc: Global, text: &[u8], form: Form, count: usize) -> bool {
    match read(alloc, text, form) {
        Ok(list) => has_entries(&list, count),
        Err(_) => false,
    }
}

#[test]
fn lists_are_read_back(rt: HostRuntime) {
    assert!(rt; is_read(rt.alloc(), LIST, Form::Sha1, 1));
    assert!(rt; is_read(rt.alloc(), WIDE_LIST, Form::Sha256, 1));
    assert!(rt; is_read(rt.alloc(), GONE_LIST, Form::Sha1, 2));
}

/// Returns whether a text is refused at a line.
fn is_bad_at(alloc: Global, text: &[u8], form: Form, line: u64) -> bool {
    match read(alloc, text, form) {
        Err(ListRefusal::BadList(found)) => found == line,
        _ => false,
    }
}

#[test]
fn texts_are_refused_at_their_first_bad_line(rt: HostRuntime) {
    let whole = LIST.len();
    for (text, form, line) in [
        (LIST, Form::Sha256, 1),
        (WIDE_LIST, Form::Sha1, 1),
        (&b"piv2 list 1\nLisp\n2\nend\n"[..], Form::Sha1, 2),
        (b"piv2 list 1\nlist\n0\nend\n", Form::Sha1, 3),
        (b"piv2 list 1\nlist\n1\nm 1", Form::Sha1, 4),
        (&LIST[..whole - 4], Form::Sha1, 5),
        (&LIST[..whole - 1], Form::Sha1, 5),
        (b"piv2 list 1\nlist\n1\nend\n\n", Form::Sha1, 5),
    ] {
        assert!(rt; is_bad_at(rt.alloc(), text, form, line));
    }
}
