//! Epochs of three entries whose bytes were made by another program: what is written, what is seen
//! of them, and where they are damaged.
ghost use Rattle.std.specs.Prelude.{◌≡◌};
ghost use Rattle.mail_commits.specs.Ids.{text_ids_of};

use arch_base::{Bytes, Form, NoMemory, ObjectId, id_of_hex};
use disk_model::{Disk, DiskFault, FileKind, FileName, FuseDisk, WalkRefusal};
use epoch_file::{NewEntry, Seen, StoreRefusal, Written, law_of_epochs, walk};
use fixtures::{
    FIRST, FIRST_COMMIT, FIRST_ID, MOMENT, SECOND, SECOND_COMMIT, SECOND_ID, add_entry, cut,
    empty_disk, write,
};
use git_objects::{EntryKind, blob_id, object_id};
use mail_commits::{EntryText, magic, push_entry, text_ids};
use std::alloc::Global;
use std::process::Abort;
use std::test::Fail;

/// The content id of both mails.
const CONTENT: [u8; 32] =
    *b"\xc0\xab\x89\x9a\xf6\x53\xc9\x7f\x12\xe0\x50\x42\x7b\x5e\x74\xb9\x67\x2c\x67\x4e\x02\xe1\xd9\xae\x1a\x67\x2a\xd8\x2d\xcf\x59\xb6";

const FILE: FileName = FileName {
    kind: FileKind::Epoch,
    number: 0,
    generation: 1,
};

/// The length of the epoch: the first message, the second, and the first deleted.
const LENGTH: u64 = 1028;

/// Returns an entry with SHA-1 ids.
fn entry(kind: EntryKind, text: &[u8], moment: u64, parent: Option<ObjectId>) -> NewEntry<'_>
    ensures { result.ids ≡ text_ids_of result.form result.text.now }
{
    entry_in(Form::Sha1, kind, text, moment, parent)
}

/// Returns an entry with ids of a form.
fn entry_in(
    form: Form,
    kind: EntryKind,
    text: &[u8],
    moment: u64,
    parent: Option<ObjectId>,
) -> NewEntry<'_>
    ensures { result.ids ≡ text_ids_of result.form result.text.now }
{
    NewEntry {
        kind,
        text,
        ids: text_ids(text, form),
        moment,
        parent,
        form,
    }
}

/// Appends the three entries to the file with SHA-1 ids, and returns where each ends, and its ids.
fn fill<D: Disk>(alloc: Global, disk: &mut D) -> Result<(Written, Written, Written), StoreRefusal> {
    fill_in(alloc, disk, Form::Sha1)
}

/// Appends the three entries to the file with ids of a form.
fn fill_in<D: Disk>(
    alloc: Global,
    disk: &mut D,
    form: Form,
) -> Result<(Written, Written, Written), StoreRefusal> {
    let new = entry_in(form, EntryKind::Message, FIRST, MOMENT, None);
    let first = add_entry(alloc, disk, FILE, 0, &new)?;
    let after = Some(first.commit);
    let new = entry_in(form, EntryKind::Message, SECOND, MOMENT, after);
    let second = add_entry(alloc, disk, FILE, first.end, &new)?;
    let after = Some(second.commit);
    let new = entry_in(form, EntryKind::Deletion, FIRST, 1_706_781_800, after);
    let third = add_entry(alloc, disk, FILE, second.end, &new)?;
    Ok((first, second, third))
}

/// Returns how many entries with SHA-1 ids a walk finds, or why it stops.
fn count<D: Disk>(alloc: Global, disk: &mut D, length: u64) -> Result<usize, WalkRefusal> {
    count_of(alloc, disk, length, Form::Sha1)
}

/// Returns how many entries with ids of a form a walk finds, or why it stops.
fn count_of<D: Disk>(
    alloc: Global,
    disk: &mut D,
    length: u64,
    form: Form,
) -> Result<usize, WalkRefusal> {
    let seen = walk(alloc, disk, FILE, length, form)?;
    Ok(seen.as_slice().len())
}

/// Returns whether what is seen is this entry.
fn is_entry(
    seen: &Seen,
    kind: EntryKind,
    at: u64,
    moment: u64,
    id: &[u8],
    written: &Written,
) -> bool {
    let placed = seen.kind == kind && seen.at == at && at < 1000 && seen.text_at == at + 9;
    let made = seen.blob == written.blob && seen.commit == written.commit;
    placed
        && made
        && seen.size == 103
        && seen.moment == moment
        && seen.id.as_slice() == id
        && seen.content == CONTENT
}

/// Returns whether the entries end where they should and have the ids that git gives them.
fn are_written(first: &Written, second: &Written, third: &Written) -> bool {
    let ends = first.end == 316 && second.end == 672 && third.end == LENGTH;
    let blob = id_of_hex(FIRST_ID, Form::Sha1);
    let blobs = Some(first.blob) == blob
        && Some(second.blob) == id_of_hex(SECOND_ID, Form::Sha1)
        && Some(third.blob) == blob;
    let commits = Some(first.commit) == id_of_hex(FIRST_COMMIT, Form::Sha1)
        && Some(second.commit) == id_of_hex(SECOND_COMMIT, Form::Sha1)
        && Some(third.commit) == id_of_hex(b"0226d8ce5d3c8b5696c8160864001653bc08f512", Form::Sha1);
    ends && blobs && commits
}

/// Returns whether the file has as many bytes as it should, of the hash that another program gives
/// them.
fn has_bytes<D: Disk>(disk: &mut D) -> Result<bool, DiskFault> {
    let mut bytes = [0; 1029];
    let count = disk.read(FILE, 0, &mut bytes)?;
    let all = object_id(bytes.split_at(1028).0, Form::Sha1);
    let same = Some(all) == id_of_hex(b"f2f5ceb1c17aa3c6cc89683f80cf518e10584467", Form::Sha1);
    Ok(count == 1028 && same)
}

#[test]
fn an_epoch_has_the_bytes_of_another_program(rt: HostRuntime) -> Result<(), Fail> {
    law_of_epochs();
    let alloc = rt.alloc();
    let mut disk = empty_disk(alloc);
    let (first, second, third) = fill(alloc, &mut disk)?;
    assert!(rt; are_written(&first, &second, &third));
    assert!(rt; has_bytes(&mut disk)?);
    Ok(())
}

/// Returns whether a walk sees the three entries that were written.
fn sees_entries<D: Disk>(
    alloc: Global,
    disk: &mut D,
    first: &Written,
    second: &Written,
    third: &Written,
) -> Result<bool, WalkRefusal> {
    let found = walk(alloc, disk, FILE, LENGTH, Form::Sha1)?;
    let [one, two, three] = found.as_slice() else {
        return Ok(false);
    };
    let one = is_entry(one, EntryKind::Message, 8, MOMENT, b"<a@x>", first);
    let two = is_entry(two, EntryKind::Message, 316, MOMENT, b"<b@x>", second);
    let three = is_entry(
        three,
        EntryKind::Deletion,
        672,
        1_706_781_800,
        b"<a@x>",
        third,
    );
    Ok(one && two && three)
}

#[test]
fn a_walk_sees_each_entry(rt: HostRuntime) -> Result<(), Fail> {
    let alloc = rt.alloc();
    let mut disk = empty_disk(alloc);
    let (first, second, third) = fill(alloc, &mut disk)?;
    assert!(rt; sees_entries(alloc, &mut disk, &first, &second, &third)?);
    Ok(())
}

/// Returns where a walk of the epoch ends if the byte at this offset is another one, or that the
/// walk still sees three entries. A digit of a commit's moment makes another commit, which the next
/// one doesn't name.
fn broken(offset: u64) -> Result<usize, WalkRefusal> {
    match offset {
        1005..1014 => Ok(3),
        0..8 => Err(WalkRefusal::Damaged { at: 0 }),
        293..302 | 316..649 | 658..672 => Err(WalkRefusal::Damaged { at: 316 }),
        8..316 => Err(WalkRefusal::Damaged { at: 8 }),
        _ => Err(WalkRefusal::Damaged { at: 672 }),
    }
}

/// Makes a byte another one and back, and returns whether a walk in between finds what it should.
fn is_broken<D: Disk>(alloc: Global, disk: &mut D, offset: u64) -> Result<bool, DiskFault> {
    let mut byte = [0];
    let read = disk.read(FILE, offset, &mut byte)?;
    write(disk, FILE, offset, &[byte[0] ^ 1])?;
    let same = count(alloc, disk, LENGTH) == broken(offset);
    write(disk, FILE, offset, &byte)?;
    Ok(read == 1 && same)
}

/// Makes each byte of the epoch another one and back, and walks it.
fn break_each<D: Disk>(rt: &impl Abort, alloc: Global, disk: &mut D) -> Result<(), DiskFault> {
    for offset in 0..LENGTH {
        assert!(rt; is_broken(alloc, disk, offset)?, "offset {offset}");
    }
    assert_eq!(rt; count(alloc, disk, LENGTH), Ok(3));
    Ok(())
}

#[test]
fn each_byte_that_is_another_one_is_damage_at_its_entry(rt: HostRuntime) -> Result<(), Fail> {
    let mut disk = empty_disk(rt.alloc());
    fill(rt.alloc(), &mut disk)?;
    break_each(&rt, rt.alloc(), &mut disk)?;
    Ok(())
}

/// Returns what a walk over so many bytes finds. No entry stands after the epoch.
fn found_in(length: u64) -> Result<usize, WalkRefusal> {
    match length {
        0..8 => Err(WalkRefusal::Damaged { at: 0 }),
        8..316 => Err(WalkRefusal::Damaged { at: 8 }),
        316 => Ok(1),
        317..672 => Err(WalkRefusal::Damaged { at: 316 }),
        672 => Ok(2),
        673..1028 => Err(WalkRefusal::Damaged { at: 672 }),
        LENGTH => Ok(3),
        _ => Err(WalkRefusal::Damaged { at: LENGTH }),
    }
}

/// Walks the epoch up to each length below 1,033.
fn walk_to_each<D: Disk>(rt: &impl Abort, alloc: Global, disk: &mut D) -> Result<(), DiskFault> {
    write(disk, FILE, LENGTH, b"more")?;
    for length in 0..1033 {
        let same = count(alloc, disk, length) == found_in(length);
        assert!(rt; same, "length {length}");
    }
    Ok(())
}

#[test]
fn only_the_named_bytes_count(rt: HostRuntime) -> Result<(), Fail> {
    let mut disk = empty_disk(rt.alloc());
    fill(rt.alloc(), &mut disk)?;
    walk_to_each(&rt, rt.alloc(), &mut disk)?;
    Ok(())
}

/// Returns where a walk over the epoch ends if its file has only so many bytes.
fn cut_at(length: u64) -> u64 {
    match length {
        0..8 => 0,
        8..316 => 8,
        316..672 => 316,
        _ => 672,
    }
}

/// Cuts the epoch's file to a length, and returns whether a walk finds the damage there.
fn is_damaged_cut<D: Disk>(alloc: Global, disk: &mut D, length: u64) -> Result<bool, DiskFault> {
    cut(disk, FILE, length)?;
    let found = count(alloc, disk, LENGTH);
    Ok(found == Err(WalkRefusal::Damaged { at: cut_at(length) }))
}

/// Cuts the epoch's file to each length below its own, from the greatest on, and walks the epoch.
fn cut_each<D: Disk>(rt: &impl Abort, alloc: Global, disk: &mut D) -> Result<(), DiskFault> {
    for gone in 1..1029 {
        assert!(rt;
            is_damaged_cut(alloc, disk, LENGTH - gone)?,
            "{gone} bytes fewer"
        );
    }
    Ok(())
}

/// Removes the epoch's file, and returns whether a walk finds damage at its start.
fn is_damaged_removed<D: Disk>(alloc: Global, disk: &mut D) -> Result<bool, DiskFault> {
    disk.remove(FILE)?;
    Ok(count(alloc, disk, LENGTH) == Err(WalkRefusal::Damaged { at: 0 }))
}

#[test]
fn a_file_that_ends_early_is_damaged_where_it_ends(rt: HostRuntime) -> Result<(), Fail> {
    let mut disk = empty_disk(rt.alloc());
    fill(rt.alloc(), &mut disk)?;
    cut_each(&rt, rt.alloc(), &mut disk)?;
    assert!(rt; is_damaged_removed(rt.alloc(), &mut disk)?);
    Ok(())
}

/// Returns whether the epoch is walked by two calls of the disk, and with fewer the fault is
/// answered.
fn is_walked_in_two_calls(alloc: Global, passes: u64) -> Result<bool, StoreRefusal> {
    let mut disk = empty_disk(alloc);
    fill(alloc, &mut disk)?;
    // A look at the length, and a read.
    let want = if passes < 2 {
        Err(WalkRefusal::DiskFault)
    } else {
        Ok(3)
    };
    Ok(count(alloc, &mut FuseDisk::new(disk, passes), LENGTH) == want)
}

/// Returns whether an entry is appended by two calls of the disk, and with fewer the fault is
/// answered.
fn is_appended_in_two_calls(alloc: Global, passes: u64) -> bool {
    let mut fuse = FuseDisk::new(empty_disk(alloc), passes);
    // A look at the length, and a write.
    let new = entry(EntryKind::Message, FIRST, MOMENT, None);
    match add_entry(alloc, &mut fuse, FILE, 0, &new) {
        Ok(written) => passes == 2 && written.end == 316,
        Err(refusal) => passes < 2 && refusal == StoreRefusal::DiskFault,
    }
}

#[test]
fn a_call_that_fails_is_no_answer(rt: HostRuntime) -> Result<(), Fail> {
    for passes in 0..4 {
        assert!(rt; is_walked_in_two_calls(rt.alloc(), passes)?, "{passes}");
    }
    for passes in 0..3 {
        assert!(rt; is_appended_in_two_calls(rt.alloc(), passes), "{passes}");
    }
    Ok(())
}

/// Returns the bytes of an epoch of one entry.
fn epoch_of(alloc: Global, text: &[u8], moment: u64) -> Result<Bytes, NoMemory> {
    let mut bytes = Bytes::new(alloc);
    let form = Form::Sha1;
    bytes.push_slice(&magic(form))?;
    let entry = EntryText {
        form,
        kind: EntryKind::Message,
        text,
        moment,
    };
    push_entry(alloc, &entry, &blob_id(text, form), None, &mut bytes)?;
    Ok(bytes)
}

/// Returns how many entries a walk finds in a file of these bytes.
fn count_in(alloc: Global, bytes: &[u8]) -> Result<usize, WalkRefusal> {
    let mut disk = empty_disk(alloc);
    write(&mut disk, FILE, 0, bytes)?;
    count(alloc, &mut disk, bytes.len() as u64)
}

/// Returns how many entries a walk finds of an epoch of one entry.
fn count_one(alloc: Global, text: &[u8], moment: u64) -> Result<usize, WalkRefusal> {
    let bytes = epoch_of(alloc, text, moment)?;
    count_in(alloc, bytes.as_slice())
}

/// An entry that is alone in its epoch, and whether an archive may keep it.
#[derive(Drop)]
struct Alone {
    text: &'static [u8],
    moment: u64,
    kept: bool,
}

/// Entries at the last moment and after it, without an id, and in their storage form or not.
static ALONE: [Alone; 5] = [
    Alone {
        text: FIRST,
        moment: 253_402_300_799,
        kept: true,
    },
    Alone {
        text: FIRST,
        moment: 253_402_300_800,
        kept: false,
    },
    Alone {
        text: b"Subject: s\n\n",
        moment: 5,
        kept: false,
    },
    Alone {
        text: b"Message-ID: <a@x>\r\n\r\n",
        moment: 5,
        kept: false,
    },
    Alone {
        text: b"Message-ID: <a@x>\n\n",
        moment: 5,
        kept: true,
    },
];

/// Returns whether a walk finds an entry that may be kept, and damage at any other.
fn is_kept_or_damage(alloc: Global, row: &Alone) -> bool {
    match count_one(alloc, row.text, row.moment) {
        Ok(count) => row.kept && count == 1,
        Err(refusal) => !row.kept && refusal == WalkRefusal::Damaged { at: 8 },
    }
}

#[test]
fn what_no_archive_keeps_is_damage(rt: HostRuntime) {
    for (index, row) in ALONE.iter().enumerate() {
        assert!(rt; is_kept_or_damage(rt.alloc(), row), "row {index}");
    }
}

/// Appends the second entry to the first one with this parent, and returns what a walk finds.
fn count_after<D: Disk>(
    alloc: Global,
    disk: &mut D,
    parent: Option<ObjectId>,
) -> Result<Result<usize, WalkRefusal>, StoreRefusal> {
    let second = add_entry(
        alloc,
        disk,
        FILE,
        316,
        &entry(EntryKind::Message, SECOND, 5, parent),
    )?;
    Ok(count(alloc, disk, second.end))
}

/// Returns whether a walk finds damage at the second entry where it has this parent. The file is
/// cut to the first one again.
fn is_wrong_parent<D: Disk>(
    alloc: Global,
    disk: &mut D,
    parent: Option<ObjectId>,
) -> Result<bool, StoreRefusal> {
    let found = count_after(alloc, disk, parent)?;
    cut(disk, FILE, 316)?;
    Ok(found == Err(WalkRefusal::Damaged { at: 316 }))
}

/// Appends the second entry to the first one with two wrong parents and with the right one, and
/// walks the epoch.
fn try_parents<D: Disk>(rt: &impl Abort, alloc: Global, disk: &mut D) -> Result<(), StoreRefusal> {
    let new = entry(EntryKind::Message, FIRST, MOMENT, None);
    let first = add_entry(alloc, disk, FILE, 0, &new)?;
    assert!(rt; is_wrong_parent(alloc, disk, None)?);
    assert!(rt; is_wrong_parent(alloc, disk, Some(first.blob))?);
    assert_eq!(rt; count_after(alloc, disk, Some(first.commit))?, Ok(2));
    Ok(())
}

#[test]
fn a_commit_after_another_one_is_damage(rt: HostRuntime) -> Result<(), Fail> {
    let mut disk = empty_disk(rt.alloc());
    try_parents(&rt, rt.alloc(), &mut disk)?;
    Ok(())
}

/// Returns a text that is longer than what is read at once.
fn long_text(alloc: Global) -> Result<Bytes, NoMemory> {
    let mut text = Bytes::new(alloc);
    text.push_slice(b"Message-ID: <l@x>\n\n")?;
    for _line in 0..3000 {
        text.push_slice(&[b'x'; 999])?;
        text.push(b'\n')?;
    }
    Ok(text)
}

/// Appends an entry of a long text and the first mail to the file.
fn put_long<D: Disk>(alloc: Global, disk: &mut D) -> Result<(Written, Written), StoreRefusal> {
    let text = long_text(alloc)?;
    let long = add_entry(
        alloc,
        disk,
        FILE,
        0,
        &entry(EntryKind::Message, text.as_slice(), 5, None),
    )?;
    let new = entry(EntryKind::Message, FIRST, 5, Some(long.commit));
    let last = add_entry(alloc, disk, FILE, long.end, &new)?;
    Ok((long, last))
}

/// Returns whether a walk sees the long entry and the last one.
fn sees_long<D: Disk>(
    alloc: Global,
    disk: &mut D,
    long: &Written,
    last: &Written,
) -> Result<bool, WalkRefusal> {
    let found = walk(alloc, disk, FILE, last.end, Form::Sha1)?;
    let [one, two] = found.as_slice() else {
        return Ok(false);
    };
    let sized = one.size == 3_000_019 && two.at == long.end;
    Ok(sized && two.commit == last.commit && two.id.as_slice() == b"<a@x>".as_slice())
}

/// Writes a size before the text of the first entry, and returns whether that is damage there.
fn is_wrong_size<D: Disk>(
    alloc: Global,
    disk: &mut D,
    size: &[u8],
    length: u64,
) -> Result<bool, DiskFault> {
    write(disk, FILE, 8, size)?;
    Ok(count(alloc, disk, length) == Err(WalkRefusal::Damaged { at: 8 }))
}

/// Returns whether a size that a text can't have, and one that runs past the end, are damage at the
/// first entry.
fn are_wrong_sizes<D: Disk>(alloc: Global, disk: &mut D, length: u64) -> Result<bool, DiskFault> {
    let too_large = is_wrong_size(alloc, disk, b"blob 9000000\0", length)?;
    let too_long = is_wrong_size(alloc, disk, b"blob 3900019\0", length)?;
    Ok(too_large && too_long)
}

/// Appends a long entry and another one to the file, and returns whether a walk sees them, and finds
/// wrong sizes.
fn walk_long<D: Disk>(alloc: Global, disk: &mut D) -> Result<bool, Fail> {
    let (long, last) = put_long(alloc, disk)?;
    let seen = sees_long(alloc, disk, &long, &last)?;
    let refused = are_wrong_sizes(alloc, disk, last.end)?;
    Ok(seen && refused)
}

#[test]
fn an_entry_may_be_longer_than_what_is_read_at_once(rt: HostRuntime) -> Result<(), Fail> {
    let mut disk = empty_disk(rt.alloc());
    assert!(rt; walk_long(rt.alloc(), &mut disk)?);
    Ok(())
}

/// The length of the epoch with SHA-256 ids.
const LONGER: u64 = 1184;

/// Returns whether the entries end where they should and have the SHA-256 ids that git gives them.
fn are_written_longer(first: &Written, second: &Written, third: &Written) -> bool {
    let form = Form::Sha256;
    let ends = first.end == 352 && second.end == 768 && third.end == LONGER;
    let blob = id_of_hex(
        b"70b16dd75f8e20a6ef189426d439d7b42c747bf41f86ce4d7127c6e6fe19cd8f",
        form,
    );
    let commit = id_of_hex(
        b"dc16e2a70742fd93a58ead7bf540cca89aaa8485879d3c28c1365f62ac13b774",
        form,
    );
    ends && Some(first.blob) == blob && Some(third.blob) == blob && Some(third.commit) == commit
}

/// Returns whether the file has as many bytes as it should, of the SHA-256 that another program gives
/// them.
fn has_longer_bytes<D: Disk>(disk: &mut D) -> Result<bool, DiskFault> {
    let mut bytes = [0; 1185];
    let count = disk.read(FILE, 0, &mut bytes)?;
    let all = object_id(bytes.split_at(1184).0, Form::Sha256);
    let same = Some(all)
        == id_of_hex(
            b"a4bc6e4705b4dd3d5e11f287609f2d63710a1da72e835e730cfaa6540d998fbf",
            Form::Sha256,
        );
    Ok(count == 1184 && same)
}

#[test]
fn an_epoch_of_sha256_ids_is_walked_in_that_form_alone(rt: HostRuntime) -> Result<(), Fail> {
    let alloc = rt.alloc();
    let mut disk = empty_disk(alloc);
    let (first, second, third) = fill_in(alloc, &mut disk, Form::Sha256)?;
    assert!(rt; are_written_longer(&first, &second, &third));
    assert!(rt; has_longer_bytes(&mut disk)?);
    assert_eq!(rt; count_of(alloc, &mut disk, LONGER, Form::Sha256), Ok(3));
    let other = count_of(alloc, &mut disk, LONGER, Form::Sha1);
    assert_eq!(rt; other, Err(WalkRefusal::Damaged { at: 0 }));
    Ok(())
}

#[test]
fn an_epoch_of_sha1_ids_is_damaged_in_the_other_form(rt: HostRuntime) -> Result<(), Fail> {
    let alloc = rt.alloc();
    let mut disk = empty_disk(alloc);
    fill(alloc, &mut disk)?;
    let other = count_of(alloc, &mut disk, LENGTH, Form::Sha256);
    assert_eq!(rt; other, Err(WalkRefusal::Damaged { at: 0 }));
    Ok(())
}
