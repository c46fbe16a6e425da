//! Runs of the program over a disk in memory that convert an archive to SHA-256 ids.
use crate::disk_tests::{CHECKED, DELIVERED, MADE, empty, has_length, printing_all};
use crate::run_tests::Due;
use disk_model::{FileKind, MemDisk};

/// A run that converts an archive of one message.
const CONVERTED: Due<'_> = Due {
    words: &["convert"],
    input: b"",
    status: 0,
    printed: b"converted 1\n",
};

/// Runs that make an archive, fill it and convert it. It isn't converted a second time.
const RUNS: [Due<'_>; 7] = [
    Due {
        words: &["convert"],
        input: b"",
        status: 3,
        printed: b"no archive\n",
    },
    MADE,
    DELIVERED,
    CONVERTED,
    CHECKED,
    Due {
        words: &["convert"],
        input: b"",
        status: 1,
        printed: b"already converted\n",
    },
    CHECKED,
];

/// Returns whether a disk has the files of the third root, with a record and an entry of SHA-256 ids.
fn has_new_files(disk: &mut MemDisk) -> bool {
    let map = has_length(disk, FileKind::Map, 3, 40);
    let epoch = has_length(disk, FileKind::Epoch, 3, 352);
    map && epoch
}

#[test]
fn an_archive_is_converted_once(rt: HostRuntime) {
    let Some(mut disk) = printing_all(rt.alloc(), empty(rt.alloc()), &RUNS) else {
        return assert!(rt; false);
    };
    assert!(rt; has_new_files(&mut disk));
}

/// Runs that make a mirror, which is not converted.
const MIRRORED: [Due<'_>; 2] = [
    Due {
        words: &["init", "list", "mirror"],
        input: b"",
        status: 0,
        printed: b"made list\n",
    },
    Due {
        words: &["convert"],
        input: b"",
        status: 1,
        printed: b"9 is mirror\n",
    },
];

#[test]
fn a_mirror_is_not_converted(rt: HostRuntime) {
    assert!(rt; printing_all(rt.alloc(), empty(rt.alloc()), &MIRRORED).is_some());
}
