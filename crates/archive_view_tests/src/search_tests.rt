//! Searches of archives in memory and on disks, as messages come and go, and after a reopening.
ghost use Rattle.std.specs.Prelude.{◌≡◌, true};

use arch_base::NoMemory;
use arch_model::{Command, Keep, OpenRefusal};
use archive_fixtures::{Check, answer, both_pass, on_disk, opened_passes};
use disk_model::MemDisk;
use fixtures::{LATER, MOMENT};
use query_lang::{Query, read};
use std::alloc::Global;
use std::test::Fail;

/// A mail of 1 February 2024, one of that day in UTC and of the next in its own zone, and one of two
/// parts, of which the second is an attachment.
const MAILS: [&[u8]; 3] = [
    b"From: Ann <ann@example.org>\nDate: Thu, 1 Feb 2024 10:00:00 +0000\nSubject: first\nMessage-ID: <a@x>\n\none\n",
    b"From: Bob <bob@example.org>\nDate: Fri, 2 Feb 2024 00:30:00 +0100\nSubject: =?UTF-8?Q?zw=C3=B6lf?= one\nMessage-ID: <b@x>\n\ntwo\n",
    b"Date: Sat, 3 Feb 2024 10:00:00 +0000\nSubject: parts\nMessage-ID: <c@x>\nContent-Type: multipart/mixed; boundary=B\n\n--B\n\nthree one\n--B\nContent-Disposition: attachment\n\nhidden\n--B--\n",
];

/// A query, and the numbers that it finds, newest first.
#[derive(Drop)]
struct Search {
    text: &'static [u8],
    found: &'static [u32],
}

/// Searches of all three mails.
static OF_ALL: [Search; 14] = [
    Search {
        text: b"",
        found: &[3, 2, 1],
    },
    Search {
        text: b"one",
        found: &[3, 2, 1],
    },
    Search {
        text: b"s:first",
        found: &[1],
    },
    Search {
        text: b"s:one",
        found: &[2],
    },
    Search {
        text: b"b:one",
        found: &[3, 1],
    },
    Search {
        text: b"one d:20240201..20240201",
        found: &[2, 1],
    },
    Search {
        text: b"d:20240202..20240202",
        found: &[],
    },
    Search {
        text: b"d:20240201..20240203",
        found: &[3, 2, 1],
    },
    Search {
        text: b"s:zw\xC3\xB6lf",
        found: &[2],
    },
    Search {
        text: b"f:ann",
        found: &[1],
    },
    Search {
        text: b"hidden",
        found: &[],
    },
    Search {
        text: b"text plain",
        found: &[],
    },
    Search {
        text: b"parts three",
        found: &[3],
    },
    Search {
        text: b"a x",
        found: &[],
    },
];

/// Searches after the first mail was removed.
static OF_OTHERS: [Search; 4] = [
    Search {
        text: b"one",
        found: &[3, 2],
    },
    Search {
        text: b"first",
        found: &[],
    },
    Search {
        text: b"d:20240201..20240201",
        found: &[2],
    },
    Search {
        text: b"f:ann",
        found: &[],
    },
];

/// Returns whether a search finds these numbers, and its pages have them.
fn finds<K: Keep>(alloc: Global, keep: &mut K, search: &Search) -> Result<bool, Fail> {
    keep.fresh()?;
    let query = read(alloc, search.text)?;
    let found = keep.search(&query)?;
    let pages = has_pages(keep, &query, search.found)?;
    Ok(found.as_slice() == search.found && pages)
}

/// Returns whether pages of a search are parts of these numbers.
fn has_pages<K: Keep>(keep: &K, query: &Query, found: &[u32]) -> Result<bool, NoMemory>
    requires { K.ready keep.now ≡ true }
{
    let mut all = true;
    for (skip, count) in [(0, 1), (1, 1), (0, 2), (2, 201), (3, 1)] {
        let page = keep.search_page(query, skip, count)?;
        let rest = found.split_at(found.len().min(skip as usize)).1;
        let wanted = rest.split_at(rest.len().min(count as usize)).0;
        all = page.as_slice() == wanted && all;
    }
    Ok(all)
}

/// Delivers the mails.
fn fill<K: Keep>(keep: &mut K) -> Result<(), OpenRefusal> {
    for mail in &MAILS {
        let _ = answer(keep, &Command::Deliver(*mail), MOMENT)?;
    }
    Ok(())
}

/// Returns whether each search of all mails finds its numbers.
fn finds_all<K: Keep>(alloc: Global, keep: &mut K) -> Result<bool, Fail> {
    let mut all = true;
    for search in &OF_ALL {
        all = finds(alloc, keep, search)? && all;
    }
    Ok(all)
}

/// Removes the first mail, and returns whether each search of the others finds its numbers.
fn finds_others<K: Keep>(alloc: Global, keep: &mut K) -> Result<bool, Fail> {
    let _ = answer(keep, &Command::Remove(1), LATER)?;
    let mut all = true;
    for search in &OF_OTHERS {
        all = finds(alloc, keep, search)? && all;
    }
    Ok(all)
}

/// Searches find live mails, before and after a removal.
struct FindsLive;

impl Check for FindsLive {
    fn passes<K: Keep>(alloc: Global, keep: &mut K) -> Result<bool, Fail> {
        let all = finds_all(alloc, keep)?;
        let others = finds_others(alloc, keep)?;
        Ok(all && others)
    }
}

/// The mails are delivered, and searches find them.
struct FindsDelivered;

impl Check for FindsDelivered {
    fn passes<K: Keep>(alloc: Global, keep: &mut K) -> Result<bool, Fail> {
        fill(keep)?;
        FindsLive::passes(alloc, keep)
    }
}

#[test]
fn searches_find_live_mails(rt: HostRuntime) -> Result<(), Fail> {
    assert!(rt; both_pass::<FindsDelivered>(rt.alloc(), 400)?);
    assert!(rt; both_pass::<FindsDelivered>(rt.alloc(), 2000)?);
    Ok(())
}

/// Makes an archive of the three mails, and returns its disk.
fn disk_of_three(alloc: Global) -> Result<MemDisk, Fail> {
    let mut engine = on_disk(alloc, 400, false)?;
    fill(&mut engine)?;
    Ok(engine.into_disk())
}

#[test]
fn searches_find_the_same_after_a_reopening(rt: HostRuntime) -> Result<(), Fail> {
    let disk = disk_of_three(rt.alloc())?;
    assert!(rt; opened_passes::<FindsLive>(rt.alloc(), disk)?);
    Ok(())
}
