//! The index of threads: rows that join threads and leave them.
ghost use Rattle.std.specs.Prelude.{◌≡◌, ◌<◌};

use crate::rows::{are, letters};
use arch_base::NoMemory;
use std::alloc::Global;
use std::marker::Brand;
use std::sync::ledger::{Blank, Ledger};
use std::test::Fail;
use thread_index::ThreadIndex;
use thread_model::{LabelTable, Steps};

/// A change of an index: a row that is added with keys, or taken.
#[derive(Clone, Copy)]
enum Change {
    Add(u32, &'static [u8]),
    Take(u32),
}

/// A change, and the threads of some rows after it.
struct Case {
    change: Change,
    threads: &'static [(u32, &'static [u32])],
}

/// Three messages, of which the third refers to the others and to one that isn't there; then it is
/// taken. Four in a thread and one alone, and a sixth of both that is taken again. A row without
/// keys.
static CASES: [Case; 14] = [
    Case {
        change: Change::Add(1, b"a"),
        threads: &[(1, &[1]), (2, &[])],
    },
    Case {
        change: Change::Add(2, b"b"),
        threads: &[(1, &[1]), (2, &[2])],
    },
    Case {
        change: Change::Add(3, b"cgab"),
        threads: &[(1, &[1, 2, 3]), (2, &[1, 2, 3])],
    },
    Case {
        change: Change::Take(3),
        threads: &[(1, &[1]), (2, &[2]), (3, &[])],
    },
    Case {
        change: Change::Take(3),
        threads: &[(1, &[1]), (2, &[2]), (3, &[])],
    },
    Case {
        change: Change::Add(3, b"ca"),
        threads: &[(1, &[1, 3]), (2, &[2])],
    },
    Case {
        change: Change::Add(4, b"da"),
        threads: &[(4, &[1, 3, 4]), (2, &[2])],
    },
    Case {
        change: Change::Add(5, b"ea"),
        threads: &[(5, &[1, 3, 4, 5]), (2, &[2])],
    },
    Case {
        change: Change::Add(6, b"fab"),
        threads: &[(2, &[1, 2, 3, 4, 5, 6])],
    },
    Case {
        change: Change::Take(6),
        threads: &[(1, &[1, 3, 4, 5]), (2, &[2])],
    },
    Case {
        change: Change::Take(1),
        threads: &[(5, &[3, 4, 5]), (1, &[]), (2, &[2])],
    },
    Case {
        change: Change::Add(9, b""),
        threads: &[(9, &[]), (5, &[3, 4, 5])],
    },
    Case {
        change: Change::Add(7, b"be"),
        threads: &[(2, &[2, 3, 4, 5, 7])],
    },
    Case {
        change: Change::Take(9),
        threads: &[(9, &[]), (2, &[2, 3, 4, 5, 7])],
    },
];

/// Adds a row of a new number with letters for keys.
fn add<L: Ledger>(
    alloc: Global,
    index: &mut ThreadIndex,
    n: u32,
    text: &[u8],
    steps: &mut Steps<L>,
) -> Result<bool, NoMemory> {
    let keys = letters(alloc, text)?;
    if !index.is_whole() {
        return Ok(false);
    }
    let None = index.label_of(n) else {
        return Ok(false);
    };
    index.add(n, &keys, steps)?;
    Ok(true)
}

/// Makes a change. Returns false if the index isn't whole, or has the row that is to be added.
fn apply<L: Ledger>(
    alloc: Global,
    index: &mut ThreadIndex,
    change: Change,
    steps: &mut Steps<L>,
) -> Result<bool, NoMemory> {
    match change {
        Change::Add(n, text) => add(alloc, index, n, text, steps),
        Change::Take(n) => {
            if !index.is_whole() {
                return Ok(false);
            }
            index.take(n, steps)?;
            Ok(true)
        }
    }
}

/// Returns whether the thread of a row is these rows.
fn has_thread(index: &ThreadIndex, n: u32, wanted: &[u32]) -> Result<bool, NoMemory> {
    if !index.is_whole() {
        return Ok(false);
    }
    Ok(are(&index.members(n)?, wanted))
}

/// Returns whether some rows have these threads.
fn has_threads(index: &ThreadIndex, threads: &[(u32, &[u32])]) -> Result<bool, NoMemory> {
    for (n, wanted) in threads {
        if !has_thread(index, *n, wanted)? {
            return Ok(false);
        }
    }
    Ok(true)
}

/// Returns the index of the first case that fails, if one does.
fn failing_case<L: Ledger>(alloc: Global, blank: Blank) -> Result<Option<usize>, NoMemory>
    requires name { blank.name ≡ L.name }
    requires parts { blank.parts ≡ L.parts }
    requires some { 0 < L.parts }
{
    let mut steps = Steps::<L>::new(blank);
    let mut index = ThreadIndex::new(alloc);
    for (i, case) in CASES.iter().enumerate() {
        let applied = apply(alloc, &mut index, case.change, &mut steps)?;
        if !(applied && has_threads(&index, case.threads)?) {
            return Ok(Some(i));
        }
    }
    Ok(None)
}

#[test]
fn threads_join_and_part(rt: HostRuntime) -> Result<(), Fail> {
    assert_eq!(rt; failing_case::<Brand>(rt.alloc(), Blank::new(1))?, None);
    Ok(())
}

/// Returns whether a cleared index is whole and has no row.
fn clears<L: Ledger>(alloc: Global, blank: Blank) -> Result<bool, NoMemory>
    requires name { blank.name ≡ L.name }
    requires parts { blank.parts ≡ L.parts }
    requires some { 0 < L.parts }
{
    let mut steps = Steps::<L>::new(blank);
    let mut index = ThreadIndex::new(alloc);
    let added = add(alloc, &mut index, 1, b"a", &mut steps)?;
    index.clear();
    let None = index.label_of(1) else {
        return Ok(false);
    };
    Ok(added && index.is_whole() && index.members(1)?.as_slice().is_empty())
}

#[test]
fn a_cleared_index_has_no_rows(rt: HostRuntime) -> Result<(), Fail> {
    assert!(rt; clears::<Brand>(rt.alloc(), Blank::new(1))?);
    Ok(())
}

/// Returns whether a table of labels gives back the last label of a number.
fn keeps_labels<L: Ledger>(alloc: Global, blank: Blank) -> Result<bool, NoMemory>
    requires name { blank.name ≡ L.name }
    requires parts { blank.parts ≡ L.parts }
    requires some { 0 < L.parts }
{
    let mut steps = Steps::<L>::new(blank);
    let mut labels = LabelTable::new(alloc);
    labels.set(7, 1, &mut steps)?;
    labels.set(8, 2, &mut steps)?;
    labels.set(7, 3, &mut steps)?;
    Ok(labels.get(7) == Some(3) && labels.get(8) == Some(2) && labels.get(9).is_none())
}

#[test]
fn a_table_keeps_the_last_label(rt: HostRuntime) -> Result<(), Fail> {
    assert!(rt; keeps_labels::<Brand>(rt.alloc(), Blank::new(1))?);
    Ok(())
}
