//! The index beside the plain program, over many adds and takes.
ghost use Rattle.std.specs.Prelude.{◌≡◌, ◌<◌};

use crate::plain::PlainThreads;
use crate::random::Random;
use crate::rows::{are, letters, sorted};
use arch_base::{MessageNumbers, NoMemory, Texts};
use std::alloc::Global;
use std::marker::Brand;
use std::sync::ledger::{Blank, Ledger};
use std::test::Fail;
use thread_index::ThreadIndex;
use thread_model::Steps;

/// Numbers of rows go up to this one.
const LAST: u32 = 14;

/// How many adds and takes a run makes.
const CHANGES: u32 = 3000;

/// The index and the plain program, over the same rows.
#[derive(Drop)]
struct Both {
    index: ThreadIndex,
    plain: PlainThreads,
}

/// Returns up to three keys of sixteen.
fn some_keys(alloc: Global, random: &mut Random) -> Result<Texts, NoMemory> {
    let count = random.below(4);
    let mut keys = Vec::new(alloc);
    for _ in 0..count {
        keys.push(b'a' + random.below(16) as u8)?;
    }
    letters(alloc, keys.as_slice())
}

/// Adds a row, or takes it where it is there already.
fn change<L: Ledger>(
    both: &mut Both,
    n: u32,
    keys: &Texts,
    steps: &mut Steps<L>,
) -> Result<(), NoMemory> {
    if !both.index.is_whole() {
        return Err(NoMemory);
    }
    let Some(_label) = both.index.label_of(n) else {
        both.index.add(n, keys, steps)?;
        return both.plain.add(n, keys);
    };
    both.index.take(n, steps)?;
    both.plain.take(n);
    Ok(())
}

/// Returns whether both give a row the same thread.
fn same_members(alloc: Global, both: &Both, n: u32) -> Result<bool, NoMemory> {
    if !both.index.is_whole() {
        return Ok(false);
    }
    let found = both.index.members(n)?;
    let wanted = sorted(both.plain.members(alloc, n)?);
    Ok(are(&found, wanted.as_slice()))
}

/// Returns whether two rows have one label exactly where the plain program has them in one thread.
fn same_label(alloc: Global, both: &Both, n: u32, m: u32) -> Result<bool, NoMemory> {
    if !both.index.is_whole() {
        return Ok(false);
    }
    let (Some(a), Some(b)) = (both.index.label_of(n), both.index.label_of(m)) else {
        return Ok(true);
    };
    let thread = both.plain.members(alloc, n)?;
    Ok((a == b) == (n == m || holds(&thread, m)))
}

/// Returns whether a number is one of some.
fn holds(numbers: &MessageNumbers, m: u32) -> bool {
    numbers.as_slice().contains(&m)
}

/// Makes a change, and compares the threads of two rows.
fn step<L: Ledger>(
    alloc: Global,
    both: &mut Both,
    random: &mut Random,
    steps: &mut Steps<L>,
) -> Result<bool, NoMemory> {
    let keys = some_keys(alloc, random)?;
    change(both, 1 + random.below(LAST), &keys, steps)?;
    let n = 1 + random.below(LAST);
    let m = 1 + random.below(LAST);
    Ok(same_members(alloc, both, n)? && same_label(alloc, both, n, m)?)
}

/// Makes all changes, and returns whether both agreed after each.
fn run<L: Ledger>(alloc: Global, seed: u64, steps: &mut Steps<L>) -> Result<bool, NoMemory> {
    let mut both = Both {
        index: ThreadIndex::new(alloc),
        plain: PlainThreads::new(alloc),
    };
    let mut random = Random::new(seed);
    for _ in 0..CHANGES {
        if !step(alloc, &mut both, &mut random, steps)? {
            return Ok(false);
        }
    }
    Ok(true)
}

/// Makes a run, with a count of its own.
fn counted_run<L: Ledger>(alloc: Global, seed: u64, blank: Blank) -> Result<bool, NoMemory>
    requires name { blank.name ≡ L.name }
    requires parts { blank.parts ≡ L.parts }
    requires some { 0 < L.parts }
{
    let mut steps = Steps::<L>::new(blank);
    run(alloc, seed, &mut steps)
}

#[test]
fn the_index_agrees_with_rounds(rt: HostRuntime) -> Result<(), Fail> {
    for seed in 1..4 {
        assert!(rt; counted_run::<Brand>(rt.alloc(), seed, Blank::new(1))?);
    }
    Ok(())
}
