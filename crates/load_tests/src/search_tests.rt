//! Searches among the messages of a load run, all delivered to an archive on a disk and none removed.
use crate::archives::made;
use arch_base::{Bytes, LAST_MOMENT, decimal};
use arch_model::{Answer, Command, Keep, Shelf};
use archive_core::Engine;
use disk_model::MemDisk;
use fixtures::{MOMENT, empty_disk};
use load_run::{drawn, next_state, push_mail};
use query_lang::read;
use std::alloc::Global;
use std::test::Fail;

/// How many messages are searched, and of how many words each has one in its body.
const MANY: u32 = 5000;

const WORDS: u64 = 1009;

/// Delivers a message, and returns whether it was accepted.
fn deliver(engine: &mut Engine<MemDisk>, mail: &[u8]) -> Result<bool, Fail> {
    engine.fresh()?;
    match engine.command(&Command::Deliver(mail), MOMENT.min(LAST_MOMENT)) {
        Answer::Ok { number: _, id: _ } => Ok(true),
        _refused => Ok(false),
    }
}

/// Delivers the messages of the seed 7, and returns whether each was accepted.
fn deliver_many(alloc: Global, engine: &mut Engine<MemDisk>) -> Result<bool, Fail> {
    let mut mail = Bytes::new(alloc);
    let mut state: u64 = 7;
    let mut all = true;
    for i in 1..=MANY {
        state = next_state(state);
        mail.truncate(0);
        push_mail(u64::from(i), drawn(state), &mut mail)?;
        all = deliver(engine, mail.as_slice())? && all;
    }
    Ok(all)
}

/// Returns how many messages have a word in their bodies.
fn count_found(alloc: Global, engine: &mut Engine<MemDisk>, word: u64) -> Result<u64, Fail> {
    engine.fresh()?;
    let mut text = Bytes::new(alloc);
    text.push_slice(b"b:")?;
    text.push_slice(decimal(alloc, word)?.as_slice())?;
    let query = read(alloc, text.as_slice())?;
    Ok(engine.search(&query)?.as_slice().len() as u64)
}

/// Returns how many messages the searches for all words find together.
fn count_all(alloc: Global, engine: &mut Engine<MemDisk>) -> Result<u64, Fail> {
    let mut all: u64 = 0;
    for word in 0..WORDS {
        all = all.saturating_add(count_found(alloc, engine, word)?);
    }
    Ok(all)
}

/// Returns whether the searches find each of the messages, in each of twenty rounds.
fn find_each(alloc: Global, engine: &mut Engine<MemDisk>) -> Result<bool, Fail> {
    let mut each = true;
    for _ in 0..20 {
        each = count_all(alloc, engine)? == u64::from(MANY) && each;
    }
    Ok(each)
}

/// Delivers the messages to an archive on a disk, and returns whether the searches find each.
fn many_are_found(alloc: Global) -> Result<bool, Fail> {
    let mut engine = made(alloc, empty_disk(alloc))?;
    let delivered = deliver_many(alloc, &mut engine)?;
    let found = find_each(alloc, &mut engine)?;
    Ok(delivered && found)
}

#[test]
fn twenty_rounds_of_searches_find_each_of_many_messages(rt: HostRuntime) -> Result<(), Fail> {
    assert!(rt; many_are_found(rt.alloc())?);
    Ok(())
}
