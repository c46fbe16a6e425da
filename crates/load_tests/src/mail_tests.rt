//! The first messages of some seeds, worked out by the rules of a load run outside of this program.
use arch_base::{Bytes, NoMemory};
use load_run::{drawn, next_state, push_mail};
use std::alloc::Global;
use std::process::Abort;
use std::test::Fail;

/// A seed, and its first three messages, one after another.
struct Firsts {
    seed: u64,
    mails: &'static [u8],
}

static FIRSTS: [Firsts; 3] = [
    Firsts {
        seed: 7,
        mails: b"From: User 65 <u65@load.invalid>\nSubject: load topic 27\nMessage-ID: <1@load.invalid>\n\nbody 825 word\nFrom: User 87 <u87@load.invalid>\nSubject: load topic 22\nMessage-ID: <2@load.invalid>\nReferences: <1@load.invalid>\n\nbody 618 word\nFrom: User 17 <u17@load.invalid>\nSubject: load topic 23\nMessage-ID: <3@load.invalid>\nReferences: <1@load.invalid>\n\nbody 334 word\n",
    },
    Firsts {
        seed: 0,
        mails: b"From: User 90 <u90@load.invalid>\nSubject: load topic 7\nMessage-ID: <1@load.invalid>\n\nbody 730 word\nFrom: User 51 <u51@load.invalid>\nSubject: load topic 29\nMessage-ID: <2@load.invalid>\nReferences: <1@load.invalid>\n\nbody 392 word\nFrom: User 8 <u8@load.invalid>\nSubject: load topic 22\nMessage-ID: <3@load.invalid>\nReferences: <2@load.invalid>\n\nbody 1003 word\n",
    },
    Firsts {
        seed: 9_223_372_036_854_775_809,
        mails: b"From: User 0 <u0@load.invalid>\nSubject: load topic 25\nMessage-ID: <1@load.invalid>\n\nbody 570 word\nFrom: User 42 <u42@load.invalid>\nSubject: load topic 1\nMessage-ID: <2@load.invalid>\nReferences: <1@load.invalid>\n\nbody 131 word\nFrom: User 59 <u59@load.invalid>\nSubject: load topic 3\nMessage-ID: <3@load.invalid>\nReferences: <1@load.invalid>\n\nbody 559 word\n",
    },
];

/// Returns the first messages of a seed, so many, one after another.
fn first_mails(alloc: Global, seed: u64, count: u64) -> Result<Bytes, NoMemory> {
    let mut mails = Bytes::new(alloc);
    let mut state = seed;
    for i in 0..count {
        state = next_state(state);
        push_mail(i.saturating_add(1), drawn(state), &mut mails)?;
    }
    Ok(mails)
}

#[test]
fn the_first_messages_are_those_of_the_rules(rt: HostRuntime) -> Result<(), Fail> {
    for firsts in &FIRSTS {
        let mails = first_mails(rt.alloc(), firsts.seed, 3)?;
        assert_eq!(rt; mails.as_slice(), firsts.mails);
    }
    Ok(())
}
