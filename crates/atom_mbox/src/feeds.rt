//! The feed of some mails.
//! Allocates.
ghost use Rattle.std.specs.Prelude.{◌≡◌, ◌++◌, IfOk, OnOk, All};
ghost use Rattle.arch_base.specs.Moments.{IsMoment};
ghost use Rattle.atom_mbox.specs.Feeds.{HasMoment, feed_of, updated_of, entries_of, last_arrival};

use crate::entries::{push_feed_end, push_feed_entry, push_feed_start};
use arch_base::{Bytes, Name, NoMemory};
use mail_forms::Row;
use std::alloc::Global;

/// A mail as a feed shows it.
#[derive(Debug, Drop)]
pub struct Shown {
    /// Its row.
    pub row: Row,
    /// The text of its body, in UTF-8.
    pub body: Bytes,
}

/// Returns the feed of these mails, in their order (RFC 4287).
///
/// `name` is the name of the archive, and `born` is when it was created, in seconds since 1970 UTC.
/// `NoMemory` if an allocation fails.
#[tactic(auto, unfolding(crate::specs::Feeds::feed_of))]
pub fn feed(alloc: Global, name: &Name, born: u32, mails: &[Shown]) -> Result<Bytes, NoMemory>
    requires { All HasMoment mails.now }
    ensures { IfOk result (λ made. made ≡ feed_of name.now born mails.now) }
{
    let mut made = Bytes::new(alloc);
    push_feed_start(name, updated(born, mails), &mut made)?;
    push_entries(alloc, name, mails, &mut made)?;
    push_feed_end(&mut made)?;
    Ok(made)
}

/// Appends the entries of mails.
fn push_entries(
    alloc: Global,
    name: &Name,
    mails: &[Shown],
    into: &mut Bytes,
) -> Result<(), NoMemory>
    requires { All HasMoment mails.now }
    ensures { OnOk result (into.new ≡ into.old ++ entries_of name.now mails.now) }
{
    for mail in mails {
        push_feed_entry(alloc, name, &mail.row, mail.body.as_slice(), into)?;
    }
    Ok(())
}

/// Returns when a feed of these mails was updated: the last of their arrivals, or `born`, when the
/// archive was created, without a mail.
pub fn updated(born: u32, mails: &[Shown]) -> u64
    requires { All HasMoment mails.now }
    ensures value { result ≡ updated_of born mails.now }
    ensures moment { IsMoment result }
{
    if mails.is_empty() {
        return u64::from(born);
    }
    last_arrival(mails)
}

/// Returns the last of the arrivals of mails, or 0 without a mail.
fn last_arrival(mails: &[Shown]) -> u64
    requires { All HasMoment mails.now }
    ensures value { result ≡ last_arrival mails.now }
    ensures moment { IsMoment result }
{
    let mut last = 0;
    for mail in mails {
        last = last.max(mail.row.arrived);
    }
    last
}
