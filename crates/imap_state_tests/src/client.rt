//! A client of an archive in memory, whose mailboxes have two numbers each.
ghost use Rattle.std.specs.Prelude.{IfSome};
ghost use Rattle.arch_base.specs.Configs.{IsConfig};

use arch_base::{Bytes, Config, Form, Name, Numbers};
use arch_model::{Answer, Command, Keep, Next};
use edge_io::MemSink;
use imap_states::{
    ImapPlace, ImapState, StateCommand, answer, end_idling, say_too_long, say_welcome, tell,
};
use mem_archive::MemArchive;
use std::alloc::Global;

/// When the tests change the archive: 2024-02-01 10:01:40 UTC.
const MOMENT: u64 = 1_706_781_700;

/// Returns the settings of an archive of this name.
fn config(name: Name) -> Config
    ensures { IsConfig result }
{
    Config {
        name,
        limit: 1_073_741_824,
        slice: 2,
        max: 2_147_483_647,
        mirror: false,
        born: 7,
        form: Form::Sha1,
    }
}

/// A client and its archive.
#[derive(Drop)]
pub struct Client {
    alloc: Global,
    archive: MemArchive,
    state: ImapState,
    out: MemSink,
}

impl Client {
    /// Greets a client of an archive of three messages.
    pub fn to_three(alloc: Global) -> Option<Self> {
        let mut archive = MemArchive::new(alloc, config(Name::read(b"list")?));
        for message in [
            &b"Message-ID: <a@x>\n\n1\n"[..],
            b"Message-ID: <b@x>\n\n2\n",
            b"Message-ID: <c@x>\n\n3\n",
        ] {
            if !is_ok(Keep::command(&mut archive, &Command::Deliver(message), MOMENT)) {
                return None;
            }
        }
        let mut out = MemSink::new(alloc, Numbers::new(alloc));
        say_welcome(&mut out).ok()?;
        let state = ImapState {
            place: ImapPlace::LoggedOut,
            idle: None,
        };
        Some(Client {
            alloc,
            archive,
            state,
            out,
        })
    }

    /// Delivers a message, and returns whether that was carried out.
    pub fn deliver(&mut self, message: &[u8]) -> bool {
        is_ok(Keep::command(&mut self.archive, &Command::Deliver(message), MOMENT))
    }

    /// Removes a message, and returns whether that was carried out.
    pub fn remove(&mut self, number: u32) -> bool {
        is_ok(Keep::command(&mut self.archive, &Command::Remove(number), MOMENT))
    }

    /// Returns whether the client was told just these words in all.
    pub fn was_told(&self, words: &[u8]) -> bool {
        self.out.taken() == words
    }

    /// Returns whether a command with the tag `a` is answered by just these words, and the session then
    /// continues or not.
    pub fn asks(&mut self, command: StateCommand<'_>, words: &[u8], next: Next) -> bool {
        let said = self.out.taken().len();
        let after = answer(
            b"a",
            command,
            self.alloc,
            &mut self.state,
            &self.archive,
            &mut self.out,
        );
        after == next && self.said_after(said, words)
    }

    /// Returns whether the client is told just these words of changes.
    pub fn is_updated(&mut self, words: &[u8]) -> bool {
        let said = self.out.taken().len();
        let next = tell(self.alloc, &mut self.state, &self.archive, &mut self.out);
        next == Next::Go && self.said_after(said, words)
    }

    /// Returns whether the end of idling under the tag `a` is answered by just these words.
    pub fn ends(&mut self, done: bool, words: &[u8]) -> bool {
        let said = self.out.taken().len();
        let Some(tag) = tag(self.alloc) else {
            return false;
        };
        let next = end_idling(
            &tag,
            done,
            self.alloc,
            &mut self.state,
            &self.archive,
            &mut self.out,
        );
        next == Next::Go && !self.state.is_idle() && self.said_after(said, words)
    }

    /// Returns whether a command that is too long is answered by just these words.
    pub fn is_too_long(&mut self, words: &[u8]) -> bool {
        let said = self.out.taken().len();
        say_too_long(self.alloc, &mut self.state, &self.archive, &mut self.out);
        self.said_after(said, words)
    }

    /// Returns whether the session idles.
    pub fn is_idle(&self) -> bool {
        self.state.is_idle()
    }

    /// Returns whether just these words were said after the first bytes.
    fn said_after(&self, said: usize, words: &[u8]) -> bool {
        match self.out.taken().get(said..) {
            Some(after) => after == words,
            None => false,
        }
    }
}

/// Returns the tag `a`.
fn tag(alloc: Global) -> Option<Bytes> {
    let mut tag = Bytes::new(alloc);
    tag.push_slice(b"a").ok()?;
    Some(tag)
}

/// Returns whether a command was carried out.
fn is_ok(answer: Answer) -> bool {
    matches!(answer, Answer::Ok { .. })
}
