//! The messages of a load run, and the generator that they are drawn with.
//! Allocates.
ghost use Rattle.std.specs.Prelude.{◌≡◌, ◌++◌, ◌<◌, OnOk};
ghost use Rattle.load_run.specs.Mails.{next_state as state_next, drawn as drawn_of, answered as answered_of, around, from_line, subject_line, id_line, answer_line, references_line, body_lines, mail};

use arch_base::{Bytes, NoMemory};
use itoa::Buffer;

/// Returns the generator's state after another one.
pub fn next_state(state: u64) -> u64
    ensures { result ≡ state_next state }
{
    state
        .wrapping_mul(6_364_136_223_846_793_005)
        .wrapping_add(1_442_695_040_888_963_407)
}

/// Returns the number that is drawn from a state.
pub fn drawn(state: u64) -> u64
    ensures { result ≡ drawn_of state }
{
    state >> 33
}

/// Appends message `i` with a number that was drawn for it.
///
/// `NoMemory` may leave a part of it appended.
#[tactic(auto, unfolding(crate::specs::Mails::mail))]
pub fn push_mail(i: u64, r: u64, into: &mut Bytes) -> Result<(), NoMemory>
    ensures { OnOk result (into.new ≡ into.old ++ mail i r) }
{
    push_from(r, into)?;
    push_subject(r, into)?;
    push_id(i, into)?;
    push_references(i, r, into)?;
    push_body(r, into)
}

/// Appends the field of the author.
#[tactic(auto, unfolding(crate::specs::Mails::from_line))]
fn push_from(r: u64, into: &mut Bytes) -> Result<(), NoMemory>
    ensures { OnOk result (into.new ≡ into.old ++ from_line r) }
{
    push_around(b"From: User ", r % 97, b"", into)?;
    push_around(b" <u", r % 97, b"@load.invalid>\n", into)
}

/// Appends the field of the subject.
#[tactic(auto, unfolding(crate::specs::Mails::subject_line))]
fn push_subject(r: u64, into: &mut Bytes) -> Result<(), NoMemory>
    ensures { OnOk result (into.new ≡ into.old ++ subject_line r) }
{
    push_around(b"Subject: load topic ", r % 31, b"\n", into)
}

/// Appends the field of the message's own id.
#[tactic(auto, unfolding(crate::specs::Mails::id_line))]
fn push_id(i: u64, into: &mut Bytes) -> Result<(), NoMemory>
    ensures { OnOk result (into.new ≡ into.old ++ id_line i) }
{
    push_around(b"Message-ID: <", i, b"@load.invalid>\n", into)
}

/// Appends the field of the answered message's id, if one is answered.
fn push_references(i: u64, r: u64, into: &mut Bytes) -> Result<(), NoMemory>
    ensures { OnOk result (into.new ≡ into.old ++ references_line i r) }
{
    if i > 1 && r % 5 != 0 {
        push_answer(answered(i, r), into)
    } else {
        Ok(())
    }
}

/// Returns the number of the message that message `i` answers.
fn answered(i: u64, r: u64) -> u64
    requires { 1 < i }
    ensures { result ≡ answered_of i r }
{
    1 + r / 5 % (i - 1)
}

/// Appends the field of the id of a message that is answered.
#[tactic(auto, unfolding(crate::specs::Mails::answer_line))]
fn push_answer(n: u64, into: &mut Bytes) -> Result<(), NoMemory>
    ensures { OnOk result (into.new ≡ into.old ++ answer_line n) }
{
    push_around(b"References: <", n, b"@load.invalid>\n", into)
}

/// Appends the empty line and the body.
#[tactic(auto, unfolding(crate::specs::Mails::body_lines))]
fn push_body(r: u64, into: &mut Bytes) -> Result<(), NoMemory>
    ensures { OnOk result (into.new ≡ into.old ++ body_lines r) }
{
    push_around(b"\nbody ", r % 1009, b" word\n", into)
}

/// Appends words, a number in decimal, and words.
pub(crate) fn push_around(
    before: &[u8],
    number: u64,
    after: &[u8],
    into: &mut Bytes,
) -> Result<(), NoMemory>
    ensures { OnOk result (into.new ≡ into.old ++ around before.now number after.now) }
{
    let mut buffer = Buffer::new();
    into.push_slice(before)?;
    into.push_slice(buffer.format(number).as_bytes())?;
    into.push_slice(after)
}
