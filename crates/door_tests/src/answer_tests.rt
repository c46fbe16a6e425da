//! The line of each kind of answer, by examples.
use answer_lines::{say_answer, say_damage, say_memory, say_number, say_unopened, say_unread};
use arch_base::{Form, Numbers, ObjectId, id_of_hex};
use arch_model::{Answer, OpenRefusal, TextRefusal};
use disk_model::{FileKind, FileName};
use edge_io::{MemSink, SinkFault};

/// Answers without an id, and their lines.
const ANSWERS: [(Answer, &[u8]); 11] = [
    (Answer::Duplicate(7), b"2 duplicate 7\n"),
    (Answer::NoFields, b"3 no fields\n"),
    (Answer::TooLarge(9_000_001), b"4 too large 9000001\n"),
    (Answer::Full(2_147_483_647), b"5 full 2147483647\n"),
    (Answer::Collision(1), b"6 collision 1\n"),
    (Answer::NotLive(12), b"7 not live 12\n"),
    (Answer::NoText(3), b"8 no text 3\n"),
    (Answer::IsMirror, b"9 is mirror\n"),
    (Answer::DiskFault, b"10 disk fault\n"),
    (
        Answer::Damaged { file: EPOCH, at: 5 },
        b"11 damaged epoch 2 5\n",
    ),
    (Answer::NoMemory, b"12 no memory\n"),
];

/// The file of an epoch.
const EPOCH: FileName = FileName {
    kind: FileKind::Epoch,
    number: 2,
    generation: 1,
};

/// Returns the file of a kind that has no number.
fn file(kind: FileKind) -> FileName {
    FileName {
        kind,
        number: 0,
        generation: 1,
    }
}

/// Returns whether an answer's line is `words`.
fn is_line(sink: &mut MemSink, answer: Answer, words: &[u8]) -> Result<bool, SinkFault> {
    sink.clear();
    say_answer(answer, sink)?;
    Ok(sink.taken() == words)
}

#[test]
fn each_answer_has_its_line(rt: HostRuntime) -> Result<(), SinkFault> {
    let mut sink = MemSink::new(rt.alloc(), Numbers::new(rt.alloc()));
    for (answer, words) in &ANSWERS {
        assert!(rt; is_line(&mut sink, *answer, words)?);
    }
    Ok(())
}

/// Returns whether `words` are what an answer and a refusal with these ids write.
fn says_ids(
    sink: &mut MemSink,
    one: ObjectId,
    two: ObjectId,
    words: &[u8],
) -> Result<bool, SinkFault> {
    sink.clear();
    say_answer(Answer::Ok { number: 1, id: one }, sink)?;
    say_unread(
        TextRefusal::Damaged {
            named: one,
            found: two,
        },
        sink,
    )?;
    Ok(sink.taken() == words)
}

#[test]
fn ids_are_in_hexadecimal(rt: HostRuntime) -> Result<(), SinkFault> {
    let mut sink = MemSink::new(rt.alloc(), Numbers::new(rt.alloc()));
    let one = id_of_hex(b"1d023c572ccd6f3cc82ae855343346b043adaba5", Form::Sha1);
    let two = id_of_hex(b"d621b450ae1fbf27a31c9879d84eb9de5473a8b9", Form::Sha1);
    let words =
        b"1 ok 1 1d023c572ccd6f3cc82ae855343346b043adaba5\n11 damaged 1d023c572ccd6f3cc82ae855343346b043adaba5 d621b450ae1fbf27a31c9879d84eb9de5473a8b9\n";
    match (one, two) {
        (Some(one), Some(two)) => assert!(rt; says_ids(&mut sink, one, two, words)?),
        _ => assert!(rt; false),
    }
    Ok(())
}

#[test]
fn ids_of_sha_256_have_64_digits(rt: HostRuntime) -> Result<(), SinkFault> {
    let mut sink = MemSink::new(rt.alloc(), Numbers::new(rt.alloc()));
    let one = id_of_hex(
        b"473a0f4c3be8a93681a267e3b1e9a7dcda1185436fe141f7749120a303721813",
        Form::Sha256,
    );
    let two = id_of_hex(
        b"2cf8d83d9ee29543b34a87727421fdecb7e3f3a183d337639025de576db9ebb4",
        Form::Sha256,
    );
    let words =
        b"1 ok 1 473a0f4c3be8a93681a267e3b1e9a7dcda1185436fe141f7749120a303721813\n11 damaged 473a0f4c3be8a93681a267e3b1e9a7dcda1185436fe141f7749120a303721813 2cf8d83d9ee29543b34a87727421fdecb7e3f3a183d337639025de576db9ebb4\n";
    match (one, two) {
        (Some(one), Some(two)) => assert!(rt; says_ids(&mut sink, one, two, words)?),
        _ => assert!(rt; false),
    }
    Ok(())
}

/// Returns whether refusals, damages and numbers are written.
fn says_refusals(sink: &mut MemSink) -> Result<bool, SinkFault> {
    say_unread(TextRefusal::DiskFault, sink)?;
    say_unread(TextRefusal::NoMemory, sink)?;
    say_unopened(OpenRefusal::NoArchive, sink)?;
    say_unopened(
        OpenRefusal::Damaged {
            file: file(FileKind::Map),
            at: 0,
        },
        sink,
    )?;
    say_damage(file(FileKind::Cache), 18_446_744_073_709_551_615, sink)?;
    say_number(b"live ", 0, sink)?;
    say_memory(sink)?;
    Ok(
        sink.taken()
            == b"10 disk fault\n12 no memory\n11 damaged root 0\n11 damaged map 0\ndamaged cache 18446744073709551615\nlive 0\n12 no memory\n".as_slice(),
    )
}

#[test]
fn refusals_have_their_lines(rt: HostRuntime) -> Result<(), SinkFault> {
    let mut sink = MemSink::new(rt.alloc(), Numbers::new(rt.alloc()));
    assert!(rt; says_refusals(&mut sink)?);
    Ok(())
}
