//! The lines of answers to commands over an archive in a folder.
use arch_base::Numbers;
use arch_model::Answer;
use archive_cli::say_reply;
use disk_model::{FileKind, FileName};
use edge_io::{MemSink, SinkFault};

/// Returns the answer that a file is damaged at an offset.
fn damage(kind: FileKind, number: u32, at: u64) -> Answer {
    Answer::Damaged {
        file: FileName {
            kind,
            number,
            generation: 1,
        },
        at,
    }
}

/// Returns whether damage has its file and its offset after the word, and each other answer its
/// number in front.
fn says_replies(sink: &mut MemSink) -> Result<bool, SinkFault> {
    say_reply(damage(FileKind::Root, 0, 64), sink)?;
    say_reply(damage(FileKind::Map, 0, 36), sink)?;
    say_reply(damage(FileKind::Epoch, 12, 405), sink)?;
    say_reply(Answer::NotLive(3), sink)?;
    say_reply(Answer::DiskFault, sink)?;
    say_reply(Answer::NoMemory, sink)?;
    Ok(
        sink.taken()
            == b"damaged root 64\ndamaged map 36\ndamaged epoch 12 405\n7 not live 3\n10 disk fault\n12 no memory\n".as_slice(),
    )
}

#[test]
fn damage_has_no_number_in_front(rt: HostRuntime) -> Result<(), SinkFault> {
    let mut sink = MemSink::new(rt.alloc(), Numbers::new(rt.alloc()));
    assert!(rt; says_replies(&mut sink)?);
    Ok(())
}
