//! Reads the input up to its end, or up to a limit.
//! Allocates.
ghost use Rattle.std.specs.Prelude.{◌≡◌, ◌≤◌, ◌<◌, ◌+◌, IfOk, length};
ghost use Rattle.archive_cli.specs.Program.{TookAtMost, input_limit, message_limit};
ghost use Rattle.archive_cli.specs.Printing.{IsInputRead, IsFrontRead, IsPieceRead};

use arch_base::{Bytes, NoMemory};
use edge_io::{Source, SourceFault};
use std::alloc::{AllocError, Global};
use thiserror::Error;

/// The reason why an input could not be read.
#[derive(Debug, Drop, Error)]
pub enum InputRefusal {
    /// The source failed.
    #[error("the input failed")]
    Fault,
    /// The input has more bytes than the limit.
    #[error("the input is too long")]
    TooLong,
    /// An allocation failed.
    #[error("out of memory")]
    NoMemory,
}

/// The greatest length of an input, in bytes.
const INPUT_LIMIT: usize = 268_435_456;

/// The greatest length of a message that is read, in bytes.
///
/// This is one byte more than `deliver SIZE` may announce at the control door.
const MESSAGE_LIMIT: usize = 9_000_001;

/// The number of bytes that one read asks for.
const BUFFER_LEN: usize = 65_536;

/// Reads the whole input.
///
/// Takes at most 268,435,457 bytes: an input with that many is too long.
pub(crate) fn read_input<S: Source>(alloc: Global, input: &mut S) -> Result<Bytes, InputRefusal>
    ensures read { IsInputRead (S.left input.old) (S.faults input.old) result (S.faults input.new) }
    ensures later { S.faults input.old ≤ S.faults input.new }
    ensures few { TookAtMost (input_limit + 1) (S.left input.old) (S.left input.new) }
{
    match read_front(alloc, input, INPUT_LIMIT + 1) {
        Err(refused) => Err(refused),
        Ok(bytes) if bytes.as_slice().len() > INPUT_LIMIT => Err(InputRefusal::TooLong),
        Ok(bytes) => Ok(bytes),
    }
}

/// Reads the message on the input: its first 9,000,001 bytes. Leaves the rest unread.
pub(crate) fn read_message<S: Source>(alloc: Global, input: &mut S) -> Result<Bytes, InputRefusal>
    ensures read { IsFrontRead message_limit (S.left input.old) (S.faults input.old) result
        (S.faults input.new) }
    ensures later { S.faults input.old ≤ S.faults input.new }
    ensures few { TookAtMost message_limit (S.left input.old) (S.left input.new) }
{
    read_front(alloc, input, MESSAGE_LIMIT)
}

/// Reads the first `most` bytes of the input, or all of it if it has fewer.
fn read_front<S: Source>(alloc: Global, input: &mut S, most: usize) -> Result<Bytes, InputRefusal>
    ensures read { IsFrontRead most (S.left input.old) (S.faults input.old) result
        (S.faults input.new) }
    ensures later { S.faults input.old ≤ S.faults input.new }
    ensures few { TookAtMost most (S.left input.old) (S.left input.new) }
{
    let Ok(mut buffer) = new_buffer(alloc) else {
        return Err(InputRefusal::NoMemory);
    };
    let mut bytes = Bytes::new(alloc);
    'pieces: while bytes.as_slice().len() < most {
        match read_piece(input, buffer.as_mut_slice(), &mut bytes, most) {
            Err(refused) => return Err(refused),
            Ok(Piece::End) => return Ok(bytes),
            Ok(Piece::More) => {}
        }
    }
    Ok(bytes)
}

/// The result of one read of the input.
enum Piece {
    /// No bytes remain.
    End,
    /// Some bytes were taken.
    More,
}

/// Appends one more piece of the input to the bytes, which then are at most `most` in all.
///
/// `NoMemory` leaves the bytes unchanged, and the piece is taken all the same.
fn read_piece<S: Source>(
    input: &mut S,
    buffer: &mut [u8],
    bytes: &mut Bytes,
    most: usize,
) -> Result<Piece, InputRefusal>
    requires buffer { 0 < length buffer.old }
    requires room { length bytes.old < most }
    ensures read { IsPieceRead most result (S.left input.old) (S.left input.new) bytes.old bytes.new
        (S.faults input.old) (S.faults input.new) }
    ensures later { S.faults input.old ≤ S.faults input.new }
{
    let room = (most - bytes.as_slice().len()).min(buffer.len());
    let into = buffer.split_at_mut(room).0;
    match input.read(into) {
        Err(SourceFault) => Err(InputRefusal::Fault),
        Ok(0) => Ok(Piece::End),
        Ok(count) => match bytes.push_slice(&into[..count]) {
            Ok(()) => Ok(Piece::More),
            Err(NoMemory) => Err(InputRefusal::NoMemory),
        },
    }
}

/// Returns a buffer for reads.
fn new_buffer(alloc: Global) -> Result<Vec<u8>, AllocError>
    ensures { IfOk result (λ buffer. length buffer.items ≡ BUFFER_LEN) }
{
    vec![in alloc; 0u8; BUFFER_LEN]
}
