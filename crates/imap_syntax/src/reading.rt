//! Reads commands (RFC 3501, section 9, command).
//! Allocates.
ghost use Rattle.imap_syntax.specs.Requests.{Faulty};
ghost use Rattle.imap_syntax.specs.Commands.{ReadsWhole, RefusesWhole, whole_of};

use crate::asks::{Ask, AskRefusal};
use crate::commands;
use imap_words::{Cursor, Kind, Stop};
use std::alloc::Global;

/// Reads the octets of a whole command, its literals and line ends among them.
///
/// Gives a command exactly where the octets are one of the grammar (RFC 3501, section 9, with the
/// line of IDLE of RFC 2177). Of base64 after `AUTHENTICATE`, and of `X` commands, it has nothing.
/// Keywords are read in any case. Keys are nested at most 64 deep, and no recursion goes deeper. The
/// octets are walked once.
///
/// `NoTag` if they begin with no tag that a space or a line end follows, `Bad` with the tag if they
/// begin with one and aren't of the grammar, and `NoMemory` if an allocation fails.
#[tactic(auto, unfolding(crate::specs::Commands::whole_of))]
pub fn read(alloc: Global, command: &[u8]) -> Result<Ask, AskRefusal>
    ensures { ReadsWhole result (whole_of command.now) }
{
    let mut cursor = Cursor::new(alloc, command);
    let len = cursor.run_len(Kind::Tag);
    if len == 0 {
        return Err(AskRefusal::NoTag);
    }
    let tag = cursor.take(len);
    if !cursor.has(b' ') {
        if cursor.is_at_line_end() {
            return Err(bad(&cursor, tag));
        }
        return Err(AskRefusal::NoTag);
    }
    match commands::command(&mut cursor, tag) {
        Ok(ask) => Ok(ask),
        Err(Stop::Bad) => Err(bad(&cursor, tag)),
        Err(Stop::NoMemory) => Err(AskRefusal::NoMemory),
    }
}

/// Returns the refusal of a command with this tag.
fn bad(cursor: &Cursor<'_>, tag: &[u8]) -> AskRefusal
    ensures { RefusesWhole result (Faulty tag.now) }
{
    match cursor.copy(tag) {
        Ok(tag) => AskRefusal::Bad { tag },
        Err(_) => AskRefusal::NoMemory,
    }
}
