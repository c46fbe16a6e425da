//! Trees of messages with ghosts.
use crate::rows::letters;
use arch_base::{NoMemory, Texts};
use std::alloc::Global;
use std::test::Fail;
use thread_tree::{Line, Lines, Twigs, Who};

/// A message: its number, the letter of its id, and those of its references. Its date is its number.
type Message = (u32, u8, &'static [u8]);

/// A line: its depth, and a message's number or a ghost's letter.
type Wanted = (u64, Result<u32, u8>);

/// Messages and the lines of their tree.
struct Case {
    messages: &'static [Message],
    lines: &'static [Wanted],
}

/// A ghost of the newest message. A loop of two. Brothers under a ghost, and under the message that
/// fills it. A ghost that is placed by a later message than the first that names it. A ghost that
/// stands under the message that names it.
static CASES: [Case; 7] = [
    Case {
        messages: &[(1, b'a', b""), (2, b'b', b""), (3, b'c', b"gab")],
        lines: &[(0, Ok(1)), (0, Ok(2)), (1, Ok(3)), (0, Err(b'g'))],
    },
    Case {
        messages: &[(1, b'a', b"b"), (2, b'b', b"a"), (3, b'c', b"b")],
        lines: &[(0, Ok(1)), (0, Ok(2)), (1, Ok(3))],
    },
    Case {
        messages: &[(2, b'b', b"q"), (3, b'c', b"q")],
        lines: &[(0, Err(b'q')), (1, Ok(2)), (1, Ok(3))],
    },
    Case {
        messages: &[(2, b'b', b"q"), (3, b'c', b"q"), (4, b'q', b"")],
        lines: &[(0, Ok(4)), (1, Ok(2)), (1, Ok(3))],
    },
    Case {
        messages: &[(2, b'n', b"hg"), (1, b'm', b"g")],
        lines: &[(0, Err(b'h')), (1, Err(b'g')), (2, Ok(1)), (2, Ok(2))],
    },
    Case {
        messages: &[(1, b'a', b"ag")],
        lines: &[(0, Ok(1)), (0, Err(b'g'))],
    },
    Case {
        messages: &[],
        lines: &[],
    },
];

/// Returns whether a line is as wanted.
fn is_wanted(line: &Line, wanted: &Wanted) -> bool {
    let who = match (&line.who, wanted.1) {
        (Who::Live(number), Ok(n)) => *number == n,
        (Who::Ghost(id), Err(letter)) => id.as_slice() == [letter].as_slice(),
        _ => false,
    };
    who && line.depth == wanted.0
}

/// Returns whether lines are as wanted.
fn are_wanted(lines: &Lines, wanted: &[Wanted]) -> bool {
    if lines.as_slice().len() != wanted.len() {
        return false;
    }
    for (i, line) in lines.as_slice().iter().enumerate() {
        match wanted.get(i) {
            Some(one) if is_wanted(line, one) => {}
            _ => return false,
        }
    }
    true
}

/// Adds a message whose id is new. Returns false if it isn't.
fn add(alloc: Global, twigs: &mut Twigs, message: &Message) -> Result<bool, NoMemory> {
    let (number, letter, refs) = *message;
    let id = [letter];
    if twigs.contains(id.as_slice()) {
        return Ok(false);
    }
    let refs: Texts = letters(alloc, refs)?;
    twigs.add(number, id.as_slice(), &refs, u64::from(number))?;
    Ok(true)
}

/// Returns whether the tree of some messages has the lines that are wanted.
fn grows(alloc: Global, case: &Case) -> Result<bool, NoMemory> {
    let mut twigs = Twigs::new(alloc);
    for message in case.messages {
        if !add(alloc, &mut twigs, message)? {
            return Ok(false);
        }
    }
    Ok(are_wanted(&twigs.tree()?, case.lines))
}

#[test]
fn trees_have_ghosts(rt: HostRuntime) -> Result<(), Fail> {
    for (i, case) in CASES.iter().enumerate() {
        assert!(rt; grows(rt.alloc(), case)?, "case {i}");
    }
    Ok(())
}
