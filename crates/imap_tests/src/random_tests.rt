//! Octets that a seed determines, cut anywhere, against a plain program of the framer's definition.
//! Allocates.
use crate::framer_tests::{fed, note_command};
use crate::spelling::Spelling;
use arch_base::{Bytes, NoMemory};
use imap_framer::Framer;
use std::alloc::Global;
use std::test::Fail;

/// Pieces of streams. Many of them end a line with a number in braces, or do nearly so.
static PIECES: [&[u8]; 24] = [
    b"a",
    b" ",
    b"\r\n",
    b"\n",
    b"a1 NOOP\r\n",
    b"{3}\r\n",
    b"{0}\n",
    b"{12}\r\n",
    b"{1}\n",
    b"x {2}\r\n",
    b"{005}\r\n",
    b"{7",
    b"{",
    b"}",
    b"4}\r\n",
    b"\r",
    b"\x00\xff",
    b"{}\r\n",
    b"{2}\r\r\n",
    b"{1} \r\n",
    b"{2+}\r\n",
    b"\"{4}\r\n",
    b"{16300}\n",
    b"}\r\n{9}\n",
];

/// Words of the grammar, of which short commands are made.
static WORDS: [&[u8]; 32] = [
    b"NOOP",
    b"LOGIN",
    b"SELECT",
    b"FETCH",
    b"UID",
    b"STORE",
    b"SEARCH",
    b"COPY",
    b"STATUS",
    b"x",
    b"\"y z\"",
    b"{2}\r\nhi",
    b"{0}\n",
    b"1:*",
    b"2,7",
    b"(FLAGS)",
    b"FLAGS",
    b"BODY[]",
    b"(UID)",
    b"+FLAGS",
    b"(\\Seen)",
    b"NOT",
    b"OR",
    b"SEEN",
    b"(1 ALL)",
    b"SUBJECT",
    b"SINCE",
    b"1-Feb-1994",
    b"LARGER",
    b"5",
    b"(UNSEEN)",
    b"CHARSET",
];

/// Numbers that a seed determines.
#[derive(Drop)]
struct Random {
    state: u64,
}

impl Random {
    /// Makes the numbers of a seed.
    fn new(seed: u64) -> Random {
        Random { state: seed }
    }

    /// Returns a number below 65,536.
    fn next(&mut self) -> usize {
        self.state = self
            .state
            .wrapping_mul(6_364_136_223_846_793_005)
            .wrapping_add(1_442_695_040_888_963_407);
        usize::from((self.state >> 48) as u16)
    }

    /// Appends one of some texts.
    fn push_one(&mut self, texts: &[&'static [u8]], into: &mut Bytes) -> Result<(), NoMemory> {
        if texts.is_empty() {
            return Ok(());
        }
        match texts.get(self.next() % texts.len()) {
            Some(text) => into.push_slice(text),
            None => Ok(()),
        }
    }
}

/// Returns a stream of some twenty pieces.
fn stream(alloc: Global, random: &mut Random) -> Result<Bytes, NoMemory> {
    let mut octets = Bytes::new(alloc);
    for _index in 0..20 {
        random.push_one(&PIECES, &mut octets)?;
    }
    Ok(octets)
}

/// Returns a command of a command's name and up to five words.
fn command(alloc: Global, random: &mut Random) -> Result<Bytes, NoMemory> {
    let mut octets = Bytes::new(alloc);
    octets.push_slice(b"a")?;
    let count = 1 + random.next() % 5;
    for _index in 0..count {
        octets.push(b' ')?;
        random.push_one(&WORDS, &mut octets)?;
    }
    octets.push_slice(b"\r\n")?;
    Ok(octets)
}

/// Returns the place of an octet at or after another place.
fn place_from(octets: &[u8], from: usize, octet: u8) -> Option<usize> {
    for index in from..octets.len() {
        if octets.get(index) == Some(&octet) {
            return Some(index);
        }
    }
    None
}

/// Returns the place after the last brace of a line, if it has one.
fn after_brace(line: &[u8]) -> Option<usize> {
    let mut found = None;
    for index in 0..line.len() {
        if line.get(index) == Some(&b'{') {
            found = Some(index + 1);
        }
    }
    found
}

/// Returns the number that one or more digits spell.
fn number_of(digits: &[u8]) -> Option<usize> {
    let mut number: usize = 0;
    for digit in digits {
        if !digit.is_ascii_digit() {
            return None;
        }
        number = number
            .saturating_mul(10)
            .saturating_add(usize::from(*digit).saturating_sub(48));
    }
    if digits.is_empty() {
        None
    } else {
        Some(number)
    }
}

/// Returns the octets that a line without its line feed announces.
fn announced(line: &[u8]) -> Option<usize> {
    let line = line.strip_suffix(b"\r").unwrap_or(line);
    let start = after_brace(line)?;
    let digits = line.get(start..)?.strip_suffix(b"}")?;
    number_of(digits)
}

/// Appends what the definition finds in a stream, part by part.
fn find_plainly(octets: &[u8], into: &mut Bytes) -> Result<(), NoMemory> {
    let mut start: usize = 0;
    let mut line: usize = 0;
    for _index in 0..octets.len() {
        let Some(end) = place_from(octets, line, b'\n') else {
            return Ok(());
        };
        let next = end.saturating_add(1);
        match announced(octets.get(line..end).unwrap_or(&[])) {
            None => {
                note_command(octets.get(start..next).unwrap_or(&[]), into)?;
                start = next;
                line = next;
            }
            Some(count) if next.saturating_sub(start).saturating_add(count) <= 16_384 => {
                into.push(b'+')?;
                line = next.saturating_add(count);
            }
            Some(_count) => return into.push(b'!'),
        }
    }
    Ok(())
}

/// Returns what the framer finds in a stream that is cut in two.
fn found_cut(alloc: Global, octets: &[u8], cut: usize) -> Result<Bytes, NoMemory> {
    let mut framer = Framer::new(alloc);
    let mut found = Bytes::new(alloc);
    let (first, second) = octets.split_at(octets.len().min(cut));
    if fed(&mut framer, first, true, &mut found)? {
        fed(&mut framer, second, true, &mut found)?;
    }
    Ok(found)
}

/// Returns what the framer finds in a stream, octet by octet.
fn found_singly(alloc: Global, octets: &[u8]) -> Result<Bytes, NoMemory> {
    let mut framer = Framer::new(alloc);
    let mut found = Bytes::new(alloc);
    for octet in octets {
        if !fed(&mut framer, &[*octet], true, &mut found)? {
            return Ok(found);
        }
    }
    Ok(found)
}

/// Returns whether a stream that is cut in two gives just this.
fn gives_cut(alloc: Global, octets: &[u8], cut: usize, plain: &[u8]) -> Result<bool, NoMemory> {
    let found = found_cut(alloc, octets, cut)?;
    Ok(found.as_slice() == plain)
}

/// Returns whether a stream gives just this octet by octet.
fn gives_singly(alloc: Global, octets: &[u8], plain: &[u8]) -> Result<bool, NoMemory> {
    let found = found_singly(alloc, octets)?;
    Ok(found.as_slice() == plain)
}

/// Returns whether a stream gives what the definition finds in it, whole, octet by octet and cut.
fn is_found_plainly(alloc: Global, octets: &[u8], cut: usize) -> Result<bool, NoMemory> {
    let mut plain = Bytes::new(alloc);
    find_plainly(octets, &mut plain)?;
    let whole = gives_cut(alloc, octets, octets.len(), plain.as_slice())?;
    let parts = gives_cut(alloc, octets, cut, plain.as_slice())?;
    let singly = gives_singly(alloc, octets, plain.as_slice())?;
    Ok(whole && parts && singly)
}

/// Returns whether the first command that was found means this.
fn first_means(alloc: Global, found: &[u8], meaning: &[u8]) -> Result<bool, NoMemory> {
    let start = place_from(found, 0, b'<').unwrap_or(found.len());
    let end = place_from(found, start, b'>').unwrap_or(found.len());
    let command = found.get(start.saturating_add(1)..end).unwrap_or(&[]);
    let mut spelling = Spelling::new(alloc);
    spelling.reading(command)?;
    Ok(spelling.as_slice() == meaning)
}

/// Returns whether a command that is cut in two means this.
fn means_cut(alloc: Global, octets: &[u8], cut: usize, meaning: &[u8]) -> Result<bool, NoMemory> {
    let found = found_cut(alloc, octets, cut)?;
    first_means(alloc, found.as_slice(), meaning)
}

/// Returns whether a command that comes octet by octet means this.
fn means_singly(alloc: Global, octets: &[u8], meaning: &[u8]) -> Result<bool, NoMemory> {
    let found = found_singly(alloc, octets)?;
    first_means(alloc, found.as_slice(), meaning)
}

/// Returns whether a command means the same however its octets come.
fn is_read_alike(alloc: Global, octets: &[u8], cut: usize) -> Result<bool, NoMemory> {
    let mut direct = Spelling::new(alloc);
    direct.reading(octets)?;
    let parts = means_cut(alloc, octets, cut, direct.as_slice())?;
    let singly = means_singly(alloc, octets, direct.as_slice())?;
    Ok(parts && singly)
}

#[test]
fn random_streams_are_found_as_the_definition_has_them(rt: HostRuntime) -> Result<(), Fail> {
    let mut random = Random::new(20);
    for _index in 0..300 {
        let octets = stream(rt.alloc(), &mut random)?;
        let cut = random.next() % octets.as_slice().len().max(1);
        assert!(rt; is_found_plainly(rt.alloc(), octets.as_slice(), cut)?);
    }
    Ok(())
}

#[test]
fn random_commands_are_read_alike_however_they_are_cut(rt: HostRuntime) -> Result<(), Fail> {
    let mut random = Random::new(51);
    for _index in 0..300 {
        let octets = command(rt.alloc(), &mut random)?;
        let cut = random.next() % octets.as_slice().len().max(1);
        assert!(rt; is_read_alike(rt.alloc(), octets.as_slice(), cut)?);
    }
    Ok(())
}
