//! Mails at the limits: many parts, deep ones, long boundaries, and long hostile texts.
use arch_base::{Bytes, NoMemory};
use mime_parts::tree;
use std::alloc::Global;

/// The header of a multipart, and the empty line after it.
const HEADER: &[u8] = b"Content-Type: multipart/m; boundary=B\n\n";

/// Appends bytes so many times.
fn push_times(text: &mut Bytes, bytes: &[u8], count: usize) -> Result<(), NoMemory> {
    for _ in 0..count {
        text.push_slice(bytes)?;
    }
    Ok(())
}

/// Returns how many entities a text has, and the depth of the last one.
fn counted(alloc: Global, text: &[u8]) -> Result<(usize, u8), NoMemory> {
    let parts = tree(alloc, text)?;
    let depth = match parts.as_slice().last() {
        Some(part) => part.depth,
        None => 0,
    };
    Ok((parts.as_slice().len(), depth))
}

/// Returns how many entities a multipart with so many empty parts has.
fn count_of_empty(alloc: Global, count: usize) -> Result<usize, NoMemory> {
    let mut text = Bytes::new(alloc);
    text.push_slice(HEADER)?;
    push_times(&mut text, b"--B\n", count)?;
    Ok(counted(alloc, text.as_slice())?.0)
}

/// Appends a part that is a multipart of so many empty parts.
fn push_multipart(text: &mut Bytes, count: usize) -> Result<(), NoMemory> {
    text.push_slice(b"--B\nContent-Type: multipart/m; boundary=C\n\n")?;
    push_times(text, b"--C\n", count)
}

/// Returns how many entities a multipart of three multiparts with so many empty parts has.
fn count_of_three(alloc: Global, a: usize, b: usize, c: usize) -> Result<usize, NoMemory> {
    let mut text = Bytes::new(alloc);
    text.push_slice(HEADER)?;
    push_multipart(&mut text, a)?;
    push_multipart(&mut text, b)?;
    push_multipart(&mut text, c)?;
    Ok(counted(alloc, text.as_slice())?.0)
}

/// Returns how many entities so many nested multiparts have, each of whose boundaries begins the
/// next one's, and the depth of the last one.
fn count_of_nested(alloc: Global, count: usize) -> Result<(usize, u8), NoMemory> {
    let mut text = Bytes::new(alloc);
    for level in 0..count {
        text.push_slice(b"Content-Type: multipart/m; boundary=")?;
        push_times(&mut text, b"a", level + 1)?;
        text.push_slice(b"\n\n--")?;
        push_times(&mut text, b"a", level + 1)?;
        text.push_slice(b"\n")?;
    }
    counted(alloc, text.as_slice())
}

/// Returns how many entities a multipart with a boundary of so many bytes has.
fn count_of_boundary(alloc: Global, len: usize) -> Result<usize, NoMemory> {
    let mut text = Bytes::new(alloc);
    text.push_slice(b"Content-Type: multipart/m; boundary=\"")?;
    push_times(&mut text, b"b", len)?;
    text.push_slice(b"\"\n\n--")?;
    push_times(&mut text, b"b", len)?;
    Ok(counted(alloc, text.as_slice())?.0)
}

/// Returns how many entities a multipart with a line so many times has.
fn count_of_lines(alloc: Global, line: &[u8], count: usize) -> Result<usize, NoMemory> {
    let mut text = Bytes::new(alloc);
    text.push_slice(HEADER)?;
    push_times(&mut text, line, count)?;
    Ok(counted(alloc, text.as_slice())?.0)
}

#[test]
fn at_most_a_thousand(rt: HostRuntime) -> Result<(), NoMemory> {
    assert!(rt; count_of_empty(rt.alloc(), 999)? == 1000);
    assert!(rt; count_of_empty(rt.alloc(), 1000)? == 1);
    Ok(())
}

#[test]
fn earlier_parts_count(rt: HostRuntime) -> Result<(), NoMemory> {
    assert!(rt; count_of_three(rt.alloc(), 600, 396, 0)? == 1000);
    assert!(rt; count_of_three(rt.alloc(), 600, 397, 3)? == 607);
    Ok(())
}

#[test]
fn at_most_twenty_levels(rt: HostRuntime) -> Result<(), NoMemory> {
    assert!(rt; count_of_nested(rt.alloc(), 18)? == (19, 19));
    assert!(rt; count_of_nested(rt.alloc(), 25)? == (20, 20));
    Ok(())
}

#[test]
fn boundaries_have_1_to_70_bytes(rt: HostRuntime) -> Result<(), NoMemory> {
    assert!(rt; count_of_boundary(rt.alloc(), 0)? == 1);
    assert!(rt; count_of_boundary(rt.alloc(), 1)? == 2);
    assert!(rt; count_of_boundary(rt.alloc(), 70)? == 2);
    assert!(rt; count_of_boundary(rt.alloc(), 71)? == 1);
    Ok(())
}

#[test]
fn long_texts_are_read(rt: HostRuntime) -> Result<(), NoMemory> {
    assert!(rt; count_of_lines(rt.alloc(), b"--B\n", 2_000_000)? == 1);
    assert!(rt; count_of_lines(rt.alloc(), b"--BB\n", 1_600_000)? == 1);
    Ok(())
}
