//! Sections of messages, and parts of them.
//! Allocates.
use crate::mails::{NESTED, ONE_PART, PLAIN, bytes, is_item};
use arch_base::{NoMemory, Sequence, Texts};
use imap_syntax::{Item, Partial, Section, SectionText};
use std::alloc::Global;

/// Returns the item of a section of the part with these numbers.
fn section(
    alloc: Global,
    numbers: &[u32],
    text: SectionText,
    partial: Option<Partial>,
) -> Result<Item, NoMemory> {
    let mut part = Sequence::new(alloc);
    for number in numbers {
        part.push(*number)?;
    }
    Ok(Item::Section(Section { part, text }, partial))
}

/// Returns whether a section of a message is this text.
fn is_section(
    alloc: Global,
    mail: &[u8],
    numbers: &[u32],
    text: SectionText,
    wanted: &[u8],
) -> bool {
    match section(alloc, numbers, text, None) {
        Ok(asked) => is_item(alloc, mail, asked, wanted),
        Err(NoMemory) => false,
    }
}

/// Returns whether ten octets of the text of a message with one part, from an offset on, are this text.
fn is_cut(alloc: Global, offset: u32, wanted: &[u8]) -> bool {
    let partial = Some(Partial { offset, count: 10 });
    match section(alloc, &[], SectionText::Text, partial) {
        Ok(asked) => is_item(alloc, ONE_PART, asked, wanted),
        Err(NoMemory) => false,
    }
}

#[test]
fn the_part_of_a_multipart_has_its_number(rt: HostRuntime) {
    let alloc = rt.alloc();
    assert!(rt;
        is_section(
            alloc,
            ONE_PART,
            &[1],
            SectionText::Whole,
            b"BODY[1] {2}\r\nhi"
        )
    );
    assert!(rt;
        is_section(
            alloc,
            ONE_PART,
            &[1],
            SectionText::Mime,
            b"BODY[1.MIME] {28}\r\nContent-Type: text/plain\r\n\r\n"
        )
    );
    assert!(rt; is_section(alloc, ONE_PART, &[2], SectionText::Whole, b"BODY[2] NIL"));
    assert!(rt;
        is_section(
            alloc,
            ONE_PART,
            &[1],
            SectionText::Text,
            b"BODY[1.TEXT] NIL"
        )
    );
}

#[test]
fn octets_are_cut(rt: HostRuntime) {
    let alloc = rt.alloc();
    assert!(rt; is_cut(alloc, 40, b"BODY[TEXT]<40> {4}\r\n--\r\n"));
    assert!(rt; is_cut(alloc, 50, b"BODY[TEXT]<50> {0}\r\n"));
    assert!(rt; is_cut(alloc, 4, b"BODY[TEXT]<4> {10}\r\n\nContent-T"));
}

#[test]
fn a_message_without_parts_has_one(rt: HostRuntime) {
    let alloc = rt.alloc();
    assert!(rt;
        is_section(
            alloc,
            PLAIN,
            &[1],
            SectionText::Whole,
            b"BODY[1] {5}\r\none\r\n"
        )
    );
    assert!(rt;
        is_section(
            alloc,
            NESTED,
            &[1, 1],
            SectionText::Whole,
            b"BODY[1.1] {4}\r\nin\r\n"
        )
    );
    assert!(rt;
        is_section(
            alloc,
            NESTED,
            &[1],
            SectionText::Text,
            b"BODY[1.TEXT] {4}\r\nin\r\n"
        )
    );
    assert!(rt;
        is_item(
            alloc,
            PLAIN,
            Item::Rfc822Text,
            b"RFC822.TEXT {5}\r\none\r\n"
        )
    );
}

/// Returns two names of fields.
fn names(alloc: Global) -> Result<Texts, NoMemory> {
    let mut names = Texts::new(alloc);
    names.push(bytes(alloc, b"SUBJECT")?)?;
    names.push(bytes(alloc, b"a b")?)?;
    Ok(names)
}

/// Returns whether the fields with these names of a message are this text.
fn is_fields(alloc: Global, wanted: &[u8]) -> bool {
    match names(alloc) {
        Ok(names) => is_section(alloc, ONE_PART, &[], SectionText::Fields(names), wanted),
        Err(NoMemory) => false,
    }
}

/// Returns whether the other fields of a message are this text.
fn is_other_fields(alloc: Global, wanted: &[u8]) -> bool {
    match names(alloc) {
        Ok(names) => is_section(alloc, ONE_PART, &[], SectionText::FieldsNot(names), wanted),
        Err(NoMemory) => false,
    }
}

#[test]
fn fields_are_picked_by_their_names(rt: HostRuntime) {
    let alloc = rt.alloc();
    assert!(rt;
        is_fields(
            alloc,
            b"BODY[HEADER.FIELDS (SUBJECT \"a b\")] {14}\r\nSubject: w\r\n\r\n"
        )
    );
    assert!(rt;
        is_other_fields(
            alloc,
            b"BODY[HEADER.FIELDS.NOT (SUBJECT \"a b\")] {64}\r\nMessage-ID: <w@x>\r\nContent-Type: multipart/mixed; boundary=B\r\n\r\n"
        )
    );
}
