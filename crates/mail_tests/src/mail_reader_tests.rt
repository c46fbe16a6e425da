//! Forms worked out by hand from the rules, and each call once with ample memory.
ghost use Rattle.std.specs.Prelude.{◌≤◌};

use arch_base::{Bytes, NoMemory, decimal};
use fixtures::{BytesCase, Case, cases};
use mail_reader::{
    Fields, StoredRefusal, body, content_id, fields, flat, is_stored, own_id, refs_of, stored,
    stored_id,
};
use std::alloc::{AllocError, Global};

/// Returns whether the mail of a case has its storage form.
fn has_form(alloc: Global, case: &BytesCase) -> bool {
    match stored(alloc, case.given) {
        Ok(form) => form.as_slice() == case.wanted,
        Err(_) => false,
    }
}

/// Returns whether no field is left of a mail.
fn has_no_fields(alloc: Global, mail: &[u8]) -> bool {
    matches!(stored(alloc, mail), Err(StoredRefusal::NoFields))
}

/// Mails with line ends of all kinds, and their storage forms.
const LINE_ENDS: [BytesCase; 11] = cases![
    b"A: b\r\n\r\nc\r\n" => b"A: b\n\nc\n",
    b"A: b\r\r\r\n\r\r\nc\r\r\r\n" => b"A: b\n\nc\n",
    b"A: b\r" => b"A: b\n\n",
    b"A: b\n\r" => b"A: b\n\n",
    b"A: b\n\nc\r" => b"A: b\n\nc\n",
    b"A: b\n\nc\rd\n" => b"A: b\n\nc\rd\n",
    b"A: b\rc\n\n" => b"A: b\rc\n\n",
    b"A: b\n\n\0\n" => b"A: b\n\n\0\n",
    b"A: b\n\n\xff\x80\n" => b"A: b\n\n\xff\x80\n",
    b"A: b\n\nc" => b"A: b\n\nc\n",
    b"A: b" => b"A: b\n\n",
];

#[test]
fn line_ends_become_line_feeds(rt: HostRuntime) {
    for case in &LINE_ENDS {
        assert!(rt; has_form(rt.alloc(), case));
    }
}

/// Mails with headers that end in each way, and their storage forms.
const HEADERS: [BytesCase; 11] = cases![
    b"A: b\n" => b"A: b\n\n",
    b"A: b\n\n" => b"A: b\n\n",
    b"A: b\n\n\n" => b"A: b\n\n\n",
    b"A: b\nc\n" => b"A: b\n\nc\n",
    b"A: b\nc\nD: e\n\nf\n" => b"A: b\n\nc\nD: e\n\nf\n",
    b"A: b\n c\n\td\n\ne\n" => b"A: b\n c\n\td\n\ne\n",
    b"A: b\n \nc\n" => b"A: b\n \n\nc\n",
    b"A:b\n\n" => b"A:b\n\n",
    b"!#~: b\n\n" => b"!#~: b\n\n",
    b"A: b\nC : d\n\n" => b"A: b\n\nC : d\n\n",
    b"A: b\n\xc3: d\n" => b"A: b\n\n\xc3: d\n",
];

#[test]
fn headers_end_with_an_empty_line(rt: HostRuntime) {
    for case in &HEADERS {
        assert!(rt; has_form(rt.alloc(), case));
    }
}

/// Mails with lines and fields that are dropped or look so, and their storage forms.
const DROPPED: [BytesCase; 9] = cases![
    b"From a\nA: b\n\n" => b"A: b\n\n",
    b"From: a\n\n" => b"From: a\n\n",
    b"A: b\n\nFrom a\n" => b"A: b\n\nFrom a\n",
    b"Bytes: 1\nA: b\n\n" => b"A: b\n\n",
    b"A: b\nStatus: R\n c\n\td\nE: f\n\n" => b"A: b\nE: f\n\n",
    b"sTATUS: R\nLINES: 2\ncontent-LENGTH: 5\nA: b\n" => b"A: b\n\n",
    b"X-Status: a\n\n" => b"X-Status: a\n\n",
    b"Line: 1\n\n" => b"Line: 1\n\n",
    b"A: b\nLines: 1\n\nLines: 2\n" => b"A: b\n\nLines: 2\n",
];

#[test]
fn mailbox_lines_and_four_fields_are_dropped(rt: HostRuntime) {
    for case in &DROPPED {
        assert!(rt; has_form(rt.alloc(), case));
    }
}

/// Mails of which no field is left.
const WITHOUT_FIELDS: [&[u8]; 14] = [
    b"",
    b"\n",
    b"\r\r",
    b"\r\n\r\n",
    b"a",
    b" a\nA: b\n",
    b"\nA: b\n",
    b"From a\n",
    b"From a\nFrom b\nA: b\n",
    b"From a\n c\nA: b\n",
    b": b\n",
    b"A : b\n",
    b"A\x7f: b\n",
    b"Status: R\nLines: 2\n c\n\nA: b\n",
];

#[test]
fn mails_without_a_field_are_refused(rt: HostRuntime) {
    for mail in &WITHOUT_FIELDS {
        assert!(rt; has_no_fields(rt.alloc(), mail));
    }
}

/// A mail of a mailbox, and its storage form.
const MAILBOX: BytesCase = Case {
    given: b"From bob@example.net Thu Feb  1 12:00:00 2024\r\n\
        Received: from mx.example.net\r\n\
        \tby lists.example.org; Thu, 1 Feb 2024 11:59:58 +0100\r\n\
        From: =?UTF-8?Q?Bj=C3=B6rn?= <bob@example.net>\r\n\
        To: list@example.org\r\n\
        Subject: [PATCH 1/2] fix\r\n\
        \tthe build\r\n\
        Date: Thu, 1 Feb 2024 11:59:57 +0100 (CET)\r\n\
        Message-ID: <p1@example.net>\r\n\
        References: <a@x>\r\n <b@x>\r\n\
        Status: RO\r\n\
        \r\n\
        > quoted\r\n\
        diff\r\n",
    wanted: b"Received: from mx.example.net\n\
        \tby lists.example.org; Thu, 1 Feb 2024 11:59:58 +0100\n\
        From: =?UTF-8?Q?Bj=C3=B6rn?= <bob@example.net>\n\
        To: list@example.org\n\
        Subject: [PATCH 1/2] fix\n\
        \tthe build\n\
        Date: Thu, 1 Feb 2024 11:59:57 +0100 (CET)\n\
        Message-ID: <p1@example.net>\n\
        References: <a@x>\n <b@x>\n\
        \n\
        > quoted\n\
        diff\n",
};

#[test]
fn a_mail_of_a_mailbox_is_stored_as_worked_out(rt: HostRuntime) {
    assert!(rt; has_form(rt.alloc(), &MAILBOX));
    assert!(rt; is_stored(MAILBOX.wanted) && !is_stored(MAILBOX.given));
}

#[test]
fn a_storage_form_has_its_fields_and_its_body(rt: HostRuntime) {
    let form = MAILBOX.wanted;
    assert!(rt; form.len() == 300);
    assert!(rt; body(form) == b"> quoted\ndiff\n".as_slice());
    assert!(rt; fields(form).count() == 7);
}

/// Returns a mail of this many bytes, with these first and no line end after them.
fn long_mail(alloc: Global, front: &[u8; 8], len: usize) -> Result<Vec<u8>, AllocError>
    requires { 8 ≤ len }
{
    let mut mail = vec![in alloc; b'x'; len]?;
    mail[..8].copy_from_slice(front);
    Ok(mail)
}

/// Returns the length of the storage form of such a mail, or why it is refused.
fn form_len(alloc: Global, front: &[u8; 8], len: usize) -> Result<usize, StoredRefusal>
    requires { 8 ≤ len }
{
    let Ok(mail) = long_mail(alloc, front, len) else {
        return Err(StoredRefusal::NoMemory);
    };
    let form = stored(alloc, mail.as_slice())?;
    Ok(form.as_slice().len())
}

#[test]
fn mails_are_taken_up_to_8388608_bytes(rt: HostRuntime) {
    let alloc = rt.alloc();
    let front = b"A: b\n\nxx";
    assert!(rt; form_len(alloc, front, 8_388_607) == Ok(8_388_608));
    assert!(rt; form_len(alloc, front, 8_388_608) == Ok(8_388_609));
}

#[test]
fn longer_mails_are_refused(rt: HostRuntime) {
    let alloc = rt.alloc();
    let large = form_len(alloc, b"A: b\n\nxx", 8_388_609);
    assert!(rt; large == Err(StoredRefusal::TooLarge(8_388_609)));
    let without_field = form_len(alloc, b"Ax b\n\nxx", 8_388_609);
    assert!(rt; without_field == Err(StoredRefusal::NoFields));
}

/// Storage texts.
const STORED: [&[u8]; 4] = [
    b"Message-ID: <a@x>\n\n",
    b"message-id: (<a@x>)\n b\n\nc\n",
    b"Message-ID: <a@x>\n\nc\rd\n",
    b"Message-ID: <a@x>\n\n\n",
];

/// Texts that are no storage texts.
const NOT_STORED: [&[u8]; 10] = [
    b"",
    b"\n",
    b"A: b\n\n",
    b"Message-ID: a@x\n\n",
    b"Message-ID: <a@x>\n",
    b"Message-ID: <a@x>\nc\n",
    b"Message-ID: <a@x>\r\n\n",
    b"Message-ID: <a@x>\n\nc",
    b"Message-ID: <a@x>\n\nc\r\n",
    b"Message-ID: <a@x>\nStatus: R\n\n",
];

#[test]
fn storage_texts_are_told(rt: HostRuntime) {
    for text in &STORED {
        assert!(rt; is_stored(text) && stored_id(text) == own_id(text));
    }
    for text in &NOT_STORED {
        assert!(rt; !is_stored(text) && stored_id(text).is_none());
    }
}

/// Returns whether a text of this many bytes, of one field and a body of one line, is a storage
/// text.
fn is_long_stored(alloc: Global, len: usize) -> Result<bool, AllocError>
    requires { 20 ≤ len }
{
    let mut text = vec![in alloc; b'x'; len]?;
    text[..19].copy_from_slice(b"Message-ID: <a@x>\n\n");
    text[len - 1] = b'\n';
    Ok(is_stored(text.as_slice()))
}

#[test]
fn storage_texts_have_up_to_8388800_bytes(rt: HostRuntime) {
    assert!(rt; matches!(is_long_stored(rt.alloc(), 8_388_800), Ok(true)));
    assert!(rt; matches!(is_long_stored(rt.alloc(), 8_388_801), Ok(false)));
}

/// Texts, and their own ids.
const OWN_IDS: [Case<Option<&'static [u8]>>; 6] = cases![
    b"A: b\nMESSAGE-ID: <a@x>\n\n" => Some(b"<a@x>"),
    b"Message-ID: (<c@x>) <d@x>\n\n" => Some(b"<c@x>"),
    b"Message-ID: <a<b>\n\n" => Some(b"<b>"),
    b"Message-ID:\n <a b> <> <c\xff> <d>\n\n" => Some(b"<d>"),
    b"Message-ID: none\nMessage-ID: <b@x>\n\n" => None,
    b"A: b\n\nMessage-ID: <b@x>\n" => None,
];

#[test]
fn own_ids_are_found(rt: HostRuntime) {
    for case in &OWN_IDS {
        assert!(rt; own_id(case.given) == case.wanted);
    }
}

/// Returns whether an id of this many bytes between its brackets is found.
fn is_found(alloc: Global, len: usize) -> Result<bool, NoMemory> {
    let mut text = Bytes::new(alloc);
    text.push_slice(b"Message-ID: <")?;
    for _ in 0..len {
        text.push(b'x')?;
    }
    text.push_slice(b">\n\n")?;
    Ok(own_id(text.as_slice()).is_some())
}

/// Returns whether ids of 1 and of 248 bytes are found, and those of 0 and of 249 are not.
fn finds_1_to_248(alloc: Global) -> Result<bool, NoMemory> {
    let none = is_found(alloc, 0)?;
    let least = is_found(alloc, 1)?;
    let most = is_found(alloc, 248)?;
    let more = is_found(alloc, 249)?;
    Ok(!none && least && most && !more)
}

#[test]
fn ids_have_up_to_248_bytes_between_their_brackets(rt: HostRuntime) {
    assert!(rt; matches!(finds_1_to_248(rt.alloc()), Ok(true)));
}

/// Returns whether the next of the fields that are left has this name, this value and these bytes.
fn is_next(left: &mut Fields<'_>, name: &[u8], value: &[u8], whole: &[u8]) -> bool {
    match left.next() {
        Some(field) => field.name == name && field.value == value && field.whole == whole,
        None => false,
    }
}

#[test]
fn fields_are_lent(rt: HostRuntime) {
    let text = b"A: b\n c\nD:e\n\nf\n";
    let mut left = fields(text);
    assert!(rt; is_next(&mut left, b"A", b" b\n c", b"A: b\n c\n"));
    assert!(rt; is_next(&mut left, b"D", b"e", b"D:e\n"));
    assert!(rt; left.next().is_none());
}

/// Values, and what is made of them.
const VALUES: [BytesCase; 4] = cases![
    b" a\n\tb\r\0c \n " => b"a b  c",
    b"" => b"",
    b" \t\n" => b"",
    b"a  b" => b"a  b",
];

/// Returns whether the value of a case is made flat as it should be.
fn is_made_flat(alloc: Global, case: &BytesCase) -> bool {
    match flat(alloc, case.given) {
        Ok(made) => made.as_slice() == case.wanted,
        Err(_) => false,
    }
}

#[test]
fn values_are_made_flat(rt: HostRuntime) {
    for case in &VALUES {
        assert!(rt; is_made_flat(rt.alloc(), case));
    }
}

/// Returns a field of 300 ids, and another of the first of them.
fn many_ids(alloc: Global) -> Result<Bytes, NoMemory> {
    let mut text = Bytes::new(alloc);
    text.push_slice(b"References:")?;
    for n in 0..300 {
        push_id(alloc, &mut text, n)?;
    }
    text.push_slice(b"\nIn-Reply-To: <0@x>\n\n")?;
    Ok(text)
}

/// Appends a line of a field, with the id of this number, to a text.
fn push_id(alloc: Global, text: &mut Bytes, n: u64) -> Result<(), NoMemory> {
    text.push_slice(b"\n <")?;
    text.push_slice(decimal(alloc, n)?.as_slice())?;
    text.push_slice(b"@x>")
}

/// Returns whether of these ids the last 200 stay.
fn keeps_last_200(alloc: Global) -> Result<bool, NoMemory> {
    let text = many_ids(alloc)?;
    let refs = refs_of(alloc, text.as_slice())?;
    Ok(are_last_200(refs.as_slice()))
}

/// Returns whether there are 200 ids, from the one of the number 100 to that of 299.
fn are_last_200(ids: &[Bytes]) -> bool {
    match ids {
        [first, others @ .., last] => {
            others.len() == 198
                && first.as_slice() == b"<100@x>".as_slice()
                && last.as_slice() == b"<299@x>".as_slice()
        }
        _ => false,
    }
}

#[test]
fn of_300_references_the_last_200_stay(rt: HostRuntime) {
    assert!(rt; matches!(keeps_last_200(rt.alloc()), Ok(true)));
}

/// Returns whether a text has three references, of these ids.
fn has_refs(alloc: Global, text: &[u8], ids: [&[u8]; 3]) -> Result<bool, NoMemory> {
    let refs = refs_of(alloc, text)?;
    match refs.as_slice() {
        [a, b, c] => Ok([a.as_slice(), b.as_slice(), c.as_slice()] == ids),
        _ => Ok(false),
    }
}

#[test]
fn of_equal_references_the_first_stays(rt: HostRuntime) {
    let text = b"In-Reply-To: <c> <b>\nReferences: <a> <b> <a>\n\n";
    assert!(rt;
        matches!(
            has_refs(rt.alloc(), text, [b"<a>", b"<b>", b"<c>"]),
            Ok(true)
        )
    );
}

// The digest of "subject:a b", "subject:c", "to:x", an empty line and "body", by another program.
#[test]
fn content_ids_are_those_of_another_program(rt: HostRuntime) {
    let wanted = [
        66, 139, 38, 218, 156, 26, 11, 111, 238, 24, 247, 155, 207, 3, 249, 162, 139, 35, 130, 69,
        29, 111, 226, 193, 56, 148, 18, 175, 224, 156, 239, 156,
    ];
    assert!(rt; content_id(b"To: x\nSubject: a \t b\n\nbody\n") != wanted);
    assert!(rt; content_id(b"To:\n x\nSubject: a \t b\nX: y\nsubject:\tc\n\nbody\n") == wanted);
}

// The digest of "subject:a", "from:b", "date:c", "references:<d>", "in-reply-to:<e>", "to:f",
// "cc:g", an empty line and "x", by another program.
#[test]
fn content_ids_count_seven_fields(rt: HostRuntime) {
    let text =
        b"Cc: g\nTo: f\nIn-Reply-To: <e>\nReferences: <d>\nDate: c\nFrom: b\nSubject: a\n\nx\n";
    let wanted = [
        248, 119, 81, 113, 106, 120, 143, 64, 25, 31, 14, 89, 39, 117, 221, 209, 25, 253, 198, 45,
        155, 55, 184, 68, 56, 64, 199, 244, 120, 128, 200, 255,
    ];
    assert!(rt; content_id(text) == wanted);
}
