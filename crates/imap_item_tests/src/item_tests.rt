//! Items of messages that are no sections.
//! Allocates.
use crate::mails::{NESTED, ONE_PART, PLAIN, SEALED, is_divided, is_item};
use imap_syntax::Item;

#[test]
fn facts_are_told_of_the_row(rt: HostRuntime) {
    let alloc = rt.alloc();
    assert!(rt; is_item(alloc, PLAIN, Item::Flags, b"FLAGS ()"));
    assert!(rt; is_item(alloc, PLAIN, Item::Uid, b"UID 4"));
    assert!(rt; is_item(alloc, PLAIN, Item::Size, b"RFC822.SIZE 109"));
    assert!(rt;
        is_item(
            alloc,
            PLAIN,
            Item::InternalDate,
            b"INTERNALDATE \" 1-Feb-2024 10:01:40 +0000\""
        )
    );
}

#[test]
fn envelopes_have_the_authors_thrice(rt: HostRuntime) {
    let wanted =
        b"ENVELOPE (\"Thu, 1 Feb 2024 10:00:00 +0000\" \"first\" ((\"Ann\" NIL \"ann\" \"example.org\")) ((\"Ann\" NIL \"ann\" \"example.org\")) ((\"Ann\" NIL \"ann\" \"example.org\")) NIL NIL NIL NIL \"<a@x>\")";
    assert!(rt; is_item(rt.alloc(), PLAIN, Item::Envelope, wanted));
}

#[test]
fn structures_are_told_with_their_parts(rt: HostRuntime) {
    let alloc = rt.alloc();
    assert!(rt;
        is_item(
            alloc,
            PLAIN,
            Item::Body,
            b"BODY (\"text\" \"plain\" NIL NIL NIL \"7bit\" 5 1)"
        )
    );
    assert!(rt;
        is_item(
            alloc,
            ONE_PART,
            Item::BodyStructure,
            b"BODYSTRUCTURE ((\"text\" \"plain\" NIL NIL NIL \"7bit\" 2 0) \"mixed\")"
        )
    );
    assert!(rt;
        is_item(
            alloc,
            SEALED,
            Item::Body,
            b"BODY (\"application\" \"octet-stream\" NIL NIL NIL \"base64\" 8)"
        )
    );
}

#[test]
fn a_message_inside_is_told_with_its_envelope(rt: HostRuntime) {
    let wanted =
        b"BODY (\"message\" \"rfc822\" NIL NIL NIL \"7bit\" 48 (NIL {3}\r\na\"b NIL NIL NIL ((NIL NIL \"g\" NIL)({4}\r\nB \"q NIL \"b\" \"x\")(NIL NIL \"c\" \"y\")(NIL NIL NIL NIL)) NIL NIL NIL NIL) (\"text\" \"plain\" NIL NIL NIL \"7bit\" 4 1) 4)";
    assert!(rt; is_item(rt.alloc(), NESTED, Item::Body, wanted));
}

#[test]
fn only_structures_and_numbered_sections_divide(rt: HostRuntime) {
    assert!(rt; is_divided(Item::BodyStructure));
    assert!(rt; !is_divided(Item::Envelope));
}
