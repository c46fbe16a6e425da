//! Targets of requests: their paths and their parameters.
use arch_base::Bytes;
use http_heads::{Address, address_of, parameter, segments, skip_of, split_target};
use std::alloc::Global;

/// What a path may name, with the id or the digits in it.
#[derive(Clone, Copy, PartialEq, Eq, Drop)]
enum Kind {
    Nothing,
    Listing,
    Text,
    Thread,
    Message,
    Feed,
    Mailbox,
    ThreadFeed,
    ThreadMailbox,
    Entries,
    Blob,
}

/// Targets, and what they name in an archive with the name `list`.
const NAMED: [(&[u8], Kind, &[u8]); 57] = [
    (b"/list/", Kind::Listing, b""),
    (b"/list/?o=200", Kind::Listing, b""),
    (b"/list/a@x", Kind::Message, b"a@x"),
    (b"/list/a@x/", Kind::Message, b"a@x"),
    (b"/list/a@x/raw", Kind::Text, b"a@x"),
    (b"/list/a@x/raw?q=", Kind::Text, b"a@x"),
    (b"/list/a@x/t/", Kind::Thread, b"a@x"),
    (b"/l%69st/a%40x/r%61w", Kind::Text, b"a@x"),
    (b"/list/a%2Fb%3f/%74/", Kind::Thread, b"a/b?"),
    (b"/list/a+b/", Kind::Message, b"a+b"),
    (b"/list/a%/", Kind::Message, b"a%"),
    (b"/list/%fF%zz", Kind::Message, b"\xff%zz"),
    (b"/list/_", Kind::Message, b"_"),
    (b"/list/new.atom/", Kind::Message, b"new.atom"),
    (b"/list/all.mbox/raw", Kind::Text, b"all.mbox"),
    (b"/list/raw/", Kind::Message, b"raw"),
    (b"/list/t", Kind::Message, b"t"),
    (b"/list/NEW.atom", Kind::Message, b"NEW.atom"),
    (b"/list", Kind::Nothing, b""),
    (b"/list?o=1/", Kind::Nothing, b""),
    (b"/List/", Kind::Nothing, b""),
    (b"/lists/", Kind::Nothing, b""),
    (b"/lis/", Kind::Nothing, b""),
    (b"list/", Kind::Nothing, b""),
    (b"//list/", Kind::Nothing, b""),
    (b"http://host/list/", Kind::Nothing, b""),
    (b"*", Kind::Nothing, b""),
    (b"/", Kind::Nothing, b""),
    (b"/list/new.atom", Kind::Feed, b""),
    (b"/list/%6Eew.atom", Kind::Feed, b""),
    (b"/list/new.atom?q=d:x", Kind::Feed, b""),
    (b"/list/all.mbox", Kind::Mailbox, b""),
    (b"/list/a@x/t.atom", Kind::ThreadFeed, b"a@x"),
    (b"/list/a%2Fb/t.%6Dbox", Kind::ThreadMailbox, b"a/b"),
    (b"/list/new.atom/t.atom", Kind::ThreadFeed, b"new.atom"),
    (b"/list/_/t.atom", Kind::ThreadFeed, b"_"),
    (b"/list/_/t.mbox", Kind::ThreadMailbox, b"_"),
    (b"/list/a@x/T.atom", Kind::Nothing, b""),
    (b"/list/a@x/t.atom/", Kind::Nothing, b""),
    (b"/list/_/", Kind::Message, b"_"),
    (b"/list/_/raw", Kind::Text, b"_"),
    (b"/list/_/t/", Kind::Thread, b"_"),
    (b"/list/_/list", Kind::Entries, b""),
    (b"/list/%5F/l%69st?o=1", Kind::Entries, b""),
    (b"/list/_/List", Kind::Nothing, b""),
    (b"/list/_/list/", Kind::Nothing, b""),
    (b"/list/__/list", Kind::Nothing, b""),
    (b"/list/a@x/list", Kind::Nothing, b""),
    (b"/list/_/blob/0f", Kind::Blob, b"0f"),
    (b"/list/_/%62lob/%30F?x", Kind::Blob, b"0F"),
    (b"/list/_/blob/", Kind::Blob, b""),
    (b"/list/_/blob", Kind::Nothing, b""),
    (b"/list/_/blob/0f/", Kind::Nothing, b""),
    (b"/list/a@x/blob/0f", Kind::Nothing, b""),
    (b"/list/a@x/t", Kind::Nothing, b""),
    (b"/list/a@x/raw/", Kind::Nothing, b""),
    (b"/list/a@x/t//", Kind::Nothing, b""),
];

/// Returns whether an address is of a kind, and has an id or digits.
fn is_address(found: Option<Address<'_>>, kind: Kind, id: &[u8]) -> bool {
    match found {
        None => kind == Kind::Nothing,
        Some(Address::Listing) => kind == Kind::Listing,
        Some(Address::Text(named)) => kind == Kind::Text && named == id,
        Some(Address::Thread(named)) => kind == Kind::Thread && named == id,
        Some(Address::Message(named)) => kind == Kind::Message && named == id,
        Some(Address::Feed) => kind == Kind::Feed,
        Some(Address::Mailbox) => kind == Kind::Mailbox,
        Some(Address::ThreadFeed(named)) => kind == Kind::ThreadFeed && named == id,
        Some(Address::ThreadMailbox(named)) => kind == Kind::ThreadMailbox && named == id,
        Some(Address::Entries) => kind == Kind::Entries,
        Some(Address::Blob(digits)) => kind == Kind::Blob && digits == id,
    }
}

/// Returns whether a target names this.
fn names(alloc: Global, target: &[u8], kind: Kind, id: &[u8]) -> bool {
    match segments(alloc, split_target(target).0) {
        Ok(path) => is_address(address_of(b"list", path.as_slice()), kind, id),
        Err(_) => false,
    }
}

#[test]
fn a_target_names_what_was_worked_out(rt: HostRuntime) {
    for (target, kind, id) in &NAMED {
        assert!(rt; names(rt.alloc(), target, *kind, id));
    }
}

/// Targets, and the values of their first parameters `o`. Without one the value is `none`.
const VALUES: [(&[u8], &[u8]); 10] = [
    (b"/list/?o=5", b"5"),
    (b"/list/?q=a+b&%6f=%35&o=6", b"5"),
    (b"/list/?o=x&o=5", b"x"),
    (b"/list/?o", b""),
    (b"/list/?&&o=+%2B%ff", b" +\xef\xbf\xbd"),
    (b"/list/?q=?o=1&o=2?", b"2?"),
    (b"/list/?O=5", b"none"),
    (b"/list/?q=1;o=5", b"none"),
    (b"/list/", b"none"),
    (b"/o=5", b"none"),
];

/// Returns whether the first parameter `o` of a target has a value.
fn has_value(alloc: Global, target: &[u8], value: &[u8]) -> bool {
    match parameter(alloc, split_target(target).1, b"o") {
        Ok(Some(found)) => found.as_slice() == value,
        Ok(None) => value == b"none".as_slice(),
        Err(_) => false,
    }
}

#[test]
fn a_target_has_the_parameters_that_were_worked_out(rt: HostRuntime) {
    for (target, value) in &VALUES {
        assert!(rt; has_value(rt.alloc(), target, value));
    }
}

/// Values, and the numbers of rows that are skipped.
const SKIPPED: [(&[u8], u64); 8] = [
    (b"200", 200),
    (b"0", 0),
    (b"18446744073709551615", 18_446_744_073_709_551_615),
    (b"18446744073709551616", 0),
    (b"05", 0),
    (b"+5", 0),
    (b"5 ", 0),
    (b"", 0),
];

#[test]
fn a_decimal_alone_skips_rows(rt: HostRuntime) {
    assert!(rt; skip_of(None) == 0);
    for (value, skip) in &SKIPPED {
        assert!(rt; skip_of(Some(value)) == *skip);
    }
}
