//! Values and their addresses, worked out by hand from RFC 5322, with ample memory.
use arch_base::{Bytes, Duplicate, NoMemory};
use fixtures::{BytesCase, cases};
use mail_address::{Address, AddressKind, Addresses, list};
use std::alloc::Global;

/// Values, and their addresses as `shown` writes them.
const VALUES: [BytesCase; 40] = cases![
    // Items with a name before brackets, or without one.
    b"" => b"",
    b"A\\nn <a@b>" => b"M Ann|a|b;",
    b"a@b (Ann (x) \\( \"Lee\")" => b"M Ann ( Lee|a|b;",
    b"<a@b> (Ann)" => b"M |a|b;",
    b"(Ann) <a@b>" => b"M |a|b;",
    b"a@b (x) ()" => b"M |a|b;",
    b"=?utf-8?Q?(x)?= <a@b>" => b"M =?utf-8?Q??=|a|b;",
    b"  \"Ann  \\\"Q\\\"\"   Lee  <a@b>" => b"M Ann \"Q\" Lee|a|b;",
    b"A\\ <a@b>" => b"M A|a|b;",
    b"a@b (x\\" => b"M x|a|b;",
    b"a@b (c\\)d)" => b"M c)d|a|b;",
    b"a@b (x (y)) c" => b"M x|a|bc;",
    // Addresses with quoted strings, comments, brackets and routes.
    b"n <\"a>b\"@x>" => b"M n|\"a>b\"|x;",
    b"A <a@b, c@d" => b"M A|a@b,c|d;",
    b"A <a@b, C <d@e>" => b"M A|a@b,C<d|e;",
    b"< @x:a@b (c:d)>" => b"M |a|b;",
    b"\"x <a@b" => b"M |\"x <a|b;",
    b"\"a@b\"" => b"M |\"a|b\";",
    b"(a <b> c) d@e" => b"M a <b> c|d|e;",
    b"n <a@(>)b>" => b"M n|a|b;",
    b"a@b > c" => b"M |a|b>c;",
    b"<\"a  b\" @ c>" => b"M |\"a  b\"|c;",
    b"root" => b"M |root|;",
    b"<@x:\"y:a@b>" => b"M |a|b>;",
    // Lists and groups, and items that are no address.
    b"g: @x:a@b;" => b"G g||;M |a|b;E ||;",
    b"Ann <a@b>: c" => b"G Ann <a@b>||;M |c|;E ||;",
    b":;" => b"G ||;E ||;",
    b"<>" => b"",
    b"\"\"<>" => b"",
    b"<@x:>" => b"",
    b"<@>" => b"M ||;",
    b"Team: Ann <ann@x>, \"Lee, B.\" <lee@y>; c@z" =>
        b"G Team||;M Ann|ann|x;M Lee, B.|lee|y;E ||;M |c|z;",
    b"a@b; c@d" => b"M |a|b;M |c|d;",
    b"g: a:b@c;" => b"G g||;M |a:b|c;E ||;",
    b"g: a@b" => b"G g||;M |a|b;E ||;",
    // Lists with quoted strings, comments and brackets.
    b"\"a,b\"@c, (x,y) d@e" => b"M |\"a,b\"|c;M x,y|d|e;",
    b"<a@b> <c, d> \"e, f\" (g, h), i@j" => b"M |a|b;M |i|j;",
    b"\"Lee, \\\"B\\\"\" (x (y)) <@r,@s:ann (c)@x>, g (n): <\"a;b\"@y>, <c@z>;, d <e@f>" =>
        b"M Lee, \"B\"|ann|x;G g||;M |\"a;b\"|y;M |c|z;E ||;M d|e|f;",
    b", ,a@b," => b"M |a|b;",
    b"Ann Lee <ann@x>, Bo <bo@y>" => b"M Ann Lee|ann|x;M Bo|bo|y;",
];

#[test]
fn addresses_are_read_and_copied(rt: HostRuntime) {
    for case in &VALUES {
        assert!(rt; matches!(reads_and_copies(rt.alloc(), case), Ok(true)));
    }
}

/// Returns whether the value of a case is read as its addresses, and a copy has them too.
fn reads_and_copies(alloc: Global, case: &BytesCase) -> Result<bool, NoMemory> {
    let addresses = list(alloc, case.given)?;
    let twin = addresses.duplicate()?;
    let same = is_shown_as(alloc, &addresses, case.wanted)?;
    let same_twin = is_shown_as(alloc, &twin, case.wanted)?;
    Ok(same && same_twin)
}

/// Returns whether `shown` writes addresses as a text.
fn is_shown_as(alloc: Global, addresses: &Addresses, text: &[u8]) -> Result<bool, NoMemory> {
    Ok(shown(alloc, addresses)?.as_slice() == text)
}

/// Returns addresses as a line of text: the kind by its letter, the name, the mailbox and the host.
fn shown(alloc: Global, addresses: &Addresses) -> Result<Bytes, NoMemory> {
    let mut text = Bytes::new(alloc);
    for address in addresses.as_slice() {
        push_address(&mut text, address)?;
    }
    Ok(text)
}

/// Appends an address, as `shown` writes it, to a text.
fn push_address(text: &mut Bytes, address: &Address) -> Result<(), NoMemory> {
    text.push_slice(match address.kind {
        AddressKind::Mailbox => b"M ",
        AddressKind::GroupStart => b"G ",
        AddressKind::GroupEnd => b"E ",
    })?;
    push_part(text, &address.name, b'|')?;
    push_part(text, &address.mailbox, b'|')?;
    push_part(text, &address.host, b';')
}

/// Appends a part of an address, and a byte after it, to a text.
fn push_part(text: &mut Bytes, part: &Bytes, end: u8) -> Result<(), NoMemory> {
    text.push_slice(part.as_slice())?;
    text.push(end)
}
