//! Tests of each call with ample memory, against values worked out elsewhere.
use arch_base::{
    Bytes, Config, Form, Name, NoMemory, Numbers, ObjectId, Texts, decimal, hex_of, id_of_hex,
    read_decimal,
};
use fixtures::{Case, cases};
use std::alloc::Global;

/// Returns bytes that grew by one and by three, and were then cut to three.
fn grown(alloc: Global) -> Result<Bytes, NoMemory> {
    let mut bytes = Bytes::new(alloc);
    bytes.push(b'a')?;
    bytes.push_slice(b"bcd")?;
    bytes.truncate(3);
    Ok(bytes)
}

/// Returns whether these bytes and their copy are `abc`.
fn copies_bytes(alloc: Global) -> Result<bool, NoMemory> {
    let bytes = grown(alloc)?;
    let same = bytes.copy()?;
    Ok(bytes.as_slice() == b"abc".as_slice() && same.as_slice() == b"abc".as_slice())
}

/// Returns whether a copy of a list of one text has that text alone.
fn copies_texts(alloc: Global) -> Result<bool, NoMemory> {
    let mut texts = Texts::new(alloc);
    texts.push(grown(alloc)?)?;
    let same = texts.copy()?;
    let same = same.as_slice();
    Ok(same.len() == 1 && same[0].as_slice() == b"abc".as_slice())
}

/// Returns whether a copy of a list of one number becomes a vector of that number.
fn copies_numbers(alloc: Global) -> Result<bool, NoMemory> {
    let mut numbers = Numbers::new(alloc);
    numbers.push(7)?;
    let same = numbers.copy()?.into_vec();
    Ok(same.as_slice() == [7].as_slice())
}

#[test]
fn lists_grow_shrink_and_are_copied(rt: HostRuntime) {
    assert!(rt; matches!(copies_bytes(rt.alloc()), Ok(true)));
    assert!(rt; matches!(copies_texts(rt.alloc()), Ok(true)));
    assert!(rt; matches!(copies_numbers(rt.alloc()), Ok(true)));
}

/// Returns whether a text is read as a name whose copy has that text.
fn reads_name(text: &[u8]) -> bool {
    match Name::read(text) {
        Some(name) => name.copy().as_slice() == text,
        None => false,
    }
}

/// Texts that are names.
const NAMES: [&[u8]; 5] = [b"list", b"0", b"a.b-c_d", b"lists.example.org", &[b'a'; 64]];

/// Texts that are no names.
const OTHER_NAMES: [&[u8]; 7] = [b"", b".a", b"a.", b"-a", b"A", b"a b", &[b'a'; 65]];

#[test]
fn names_are_read(rt: HostRuntime) {
    for text in &NAMES {
        assert!(rt; reads_name(text));
    }
    for text in &OTHER_NAMES {
        assert!(rt; Name::read(text).is_none());
    }
}

/// Returns whether a number is printed as this text.
fn prints(alloc: Global, number: u64, text: &[u8]) -> Result<bool, NoMemory> {
    let printed = decimal(alloc, number)?;
    Ok(printed.as_slice() == text)
}

#[test]
fn decimals_are_printed(rt: HostRuntime) {
    let most = prints(rt.alloc(), 18446744073709551615, b"18446744073709551615");
    assert!(rt; matches!(most, Ok(true)));
}

/// Texts, and the decimals of 64 bits that they are.
const DECIMALS: [Case<Option<u64>>; 9] = cases![
    b"0" => Some(0),
    b"10" => Some(10),
    b"18446744073709551615" => Some(18446744073709551615),
    b"" => None,
    b"00" => None,
    b"01" => None,
    b"1 " => None,
    b"-1" => None,
    b"18446744073709551616" => None,
];

#[test]
fn decimals_are_read(rt: HostRuntime) {
    for case in &DECIMALS {
        assert!(rt; read_decimal(case.given) == case.wanted);
    }
}

/// Texts that are no ids of the form SHA-1 in lower case.
const OTHER_IDS: [&[u8]; 4] = [
    b"CE0000000000000000000000000000000000004a",
    b"ce0000000000000000000000000000000000004",
    b"ce0000000000000000000000000000000000004g",
    b"ce0000000000000000000000000000000000000000000000000000000000004a",
];

/// Returns the id of a form with the first byte 206, the last one 74, and zeros between.
fn sample_id(form: Form) -> ObjectId {
    let mut bytes = [0u8; 32];
    bytes[0] = 0xce;
    let last = form.id_size() - 1;
    bytes[last] = 0x4a;
    ObjectId::from_slice(&bytes[..form.id_size()], form)
}

#[test]
fn ids_are_spelled_and_read(rt: HostRuntime) {
    let id = sample_id(Form::Sha1);
    let text = b"ce0000000000000000000000000000000000004a";
    assert!(rt; id.form() == Form::Sha1);
    assert!(rt; hex_of(&id).as_slice() == text.as_slice());
    assert!(rt; id_of_hex(text, Form::Sha1) == Some(id));
    for text in &OTHER_IDS {
        assert!(rt; id_of_hex(text, Form::Sha1).is_none());
    }
}

#[test]
fn ids_of_sha_256_are_spelled_and_read(rt: HostRuntime) {
    let id = sample_id(Form::Sha256);
    let text = b"ce0000000000000000000000000000000000000000000000000000000000004a";
    assert!(rt; id.form() == Form::Sha256);
    assert!(rt; id != sample_id(Form::Sha1));
    assert!(rt; hex_of(&id).as_slice() == text.as_slice());
    assert!(rt; id_of_hex(text, Form::Sha256) == Some(id));
    assert!(rt; id_of_hex(text, Form::Sha1).is_none());
    assert!(rt; id_of_hex(&text[..40], Form::Sha256).is_none());
}

/// Returns whether a copy of settings keeps the name, the limit, the largest number and `mirror`.
fn copies_settings(name: Name) -> bool {
    let config = Config {
        name,
        limit: 316,
        slice: 50000,
        max: 2,
        mirror: false,
        born: 1,
        form: Form::Sha1,
    };
    let same = config.copy();
    same.name.as_slice() == b"list".as_slice() && same.limit == 316 && same.max == 2 && !same.mirror
}

#[test]
fn settings_are_copied(rt: HostRuntime) {
    let Some(name) = Name::read(b"list") else {
        return assert!(rt; false);
    };
    assert!(rt; copies_settings(name));
}
