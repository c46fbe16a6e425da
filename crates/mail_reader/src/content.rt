//! Computes the content id of a message. It is the same for a message that was sent twice.
//! Pure.
ghost use Rattle.std.specs.Prelude.{◌≡◌, ◌∷◌, []};
ghost use Rattle.std.specs.Str.{str_to_ascii_lowercase};
ghost use Rattle.mail_reader.specs.Fields.{fields_of};
ghost use Rattle.mail_reader.specs.Values.{flat_of};
ghost use Rattle.mail_reader.specs.Content.{content_id_of, counted, counted_field, squeezed};
ghost use Rattle.mail_reader.specs.Counting.{IsFoundField};
ghost use Rattle.mail_reader.specs.Hashing.{HasHashed, given_at, waiting, waits_after};

use crate::counting::{Found, FoundFields};
use crate::header::Fields;
use crate::reading::{body, is_same_name};
use crate::values::{space_for, trim};
use sha2::{Digest, Sha256};

/// Returns the content id of a text.
///
/// It is the SHA-256 (FIPS 180-4) of the fields Subject, From, Date, References, In-Reply-To, To
/// and Cc, of a line feed, and of the body. Each field is hashed as its name in lower case, a
/// colon, its flat value, in which each run of spaces is one space, and a line feed.
pub fn content_id(text: &[u8]) -> [u8; 32]
    ensures { result ≡ content_id_of text.now }
{
    let found = FoundFields::of(text);
    let mut hasher = Sha256::new();
    hash_found(&mut hasher, text, b"Subject", found.subject);
    hash_found(&mut hasher, text, b"From", found.authors);
    hash_found(&mut hasher, text, b"Date", found.date);
    hash_found(&mut hasher, text, b"References", found.references);
    hash_found(&mut hasher, text, b"In-Reply-To", found.replied);
    hash_found(&mut hasher, text, b"To", found.recipients);
    hash_found(&mut hasher, text, b"Cc", found.copied);
    hash_bytes(&mut hasher, b"\n");
    hash_bytes(&mut hasher, body(text));
    hasher.finalize()
}

/// Hashes the fields with a name, by what is found of them.
fn hash_found(hasher: &mut Sha256, text: &[u8], name: &[u8], found: Found<'_>)
    requires { IsFoundField name.now found (fields_of text.now) [] }
    ensures { HasHashed hasher.old hasher.new (counted name.now (fields_of text.now)) }
{
    match found {
        Found::Nothing => {}
        Found::Value(value) => hash_field(hasher, name, value),
        Found::Several => hash_fields(hasher, text, name),
    }
}

/// Hashes the fields with a name.
fn hash_fields(hasher: &mut Sha256, text: &[u8], name: &[u8])
    ensures { HasHashed hasher.old hasher.new (counted name.now (fields_of text.now)) }
{
    for field in Fields::of(text) {
        if is_same_name(field.name, name) {
            hash_field(hasher, name, field.value);
        }
    }
}

/// Hashes a field.
fn hash_field(hasher: &mut Sha256, name: &[u8], value: &[u8])
    ensures { HasHashed hasher.old hasher.new (counted_field name.now value.now) }
{
    hash_lower(hasher, name);
    hash_bytes(hasher, b":");
    hash_squeezed(hasher, value);
    hash_bytes(hasher, b"\n");
}

/// Hashes a name in lower case.
fn hash_lower(hasher: &mut Sha256, name: &[u8])
    ensures { HasHashed hasher.old hasher.new (str_to_ascii_lowercase name.now) }
{
    for byte in name {
        hash_byte(hasher, byte.to_ascii_lowercase());
    }
}

/// Hashes the flat value of a value, in which each run of spaces is one space.
fn hash_squeezed(hasher: &mut Sha256, value: &[u8])
    ensures { HasHashed hasher.old hasher.new (squeezed (flat_of value.now)) }
{
    let mut spaced = false;
    for byte in trim(value) {
        spaced = hash_spaced(hasher, spaced, *byte);
    }
}

/// Hashes what a byte adds, and returns whether a space waits after it. `spaced` says whether one
/// waits before it.
fn hash_spaced(hasher: &mut Sha256, spaced: bool, byte: u8) -> bool
    ensures took { HasHashed hasher.old hasher.new (given_at spaced byte) }
    ensures waits { result ≡ waits_after spaced byte }
{
    if byte == b'\n' {
        return spaced;
    }
    let shown = space_for(byte);
    if shown == b' ' {
        return true;
    }
    hash_waiting(hasher, spaced);
    hash_byte(hasher, shown);
    false
}

/// Hashes the space that waits, if there is one.
fn hash_waiting(hasher: &mut Sha256, spaced: bool)
    ensures { HasHashed hasher.old hasher.new (waiting spaced) }
{
    if spaced {
        hash_byte(hasher, b' ');
    }
}

/// Hashes a byte.
fn hash_byte(hasher: &mut Sha256, byte: u8)
    ensures { HasHashed hasher.old hasher.new (byte ∷ []) }
{
    hash_bytes(hasher, &[byte]);
}

/// Hashes bytes.
fn hash_bytes(hasher: &mut Sha256, bytes: &[u8])
    ensures { HasHashed hasher.old hasher.new bytes.now }
{
    hasher.update(bytes);
}
