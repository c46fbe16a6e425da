//! Reads the parts of a root from its bytes.
//! Pure.
//!
//! Each function reads its part from the front and returns the rest. Its contract says what is read
//! if the bytes start with the spelling of a value; otherwise it may read any value.
ghost use Rattle.std.specs.Prelude.{◌≡◌, ◌+◌, ◌<◌, ◌≤◌, ◌^◌, ◌++◌, Some, List, ℕ, length, get_or, take};
ghost use Rattle.std.specs.List.{flat_map};
ghost use Rattle.std.specs.Int.{from_be_bytes, w64};
ghost use Rattle.arch_base.specs.Names.{IsArchiveName};
ghost use Rattle.arch_base.specs.Configs.{IsConfig};
ghost use Rattle.arch_base.specs.declared.config.Config.{Config};
ghost use Rattle.arch_base.specs.declared.ids.Form.{Form};
ghost use Rattle.root_slots.specs.declared.root.Place.{Place};
ghost use Rattle.root_slots.specs.declared.root.Root.{Root};
ghost use Rattle.disk_model.specs.Sizes.{epoch_count};
ghost use Rattle.disk_model.specs.BigEndian.{be32, be64};
ghost use Rattle.root_slots.specs.Spelling.{body_size, place_bytes, name_bytes, format_byte, config_bytes, spelling};
ghost use Rattle.root_slots.specs.Valid.{no_place, PlaceFits, RootFits, IsRoot};

use crate::root::{Place, Root};
use arch_base::{Config, Form, Name};
use disk_model::EPOCHS;

/// Reads a number of 64 bits, the highest byte first.
pub fn number64(bytes: &[u8]) -> (u64, &[u8])
    requires { 8 ≤ length bytes.now }
    ensures value { result.0 ≡ from_be_bytes w64 (take 8 bytes.now) }
    ensures read { (n : ℕ) (rest : List ℕ) → n < 2 ^ 64 → bytes.now ≡ be64 n ++ rest
        → (result.0 ≡ n) × (result.1.now ≡ rest) }
    ensures size { length result.1.now + 8 ≡ length bytes.now }
{
    let (front, rest) = bytes.split_at(8);
    let mut digits = [0; 8];
    digits.copy_from_slice(front);
    (u64::from_be_bytes(digits), rest)
}

/// Reads a number of 32 bits, the highest byte first.
fn number32(bytes: &[u8]) -> (u32, &[u8])
    requires { 4 ≤ length bytes.now }
    ensures read { (n : ℕ) (rest : List ℕ) → n < 2 ^ 32 → bytes.now ≡ be32 n ++ rest
        → (result.0 ≡ n) × (result.1.now ≡ rest) }
    ensures size { length result.1.now + 4 ≡ length bytes.now }
{
    let (front, rest) = bytes.split_at(4);
    let mut digits = [0; 4];
    digits.copy_from_slice(front);
    (u32::from_be_bytes(digits), rest)
}

/// Reads a `Place`: the generation, then the length.
fn place(bytes: &[u8]) -> (Place, &[u8])
    requires { 16 ≤ length bytes.now }
    ensures read { (p : Place) (rest : List ℕ) → PlaceFits p → bytes.now ≡ place_bytes p ++ rest
        → (result.0 ≡ p) × (result.1.now ≡ rest) }
    ensures size { length result.1.now + 16 ≡ length bytes.now }
{
    let (generation, rest) = number64(bytes);
    let (length, rest) = number64(rest);
    (Place { generation, length }, rest)
}

/// Reads a name, if there is one.
fn name(bytes: &[u8]) -> (Option<Name>, &[u8])
    requires { 65 ≤ length bytes.now }
    ensures read { (text rest : List ℕ) → IsArchiveName text → bytes.now ≡ name_bytes text ++ rest
        → (result.0 ≡ Some text) × (result.1.now ≡ rest) }
    ensures size { length result.1.now + 65 ≡ length bytes.now }
{
    let (front, rest) = bytes.split_at(65);
    let (length, text) = front.split_at(1);
    let length = length[0] as usize;
    if length > 64 {
        return (None, rest);
    }
    (Name::read(&text[..length]), rest)
}

/// Returns the form that a format names. A format that names none may give any form.
fn form_by(format: u8) -> Form
    ensures { (of : Form) → format ≡ format_byte of → result ≡ of }
{
    match format {
        2 => Form::Sha256,
        _ => Form::Sha1,
    }
}

/// Reads settings, if they have a name.
fn config(bytes: &[u8]) -> (Option<Config>, &[u8])
    requires { 87 ≤ length bytes.now }
    ensures read { (c : Config) (rest : List ℕ) → IsArchiveName c.name → IsConfig c
        → bytes.now ≡ config_bytes c ++ rest → (result.0 ≡ Some c) × (result.1.now ≡ rest) }
    ensures size { length result.1.now + 87 ≡ length bytes.now }
{
    let (front, rest) = bytes.split_at(2);
    let form = form_by(front[0]);
    let mirror = front[1] == 1;
    let (name, rest) = name(rest);
    let (limit, rest) = number64(rest);
    let (slice, rest) = number32(rest);
    let (max, rest) = number32(rest);
    let (born, rest) = number32(rest);
    match name {
        Some(name) => (
            Some(Config {
                name,
                limit,
                slice,
                max,
                mirror,
                born,
                form,
            }),
            rest,
        ),
        None => (None, rest),
    }
}

/// Reads the places of the epochs.
fn places(bytes: &[u8]) -> ([Place; EPOCHS as usize], &[u8])
    requires { 1024 ≤ length bytes.now }
    ensures read { (ps : List Place) (rest : List ℕ)
        → ((i : ℕ) → i < epoch_count → PlaceFits (get_or ps i no_place)) → length ps ≡ epoch_count
        → bytes.now ≡ flat_map place_bytes ps ++ rest → (result.0 ≡ ps) × (result.1.now ≡ rest) }
    ensures size { length result.1.now + 1024 ≡ length bytes.now }
{
    let mut all = [Place {
        generation: 0,
        length: 0,
    }; EPOCHS as usize];
    let mut rest = bytes;
    for i in 0..EPOCHS as usize {
        let (next, after) = place(rest);
        all[i] = next;
        rest = after;
    }
    (all, rest)
}

/// Returns the root that the bytes spell, if they spell one.
///
/// Otherwise it may return any root or none.
pub fn root_of(body: &[u8]) -> Option<Root>
    requires { body_size ≤ length body.now }
    ensures { (r : Root) → RootFits r → IsRoot r → body.now ≡ spelling r → result ≡ Some r }
{
    let (sequence, rest) = number64(body);
    let (config, rest) = config(rest);
    let (next, rest) = number32(rest);
    let (map, rest) = place(rest);
    let (epochs, rest) = places(rest);
    let (cache, _) = place(rest);
    match config {
        Some(config) => Some(Root {
            config,
            sequence,
            next,
            map,
            epochs,
            cache,
        }),
        None => None,
    }
}
