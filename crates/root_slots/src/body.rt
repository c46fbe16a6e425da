//! The bytes of a root.
//! Pure.
ghost use Rattle.std.specs.Prelude.{◌≡◌, ◌+◌, ◌-◌, ◌≤◌, [], ◌++◌, List, ℕ, length, replicate};
ghost use Rattle.std.specs.List.{flat_map};
ghost use Rattle.disk_model.specs.BigEndian.{be32, be64};
ghost use Rattle.root_slots.specs.Spelling.{body_size, place_bytes, name_bytes, format_byte, config_bytes, spelling};

use crate::root::{Place, Root};
use crate::slot::BODY_SIZE;
use arch_base::{Config, Form, Name};
use disk_model::EPOCHS;
use std::marker::Model;

/// Returns the format by the form of ids: 1 or 2.
fn format(form: Form) -> u8
    ensures { result ≡ format_byte form }
{
    match form {
        Form::Sha1 => 1,
        Form::Sha256 => 2,
    }
}

/// A body that is written from its first byte on.
///
/// Its contract view is what is written so far; the rest is zeros.
#[derive(Drop)]
struct Body {
    bytes: [u8; BODY_SIZE],
    at: usize,
}

impl Model for Body {
    ghost use Rattle.std.specs.Prelude.{List, ℕ, ◌≤◌, ◌-◌, ◌≡◌, take, drop, replicate};
    ghost use Rattle.root_slots.specs.Spelling.{body_size};

    ghost Value = { List ℕ };

    ghost view = { λ b. take b.at b.bytes };

    ghost invariant = { λ b. (b.at ≤ body_size)
        × (drop b.at b.bytes ≡ replicate (body_size - b.at) 0) };
}

impl Body {
    /// Creates a body with nothing written.
    fn new() -> Self
        ensures { result ≡ [] }
    {
        Body {
            bytes: [0; BODY_SIZE],
            at: 0,
        }
    }

    /// Writes a field.
    fn push(&mut self, field: &[u8])
        requires { length self.old + length field.now ≤ body_size }
        ensures bytes { self.new ≡ self.old ++ field.now }
        ensures size { length self.new ≡ length self.old + length field.now }
    {
        let end = self.at + field.len();
        self.bytes[self.at..end].copy_from_slice(field);
        self.at = end;
    }

    /// Leaves zeros.
    fn skip(&mut self, count: usize)
        requires { length self.old + count ≤ body_size }
        ensures bytes { self.new ≡ self.old ++ replicate count 0 }
        ensures size { length self.new ≡ length self.old + count }
    {
        self.at += count;
    }

    /// Writes a number of 32 bits, the highest byte first.
    #[tactic(auto, using(disk_model::specs::BigEndian::be32_length), unfolding(disk_model::specs::BigEndian::be32))]
    fn push_u32(&mut self, number: u32)
        requires { length self.old + 4 ≤ body_size }
        ensures bytes { self.new ≡ self.old ++ be32 number }
        ensures size { length self.new ≡ length self.old + 4 }
    {
        self.push(&number.to_be_bytes());
    }

    /// Writes a number of 64 bits, the highest byte first.
    #[tactic(auto, using(disk_model::specs::BigEndian::be64_length), unfolding(disk_model::specs::BigEndian::be64))]
    fn push_u64(&mut self, number: u64)
        requires { length self.old + 8 ≤ body_size }
        ensures bytes { self.new ≡ self.old ++ be64 number }
        ensures size { length self.new ≡ length self.old + 8 }
    {
        self.push(&number.to_be_bytes());
    }

    /// Writes a `Place`: the generation, then the length.
    #[tactic(auto, using(disk_model::specs::BigEndian::be64_length), unfolding(crate::specs::Spelling::place_bytes))]
    fn push_place(&mut self, place: &Place)
        requires { length self.old + 16 ≤ body_size }
        ensures bytes { self.new ≡ self.old ++ place_bytes place.now }
        ensures size { length self.new ≡ length self.old + 16 }
    {
        self.push_u64(place.generation);
        self.push_u64(place.length);
    }

    /// Writes a name with its length before it, and leaves zeros up to 64 bytes.
    #[tactic(auto, unfolding(crate::specs::Spelling::name_bytes))]
    fn push_name(&mut self, name: &Name)
        requires { length self.old + 65 ≤ body_size }
        ensures bytes { self.new ≡ self.old ++ name_bytes name.now }
        ensures size { length self.new ≡ length self.old + 65 }
    {
        let text = name.as_slice();
        self.push(&[text.len() as u8]);
        self.push(text);
        self.skip(64 - text.len());
    }

    /// Writes the format and the settings.
    #[tactic(auto, unfolding(crate::specs::Spelling::config_bytes))]
    fn push_config(&mut self, config: &Config)
        requires { length self.old + 87 ≤ body_size }
        ensures bytes { self.new ≡ self.old ++ config_bytes config.now }
        ensures size { length self.new ≡ length self.old + 87 }
    {
        self.push(&[format(config.form), u8::from(config.mirror)]);
        self.push_name(&config.name);
        self.push_u64(config.limit);
        self.push_u32(config.slice);
        self.push_u32(config.max);
        self.push_u32(config.born);
    }

    /// Writes the places of the epochs.
    fn push_places(&mut self, places: &[Place; EPOCHS as usize])
        requires { length self.old + 1024 ≤ body_size }
        ensures bytes { self.new ≡ self.old ++ flat_map place_bytes places.now }
        ensures size { length self.new ≡ length self.old + 1024 }
    {
        for place in places {
            self.push_place(place);
        }
    }

    /// Returns the whole body, with zeros after what is written.
    fn finish(self) -> [u8; BODY_SIZE]
        ensures { result ≡ self ++ replicate (body_size - length self) 0 }
    {
        let Body { bytes, at: _ } = self;
        bytes
    }
}

/// Returns the bytes of a root: 1,155 bytes of fields, then zeros.
#[tactic(auto, unfolding(crate::specs::Spelling::fields, crate::specs::Spelling::spelling))]
pub fn spell(root: &Root) -> [u8; BODY_SIZE]
    ensures { result ≡ spelling root.now }
{
    let mut body = Body::new();
    body.push_u64(root.sequence);
    body.push_config(&root.config);
    body.push_u32(root.next);
    body.push_place(&root.map);
    body.push_places(&root.epochs);
    body.push_place(&root.cache);
    body.finish()
}
