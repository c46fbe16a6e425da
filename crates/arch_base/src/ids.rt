//! Ids of git objects in two forms, and the forms.
//! Pure.
ghost use Rattle.std.specs.Prelude.{◌≡◌, ◌≢◌, ◌≤◌, ◌<◌, ◌^◌, ℕ, length, slice_index, IfSome, IfNone};
ghost use Rattle.hex.specs.Hex.{encode_lower};
ghost use Rattle.arch_base.specs.Ids.{id_size, form_of, id_bytes, IsObjectId};

use crate::hex_text::{Hex, hex_of};
use hex::decode_to_slice;

/// Which hash names the objects of an archive (git, "hash-function-transition").
#[derive(Debug, Clone, Copy, PartialEq, Eq, Drop)]
pub enum Form {
    /// SHA-1: ids of 20 bytes.
    Sha1,
    /// SHA-256: ids of 32 bytes.
    Sha256,
}

impl Form {
    /// Returns the number of bytes of an id: 20 or 32.
    pub fn id_size(self) -> usize
        ensures size { result ≡ id_size self }
        ensures most { result ≤ 32 }
    {
        match self {
            Form::Sha1 => 20,
            Form::Sha256 => 32,
        }
    }
}

/// The id of a git object: the hash of its header and content.
///
/// Ids are in order by form, and in a form by their bytes.
#[derive(Debug, Clone, Copy, PartialEq, Eq, PartialOrd, Ord, Drop)]
pub enum ObjectId {
    /// A SHA-1.
    Sha1([u8; 20]),
    /// A SHA-256.
    Sha256([u8; 32]),
}

impl ObjectId {
    /// Returns the bytes: 20 or 32, by the form.
    pub fn as_slice(&self) -> &[u8]
        ensures bytes { result.now ≡ id_bytes self.now }
        ensures valid { IsObjectId (form_of self.now) self.now }
    {
        match self {
            ObjectId::Sha1(bytes) => all_of(bytes),
            ObjectId::Sha256(bytes) => all_of(bytes),
        }
    }

    /// Returns the form.
    pub fn form(&self) -> Form
        ensures { result ≡ form_of self.now }
    {
        match self {
            ObjectId::Sha1(_) => Form::Sha1,
            ObjectId::Sha256(_) => Form::Sha256,
        }
    }

    /// Returns the id of a form with these bytes, as many as ids of the form have.
    pub fn from_slice(bytes: &[u8], form: Form) -> ObjectId
        requires { length bytes.now ≡ id_size form }
        ensures bytes { id_bytes result ≡ bytes.now }
        ensures valid { IsObjectId form result }
    {
        are_bytes(bytes);
        match form {
            Form::Sha1 => {
                let mut id = [0u8; 20];
                id.copy_from_slice(bytes);
                ObjectId::Sha1(id)
            }
            Form::Sha256 => {
                let mut id = [0u8; 32];
                id.copy_from_slice(bytes);
                ObjectId::Sha256(id)
            }
        }
    }
}

/// Returns the bytes of an array, and brings into the proof how many they are, and that each is
/// below 256.
fn all_of<const N: usize>(bytes: &[u8; N]) -> &[u8]
    ensures same { result.now ≡ bytes.now }
    ensures len { length bytes.now ≡ N }
    ensures small { (k : ℕ) → slice_index bytes.now k < 2 ^ 8 }
{
    let all = bytes.as_slice();
    are_bytes(all);
    all
}

/// Brings into the proof that each byte of a slice is below 256.
fn are_bytes(bytes: &[u8])
    ensures { (k : ℕ) → slice_index bytes.now k < 2 ^ 8 }
{}

/// Returns the id of a form that lower-case hexadecimal digits spell, two for each byte, or `None`
/// for any other text.
pub fn id_of_hex(text: &[u8], form: Form) -> Option<ObjectId>
    ensures found { IfSome result (λ id. IsObjectId form id × (text.now ≡ encode_lower (id_bytes id))) }
    ensures none { IfNone result ((id : ObjectId) → IsObjectId form id
        → text.now ≢ encode_lower (id_bytes id)) }
{
    let mut bytes = [0u8; 32];
    let digest = &mut bytes[..form.id_size()];
    if decode_to_slice(text, digest).is_err() {
        return None;
    }
    let id = ObjectId::from_slice(digest, form);
    // The decoder also accepts upper-case digits.
    if hex_of(&id).as_slice() == text {
        Some(id)
    } else {
        None
    }
}
