//! The hexadecimal digits of an id.
//! Pure.
ghost use Rattle.std.specs.Prelude.{◌≡◌};
ghost use Rattle.hex.specs.Hex.{encode_lower};
ghost use Rattle.arch_base.specs.Ids.{id_bytes};

use crate::ids::ObjectId;
use hex::encode_to_slice;
use std::marker::Model;

/// The lower-case hexadecimal digits of an id: 40 of a SHA-1, 64 of a SHA-256.
///
/// Contracts see its digits.
#[derive(Debug, Drop)]
pub struct Hex {
    digits: [u8; 64],
    len: u8,
}

impl Model for Hex {
    ghost use Rattle.std.specs.Prelude.{◌≤◌, ℕ, List, take};

    ghost Value = { List ℕ };

    ghost view = { λ hex. take hex.len hex.digits };

    ghost invariant = { λ hex. hex.len ≤ 64 };
}

impl Hex {
    /// Returns the digits.
    pub fn as_slice(&self) -> &[u8]
        ensures { result.now ≡ self.now }
    {
        &self.digits[..self.len as usize]
    }
}

/// Returns the lower-case hexadecimal digits of an id, two for each byte.
pub fn hex_of(id: &ObjectId) -> Hex
    ensures { result ≡ encode_lower (id_bytes id.now) }
{
    let bytes = id.as_slice();
    let mut digits = [0u8; 64];
    let len = 2 * bytes.len();
    let _ = encode_to_slice(bytes, &mut digits[..len]);
    Hex {
        digits,
        len: len as u8,
    }
}
