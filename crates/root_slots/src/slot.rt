//! The two slots of a root file, and where their bytes are.
//! Pure.
ghost use Rattle.std.specs.Prelude.{◌≡◌, ◌-◌, ◌≤◌};
ghost use Rattle.root_slots.specs.Slots.{slot_number, body_offset};

/// The length of a root file, in bytes.
pub const ROOT_SIZE: usize = 4096;

/// The length of the body of a slot, in bytes.
pub const BODY_SIZE: usize = 1536;

/// The offset of the body of the first slot.
const BODIES: usize = 1024;

/// A slot of a root file: a gate, which is one byte, and a body.
#[derive(Clone, Copy, Debug, PartialEq, Eq)]
pub enum Slot {
    /// Slot 0, whose gate is the first byte of the file.
    First,
    /// Slot 1, whose gate is the second byte.
    Second,
}

impl Slot {
    /// Returns the other slot.
    pub fn other(self) -> Slot
        ensures { slot_number result ≡ 1 - slot_number self }
    {
        match self {
            Slot::First => Slot::Second,
            Slot::Second => Slot::First,
        }
    }

    /// Returns the offset of the gate.
    pub fn gate(self) -> usize
        ensures offset { result ≡ slot_number self }
        ensures inside { result ≤ 1 }
    {
        match self {
            Slot::First => 0,
            Slot::Second => 1,
        }
    }

    /// Returns the offset of the body.
    pub fn body(self) -> usize
        ensures offset { result ≡ body_offset (slot_number self) }
        ensures inside { result ≤ 2560 }
    {
        BODIES + BODY_SIZE * self.gate()
    }
}
