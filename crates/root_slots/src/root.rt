//! The root and what it names.
//! Pure.
ghost use Rattle.std.specs.Prelude.{◌≡◌};
ghost use Rattle.root_slots.specs.Valid.{IsRoot, PlaceFits, RootFits};

use arch_base::Config;
use disk_model::EPOCHS;

/// A file that a root names, and how many of its bytes count.
#[derive(Clone, Copy, Debug, PartialEq, Eq)]
pub struct Place {
    /// The file's generation.
    pub generation: u64,
    /// The number of its bytes that count.
    pub length: u64,
}

/// The root of an archive.
#[derive(Debug, Drop)]
pub struct Root {
    /// The settings.
    pub config: Config,
    /// The sequence: 1 for the first root, and one more for each later root.
    pub sequence: u64,
    /// The number of the next message, 1 to 2,147,483,648.
    pub next: u32,
    /// The map, with one record for each number below `next`.
    pub map: Place,
    /// The files of the epochs.
    pub epochs: [Place; EPOCHS as usize],
    /// The file from which views are read again.
    pub cache: Place,
}

impl Root {
    /// Returns a copy of the root. Allocates nothing.
    pub fn copy(&self) -> Root
        ensures { result ≡ self.now }
    {
        Root {
            config: self.config.copy(),
            sequence: self.sequence,
            next: self.next,
            map: self.map,
            epochs: self.epochs,
            cache: self.cache,
        }
    }
}

/// Brings the ranges of a `Place`'s fields into the proof around the call. Does nothing.
fn place_fits(place: Place)
    ensures { PlaceFits place }
{
    let _generation = place.generation;
    let _length = place.length;
}

/// Brings the ranges of a root's fields into the proof around the call. Does nothing.
pub fn root_fits(root: &Root)
    requires { IsRoot root.now }
    ensures { RootFits root.now }
{
    let _name = root.config.name.as_slice();
    let _sequence = root.sequence;
    place_fits(root.map);
    place_fits(root.cache);
    for index in 0..EPOCHS as usize {
        place_fits(root.epochs[index]);
    }
}
