//! The files that a root names.
//! Pure.
ghost use Rattle.std.specs.Prelude.{◌≡◌, get_or};
ghost use Rattle.root_slots.specs.Valid.{no_place};
ghost use Rattle.root_change.specs.Names.{map_name, epoch_name, cache_name, place_of, has_place, names_file};

use disk_model::{EPOCHS, FileKind, FileName};
use root_slots::{Place, Root};

/// Returns the name of the file of a map of a generation.
pub fn map_file(generation: u64) -> FileName
    ensures { result ≡ map_name generation }
{
    FileName {
        kind: FileKind::Map,
        number: 0,
        generation,
    }
}

/// Returns the name of the file of an epoch of a generation.
pub fn epoch_file(epoch: u32, generation: u64) -> FileName
    ensures { result ≡ epoch_name epoch generation }
{
    FileName {
        kind: FileKind::Epoch,
        number: epoch,
        generation,
    }
}

/// Returns the name of the file of a cache of a generation.
pub fn cache_file(generation: u64) -> FileName
    ensures { result ≡ cache_name generation }
{
    FileName {
        kind: FileKind::Cache,
        number: 0,
        generation,
    }
}

/// Returns whether a `Place` has bytes and this generation.
fn is_place(place: Place, generation: u64) -> bool
    ensures { result ≡ has_place place generation }
{
    place.length > 0 && place.generation == generation
}

/// Returns whether a root names a file.
///
/// It names the root file itself, the map's, and those of each epoch and cache that has bytes.
pub fn is_named(root: &Root, name: FileName) -> bool
    ensures { result ≡ names_file root.now name }
{
    match name.kind {
        FileKind::Root => name.number == 0 && name.generation == 0,
        FileKind::Map => name.number == 0 && name.generation == root.map.generation,
        FileKind::Cache => name.number == 0 && is_place(root.cache, name.generation),
        FileKind::Epoch => {
            name.number < EPOCHS && is_place(root.epochs[name.number as usize], name.generation)
        }
    }
}

/// Returns the `Place` that a root has for an epoch.
///
/// It has length 0 and generation 0 if there is no such epoch.
pub fn epoch_place(root: &Root, epoch: u32) -> Place
    ensures { result ≡ get_or root.now.epochs epoch no_place }
{
    match root.epochs.get(epoch as usize) {
        Some(place) => *place,
        None => Place {
            generation: 0,
            length: 0,
        },
    }
}

/// Returns the `Place` that a root has for a part of an archive.
///
/// It has length 0 and generation 0 if there is no such part.
pub fn place_at(root: &Root, kind: FileKind, number: u32) -> Place
    ensures { result ≡ place_of root.now kind number }
{
    match kind {
        FileKind::Epoch => epoch_place(root, number),
        FileKind::Map if number == 0 => root.map,
        FileKind::Cache if number == 0 => root.cache,
        _ => Place {
            generation: 0,
            length: 0,
        },
    }
}
