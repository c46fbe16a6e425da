//! The spelling of file names in a folder.
//! Allocates.
use arch_base::read_decimal;
use disk_model::{FileKind, FileName};
use std::alloc::{AllocError, Global};

/// Returns the path of a file in a folder.
///
/// The last part is `root` for the root of number 0 and generation 0, `map.GEN` and `cache.GEN` for
/// a map and a cache of number 0, and `KIND-N.GEN` for every other file, as `epoch-N.GEN`.
pub fn path_in(alloc: Global, folder: &str, name: FileName) -> Result<String, AllocError> {
    let word = word_of(name.kind);
    let FileName {
        number,
        generation,
        ..
    } = name;
    match name.kind {
        FileKind::Root if number == 0 && generation == 0 => format!(in alloc; "{folder}/{word}"),
        FileKind::Map | FileKind::Cache if number == 0 => format!(in alloc;
            "{folder}/{word}.{generation}"
        ),
        _ => format!(in alloc; "{folder}/{word}-{number}.{generation}"),
    }
}

/// Returns the word of a kind.
fn word_of(kind: FileKind) -> &'static str {
    match kind {
        FileKind::Root => "root",
        FileKind::Map => "map",
        FileKind::Epoch => "epoch",
        FileKind::Cache => "cache",
    }
}

/// Returns the name that the last part of a path spells, or `None` if it spells none.
pub fn name_of(text: &str) -> Option<FileName> {
    if text == "root" {
        return Some(FileName {
            kind: FileKind::Root,
            number: 0,
            generation: 0,
        });
    }
    let (front, generation) = text.split_once('.')?;
    let generation = read_decimal(generation.as_bytes())?;
    match front {
        "map" => Some(FileName {
            kind: FileKind::Map,
            number: 0,
            generation,
        }),
        "cache" => Some(FileName {
            kind: FileKind::Cache,
            number: 0,
            generation,
        }),
        _ => numbered(front, generation),
    }
}

/// Returns the name that a word with a number spells, with a generation, or `None` if it spells
/// none.
fn numbered(front: &str, generation: u64) -> Option<FileName> {
    let (word, number) = front.split_once('-')?;
    let number = read_decimal(number.as_bytes())?;
    let number = u32::try_from(number).ok()?;
    let kind = kind_of(word, number, generation)?;
    Some(FileName {
        kind,
        number,
        generation,
    })
}

/// Returns the kind of a file whose name is spelled with its number, or `None` if none is.
fn kind_of(word: &str, number: u32, generation: u64) -> Option<FileKind> {
    match word {
        "root" if number != 0 || generation != 0 => Some(FileKind::Root),
        "map" if number != 0 => Some(FileKind::Map),
        "epoch" => Some(FileKind::Epoch),
        "cache" if number != 0 => Some(FileKind::Cache),
        _ => None,
    }
}
