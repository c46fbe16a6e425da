//! The reasons why a call on a folder fails, and their words.
//! Allocates.
use crate::names::path_in;
use disk_model::FileName;
use std::alloc::{AllocError, AllocFailed, Global};
use std::io;
use std::path::Path;

/// The file name of the mark that a failed sync leaves. No file of an archive has this name.
pub(crate) const MARK: &str = "sync-failed";

/// The object of a call that the system refused.
#[derive(Clone, Copy)]
pub(crate) enum Spot {
    /// The folder.
    Folder,
    /// The folder's parent.
    Above,
    /// A file of the archive in the folder.
    File(FileName),
    /// The mark in the folder.
    Mark,
}

/// The reason why a call on a folder failed.
#[derive(Clone, Copy)]
pub(crate) enum Failure {
    /// The system refused a call.
    Refused { spot: Spot, error: io::Error },
    /// Another run held the lock for longer than this run waits.
    InUse,
    /// Another run put files into the folder after this run had found the folder missing.
    MadeMeanwhile,
    /// An earlier sync failed. After that, every sync fails.
    SyncFailed,
    /// An allocation failed.
    NoMemory,
}

impl Failure {
    /// Returns the failure for an error of the system on a spot.
    pub(crate) fn on(spot: Spot, error: io::Error) -> Failure {
        Failure::Refused { spot, error }
    }

    /// Returns the path and the words of the failure, as they are printed after the program's name.
    pub(crate) fn words(&self, alloc: Global, folder: &str) -> Result<String, AllocError> {
        match self {
            Failure::Refused { spot, error } => refused_words(alloc, folder, *spot, error),
            Failure::InUse => format!(in alloc; "{folder} is in use by another run"),
            Failure::MadeMeanwhile => format!(in alloc;
                "{folder} was made by another run meanwhile"
            ),
            Failure::SyncFailed => format!(in alloc; "{folder}: an earlier sync failed"),
            Failure::NoMemory => format!(in alloc; "{folder}: out of memory"),
        }
    }
}

impl From<AllocError> for Failure {
    fn from(_error: AllocError) -> Failure {
        Failure::NoMemory
    }
}

impl<T: Drop> From<AllocFailed<T>> for Failure {
    fn from(_error: AllocFailed<T>) -> Failure {
        Failure::NoMemory
    }
}

/// Returns the path of a spot, followed by the system's words.
fn refused_words(
    alloc: Global,
    folder: &str,
    spot: Spot,
    error: &io::Error,
) -> Result<String, AllocError> {
    let path = path_of(alloc, folder, spot)?;
    let words = system_words(alloc, error)?;
    format!(in alloc; "{path}: {words}")
}

/// Returns the path of a spot.
fn path_of(alloc: Global, folder: &str, spot: Spot) -> Result<String, AllocError> {
    match spot {
        Spot::Folder => String::from_str(alloc, folder),
        Spot::Above => String::from_str(alloc, above(folder).unwrap_or(folder)),
        Spot::Mark => mark_in(alloc, folder),
        Spot::File(name) => path_in(alloc, folder, name),
    }
}

/// Returns the path of the mark in a folder.
pub(crate) fn mark_in(alloc: Global, folder: &str) -> Result<String, AllocError> {
    format!(in alloc; "{folder}/{MARK}")
}

/// Returns the system's words for an error, without its number.
pub(crate) fn system_words(alloc: Global, error: &io::Error) -> Result<String, AllocError> {
    let text = format!(in alloc; "{error}")?;
    if let Some((words, _number)) = text.as_str().split_once(" (os error ") {
        return String::from_str(alloc, words);
    }
    Ok(text)
}

/// Returns the path of a folder's parent, `.` for a name alone, or `None` if the path has no
/// parent.
pub(crate) fn above(folder: &str) -> Option<&str> {
    let above = Path::new(folder).parent()?.as_str();
    Some(if above.is_empty() { "." } else { above })
}
