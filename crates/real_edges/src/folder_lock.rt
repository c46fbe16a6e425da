//! The lock on a folder, which one run at a time holds.
//! Calls the system.
use crate::cause::{Failure, Spot};
use crate::progress::Progress;
use std::fs::{self, File, TryLockError};
use std::io::{self, ErrorKind};
use std::os::unix::fs::MetadataExt;
use std::thread;
use std::time::{Duration, Instant};

/// The number of milliseconds between two attempts to take the lock.
const PAUSE: u64 = 5;

/// The largest number of attempts. With the pauses between them they last longer than any run
/// waits.
const TURNS: u32 = 4_000;

/// Opens a folder and takes its lock. The lock lasts as long as the returned file.
///
/// `None` if the folder is missing. `InUse` if another run held the lock until the time to wait was
/// over. `progress` shows a long wait.
///
/// The lock is the system's own advisory lock on the folder itself. It leaves nothing in the
/// folder, and ends with the run however the run ends.
pub(crate) fn lock_folder(
    rt: &HostRuntime,
    path: &str,
    wait: Duration,
    progress: Option<&Progress>,
) -> Result<Option<File>, Failure> {
    match wait_for(rt, path, wait, progress) {
        Ok(Some(folder)) => Ok(Some(folder)),
        Ok(None) => Err(Failure::InUse),
        Err(refused) if refused.kind() == ErrorKind::NotFound => Ok(None),
        Err(refused) => Err(Failure::on(Spot::Folder, refused)),
    }
}

/// Opens a folder and takes its lock, or returns `None` if the time to wait is over.
fn wait_for(
    rt: &HostRuntime,
    path: &str,
    wait: Duration,
    progress: Option<&Progress>,
) -> io::Result<Option<File>> {
    let pause = Duration::from_millis(PAUSE);
    let began = Instant::now(rt)?;
    for _ in 0..TURNS {
        if let Some(folder) = try_once(rt, path)? {
            return Ok(Some(folder));
        }
        let waited = began.elapsed(rt)?;
        if waited.saturating_add(pause) > wait {
            return Ok(None);
        }
        if let Some(progress) = progress {
            progress.show_wait(path, waited);
        }
        thread::sleep(rt, pause);
    }
    Ok(None)
}

/// Opens a folder and takes its lock, or returns `None` if another run holds it.
///
/// Also `None` if the opened folder is no longer the one at the path: another run may have removed
/// the folder and created it anew.
fn try_once(rt: &HostRuntime, path: &str) -> io::Result<Option<File>> {
    if !fs::metadata(rt, path)?.is_dir() {
        return Err(ErrorKind::NotADirectory.into());
    }
    let folder = File::open(rt, path)?;
    match folder.try_lock() {
        Ok(()) => {}
        Err(TryLockError::WouldBlock) => return Ok(None),
        Err(TryLockError::Error(refused)) => return Err(refused),
    }
    if stands_at(rt, path, &folder)? {
        Ok(Some(folder))
    } else {
        Ok(None)
    }
}

/// Returns whether an open folder is the one at a path.
fn stands_at(rt: &HostRuntime, path: &str, folder: &File) -> io::Result<bool> {
    let held = folder.metadata()?;
    let found = fs::metadata(rt, path)?;
    Ok(held.dev() == found.dev() && held.ino() == found.ino())
}
