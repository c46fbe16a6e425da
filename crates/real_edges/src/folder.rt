//! A folder of files that one run at a time uses, before and after it is locked.
//! Calls the system.
ghost use Rattle.std.specs.Prelude.{◌≤◌, length, IfOk, OnOk};
ghost use Rattle.real_edges.specs.Homes.{IsSeen, KeepsHandle};

use crate::cause::{Failure, Spot};
use crate::held_folder::HeldFolder;
use crate::progress::Progress;
use disk_model::FileName;
use std::alloc::{AllocError, Global};
use std::fs;
use std::io::ErrorKind;
use std::time::Duration;

/// A folder of files.
///
/// The first call that needs the folder opens and locks it. The lock lasts as long as this value.
/// The first write creates a missing folder.
#[derive(Drop)]
pub(crate) struct Folder<'a> {
    rt: HostRuntime,
    alloc: Global,
    path: String,
    // The longest time to wait for another run.
    wait: Duration,
    // What shows how far a long reading is.
    progress: Option<&'a Progress>,
    home: Home,
}

/// What is known of the folder.
#[derive(Drop)]
enum Home {
    /// No call has needed the folder.
    Unseen,
    /// The folder was missing, so it had no file.
    Missing,
    /// The folder exists, and this run holds its lock.
    Held(HeldFolder),
}

impl<'a> Folder<'a> {
    /// Creates the value for the folder at a path, without a call of the system.
    ///
    /// An empty path stands for the current folder. `wait` is the longest time to wait for another
    /// run. `progress` shows how far a long reading is.
    pub(crate) fn new(
        rt: &HostRuntime,
        alloc: Global,
        path: &str,
        wait: Duration,
        progress: Option<&'a Progress>,
    ) -> Result<Folder<'a>, AllocError> {
        let path = String::from_str(alloc, if path.is_empty() { "." } else { path })?;
        Ok(Folder {
            rt: *rt,
            alloc,
            path,
            wait,
            progress,
            home: Home::Unseen,
        })
    }

    /// Says a failure on the standard error of the run, if the folder has one.
    pub(crate) fn say(&self, failure: &Failure) {
        let Some(progress) = self.progress else {
            return;
        };
        match self.words(failure) {
            Ok(words) => progress.say(words),
            Err(_) => progress.say("there is no memory to say why the disk failed"),
        }
    }

    /// Returns the path and the words of a failure.
    pub(crate) fn words(&self, failure: &Failure) -> Result<String, AllocError> {
        failure.words(self.alloc, self.path.as_str())
    }

    /// Reads from an offset into the front of a buffer, and returns the number of bytes read.
    pub(crate) fn read(
        &mut self,
        name: FileName,
        offset: u64,
        into: &mut [u8],
    ) -> Result<usize, Failure>
        ensures { IfOk result (λ count. count ≤ length into.new) }
    {
        let count = match self.held()? {
            Some(held) => held.read(name, offset, into)?,
            None => 0,
        };
        self.tell(count);
        Ok(count)
    }

    /// Returns a file's length in bytes, which is 0 for a missing file.
    pub(crate) fn length(&mut self, name: FileName) -> Result<u64, Failure> {
        match self.held()? {
            Some(held) => held.length(name),
            None => Ok(0),
        }
    }

    /// Writes bytes at an offset. Creates a missing file and a missing folder.
    pub(crate) fn write(
        &mut self,
        name: FileName,
        offset: u64,
        bytes: &[u8],
    ) -> Result<(), Failure> {
        self.find_or_make()?;
        match self.held()? {
            Some(held) => held.write(name, offset, bytes),
            None => Err(missing()),
        }
    }

    /// Cuts a file to a length. A missing file stays missing.
    pub(crate) fn cut(&mut self, name: FileName, length: u64) -> Result<(), Failure> {
        match self.held()? {
            Some(held) => held.cut(name, length),
            None => Ok(()),
        }
    }

    /// Removes a file. A missing file stays missing.
    pub(crate) fn remove(&mut self, name: FileName) -> Result<(), Failure> {
        match self.held()? {
            Some(held) => held.remove(name),
            None => Ok(()),
        }
    }

    /// Returns the name at an index, from 0, in the order of names.
    pub(crate) fn name_at(&mut self, index: u64) -> Result<Option<FileName>, Failure> {
        match self.held()? {
            Some(held) => held.name_at(index),
            None => Ok(None),
        }
    }

    /// Syncs every changed file and the folder. What was read before was read for good.
    pub(crate) fn sync(&mut self) -> Result<(), Failure> {
        if let Some(progress) = self.progress {
            progress.end_pass();
        }
        match self.held()? {
            Some(held) => held.sync(),
            None => Ok(()),
        }
    }

    /// Counts bytes that were read, and shows how far the reading is if that is due.
    fn tell(&self, count: usize) {
        let (Some(progress), Home::Held(held)) = (self.progress, &self.home) else {
            return;
        };
        if progress.count(count) {
            if let Ok(total) = held.size() {
                progress.show(total);
            }
        }
    }

    /// Returns the locked folder, or `None` if there was no folder. The first call takes the lock.
    fn held(&mut self) -> Result<Option<&mut HeldFolder>, Failure> {
        self.find()?;
        match &mut self.home {
            Home::Held(held) => Ok(Some(held)),
            Home::Missing => Ok(None),
            Home::Unseen => unreachable!(),
        }
    }

    /// Opens the folder and takes its lock, unless an earlier call found the folder or found it
    /// missing.
    fn find(&mut self) -> Result<(), Failure>
        ensures seen { OnOk result (IsSeen self.new.home) }
        ensures keeps { KeepsHandle self.old.home self.new.home }
    {
        if let Home::Unseen = self.home {
            self.home = match self.take()? {
                Some(held) => Home::Held(held),
                None => Home::Missing,
            };
        }
        Ok(())
    }

    /// Opens the folder and takes its lock, or returns `None` if the folder is missing.
    ///
    /// After one wait that ended with `InUse`, later calls don't wait.
    fn take(&mut self) -> Result<Option<HeldFolder>, Failure> {
        let path = self.path.as_str();
        let taken = HeldFolder::take(&self.rt, self.alloc, path, self.wait, self.progress);
        if let Err(Failure::InUse) = taken {
            self.wait = Duration::ZERO;
        }
        taken
    }

    /// Creates the folder if it was missing, and takes its lock.
    fn find_or_make(&mut self) -> Result<(), Failure> {
        self.find()?;
        if let Home::Missing = self.home {
            self.make()?;
        }
        Ok(())
    }

    /// Creates the missing folder, and takes its lock.
    ///
    /// Earlier calls answered as if the folder had no file. `MadeMeanwhile` if another run has put
    /// files into it since. The parent is synced before any file is created in the folder. If that
    /// fails, a folder that this call created is removed again.
    fn make(&mut self) -> Result<(), Failure> {
        let made = self.create()?;
        let Some(mut held) = self.take()? else {
            return Err(missing());
        };
        if held.has_files() {
            return Err(Failure::MadeMeanwhile);
        }
        let named = held.keep_name();
        if named.is_err() && made && fs::remove_dir(&self.rt, self.path.as_str()).is_ok() {
            return named;
        }
        self.home = Home::Held(held);
        named
    }

    /// Creates the folder, and returns whether it did. `false` if the folder already exists.
    fn create(&self) -> Result<bool, Failure> {
        match fs::create_dir(&self.rt, self.path.as_str()) {
            Ok(()) => Ok(true),
            Err(refused) if refused.kind() == ErrorKind::AlreadyExists => Ok(false),
            Err(refused) => Err(Failure::on(Spot::Folder, refused)),
        }
    }
}

/// Returns the failure for a folder that doesn't exist.
fn missing() -> Failure {
    Failure::on(Spot::Folder, ErrorKind::NotFound.into())
}
