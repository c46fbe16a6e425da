//! A disk over a folder of the system.
//! Calls the system.
ghost use Rattle.std.specs.Prelude.{◌≡◌, ◌≤◌, None, IfOk};
ghost use Rattle.arch_base.specs.Counts.{Rose};
ghost use Rattle.disk_model.specs.Laws.{untold_fits};
ghost use Rattle.real_edges.specs.Counted.{Counted};

use crate::cause::Failure;
use crate::faults::Faults;
use crate::folder::Folder;
use crate::progress::Progress;
use arch_base::NoMemory;
use disk_model::{Disk, DiskFault, FileName};
use std::alloc::Global;
use std::marker::Model;
use std::time::Duration;

/// The number of seconds to wait for another run that uses the folder.
const WAIT_SECONDS: u64 = 10;

/// A disk over a folder of the system. It doesn't tell its content.
///
/// The first call that needs the folder takes its lock, and the disk holds the lock until it is
/// dropped, so no other run can use the folder. While another run holds the lock, the disk asks for
/// it again for ten seconds. After that the call is a fault that changed nothing.
#[derive(Drop)]
pub struct FolderDisk<'a> {
    folder: Folder<'a>,
    faults: Faults<Failure>,
    reads: u64,
}

// Contracts see the two counts.
impl<'a> Model for FolderDisk<'a> {
    ghost use Rattle.real_edges.specs.Counted.{Counted};

    ghost Value = { Counted };

    ghost view = { λ s. record { faults = s.faults; reads = s.reads } };
}

impl<'a> FolderDisk<'a> {
    /// Creates the disk over the folder at a path, before its first call. The first write creates a
    /// missing folder.
    pub fn open(rt: &HostRuntime, alloc: Global, path: &str) -> Result<FolderDisk<'a>, NoMemory>
        ensures { IfOk result (λ disk. disk ≡ record { faults = 0; reads = 0 }) }
    {
        FolderDisk::new(rt, alloc, path, Duration::from_secs(WAIT_SECONDS), None)
    }

    /// Creates the disk over the folder at a path, as `open` does, of a run with this standard error.
    ///
    /// Long waits and long readings are shown there, and the first call that fails says why.
    pub fn open_telling(
        rt: &HostRuntime,
        alloc: Global,
        path: &str,
        progress: &'a Progress,
    ) -> Result<FolderDisk<'a>, NoMemory>
        ensures { IfOk result (λ disk. disk ≡ record { faults = 0; reads = 0 }) }
    {
        let wait = Duration::from_secs(WAIT_SECONDS);
        FolderDisk::new(rt, alloc, path, wait, Some(progress))
    }

    /// Creates the disk over the folder at a path. `wait` is the longest time to wait for another
    /// run.
    pub fn open_within(
        rt: &HostRuntime,
        alloc: Global,
        path: &str,
        wait: Duration,
    ) -> Result<FolderDisk<'a>, NoMemory>
        ensures { IfOk result (λ disk. disk ≡ record { faults = 0; reads = 0 }) }
    {
        FolderDisk::new(rt, alloc, path, wait, None)
    }

    /// Creates the disk over the folder at a path.
    fn new(
        rt: &HostRuntime,
        alloc: Global,
        path: &str,
        wait: Duration,
        progress: Option<&'a Progress>,
    ) -> Result<FolderDisk<'a>, NoMemory>
        ensures { IfOk result (λ disk. disk ≡ record { faults = 0; reads = 0 }) }
    {
        let folder = Folder::new(rt, alloc, path, wait, progress)?;
        Ok(FolderDisk {
            folder,
            faults: Faults::new(),
            reads: 0,
        })
    }

    /// Returns the reason of the first call that failed, or `None` if no call has failed.
    ///
    /// The reason is a path and the system's words, as in `piv2-store/root: Permission denied`.
    pub fn cause(&self) -> Result<Option<String>, NoMemory> {
        match self.faults.first() {
            Some(failure) => Ok(Some(self.folder.words(&failure)?)),
            None => Ok(None),
        }
    }

    /// Counts a fault. Says and keeps its reason if it is the first.
    fn fault(&mut self, failure: Failure) -> DiskFault
        ensures rose { Rose self.old.faults self.new.faults }
        ensures later { self.old.faults ≤ self.new.faults }
        ensures reads { self.new.reads ≡ self.old.reads }
    {
        if self.faults.first().is_none() {
            self.folder.say(&failure);
        }
        self.faults.add(failure);
        DiskFault
    }
}

impl<'a> Disk for FolderDisk<'a> {
    ghost content = { λ d. None };

    ghost faults = { λ d. d.faults };

    ghost reads = { λ d. d.reads };

    ghost moment = { λ d. 0 };

    ghost left_since = { λ d t image. Unit {0} };

    ghost fails_by = { λ d ok e. Unit {0} };

    ghost counts_now = { λ d t image le now. tt };

    ghost only_now = { λ d image left. tt };

    ghost reads_fit = { λ d k is name. untold_fits k is name };

    fn read(&mut self, name: FileName, offset: u64, into: &mut [u8]) -> Result<usize, DiskFault> {
        self.reads = self.reads.saturating_add(1);
        match self.folder.read(name, offset, into) {
            Ok(count) => Ok(count),
            Err(failure) => Err(self.fault(failure)),
        }
    }

    fn length(&mut self, name: FileName) -> Result<u64, DiskFault> {
        match self.folder.length(name) {
            Ok(length) => Ok(length),
            Err(failure) => Err(self.fault(failure)),
        }
    }

    fn write_at(&mut self, name: FileName, offset: u64, bytes: &[u8]) -> Result<(), DiskFault> {
        match self.folder.write(name, offset, bytes) {
            Ok(()) => Ok(()),
            Err(failure) => Err(self.fault(failure)),
        }
    }

    fn cut(&mut self, name: FileName, length: u64) -> Result<(), DiskFault> {
        match self.folder.cut(name, length) {
            Ok(()) => Ok(()),
            Err(failure) => Err(self.fault(failure)),
        }
    }

    fn remove(&mut self, name: FileName) -> Result<(), DiskFault> {
        match self.folder.remove(name) {
            Ok(()) => Ok(()),
            Err(failure) => Err(self.fault(failure)),
        }
    }

    fn name_at(&mut self, index: u64) -> Result<Option<FileName>, DiskFault> {
        match self.folder.name_at(index) {
            Ok(name) => Ok(name),
            Err(failure) => Err(self.fault(failure)),
        }
    }

    fn sync(&mut self) -> Result<(), DiskFault> {
        match self.folder.sync() {
            Ok(()) => Ok(()),
            Err(failure) => Err(self.fault(failure)),
        }
    }
}
