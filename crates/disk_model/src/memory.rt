//! A disk in memory that records its changes.
//! Allocates.
ghost use Rattle.std.specs.Prelude.{◌≡◌, Some, length};
ghost use Rattle.disk_model.specs.declared.name.FileName.{FileName};
ghost use Rattle.disk_model.specs.Record.{file_at, content_of, LeftSince, record_counts_now, record_only_now};
ghost use Rattle.disk_model.specs.Applied.{record_reads_fit};

use crate::again::{apply_all, kept, last_sync};
use crate::change::Change;
use crate::files::{Contents, copy, copy_out, drop_file, name_in_order, put, trim};
use crate::plan::Plan;
use crate::{Disk, DiskFault, FileName};
use arch_base::{NoMemory, Numbers};
use std::alloc::{AllocError, Global};

/// A disk in memory that records its changes and fails the calls that it was told to fail.
#[derive(Drop)]
pub struct MemDisk {
    alloc: Global,
    base: Contents,
    changes: Vec<Change>,
    files: Contents,
    plan: Plan,
    reads: u64,
    ghost current: { (name : FileName)
        → file_at files name ≡ (content_of (file_at base) changes.items name).seen },
}

impl MemDisk {
    ghost use Rattle.std.specs.Prelude.{◌≤◌, ◌++◌, ◌∷◌, [], take, IfOk, OnOk, OnErr};
    ghost use Rattle.disk_model.specs.Disk.{Image};
    ghost use Rattle.disk_model.specs.Applied.{IsPicked};
    ghost use Rattle.disk_model.specs.Memory.{base_of, files_of, changes_of, content_then, starved_of, failed_of, no_files, IsFreshDisk};

    /// Creates a disk without files. It fails each call whose ordinal, from 1, is in `faults`.
    ///
    /// All seven calls of `Disk` count.
    pub fn new(alloc: Global, faults: Numbers) -> MemDisk
        ensures { IsFreshDisk no_files faults result }
    {
        MemDisk {
            alloc,
            base: Contents::new(alloc),
            changes: Vec::new(alloc),
            files: Contents::new(alloc),
            plan: Plan::new(faults),
            reads: 0,
        }
    }

    /// Returns the number of calls that failed because they ran out of memory.
    pub fn starved(&self) -> u64
        ensures { result ≡ starved_of self.now }
    {
        self.plan.starved
    }

    /// Returns the number of failed calls, up to 2^64 - 1: those listed and those out of memory.
    pub fn failed(&self) -> u64
        ensures { result ≡ failed_of self.now }
    {
        self.plan.faults
    }

    /// Returns the number of moments so far.
    ///
    /// There is one for each write, cut, removal and sync that returned `Ok`.
    pub fn moments(&self) -> u64
        ensures { result ≡ length (changes_of self.now) }
    {
        self.changes.len() as u64
    }

    /// Returns one of the images that a crash at a moment may leave.
    ///
    /// The result is a disk before its first call and without listed faults.
    ///
    /// Of the changes between the last sync before the moment and the moment, pick 0 keeps none,
    /// pick 1 all, pick 2 all with 255 in place of each byte written, and pick 3 the first half,
    /// rounded down.
    pub fn image(&self, at: u64, pick: u64) -> Result<MemDisk, NoMemory>
        requires at { at ≤ length (changes_of self.now) }
        requires pick { pick ≤ 3 }
        ensures image { IfOk result (λ disk.
            Image (Some (content_then self.now at)) (files_of disk)) }
        ensures picked { IfOk result (λ disk.
            IsPicked pick (base_of self.now) (take at (changes_of self.now)) (files_of disk)) }
        ensures fresh { IfOk result (λ disk. IsFreshDisk (files_of disk) [] disk) }
    {
        let changes = &self.changes[..at as usize];
        let (synced, since) = changes.split_at(last_sync(changes));
        let kept = kept(pick, since.len());
        let mut files = copy(&self.base)?;
        apply_all(self.alloc, &mut files, synced, false)?;
        apply_all(self.alloc, &mut files, &since[..kept], pick == 2)?;
        MemDisk::of_files(self.alloc, files)
    }

    /// Creates a disk with these files, before its first call and without listed faults.
    fn of_files(alloc: Global, files: Contents) -> Result<MemDisk, NoMemory>
        ensures { IfOk result (IsFreshDisk (file_at files) []) }
    {
        let base = copy(&files)?;
        Ok(MemDisk {
            alloc,
            base,
            changes: Vec::new(alloc),
            files,
            plan: Plan::new(Numbers::new(alloc)),
            reads: 0,
        })
    }

    /// Writes bytes to a file, and records the change.
    fn write(&mut self, name: FileName, offset: u64, bytes: &[u8]) -> Result<(), AllocError>
        ensures base { self.new.base ≡ self.old.base }
        ensures plan { self.new.plan ≡ self.old.plan }
        ensures reads { self.new.reads ≡ self.old.reads }
        ensures ok { OnOk result ((v : _) × (v.items ≡ bytes.now) × (self.new.changes.items
            ≡ self.old.changes.items ++ Change.Write name offset v ∷ [])) }
        ensures err { OnErr result (self.new.changes.items ≡ self.old.changes.items) }
    {
        let piece = bytes.to_vec(self.alloc)?;
        self.changes.reserve(1)?;
        put(self.alloc, &mut self.files, name, offset, bytes)?;
        self.changes.push(Change::Write {
            name,
            offset,
            bytes: piece,
        })?;
        Ok(())
    }

    /// Cuts a file, and records the change.
    fn cut_file(&mut self, name: FileName, length: u64) -> Result<(), AllocError>
        ensures base { self.new.base ≡ self.old.base }
        ensures plan { self.new.plan ≡ self.old.plan }
        ensures reads { self.new.reads ≡ self.old.reads }
        ensures ok { OnOk result (self.new.changes.items
            ≡ self.old.changes.items ++ Change.Cut name length ∷ []) }
        ensures err { OnErr result (self.new.changes.items ≡ self.old.changes.items) }
    {
        self.changes.reserve(1)?;
        trim(&mut self.files, name, length);
        self.changes.push(Change::Cut { name, length })?;
        Ok(())
    }

    /// Removes a file, and records the change.
    fn remove_file(&mut self, name: FileName) -> Result<(), AllocError>
        ensures base { self.new.base ≡ self.old.base }
        ensures plan { self.new.plan ≡ self.old.plan }
        ensures reads { self.new.reads ≡ self.old.reads }
        ensures ok { OnOk result (self.new.changes.items
            ≡ self.old.changes.items ++ Change.Remove name ∷ []) }
        ensures err { OnErr result (self.new.changes.items ≡ self.old.changes.items) }
    {
        self.changes.reserve(1)?;
        drop_file(&mut self.files, name);
        self.changes.push(Change::Remove { name })?;
        Ok(())
    }

    /// Records a sync.
    fn settle(&mut self) -> Result<(), AllocError>
        ensures base { self.new.base ≡ self.old.base }
        ensures plan { self.new.plan ≡ self.old.plan }
        ensures reads { self.new.reads ≡ self.old.reads }
        ensures ok { OnOk result (self.new.changes.items
            ≡ self.old.changes.items ++ Change.Sync ∷ []) }
        ensures err { OnErr result (self.new.changes.items ≡ self.old.changes.items) }
    {
        self.changes.push(Change::Sync)?;
        Ok(())
    }
}

impl Disk for MemDisk {
    ghost use Rattle.disk_model.specs.Plan.{FailsAsListed};

    ghost content = { λ m. Some (content_of (file_at m.base) m.changes.items) };

    ghost faults = { λ m. m.plan.faults };

    ghost reads = { λ m. m.reads };

    ghost moment = { λ m. length m.changes.items };

    ghost left_since = { λ m. LeftSince (file_at m.base) m.changes.items };

    ghost fails_by = { λ m ok n. FailsAsListed m.plan ok n.plan };

    ghost counts_now = { λ m. record_counts_now (file_at m.base) m.changes.items };

    ghost only_now = { λ m. record_only_now (file_at m.base) m.changes.items };

    ghost reads_fit = { λ m. record_reads_fit (file_at m.base) m.changes.items };

    fn read(&mut self, name: FileName, place: u64, into: &mut [u8]) -> Result<usize, DiskFault> {
        self.reads = self.reads.saturating_add(1);
        if self.plan.fails() {
            return Err(DiskFault);
        }
        match self.files.get(&name) {
            Some(file) => Ok(copy_out(file, place, into)),
            None => Ok(0),
        }
    }

    fn length(&mut self, name: FileName) -> Result<u64, DiskFault> {
        if self.plan.fails() {
            return Err(DiskFault);
        }
        match self.files.get(&name) {
            Some(file) => Ok(file.len() as u64),
            None => Ok(0),
        }
    }

    fn write_at(&mut self, name: FileName, place: u64, bytes: &[u8]) -> Result<(), DiskFault> {
        if self.plan.fails() {
            return Err(DiskFault);
        }
        match self.write(name, place, bytes) {
            Ok(()) => Ok(()),
            Err(_) => {
                self.plan.starve();
                Err(DiskFault)
            }
        }
    }

    fn cut(&mut self, name: FileName, length: u64) -> Result<(), DiskFault> {
        if self.plan.fails() {
            return Err(DiskFault);
        }
        match self.cut_file(name, length) {
            Ok(()) => Ok(()),
            Err(_) => {
                self.plan.starve();
                Err(DiskFault)
            }
        }
    }

    fn remove(&mut self, name: FileName) -> Result<(), DiskFault> {
        if self.plan.fails() {
            return Err(DiskFault);
        }
        match self.remove_file(name) {
            Ok(()) => Ok(()),
            Err(_) => {
                self.plan.starve();
                Err(DiskFault)
            }
        }
    }

    fn name_at(&mut self, index: u64) -> Result<Option<FileName>, DiskFault> {
        if self.plan.fails() {
            return Err(DiskFault);
        }
        Ok(name_in_order(&self.files, index))
    }

    fn sync(&mut self) -> Result<(), DiskFault> {
        if self.plan.fails() {
            return Err(DiskFault);
        }
        match self.settle() {
            Ok(()) => Ok(()),
            Err(_) => {
                self.plan.starve();
                Err(DiskFault)
            }
        }
    }
}
