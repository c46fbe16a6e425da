//! A folder whose lock this run holds, and its open files.
//! Calls the system.
ghost use Rattle.std.specs.Prelude.{◌≤◌, length, IfOk};

use crate::cause::{Failure, MARK, Spot, above};
use crate::folder_lock::lock_folder;
use crate::mark::{leave_mark, write_again};
use crate::names::{name_of, path_in};
use crate::open_file::OpenFile;
use crate::progress::Progress;
use disk_model::FileName;
use std::alloc::Global;
use std::collections::{BTreeMap, BTreeSet};
use std::fs::{self, DirEntry, File, OpenOptions};
use std::io::{self, ErrorKind};
use std::time::Duration;

/// The largest number of files kept open.
const MAX_OPEN: usize = 80;

/// A folder whose lock this run holds as long as this value lasts.
///
/// The folder's files are opened, listed, written, removed and synced only under the lock, so never
/// while another run holds it.
#[derive(Drop)]
pub(crate) struct HeldFolder {
    rt: HostRuntime,
    alloc: Global,
    path: String,
    // The folder itself, open and locked.
    folder: File,
    open_files: BTreeMap<FileName, OpenFile>,
    // Whether the folder had files of an archive when it was locked. The run that put the first one
    // there had synced the folder's parent before.
    has_files: bool,
    // Whether this run has synced the parent, after the folder was created.
    above_synced: bool,
    // Whether all names in the folder are on the disk.
    settled: bool,
    // Whether a sync failed.
    failed: bool,
}

/// What a folder holds.
#[derive(Drop)]
struct Listing {
    // The names of the files of an archive.
    names: BTreeSet<FileName>,
    // Whether the mark of a failed sync is there.
    marked: bool,
}

impl Listing {
    /// Adds an entry of the folder. Skips names that aren't UTF-8: they aren't ours.
    fn add_entry(&mut self, entry: io::Result<DirEntry>) -> io::Result<()> {
        match entry {
            Ok(entry) => self.add_name(entry.file_name()),
            Err(refused) if refused.kind() == ErrorKind::InvalidFilename => Ok(()),
            Err(refused) => Err(refused),
        }
    }

    /// Adds the name of an entry. Skips a name that isn't the mark's or spelled as that of a file
    /// of an archive.
    fn add_name(&mut self, text: &str) -> io::Result<()> {
        match name_of(text) {
            Some(name) => {
                self.names.insert(name)?;
            }
            None => self.marked = self.marked || text == MARK,
        }
        Ok(())
    }
}

impl HeldFolder {
    /// Opens a folder and takes its lock, or returns `None` if the folder is missing.
    ///
    /// `wait` is the longest time to wait for the lock, and `progress` shows what takes long. If an
    /// earlier run left the mark of a failed sync, every file of the archive is written again and
    /// synced before any of them is read.
    pub(crate) fn take(
        rt: &HostRuntime,
        alloc: Global,
        path: &str,
        wait: Duration,
        progress: Option<&Progress>,
    ) -> Result<Option<HeldFolder>, Failure> {
        let Some(folder) = lock_folder(rt, path, wait, progress)? else {
            return Ok(None);
        };
        let has_files = settle(rt, alloc, path, &folder, progress)?;
        Ok(Some(HeldFolder {
            rt: *rt,
            alloc,
            path: String::from_str(alloc, path)?,
            folder,
            open_files: BTreeMap::new(alloc),
            has_files,
            above_synced: false,
            settled: false,
            failed: false,
        }))
    }

    /// Returns whether the folder had files of an archive when it was locked.
    pub(crate) fn has_files(&self) -> bool {
        self.has_files
    }

    /// Reads from an offset into the front of a buffer, and returns the number of bytes read.
    pub(crate) fn read(
        &mut self,
        name: FileName,
        offset: u64,
        into: &mut [u8],
    ) -> Result<usize, Failure>
        ensures { IfOk result (λ count. count ≤ length into.new) }
    {
        self.open(name, false)?;
        let Some(file) = self.open_files.get(&name) else {
            return Ok(0);
        };
        match file.read(offset, into) {
            Ok(count) => Ok(count),
            Err(refused) => Err(Failure::on(Spot::File(name), refused)),
        }
    }

    /// Returns a file's length in bytes, which is 0 for a missing file.
    pub(crate) fn length(&mut self, name: FileName) -> Result<u64, Failure> {
        self.open(name, false)?;
        let Some(file) = self.open_files.get(&name) else {
            return Ok(0);
        };
        match file.length() {
            Ok(length) => Ok(length),
            Err(refused) => Err(Failure::on(Spot::File(name), refused)),
        }
    }

    /// Writes bytes at an offset. Creates a missing file, once the folder's own name is on the
    /// disk.
    pub(crate) fn write(
        &mut self,
        name: FileName,
        offset: u64,
        bytes: &[u8],
    ) -> Result<(), Failure> {
        self.keep_name()?;
        self.open(name, true)?;
        let Some(file) = self.open_files.get_mut(&name) else {
            return Err(Failure::on(Spot::File(name), ErrorKind::NotFound.into()));
        };
        match file.write(offset, bytes) {
            Ok(()) => Ok(()),
            Err(refused) => Err(Failure::on(Spot::File(name), refused)),
        }
    }

    /// Cuts a file to a length. A missing file stays missing.
    pub(crate) fn cut(&mut self, name: FileName, length: u64) -> Result<(), Failure> {
        self.open(name, false)?;
        let Some(file) = self.open_files.get_mut(&name) else {
            return Ok(());
        };
        match file.cut(length) {
            Ok(()) => Ok(()),
            Err(refused) => Err(Failure::on(Spot::File(name), refused)),
        }
    }

    /// Removes a file. A missing file stays missing.
    pub(crate) fn remove(&mut self, name: FileName) -> Result<(), Failure> {
        let path = path_in(self.alloc, self.path.as_str(), name)?;
        self.settled = false;
        match fs::remove_file(&self.rt, path.as_str()) {
            Ok(()) => {}
            Err(refused) if refused.kind() == ErrorKind::NotFound => {}
            Err(refused) => return Err(Failure::on(Spot::File(name), refused)),
        }
        self.open_files.remove(&name);
        Ok(())
    }

    /// Returns the number of bytes that the files of an archive in the folder have.
    pub(crate) fn size(&self) -> Result<u64, Failure> {
        let listing = list(&self.rt, self.alloc, self.path.as_str())?;
        let mut size = 0u64;
        for name in listing.names.iter() {
            let path = path_in(self.alloc, self.path.as_str(), *name)?;
            match fs::metadata(&self.rt, path.as_str()) {
                Ok(found) => size = size.saturating_add(found.len()),
                Err(refused) => return Err(Failure::on(Spot::File(*name), refused)),
            }
        }
        Ok(size)
    }

    /// Returns the name at an index, from 0, in the order of names.
    pub(crate) fn name_at(&self, index: u64) -> Result<Option<FileName>, Failure> {
        let listing = list(&self.rt, self.alloc, self.path.as_str())?;
        Ok(listing.names.iter().nth(index as usize).copied())
    }

    /// Syncs every changed file, then the folder if a name may have been created or removed, and
    /// once the folder's parent.
    ///
    /// After a sync has failed, here or in another call, this always fails: the system may have
    /// dropped what it couldn't write, and return `Ok` at a second attempt. A failure to open the
    /// parent is not a failed sync: the next call tries again.
    pub(crate) fn sync(&mut self) -> Result<(), Failure> {
        if self.failed {
            return Err(Failure::SyncFailed);
        }
        if let Err(failure) = sync_all(&mut self.open_files) {
            self.fail();
            return Err(failure);
        }
        if !self.settled {
            if let Err(refused) = self.folder.sync_all() {
                self.fail();
                return Err(Failure::on(Spot::Folder, refused));
            }
            self.settled = true;
        }
        self.sync_above()
    }

    /// Syncs the folder's parent, unless the folder's own name is known to be on the disk.
    pub(crate) fn keep_name(&mut self) -> Result<(), Failure> {
        if self.is_named() {
            return Ok(());
        }
        self.sync_above()
    }

    /// Returns whether the folder's own name is known to be on the disk.
    fn is_named(&self) -> bool {
        self.has_files || self.above_synced
    }

    /// Syncs the folder's parent, once.
    ///
    /// Skips a parent that this run may not read if the folder's own name is known to be on the
    /// disk.
    fn sync_above(&mut self) -> Result<(), Failure> {
        if self.above_synced {
            return Ok(());
        }
        let Some(path) = above(self.path.as_str()) else {
            self.above_synced = true;
            return Ok(());
        };
        let opened = File::open(&self.rt, path);
        match opened {
            Ok(above) => self.sync_opened(&above),
            Err(refused) if refused.kind() == ErrorKind::PermissionDenied && self.is_named() => Ok(
                (),
            ),
            Err(refused) => Err(Failure::on(Spot::Above, refused)),
        }
    }

    /// Syncs the folder's parent, which is open.
    fn sync_opened(&mut self, above: &File) -> Result<(), Failure> {
        if let Err(refused) = above.sync_all() {
            self.fail();
            return Err(Failure::on(Spot::Above, refused));
        }
        self.above_synced = true;
        Ok(())
    }

    /// Records that a sync failed, and leaves the mark for later runs if it can.
    ///
    /// A folder whose own name isn't known to be on the disk gets no mark: it has no file yet.
    fn fail(&mut self) {
        self.failed = true;
        if self.is_named() {
            let _ = leave_mark(&self.rt, self.alloc, self.path.as_str(), &self.folder);
        }
    }

    /// Opens a file unless it is open. A missing file is created if `make` is set, and otherwise
    /// stays missing.
    fn open(&mut self, name: FileName, make: bool) -> Result<(), Failure> {
        if self.open_files.contains_key(&name) {
            return Ok(());
        }
        if make {
            self.settled = false;
        }
        let path = path_in(self.alloc, self.path.as_str(), name)?;
        let mut options = OpenOptions::new();
        options.read(true).write(true).create(make);
        match options.open(&self.rt, path.as_str()) {
            Ok(file) => self.keep(name, file),
            Err(refused) if refused.kind() == ErrorKind::NotFound && !make => Ok(()),
            Err(refused) => Err(Failure::on(Spot::File(name), refused)),
        }
    }

    /// Keeps a file open, and closes another one first if too many are open.
    fn keep(&mut self, name: FileName, file: File) -> Result<(), Failure> {
        if self.open_files.len() >= MAX_OPEN {
            if let Err(failure) = close_last(&mut self.open_files) {
                self.fail();
                return Err(failure);
            }
        }
        match OpenFile::settled(file) {
            Ok(file) => {
                self.open_files.insert(name, file)?;
                Ok(())
            }
            Err(refused) => {
                self.fail();
                Err(Failure::on(Spot::File(name), refused))
            }
        }
    }
}

/// Writes every file of a locked folder again if the mark is there. Returns whether the folder has
/// files.
fn settle(
    rt: &HostRuntime,
    alloc: Global,
    path: &str,
    folder: &File,
    progress: Option<&Progress>,
) -> Result<bool, Failure> {
    let listing = list(rt, alloc, path)?;
    if listing.marked {
        if let Some(progress) = progress {
            progress.show_rewrite(path);
        }
        write_again(rt, alloc, path, folder, &listing.names)?;
    }
    Ok(!listing.names.is_empty())
}

/// Syncs and closes the last of the open files, in the order of names.
fn close_last(files: &mut BTreeMap<FileName, OpenFile>) -> Result<(), Failure> {
    let Some(mut last) = files.last_entry() else {
        return Ok(());
    };
    if let Err(refused) = last.get_mut().sync() {
        return Err(Failure::on(Spot::File(*last.key()), refused));
    }
    last.remove();
    Ok(())
}

/// Syncs every changed file.
fn sync_all(files: &mut BTreeMap<FileName, OpenFile>) -> Result<(), Failure> {
    for (name, file) in files.iter_mut() {
        if let Err(refused) = file.sync() {
            return Err(Failure::on(Spot::File(*name), refused));
        }
    }
    Ok(())
}

/// Returns what a folder holds. An error names the folder.
fn list(rt: &HostRuntime, alloc: Global, path: &str) -> Result<Listing, Failure> {
    match read_names(rt, alloc, path) {
        Ok(listing) => Ok(listing),
        Err(refused) => Err(Failure::on(Spot::Folder, refused)),
    }
}

/// Returns what a folder holds.
fn read_names(rt: &HostRuntime, alloc: Global, path: &str) -> io::Result<Listing> {
    let mut listing = Listing {
        names: BTreeSet::new(alloc),
        marked: false,
    };
    for entry in fs::read_dir(rt, path)? {
        listing.add_entry(entry)?;
    }
    Ok(listing)
}
