//! An open file that knows whether it has to be synced.
//! Calls the system.
ghost use Rattle.std.specs.Prelude.{◌≤◌, length, IfOk};

use std::fs::File;
use std::io;
use std::os::unix::fs::FileExt;

/// What may have changed of a file since its last sync.
#[derive(Clone, Copy, Drop)]
enum Change {
    /// Nothing.
    Nothing,
    /// Bytes before its end.
    Bytes,
    /// Its length, and any bytes.
    Length,
}

/// An open file, and what may have changed of it since its last sync.
#[derive(Drop)]
pub(crate) struct OpenFile {
    file: File,
    change: Change,
}

impl OpenFile {
    /// Syncs a file that was just opened, and returns it.
    ///
    /// An earlier run may have ended before it synced the file. What is read has to be what a crash
    /// leaves.
    pub(crate) fn settled(file: File) -> io::Result<OpenFile> {
        file.sync_all()?;
        Ok(OpenFile {
            file,
            change: Change::Nothing,
        })
    }

    /// Returns the file's length in bytes.
    pub(crate) fn length(&self) -> io::Result<u64> {
        Ok(self.file.metadata()?.len())
    }

    /// Reads from an offset into the front of a buffer, and returns the number of bytes read.
    ///
    /// Fills the buffer, or reads fewer bytes at the file's end.
    pub(crate) fn read(&self, offset: u64, into: &mut [u8]) -> io::Result<usize>
        ensures { IfOk result (λ count. count ≤ length into.new) }
    {
        let left = self.length()?.saturating_sub(offset);
        let count = left.min(into.len() as u64) as usize;
        self.file.read_exact_at(&mut into[..count], offset)?;
        Ok(count)
    }

    /// Writes all bytes at an offset.
    pub(crate) fn write(&mut self, offset: u64, bytes: &[u8]) -> io::Result<()> {
        if !self.holds(offset, bytes.len()) {
            self.change = Change::Length;
        } else if let Change::Nothing = self.change {
            self.change = Change::Bytes;
        }
        self.file.write_all_at(bytes, offset)
    }

    /// Returns whether the file is known to have as many bytes from an offset on.
    fn holds(&self, offset: u64, count: usize) -> bool {
        match self.length() {
            Ok(length) => length.saturating_sub(offset) >= count as u64,
            Err(_) => false,
        }
    }

    /// Cuts the file to a length.
    pub(crate) fn cut(&mut self, length: u64) -> io::Result<()> {
        self.change = Change::Length;
        self.file.set_len(length)
    }

    /// Syncs the file if it has changed. After a failure it still counts as changed.
    ///
    /// If its length stayed, the times that the system keeps of the file need not reach the disk,
    /// and its bytes alone are synced.
    pub(crate) fn sync(&mut self) -> io::Result<()> {
        match self.change {
            Change::Nothing => {}
            Change::Bytes => self.file.sync_data()?,
            Change::Length => self.file.sync_all()?,
        }
        self.change = Change::Nothing;
        Ok(())
    }
}
