//! A disk that passes a number of calls to another disk and then fails every call.
//! Writes the disk; syncs.
ghost use Rattle.std.specs.Prelude.{◌+◌, ◌≡◌};

use crate::{Disk, DiskFault, FileName};

/// A disk that passes a number of calls to another disk and then fails every call.
///
/// A call that fails here isn't passed.
#[derive(Drop)]
pub struct FuseDisk<D: Disk> {
    inner: D,
    passes: u64,
    failed: u64,
}

impl<D: Disk> FuseDisk<D> {
    ghost use Rattle.std.specs.Prelude.{◌≤◌, ◌+◌, true, false};
    ghost use Rattle.arch_base.specs.Counts.{Rose};
    ghost use Rattle.disk_model.specs.Fuse.{inner_of, passes_of, refused_by};

    /// Creates a disk that passes `passes` calls to `inner`.
    pub fn new(inner: D, passes: u64) -> Self
        ensures inner { inner_of result ≡ inner }
        ensures passes { passes_of result ≡ passes }
    {
        FuseDisk {
            inner,
            passes,
            failed: 0,
        }
    }

    /// Returns the other disk, as the passed calls left it.
    pub fn into_inner(self) -> D
        ensures { result ≡ inner_of self }
    {
        let FuseDisk {
            inner,
            passes: _,
            failed: _,
        } = self;
        inner
    }

    /// Counts a call, and returns whether it fails without being passed.
    fn is_spent(&mut self) -> bool
        ensures inner { inner_of self.new ≡ inner_of self.old }
        ensures passed { result ≡ false → (passes_of self.new + 1 ≡ passes_of self.old)
            × (refused_by self.new ≡ refused_by self.old) }
        ensures spent { result ≡ true → (passes_of self.old ≡ 0) × (passes_of self.new ≡ 0) }
        ensures rose { result ≡ true → Rose (refused_by self.old) (refused_by self.new) }
        ensures later { refused_by self.old ≤ refused_by self.new }
    {
        if self.passes == 0 {
            self.failed = self.failed.saturating_add(1);
            return true;
        }
        self.passes -= 1;
        false
    }
}

impl<D: Disk> Disk for FuseDisk<D> {
    ghost use Rattle.std.specs.Prelude.{◌+◌};
    ghost use Rattle.disk_model.specs.Fuse.{FailsWhenSpent};

    ghost content = { λ f. D.content f.inner };

    ghost faults = { λ f. D.faults f.inner + f.failed };

    ghost reads = { λ f. D.reads f.inner };

    ghost moment = { λ f. D.moment f.inner };

    ghost left_since = { λ f. D.left_since f.inner };

    ghost fails_by = { λ f ok g. FailsWhenSpent D.fails_by f ok g };

    ghost counts_now = { λ f. D.counts_now f.inner };

    ghost only_now = { λ f. D.only_now f.inner };

    ghost reads_fit = { λ f. D.reads_fit f.inner };

    fn read(&mut self, name: FileName, place: u64, into: &mut [u8]) -> Result<usize, DiskFault> {
        if self.is_spent() {
            return Err(DiskFault);
        }
        self.inner.read(name, place, into)
    }

    fn length(&mut self, name: FileName) -> Result<u64, DiskFault> {
        if self.is_spent() {
            return Err(DiskFault);
        }
        self.inner.length(name)
    }

    fn write_at(&mut self, name: FileName, place: u64, bytes: &[u8]) -> Result<(), DiskFault> {
        if self.is_spent() {
            return Err(DiskFault);
        }
        self.inner.write_at(name, place, bytes)
    }

    fn cut(&mut self, name: FileName, length: u64) -> Result<(), DiskFault> {
        if self.is_spent() {
            return Err(DiskFault);
        }
        self.inner.cut(name, length)
    }

    fn remove(&mut self, name: FileName) -> Result<(), DiskFault> {
        if self.is_spent() {
            return Err(DiskFault);
        }
        self.inner.remove(name)
    }

    fn name_at(&mut self, index: u64) -> Result<Option<FileName>, DiskFault> {
        if self.is_spent() {
            return Err(DiskFault);
        }
        self.inner.name_at(index)
    }

    fn sync(&mut self) -> Result<(), DiskFault> {
        if self.is_spent() {
            return Err(DiskFault);
        }
        self.inner.sync()
    }
}
