//! Disks on which a call was stopped, and what a crash may leave of them.
use disk_model::{DiskFault, FuseDisk, MemDisk};
use std::test::Fail;

/// A disk on which a call was stopped.
#[derive(Drop)]
pub struct Stopped {
    /// The disk after the stop.
    pub disk: MemDisk,
    /// The number of its moments before the call.
    pub start: u64,
    /// Whether the call finished.
    pub done: bool,
}

/// Makes a call on a disk, and stops it after `passes` calls of the disk.
pub fn stop<F: FnOnce(&mut FuseDisk<MemDisk>) -> Result<(), DiskFault>>(
    disk: MemDisk,
    passes: u64,
    call: F,
) -> Stopped
    requires { F.IsAlwaysCallable call }
{
    let start = disk.moments();
    let mut fuse = FuseDisk::new(disk, passes);
    let done = call(&mut fuse).is_ok();
    Stopped {
        disk: fuse.into_inner(),
        start,
        done,
    }
}

impl Stopped {
    /// Returns the moment and the pick of the first image since the call began that isn't good.
    ///
    /// `is_good` also gets whether the call is done in the image, which it may be at the last
    /// moment.
    pub fn first_bad_image<F: Fn(&mut MemDisk, bool) -> Result<bool, Fail>>(
        &self,
        is_good: F,
    ) -> Result<Option<(u64, u64)>, Fail>
        requires { F.IsAlwaysCallable is_good }
    {
        for at in self.start..=self.disk.moments() {
            for pick in 0..4 {
                if !self.has_good_image(at, pick, &is_good)? {
                    return Ok(Some((at, pick)));
                }
            }
        }
        Ok(None)
    }

    /// Returns whether there is an image at a moment with a pick, and it is good.
    fn has_good_image<F: Fn(&mut MemDisk, bool) -> Result<bool, Fail>>(
        &self,
        at: u64,
        pick: u64,
        is_good: &F,
    ) -> Result<bool, Fail>
        requires { F.IsAlwaysCallable is_good.now }
    {
        let end = self.disk.moments();
        if at > end || pick > 3 {
            return Ok(false);
        }
        let mut image = self.disk.image(at, pick)?;
        is_good(&mut image, self.done && at == end)
    }
}
