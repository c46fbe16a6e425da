//! The settings of an archive.
//! Pure.
ghost use Rattle.std.specs.Prelude.{◌≡◌};

use crate::ids::Form;
use crate::name::Name;

/// The settings that an archive is created with.
///
/// The ranges below are those of `IsConfig`.
#[derive(Debug, Drop)]
pub struct Config {
    /// The name of the list.
    pub name: Name,
    /// The length in bytes from which an epoch takes no further entry, unless it is the last that
    /// there may be: 1 to 1,099,511,627,776.
    pub limit: u64,
    /// The count of numbers in a mailbox: 1 to 1,000,000.
    pub slice: u32,
    /// The greatest number that a message may get: 1 to 2,147,483,647.
    pub max: u32,
    /// Whether the archive mirrors another one, and takes no commands.
    pub mirror: bool,
    /// When the archive was created, in seconds since 1970 UTC: 1 to 4,294,967,295.
    pub born: u32,
    /// Which hash names the objects of the archive.
    pub form: Form,
}

impl Config {
    /// Returns a copy. Allocates nothing.
    pub fn copy(&self) -> Config
        ensures { result ≡ self.now }
    {
        Config {
            name: self.name.copy(),
            limit: self.limit,
            slice: self.slice,
            max: self.max,
            mirror: self.mirror,
            born: self.born,
            form: self.form,
        }
    }
}
