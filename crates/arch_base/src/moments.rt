//! The moments that an archive knows.
//! Pure.
ghost use Rattle.std.specs.Prelude.{◌≡◌};
ghost use Rattle.arch_base.specs.Moments.{last_moment};

/// The last moment: the last second of the year 9999, in seconds since 1970 UTC.
pub const LAST_MOMENT: u64 = 253_402_300_799;

/// Shows that `LAST_MOMENT` is the last moment of the definitions.
pub fn last_moment_is_defined()
    ensures { LAST_MOMENT ≡ last_moment }
{}
