//! Numbers that look random, and are the same in each run.
ghost use Rattle.std.specs.Prelude.{◌<◌};

/// A generator of such numbers.
#[derive(Drop)]
pub(crate) struct Random {
    state: u64,
}

impl Random {
    /// Returns a generator from a seed.
    pub(crate) fn new(seed: u64) -> Random {
        Random { state: seed }
    }

    /// Returns the next number below a bound, which isn't 0.
    pub(crate) fn below(&mut self, bound: u32) -> u32
        requires { 0 < bound }
        ensures { result < bound }
    {
        self.state = self
            .state
            .wrapping_mul(6_364_136_223_846_793_005)
            .wrapping_add(1_442_695_040_888_963_407);
        ((self.state >> 33) % u64::from(bound)) as u32
    }
}
