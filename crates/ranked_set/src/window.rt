//! A part of a list: some items after some that are skipped.
//! Allocates.
ghost use Rattle.std.specs.Prelude.{◌≡◌, ◌++◌, [], ◌∷◌, ◌==◌, ◌||◌, nat_le, OnOk};
ghost use Rattle.ranked_set.specs.Windows.{seen_by, after as after_items};

use arch_base::NoMemory;

/// A part of a list: so many items after so many that are skipped.
#[derive(Clone, Copy, Debug, Drop)]
pub(crate) struct Window {
    /// How many items are skipped.
    pub(crate) skip: usize,
    /// How many items are shown at most.
    pub(crate) count: usize,
}

impl Window {
    /// Returns whether no item of a list of this length is shown.
    pub(crate) fn is_past(self, len: usize) -> bool
        ensures { result ≡ (self.count == 0 || nat_le len self.skip) }
    {
        self.count == 0 || self.skip >= len
    }

    /// Returns the window on what follows a list of this length.
    pub(crate) fn after(self, len: usize) -> Window
        ensures { result ≡ after_items self len }
    {
        Window {
            skip: self.skip.saturating_sub(len),
            count: self.count.saturating_sub(len.saturating_sub(self.skip)),
        }
    }

    /// Appends an item, if the window shows it as the first of a list.
    ///
    /// `NoMemory` leaves the items unchanged.
    pub(crate) fn push_item<T: Copy>(self, item: T, into: &mut Vec<T>) -> Result<(), NoMemory>
        ensures { OnOk result (into.new.items ≡ into.old.items ++ seen_by self (item ∷ [])) }
    {
        if self.is_past(1) {
            return Ok(());
        }
        into.push(item)?;
        Ok(())
    }
}
