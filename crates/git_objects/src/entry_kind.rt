//! The kinds of entries of an archive.
//! Pure.
ghost use Rattle.std.specs.Prelude.{◌≡◌, ◌≢◌, MatchOption};
ghost use Rattle.git_objects.specs.declared.entry_kind.EntryKind.{EntryKind};
ghost use Rattle.git_objects.specs.Objects.{entry_name};

/// What an entry of an archive is. It decides on the name of the one file in the entry's tree.
#[derive(Debug, Clone, Copy, PartialEq, Eq)]
pub enum EntryKind {
    /// A message, whose file is `m`.
    Message,
    /// A deletion of a message, whose file is `d`.
    Deletion,
}

impl EntryKind {
    /// Returns the name of the file, which is one byte.
    pub(crate) fn name(self) -> u8
        ensures { result ≡ entry_name self }
    {
        match self {
            EntryKind::Message => b'm',
            EntryKind::Deletion => b'd',
        }
    }

    /// Returns the kind whose file has this name, if there is one.
    pub(crate) fn of_name(name: u8) -> Option<EntryKind>
        ensures { MatchOption result ((kind : EntryKind)
            → name ≢ entry_name kind) (λ kind. name ≡ entry_name kind) }
    {
        if name == b'm' {
            return Some(EntryKind::Message);
        }
        if name == b'd' {
            return Some(EntryKind::Deletion);
        }
        None
    }
}
