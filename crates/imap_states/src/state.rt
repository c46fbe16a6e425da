//! The state of a session.
//! Pure.
ghost use Rattle.std.specs.Prelude.{◌≡◌};
ghost use Rattle.imap_states.specs.States.{is_logged_out as is_logged_out_at, is_selected as is_selected_at, idles};

use arch_base::Bytes;
use known_uids::KnownUids;

/// Where a session is (RFC 3501, section 3).
#[derive(Drop)]
pub enum ImapPlace {
    /// Before the login.
    LoggedOut,
    /// After the login, without a mailbox.
    LoggedIn,
    /// A mailbox is selected. These are its messages as the client knows them.
    Selected(KnownUids),
}

impl ImapPlace {
    /// Returns whether the client hasn't logged in.
    pub(crate) fn is_logged_out(&self) -> bool
        ensures { result ≡ is_logged_out_at self.now }
    {
        match self {
            ImapPlace::LoggedOut => true,
            ImapPlace::LoggedIn => false,
            ImapPlace::Selected(_) => false,
        }
    }

    /// Returns whether a mailbox is selected.
    pub(crate) fn is_selected(&self) -> bool
        ensures { result ≡ is_selected_at self.now }
    {
        match self {
            ImapPlace::LoggedOut => false,
            ImapPlace::LoggedIn => false,
            ImapPlace::Selected(_) => true,
        }
    }
}

/// The state of a session.
#[derive(Drop)]
pub struct ImapState {
    /// Where the session is.
    pub place: ImapPlace,
    /// The tag under which the session idles, if it does (RFC 2177).
    pub idle: Option<Bytes>,
}

impl ImapState {
    /// Returns whether the session idles.
    pub fn is_idle(&self) -> bool
        ensures { result ≡ idles self.now }
    {
        self.idle.is_some()
    }
}
