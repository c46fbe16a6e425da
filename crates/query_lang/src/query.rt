//! Queries, and why a text is none.
//! Allocates.
ghost use Rattle.std.specs.Prelude.{◌≡◌};
ghost use Rattle.query_lang.specs.declared.query.Query.{Query};
ghost use Rattle.query_lang.specs.Queries.{nothing};

use arch_base::{NoMemory, Numbers, Texts};
use std::alloc::Global;
use thiserror::Error;

/// What a search asks: words in fields, and days.
#[derive(Debug, Drop)]
pub struct Query {
    /// Words that may stand in any field.
    pub any: Texts,
    /// Words of the subject.
    pub subject: Texts,
    /// Words of the first From field.
    pub from: Texts,
    /// Words of the text leaves.
    pub body: Texts,
    /// Ranges of days: of each the first and the last, counted from 0 for 1 January 1970.
    pub days: Numbers,
}

impl Query {
    /// Returns the query that asks nothing. Allocates nothing.
    pub(crate) fn new(alloc: Global) -> Query
        ensures { result ≡ nothing }
    {
        Query {
            any: Texts::new(alloc),
            subject: Texts::new(alloc),
            from: Texts::new(alloc),
            body: Texts::new(alloc),
            days: Numbers::new(alloc),
        }
    }
}

/// Why a text is no query.
#[derive(Debug, Drop, PartialEq, Eq, Error)]
pub enum QueryRefusal {
    /// A term that begins with `d:` is no range of days.
    #[error("bad range")]
    BadRange,
    /// An allocation failed.
    #[error("out of memory")]
    NoMemory,
}

impl From<NoMemory> for QueryRefusal {
    ghost use Rattle.std.specs.Prelude.{◌≡◌};
    ghost use Rattle.query_lang.specs.declared.query.QueryRefusal.TheVariants.{NoMemory};

    ghost from_gives = { λ _ e. e ≡ NoMemory };

    fn from(_refused: NoMemory) -> QueryRefusal {
        QueryRefusal::NoMemory
    }
}
