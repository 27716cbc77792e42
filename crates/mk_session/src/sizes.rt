// How much a session holds.
ghost use Rattle.std.specs.Prelude.{◌≡◌};
ghost use Rattle.mk_session.specs.Sizes.{sizes_of};

use crate::session::Session;

/// How many records, queries and saved searches are held, and the numbers that come next.
#[derive(Clone, Copy, Debug, PartialEq, Eq)]
pub struct Sizes {
    pub records: usize,
    pub queries: usize,
    pub cursors: usize,
    pub next_record: u32,
    pub next_cursor: u32,
}

impl Session {
    /// How much it holds.
    pub fn sizes(&self) -> Sizes
        ensures { result ≡ sizes_of self.now }
    {
        Sizes {
            records: self.library.texts().len(),
            queries: self.saved.queries().len(),
            cursors: self.saved.cursors().len(),
            next_record: self.library.next_number(),
            next_cursor: self.saved.next_cursor(),
        }
    }
}
