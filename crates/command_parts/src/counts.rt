//! What is told of an accepted list.

ghost use Rattle.std.specs.Prelude.{◌≡◌, length};

use list_checker::Accept;

/// How many words the walk of an accepted list has, how many link pages, and how many pairs of destination and source.
#[derive(Clone, Copy)]
pub struct ListCounts {
    pub words: u64,
    pub links: u64,
    pub pairs: u64,
}

impl ListCounts {
    /// As the checker told.
    pub fn of_accept(accept: &Accept) -> ListCounts
        ensures words { result.words ≡ accept.now.words }
        ensures links { result.links ≡ accept.now.links }
        ensures pairs { result.pairs ≡ length accept.now.pairs.items }
    {
        ListCounts {
            words: accept.words,
            links: accept.links,
            pairs: accept.pairs.len() as u64,
        }
    }
}
