ghost use Rattle.std.specs.Prelude.{◌≡◌, []};

use crate::change::Change;
use span_base::Listed;
use std::alloc::Global;
use wire_msg::Post;

/// What a message makes of a replica, with all memory that it takes: a change of what is kept of
/// the message's key, and what is put out.
#[derive(Debug, Drop)]
pub struct Prepared {
    pub(crate) change: Change,
    pub(crate) posts: Listed<Post>,
}

impl Prepared {
    /// What a message makes that is of no concern to a replica. It takes no memory.
    pub(crate) fn nothing(alloc: Global) -> Prepared
        ensures { result.posts ≡ [] }
    {
        Prepared {
            change: Change::Nothing,
            posts: Listed::new(alloc),
        }
    }
}
