//! What a replica does with a message on one key.

ghost use Rattle.std.specs.Prelude.{IfOk};
ghost use Rattle.replica_core.specs.Preparing.{IsReady};

use crate::kept::Kept;
use crate::prepared::Prepared;
use std::alloc::{AllocError, Global};
use wire_msg::Message;

impl Kept {
    /// What a message on this key makes of it, and what the replica of this number puts out.
    #[tactic(auto, using(crate::proofs::Judging::posts_by_verdict, crate::proofs::Judging::kept_by_verdict))]
    pub(crate) fn prepare(
        &self,
        alloc: Global,
        number: u8,
        message: &Message,
    ) -> Result<Prepared, AllocError>
        ensures { IfOk result (λ prepared. IsReady number self.now message.now prepared) }
    {
        let verdict = self.judge(message);
        let posts = self.posts(alloc, number, message, verdict)?;
        let change = self.change(message, verdict)?;
        Ok(Prepared { change, posts })
    }
}
