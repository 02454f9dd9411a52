ghost use Rattle.std.specs.Prelude.{◌≡◌, ℕ, Option, OnOk, OnErr};
ghost use Rattle.span_base.specs.declared.dc_set.DcSet.{DcSet};
ghost use Rattle.ticket_rules.specs.declared.stamp.Stamp.{Stamp};
ghost use Rattle.call_phase.specs.declared.best.Found.{Found};
ghost use Rattle.call_phase.specs.Best.{better};
ghost use Rattle.migration.specs.declared.stage.Epoch.{Epoch};

use call_phase::{Found, take_better};
use span_base::{DcSet, Policy, Value};
use std::alloc::AllocError;
use std::mem::replace;
use ticket_rules::Stamp;

/// An epoch of a key, counted from 1, and the policy that the key has in it.
#[derive(Debug, Drop)]
pub struct Epoch {
    pub number: u32,
    pub policy: Policy,
}

/// What a move does in its present phase.
#[derive(Debug, Drop)]
pub enum Stage {
    /// It asked the directory for the key's epochs.
    Looking,
    /// It ends the old epoch at its replicas. `best` is the greatest version in their answers.
    Freezing {
        old: Epoch,
        new: Epoch,
        best: Option<Found>,
    },
    /// It stores the version with the stamp `seeded`, the greatest one that the replicas of
    /// `frozen` had, under the new epoch. `top_gone` is the greatest epoch that a refusal told.
    Seeding {
        old: u32,
        new: Epoch,
        frozen: DcSet,
        seeded: Stamp,
        top_gone: u32,
    },
    /// It asked the directory to make the new epoch current.
    Switching {
        old: u32,
        new: Epoch,
        frozen: DcSet,
        seeded: Stamp,
    },
    /// The move is over.
    Ended,
}

impl Stage {
    /// Keeps the greatest version of the answers that counted.
    pub(crate) fn keep_better(&mut self, stamp: &Stamp, value: &Value) -> Result<(), AllocError>
        ensures ok { (old : Epoch) (new : Epoch) (best : Option Found) → self.old ≡ Stage.Freezing old new best → OnOk result (self.new ≡ Stage.Freezing old new (better best stamp.now value.now)) }
        ensures err { OnErr result (self.new ≡ self.old) }
    {
        if let Stage::Freezing { best, .. } = self {
            take_better(best, stamp, value)?;
        }
        Ok(())
    }

    /// From freezing to seeding: the policy of the new epoch moves on.
    pub(crate) fn begin_seeding(&mut self, frozen: DcSet, seeded: Stamp)
        ensures { (old : Epoch) (new : Epoch) (best : Option Found) → self.old ≡ Stage.Freezing old new best → self.new ≡ Stage.Seeding old.number new frozen seeded 0 }
    {
        if let Stage::Freezing { old, new, .. } = replace(self, Stage::Ended) {
            *self = Stage::Seeding {
                old: old.number,
                new,
                frozen,
                seeded,
                top_gone: 0,
            };
        }
    }

    /// From seeding to switching: the policy of the new epoch moves on.
    pub(crate) fn begin_switching(&mut self)
        ensures { (old : ℕ) (new : Epoch) (frozen : DcSet) (seeded : Stamp) (top_gone : ℕ) → self.old ≡ Stage.Seeding old new frozen seeded top_gone → self.new ≡ Stage.Switching old new frozen seeded }
    {
        if let Stage::Seeding {
            old,
            new,
            frozen,
            seeded,
            ..
        } = replace(self, Stage::Ended)
        {
            *self = Stage::Switching {
                old,
                new,
                frozen,
                seeded,
            };
        }
    }
}
