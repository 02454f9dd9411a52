ghost use Rattle.std.specs.Prelude.{◌≡◌, ◌^◌, ◌-◌, ◌≤◌, List, length, take, drop, IfOk};
ghost use Rattle.wire_msg.specs.Faults.{byte_at, short_at, word_at, long_at, tag_at, stamp_at, value_at, set_at, key_at, replica_at, flag_at};
ghost use Rattle.wire_msg.specs.Gives.{Gives};

use crate::fault::Fault;
use crate::tag::Tag;
use span_base::{Call, DcId, DcSet, KeyId, VALUE_LIMIT, Value};
use std::alloc::Global;
use ticket_rules::Stamp;

/// Reads a frame from left to right.
#[derive(Drop)]
pub(crate) struct Reader<'a> {
    /// What isn't read yet.
    pub(crate) rest: &'a [u8],
}

impl Reader<'_> {
    /// A byte from `least` to `most`.
    #[tactic(auto, unfolding(crate::specs::Faults::number_at))]
    pub(crate) fn byte(&mut self, least: u8, most: u8) -> Result<u8, Fault>
        ensures { Gives result self.new.rest.now (byte_at least most self.old.rest.now) }
    {
        let left = self.rest.len();
        if left < 1 {
            return Err(Fault::Wrong { left: 0 });
        }
        let (front, rest) = self.rest.split_at(1);
        let number = u8::from_be_bytes([front[0]]);
        if number < least || most < number {
            return Err(Fault::Wrong { left });
        }
        self.rest = rest;
        Ok(number)
    }

    /// A number of two bytes, of at most `most`.
    #[tactic(auto, unfolding(crate::specs::Faults::number_at))]
    pub(crate) fn short(&mut self, most: u16) -> Result<u16, Fault>
        ensures reading { Gives result self.new.rest.now (short_at most self.old.rest.now) }
        ensures limit { IfOk result (λ n. n ≤ most) }
    {
        let left = self.rest.len();
        if left < 2 {
            return Err(Fault::Wrong { left: 0 });
        }
        let (front, rest) = self.rest.split_at(2);
        let number = u16::from_be_bytes([front[0], front[1]]);
        if most < number {
            return Err(Fault::Wrong { left });
        }
        self.rest = rest;
        Ok(number)
    }

    /// A number of four bytes, of at least `least`.
    #[tactic(auto, unfolding(crate::specs::Faults::number_at))]
    pub(crate) fn word(&mut self, least: u32) -> Result<u32, Fault>
        ensures { Gives result self.new.rest.now (word_at least self.old.rest.now) }
    {
        let left = self.rest.len();
        if left < 4 {
            return Err(Fault::Wrong { left: 0 });
        }
        let (front, rest) = self.rest.split_at(4);
        let number = u32::from_be_bytes([front[0], front[1], front[2], front[3]]);
        if number < least {
            return Err(Fault::Wrong { left });
        }
        self.rest = rest;
        Ok(number)
    }

    /// A number of eight bytes.
    #[tactic(auto, unfolding(crate::specs::Faults::number_at))]
    pub(crate) fn long(&mut self) -> Result<u64, Fault>
        ensures { Gives result self.new.rest.now (long_at self.old.rest.now) }
    {
        if self.rest.len() < 8 {
            return Err(Fault::Wrong { left: 0 });
        }
        let (front, rest) = self.rest.split_at(8);
        let number = u64::from_be_bytes([
            front[0], front[1], front[2], front[3], front[4], front[5], front[6], front[7],
        ]);
        self.rest = rest;
        Ok(number)
    }

    #[tactic(auto, unfolding(crate::specs::Faults::tag_at))]
    pub(crate) fn tag(&mut self) -> Result<Tag, Fault>
        ensures { Gives result self.new.rest.now (tag_at self.old.rest.now) }
    {
        let proxy = self.byte(0, 63)?;
        let slot = self.byte(0, 63)?;
        let generation = self.word(1)?;
        let seq = self.word(1)?;
        let phase = self.byte(1, 255)?;
        Ok(Tag {
            call: Call { proxy, seq },
            slot,
            generation,
            phase,
        })
    }

    #[tactic(auto, unfolding(crate::specs::Faults::stamp_at))]
    pub(crate) fn stamp(&mut self) -> Result<Stamp, Fault>
        ensures { Gives result self.new.rest.now (stamp_at self.old.rest.now) }
    {
        let epoch = self.word(0)?;
        let number = self.long()?;
        let proxy = self.byte(0, 63)?;
        let seq = self.word(0)?;
        Ok(Stamp {
            epoch,
            number,
            proxy,
            seq,
        })
    }

    #[tactic(auto, unfolding(crate::specs::Faults::value_at))]
    pub(crate) fn value(&mut self, alloc: Global) -> Result<Value, Fault>
        ensures { Gives result self.new.rest.now (value_at self.old.rest.now) }
    {
        let size = usize::from(self.short(4096)?);
        if self.rest.len() < size {
            return Err(Fault::Wrong { left: 0 });
        }
        let (bytes, rest) = self.rest.split_at(size);
        self.rest = rest;
        Ok(Value::from_vec(Vec::from_slice(alloc, bytes)?))
    }

    #[tactic(auto, unfolding(crate::specs::Faults::set_at))]
    pub(crate) fn set(&mut self) -> Result<DcSet, Fault>
        ensures { Gives result self.new.rest.now (set_at self.old.rest.now) }
    {
        Ok(DcSet::from_bits(self.short(u16::MAX)?))
    }

    #[tactic(auto, unfolding(crate::specs::Faults::key_at))]
    pub(crate) fn key(&mut self) -> Result<KeyId, Fault>
        ensures { Gives result self.new.rest.now (key_at self.old.rest.now) }
    {
        Ok(KeyId(self.short(999)?))
    }

    #[tactic(auto, unfolding(crate::specs::Faults::replica_at))]
    pub(crate) fn replica(&mut self) -> Result<DcId, Fault>
        ensures { Gives result self.new.rest.now (replica_at self.old.rest.now) }
    {
        Ok(DcId(self.byte(0, 15)?))
    }

    #[tactic(auto, unfolding(crate::specs::Faults::flag_at))]
    pub(crate) fn flag(&mut self) -> Result<bool, Fault>
        ensures { Gives result self.new.rest.now (flag_at self.old.rest.now) }
    {
        Ok(self.byte(0, 1)? == 1)
    }
}
