//! The fields of frames. Each is written behind what stands there, into memory that is there: no
//! write asks for more.

ghost use Rattle.std.specs.Prelude.{◌+◌, ◌<◌, ◌≤◌, ◌^◌, [], ◌∷◌, length, vec_len, vec_capacity, if◌then◌else◌};
ghost use Rattle.std.specs.Int.{w8, w16, w32, w64};
ghost use Rattle.span_base.specs.DcSet.{bits_of};
ghost use Rattle.wire_msg.specs.Frames.{big, tag_bytes, stamp_bytes, value_bytes, set_bytes};
ghost use Rattle.wire_msg.specs.Laws.{FitsTag, FitsStamp, FitsSet};
ghost use Rattle.wire_msg.specs.Adds.{Adds, HasSpace};

use crate::tag::Tag;
use span_base::{DcSet, Value};
use ticket_rules::Stamp;

fn write_bytes(out: &mut Vec<u8>, piece: &[u8])
    requires { HasSpace out.old (length piece.now) }
    ensures { Adds out.old piece.now (length piece.now) out.new }
{
    out.extend_from_slice(piece).unwrap();
}

/// The number of a kind, which a frame begins with.
pub(crate) fn write_kind(out: &mut Vec<u8>, number: u8)
    requires { HasSpace out.old 1 }
    ensures { Adds out.old (number ∷ []) 1 out.new }
{
    out.push(number).unwrap();
}

#[tactic(auto, unfolding(crate::specs::Frames::big))]
pub(crate) fn write_byte(out: &mut Vec<u8>, number: u8)
    requires { HasSpace out.old 1 }
    ensures adds { Adds out.old (big w8 number) 1 out.new }
    ensures fits { number < 2 ^ 8 }
{
    write_kind(out, number);
}

#[tactic(auto, unfolding(crate::specs::Frames::big))]
pub(crate) fn write_short(out: &mut Vec<u8>, number: u16)
    requires { HasSpace out.old 2 }
    ensures { Adds out.old (big w16 number) 2 out.new }
{
    write_bytes(out, &number.to_be_bytes());
}

#[tactic(auto, unfolding(crate::specs::Frames::big))]
pub(crate) fn write_word(out: &mut Vec<u8>, number: u32)
    requires { HasSpace out.old 4 }
    ensures adds { Adds out.old (big w32 number) 4 out.new }
    ensures fits { number < 2 ^ 32 }
{
    write_bytes(out, &number.to_be_bytes());
}

#[tactic(auto, unfolding(crate::specs::Frames::big))]
fn write_long(out: &mut Vec<u8>, number: u64)
    requires { HasSpace out.old 8 }
    ensures adds { Adds out.old (big w64 number) 8 out.new }
    ensures fits { number < 2 ^ 64 }
{
    write_bytes(out, &number.to_be_bytes());
}

#[tactic(auto, unfolding(crate::specs::Frames::tag_bytes))]
pub(crate) fn write_tag(out: &mut Vec<u8>, tag: &Tag)
    requires { HasSpace out.old 11 }
    ensures adds { Adds out.old (tag_bytes tag.now) 11 out.new }
    ensures fits { FitsTag tag.now }
{
    write_byte(out, tag.call.proxy);
    write_byte(out, tag.slot);
    write_word(out, tag.generation);
    write_word(out, tag.call.seq);
    write_byte(out, tag.phase);
}

#[tactic(auto, unfolding(crate::specs::Frames::stamp_bytes))]
pub(crate) fn write_stamp(out: &mut Vec<u8>, stamp: &Stamp)
    requires { HasSpace out.old 17 }
    ensures adds { Adds out.old (stamp_bytes stamp.now) 17 out.new }
    ensures fits { FitsStamp stamp.now }
{
    write_word(out, stamp.epoch);
    write_long(out, stamp.number);
    write_byte(out, stamp.proxy);
    write_word(out, stamp.seq);
}

#[tactic(auto, unfolding(crate::specs::Frames::value_bytes))]
pub(crate) fn write_value(out: &mut Vec<u8>, value: &Value)
    requires { HasSpace out.old (2 + length value.now) }
    ensures { Adds out.old (value_bytes value.now) (2 + length value.now) out.new }
{
    write_short(out, value.len() as u16);
    write_bytes(out, value.as_slice());
}

#[tactic(auto, unfolding(crate::specs::Frames::set_bytes))]
pub(crate) fn write_set(out: &mut Vec<u8>, centres: DcSet)
    requires { HasSpace out.old 2 }
    ensures adds { Adds out.old (set_bytes centres) 2 out.new }
    ensures fits { FitsSet centres }
{
    write_short(out, centres.bits());
}

pub(crate) fn write_flag(out: &mut Vec<u8>, flag: bool)
    requires { HasSpace out.old 1 }
    ensures { Adds out.old (big w8 (if flag then 1 else 0)) 1 out.new }
{
    write_byte(out, u8::from(flag));
}
