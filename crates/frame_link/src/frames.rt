ghost use Rattle.std.specs.Prelude.{◌≡◌, ◌≤◌, [], All, length, slice_get, Some, OnOk, OnErr};
ghost use Rattle.frame_link.specs.Frames.{IsShort, answer_of, with_frame};
ghost use Rattle.frame_link.specs.Region.{IsIn, IsGrown};

use crate::Arrival;
use std::alloc::{AllocError, Global};
use std::marker::Model;

/// Where a frame lies in the region, and the node that it goes to.
#[derive(Clone, Copy, Debug)]
pub(crate) struct Entry {
    pub(crate) start: usize,
    pub(crate) len: u16,
    pub(crate) to: u16,
}

/// Frames with their destinations, all in one region of bytes.
#[derive(Debug, Drop)]
pub(crate) struct Frames {
    region: Vec<u8>,
    entries: Vec<Entry>,
}

impl Model for Frames {
    ghost use Rattle.std.specs.Prelude.{List, All};
    ghost use Rattle.frame_link.specs.Frames.{Sent};
    ghost use Rattle.frame_link.specs.Region.{sent_in, IsIn};

    ghost Value = { List Sent };

    ghost view = { λ f. sent_in f.region.items f.entries.items };

    ghost invariant = { λ f. All (IsIn f.region.items) f.entries.items };
}

impl Frames {
    /// No frames. It takes no memory.
    pub(crate) fn new(alloc: Global) -> Frames
        ensures { result ≡ [] }
    {
        Frames {
            region: Vec::new(alloc),
            entries: Vec::new(alloc),
        }
    }

    /// How many frames there are.
    pub(crate) fn len(&self) -> usize
        ensures { result ≡ length self.now }
    {
        self.entries.len()
    }

    /// Puts a frame behind the others.
    pub(crate) fn push(&mut self, to: u16, frame: &[u8]) -> Result<(), AllocError>
        requires { length frame.now ≤ 8192 }
        ensures ok { OnOk result (self.new ≡ with_frame self.old to frame.now) }
        ensures err { OnErr result (self.new ≡ self.old) }
    {
        put_frame(&mut self.region, &mut self.entries, to, frame)
    }

    /// The frame of this number, counted from 0, in the front of the buffer; nothing where there
    /// are fewer.
    pub(crate) fn give(&self, n: usize, buf: &mut [u8]) -> Arrival
        requires { 8192 ≤ length buf.old }
        ensures short { IsShort result }
        ensures gives { answer_of buf.new result ≡ slice_get self.now n }
    {
        match self.entries.get(n) {
            None => Arrival::Nothing,
            Some(entry) => {
                let end = entry.start + entry.len as usize;
                put_in(&self.region[entry.start..end], entry.to, buf)
            }
        }
    }
}

/// Puts a frame into the front of the buffer.
pub(crate) fn put_in(frame: &[u8], to: u16, buf: &mut [u8]) -> Arrival
    requires short { length frame.now ≤ 8192 }
    requires room { 8192 ≤ length buf.old }
    ensures short { IsShort result }
    ensures gives { answer_of buf.new result ≡ Some (record { to = to; frame = frame.now }) }
{
    let len = frame.len();
    buf[..len].copy_from_slice(frame);
    Arrival::Frame { to, len }
}

// Puts the frame at the region's end, and its entry at the end of the entries.
#[tactic(auto, using(crate::proofs::RegionLaws::grown))]
fn put_frame(
    region: &mut Vec<u8>,
    entries: &mut Vec<Entry>,
    to: u16,
    frame: &[u8],
) -> Result<(), AllocError>
    requires short { length frame.now ≤ 8192 }
    requires sound { All (IsIn region.old.items) entries.old.items }
    ensures ok { OnOk result (IsGrown region.old.items region.new.items entries.old.items entries.new.items to frame.now) }
    ensures err { OnErr result ((region.new.items ≡ region.old.items) × (entries.new.items ≡ entries.old.items)) }
{
    let entry = Entry {
        start: region.len(),
        len: frame.len() as u16,
        to,
    };
    entries.reserve(1)?;
    region.extend_from_slice(frame)?;
    entries.push(entry)?;
    Ok(())
}
