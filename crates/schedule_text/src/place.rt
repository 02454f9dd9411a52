ghost use Rattle.std.specs.Prelude.{◌≤◌, length};

use crate::setting::Setting;
use world_core::Header;

/// Where the events of a text begin, and what they are judged by.
#[derive(Debug, Drop)]
pub struct Place {
    pub(crate) setting: Setting,
    /// How many bytes stand before the first event.
    pub(crate) at: usize,
    /// The line `begin`, which the first event follows.
    pub(crate) line: u64,
    ghost early: { line ≤ 2000 },
    ghost few: { length setting.modes ≤ 64 },
}

/// How a schedule opens: its header, and the place behind it.
#[derive(Debug, Drop)]
pub struct Opening {
    pub header: Header,
    pub place: Place,
}
