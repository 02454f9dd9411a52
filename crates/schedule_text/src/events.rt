//! The events of a schedule, one after another.

ghost use Rattle.std.specs.Prelude.{◌≡◌, min};
ghost use Rattle.schedule_text.specs.Schedules.{events_at};

use crate::delivery_line::next_delivery;
use crate::event_line::event_of;
use crate::lines::Lines;
use crate::place::Place;
use crate::setting::Setting;
use std::alloc::{AllocError, Global};
use std::marker::Model;
use world_core::Event;

/// The events of a text from a place on. Contracts see those that are left, and the line of the
/// one that was given last.
#[derive(Debug, Drop)]
pub struct Events<'a> {
    setting: Setting,
    lines: Lines<'a>,
    line: u64,
}

impl<'a> Model for Events<'a> {
    ghost use Rattle.std.specs.Prelude.{◌+◌, ◌≤◌, length};
    ghost use Rattle.schedule_text.specs.Given.{Left};

    ghost Value = { Left };

    ghost use Rattle.schedule_text.specs.Left.{lines_left};
    ghost use Rattle.schedule_text.specs.Schedules.{events_of};

    ghost view = { λ e. record { events = events_of e.setting (lines_left e.lines); line = e.line } };

    ghost invariant = { λ e. (e.line ≤ 2000 + e.lines.at) × (length e.setting.modes ≤ 64) };
}

impl<'a> Events<'a> {
    ghost use Rattle.schedule_text.specs.Given.{GivesNext};

    /// The events of the text from this place on, which `read_schedule` gave of it.
    pub fn make(place: Place, text: &'a [u8]) -> Events<'a>
        ensures { result ≡ record { events = events_at place text.now; line = place.line } }
    {
        let Place { setting, at, line } = place;
        let at = at.min(text.len());
        Events {
            setting,
            lines: Lines { text, at },
            line,
        }
    }

    /// The next event, or None behind the last. Where there is no memory for it, it is still the
    /// next one.
    #[tactic(auto, unfolding(crate::specs::Schedules::events_of))]
    pub fn next(&mut self, alloc: Global) -> Result<Option<Event>, AllocError>
        ensures { GivesNext self.old self.new result }
    {
        let mut lines = self.lines;
        if let Some(message) = next_delivery(&self.setting, &mut lines) {
            self.lines = lines;
            self.line += 1;
            return Ok(Some(Event::Deliver { message }));
        }
        let Some(text) = lines.next() else {
            return Ok(None);
        };
        match event_of(alloc, &self.setting, text)? {
            Ok(event) => {
                self.lines = lines;
                self.line += 1;
                Ok(Some(event))
            }
            Err(_) => Ok(None),
        }
    }

    /// The line of the event that was given last, counted from 1; before the first, that of the
    /// line `begin`.
    pub fn line(&self) -> u64
        ensures { result ≡ self.now.line }
    {
        self.line
    }
}
