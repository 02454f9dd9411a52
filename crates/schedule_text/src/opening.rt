ghost use Rattle.std.specs.Prelude.{◌≡◌, ◌+◌, ◌<◌, ◌≤◌, drop, length, IfOk, IsTrue};
ghost use Rattle.world_core.specs.Run.{IsHeader};
ghost use Rattle.schedule_text.specs.Left.{lines_left};
ghost use Rattle.schedule_text.specs.Headers.{begin_line};
ghost use Rattle.schedule_text.specs.Tables.{setting_of};
ghost use Rattle.schedule_text.specs.Flaws.{Gives};
ghost use Rattle.schedule_text.specs.Schedules.{schedule_of, first_fault, numbered, Reads, Checks};
ghost use Rattle.schedule_text.specs.Deliveries.{ChecksNext};

use crate::delivery_line::next_delivery;
use crate::event_line::event_of;
use crate::fault::ScheduleFault;
use crate::flaw::{Flaw, after, within};
use crate::header::read_header;
use crate::lines::Lines;
use crate::modes::setting_of;
use crate::place::{Opening, Place};
use crate::setting::{Form, Setting};
use span_base::What;
use std::alloc::{AllocError, Global};
use world_core::{Event, Header};

/// The greatest number of events of a schedule.
pub(crate) const EVENTS: usize = 1_000_000;

/// Reads a schedule as one of this form: the whole text is looked at, and of its events only the
/// place is kept, from which `Events` gives them. The text is a fault at its first line that is
/// refused; of several flaws of a line the one is told that is tried first: `syntax`, `number`, a
/// limit, `range`, `policy`, and of two limits the left one.
pub fn read_schedule(alloc: Global, text: &[u8], form: Form) -> Result<Opening, ScheduleFault>
    ensures reads { Reads text.now (schedule_of form text.now) result }
    ensures header { IfOk result (λ opening. IsHeader opening.header) }
    ensures setting { IfOk result (λ opening. opening.place.setting ≡ setting_of form opening.header) }
    ensures line { IfOk result (λ opening. opening.place.line ≡ begin_line opening.header) }
{
    let mut lines = Lines { text, at: 0 };
    let header = read_header(alloc, &mut lines)?;
    let at = lines.at;
    let line = begin_line(&header);
    let setting = setting_of(alloc, form, &header)?;
    check_events(alloc, &setting, line + 1, &mut lines)?;
    let place = Place { setting, at, line };
    Ok(Opening { header, place })
}

/// The number of the line `begin`.
pub(crate) fn begin_line(header: &Header) -> u64
    requires { IsHeader header.now }
    ensures line { result ≡ begin_line header.now }
    ensures few { result ≤ 2000 }
{
    (3 + header.sets.len() + header.keys.len() + header.proxies.len()) as u64
}

/// The event of this number, counted from 1.
fn numbered(
    alloc: Global,
    setting: &Setting,
    number: usize,
    text: &[u8],
) -> Result<Result<Event, Flaw>, AllocError>
    requires { length setting.now.modes ≤ 64 }
    ensures event { Gives (numbered setting.now number text.now) result }
    ensures few { IfOk result (λ said. IfOk said (λ _. number ≤ EVENTS)) }
{
    let event = event_of(alloc, setting, text)?;
    Ok(after(within(What::Events, EVENTS, number), event))
}

/// Looks whether a line of an event has a fault; the first of them is this line of the text.
#[tactic(auto, unfolding(crate::specs::Schedules::first_fault))]
fn check_events(
    alloc: Global,
    setting: &Setting,
    first: u64,
    lines: &mut Lines<'_>,
) -> Result<(), ScheduleFault>
    requires early { first ≤ 2001 }
    requires few { length setting.now.modes ≤ 64 }
    ensures { Checks (first_fault setting.now first 1 (lines_left lines.old)) result }
{
    let mut line = first;
    let mut number = 1;
    while check_next(alloc, setting, line, number, lines)? {
        line += 1;
        number += 1;
    }
    Ok(())
}

/// Looks whether there is a next line, and whether it has a fault: it is this line of the text, and
/// the event of this number.
#[tactic(auto, unfolding(crate::specs::Schedules::first_fault))]
fn check_next(
    alloc: Global,
    setting: &Setting,
    line: u64,
    number: usize,
    lines: &mut Lines<'_>,
) -> Result<bool, ScheduleFault>
    requires few { length setting.now.modes ≤ 64 }
    ensures checks { ChecksNext setting.now line number (lines_left lines.old) (lines_left lines.new) result }
    ensures text { lines.new.text ≡ lines.old.text }
    ensures further { IfOk result (λ more. IsTrue more → lines.old.at < lines.new.at) }
{
    if number <= EVENTS && next_delivery(setting, lines).is_some() {
        return Ok(true);
    }
    let Some(text) = lines.next() else {
        return Ok(false);
    };
    match numbered(alloc, setting, number, text)? {
        Ok(_) => Ok(true),
        Err(flaw) => Err(flaw.at(line)),
    }
}
