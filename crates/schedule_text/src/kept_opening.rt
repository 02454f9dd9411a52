//! The text of a restart run is looked at as a whole.

ghost use Rattle.std.specs.Prelude.{◌≡◌, ◌+◌, ◌≤◌, length, IfOk};
ghost use Rattle.world_core.specs.Run.{IsHeader};
ghost use Rattle.schedule_text.specs.declared.setting.Form.TheVariants.{Plain};
ghost use Rattle.schedule_text.specs.Left.{lines_left};
ghost use Rattle.schedule_text.specs.Headers.{begin_line};
ghost use Rattle.schedule_text.specs.Tables.{setting_of};
ghost use Rattle.schedule_text.specs.Flaws.{Gives};
ghost use Rattle.schedule_text.specs.Schedules.{Checks};
ghost use Rattle.schedule_text.specs.Kept.{kept_schedule_of, first_kept_fault, kept_numbered, ReadsKept};

use crate::fault::ScheduleFault;
use crate::flaw::{Flaw, after, within};
use crate::header::read_header;
use crate::kept_event::KeptEvent;
use crate::kept_line::kept_event_of;
use crate::lines::Lines;
use crate::modes::setting_of;
use crate::opening::{EVENTS, begin_line};
use crate::place::{Opening, Place};
use crate::setting::{Form, Setting};
use span_base::What;
use std::alloc::{AllocError, Global};

/// Reads the text of a restart run, as `read_schedule` does that of a schedule: the lines of form
/// `Plain`, and `crash N CALL old` or `crash N CALL new`. Only the place of the events is kept, from
/// which `KeptEvents` gives them.
pub fn read_kept_schedule(alloc: Global, text: &[u8]) -> Result<Opening, ScheduleFault>
    ensures reads { ReadsKept text.now (kept_schedule_of text.now) result }
    ensures header { IfOk result (λ opening. IsHeader opening.header) }
    ensures setting { IfOk result (λ opening. opening.place.setting ≡ setting_of Plain opening.header) }
    ensures line { IfOk result (λ opening. opening.place.line ≡ begin_line opening.header) }
{
    let mut lines = Lines { text, at: 0 };
    let header = read_header(alloc, &mut lines)?;
    let at = lines.at;
    let line = begin_line(&header);
    let setting = setting_of(alloc, Form::Plain, &header)?;
    check_kept_events(alloc, &setting, line + 1, &mut lines)?;
    let place = Place { setting, at, line };
    Ok(Opening { header, place })
}

/// The event of this number, counted from 1.
fn kept_numbered(
    alloc: Global,
    setting: &Setting,
    number: usize,
    text: &[u8],
) -> Result<Result<KeptEvent, Flaw>, AllocError>
    requires { length setting.now.modes ≤ 64 }
    ensures event { Gives (kept_numbered setting.now number text.now) result }
    ensures few { IfOk result (λ said. IfOk said (λ _. number ≤ EVENTS)) }
{
    let event = kept_event_of(alloc, setting, text)?;
    Ok(after(within(What::Events, EVENTS, number), event))
}

/// Looks whether a line of an event has a fault; the first of them is this line of the text.
#[tactic(auto, unfolding(crate::specs::Kept::first_kept_fault))]
fn check_kept_events(
    alloc: Global,
    setting: &Setting,
    first: u64,
    lines: &mut Lines<'_>,
) -> Result<(), ScheduleFault>
    requires early { first ≤ 2001 }
    requires few { length setting.now.modes ≤ 64 }
    ensures { Checks (first_kept_fault setting.now first 1 (lines_left lines.old)) result }
{
    let mut line = first;
    let mut number = 1;
    while let Some(text) = lines.next() {
        let said = kept_numbered(alloc, setting, number, text)?;
        if let Err(flaw) = said {
            return Err(flaw.at(line));
        }
        line += 1;
        number += 1;
    }
    Ok(())
}
