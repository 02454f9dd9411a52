use span_top::Watch;
use std::io::IsTerminal;
use std::time::Instant;

/// The clock is looked at once in so many tree lines.
const LINES_A_LOOK: u64 = 1_024;
/// A line is told at least so often.
const SECONDS_A_LINE: u64 = 10;

/// Tells on standard error how far planning has come, where that is a terminal: at each tenth of the
/// sets, and every ten seconds.
#[derive(Drop)]
pub struct Progress<'a> {
    rt: &'a HostRuntime,
    is_shown: bool,
    sets: u16,
    planned: u16,
    lines: u64,
    /// When a line was told last, or planning began.
    told: Option<Instant>,
}

impl<'a> Progress<'a> {
    /// Nothing is planned yet.
    pub fn new(rt: &'a HostRuntime) -> Progress<'a> {
        Progress {
            rt,
            is_shown: rt.stderr().is_terminal(),
            sets: 0,
            planned: 0,
            lines: 0,
            told: None,
        }
    }

    fn tell(&mut self) {
        let (planned, sets, lines) = (self.planned, self.sets, self.lines);
        let _ = eprintln!(self.rt; "planned {planned} of {sets} sets, {lines} tree lines");
        self.told = Instant::now(self.rt).ok();
    }

    fn is_due(&self) -> bool {
        match &self.told {
            Some(told) =>
                matches!(told.elapsed(self.rt), Ok(passed) if passed.as_secs() >= SECONDS_A_LINE),
            None => false,
        }
    }
}

impl Watch for Progress<'_> {
    fn begin(&mut self, sets: u16) {
        self.sets = sets;
        self.told = Instant::now(self.rt).ok();
    }

    fn line_written(&mut self) {
        self.lines = self.lines.saturating_add(1);
        if self.is_shown && self.lines % LINES_A_LOOK == 0 && self.is_due() {
            self.tell();
        }
    }

    fn set_planned(&mut self) {
        let before = tenths(self.planned, self.sets);
        self.planned = self.planned.saturating_add(1);
        if self.is_shown && (before < tenths(self.planned, self.sets) || self.is_due()) {
            self.tell();
        }
    }
}

// How many tenths of the sets so many are.
fn tenths(planned: u16, sets: u16) -> u32 {
    if sets == 0 {
        return 0;
    }
    u32::from(planned) * 10 / u32::from(sets)
}
