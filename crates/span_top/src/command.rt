ghost use Rattle.std.specs.Prelude.{◌≡◌, if◌then◌else◌, option_map, None, IfSome, ◌≤◌, ◌&&◌, codes};
ghost use Rattle.std.specs.Str.{bytes_eq};
ghost use Rattle.span_top.specs.Words.{number_between, is_file, a_plan, a_check, a_replay, a_kept_replay, an_audit, a_loop, a_run_of, run_within, asked_where, short_command, long_command, plan_within, command_of, asked_by};

use span_base::{Word, read_number};

/// What the words of the command line ask for.
#[derive(Clone, Copy, Debug)]
pub enum Command<'a> {
    /// `plan WORLD [BUDGET]`: a plan of the world in the file of this name, with at most so many
    /// tree lines a set.
    Plan { world: &'a str, budget: u64 },
    /// `check WORLD PLAN`: the check of the plan in the one file against the world in the other.
    Check { world: &'a str, plan: &'a str },
    /// `replay SCHEDULE`: the run of the schedule in the file of this name.
    Replay { schedule: &'a str },
    /// `replay-kept SCHEDULE`: the run of the schedule in the file of this name, whose replicas crash
    /// and come back.
    ReplayKept { schedule: &'a str },
    /// `audit LOG`: the audit of the log in the file of this name.
    Audit { log: &'a str },
    /// `gen N`: a run of so many calls whose events are drawn.
    Gen { calls: u32 },
    /// `loop SCRIPT`: the run of the script in the file of this name over a link.
    Loop { script: &'a str },
}

/// The greatest number of calls that `gen` makes.
const MOST_CALLS: u64 = 20_000;
/// The greatest number of tree lines a set that a plan may ask for, and the number where none is asked.
const MOST_LINES: u64 = 1_000_000_000;

const USUAL_LINES: u64 = 1_000_000;

/// The command of these words, or None where they are those of no command.
pub fn command_of(words: &[Word]) -> Option<Command<'_>>
    ensures { option_map asked_by result ≡ command_of words.now }
{
    match words {
        [word, last] => short_command(word.as_str(), last),
        [word, world, last] => long_command(word.as_str(), world, last),
        _ => None,
    }
}

fn short_command<'a>(word: &str, last: &'a Word) -> Option<Command<'a>>
    ensures { option_map asked_by result ≡ short_command word.now last.now }
{
    if word == "plan" {
        return plan_command(last);
    }
    if word == "replay" {
        return replay_command(last);
    }
    if word == "replay-kept" {
        return replay_kept_command(last);
    }
    if word == "audit" {
        return audit_command(last);
    }
    if word == "gen" {
        return gen_command(last);
    }
    loop_command(word, last)
}

// The command to plan a world with the usual budget, where its file has a name.
fn plan_command(world: &Word) -> Option<Command<'_>>
    ensures { option_map asked_by result ≡ asked_where (is_file world.now) (a_plan world.now 1000000) }
{
    if world.is_empty() {
        return None;
    }
    let world = world.as_str();
    Some(Command::Plan {
        world,
        budget: USUAL_LINES,
    })
}

// The command to run a schedule, where its file has a name.
fn replay_command(schedule: &Word) -> Option<Command<'_>>
    ensures { option_map asked_by result ≡ asked_where (is_file schedule.now) (a_replay schedule.now) }
{
    if schedule.is_empty() {
        return None;
    }
    let schedule = schedule.as_str();
    Some(Command::Replay { schedule })
}

// The command to run a schedule whose replicas crash, where its file has a name.
fn replay_kept_command(schedule: &Word) -> Option<Command<'_>>
    ensures { option_map asked_by result ≡ asked_where (is_file schedule.now) (a_kept_replay schedule.now) }
{
    if schedule.is_empty() {
        return None;
    }
    let schedule = schedule.as_str();
    Some(Command::ReplayKept { schedule })
}

// The command to audit a log, where its file has a name.
fn audit_command(log: &Word) -> Option<Command<'_>>
    ensures { option_map asked_by result ≡ asked_where (is_file log.now) (an_audit log.now) }
{
    if log.is_empty() {
        return None;
    }
    let log = log.as_str();
    Some(Command::Audit { log })
}

// The command to run so many calls, where the word is their number.
fn gen_command<'a>(calls: &Word) -> Option<Command<'a>>
    ensures { option_map asked_by result ≡ run_within (number_between 0 20000 calls.now) }
{
    let calls = number_between(0, MOST_CALLS, calls)?;
    Some(Command::Gen {
        calls: calls as u32,
    })
}

// The command to run a script over a link, where the word says so and its file has a name.
fn loop_command<'a>(word: &str, script: &'a Word) -> Option<Command<'a>>
    ensures { option_map asked_by result ≡ asked_where (bytes_eq word.now (codes "loop") && is_file script.now) (a_loop script.now) }
{
    if word != "loop" || script.is_empty() {
        return None;
    }
    let script = script.as_str();
    Some(Command::Loop { script })
}

fn long_command<'a>(word: &str, world: &'a Word, last: &'a Word) -> Option<Command<'a>>
    ensures { option_map asked_by result ≡ long_command word.now world.now last.now }
{
    if word == "plan" {
        return plan_within(world, last);
    }
    check_command(word, world, last)
}

// The command to check a plan, where the word says so and both files have names.
fn check_command<'a>(word: &str, world: &'a Word, plan: &'a Word) -> Option<Command<'a>>
    ensures { option_map asked_by result ≡ asked_where (bytes_eq word.now (codes "check") && (is_file world.now && is_file plan.now)) (a_check world.now plan.now) }
{
    if word != "check" || world.is_empty() || plan.is_empty() {
        return None;
    }
    let world = world.as_str();
    let plan = plan.as_str();
    Some(Command::Check { world, plan })
}

// The command to plan a world with a budget, where its file has a name and the budget is one.
fn plan_within<'a>(world: &'a Word, budget: &Word) -> Option<Command<'a>>
    ensures { option_map asked_by result ≡ (if is_file world.now then plan_within world.now (number_between 1 1000000000 budget.now) else None) }
{
    if world.is_empty() {
        return None;
    }
    let world = world.as_str();
    let budget = number_between(1, MOST_LINES, budget)?;
    Some(Command::Plan { world, budget })
}

#[tactic(auto, using(crate::proofs::Commands::words))]
fn number_between(low: u64, high: u64, word: &Word) -> Option<u64>
    ensures number { result ≡ number_between low high word.now }
    ensures within { IfSome result (λ number. number ≤ high) }
{
    let Ok(number) = read_number(word.as_bytes(), u128::from(high)) else {
        return None;
    };
    let number = number as u64;
    if low <= number { Some(number) } else { None }
}
