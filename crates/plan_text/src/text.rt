ghost use Rattle.std.specs.Prelude.{◌≡◌, ◌++◌, ◌<◌, codes, length, OnOk, string_bytes};
ghost use Rattle.plan_text.specs.PlanText.{set_line, tree_line, cost_line, found_cost, cut_words, cut_line};

use bound_cert::{Line, push_line};
use span_base::SetId;
use std::alloc::AllocError;
use workload::World;

/// Adds the first line of a plan.
pub fn push_begin(text: &mut String) -> Result<(), AllocError>
    ensures { OnOk result (string_bytes text.new ≡ string_bytes text.old ++ codes "span-plan 1\n") }
{
    write!(text, "span-plan 1\n")
}

/// Adds the last line of a plan.
pub fn push_end(text: &mut String) -> Result<(), AllocError>
    ensures { OnOk result (string_bytes text.new ≡ string_bytes text.old ++ codes "end\n") }
{
    write!(text, "end\n")
}

/// Adds the line that begins the part of a set, whose program has so many variables.
pub fn push_set(
    text: &mut String,
    world: &World,
    set: SetId,
    variables: usize,
) -> Result<(), AllocError>
    requires { set.0 < length world.now.sets }
    ensures { OnOk result (string_bytes text.new ≡ string_bytes text.old ++ set_line world.now set.0 variables) }
{
    let name = world.set_name(set).as_str();
    let rule = world.rule(set);
    let mode = rule.mode.word();
    write!(text, "set {name} {mode} {variables}\n")
}

/// Adds one line of a tree.
pub fn push_tree_line(text: &mut String, line: &Line) -> Result<(), AllocError>
    ensures { OnOk result (string_bytes text.new ≡ string_bytes text.old ++ tree_line line.now) }
{
    push_line(text, line)?;
    write!(text, "\n")
}

/// Adds the line of a result that has the policy of least cost, in pico-dollars.
pub fn push_cost(text: &mut String, cost: u128) -> Result<(), AllocError>
    ensures { OnOk result (string_bytes text.new ≡ string_bytes text.old ++ cost_line cost) }
{
    write!(text, "result complete {cost}\n")
}

/// Adds the line of a result that has no policy.
pub fn push_none(text: &mut String) -> Result<(), AllocError>
    ensures { OnOk result (string_bytes text.new ≡ string_bytes text.old ++ codes "result none\n") }
{
    write!(text, "result none\n")
}

/// Adds the line of a result that is cut off at a number of lines, with the cost of the best policy
/// found, in pico-dollars, if one was.
pub fn push_cut(text: &mut String, lines: u64, cost: Option<u128>) -> Result<(), AllocError>
    ensures { OnOk result (string_bytes text.new ≡ string_bytes text.old ++ cut_line lines cost) }
{
    push_cut_words(text, lines)?;
    push_found_cost(text, cost)?;
    write!(text, "\n")
}

#[tactic(auto, unfolding(crate::specs::PlanText::cut_words))]
fn push_cut_words(text: &mut String, lines: u64) -> Result<(), AllocError>
    ensures { OnOk result (string_bytes text.new ≡ string_bytes text.old ++ cut_words lines) }
{
    write!(text, "result budget {lines} ")
}

fn push_found_cost(text: &mut String, cost: Option<u128>) -> Result<(), AllocError>
    ensures { OnOk result (string_bytes text.new ≡ string_bytes text.old ++ found_cost cost) }
{
    match cost {
        Some(cost) => write!(text, "{cost}"),
        None => write!(text, "-"),
    }
}
