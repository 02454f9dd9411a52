//! Numbers that are drawn one after another: a linear congruence modulo 2^64.

ghost use Rattle.std.specs.Prelude.{◌≡◌, ◌<◌};
ghost use Rattle.run_generator.specs.Chosen.{next, below};

const MULTIPLIER: u64 = 6_364_136_223_846_793_005;

const INCREMENT: u64 = 1_442_695_040_888_963_407;

/// The next state.
#[tactic(auto, unfolding(crate::specs::Chosen::next))]
pub(crate) fn next(state: u64) -> u64
    ensures { result ≡ next state }
{
    state.wrapping_mul(MULTIPLIER).wrapping_add(INCREMENT)
}

/// The number below a limit that a state tells. Its lowest bits, which hardly vary, don't count.
#[tactic(auto, unfolding(crate::specs::Chosen::below))]
pub(crate) fn below(limit: u32, state: u64) -> u32
    requires { 0 < limit }
    ensures value { result ≡ below limit state }
    ensures less { result < limit }
{
    ((state >> 33) % u64::from(limit)) as u32
}
