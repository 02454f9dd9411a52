//! How many answers are enough.

ghost use Rattle.std.specs.Prelude.{◌≡◌};
ghost use Rattle.relay_proxy.specs.Rule.{is_stored, all_refused};

use call_phase::Phase;

/// Whether `f + 1` replicas did as they were asked.
pub(crate) fn is_stored(f: u8, phase: &Phase) -> bool
    ensures { result ≡ is_stored f phase.now }
{
    u32::from(f) + 1 <= phase.good.count()
}

/// Whether every replica that was asked refused.
pub(crate) fn all_refused(phase: &Phase) -> bool
    ensures { result ≡ all_refused phase.now }
{
    phase.bad.bits() == phase.asked.bits()
}
