//! The modes of the sets.

ghost use Rattle.std.specs.Prelude.{◌≡◌, ◌≤◌, length, IfOk};
ghost use Rattle.schedule_text.specs.Tables.{is_mode, mode_of, setting_of};

use crate::setting::{Form, Mode, Setting};
use span_base::{Listed, Policy};
use std::alloc::{AllocError, Global};
use world_core::Header;

/// The mode of a policy.
pub(crate) fn mode_of(policy: &Policy) -> Mode
    ensures { result ≡ mode_of policy.now }
{
    match policy {
        Policy::Direct { .. } => Mode::Direct,
        Policy::Relay { .. } => Mode::Relay,
        Policy::Strong { .. } => Mode::Strong,
    }
}

/// Whether both are the same mode.
pub(crate) fn is_mode(mode: Mode, other: Mode) -> bool
    ensures { result ≡ is_mode mode other }
{
    match (mode, other) {
        (Mode::Direct, Mode::Direct) => true,
        (Mode::Relay, Mode::Relay) => true,
        (Mode::Strong, Mode::Strong) => true,
        _ => false,
    }
}

/// What the events behind a header are judged by.
pub(crate) fn setting_of(alloc: Global, form: Form, header: &Header) -> Result<Setting, AllocError>
    requires { length header.now.sets ≤ 64 }
    ensures { IfOk result (λ setting. setting ≡ setting_of form header.now) }
{
    let sets = header.sets.as_slice();
    let mut modes = Vec::with_capacity(alloc, sets.len())?;
    for policy in sets {
        modes.push(mode_of(policy))?;
    }
    Ok(Setting {
        form,
        replicas: header.replicas,
        modes: Listed::from_vec(modes),
    })
}
