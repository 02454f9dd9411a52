ghost use Rattle.std.specs.Prelude.{◌≡◌, map};
ghost use Rattle.world_text.specs.Spelled.{kind_of, mode_of, version_of};
ghost use Rattle.world_text.specs.Toml.{kind_word};

use crate::fault::Fault;
use span_base::Cause;
use workload::Mode;

/// The versions of the format: in the second a set says how many providers it asks for.
#[derive(Clone, Copy, Debug)]
pub(crate) enum Version {
    One,
    Two,
}

/// What a record after the first is of.
#[derive(Clone, Copy, Debug)]
pub(crate) enum Kind {
    Centre,
    Link,
    Set,
    /// A member of a set.
    Use,
}

impl Kind {
    /// The first field of its records, and the key of its tables.
    pub(crate) fn word(self) -> &'static str
        ensures { result.now ≡ kind_word self }
    {
        match self {
            Kind::Centre => "dc",
            Kind::Link => "link",
            Kind::Set => "set",
            Kind::Use => "use",
        }
    }
}

/// The version that the first record spells.
#[tactic(auto, unfolding(crate::specs::Spelled::version_of))]
pub(crate) fn version_of(fields: &[&[u8]]) -> Result<Version, Fault>
    ensures { result ≡ version_of (map (λ f. f.now) fields.now) }
{
    let [word, number] = fields else {
        return Err(Fault::Bad(Cause::Version));
    };
    if *word != b"span".as_slice() {
        return Err(Fault::Bad(Cause::Version));
    }
    if *number == b"1".as_slice() {
        Ok(Version::One)
    } else if *number == b"2".as_slice() {
        Ok(Version::Two)
    } else {
        Err(Fault::Bad(Cause::Version))
    }
}

/// The kind that a record's first field spells.
#[tactic(auto, unfolding(crate::specs::Spelled::kind_of))]
pub(crate) fn kind_of(text: &[u8]) -> Result<Kind, Fault>
    ensures { result ≡ kind_of text.now }
{
    if text == b"dc".as_slice() {
        Ok(Kind::Centre)
    } else if text == b"link".as_slice() {
        Ok(Kind::Link)
    } else if text == b"set".as_slice() {
        Ok(Kind::Set)
    } else if text == b"use".as_slice() {
        Ok(Kind::Use)
    } else {
        Err(Fault::Bad(Cause::Kind))
    }
}

/// The mode that a text spells.
#[tactic(auto, unfolding(crate::specs::Spelled::mode_of))]
pub(crate) fn mode_of(text: &[u8]) -> Result<Mode, Fault>
    ensures { result ≡ mode_of text.now }
{
    if text == b"direct".as_slice() {
        Ok(Mode::Direct)
    } else if text == b"relay".as_slice() {
        Ok(Mode::Relay)
    } else if text == b"strong".as_slice() {
        Ok(Mode::Strong)
    } else {
        Err(Fault::Bad(Cause::Mode))
    }
}
