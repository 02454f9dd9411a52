ghost use Rattle.std.specs.Prelude.{◌≡◌};
ghost use Rattle.span_node.specs.Index.{mixed, digest_of};

const MULTIPLIER: u64 = 6_364_136_223_846_793_005;

/// A digest of a destination and a frame, of which few share one.
#[tactic(auto, unfolding(crate::specs::Index::digest_of))]
pub(crate) fn digest_of(to: u16, frame: &[u8]) -> u64
    ensures { result ≡ digest_of to frame.now }
{
    let mut digest = u64::from(to);
    for byte in frame {
        digest = mixed(digest, *byte);
    }
    digest
}

/// The digest with one byte more.
#[tactic(auto, unfolding(crate::specs::Index::mixed))]
fn mixed(digest: u64, byte: u8) -> u64
    ensures { result ≡ mixed digest byte }
{
    digest
        .wrapping_mul(MULTIPLIER)
        .wrapping_add(u64::from(byte) + 1)
}
