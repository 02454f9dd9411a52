ghost use Rattle.std.specs.Prelude.{◌≡◌, ℕ, ◌<◌, ◌≤◌, ◌≢◌, ◌&&◌, ◌||◌, true, false, IsTrue, length};

use crate::ids::DcId;

/// How many centres there can be: a set holds centres 0 to 15.
pub const CENTRES: u8 = 16;

/// A set of centres, one bit for each: bit `d`, counted from the least, is set where centre `d`
/// is in the set.
#[derive(Clone, Copy, Debug, PartialEq, Eq)]
pub struct DcSet {
    bits: u16,
}

impl DcSet {
    ghost use Rattle.span_base.specs.DcSet.{bits_of, has, centres_of, no_centre, meet, join, insert};

    /// The set of no centre.
    pub fn empty() -> DcSet
        ensures set { result ≡ no_centre }
        ensures has { (d : ℕ) → has result d ≡ false }
    {
        DcSet { bits: 0 }
    }

    /// The set that has centre `d` where bit `d` is set, counted from the least.
    pub fn from_bits(bits: u16) -> DcSet
        ensures { bits_of result ≡ bits }
    {
        DcSet { bits }
    }

    /// The number whose bit `d`, counted from the least, is set where centre `d` is in the set.
    pub fn bits(self) -> u16
        ensures { result ≡ bits_of self }
    {
        self.bits
    }

    /// The set with `dc` in it too.
    pub fn with(self, dc: DcId) -> DcSet
        requires { dc.0 < CENTRES }
        ensures set { result ≡ insert self dc.0 }
        ensures same { has result dc.0 ≡ true }
        ensures other { (d : ℕ) → d ≢ dc.0 → has result d ≡ has self d }
    {
        DcSet {
            bits: self.bits | 1 << dc.0,
        }
    }

    /// Whether `dc` is in the set. No number from 16 on is.
    pub fn has(&self, dc: DcId) -> bool
        ensures member { result ≡ has self.now dc.0 }
        ensures limit { IsTrue result → dc.0 < CENTRES }
    {
        dc.0 < CENTRES && self.bits >> dc.0 & 1 == 1
    }

    /// How many centres are in the set.
    pub fn count(&self) -> u32
        ensures count { result ≡ length (centres_of self.now) }
        ensures limit { result ≤ CENTRES }
    {
        self.bits.count_ones()
    }

    /// The centres that are in both sets.
    pub fn meet(&self, other: &DcSet) -> DcSet
        ensures set { result ≡ meet self.now other.now }
        ensures has { (d : ℕ) → has result d ≡ (has self.now d && has other.now d) }
    {
        DcSet {
            bits: self.bits & other.bits,
        }
    }

    /// The centres that are in one of the sets, or in both.
    pub fn join(&self, other: &DcSet) -> DcSet
        ensures set { result ≡ join self.now other.now }
        ensures has { (d : ℕ) → has result d ≡ (has self.now d || has other.now d) }
    {
        DcSet {
            bits: self.bits | other.bits,
        }
    }
}
