/// The number of a centre, counted from 0 in the order in which a world names its centres.
#[derive(Clone, Copy, Debug, PartialEq, Eq, PartialOrd, Ord)]
pub struct DcId(pub u8);

/// The number of a set of keys, counted from 0 in the order in which a world names its sets.
#[derive(Clone, Copy, Debug, PartialEq, Eq, PartialOrd, Ord)]
pub struct SetId(pub u16);

/// The number of a key, counted from 0.
#[derive(Clone, Copy, Debug, PartialEq, Eq, PartialOrd, Ord)]
pub struct KeyId(pub u16);

/// One call of a proxy: the proxy's number, and the call's number among the proxy's calls,
/// which are counted from 1.
#[derive(Clone, Copy, Debug, PartialEq, Eq)]
pub struct Call {
    /// The number of the proxy.
    pub proxy: u8,
    /// The number of the call among those of its proxy, from 1 on.
    pub seq: u32,
}
