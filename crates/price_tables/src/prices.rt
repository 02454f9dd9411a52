use span_base::{DcId, Word};

/// What a centre asks, in pico-dollars, each at most 10^9.
#[derive(Clone, Copy, Debug, PartialEq, Eq)]
pub struct DcPrice {
    /// Per KiB stored for a billing period.
    pub store: u64,
    /// Per get request.
    pub get: u64,
    /// Per put request.
    pub put: u64,
}

/// What a centre asks that isn't there.
pub const NO_PRICE: DcPrice = DcPrice {
    store: 0,
    get: 0,
    put: 0,
};

/// What a link asks, from one centre to another.
#[derive(Clone, Copy, Debug, PartialEq, Eq)]
pub struct Fare {
    /// Pico-dollars per KiB sent, at most 10^9.
    pub transfer: u64,
    /// The round trip there and back, in ms, at most 10^6.
    pub latency: u32,
}

/// What a link asks that isn't there.
pub const NO_FARE: Fare = Fare {
    transfer: 0,
    latency: 0,
};

/// A data centre of a provider.
#[derive(Debug, Drop)]
pub struct Centre {
    /// The name by which links and members speak of it.
    pub name: Word,
    /// The name of the provider that runs it.
    pub provider: Word,
    pub price: DcPrice,
}

/// An ordered pair of centres.
#[derive(Clone, Copy, Debug, PartialEq, Eq)]
pub struct Pair {
    /// Where a link starts.
    pub from: DcId,
    /// Where it ends.
    pub to: DcId,
}
