/// The place of a replica.
#[derive(Drop)]
pub struct Seat<T> {
    /// It takes nothing more.
    pub(crate) stopped: bool,
    pub(crate) taker: T,
}
