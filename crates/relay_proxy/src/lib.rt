//! The calls of a proxy on eventual keys: a get ends by the first version that it is sent, a put
//! once `f + 1` replicas have stored its value.
#![tactic(auto)]

mod call;
mod counting;
mod ending;
mod refusal;
mod requests;
mod routes;
mod stage;

pub use call::EventualCall;
pub use stage::Stage;

#[cfg(test)]
mod tests;
