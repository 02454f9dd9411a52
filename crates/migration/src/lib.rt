//! The move of a key from its current epoch to the latest one: the old epoch is ended at enough
//! replicas, its greatest version is stored under the new epoch, and then the directory makes the
//! new epoch current. Strong and eventual keys move alike but for what is enough and where the
//! seed goes.
#![tactic(auto)]

mod eventual;
mod freezing;
pub mod laws;
mod looking;
mod move_call;
mod rule;
mod seeding;
mod stage;
mod strong;
mod switching;

pub use eventual::Eventual;
pub use move_call::MoveCall;
pub use rule::MoveRule;
pub use strong::Strong;

/// The move of a strong key.
pub type StrongMove = MoveCall<Strong>;

/// The move of an eventual key.
pub type EventualMove = MoveCall<Eventual>;

#[cfg(test)]
mod tests;
