//! The sequence of a package: its rows in order, and the walk over them, which tells step by step what each
//! begun action does (Sequence tables; Standard Actions Reference; Custom Action Types).
#![tactic(auto)]

mod action;
mod custom;
mod error;
mod launch;
mod phase;
mod places;
mod refusal;
mod row;
mod seats;
mod standard;
mod step;
mod walk;

pub use error::SeqError;
pub use launch::launch_refusal;
pub use phase::Phase;
pub use places::Order;
pub use seats::order;
pub use step::Step;
pub use walk::Walk;
