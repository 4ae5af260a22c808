//! What becomes of the count of a shared file in a plan (Component Table, Attributes, msidbComponentAttributesSharedDllRefCount).
#![tactic(auto)]

mod counts;

pub use counts::{lower, raise_unless, take};
