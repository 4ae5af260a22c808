//! What phases over rows share: expanded columns, entries that aren't too large, names that go.
#![tactic(auto)]

mod names;
mod put;
mod texts;

pub use names::drop_at;
pub use put::{put_sized, sized};
pub use texts::{expanded, expanded_or_empty};
