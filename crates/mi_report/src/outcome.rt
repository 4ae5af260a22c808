//! What a command came to.

use mi_base::{Kind, Settled, Texts};

/// What a command came to (this project's own).
#[derive(Drop)]
pub struct Outcome {
    pub kind: Kind,
    /// What settling the rollback area found.
    pub settled: Settled,
    /// Whether the command walks over a sequence, as `/i` does.
    pub walks: bool,
    /// The actions that were begun.
    pub begun: Texts,
}
