//! What the top call answers.

use mi_base::Kind;

/// What a run answers (this project's own).
#[derive(Drop)]
pub struct Answer {
    pub kind: Kind,
    /// How many actions of the sequence were begun.
    pub reached: u32,
    /// Whether the sink failed; what was written is then a front of the log.
    pub log_lost: bool,
}
