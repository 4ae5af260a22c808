//! A planned segment.

use mi_script::Script;

/// A segment that is planned: its script, and how many actions are begun at its end (InstallExecute and InstallFinalize actions).
#[derive(Drop)]
pub struct Segment {
    pub script: Script,
    pub reached: u64,
}
