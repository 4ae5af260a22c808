//! A part of a record in memory.

ghost use Rattle.std.specs.Prelude.{◌≡◌, ◌-◌, take, drop};

use mi_base::Bytes;

/// The bytes of a record from a place on, as many as one read gives.
#[derive(Drop)]
pub struct Window {
    /// The number of bytes of the record.
    pub size: u64,
    /// The place of the first byte.
    pub at: u64,
    /// The bytes.
    pub bytes: Bytes,
}

impl Window {
    /// The bytes from a place behind the first, at most `want`.
    pub fn front(&self, at: u64, want: usize) -> &[u8]
        ensures { result.now ≡ take want (drop (at - self.now.at) self.now.bytes) }
    {
        let bytes = self.bytes.as_slice();
        let from = at.saturating_sub(self.at).min(bytes.len() as u64) as usize;
        let rest = &bytes[from..];
        &rest[..want.min(rest.len())]
    }
}
