//! Pieces of bytes, each of at most what a volume writes at once.

ghost use Rattle.std.specs.Prelude.{◌≡◌, ◌≤◌, length, take, drop};

use mi_volume::PIECE;

/// The piece from this place on.
pub fn piece_at(bytes: &[u8], at: usize) -> &[u8]
    requires { at ≤ length bytes.now }
    ensures piece { result.now ≡ take PIECE (drop at bytes.now) }
    ensures short { length result.now ≤ PIECE }
{
    let rest = &bytes[at..];
    &rest[..rest.len().min(PIECE)]
}
