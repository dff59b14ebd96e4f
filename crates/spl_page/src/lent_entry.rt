ghost use Rattle.std.specs.Prelude.{◌<◌, ◌≤◌, length};

use crate::LentMessage;

/// A key with its message, borrowed from a page.
#[derive(Clone, Copy, Debug)]
pub struct LentEntry<'a> {
    /// The bytes of the key.
    pub key: &'a [u8],
    pub message: LentMessage<'a>,
    ghost is_key: { (0 < length key.now) × (length key.now ≤ 64) },
}
