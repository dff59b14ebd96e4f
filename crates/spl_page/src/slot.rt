ghost use Rattle.std.specs.Prelude.{◌<◌, ◌≤◌, length};

/// An entry as a view into the bytes of a page: its key, and how many bytes it takes.
#[derive(Clone, Copy)]
pub struct Slot<'a> {
    pub(crate) key: &'a [u8],
    pub(crate) size: usize,
    ghost some: { 0 < length key.now },
    ghost least: { 5 ≤ size },
}
