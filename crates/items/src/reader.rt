ghost use Rattle.std.specs.Prelude.{◌≤◌, length};

use crate::width::Width;

// The bytes of a file, and how many of them have been read.
#[derive(Drop)]
pub struct Reader<'a> {
    pub bytes: &'a [u8],
    pub at: usize,
    ghost ok: { at ≤ length bytes.now },
}

// A part of the file's bytes.
#[derive(Clone, Copy, Debug, PartialEq, Eq)]
pub struct Span {
    pub start: usize,
    pub len: usize,
}

// Offsets as they stand in the file: so many, of this width, from a byte on.
#[derive(Clone, Copy, Debug, PartialEq, Eq)]
pub struct Offsets {
    pub width: Width,
    pub count: usize,
    pub start: usize,
}
