//! The bytes of a file, and how far they are read.
ghost use Rattle.std.specs.Prelude.{◌≤◌, length};

mod number;
mod place;

/// The lent bytes of a file, and the place of the next byte to read.
#[derive(Drop)]
pub struct Reader<'a> {
    bytes: &'a [u8],
    at: usize,
    ghost within: { at ≤ length bytes.now },
}
