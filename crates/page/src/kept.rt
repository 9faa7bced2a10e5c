// A page lent by the caller, as it is kept.
ghost use Rattle.std.specs.Prelude.{◌≤◌, length};

/// The first `at` bytes are written. The bytes are the caller's, so a count stands beside them. No book of bytes, since a
/// text is written whole or not at all.
#[derive(Drop)]
pub struct Page<'a> {
    pub(crate) bytes: &'a mut [u8],
    pub(crate) at: usize,
    ghost within: { at ≤ length bytes.now },
}

/// A page for a caller that asks once, at the end, whether all fitted: no write of it fails. One that does not fit leaves it
/// full, and it stays so.
#[derive(Drop)]
pub struct Draft<'a> {
    pub(crate) bytes: &'a mut [u8],
    pub(crate) at: usize,
    pub(crate) full: bool,
    ghost within: { at ≤ length bytes.now },
}
