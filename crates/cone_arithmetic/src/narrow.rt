//! Views of entries that have at most 64 bits each.

ghost use Rattle.std.specs.Prelude.{◌≡◌, ◌<◌, length, slice_index};
ghost use Rattle.cone_arithmetic.specs.NarrowEntries.{narrow_numbers};

/// Entries of 8 bits each (`Bytes`), or of 64 bits each (`Words`).
#[derive(Clone, Copy)]
pub(crate) enum Narrow<'a> {
    Bytes(&'a [u8]),
    Words(&'a [u64]),
}

impl Narrow<'_> {
    /// The number of entries.
    pub(crate) fn len(self) -> usize
        ensures { result ≡ length (narrow_numbers self.entry) }
    {
        match self {
            Narrow::Bytes(bytes) => bytes.len(),
            Narrow::Words(words) => words.len(),
        }
    }

    /// The entry in `column`.
    pub(crate) fn at(self, column: usize) -> u64
        requires { column < length (narrow_numbers self) }
        ensures { result ≡ slice_index (narrow_numbers self.entry) column }
    {
        match self {
            Narrow::Bytes(bytes) => u64::from(bytes[column]),
            Narrow::Words(words) => words[column],
        }
    }
}
