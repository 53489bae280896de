//! Views of the entries of vectors, whatever their width.

/// The entries of a vector, in 8 bits each (`Bytes`) or in 128 bits each (`Wide`).
#[derive(Clone, Copy)]
pub(crate) enum EntryView<'a> {
    Bytes(&'a [u8]),
    Wide(&'a [u128]),
}
