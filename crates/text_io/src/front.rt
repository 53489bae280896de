//! The next word on the rest of a line.
ghost use Rattle.std.specs.Prelude.{◌≡◌, ◌+◌, ◌<◌, ◌≤◌, ◌^◌, length};
ghost use Rattle.std.specs.List.{prefix_len};
ghost use Rattle.text_definitions.specs.Text.{is_word_byte};
ghost use Rattle.text_io.specs.Front.{drop_blanks, IsFront};

/// What follows the spaces and tabs at the beginning of the rest of a line: `End` if nothing does, `Stray` for a byte
/// that no word contains, or `Word` with the word and the bytes after it.
#[derive(Clone, Copy)]
pub enum Front<'a> {
    End,
    Stray,
    Word(&'a [u8], &'a [u8]),
}

/// The column of the first byte of `rest` that is neither a space nor a tab, and what begins there. `column` is the
/// column of the first byte of `rest`.
pub fn front_of(rest: &[u8], column: u32) -> (u32, Front<'_>)
    requires { column + length rest.now < 2 ^ 32 }
    ensures { IsFront column rest.now result.0 result.1 }
{
    let unspaced = without_blanks(rest);
    let column = column + (rest.len() - unspaced.len()) as u32;
    if unspaced.is_empty() {
        return (column, Front::End);
    }
    let (word, after) = unspaced.split_at(word_len(unspaced));
    if word.is_empty() {
        (column, Front::Stray)
    } else {
        (column, Front::Word(word, after))
    }
}

/// The bytes of `bytes` from the first that is neither a space nor a tab.
pub fn without_blanks(bytes: &[u8]) -> &[u8]
    ensures rest { result.now ≡ drop_blanks bytes.now }
    ensures shorter { length result.now ≤ length bytes.now }
{
    let mut rest = bytes;
    while let [b' ' | b'\t', after @ ..] = rest {
        rest = after;
    }
    rest
}

/// The number of word bytes at the beginning of `bytes`.
fn word_len(bytes: &[u8]) -> usize
    ensures { result ≡ prefix_len is_word_byte bytes.now }
{
    bytes.iter().take_while(|b| b.is_ascii_graphic()).count()
}
