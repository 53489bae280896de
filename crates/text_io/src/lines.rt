//! Finds the lines of an input one at a time, and its end.
ghost use Rattle.std.specs.Prelude.{◌≡◌, ◌+◌, ◌<◌, ◌≤◌, [], length, not, count_by, MatchOption};
ghost use Rattle.std.specs.List.{before_first, after_first, position_or_len, suffix_len};
ghost use Rattle.text_definitions.specs.Text.{max_text, is_skipped, without_cr, is_line_feed, end_of, pieces, lines_from};
ghost use Rattle.text_io.specs.Lines.{IsFirstLine};

use crate::front::without_blanks;
use text_definitions::Place;

/// A line that is neither blank nor a comment: its number, its bytes without the line end, and the bytes after that
/// end.
#[derive(Clone, Copy)]
pub struct FoundLine<'a> {
    pub number: u32,
    pub line: &'a [u8],
    pub later: &'a [u8],
}

/// The first line of `bytes` that is neither blank nor a comment, or `None` if there is none. `number` is the number of
/// the line before `bytes`.
pub fn first_line(bytes: &[u8], number: u32) -> Option<FoundLine<'_>>
    requires { number + length bytes.now ≤ max_text }
    ensures { MatchOption result (lines_from (number + 1) (pieces bytes.now) ≡ []) (IsFirstLine number bytes.now) }
{
    let mut later = bytes;
    let mut number = number;
    while !later.is_empty() {
        let (piece, after) = split_line(later);
        let line = line_content(piece);
        number += 1;
        later = after;
        if !skips(line) {
            return Some(FoundLine {
                number,
                line,
                later,
            });
        }
    }
    None
}

/// The bytes of `bytes` before the first LF, and the bytes after it.
fn split_line(bytes: &[u8]) -> (&[u8], &[u8])
    ensures line { result.0.now ≡ before_first is_line_feed bytes.now }
    ensures after { result.1.now ≡ after_first is_line_feed bytes.now }
    ensures shorter { 0 < length bytes.now → length result.1.now < length bytes.now }
    ensures within { length result.0.now ≤ length bytes.now }
{
    let (line, ended) = bytes.split_at(line_len(bytes));
    match ended {
        [_, after @ ..] => (line, after),
        [] => (line, ended),
    }
}

/// The number of bytes of `bytes` before the first LF.
fn line_len(bytes: &[u8]) -> usize
    ensures { result ≡ position_or_len is_line_feed bytes.now }
{
    bytes.iter().take_while(|b| **b != b'\n').count()
}

/// `piece` without a CR at its end.
fn line_content(piece: &[u8]) -> &[u8]
    ensures content { result.now ≡ without_cr piece.now }
    ensures shorter { length result.now ≤ length piece.now }
{
    let Some((last, content)) = piece.split_last() else {
        return piece;
    };
    if *last == b'\r' { content } else { piece }
}

/// Whether `line` is blank or a comment.
fn skips(line: &[u8]) -> bool
    ensures { result ≡ is_skipped line.now }
{
    match without_blanks(line) {
        [] => true,
        [first, ..] => *first == b'#',
    }
}

/// The place after the last byte of `bytes`: its line and its column.
pub fn end_place(bytes: &[u8]) -> Place
    requires { length bytes.now ≤ max_text }
    ensures { result ≡ end_of bytes.now }
{
    Place {
        line: line_feeds(bytes) as u32 + 1,
        column: last_line_len(bytes) as u32 + 1,
    }
}

/// The number of LF bytes in `bytes`.
fn line_feeds(bytes: &[u8]) -> usize
    ensures number { result ≡ count_by is_line_feed bytes.now }
    ensures within { result ≤ length bytes.now }
{
    bytes.iter().filter(|b| **b == b'\n').count()
}

/// The number of bytes of `bytes` after the last LF.
fn last_line_len(bytes: &[u8]) -> usize
    ensures number { result ≡ suffix_len (λ b. not (is_line_feed b)) bytes.now }
    ensures within { result ≤ length bytes.now }
{
    bytes.iter().rev().take_while(|b| **b != b'\n').count()
}
