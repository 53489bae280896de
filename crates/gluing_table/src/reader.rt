//! Reads gluing tables from text.

ghost use Rattle.std.specs.Prelude.{◌≡◌, ◌==◌, ◌<◌, ◌≤◌, length, Some};
ghost use Rattle.std.specs.List.{position_or_len, before_first, after_first};
ghost use Rattle.text_definitions.specs.Reading.{Gives, ReadsFrom};
ghost use Rattle.table_definitions.specs.TableText.{lexed, gluing_of, gluing_entry, entry_at, row_at, rows_at, counted_rows_at, table_at};

use crate::digits::number_of_digits;
use crate::{Glue, MAX_TETS, Row, Table, TableFault, TextFault};
use perm_four::Perm4;
use std::alloc::Global;
use text_io::{LIMIT, LexFault, LexKind, Lexer, is_decimal_word};

/// The index of the first colon in `word`, or its length if it has none.
fn colon_in(word: &[u8]) -> usize
    ensures value { result ≡ position_or_len (λ b. b == 58) word.now }
    ensures in_range { result ≤ length word.now }
{
    word.iter().take_while(|b| **b != b':').count()
}

/// The part of `word` before its first colon, or all of it.
fn before_colon(word: &[u8]) -> &[u8]
    ensures { result.now ≡ before_first (λ b. b == 58) word.now }
{
    &word[..colon_in(word)]
}

/// The part of `word` after its first colon, or nothing.
fn after_colon(word: &[u8]) -> &[u8]
    ensures { result.now ≡ after_first (λ b. b == 58) word.now }
{
    let colon = colon_in(word);
    if colon < word.len() {
        &word[colon + 1..]
    } else {
        &[]
    }
}

/// Parses `word`, the word `lexer` read last, as a gluing `t:p`. Fails with `BadWord` if it does not have this form,
/// and with `NumberTooWide` if `t` is 2^32 or more.
fn glue_of(lexer: &Lexer<'_>, word: &[u8]) -> Result<Glue, LexFault>
    ensures { Gives (λ g. Some g) result lexer.now (gluing_entry (gluing_of word.now) lexer.now) }
{
    let digits = before_colon(word);
    if !is_decimal_word(digits) {
        return Err(lexer.bad_word());
    }
    let Some(perm) = Perm4::from_word(after_colon(word)) else {
        return Err(lexer.bad_word());
    };
    let Some(tet) = number_of_digits(digits) else {
        let place = lexer.bad_word().place;
        let kind = LexKind::NumberTooWide;
        return Err(LexFault { place, kind });
    };
    Ok(Glue { tet, perm })
}

/// Reads the next word of `lexer` as the entry of a face: `-` for a boundary face, or a gluing `t:p`. Fails if it is
/// missing or no entry.
#[tactic(auto, unfolding(table_definitions::specs::TableText::entry_at))]
fn read_entry(lexer: &mut Lexer<'_>) -> Result<Option<Glue>, LexFault>
    ensures { Gives (λ g. g) result lexer.new (entry_at lexer.old) }
{
    let word = lexer.word()?;
    if word == b"-".as_slice() {
        return Ok(None);
    }
    let glue = glue_of(lexer, word)?;
    Ok(Some(glue))
}

/// Reads the next line of `lexer` as a row of four entries. Fails with the first error on the line, `MissingWord` if
/// there is no line.
#[tactic(auto, unfolding(table_definitions::specs::TableText::row_at))]
fn read_row(lexer: &mut Lexer<'_>) -> Result<Row, LexFault>
    ensures { Gives (λ row. row) result lexer.new (row_at lexer.old) }
{
    lexer.need_line()?;
    let first = read_entry(lexer)?;
    let second = read_entry(lexer)?;
    let third = read_entry(lexer)?;
    let fourth = read_entry(lexer)?;
    lexer.end_line()?;
    Ok([first, second, third, fourth])
}

/// Reads the next `count` lines as rows. Fails at the first line on which `read_row` does.
fn read_lines(alloc: Global, lexer: &mut Lexer<'_>, count: u32) -> Result<Vec<Row>, TextFault>
    ensures { ReadsFrom TextFault.NoMemory (λ rows. rows.items) result lexer.new (lexed (rows_at count lexer.old)) }
{
    let mut rows = Vec::with_capacity(alloc, count as usize)?;
    for _line in 0..count {
        let row = read_row(lexer)?;
        rows.push(row)?;
    }
    Ok(rows)
}

/// Reads the rest of the current line, which has to be empty, and then a table of `count` rows. Fails with the first
/// error in the text, then with that of the table.
#[tactic(auto, unfolding(table_definitions::specs::TableText::counted_rows_at))]
fn read_counted(alloc: Global, lexer: &mut Lexer<'_>, count: u32) -> Result<Table, TextFault>
    ensures { ReadsFrom TextFault.NoMemory (λ table. table) result lexer.new (counted_rows_at count lexer.old) }
{
    lexer.end_line()?;
    let rows = read_lines(alloc, lexer, count)?;
    let table = Table::from_read_rows(alloc, rows)?;
    Ok(table)
}

/// Reads a table from `lexer` after the word `tri`: the number of rows on the same line, then one line per row. Fails
/// with the first fault in reading order. A count above 1,000 is reported before the rest of the line is read; faults
/// of the gluings (`Table`), once all rows are read.
#[tactic(auto, unfolding(table_definitions::specs::TableText::table_at))]
pub fn read_rows(alloc: Global, lexer: &mut Lexer<'_>) -> Result<Table, TextFault>
    ensures { ReadsFrom TextFault.NoMemory (λ table. table) result lexer.new (table_at lexer.old) }
{
    let count = lexer.number(LIMIT)?;
    if count > u128::from(MAX_TETS) {
        return Err(TextFault::Table(TableFault::TooMany));
    }
    read_counted(alloc, lexer, count as u32)
}
