//! Reads cones in text: `cone C R`, and R lines of C coefficients, or no line if C is 0.

ghost use Rattle.std.specs.Prelude.{◌≡◌, ◌<◌, IfOk, OnOk, ◌++◌, replicate, []};
ghost use Rattle.cone_arithmetic.specs.Sparse.{IsInRange};
ghost use Rattle.cone_core.specs.ConeReads.{GivesHere, GivesCone, sparse_row_at, entries_of, sparse_entries_at, sparse_rows_at};
ghost use Rattle.cone_text_definitions.specs.ConeText.{cone_at};

use cone_arithmetic::{MAX_COEFFICIENT, SparseRow, System};
use out_of_memory::NoMemory;
use smallvec::SmallVec;
use std::alloc::{AllocFailed, Global};
use text_io::{LexFault, Lexer};

/// The greatest number of columns and of rows of a cone in text.
const MAX_COUNT: u128 = 10000;

/// Why `read_cone` fails: the first error in the text, or memory runs out.
#[derive(Clone, Copy)]
pub enum ConeFault {
    Lex(LexFault),
    NoMemory,
}

impl From<LexFault> for ConeFault {
    ghost use Rattle.std.specs.Prelude.{◌≡◌};
    ghost use Rattle.cone_core.specs.declared.reader.ConeFault.TheVariants.{Lex};

    ghost from_gives = { λ lex fault. fault ≡ Lex lex };

    fn from(lex: LexFault) -> ConeFault {
        ConeFault::Lex(lex)
    }
}

impl From<NoMemory> for ConeFault {
    ghost use Rattle.std.specs.Prelude.{◌≡◌};
    ghost use Rattle.cone_core.specs.declared.reader.ConeFault.TheVariants.{NoMemory};

    ghost from_gives = { λ _ fault. fault ≡ NoMemory };

    fn from(_error: NoMemory) -> ConeFault {
        ConeFault::NoMemory
    }
}

impl<T: Drop> From<AllocFailed<T>> for ConeFault {
    ghost use Rattle.std.specs.Prelude.{◌≡◌};
    ghost use Rattle.cone_core.specs.declared.reader.ConeFault.TheVariants.{NoMemory};

    ghost from_gives = { λ _ fault. fault ≡ NoMemory };

    fn from(_failed: AllocFailed<T>) -> ConeFault {
        ConeFault::NoMemory
    }
}

/// Appends `coefficient` in `column`, unless it is 0. Fails only if memory runs out.
fn push_coefficient(
    entries: &mut SmallVec<(u32, i32), 8>,
    column: u32,
    coefficient: i32,
) -> Result<(), AllocFailed<(u32, i32)>>
    ensures { OnOk result (entries.new.items ≡ entries.old.items ++ entries_of column coefficient) }
{
    if coefficient != 0 {
        entries.push((column, coefficient))?;
    }
    Ok(())
}

/// Reads the next `columns` coefficients of the line as a row. Fails at the first word that is missing or no
/// coefficient.
fn read_entries(alloc: Global, lexer: &mut Lexer<'_>, columns: u32) -> Result<SparseRow, ConeFault>
    ensures gives { GivesHere (λ row. row) result lexer.new (sparse_entries_at columns lexer.old) }
    ensures in_range { IfOk result (IsInRange columns) }
{
    let mut entries = SmallVec::new(alloc);
    for column in 0..columns {
        let coefficient = lexer.signed(MAX_COEFFICIENT)?;
        push_coefficient(&mut entries, column, coefficient)?;
    }
    Ok(SparseRow::of(entries))
}

/// Reads a line of `columns` coefficients. Fails with the first error on the line, `MissingWord` if there is no line.
#[tactic(auto, unfolding(cone_text_definitions::specs::ConeText::cone_row_at))]
fn read_row(alloc: Global, lexer: &mut Lexer<'_>, columns: u32) -> Result<SparseRow, ConeFault>
    ensures gives { GivesHere (λ row. row) result lexer.new (sparse_row_at columns lexer.old) }
    ensures in_range { IfOk result (IsInRange columns) }
{
    lexer.need_line()?;
    let row = read_entries(alloc, lexer, columns)?;
    lexer.end_line()?;
    Ok(row)
}

/// Reads the next `count` lines as rows of `columns` coefficients. Fails at the first line on which `read_row` does.
fn read_rows(
    alloc: Global,
    lexer: &mut Lexer<'_>,
    columns: u32,
    count: u32,
) -> Result<System, ConeFault>
    ensures gives { GivesHere (λ system. system.rows) result lexer.new (sparse_rows_at count columns lexer.old) }
    ensures columns { IfOk result (λ system. system.columns ≡ columns) }
{
    let mut system = System::new(alloc, columns);
    for _number in 0..count {
        let row = read_row(alloc, lexer, columns)?;
        system.push_row(row)?;
    }
    Ok(system)
}

/// A system of `count` rows without columns, for which the text has no lines.
fn rows_of_no_columns(alloc: Global, count: u32) -> Result<System, NoMemory>
    ensures rows { IfOk result (λ system. system.rows ≡ replicate count []) }
    ensures columns { IfOk result (λ system. system.columns ≡ 0) }
{
    let mut system = System::new(alloc, 0);
    for _number in 0..count {
        system.push_row(SparseRow::new(alloc, &[])?)?;
    }
    Ok(system)
}

/// Reads a cone from the current line of `lexer` on, of which no word is read yet. Fails with the first error in the
/// text: `BadWord` also if the first word is not `cone`, and `NumberTooWide` for a count above 10,000 or a coefficient
/// of magnitude above 1,000,000.
#[tactic(auto, unfolding(cone_text_definitions::specs::ConeText::cone_at, text_definitions::specs::Reading::exactly_at))]
pub fn read_cone(alloc: Global, lexer: &mut Lexer<'_>) -> Result<System, ConeFault>
    ensures { GivesCone result lexer.new (cone_at lexer.old) }
{
    let word = lexer.word()?;
    if word != b"cone".as_slice() {
        return Err(ConeFault::Lex(lexer.bad_word()));
    }
    let columns = lexer.number(MAX_COUNT)? as u32;
    let count = lexer.number(MAX_COUNT)? as u32;
    lexer.end_line()?;
    if columns == 0 {
        let system = rows_of_no_columns(alloc, count)?;
        return Ok(system);
    }
    read_rows(alloc, lexer, columns, count)
}
