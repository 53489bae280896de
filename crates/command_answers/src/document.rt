//! Reads the documents of the commands.
ghost use Rattle.std.specs.Prelude.{◌≤◌, length};
ghost use Rattle.text_definitions.specs.Text.{max_text};
ghost use Rattle.text_definitions.specs.Reading.{Moves, Reads, ReadsFrom};
ghost use Rattle.text_document_definitions.specs.Documents.{next_table_at, no_line_at, table_document, two_tables_document, vector_document, vectors_document};
ghost use Rattle.command_answers.specs.Reads.{entries_of};

use crate::vectors::{read_vector, read_vectors};
use gluing_table::Table;
use signature_codec::{InputFault, read_any};
use std::alloc::Global;
use text_io::{LexFault, Lexer};

/// Two tables.
#[derive(Drop)]
pub struct TwoTables {
    pub first: Table,
    pub second: Table,
}

/// A table and vectors.
#[derive(Drop)]
pub struct TableAndVectors {
    pub table: Table,
    pub vectors: Vec<Vec<u128>>,
}

/// A table and one vector.
#[derive(Drop)]
pub struct TableAndVector {
    pub table: Table,
    pub vector: Vec<u128>,
}

/// Checks that `lexer` has no line left. Fails with `ExtraWord` at the first word of the next line, or with `BadByte`
/// at a byte that no word contains.
pub fn end_document(lexer: &mut Lexer<'_>) -> Result<(), LexFault>
    ensures { Moves result lexer.new (no_line_at lexer.old) }
{
    if !lexer.next_line() {
        return Ok(());
    }
    lexer.end_line()
}

/// Reads a table from the next lines of `lexer`, as rows or as a signature. Fails with the first error in the text,
/// `MissingWord` if there is no line.
#[tactic(auto, unfolding(text_document_definitions::specs::Documents::next_table_at))]
pub fn read_table(alloc: Global, lexer: &mut Lexer<'_>) -> Result<Table, InputFault>
    ensures { ReadsFrom InputFault.NoMemory (λ table. table) result lexer.new (next_table_at lexer.old) }
{
    lexer.need_line()?;
    read_any(alloc, lexer)
}

/// Reads `bytes` as one table. Fails with the first error of the table; then with `ExtraWord` or `BadByte` if a line
/// follows.
#[tactic(auto, unfolding(text_document_definitions::specs::Documents::table_document))]
pub fn read_table_document(alloc: Global, bytes: &[u8]) -> Result<Table, InputFault>
    requires { length bytes.now ≤ max_text }
    ensures { Reads InputFault.NoMemory (λ table. table) result (table_document bytes.now) }
{
    let mut lexer = Lexer::new(bytes);
    let table = read_table(alloc, &mut lexer)?;
    end_document(&mut lexer)?;
    Ok(table)
}

/// Reads `bytes` as two tables. Fails with the first error of the first table, then of the second; then with
/// `ExtraWord` or `BadByte` if a line follows.
#[tactic(auto, unfolding(text_document_definitions::specs::Documents::two_tables_document))]
pub fn read_two_tables(alloc: Global, bytes: &[u8]) -> Result<TwoTables, InputFault>
    requires { length bytes.now ≤ max_text }
    ensures { Reads InputFault.NoMemory (λ d. (d.first, d.second)) result (two_tables_document bytes.now) }
{
    let mut lexer = Lexer::new(bytes);
    let first = read_table(alloc, &mut lexer)?;
    let second = read_table(alloc, &mut lexer)?;
    end_document(&mut lexer)?;
    Ok(TwoTables { first, second })
}

/// Reads `bytes` as a table and a vector on each further line. Fails with the first error of the table, then of the
/// vectors.
#[tactic(auto, unfolding(text_document_definitions::specs::Documents::table_and_lines))]
pub fn read_table_and_vectors(alloc: Global, bytes: &[u8]) -> Result<TableAndVectors, InputFault>
    requires { length bytes.now ≤ max_text }
    ensures { Reads InputFault.NoMemory (λ d. (d.table, entries_of d.vectors)) result (vectors_document bytes.now) }
{
    let mut lexer = Lexer::new(bytes);
    let table = read_table(alloc, &mut lexer)?;
    let vectors = read_vectors(alloc, &mut lexer)?;
    Ok(TableAndVectors { table, vectors })
}

/// Reads `bytes` as a table and one vector. Fails with the first error of the table, then of the vector; then with
/// `ExtraWord` or `BadByte` if a line follows.
#[tactic(auto, unfolding(text_document_definitions::specs::Documents::vector_document))]
pub fn read_table_and_vector(alloc: Global, bytes: &[u8]) -> Result<TableAndVector, InputFault>
    requires { length bytes.now ≤ max_text }
    ensures { Reads InputFault.NoMemory (λ d. (d.table, d.vector.items)) result (vector_document bytes.now) }
{
    let mut lexer = Lexer::new(bytes);
    let table = read_table(alloc, &mut lexer)?;
    lexer.need_line()?;
    let vector = read_vector(alloc, &mut lexer)?;
    end_document(&mut lexer)?;
    Ok(TableAndVector { table, vector })
}
