//! Reads vectors from text.
ghost use Rattle.text_definitions.specs.Written.{limit};
ghost use Rattle.cone_text_definitions.specs.VectorText.{vector_at};
ghost use Rattle.text_document_definitions.specs.Documents.{each_line_from};
ghost use Rattle.text_definitions.specs.Reading.{ReadsFrom, numbers_at};
ghost use Rattle.table_definitions.specs.TableText.{lexed};
ghost use Rattle.command_answers.specs.Reads.{entries_of};

use gluing_table::TextFault;
use std::alloc::Global;
use text_io::{LIMIT, Lexer};

/// Reads the decimals up to the end of the line of `lexer`. Fails at the first byte of no word (`BadByte`), word that
/// is no decimal (`BadWord`), or number above 2^127 - 1 (`NumberTooWide`).
pub fn read_numbers(alloc: Global, lexer: &mut Lexer<'_>) -> Result<Vec<u128>, TextFault>
    ensures { ReadsFrom TextFault.NoMemory (λ v. v.items) result lexer.new (lexed (numbers_at limit lexer.old)) }
{
    let mut numbers = Vec::new(alloc);
    while let Some(number) = lexer.number_or_end(LIMIT)? {
        numbers.push(number)?;
    }
    Ok(numbers)
}

/// Reads the current line of `lexer`, of which no word is read yet, as a vector. Fails with `MissingWord`, `BadByte` or
/// `BadWord` if the line does not begin with `vec`, and then as `read_numbers`.
#[tactic(auto, unfolding(cone_text_definitions::specs::VectorText::vector_at, text_definitions::specs::Reading::exactly_at))]
pub fn read_vector(alloc: Global, lexer: &mut Lexer<'_>) -> Result<Vec<u128>, TextFault>
    ensures { ReadsFrom TextFault.NoMemory (λ v. v.items) result lexer.new (lexed (vector_at lexer.old)) }
{
    let word = lexer.word()?;
    if word != b"vec".as_slice() {
        return Err(TextFault::Lex(lexer.bad_word()));
    }
    read_numbers(alloc, lexer)
}

/// Reads a vector from each line that `lexer` has left. Fails at the first line on which `read_vector` does.
pub fn read_vectors(alloc: Global, lexer: &mut Lexer<'_>) -> Result<Vec<Vec<u128>>, TextFault>
    ensures { ReadsFrom TextFault.NoMemory entries_of result lexer.new
        (lexed (each_line_from vector_at lexer.old.later lexer.old)) }
{
    let mut vectors = Vec::new(alloc);
    while lexer.next_line() {
        let vector = read_vector(alloc, lexer)?;
        vectors.push(vector)?;
    }
    Ok(vectors)
}
