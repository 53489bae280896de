//! Reads a table in either form.

ghost use Rattle.text_definitions.specs.Reading.{ReadsFrom};
ghost use Rattle.signature_definitions.specs.SignatureText.{signature_at, any_table_at};

use crate::{InputFault, read_signature};
use gluing_table::{Table, TextFault, read_rows};
use std::alloc::Global;
use text_io::Lexer;

/// Reads the signature after the word `sig`, alone on the rest of the line of `lexer`, as a table. Fails with the first
/// error on the line, then with that of the signature.
#[tactic(auto, unfolding(signature_definitions::specs::SignatureText::signature_at))]
fn read_signature_line(alloc: Global, lexer: &mut Lexer<'_>) -> Result<Table, InputFault>
    ensures { ReadsFrom InputFault.NoMemory (λ table. table) result lexer.new (signature_at lexer.old) }
{
    let text = lexer.word()?;
    lexer.end_line()?;
    let table = read_signature(alloc, text)?;
    Ok(table)
}

/// Reads a table from the current line of `lexer` on, of which no word is read yet: after `tri` the number of rows and
/// a line for each, or after `sig` a signature. Fails with the first error of the text, `BadWord` if the first word is
/// neither; after an error nothing is stated about the position.
#[tactic(auto, unfolding(signature_definitions::specs::SignatureText::any_table_at))]
pub fn read_any(alloc: Global, lexer: &mut Lexer<'_>) -> Result<Table, InputFault>
    ensures { ReadsFrom InputFault.NoMemory (λ table. table) result lexer.new (any_table_at lexer.old) }
{
    let word = lexer.word()?;
    if word == b"tri".as_slice() {
        let table = read_rows(alloc, lexer)?;
        return Ok(table);
    }
    if word == b"sig".as_slice() {
        let table = read_signature_line(alloc, lexer)?;
        return Ok(table);
    }
    Err(InputFault::Text(TextFault::Lex(lexer.bad_word())))
}
