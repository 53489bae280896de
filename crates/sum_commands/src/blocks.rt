//! Reads the document of a table and blocks of sums.
ghost use Rattle.std.specs.Prelude.{◌≤◌, length};
ghost use Rattle.text_definitions.specs.Text.{max_text};
ghost use Rattle.text_definitions.specs.Reading.{Reads, ReadsFrom};
ghost use Rattle.table_definitions.specs.TableText.{lexed};
ghost use Rattle.text_document_definitions.specs.Blocks.{blocks_document, blocks_from, block_at, term_at, terms_at, times_at};
ghost use Rattle.ray_decompose.specs.Sums.{term_of};
ghost use Rattle.sum_commands.specs.Blocks.{block_of, blocks_of, sum_of, given_terms};

use command_answers::{read_numbers, read_table, read_vector};
use gluing_table::{Table, TextFault};
use ray_decompose::Given;
use signature_codec::InputFault;
use std::alloc::Global;
use text_io::{LIMIT, Lexer};

/// The greatest number of terms of a block.
const MOST_TERMS: u128 = 10000;

/// A block: the vector `vector`, taken `times` times, and the terms that are to add up to it.
#[derive(Drop)]
pub struct Block {
    pub vector: Vec<u128>,
    pub times: u128,
    pub terms: Vec<Given>,
}

/// A table and blocks.
#[derive(Drop)]
pub struct TableAndBlocks {
    pub table: Table,
    pub blocks: Vec<Block>,
}

/// The number of times that a vector is taken, and the terms.
#[derive(Drop)]
struct Times {
    times: u128,
    terms: Vec<Given>,
}

/// Reads a line `term K` with entries from `lexer`. Fails with the first error on the line, `MissingWord` if there is
/// no line.
#[tactic(auto, unfolding(text_document_definitions::specs::Blocks::term_at, text_definitions::specs::Reading::exactly_at))]
fn read_term(alloc: Global, lexer: &mut Lexer<'_>) -> Result<Given, TextFault>
    ensures { ReadsFrom TextFault.NoMemory term_of result lexer.new (lexed (term_at lexer.old)) }
{
    lexer.need_line()?;
    let word = lexer.word()?;
    if word != b"term".as_slice() {
        return Err(TextFault::Lex(lexer.bad_word()));
    }
    let count = lexer.number(LIMIT)?;
    let entries = read_numbers(alloc, lexer)?;
    Ok(Given { count, entries })
}

/// Reads the next `count` lines as terms. Fails at the first line on which `read_term` does.
fn read_terms(alloc: Global, lexer: &mut Lexer<'_>, count: u32) -> Result<Vec<Given>, TextFault>
    ensures { ReadsFrom TextFault.NoMemory given_terms result lexer.new (lexed (terms_at count lexer.old)) }
{
    let mut terms = Vec::new(alloc);
    for _number in 0..count {
        let term = read_term(alloc, lexer)?;
        terms.push(term)?;
    }
    Ok(terms)
}

/// Reads a line `times S T` and T terms from `lexer`. Fails with the first error on these lines.
#[tactic(auto, unfolding(text_document_definitions::specs::Blocks::times_at, text_definitions::specs::Reading::exactly_at))]
fn read_times(alloc: Global, lexer: &mut Lexer<'_>) -> Result<Times, TextFault>
    ensures { ReadsFrom TextFault.NoMemory sum_of result lexer.new (lexed (times_at lexer.old)) }
{
    lexer.need_line()?;
    let word = lexer.word()?;
    if word != b"times".as_slice() {
        return Err(TextFault::Lex(lexer.bad_word()));
    }
    let times = lexer.number(LIMIT)?;
    let count = lexer.number(MOST_TERMS)? as u32;
    lexer.end_line()?;
    let terms = read_terms(alloc, lexer, count)?;
    Ok(Times { times, terms })
}

/// Reads a block from the current line of `lexer` on, of which no word is read yet. Fails with the first error on its
/// lines.
#[tactic(auto, unfolding(text_document_definitions::specs::Blocks::block_at))]
fn read_block(alloc: Global, lexer: &mut Lexer<'_>) -> Result<Block, TextFault>
    ensures { ReadsFrom TextFault.NoMemory block_of result lexer.new (lexed (block_at lexer.old)) }
{
    let vector = read_vector(alloc, lexer)?;
    let Times { times, terms } = read_times(alloc, lexer)?;
    Ok(Block {
        vector,
        times,
        terms,
    })
}

/// Reads the blocks up to the end of the input of `lexer`. Fails at the first block at which `read_block` does.
fn read_blocks(alloc: Global, lexer: &mut Lexer<'_>) -> Result<Vec<Block>, TextFault>
    ensures { ReadsFrom TextFault.NoMemory blocks_of result lexer.new (lexed (blocks_from lexer.old.later lexer.old)) }
{
    let mut blocks = Vec::new(alloc);
    while lexer.next_line() {
        let block = read_block(alloc, lexer)?;
        blocks.push(block)?;
    }
    Ok(blocks)
}

/// Reads `bytes` as a table and blocks: a line `vec`, a line `times S T`, and T lines `term`. Fails with the first
/// error of the table, then of the blocks.
#[tactic(auto, unfolding(text_document_definitions::specs::Blocks::blocks_document))]
pub fn read_table_and_blocks(alloc: Global, bytes: &[u8]) -> Result<TableAndBlocks, InputFault>
    requires { length bytes.now ≤ max_text }
    ensures { Reads InputFault.NoMemory (λ d. (d.table, blocks_of d.blocks)) result (blocks_document bytes.now) }
{
    let mut lexer = Lexer::new(bytes);
    let table = read_table(alloc, &mut lexer)?;
    let blocks = read_blocks(alloc, &mut lexer)?;
    Ok(TableAndBlocks { table, blocks })
}
