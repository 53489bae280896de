//! Reads moves and steps from text.

ghost use Rattle.std.specs.Prelude.{◌≡◌, ◌<◌, [], ◌∷◌, Some, None, option_map, IfSome, IfOk};
ghost use Rattle.table_definitions.specs.Places.{edge_ends};
ghost use Rattle.table_definitions.specs.TableText.{lexed};
ghost use Rattle.text_definitions.specs.Reading.{Gives, ReadsFrom};
ghost use Rattle.text_document_definitions.specs.Documents.{each_line_from};
ghost use Rattle.move_definitions.specs.MoveText as text;
ghost use Rattle.move_undo.specs.Steps.{kind_value, step_value};

use gluing_table::TextFault;
use pachner_moves::{Core, Move};
use std::alloc::Global;
use text_io::{LexFault, Lexer};

/// A line of a script.
#[derive(Clone, Copy)]
pub enum Step {
    /// Play this move.
    Play(Move),
    /// Take back the last played move.
    Undo,
    /// Play again the last move taken back.
    Redo,
}

/// The kinds of moves, by the numbers of tetrahedra that they remove and add.
#[derive(Clone, Copy)]
enum MoveKind {
    OneFour,
    TwoThree,
    ThreeTwo,
    FourOne,
}

/// The kind that `word` names.
fn kind_of(word: &[u8]) -> Option<MoveKind>
    ensures { option_map kind_value result ≡ text.move_kind word.now }
{
    if word == b"14".as_slice() {
        return Some(MoveKind::OneFour);
    }
    if word == b"23".as_slice() {
        return Some(MoveKind::TwoThree);
    }
    if word == b"32".as_slice() {
        return Some(MoveKind::ThreeTwo);
    }
    if word == b"41".as_slice() {
        return Some(MoveKind::FourOne);
    }
    None
}

/// The vertex that `word` names.
fn vertex_named(word: &[u8]) -> Option<u8>
    ensures vertex { option_map (λ v. v ∷ []) result ≡ text.spelled text.single word.now }
    ensures in_range { IfSome result (λ v. v < 4) }
{
    if word == b"0".as_slice() {
        return Some(0);
    }
    if word == b"1".as_slice() {
        return Some(1);
    }
    if word == b"2".as_slice() {
        return Some(2);
    }
    if word == b"3".as_slice() {
        return Some(3);
    }
    None
}

/// The edge, as a core, whose ends `word` names.
fn edge_named(word: &[u8]) -> Option<Core>
    ensures { result ≡ text.spelled edge_ends word.now }
{
    if word == b"01".as_slice() {
        return Some(Core::edge(0));
    }
    if word == b"02".as_slice() {
        return Some(Core::edge(1));
    }
    if word == b"03".as_slice() {
        return Some(Core::edge(2));
    }
    if word == b"12".as_slice() {
        return Some(Core::edge(3));
    }
    if word == b"13".as_slice() {
        return Some(Core::edge(4));
    }
    if word == b"23".as_slice() {
        return Some(Core::edge(5));
    }
    None
}

/// Reads the next word of `lexer` as a vertex. Fails with `BadWord` if it is none.
#[tactic(auto, unfolding(move_definitions::specs::MoveText::vertices_at))]
fn read_vertex(lexer: &mut Lexer<'_>) -> Result<u8, LexFault>
    ensures vertex { Gives (λ v. v ∷ []) result lexer.new (text.vertices_at text.single lexer.old) }
    ensures in_range { IfOk result (λ v. v < 4) }
{
    let word = lexer.word()?;
    vertex_named(word).ok_or(lexer.bad_word())
}

/// Reads the next word of `lexer` as an edge. Fails with `BadWord` if it is none.
#[tactic(auto, unfolding(move_definitions::specs::MoveText::vertices_at))]
fn read_edge(lexer: &mut Lexer<'_>) -> Result<Core, LexFault>
    ensures { Gives (λ core. core) result lexer.new (text.vertices_at edge_ends lexer.old) }
{
    let word = lexer.word()?;
    edge_named(word).ok_or(lexer.bad_word())
}

/// Reads the core of a move of kind `kind`. Fails with the first error in its word.
#[tactic(auto, unfolding(move_definitions::specs::MoveText::core_at))]
fn read_core(lexer: &mut Lexer<'_>, kind: MoveKind) -> Result<Core, LexFault>
    ensures { Gives (λ core. core) result lexer.new (text.core_at (kind_value kind) lexer.old) }
{
    match kind {
        MoveKind::OneFour => Ok(Core::all()),
        MoveKind::TwoThree => Ok(Core::opposite_face(read_vertex(lexer)?)),
        MoveKind::ThreeTwo => read_edge(lexer),
        MoveKind::FourOne => Ok(Core::vertex(read_vertex(lexer)?)),
    }
}

/// Reads a move of kind `kind`, to the end of the line. Fails with the first error on the line.
#[tactic(auto, unfolding(move_definitions::specs::MoveText::kind_at))]
fn read_kind(lexer: &mut Lexer<'_>, kind: MoveKind) -> Result<Move, LexFault>
    ensures { Gives (λ m. m) result lexer.new (text.kind_at (Some (kind_value kind)) lexer.old) }
{
    let tet = lexer.number(u128::from(u32::MAX))? as u32;
    let core = read_core(lexer, kind)?;
    lexer.end_line()?;
    Ok(Move { tet, core })
}

/// Reads the move whose kind is `word`, to the end of the line. Fails with `BadWord` if it is no kind, then with the
/// first error on the line.
#[tactic(auto, unfolding(move_definitions::specs::MoveText::kind_at))]
fn read_named(lexer: &mut Lexer<'_>, word: &[u8]) -> Result<Move, LexFault>
    ensures { Gives (λ m. m) result lexer.new (text.kind_at (text.move_kind word.now) lexer.old) }
{
    match kind_of(word) {
        Some(kind) => read_kind(lexer, kind),
        None => Err(lexer.bad_word()),
    }
}

/// Reads the current line of `lexer`, of which no word is read yet, as a move: its kind, its tetrahedron and its core.
/// Fails at the first missing word (`MissingWord`), byte of no word (`BadByte`), word of another form (`BadWord`),
/// number above 2^32 - 1 (`NumberTooWide`) or superfluous word (`ExtraWord`).
#[tactic(auto, unfolding(move_definitions::specs::MoveText::move_at))]
pub fn read_move(lexer: &mut Lexer<'_>) -> Result<Move, LexFault>
    ensures { Gives (λ m. m) result lexer.new (text.move_at lexer.old) }
{
    let word = lexer.word()?;
    read_named(lexer, word)
}

/// Reads a move from each line that `lexer` has left. Fails at the first line on which `read_move` does.
pub fn read_moves(alloc: Global, lexer: &mut Lexer<'_>) -> Result<Vec<Move>, TextFault>
    ensures { ReadsFrom TextFault.NoMemory (λ moves. moves.items) result lexer.new
        (lexed (each_line_from text.move_at lexer.old.later lexer.old)) }
{
    let mut moves = Vec::new(alloc);
    while lexer.next_line() {
        let m = read_move(lexer)?;
        moves.push(m)?;
    }
    Ok(moves)
}

/// The step `undo` or `redo`, if `word` is one of them.
fn step_named(word: &[u8]) -> Option<Step>
    ensures { option_map step_value result ≡ text.step_word word.now }
{
    if word == b"undo".as_slice() {
        return Some(Step::Undo);
    }
    if word == b"redo".as_slice() {
        return Some(Step::Redo);
    }
    None
}

/// Reads the move whose kind is `word`, as a step. Fails as `read_named`.
#[tactic(auto, unfolding(move_definitions::specs::MoveText::named_step_at))]
fn read_played(lexer: &mut Lexer<'_>, word: &[u8]) -> Result<Step, LexFault>
    ensures { Gives step_value result lexer.new (text.named_step_at None word.now lexer.old) }
{
    let m = read_named(lexer, word)?;
    Ok(Step::Play(m))
}

/// Reads the end of the line of `lexer` after `undo` or `redo`. Fails if the line does not end there.
#[tactic(auto, unfolding(move_definitions::specs::MoveText::named_step_at))]
fn end_step(lexer: &mut Lexer<'_>, word: &[u8], step: Step) -> Result<Step, LexFault>
    ensures { Gives step_value result lexer.new (text.named_step_at (Some (step_value step)) word.now lexer.old) }
{
    lexer.end_line()?;
    Ok(step)
}

/// Reads the current line of `lexer`, of which no word is read yet, as a step: `undo`, `redo` or a move. Fails as
/// `read_move`.
#[tactic(auto, unfolding(move_definitions::specs::MoveText::step_at))]
pub fn read_step(lexer: &mut Lexer<'_>) -> Result<Step, LexFault>
    ensures { Gives step_value result lexer.new (text.step_at lexer.old) }
{
    let word = lexer.word()?;
    match step_named(word) {
        Some(step) => end_step(lexer, word, step),
        None => read_played(lexer, word),
    }
}
