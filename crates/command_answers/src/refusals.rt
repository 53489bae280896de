//! Writes the one line of each refusal.
ghost use Rattle.std.specs.Prelude.{◌≡◌, ◌≢◌, ◌++◌, codes, decimal, IfOk, OnOk};
ghost use Rattle.outcome_definitions.specs.Lines as lines;
ghost use Rattle.outcome_definitions.specs.Canonical as canonical;
ghost use Rattle.surface_vector_definitions.specs.Texts.{invalid_edge_line};
ghost use Rattle.command_answers.specs.Refusals.{IsFaultOutcome};

use crate::outcome::Outcome;
use gluing_table::{TableFault, TextFault};
use out_of_memory::NoMemory;
use outcome_definitions::Status;
use signature_codec::{InputFault, SigFault};
use std::alloc::Global;
use text_io::{LexFault, LexKind, append, append_decimal};

fn kind_word(kind: LexKind) -> &'static [u8]
    ensures { result.now ≡ lines.kind_text kind }
{
    match kind {
        LexKind::BadByte => b"bad-byte",
        LexKind::MissingWord => b"missing-word",
        LexKind::NumberTooWide => b"too-wide",
        LexKind::ExtraWord => b"extra-word",
        LexKind::BadWord => b"bad-word",
    }
}

/// The line of `fault`, the first error in the words of an input: its place and its kind.
#[tactic(auto, unfolding(outcome_definitions::specs::Lines::lex_line))]
fn lex_fault_line(alloc: Global, fault: LexFault) -> Result<Vec<u8>, NoMemory>
    ensures { IfOk result (λ text. text.items ≡ lines.lex_line fault) }
{
    let mut text = Vec::new(alloc);
    append(&mut text, b"refused: input ")?;
    append_decimal(alloc, &mut text, u128::from(fault.place.line))?;
    append(&mut text, b" ")?;
    append_decimal(alloc, &mut text, u128::from(fault.place.column))?;
    append(&mut text, b" ")?;
    append(&mut text, kind_word(fault.kind))?;
    append(&mut text, b"\n")?;
    Ok(text)
}

/// The line of an error at face `face` of tetrahedron `tet`.
fn face_fault_line(alloc: Global, kind: &[u8], tet: u32, face: u8) -> Result<Vec<u8>, NoMemory>
    ensures { IfOk result (λ text. text.items ≡ lines.face_line kind.now (record { tet = tet; face = face })) }
{
    let mut text = Vec::new(alloc);
    append(&mut text, b"refused: table ")?;
    append(&mut text, kind)?;
    append(&mut text, b" ")?;
    append_decimal(alloc, &mut text, u128::from(tet))?;
    append(&mut text, b" ")?;
    append_decimal(alloc, &mut text, u128::from(face))?;
    append(&mut text, b"\n")?;
    Ok(text)
}

/// The line of `fault`, the error that rows are no table.
#[tactic(auto, unfolding(outcome_definitions::specs::Lines::table_line))]
fn table_line(alloc: Global, fault: TableFault) -> Result<Vec<u8>, NoMemory>
    ensures { IfOk result (λ text. text.items ≡ lines.table_line fault) }
{
    match fault {
        TableFault::NoMemory => Err(NoMemory),
        TableFault::TooMany => fixed_line(alloc, b"refused: table too-many\n"),
        TableFault::NoSuchTet { tet, face } => face_fault_line(alloc, b"no-such-tet", tet, face),
        TableFault::SelfGlued { tet, face } => face_fault_line(alloc, b"self-glued", tet, face),
        TableFault::NotMutual { tet, face } => face_fault_line(alloc, b"not-mutual", tet, face),
    }
}

/// The line of an error at position `at` of a signature.
fn place_fault_line(alloc: Global, kind: &[u8], at: usize) -> Result<Vec<u8>, NoMemory>
    ensures { IfOk result (λ text. text.items ≡ lines.place_line kind.now at) }
{
    let mut text = Vec::new(alloc);
    append(&mut text, b"refused: signature ")?;
    append(&mut text, kind)?;
    append(&mut text, b" ")?;
    append_decimal(alloc, &mut text, at as u128)?;
    append(&mut text, b"\n")?;
    Ok(text)
}

fn fixed_line(alloc: Global, line: &[u8]) -> Result<Vec<u8>, NoMemory>
    ensures { IfOk result (λ text. text.items ≡ line.now) }
{
    let mut text = Vec::new(alloc);
    append(&mut text, line)?;
    Ok(text)
}

/// The line of `fault`, the error that a text is no signature.
#[tactic(auto, unfolding(outcome_definitions::specs::Lines::signature_line))]
fn signature_line(alloc: Global, fault: SigFault) -> Result<Vec<u8>, NoMemory>
    ensures { IfOk result (λ text. text.items ≡ lines.signature_line fault) }
{
    match fault {
        SigFault::NoMemory => Err(NoMemory),
        SigFault::BadChar { at } => place_fault_line(alloc, b"bad-char", at),
        SigFault::Short { at } => place_fault_line(alloc, b"short", at),
        SigFault::BadType { at } => place_fault_line(alloc, b"bad-type", at),
        SigFault::Leftover { at } => place_fault_line(alloc, b"leftover", at),
        SigFault::Destination { at } => place_fault_line(alloc, b"destination", at),
        SigFault::Gluing { at } => place_fault_line(alloc, b"gluing", at),
        SigFault::FaceTaken { at } => place_fault_line(alloc, b"face-taken", at),
        SigFault::Trailing { at } => place_fault_line(alloc, b"trailing", at),
        SigFault::TooMany => fixed_line(alloc, b"refused: signature too-many\n"),
        SigFault::Unreached => fixed_line(alloc, b"refused: signature unreached\n"),
        SigFault::Width { at } => place_fault_line(alloc, b"width", at),
    }
}

/// The line of `fault`, an error in a table in the form `tri`.
fn text_line(alloc: Global, fault: TextFault) -> Result<Vec<u8>, NoMemory>
    ensures { IfOk result (λ text. text.items ≡ lines.text_line fault) }
{
    match fault {
        TextFault::NoMemory => Err(NoMemory),
        TextFault::Lex(fault) => lex_fault_line(alloc, fault),
        TextFault::Table(fault) => table_line(alloc, fault),
    }
}

fn input_line(alloc: Global, fault: InputFault) -> Result<Vec<u8>, NoMemory>
    ensures line { IfOk result (λ text. text.items ≡ lines.input_line fault) }
    ensures no_memory { OnOk result (fault ≢ InputFault.NoMemory) }
{
    match fault {
        InputFault::NoMemory => Err(NoMemory),
        InputFault::Text(fault) => text_line(alloc, fault),
        InputFault::Signature(fault) => signature_line(alloc, fault),
    }
}

/// The line of a disconnected table: its number `table`, and its least tetrahedron `tet` not reached from tetrahedron
/// 0.
#[tactic(auto, unfolding(outcome_definitions::specs::Canonical::not_connected_line))]
fn not_connected_line(alloc: Global, table: u32, tet: u32) -> Result<Vec<u8>, NoMemory>
    ensures { IfOk result (λ text. text.items ≡ canonical.not_connected_line table tet) }
{
    let mut text = Vec::new(alloc);
    append(&mut text, b"refused: not-connected ")?;
    append_decimal(alloc, &mut text, u128::from(table))?;
    append(&mut text, b" ")?;
    append_decimal(alloc, &mut text, u128::from(tet))?;
    append(&mut text, b"\n")?;
    Ok(text)
}

/// The outcome if table `table`, counted from 0, is disconnected; `tet` is its least tetrahedron not reached from
/// tetrahedron 0.
pub fn not_connected_outcome(alloc: Global, table: u32, tet: u32) -> Result<Outcome, NoMemory>
    ensures { IfOk result (λ o. o ≡ canonical.not_connected_outcome table tet) }
{
    let text = not_connected_line(alloc, table, tet)?;
    Ok(Outcome::with_text(Status::Refused, text))
}

/// The outcome if edge class `class` is invalid.
#[tactic(auto, unfolding(surface_vector_definitions::specs::Texts::invalid_edge_line))]
pub fn invalid_edge_outcome(alloc: Global, class: u32) -> Result<Outcome, NoMemory>
    ensures { IfOk result (λ o. o ≡ record { status = Status.Refused; text = invalid_edge_line class }) }
{
    let mut text = Vec::new(alloc);
    append(&mut text, b"refused: invalid-edge ")?;
    append_decimal(alloc, &mut text, u128::from(class))?;
    append(&mut text, b"\n")?;
    Ok(Outcome::with_text(Status::Refused, text))
}

/// The beginning of the line that refuses vector `vector`, counted from 0: all up to the reason.
pub fn refused_vector(alloc: Global, vector: usize) -> Result<Vec<u8>, NoMemory>
    ensures { IfOk result (λ text. text.items ≡ codes "refused: vector " ++ decimal vector ++ codes " ") }
{
    let mut text = Vec::new(alloc);
    append(&mut text, b"refused: vector ")?;
    append_decimal(alloc, &mut text, vector as u128)?;
    append(&mut text, b" ")?;
    Ok(text)
}

/// The outcome of an input with the error `fault`.
pub fn fault_outcome(alloc: Global, fault: InputFault) -> Result<Outcome, NoMemory>
    ensures { IfOk result (IsFaultOutcome fault) }
{
    let text = input_line(alloc, fault)?;
    Ok(Outcome::with_text(Status::Input, text))
}
