//! Runs the steps of a script.
ghost use Rattle.std.specs.Prelude.{◌≡◌, ◌++◌, codes, IfOk, OnOk};
ghost use Rattle.move_definitions.specs.MoveText as text;
ghost use Rattle.move_definitions.specs.Sessions.{move_fault_text};
ghost use Rattle.text_definitions.specs.Written.{line};
ghost use Rattle.move_undo.specs.Steps.{step_value};
ghost use Rattle.move_commands.specs.Scripts.{all_steps, Steps, Plays};

use move_undo::{PlayFault, Session, Step, append_move_fault};
use out_of_memory::NoMemory;
use pachner_moves::{Move, MoveFault};
use std::alloc::Global;
use text_io::append;

fn append_word(out: &mut Vec<u8>, word: &[u8]) -> Result<(), NoMemory>
    ensures { OnOk result (out.new.items ≡ out.old.items ++ word.now) }
{
    append(out, word)?;
    Ok(())
}

/// Appends the line of an illegal move, with the reason `fault`.
fn append_illegal(alloc: Global, out: &mut Vec<u8>, fault: MoveFault) -> Result<(), NoMemory>
    ensures { OnOk result (out.new.items ≡ out.old.items ++ line (codes "illegal " ++ move_fault_text fault)) }
{
    append(out, b"illegal ")?;
    append_move_fault(alloc, out, fault)?;
    append(out, b"\n")?;
    Ok(())
}

/// Plays `m` on `session`, and appends the line of the result.
fn play_move(
    alloc: Global,
    out: &mut Vec<u8>,
    session: &mut Session,
    m: Move,
) -> Result<(), NoMemory>
    ensures { OnOk result (Steps session.old (text.play m) session.new out.old.items out.new.items) }
{
    match session.play(m) {
        Ok(()) => append_word(out, b"done\n"),
        Err(PlayFault::Illegal(fault)) => append_illegal(alloc, out, fault),
        Err(PlayFault::NoMemory) => Err(NoMemory),
    }
}

/// Takes the last move of `session` back, and appends the line of the result.
fn undo_move(out: &mut Vec<u8>, session: &mut Session) -> Result<(), NoMemory>
    ensures { OnOk result (Steps session.old text.undo session.new out.old.items out.new.items) }
{
    if session.undo() {
        append_word(out, b"undone\n")
    } else {
        append_word(out, b"nothing\n")
    }
}

/// Plays again the last move that `session` took back, and appends the line of the result.
fn redo_move(out: &mut Vec<u8>, session: &mut Session) -> Result<(), NoMemory>
    ensures { OnOk result (Steps session.old text.redo session.new out.old.items out.new.items) }
{
    if session.redo() {
        append_word(out, b"redone\n")
    } else {
        append_word(out, b"nothing\n")
    }
}

/// Runs `step` on `session`, and appends the line of its result.
fn take_step(
    alloc: Global,
    out: &mut Vec<u8>,
    session: &mut Session,
    step: Step,
) -> Result<(), NoMemory>
    ensures { OnOk result (Steps session.old (step_value step) session.new out.old.items out.new.items) }
{
    match step {
        Step::Play(m) => play_move(alloc, out, session, m),
        Step::Undo => undo_move(out, session),
        Step::Redo => redo_move(out, session),
    }
}

/// Runs `steps` on `session`, and returns the lines of their results.
pub fn take_steps(alloc: Global, session: &mut Session, steps: &[Step]) -> Result<Vec<u8>, NoMemory>
    ensures { IfOk result (λ text. Plays session.old (all_steps steps.now) session.new text.items) }
{
    let mut text = Vec::new(alloc);
    for step in steps {
        take_step(alloc, &mut text, session, *step)?;
    }
    Ok(text)
}
