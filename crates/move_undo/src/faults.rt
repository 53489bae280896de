//! Writes why a move is illegal.

ghost use Rattle.std.specs.Prelude.{◌≡◌, ◌++◌, codes, decimal, OnOk};
ghost use Rattle.move_definitions.specs.Sessions.{move_fault_text};

use out_of_memory::NoMemory;
use pachner_moves::MoveFault;
use std::alloc::Global;
use text_io::{append, append_decimal};

/// Appends `not-matched` and the labels `first` and `second`.
fn append_labels(alloc: Global, out: &mut Vec<u8>, first: u8, second: u8) -> Result<(), NoMemory>
    ensures { OnOk result (out.new.items
        ≡ out.old.items ++ codes "not-matched " ++ decimal first ++ codes " " ++ decimal second) }
{
    append(out, b"not-matched ")?;
    append_decimal(alloc, out, u128::from(first))?;
    append(out, b" ")?;
    append_decimal(alloc, out, u128::from(second))?;
    Ok(())
}

/// Appends `word` and a label.
fn append_label(alloc: Global, out: &mut Vec<u8>, word: &[u8], label: u8) -> Result<(), NoMemory>
    ensures { OnOk result (out.new.items ≡ out.old.items ++ word.now ++ decimal label) }
{
    append(out, word)?;
    append_decimal(alloc, out, u128::from(label))?;
    Ok(())
}

fn append_word(out: &mut Vec<u8>, word: &[u8]) -> Result<(), NoMemory>
    ensures { OnOk result (out.new.items ≡ out.old.items ++ word.now) }
{
    append(out, word)?;
    Ok(())
}

/// Appends why a move is illegal, as one word and the labels that `fault` names.
pub fn append_move_fault(alloc: Global, out: &mut Vec<u8>, fault: MoveFault) -> Result<(), NoMemory>
    ensures { OnOk result (out.new.items ≡ out.old.items ++ move_fault_text fault) }
{
    match fault {
        MoveFault::NoSuchTet => append_word(out, b"no-such-tet"),
        MoveFault::Boundary { label } => append_label(alloc, out, b"boundary ", label),
        MoveFault::Repeated { label } => append_label(alloc, out, b"repeated ", label),
        MoveFault::NotMatched { first, second } => append_labels(alloc, out, first, second),
        MoveFault::TooMany => append_word(out, b"too-many"),
    }
}
